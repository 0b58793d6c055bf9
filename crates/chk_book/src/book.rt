//! The book of a folder.

ghost use Rattle.std.specs.Prelude.{◌≡◌, ◌<◌, ◌^◌, map, Option, IsTrue, IfOk, IfErr};
ghost use Rattle.chk_site.specs.Files.{File};
ghost use Rattle.chk_site.specs.Effect.{IsSmallFile};
ghost use Rattle.chk_site.specs.History.{Every};
ghost use Rattle.chk_site.specs.Site.{Adds, LastFailed, OutsideCause};
ghost use Rattle.chk_site.specs.Runs.{anyhow, Leads, MadeInTurn};
ghost use Rattle.chk_replace.specs.Load.{Has};
ghost use Rattle.chk_replace.specs.Replace.{replacement};
ghost use Rattle.chk_world.specs.Sight.{job};
ghost use Rattle.chk_world.specs.JobSteps.{IsOf, ReadsFile, SparesFile};
ghost use Rattle.chk_chunk.specs.Keys.{same_stream};
ghost use Rattle.chk_world.specs.Books.{empty_book, is_book, book_bytes, written_version};
ghost use Rattle.chk_record_index.specs.Faults.{JobCause, FailsLast, IsOfRead, IsOfWrite};
ghost use Rattle.chk_book.specs.Publishing.{site_result};
ghost use Rattle.chk_record_index.specs.Pieces.{AsksInPieces};
ghost use Rattle.chk_book.specs.Folders.{is_folder, book_name};
ghost use Rattle.chk_book.specs.Books.{book_view, end_in};
ghost use Rattle.chk_book.specs.Views.{end_view, segment_view};
ghost use Rattle.chk_book.specs.Segmenting.{entered};
ghost use Rattle.chk_book.specs.Loaded.{LoadedBook, ReadBook, ShowsBook, book_result};

use crate::fields::BookFault;
use crate::lists::{End, Ends, Segment, Segments};
use crate::names;
use crate::reading::read_book;
use crate::writing::bytes_of;
use chk_bytes::{Bytes, NoMemory, Word};
use chk_record_index::{JobFault, read_file};
use chk_replace::replace;
use chk_site::{OutsideFault, Site, Who};
use std::alloc::Global;

/// A book: which segments hold a folder's records, and where each stream begins and ends.
#[derive(Debug, Drop)]
pub struct Book {
    /// The number of the next segment, from 1 on.
    pub next: u64,
    pub segments: Segments,
    pub ends: Ends,
    /// The segment of the chunks past a gap. It isn't one of `segments`.
    pub aside: Option<Segment>,
}

impl Book {
    /// The book of a folder that has none: no segment, no stream, and the next number 1. It takes no memory.
    pub fn new(alloc: Global) -> Book
        ensures { book_view result ≡ empty_book }
    {
        Book {
            next: 1,
            segments: Segments::new(alloc),
            ends: Ends::new(alloc),
            aside: None,
        }
    }

    /// Publishes the book: writes it to `<folder>/book.tmp`, syncs that and renames it. The folder's book is the old one or
    /// this one at every moment, also after a refusal. It costs five calls and twice the book's bytes.
    pub fn publish<S: Site>(
        &self,
        alloc: Global,
        site: &mut S,
        who: &Who,
        folder: &str,
    ) -> Result<(), JobFault>
        requires folder { IsTrue (is_folder folder.now) }
        requires book { IsTrue (is_book (written_version (book_view self.now)) (book_view self.now)) }
        ensures told { MadeInTurn (replacement who.now (book_name folder.now)
            (book_bytes (written_version (book_view self.now)) (book_view self.now))) (site_result result)
            (S.told site.old) (S.told site.new) }
        ensures only { IfErr result IsOfWrite }
        ensures last { Adds (S.told site.old) (S.told site.new) (FailsLast result) }
        ensures cause { JobCause (S.fault_count site.old) (S.fault_count site.new) result }
    {
        self.write(alloc, site, who, folder)?;
        Ok(())
    }

    /// What `publish` does, for a caller that has no other faults than those of calls and of memory.
    pub fn write<S: Site>(
        &self,
        alloc: Global,
        site: &mut S,
        who: &Who,
        folder: &str,
    ) -> Result<(), OutsideFault>
        requires folder { IsTrue (is_folder folder.now) }
        requires book { IsTrue (is_book (written_version (book_view self.now)) (book_view self.now)) }
        ensures told { MadeInTurn (replacement who.now (book_name folder.now)
            (book_bytes (written_version (book_view self.now)) (book_view self.now))) result
            (S.told site.old) (S.told site.new) }
        ensures last { Adds (S.told site.old) (S.told site.new) (LastFailed result) }
        ensures cause { OutsideCause (S.fault_count site.old) (S.fault_count site.new) result }
    {
        let name = names::book_name(alloc, folder)?;
        let bytes = bytes_of(alloc, self)?;
        replace(alloc, site, who, name.as_str(), bytes.as_slice())
    }

    /// The book with one segment more, and the ends raised in turn. It costs a copy of the lists, and the product of both lists
    /// of ends.
    pub(crate) fn with_segment(
        &self,
        alloc: Global,
        segment: Segment,
        ends: &Ends,
    ) -> Result<Book, NoMemory>
        requires { segment.number < 2 ^ 63 }
        ensures { IfOk result (λ b. book_view b ≡ entered (book_view self.now) (segment_view segment) (map end_view ends.now)) }
    {
        let mut segments = self.segments.copy()?;
        segments.push(segment)?;
        Ok(Book {
            next: segment.number + 1,
            segments,
            ends: self.ends.raised_by(alloc, ends)?,
            aside: self.aside,
        })
    }

    /// The offset past the last byte of a stream's records, 0 for a stream that isn't there. It costs the number of streams.
    pub fn archived_end(&self, source: &str, kind: &str, name: &str) -> u64
        ensures { result ≡ end_in 0 (book_view self.now).ends (record { source = source.now; kind = kind.now; name = name.now }) }
    {
        for end in self.ends.as_slice() {
            if is_of(end, source, kind, name) {
                return end.end;
            }
        }
        0
    }
}

/// The end is that of this stream.
fn is_of(end: &End, source: &str, kind: &str, name: &str) -> bool
    ensures { result ≡ same_stream (record { source = source.now; kind = kind.now; name = name.now }) (end_view end.now).stream }
{
    source == end.source.as_str() && kind == end.kind.as_str() && name == end.name.as_str()
}

/// The book of a folder, the empty one where there is none. It reads the file `<folder>/book` alone, in pieces of at most
/// 1,048,576 bytes, and costs its length; it holds all of it meanwhile. `Damaged` comes exactly where the file isn't a book,
/// with its name and the place of its first wrong field. `Spent` never comes.
pub fn load_book<S: Site>(
    alloc: Global,
    site: &mut S,
    who: &Who,
    folder: &str,
) -> Result<Book, JobFault>
    requires { IsTrue (is_folder folder.now) }
    ensures raw { (file : Option File) → IsSmallFile file → Adds (S.told site.old) (S.told site.new)
        (Leads (anyhow (SparesFile (book_name folder.now))) (Has (book_name folder.now) file)
        (LoadedBook folder.now file (book_result result))) }
    ensures shown { Adds (S.told site.old) (S.told site.new) (ShowsBook folder.now (book_result result)) }
    ensures own { who.now ≡ job → Adds (S.told site.old) (S.told site.new) (Every (IsOf ReadsFile)) }
    ensures pieces { Adds (S.told site.old) (S.told site.new) (Every AsksInPieces) }
    ensures only { IfErr result IsOfRead }
    ensures last { Adds (S.told site.old) (S.told site.new) (FailsLast result) }
    ensures cause { JobCause (S.fault_count site.old) (S.fault_count site.new) result }
{
    let name = names::book_name(alloc, folder)?;
    let given = read_file(alloc, site, who, name.as_str())?;
    book_of(alloc, given, name)
}

/// The book that a file's bytes are, the empty one where there is no file.
fn book_of(alloc: Global, given: Option<Bytes>, name: Word) -> Result<Book, JobFault>
    ensures { ReadBook given name (book_result result) }
{
    let Some(bytes) = given else {
        return Ok(Book::new(alloc));
    };
    match read_book(alloc, bytes.as_slice()) {
        Ok(book) => Ok(book),
        Err(BookFault::Damaged { at }) => Err(JobFault::Damaged { name, at }),
        Err(BookFault::NoMemory) => Err(JobFault::NoMemory),
    }
}
