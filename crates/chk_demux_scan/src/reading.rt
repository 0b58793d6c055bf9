//! The newest segments are read, until they suffice.

ghost use Rattle.std.specs.Prelude.{◌≡◌, ◌+◌, ◌≤◌, ◌<◌, ℕ, [], Option, length, drop, map, IsTrue, IfOk, IfErr, OnOk};
ghost use Rattle.chk_bytes.specs.Words.{is_word};
ghost use Rattle.chk_site.specs.Files.{File, Files};
ghost use Rattle.chk_site.specs.Effect.{IsSmallFile};
ghost use Rattle.chk_site.specs.History.{Every};
ghost use Rattle.chk_site.specs.Site.{Adds};
ghost use Rattle.chk_site.specs.Runs.{anyhow, Leads};
ghost use Rattle.chk_replace.specs.Load.{Has};
ghost use Rattle.chk_world.specs.Books.{ends_rise};
ghost use Rattle.chk_world.specs.Sight.{job};
ghost use Rattle.chk_world.specs.JobSteps.{IsOf, ReadsFile, SparesFile};
ghost use Rattle.chk_record_index.specs.Faults.{JobCause, FailsLast, IsOfWrite};
ghost use Rattle.chk_record_index.specs.Pieces.{AsksInPieces};
ghost use Rattle.chk_record_index.specs.declared.fault.JobFault.TheVariants.{NoMemory};
ghost use Rattle.chk_book.specs.declared.lists.End.{End as EndStruct};
ghost use Rattle.chk_book.specs.Books.{book_view};
ghost use Rattle.chk_book.specs.Views.{end_view};
ghost use Rattle.chk_record_reader.specs.Segments.{HasFiles, SparesFiles, AreSettled};
ghost use Rattle.chk_demux_scan.specs.Newest.{FoundNewest, ShowsNewest, ShowsTook, TookNext, ReadBack, ShowsBack};

use crate::backward::{ends_of, reach_places, reach_starts};
use crate::forward::join_spans;
use crate::looking::{Look, look_file};
use chk_book::{Book, End};
use chk_bytes::{NoMemory, Word};
use chk_record_index::{Heads, JobFault};
use chk_site::{Site, Who};
use std::alloc::Global;

/// The heads of what is new in the newest of these files, which are the segments that the book of
/// an archive names, in its order: of as few of them as reach back, for each stream of the book,
/// to its place in `places` or below it; of all of them, back to the streams' starts, where fewer
/// don't. They are those of the records there that end past their streams' places, and stand in
/// order, each with the place of its file's name.
///
/// The answer is `None` where one of the files that were read isn't one of chunks, or the records
/// in them don't go on from each other up to their streams' ends in the book: whoever reads all
/// files can tell what is damaged. `Damaged` and `Spent` never come.
///
/// The files are read from the last one back, each once and in pieces of at most 1,048,576 bytes;
/// without a stream whose place is below its end no file is read. It holds a head of 32 bytes for
/// each record that ends past its stream's place, 24 bytes for each stream, and a piece and a
/// record of one file. Each record costs a search among the streams, and each file a pass over
/// them.
pub fn newest_heads<S: Site>(
    alloc: Global,
    site: &mut S,
    who: &Who,
    book: &Book,
    places: &[u64],
    names: &[Word],
) -> Result<Option<Heads>, JobFault>
    requires job { who.now ≡ job }
    requires places { length places.now ≡ length (book_view book.now).ends }
    ensures raw { (held : Files) (k : ℕ) → IsTrue (ends_rise (book_view book.now).ends)
        → k ≤ length names.now
        → AreSettled (drop k names.now) held → Adds (S.told site.old) (S.told site.new)
        (Leads (anyhow (SparesFiles (drop k names.now))) (HasFiles (drop k names.now) held)
        (FoundNewest (book_view book.now).ends places.now names.now held k result)) }
    ensures shown { IsTrue (ends_rise (book_view book.now).ends)
        → Adds (S.told site.old) (S.told site.new)
        (ShowsNewest (book_view book.now).ends places.now names.now result) }
    ensures own { Adds (S.told site.old) (S.told site.new) (Every (IsOf ReadsFile)) }
    ensures pieces { Adds (S.told site.old) (S.told site.new) (Every AsksInPieces) }
    ensures only { IfErr result IsOfWrite }
    ensures last { Adds (S.told site.old) (S.told site.new) (FailsLast result) }
    ensures cause { JobCause (S.fault_count site.old) (S.fault_count site.new) result }
{
    let ends = book.ends.as_slice();
    let mut begins = ends_of(alloc, ends)?;
    let mut heads = Heads::new(alloc);
    if !read_back(
        alloc,
        site,
        who,
        ends,
        places,
        names,
        &mut begins,
        &mut heads,
    )? {
        return Ok(None);
    }
    heads.sort(alloc)?;
    Ok(Some(heads))
}

/// Reads files from the last one back until they suffice; the answer is `false` where what was
/// read isn't as the book says. The heads stand in the order of the reading.
fn read_back<S: Site>(
    alloc: Global,
    site: &mut S,
    who: &Who,
    ends: &[End],
    places: &[u64],
    names: &[Word],
    begins: &mut Vec<u64>,
    heads: &mut Heads,
) -> Result<bool, JobFault>
    requires job { who.now ≡ job }
    requires places { length places.now ≡ length ends.now }
    requires begins { begins.old.items ≡ map (λ (e : EndStruct). e.end) ends.now }
    requires heads { heads.old ≡ [] }
    ensures raw { (held : Files) (k : ℕ) → IsTrue (ends_rise (map end_view ends.now))
        → k ≤ length names.now
        → AreSettled (drop k names.now) held → Adds (S.told site.old) (S.told site.new)
        (Leads (anyhow (SparesFiles (drop k names.now))) (HasFiles (drop k names.now) held)
        (ReadBack (map end_view ends.now) places.now names.now held k heads.new result)) }
    ensures shown { IsTrue (ends_rise (map end_view ends.now))
        → Adds (S.told site.old) (S.told site.new)
        (ShowsBack (map end_view ends.now) places.now names.now heads.new result) }
    ensures own { Adds (S.told site.old) (S.told site.new) (Every (IsOf ReadsFile)) }
    ensures pieces { Adds (S.told site.old) (S.told site.new) (Every AsksInPieces) }
    ensures only { IfErr result IsOfWrite }
    ensures last { Adds (S.told site.old) (S.told site.new) (FailsLast result) }
    ensures cause { JobCause (S.fault_count site.old) (S.fault_count site.new) result }
{
    for index in (0..names.len()).rev() {
        if reach_places(begins, places) {
            return Ok(true);
        }
        if !take_next(
            alloc,
            site,
            who,
            ends,
            places,
            names[index].as_str(),
            index,
            begins,
            heads,
        )? {
            return Ok(false);
        }
    }
    Ok(reach_starts(ends, begins))
}

/// Looks at a file's records, and holds the heads of those of what is new; where they are in front
/// of those of the later files, the streams begin where they do.
fn take_next<S: Site>(
    alloc: Global,
    site: &mut S,
    who: &Who,
    ends: &[End],
    places: &[u64],
    name: &str,
    number: usize,
    begins: &mut Vec<u64>,
    heads: &mut Heads,
) -> Result<bool, JobFault>
    requires job { who.now ≡ job }
    requires word { IsTrue (is_word name.now) }
    requires places { length places.now ≡ length ends.now }
    requires begins { length begins.old.items ≡ length ends.now }
    ensures raw { (f : Option File) → IsTrue (ends_rise (map end_view ends.now)) → IsSmallFile f
        → Adds (S.told site.old) (S.told site.new)
        (Leads (anyhow (SparesFile name.now)) (Has name.now f)
        (TookNext (map end_view ends.now) places.now name.now f number heads.old heads.new
        begins.old.items begins.new.items result)) }
    ensures same { OnOk result (length begins.new.items ≡ length ends.now) }
    ensures shown { IsTrue (ends_rise (map end_view ends.now))
        → Adds (S.told site.old) (S.told site.new)
        (ShowsTook (map end_view ends.now) places.now name.now number heads.old heads.new
        begins.old.items begins.new.items result) }
    ensures own { Adds (S.told site.old) (S.told site.new) (Every (IsOf ReadsFile)) }
    ensures pieces { Adds (S.told site.old) (S.told site.new) (Every AsksInPieces) }
    ensures only { IfErr result IsOfWrite }
    ensures last { Adds (S.told site.old) (S.told site.new) (FailsLast result) }
    ensures cause { JobCause (S.fault_count site.old) (S.fault_count site.new) result }
{
    let Ok(file) = number_of(number) else {
        return Err(JobFault::NoMemory);
    };
    let mut look = Look::new(alloc, ends)?;
    if !look_file(alloc, site, who, ends, places, name, file, &mut look, heads)? {
        return Ok(false);
    }
    if look.broken {
        return Ok(false);
    }
    Ok(join_spans(ends, look.spans.as_slice(), begins))
}

/// The number of a file, of which 32 bits count.
fn number_of(place: usize) -> Result<u32, NoMemory>
    ensures { IfOk result (λ n. n ≡ place) }
{
    u32::try_from(place).map_err(|_| NoMemory)
}
