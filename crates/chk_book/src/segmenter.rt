//! Writes one segment in parts.

ghost use Rattle.std.specs.Prelude.{◌≡◌, ◌-◌, ◌^◌, ◌<◌, IsTrue};
ghost use Rattle.chk_bytes.specs.Numbers.{last_number};
ghost use Rattle.chk_book.specs.Folders.{is_folder};
ghost use Rattle.chk_book.specs.Recent.{IsRecent};

use crate::book::Book;
use crate::files::{append_to, begin_segment_file, finish_file};
use crate::lists::{Ends, Segment};
use crate::noting::note;
use crate::{JobFault, names};
use chk_bytes::{Bytes, LAST_NUMBER, NoMemory, Word};
use chk_chunk::{Chunk, ChunkRef};
use chk_record_index::LastKey;
use chk_seqfile::SeqWriter;
use chk_site::{OutsideFault, Site, Who};
use std::alloc::Global;

/// Where this many bytes are still to be appended, they are appended.
const BUFFER: usize = 1 << 20;

/// Behind this many bytes nothing more is written to a segment.
const MOST_BYTES: u64 = 1 << 62;

/// A segment under writing. It holds at most 1,048,576 bytes and one record that aren't appended yet.
#[derive(Drop)]
pub struct Segmenter {
    pub who: Who,
    pub folder: Word,
    pub number: u64,
    pub writer: SeqWriter,
    pub buffer: Bytes,
    key: LastKey,
    /// The ends that its parts give their streams, in turn; those of neighbours of one stream as one.
    pub ends: Ends,
    ghost folder_can: { IsTrue (is_folder folder) },
    ghost numbered: { number < last_number },
    ghost recent: { IsRecent key ends },
}

impl Book {
    ghost use Rattle.std.specs.Prelude.{◌+◌, All, IfOk, IfErr, OnOk, OnErr};
    ghost use Rattle.chk_chunk.specs.Lent.{chunk_of, chunks_of};
    ghost use Rattle.chk_book.specs.Adding.{is_part, HasAdded};
    ghost use Rattle.chk_site.specs.History.{Every};
    ghost use Rattle.chk_site.specs.Site.{Adds};
    ghost use Rattle.chk_site.specs.Runs.{anyhow, Leads};
    ghost use Rattle.chk_world.specs.Sight.{job};
    ghost use Rattle.chk_world.specs.JobSteps.{IsOf, WritesTo, SparesFile};
    ghost use Rattle.chk_record_index.specs.Faults.{JobCause, FailsLast, IsOfBegin};
    ghost use Rattle.chk_book.specs.Causes.{SpentBook};
    ghost use Rattle.chk_book.specs.Folders.{segment_name};
    ghost use Rattle.chk_book.specs.Books.{book_view};
    ghost use Rattle.chk_book.specs.Segmenting.{begun};
    ghost use Rattle.chk_book.specs.Written.{IsAt, HasBegun};

    /// Begins the next segment of a folder: removes its file where one is there, creates it, and appends the header. It
    /// costs three calls. `Spent` comes exactly where the next number is 2^63 - 1; where it is past that, as in no book
    /// that is loaded, `NoMemory` comes.
    pub fn begin_segment<S: Site>(
        &self,
        alloc: Global,
        site: &mut S,
        who: &Who,
        folder: &str,
    ) -> Result<Segmenter, JobFault>
        requires { IsTrue (is_folder folder.now) }
        ensures raw { Adds (S.told site.old) (S.told site.new)
            (Leads (anyhow (SparesFile (segment_name folder.now (book_view self.now).next))) (λ h. Unit {0})
            (HasBegun folder.now (book_view self.now) result)) }
        ensures at { IfOk result (λ s. IsAt s (begun folder.now (book_view self.now).next)) }
        ensures who { IfOk result (λ s. s.who ≡ who.now) }
        ensures own { who.now ≡ job → Adds (S.told site.old) (S.told site.new)
            (Every (IsOf (WritesTo (segment_name folder.now (book_view self.now).next)))) }
        ensures spent { SpentBook (book_view self.now) result }
        ensures only { IfErr result IsOfBegin }
        ensures last { Adds (S.told site.old) (S.told site.new) (FailsLast result) }
        ensures cause { JobCause (S.fault_count site.old) (S.fault_count site.new) result }
    {
        if self.next == LAST_NUMBER {
            return Err(JobFault::Spent { number: self.next });
        }
        if self.next > LAST_NUMBER {
            return Err(JobFault::NoMemory);
        }
        let segmenter = Segmenter::new(alloc, who, folder, self.next)?;
        begin_segment_file(alloc, site, who, folder, self.next)?;
        Ok(segmenter)
    }

    /// Writes the next segment of these chunks, in their order, and enters it: `begin_segment`, a `part` for each of them, and
    /// `finish`. Each part is to begin where its stream's records in the named segments and in the parts before it end. After a
    /// refusal the book is as before.
    pub fn add_segment<S: Site>(
        &mut self,
        alloc: Global,
        site: &mut S,
        who: &Who,
        folder: &str,
        parts: &[Chunk],
    ) -> Result<(), JobFault>
        requires folder { IsTrue (is_folder folder.now) }
        requires parts { All (λ c. IsTrue (is_part folder.now (chunk_of c))) parts.now }
        ensures raw { Adds (S.told site.old) (S.told site.new)
            (Leads (anyhow (SparesFile (segment_name folder.now (book_view self.old).next))) (λ h. Unit {0})
            (HasAdded folder.now (chunks_of parts.now) (book_view self.old) (book_view self.new) result)) }
        ensures own { who.now ≡ job → Adds (S.told site.old) (S.told site.new)
            (Every (IsOf (WritesTo (segment_name folder.now (book_view self.old).next)))) }
        ensures same { OnErr result (book_view self.new ≡ book_view self.old) }
        ensures next { OnOk result ((book_view self.new).next ≡ (book_view self.old).next + 1) }
        ensures spent { SpentBook (book_view self.old) result }
        ensures only { IfErr result IsOfBegin }
        ensures last { Adds (S.told site.old) (S.told site.new) (FailsLast result) }
        ensures cause { JobCause (S.fault_count site.old) (S.fault_count site.new) result }
    {
        let mut segmenter = self.begin_segment(alloc, site, who, folder)?;
        for part in parts {
            segmenter.part(alloc, site, &part.lend())?;
        }
        segmenter.finish(alloc, site, self)
    }
}

impl Segmenter {
    ghost use Rattle.std.specs.Prelude.{◌∷◌, [], ◌+◌, IfOk, IfErr, OnOk, OnErr, List, ℕ, length, string_bytes};
    ghost use Rattle.chk_site.specs.History.{Every};
    ghost use Rattle.chk_site.specs.Site.{Adds, OutsideCause};
    ghost use Rattle.chk_site.specs.Runs.{anyhow, Leads, MadeInTurn};
    ghost use Rattle.chk_chunk.specs.Keys.{is_key, has_value};
    ghost use Rattle.chk_chunk.specs.Lent.{lent_chunk};
    ghost use Rattle.chk_world.specs.Sight.{job};
    ghost use Rattle.chk_world.specs.JobSteps.{IsOf, WritesTo, SparesFile};
    ghost use Rattle.chk_record_index.specs.Faults.{JobCause, FailsLast, IsOfWrite};
    ghost use Rattle.chk_book.specs.Folders.{segment_name, most_in};
    ghost use Rattle.chk_book.specs.Books.{book_view};
    ghost use Rattle.chk_book.specs.Storing.{appending, ending};
    ghost use Rattle.chk_book.specs.Segmenting.{Writing, HoldsSegment, begun, grown};
    ghost use Rattle.chk_book.specs.Written.{IsAt, next_piece, taken, HasTaken, HasEnded, HasEndedAside};

    /// The segment of this number, of which only the header is written.
    fn new(alloc: Global, who: &Who, folder: &str, number: u64) -> Result<Segmenter, NoMemory>
        requires folder { IsTrue (is_folder folder.now) }
        requires number { number < last_number }
        ensures at { IfOk result (λ s. IsAt s (begun folder.now number)) }
        ensures who { IfOk result (λ s. s.who ≡ who.now) }
    {
        let stem = names::segment_stem(alloc, number)?;
        Ok(Segmenter {
            who: who.copy()?,
            folder: Word::from_text(alloc, folder)?,
            number,
            writer: SeqWriter::after_header(stem.as_str()),
            buffer: Bytes::new(alloc),
            key: LastKey::new(alloc)?,
            ends: Ends::new(alloc),
        })
    }

    /// Writes a chunk behind the others, as a part of its stream's records. Its bytes are moved once into the buffer; where
    /// that then has 1,048,576 bytes or more, it is appended. Where its stream, start and cluster are those of the part before,
    /// its texts are compared once, and no more than its sequence id is spelled. Nothing is written behind 2^62 bytes:
    /// `NoMemory` comes then. After a refusal nothing is said of the segment; no book names its file, and the next segment of
    /// this number replaces it.
    pub fn part<S: Site>(
        &mut self,
        alloc: Global,
        site: &mut S,
        chunk: &ChunkRef<'_>,
    ) -> Result<(), JobFault>
        requires key { IsTrue (is_key (lent_chunk chunk.now).key) }
        requires value { IsTrue (has_value (most_in self.old.folder) (lent_chunk chunk.now).key (lent_chunk chunk.now).value) }
        ensures raw { (w : Writing) → IsAt self.old w → Adds (S.told site.old) (S.told site.new)
            (Leads (anyhow (SparesFile (segment_name w.folder w.number))) (HoldsSegment w)
            (HasTaken self.old w (lent_chunk chunk.now) result)) }
        ensures at { (w : Writing) → IsAt self.old w → OnOk result (IsAt self.new (taken self.old w (lent_chunk chunk.now))) }
        ensures who { self.new.who ≡ self.old.who }
        ensures own { (w : Writing) → IsAt self.old w → self.old.who ≡ job → Adds (S.told site.old) (S.told site.new)
            (Every (IsOf (WritesTo (segment_name w.folder w.number)))) }
        ensures only { IfErr result IsOfWrite }
        ensures last { Adds (S.told site.old) (S.told site.new) (FailsLast result) }
        ensures cause { JobCause (S.fault_count site.old) (S.fault_count site.new) result }
    {
        self.take(alloc, site, chunk)
    }

    /// Writes a whole chunk behind the others, for an aside segment. It does and costs what `part` does.
    pub fn aside<S: Site>(
        &mut self,
        alloc: Global,
        site: &mut S,
        chunk: &ChunkRef<'_>,
    ) -> Result<(), JobFault>
        requires key { IsTrue (is_key (lent_chunk chunk.now).key) }
        requires value { IsTrue (has_value (most_in self.old.folder) (lent_chunk chunk.now).key (lent_chunk chunk.now).value) }
        ensures raw { (w : Writing) → IsAt self.old w → Adds (S.told site.old) (S.told site.new)
            (Leads (anyhow (SparesFile (segment_name w.folder w.number))) (HoldsSegment w)
            (HasTaken self.old w (lent_chunk chunk.now) result)) }
        ensures at { (w : Writing) → IsAt self.old w → OnOk result (IsAt self.new (taken self.old w (lent_chunk chunk.now))) }
        ensures who { self.new.who ≡ self.old.who }
        ensures own { (w : Writing) → IsAt self.old w → self.old.who ≡ job → Adds (S.told site.old) (S.told site.new)
            (Every (IsOf (WritesTo (segment_name w.folder w.number)))) }
        ensures only { IfErr result IsOfWrite }
        ensures last { Adds (S.told site.old) (S.told site.new) (FailsLast result) }
        ensures cause { JobCause (S.fault_count site.old) (S.fault_count site.new) result }
    {
        self.take(alloc, site, chunk)
    }

    fn take<S: Site>(
        &mut self,
        alloc: Global,
        site: &mut S,
        chunk: &ChunkRef<'_>,
    ) -> Result<(), JobFault>
        requires key { IsTrue (is_key (lent_chunk chunk.now).key) }
        requires value { IsTrue (has_value (most_in self.old.folder) (lent_chunk chunk.now).key (lent_chunk chunk.now).value) }
        ensures raw { (w : Writing) → IsAt self.old w → Adds (S.told site.old) (S.told site.new)
            (Leads (anyhow (SparesFile (segment_name w.folder w.number))) (HoldsSegment w)
            (HasTaken self.old w (lent_chunk chunk.now) result)) }
        ensures at { (w : Writing) → IsAt self.old w → OnOk result (IsAt self.new (taken self.old w (lent_chunk chunk.now))) }
        ensures who { self.new.who ≡ self.old.who }
        ensures own { (w : Writing) → IsAt self.old w → self.old.who ≡ job → Adds (S.told site.old) (S.told site.new)
            (Every (IsOf (WritesTo (segment_name w.folder w.number)))) }
        ensures only { IfErr result IsOfWrite }
        ensures last { Adds (S.told site.old) (S.told site.new) (FailsLast result) }
        ensures cause { JobCause (S.fault_count site.old) (S.fault_count site.new) result }
    {
        self.push(alloc, chunk)?;
        if self.buffer.len() < BUFFER {
            return Ok(());
        }
        self.append_buffer(alloc, site)?;
        Ok(())
    }

    /// Puts a chunk's record into the buffer.
    fn push(&mut self, alloc: Global, chunk: &ChunkRef<'_>) -> Result<(), NoMemory>
        requires key { IsTrue (is_key (lent_chunk chunk.now).key) }
        requires value { IsTrue (has_value (most_in self.old.folder) (lent_chunk chunk.now).key (lent_chunk chunk.now).value) }
        ensures at { OnOk result ((w : Writing) → IsAt self.old w
            → IsAt self.new (grown w (lent_chunk chunk.now) (next_piece self.old (lent_chunk chunk.now)))) }
        ensures who { self.new.who ≡ self.old.who }
    {
        if self.writer.place > MOST_BYTES {
            return Err(NoMemory);
        }
        note(&mut self.key, &mut self.ends, alloc, chunk)?;
        self.writer
            .entry_to(&mut self.buffer, self.key.as_slice(), chunk.body)
    }

    /// Appends what is in the buffer.
    fn append_buffer<S: Site>(&mut self, alloc: Global, site: &mut S) -> Result<(), OutsideFault>
        ensures told { MadeInTurn (appending self.old.who (segment_name self.old.folder self.old.number) self.old.buffer) result
            (S.told site.old) (S.told site.new) }
        ensures cause { OutsideCause (S.fault_count site.old) (S.fault_count site.new) result }
        ensures who { self.new.who ≡ self.old.who }
        ensures buffer { OnOk result (self.new.buffer ≡ []) }
        ensures folder { self.new.folder ≡ self.old.folder }
        ensures number { self.new.number ≡ self.old.number }
        ensures writer { self.new.writer ≡ self.old.writer }
        ensures ends { self.new.ends ≡ self.old.ends }
    {
        let name = names::segment_name(alloc, self.folder.as_str(), self.number)?;
        append_to(
            alloc,
            site,
            &self.who,
            name.as_str(),
            self.buffer.as_slice(),
        )?;
        self.buffer.truncate(0);
        Ok(())
    }

    /// Appends what is in the buffer, and syncs the file.
    fn end_file<S: Site>(&self, alloc: Global, site: &mut S) -> Result<(), OutsideFault>
        ensures told { MadeInTurn (ending self.now.who (segment_name self.now.folder self.now.number) self.now.buffer) result
            (S.told site.old) (S.told site.new) }
        ensures cause { OutsideCause (S.fault_count site.old) (S.fault_count site.new) result }
    {
        let name = names::segment_name(alloc, self.folder.as_str(), self.number)?;
        finish_file(
            alloc,
            site,
            &self.who,
            name.as_str(),
            self.buffer.as_slice(),
        )
    }

    /// The segment, as a book names it.
    fn segment(&self) -> Segment
        ensures number { result.number ≡ self.now.number }
        ensures length { result.length ≡ self.now.writer.place }
    {
        Segment {
            number: self.number,
            length: self.writer.place,
        }
    }

    /// Appends the rest, syncs the file, and enters the segment. `book` is as it was when the segment was begun; after a
    /// refusal it is as before. It costs two calls, and a copy of the book's lists.
    pub fn finish<S: Site>(
        self,
        alloc: Global,
        site: &mut S,
        book: &mut Book,
    ) -> Result<(), JobFault>
        requires { self.number ≡ (book_view book.old).next }
        ensures raw { (w : Writing) → IsAt self w → Adds (S.told site.old) (S.told site.new)
            (Leads (anyhow (SparesFile (segment_name w.folder w.number))) (HoldsSegment w)
            (HasEnded w (book_view book.old) (book_view book.new) result)) }
        ensures own { (w : Writing) → IsAt self w → self.who ≡ job → Adds (S.told site.old) (S.told site.new)
            (Every (IsOf (WritesTo (segment_name w.folder w.number)))) }
        ensures same { OnErr result (book_view book.new ≡ book_view book.old) }
        ensures next { OnOk result ((book_view book.new).next ≡ (book_view book.old).next + 1) }
        ensures aside { (book_view book.new).aside ≡ (book_view book.old).aside }
        ensures only { IfErr result IsOfWrite }
        ensures last { Adds (S.told site.old) (S.told site.new) (FailsLast result) }
        ensures cause { JobCause (S.fault_count site.old) (S.fault_count site.new) result }
    {
        self.enter(alloc, site, book)
    }

    /// Appends the rest, syncs the file, and enters the segment.
    fn enter<S: Site>(&self, alloc: Global, site: &mut S, book: &mut Book) -> Result<(), JobFault>
        ensures raw { (w : Writing) → IsAt self.now w → Adds (S.told site.old) (S.told site.new)
            (Leads (anyhow (SparesFile (segment_name w.folder w.number))) (HoldsSegment w)
            (HasEnded w (book_view book.old) (book_view book.new) result)) }
        ensures own { (w : Writing) → IsAt self.now w → self.now.who ≡ job → Adds (S.told site.old) (S.told site.new)
            (Every (IsOf (WritesTo (segment_name w.folder w.number)))) }
        ensures same { OnErr result (book_view book.new ≡ book_view book.old) }
        ensures next { OnOk result ((book_view book.new).next ≡ self.now.number + 1) }
        ensures aside { OnOk result ((book_view book.new).aside ≡ (book_view book.old).aside) }
        ensures only { IfErr result IsOfWrite }
        ensures last { Adds (S.told site.old) (S.told site.new) (FailsLast result) }
        ensures cause { JobCause (S.fault_count site.old) (S.fault_count site.new) result }
    {
        let next = book.with_segment(alloc, self.segment(), &self.ends)?;
        self.end_file(alloc, site)?;
        *book = next;
        Ok(())
    }

    /// Appends the rest, syncs the file, and makes the segment the book's aside segment. `book` is as it was when the segment
    /// was begun; after a refusal it is as before. It costs two calls.
    pub fn finish_aside<S: Site>(
        self,
        alloc: Global,
        site: &mut S,
        book: &mut Book,
    ) -> Result<(), JobFault>
        requires { self.number ≡ (book_view book.old).next }
        ensures raw { (w : Writing) → IsAt self w → Adds (S.told site.old) (S.told site.new)
            (Leads (anyhow (SparesFile (segment_name w.folder w.number))) (HoldsSegment w)
            (HasEndedAside w (book_view book.old) (book_view book.new) result)) }
        ensures own { (w : Writing) → IsAt self w → self.who ≡ job → Adds (S.told site.old) (S.told site.new)
            (Every (IsOf (WritesTo (segment_name w.folder w.number)))) }
        ensures same { OnErr result (book_view book.new ≡ book_view book.old) }
        ensures next { OnOk result ((book_view book.new).next ≡ (book_view book.old).next + 1) }
        ensures only { IfErr result IsOfWrite }
        ensures last { Adds (S.told site.old) (S.told site.new) (FailsLast result) }
        ensures cause { JobCause (S.fault_count site.old) (S.fault_count site.new) result }
    {
        self.end_file(alloc, site)?;
        book.next = self.number + 1;
        book.aside = Some(self.segment());
        Ok(())
    }
}
