//! The segment to which a demux run writes records, once it has one.

ghost use Rattle.std.specs.Prelude.{◌≡◌, ◌+◌, ◌++◌, ◌∷◌, ◌-◌, ◌^◌, [], ℕ, List, length, nat_eq, codes, IsTrue, IfOk, IfErr, OnOk, OnErr, None};
ghost use Rattle.chk_bytes.specs.Numbers.{last_number};
ghost use Rattle.chk_site.specs.Site.{Adds};
ghost use Rattle.chk_site.specs.Runs.{Leads};
ghost use Rattle.chk_chunk.specs.Keys.{Chunk, is_key, has_value, record_limit};
ghost use Rattle.chk_chunk.specs.Lent.{lent_chunk};
ghost use Rattle.chk_world.specs.Places.{As};
ghost use Rattle.chk_world.specs.Sight.{job, Sight, AtJob};
ghost use Rattle.chk_world.specs.JobSteps.{WritesTo};
ghost use Rattle.chk_record_index.specs.Faults.{JobCause, IsOfWrite};
ghost use Rattle.chk_book.specs.Folders.{segment_name};
ghost use Rattle.chk_book.specs.Books.{book_view};
ghost use Rattle.chk_record_index.specs.declared.fault.JobFault.TheVariants.{NoMemory};
ghost use Rattle.chk_demux.specs.Working.{Worked, EndsSo};
ghost use Rattle.chk_demux.specs.Writes.{IsFree, IsWriter, IsOutput, SoFar, IsSoFar, IsForDemux};

use chk_book::{Book, Segmenter};
use chk_bytes::LAST_NUMBER;
use chk_chunk::ChunkRef;
use chk_record_index::JobFault;
use chk_site::{Site, Who};
use std::alloc::Global;

/// The segment, once a record was written, and what was written.
#[derive(Drop)]
pub(crate) struct Output {
    pub segmenter: Option<Segmenter>,
    /// How many bytes the records have.
    pub taken: u64,
    /// How many records were put, also where none could be written for want of a number.
    pub entries: u64,
}

/// The book has no number left for a segment.
pub(crate) fn is_spent(book: &Book) -> bool
    ensures { result ≡ nat_eq (book_view book.now).next last_number }
{
    book.next == LAST_NUMBER
}

impl Output {
    /// No segment, and no records.
    pub fn new() -> Output
        ensures segmenter { result.segmenter ≡ None }
        ensures taken { result.taken ≡ 0 }
        ensures entries { result.entries ≡ 0 }
    {
        Output {
            segmenter: None,
            taken: 0,
            entries: 0,
        }
    }

    /// Counts one more record of so many bytes. Numbers of more than 64 bits count as want of memory.
    fn count(&mut self, size: usize) -> Result<(), JobFault>
        ensures taken { OnOk result (self.new.taken ≡ self.old.taken + size) }
        ensures entries { OnOk result (self.new.entries ≡ self.old.entries + 1) }
        ensures segmenter { self.new.segmenter ≡ self.old.segmenter }
        ensures only { IfErr result (λ fault. fault ≡ NoMemory) }
    {
        let taken = self
            .taken
            .checked_add(size as u64)
            .ok_or(JobFault::NoMemory)?;
        let entries = self.entries.checked_add(1).ok_or(JobFault::NoMemory)?;
        self.taken = taken;
        self.entries = entries;
        Ok(())
    }
}

/// The segment that is there, or the next one of the book, begun. Beginning costs three calls.
fn open<S: Site>(
    alloc: Global,
    site: &mut S,
    who: &Who,
    book: &Book,
    segmenter: Option<Segmenter>,
) -> Result<Segmenter, JobFault>
    requires job { who.now ≡ job }
    requires writer { IsWriter (book_view book.now).next segmenter }
    requires below { (book_view book.now).next ≡ last_number → ⊥ }
    ensures told { (stamped : List (List ℕ)) (v : Sight) (outs : List Chunk) → IsFree v (book_view book.now).next
        → Adds (S.told site.old) (S.told site.new)
        (Leads (As stamped job) (AtJob stamped (SoFar v outs segmenter))
        (EndsSo stamped (λ s u. IsSoFar v outs s u) result)) }
    ensures writer { IfOk result (λ s. IsForDemux (book_view book.now).next s) }
    ensures only { IfErr result IsOfWrite }
    ensures works { Adds (S.told site.old) (S.told site.new) (Worked (WritesTo (segment_name (codes "demux") (book_view book.now).next)) result) }
    ensures cause { JobCause (S.fault_count site.old) (S.fault_count site.new) result }
{
    match segmenter {
        Some(segmenter) => Ok(segmenter),
        None => book.begin_segment(alloc, site, who, "demux"),
    }
}

/// Writes a record into the segment that is there, or into the next one of the book, begun.
fn write_first<S: Site>(
    alloc: Global,
    site: &mut S,
    who: &Who,
    book: &Book,
    segmenter: Option<Segmenter>,
    chunk: &ChunkRef<'_>,
) -> Result<Segmenter, JobFault>
    requires job { who.now ≡ job }
    requires writer { IsWriter (book_view book.now).next segmenter }
    requires below { (book_view book.now).next ≡ last_number → ⊥ }
    requires key { IsTrue (is_key (lent_chunk chunk.now).key) }
    requires value { IsTrue (has_value record_limit (lent_chunk chunk.now).key (lent_chunk chunk.now).value) }
    ensures told { (stamped : List (List ℕ)) (v : Sight) (outs : List Chunk) → IsFree v (book_view book.now).next
        → Adds (S.told site.old) (S.told site.new)
        (Leads (As stamped job) (AtJob stamped (SoFar v outs segmenter))
        (EndsSo stamped (λ s u. IsSoFar v (outs ++ lent_chunk chunk.now ∷ []) s u) result)) }
    ensures writer { IfOk result (λ s. IsForDemux (book_view book.now).next s) }
    ensures only { IfErr result IsOfWrite }
    ensures works { Adds (S.told site.old) (S.told site.new) (Worked (WritesTo (segment_name (codes "demux") (book_view book.now).next)) result) }
    ensures cause { JobCause (S.fault_count site.old) (S.fault_count site.new) result }
{
    let mut segmenter = open(alloc, site, who, book, segmenter)?;
    segmenter.part(alloc, site, chunk)?;
    Ok(segmenter)
}

/// Writes the first record; a segment that is there takes it too. Where the book has no number left for a segment, the record is
/// counted alone.
fn put_first<S: Site>(
    alloc: Global,
    site: &mut S,
    who: &Who,
    book: &Book,
    output: &mut Output,
    chunk: &ChunkRef<'_>,
) -> Result<(), JobFault>
    requires job { who.now ≡ job }
    requires writer { IsWriter (book_view book.now).next output.old.segmenter }
    requires key { IsTrue (is_key (lent_chunk chunk.now).key) }
    requires value { IsTrue (has_value record_limit (lent_chunk chunk.now).key (lent_chunk chunk.now).value) }
    ensures told { (stamped : List (List ℕ)) (v : Sight) (outs : List Chunk) → IsFree v (book_view book.now).next
        → Adds (S.told site.old) (S.told site.new)
        (Leads (As stamped job) (AtJob stamped (IsOutput v outs output.old))
        (EndsSo stamped (λ t u. IsOutput v (outs ++ lent_chunk chunk.now ∷ []) output.new u) result)) }
    ensures writer { OnOk result (IsWriter (book_view book.now).next output.new.segmenter) }
    ensures only { IfErr result IsOfWrite }
    ensures works { Adds (S.told site.old) (S.told site.new) (Worked (WritesTo (segment_name (codes "demux") (book_view book.now).next)) result) }
    ensures cause { JobCause (S.fault_count site.old) (S.fault_count site.new) result }
{
    if is_spent(book) {
        return output.count(chunk.body.len());
    }
    let segmenter = write_first(alloc, site, who, book, output.segmenter.take(), chunk)?;
    output.segmenter = Some(segmenter);
    output.count(chunk.body.len())
}

/// Writes a record behind the others; the first one begins the segment, which then stays in its place, if the book has a number left
/// for it. After a refusal nothing is said of `output`.
pub(crate) fn put<S: Site>(
    alloc: Global,
    site: &mut S,
    who: &Who,
    book: &Book,
    output: &mut Output,
    chunk: &ChunkRef<'_>,
) -> Result<(), JobFault>
    requires job { who.now ≡ job }
    requires writer { IsWriter (book_view book.now).next output.old.segmenter }
    requires key { IsTrue (is_key (lent_chunk chunk.now).key) }
    requires value { IsTrue (has_value record_limit (lent_chunk chunk.now).key (lent_chunk chunk.now).value) }
    ensures told { (stamped : List (List ℕ)) (v : Sight) (outs : List Chunk) → IsFree v (book_view book.now).next
        → Adds (S.told site.old) (S.told site.new)
        (Leads (As stamped job) (AtJob stamped (IsOutput v outs output.old))
        (EndsSo stamped (λ t u. IsOutput v (outs ++ lent_chunk chunk.now ∷ []) output.new u) result)) }
    ensures writer { OnOk result (IsWriter (book_view book.now).next output.new.segmenter) }
    ensures only { IfErr result IsOfWrite }
    ensures works { Adds (S.told site.old) (S.told site.new) (Worked (WritesTo (segment_name (codes "demux") (book_view book.now).next)) result) }
    ensures cause { JobCause (S.fault_count site.old) (S.fault_count site.new) result }
{
    let Some(segmenter) = &mut output.segmenter else {
        return put_first(alloc, site, who, book, output, chunk);
    };
    segmenter.part(alloc, site, chunk)?;
    output.count(chunk.body.len())
}
