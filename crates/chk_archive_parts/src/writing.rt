//! Writes a segment of the archive of records that are read back.

ghost use Rattle.std.specs.Prelude.{◌≡◌, ◌+◌, ◌<◌, ◌++◌, ◌∷◌, [], ◌-◌, ℕ, List, Some, codes, length, drop, map, slice_index_or, IsTrue, IfSome, IfErr, OnOk, OnErr};
ghost use Rattle.chk_site.specs.History.{Every};
ghost use Rattle.chk_site.specs.Site.{Adds};
ghost use Rattle.chk_site.specs.Runs.{Leads, anyhow};
ghost use Rattle.chk_chunk.specs.Keys.{Chunk};
ghost use Rattle.chk_world.specs.Places.{As};
ghost use Rattle.chk_world.specs.Sight.{job, Sight, AtJob};
ghost use Rattle.chk_world.specs.JobSteps.{IsOf, ReadsOrWrites};
ghost use Rattle.chk_record_index.specs.Faults.{JobCause, FailsLast, IsOfRead, IsOfWrite};
ghost use Rattle.chk_record_index.specs.Pieces.{AsksInPieces};
ghost use Rattle.chk_record_index.specs.Causes.{Shows};
ghost use Rattle.chk_record_reader.specs.Gone.{IsGoneIn};
ghost use Rattle.chk_book.specs.Folders.{segment_name};
ghost use Rattle.chk_book.specs.Books.{book_view};
ghost use Rattle.chk_book.specs.Causes.{SpentBook};
ghost use Rattle.chk_book.specs.Segmenting.{Writing, HoldsSegment};
ghost use Rattle.chk_book.specs.Written.{IsAt};
ghost use Rattle.chk_archive_parts.specs.declared.writing.Purpose.TheVariants.{Parts};
ghost use Rattle.chk_archive_parts.specs.Cuts.{AreWithin, cut_chunks};
ghost use Rattle.chk_archive_parts.specs.Records.{AreRecords};
ghost use Rattle.chk_chunk.specs.Lent.{lent_key, lent_chunk};
ghost use Rattle.chk_chunk.specs.Keys.{is_key, has_value, has_words, chunk_limit};
ghost use Rattle.chk_world.specs.JobSteps.{WritesTo, SparesFile};
ghost use Rattle.chk_record_index.specs.Order.{lent_head};
ghost use Rattle.chk_archive_parts.specs.Shelves.{AreKept};
ghost use Rattle.chk_archive_parts.specs.Cuts.{cut_chunk, cut_of};
ghost use Rattle.chk_archive_parts.specs.Writes.{with_new, HasEntered, IsFree, Written, IsForArchive, IsSoFar, PutSo, CutSo};

use crate::cuts::Cut;
use crate::shelf::Shelf;
use chk_book::{Book, Segmenter};
use chk_bytes::Word;
use chk_chunk::ChunkRef;
use chk_record_index::{HeadRef, Heads, JobFault};
use chk_site::{Site, Who};
use std::alloc::Global;

/// What a new segment of the archive is for.
#[derive(Clone, Copy, Debug)]
pub enum Purpose {
    /// Its chunks go on from the archive's ends.
    Parts,
    /// It is the aside segment: its chunks lie past a gap.
    Aside,
}

/// Writes the archive's next segment of these cuts of records that stand in `files`, and enters it into the book, which isn't
/// published. Each record is read once more. After a refusal the book is as before. `Damaged` comes where a file isn't what it was.
pub fn add_segment<S: Site>(
    alloc: Global,
    site: &mut S,
    who: &Who,
    book: &mut Book,
    files: &[Word],
    heads: &Heads,
    cuts: &[Cut],
    purpose: Purpose,
) -> Result<(), JobFault>
    requires job { who.now ≡ job }
    requires cuts { AreWithin (length heads.now) cuts.now }
    ensures told { (stamped : List (List ℕ)) (v : Sight) (cs : List Chunk) → AreRecords v files.now heads.now cs
        → IsFree v files.now (book_view book.old).next → Adds (S.told site.old) (S.told site.new)
        (Leads (As stamped job) (AtJob stamped (λ u. u ≡ v)) (Written stamped (with_new purpose (cut_chunks cs cuts.now)) v
        (book_view book.old) (book_view book.new) (cut_chunks cs cuts.now) result)) }
    ensures shown { Adds (S.told site.old) (S.told site.new) (Shows (IsGoneIn files.now heads.now) result) }
    ensures own { Adds (S.told site.old) (S.told site.new)
        (Every (IsOf (ReadsOrWrites (segment_name (codes "archive") (book_view book.old).next)))) }
    ensures same { OnErr result (book_view book.new ≡ book_view book.old) }
    ensures next { OnOk result ((book_view book.new).next ≡ (book_view book.old).next + 1) }
    ensures aside { purpose ≡ Parts → (book_view book.new).aside ≡ (book_view book.old).aside }
    ensures spent { SpentBook (book_view book.old) result }
    ensures pieces { Adds (S.told site.old) (S.told site.new) (Every AsksInPieces) }
    ensures last { Adds (S.told site.old) (S.told site.new) (FailsLast result) }
    ensures cause { JobCause (S.fault_count site.old) (S.fault_count site.new) result }
{
    let mut segmenter = book.begin_segment(alloc, site, who, "archive")?;
    write_cuts(alloc, site, who, &mut segmenter, files, heads, cuts)?;
    finish_for(alloc, site, segmenter, book, purpose)
}

/// Finishes the segment, and the book has it by its purpose.
fn finish_for<S: Site>(
    alloc: Global,
    site: &mut S,
    segmenter: Segmenter,
    book: &mut Book,
    purpose: Purpose,
) -> Result<(), JobFault>
    requires { segmenter.number ≡ (book_view book.old).next }
    ensures raw { (w : Writing) → IsAt segmenter w → Adds (S.told site.old) (S.told site.new)
        (Leads (anyhow (SparesFile (segment_name w.folder w.number))) (HoldsSegment w)
        (HasEntered purpose w (book_view book.old) (book_view book.new) result)) }
    ensures own { (w : Writing) → IsAt segmenter w → segmenter.who ≡ job → Adds (S.told site.old) (S.told site.new)
        (Every (IsOf (WritesTo (segment_name w.folder w.number)))) }
    ensures same { OnErr result (book_view book.new ≡ book_view book.old) }
    ensures next { OnOk result ((book_view book.new).next ≡ (book_view book.old).next + 1) }
    ensures aside { purpose ≡ Parts → (book_view book.new).aside ≡ (book_view book.old).aside }
    ensures only { IfErr result IsOfWrite }
    ensures last { Adds (S.told site.old) (S.told site.new) (FailsLast result) }
    ensures cause { JobCause (S.fault_count site.old) (S.fault_count site.new) result }
{
    match purpose {
        Purpose::Parts => segmenter.finish(alloc, site, book),
        Purpose::Aside => segmenter.finish_aside(alloc, site, book),
    }
}

/// Writes these cuts behind what the segment has.
fn write_cuts<S: Site>(
    alloc: Global,
    site: &mut S,
    who: &Who,
    segmenter: &mut Segmenter,
    files: &[Word],
    heads: &Heads,
    cuts: &[Cut],
) -> Result<(), JobFault>
    requires job { who.now ≡ job }
    requires writer { segmenter.old.who ≡ job }
    requires segment { IsForArchive segmenter.old }
    requires cuts { AreWithin (length heads.now) cuts.now }
    ensures told { (stamped : List (List ℕ)) (v : Sight) (cs : List Chunk) → AreRecords v files.now heads.now cs
        → IsFree v files.now segmenter.old.number → Adds (S.told site.old) (S.told site.new)
        (Leads (As stamped job) (AtJob stamped (IsSoFar v [] segmenter.old))
        (PutSo stamped v (cut_chunks cs cuts.now) segmenter.new result)) }
    ensures segment { OnOk result (IsForArchive segmenter.new) }
    ensures who { segmenter.new.who ≡ segmenter.old.who }
    ensures number { OnOk result (segmenter.new.number ≡ segmenter.old.number) }
    ensures shown { Adds (S.told site.old) (S.told site.new) (Shows (IsGoneIn files.now heads.now) result) }
    ensures own { Adds (S.told site.old) (S.told site.new)
        (Every (IsOf (ReadsOrWrites (segment_name (codes "archive") segmenter.old.number)))) }
    ensures only { IfErr result IsOfRead }
    ensures pieces { Adds (S.told site.old) (S.told site.new) (Every AsksInPieces) }
    ensures last { Adds (S.told site.old) (S.told site.new) (FailsLast result) }
    ensures cause { JobCause (S.fault_count site.old) (S.fault_count site.new) result }
{
    let mut shelf = Shelf::new(alloc);
    for place in 0..cuts.len() {
        write_cut(
            alloc, site, who, segmenter, &mut shelf, files, heads, cuts, place,
        )?;
    }
    Ok(())
}

/// Writes the cut at this place behind what the segment has.
fn write_cut<S: Site>(
    alloc: Global,
    site: &mut S,
    who: &Who,
    segmenter: &mut Segmenter,
    shelf: &mut Shelf,
    files: &[Word],
    heads: &Heads,
    cuts: &[Cut],
    place: usize,
) -> Result<(), JobFault>
    requires job { who.now ≡ job }
    requires writer { segmenter.old.who ≡ job }
    requires segment { IsForArchive segmenter.old }
    requires cuts { AreWithin (length heads.now) cuts.now }
    requires place { place < length cuts.now }
    ensures told { (stamped : List (List ℕ)) (v : Sight) (cs : List Chunk) (chunks : List Chunk) → AreRecords v files.now heads.now cs
        → IsFree v files.now segmenter.old.number → Adds (S.told site.old) (S.told site.new)
        (Leads (As stamped job) (AtJob stamped (λ u. IsSoFar v chunks segmenter.old u × AreKept v files.now heads.now shelf.old))
        (CutSo stamped v files.now heads.now (chunks ++ cut_chunk cs (slice_index_or cuts.now place (record { index = 0; skip = 0 })) ∷ [])
        segmenter.new shelf.new result)) }
    ensures segment { OnOk result (IsForArchive segmenter.new) }
    ensures who { segmenter.new.who ≡ segmenter.old.who }
    ensures number { OnOk result (segmenter.new.number ≡ segmenter.old.number) }
    ensures shown { Adds (S.told site.old) (S.told site.new) (Shows (IsGoneIn files.now heads.now) result) }
    ensures own { Adds (S.told site.old) (S.told site.new)
        (Every (IsOf (ReadsOrWrites (segment_name (codes "archive") segmenter.old.number)))) }
    ensures only { IfErr result IsOfRead }
    ensures pieces { Adds (S.told site.old) (S.told site.new) (Every AsksInPieces) }
    ensures last { Adds (S.told site.old) (S.told site.new) (FailsLast result) }
    ensures cause { JobCause (S.fault_count site.old) (S.fault_count site.new) result }
{
    shelf.fetch(alloc, site, who, files, heads, cuts, place)?;
    let cut = cuts[place];
    let head = heads.get(cut.index as usize);
    put_cut(alloc, site, segmenter, &head, shelf.value(), cut.skip)
}

/// Writes the chunk of a head and its value, but for the first bytes, behind what the segment has. What can't be a chunk counts as
/// want of memory.
fn put_cut<S: Site>(
    alloc: Global,
    site: &mut S,
    segmenter: &mut Segmenter,
    head: &HeadRef<'_>,
    value: &[u8],
    skip: u32,
) -> Result<(), JobFault>
    requires job { segmenter.old.who ≡ job }
    requires segment { IsForArchive segmenter.old }
    requires words { IsTrue (has_words (lent_key head.now.key)) }
    ensures told { (stamped : List (List ℕ)) (v : Sight) (files : List (List ℕ)) (chunks : List Chunk) → IsFree v files segmenter.old.number
        → Adds (S.told site.old) (S.told site.new)
        (Leads (As stamped job) (AtJob stamped (IsSoFar v chunks segmenter.old))
        (PutSo stamped v (chunks ++ cut_of skip (record { key = lent_key head.now.key; value = value.now }) ∷ [])
        segmenter.new result)) }
    ensures segment { OnOk result (IsForArchive segmenter.new) }
    ensures who { segmenter.new.who ≡ segmenter.old.who }
    ensures number { OnOk result (segmenter.new.number ≡ segmenter.old.number) }
    ensures own { Adds (S.told site.old) (S.told site.new)
        (Every (IsOf (WritesTo (segment_name (codes "archive") segmenter.old.number)))) }
    ensures only { IfErr result IsOfWrite }
    ensures last { Adds (S.told site.old) (S.told site.new) (FailsLast result) }
    ensures cause { JobCause (S.fault_count site.old) (S.fault_count site.new) result }
{
    let Some(chunk) = chunk_of(head, value, skip) else {
        return Err(JobFault::NoMemory);
    };
    segmenter.part(alloc, site, &chunk)
}

/// The chunk of a head and its value, but for the first bytes, where it is one.
fn chunk_of<'a>(head: &HeadRef<'a>, value: &'a [u8], skip: u32) -> Option<ChunkRef<'a>>
    requires { IsTrue (has_words (lent_key head.now.key)) }
    ensures is { IfSome result (λ c. lent_chunk c ≡ cut_of skip (record { key = lent_key head.now.key; value = value.now })) }
    ensures key { IfSome result (λ c. IsTrue (is_key (lent_chunk c).key)) }
    ensures value { IfSome result (λ c. IsTrue (has_value chunk_limit (lent_chunk c).key (lent_chunk c).value)) }
{
    let key = head.key;
    let skip = skip as usize;
    if skip >= value.len() || key.start >= 1 << 62 || key.seq <= key.start || key.seq >= 1 << 63 {
        return None;
    }
    let body = &value[skip..];
    let size = body.len() as u64;
    if size > 131_072 || key.start + size > key.seq {
        return None;
    }
    Some(ChunkRef {
        source: key.source,
        kind: key.kind,
        name: key.name,
        start: key.start,
        cluster: key.cluster,
        seq: key.seq,
        body,
    })
}
