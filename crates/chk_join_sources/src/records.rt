//! One record is copied.

ghost use Rattle.std.specs.Prelude.{◌≡◌, ◌<◌, ◌≤◌, ◌++◌, ◌∷◌, [], ℕ, List, Option, length, slice_index_or, IsTrue, IfSome, IfErr, OnOk};
ghost use Rattle.chk_site.specs.Files.{File, Files};
ghost use Rattle.chk_site.specs.History.{Every};
ghost use Rattle.chk_site.specs.Site.{Adds};
ghost use Rattle.chk_site.specs.Runs.{anyhow, Leads};
ghost use Rattle.chk_chunk.specs.Keys.{Chunk, is_key, has_value, has_words, chunk_limit, chunk_begin, record_limit};
ghost use Rattle.chk_chunk.specs.Lent.{lent_chunk, lent_key};
ghost use Rattle.chk_world.specs.Sight.{job};
ghost use Rattle.chk_world.specs.JobSteps.{IsOf, ReadsFile, WritesTo, SparesFile};
ghost use Rattle.chk_world.proofs.Each.{Each};
ghost use Rattle.chk_replace.specs.Load.{Has};
ghost use Rattle.chk_record_index.specs.Order.{no_head};
ghost use Rattle.chk_record_index.specs.Pieces.{AsksInPieces};
ghost use Rattle.chk_record_reader.specs.Spans.{StaysAtOk};
ghost use Rattle.chk_join_sources.specs.Reading.{AreAmong, Fetched};
ghost use Rattle.chk_record_index.specs.Faults.{JobCause, FailsLast, IsOfRead, IsOfWrite};
ghost use Rattle.chk_book.specs.Folders.{segment_name};
ghost use Rattle.chk_book.specs.Segmenting.{Writing, HoldsSegment};
ghost use Rattle.chk_book.specs.Written.{IsAt, taken, HasTaken};
ghost use Rattle.chk_record_reader.specs.Segments.{HasFiles, SparesFiles, AreSettled};
ghost use Rattle.chk_record_reader.specs.Archives.{IsKnown, AreWindows, chunk_in};
ghost use Rattle.chk_record_reader.specs.Merging.{SparesBoth, AreApart};
ghost use Rattle.chk_join_sources.specs.Blocks.{head_in};
ghost use Rattle.chk_join_sources.specs.Comparing.{IsSide};
ghost use Rattle.chk_join_sources.specs.Standing.{StandsSo, HasStood};
ghost use Rattle.chk_join_sources.specs.Copying.{joined_segment, IsForJoined, GoesOn, CanCopy, Copied, Worked, Copies};
ghost use Rattle.chk_record_reader.specs.Merging.{chunk_with};

use crate::Side;
use chk_book::Segmenter;
use chk_chunk::ChunkRef;
use chk_record_index::{HeadRef, JobFault};
use chk_record_reader::RecordReader;
use chk_site::{Site, Who};
use std::alloc::Global;

/// The chunk of a head and its value, where it is one that begins where the head says.
fn chunk_of<'a>(head: &HeadRef<'a>, value: &'a [u8]) -> Option<ChunkRef<'a>>
    requires { IsTrue (has_words (lent_key head.now.key)) }
    ensures is { IfSome result (λ c. lent_chunk c ≡ chunk_with (lent_key head.now.key) value.now) }
    ensures key { IfSome result (λ c. IsTrue (is_key (lent_chunk c).key)) }
    ensures value { IfSome result (λ c. IsTrue (has_value chunk_limit (lent_chunk c).key (lent_chunk c).value)) }
    ensures begin { IfSome result (λ c. chunk_begin (lent_chunk c) ≡ head.now.begin) }
{
    let key = head.key;
    let size = value.len() as u64;
    if size == 0 || size > 131_072 || key.start >= 1 << 62 {
        return None;
    }
    if key.seq >= 1 << 63 || key.start + size > key.seq || key.seq - size != head.begin {
        return None;
    }
    Some(ChunkRef {
        source: key.source,
        kind: key.kind,
        name: key.name,
        start: key.start,
        cluster: key.cluster,
        seq: key.seq,
        body: value,
    })
}

/// Writes the chunk of a head and its value behind what the segment has. What can't be a chunk counts as want of memory.
fn put_record<S: Site>(
    alloc: Global,
    site: &mut S,
    segmenter: &mut Segmenter,
    head: &HeadRef<'_>,
    value: &[u8],
) -> Result<(), JobFault>
    requires segment { IsForJoined segmenter.old }
    requires words { IsTrue (has_words (lent_key head.now.key)) }
    ensures raw { (w : Writing) → IsAt segmenter.old w → Adds (S.told site.old) (S.told site.new)
        (Leads (anyhow (SparesFile (segment_name w.folder w.number))) (HoldsSegment w)
        (HasTaken segmenter.old w (chunk_with (lent_key head.now.key) value.now) result)) }
    ensures at { (w : Writing) → IsAt segmenter.old w
        → OnOk result (IsAt segmenter.new (taken segmenter.old w (chunk_with (lent_key head.now.key) value.now))) }
    ensures copy { OnOk result (chunk_begin (chunk_with (lent_key head.now.key) value.now) ≡ head.now.begin) }
    ensures on { OnOk result (GoesOn segmenter.old segmenter.new) }
    ensures own { Adds (S.told site.old) (S.told site.new) (Every (IsOf (WritesTo (joined_segment segmenter.old.number)))) }
    ensures only { IfErr result IsOfWrite }
    ensures last { Adds (S.told site.old) (S.told site.new) (FailsLast result) }
    ensures cause { JobCause (S.fault_count site.old) (S.fault_count site.new) result }
{
    let Some(chunk) = chunk_of(head, value) else {
        return Err(JobFault::NoMemory);
    };
    segmenter.part(alloc, site, &chunk)
}

/// Makes the record of the head at `index` the one whose value the reader holds, beside a segment under writing. A head of none of
/// the files counts as want of memory. It costs no call where the reader's window has the record, else a read.
fn fetch<S: Site>(
    alloc: Global,
    site: &mut S,
    who: &Who,
    reader: &mut RecordReader,
    side: &Side<'_>,
    index: usize,
) -> Result<(), JobFault>
    requires job { who.now ≡ job }
    requires index { index < length side.now.heads.now }
    ensures raw { (most : ℕ) (all : List (List ℕ)) (held : Files) → most ≤ record_limit → AreSettled all held → AreAmong all side.now.names.now
        → Each (IsKnown most side.now.names.now held) side.now.heads.now → AreWindows side.now.names.now held reader.old
        → Adds (S.told site.old) (S.told site.new)
        (Leads (anyhow (SparesFiles all)) (HasFiles all held)
        (Fetched all side.now.names.now held (slice_index_or side.now.heads.now index no_head) reader.new result)) }
    ensures stays { (other : List ℕ) (file : Option File) → Adds (S.told site.old) (S.told site.new)
        (Leads (anyhow (SparesFile other)) (Has other file) (StaysAtOk other file result)) }
    ensures own { Adds (S.told site.old) (S.told site.new) (Every (IsOf ReadsFile)) }
    ensures pieces { Adds (S.told site.old) (S.told site.new) (Every AsksInPieces) }
    ensures only { IfErr result IsOfRead }
    ensures last { Adds (S.told site.old) (S.told site.new) (FailsLast result) }
    ensures cause { JobCause (S.fault_count site.old) (S.fault_count site.new) result }
{
    match side.names.get(side.heads.get(index).file as usize) {
        Some(name) => reader.fetch(alloc, site, who, name.as_str(), side.heads, index),
        None => Err(JobFault::NoMemory),
    }
}

/// Reads the record of the head at `index` back, and writes it behind what the segment has.
pub(crate) fn copy_record<S: Site>(
    alloc: Global,
    site: &mut S,
    who: &Who,
    segmenter: &mut Segmenter,
    reader: &mut RecordReader,
    side: &Side<'_>,
    index: usize,
) -> Result<(), JobFault>
    requires job { who.now ≡ job }
    requires segment { IsForJoined segmenter.old }
    requires index { index < length side.now.heads.now }
    ensures raw { (most : ℕ) (all : List (List ℕ)) (held : Files) (chunks : List Chunk) → most ≤ record_limit → AreSettled all held
        → AreApart all (joined_segment segmenter.old.number) → IsSide most all held side.now
        → Adds (S.told site.old) (S.told site.new)
        (Leads (anyhow (SparesBoth all (joined_segment segmenter.old.number)))
        (CanCopy all held side.now chunks reader.old segmenter.old)
        (Copied all held side.now (chunks ++ chunk_in side.now.names.now held (head_in side.now.heads.now index) ∷ [])
        reader.new segmenter.new result)) }
    ensures stands { (chunks : List Chunk) → Adds (S.told site.old) (S.told site.new)
        (Leads (anyhow (SparesFile (joined_segment segmenter.old.number))) (StandsSo chunks segmenter.old)
        (HasStood chunks (head_in side.now.heads.now index ∷ []) segmenter.new result)) }
    ensures on { OnOk result (GoesOn segmenter.old segmenter.new) }
    ensures works { Adds (S.told site.old) (S.told site.new) (Worked (Copies segmenter.old.number) result) }
    ensures only { IfErr result IsOfRead }
    ensures cause { JobCause (S.fault_count site.old) (S.fault_count site.new) result }
{
    match fetch(alloc, site, who, reader, side, index) {
        Ok(()) => {
            let head = side.heads.get(index);
            put_record(alloc, site, segmenter, &head, reader.value())
        }
        Err(fault) => Err(fault),
    }
}
