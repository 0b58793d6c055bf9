//! The records that the bytes of one archived record complete.

ghost use Rattle.std.specs.Prelude.{◌≡◌, ◌+◌, ◌<◌, ◌≤◌, ◌++◌, ◌-◌, ℕ, Bool, List, length, codes, slice_index_or, IsTrue, IfSome, OnOk, IfErr};
ghost use Rattle.chk_site.specs.Site.{Adds};
ghost use Rattle.chk_site.specs.Runs.{Leads};
ghost use Rattle.chk_bytes.specs.Words.{is_word};
ghost use Rattle.chk_chunk.specs.Keys.{Chunk, is_key, has_value, record_limit};
ghost use Rattle.chk_chunk.specs.Lent.{lent_chunk};
ghost use Rattle.chk_world.specs.Places.{As};
ghost use Rattle.chk_world.specs.Sight.{job, Sight, AtJob};
ghost use Rattle.chk_world.specs.JobSteps.{WritesTo};
ghost use Rattle.chk_record_index.specs.Faults.{JobCause, IsOfWrite};
ghost use Rattle.chk_record_index.specs.Order.{lent_head};
ghost use Rattle.chk_archive_plan.specs.Passes.{head_in};
ghost use Rattle.chk_book.specs.Folders.{segment_name};
ghost use Rattle.chk_book.specs.Books.{book_view};
ghost use Rattle.chk_book.specs.Views.{end_view};
ghost use Rattle.chk_demux.specs.Working.{Worked, EndsSo};
ghost use Rattle.chk_demux.specs.Writes.{IsFree, IsWriter, IsOutput};
ghost use Rattle.chk_demux.specs.Shown.{PutsIf};
ghost use Rattle.chk_demux.specs.Due.{HasRecord};
ghost use Rattle.chk_demux.specs.Giving.{IsOwnHead, holds_byte, cluster_back, keyed, given_chunks, place_given, IsSplitting, IsPlaced, chunks_of_fed};

use crate::output::{Output, put};
use chk_book::{Book, End};
use chk_chunk::ChunkRef;
use chk_demux_split::Splitter;
use chk_record_index::{HeadRef, Heads, JobFault};
use chk_record_reader::is_of;
use chk_site::{Site, Who};
use std::alloc::Global;

/// The head is of the end's stream and begins at the offset `at` or below it.
fn holds_byte(end: &End, head: &HeadRef<'_>, at: u64) -> bool
    ensures { result ≡ holds_byte (end_view end.now).stream at (lent_head head.now) }
{
    is_of(end, head) && head.begin <= at
}

/// The place of the last one of the first `count` heads that is of the end's stream and begins at the offset `at` or below it. It
/// costs the heads behind that one.
fn holder(heads: &Heads, end: &End, at: u64, count: usize) -> Option<usize>
    requires { count ≤ length heads.now }
    ensures within { IfSome result (λ i. i < length heads.now) }
    ensures cluster { IfSome result (λ i. (head_in heads.now i).key.cluster ≡ cluster_back heads.now (end_view end.now).stream at count) }
{
    for index in (0..count).rev() {
        if holds_byte(end, &heads.get(index), at) {
            return Some(index);
        }
    }
    None
}

/// The cluster of the last one of the heads up to that at `index`, which is given too, that is of the end's stream and begins
/// at the offset `at` or below it. The given one is of that stream, and where it begins so no other one is looked at.
fn cluster_at<'a>(
    heads: &'a Heads,
    index: usize,
    head: &HeadRef<'a>,
    end: &End,
    at: u64,
) -> Option<&'a str>
    requires index { index < length heads.now }
    requires head { IsOwnHead heads.now (end_view end.now).stream index head.now }
    ensures cluster { IfSome result (λ c. c.now ≡ cluster_back heads.now (end_view end.now).stream at (index + 1)) }
    ensures word { IfSome result (λ c. IsTrue (is_word c.now)) }
{
    if head.begin <= at {
        return Some(head.key.cluster);
    }
    let held = holder(heads, end, at, index)?;
    Some(heads.get(held).key.cluster)
}

/// Where a record ends in its stream, of which so many bytes were fed behind it, before so many others of a record that ends at
/// `seq`.
fn place_of(seq: u64, pending: usize, behind: usize) -> Option<u64>
    ensures { IfSome result (λ n. n ≡ seq - behind - pending) }
{
    seq.checked_sub(behind as u64)?.checked_sub(pending as u64)
}

/// The record of the end's stream that has these bytes, up to the offset `seq`; None where it can't be one.
fn record_chunk<'a>(
    end: &'a End,
    cluster: &'a str,
    seq: u64,
    body: &'a [u8],
) -> Option<ChunkRef<'a>>
    requires { IsTrue (is_word cluster.now) }
    ensures is { IfSome result (λ c. lent_chunk c ≡ keyed (end_view end.now) cluster.now seq body.now) }
    ensures key { IfSome result (λ c. IsTrue (is_key (lent_chunk c).key)) }
    ensures value { IfSome result (λ c. IsTrue (has_value record_limit (lent_chunk c).key (lent_chunk c).value)) }
{
    let size = body.len() as u64;
    if size == 0 || size > 1_048_576 {
        return None;
    }
    if end.start >= 1 << 62 || seq >= 1 << 63 || end.start + size > seq {
        return None;
    }
    Some(ChunkRef {
        source: end.source.as_str(),
        kind: end.kind.as_str(),
        name: end.name.as_str(),
        start: end.start,
        cluster,
        seq,
        body,
    })
}

/// Writes the record that the splitter gives, if it gives one. The head is that of the record whose bytes were fed, but for the
/// last `behind` ones.
fn give<S: Site>(
    alloc: Global,
    site: &mut S,
    who: &Who,
    book: &Book,
    output: &mut Output,
    splitter: &Splitter,
    heads: &Heads,
    index: usize,
    head: &HeadRef<'_>,
    end: &End,
    behind: usize,
) -> Result<(), JobFault>
    requires job { who.now ≡ job }
    requires writer { IsWriter (book_view book.now).next output.old.segmenter }
    requires index { index < length heads.now }
    requires head { IsOwnHead heads.now (end_view end.now).stream index head.now }
    ensures told { (stamped : List (List ℕ)) (v : Sight) (outs : List Chunk) → IsFree v (book_view book.now).next
        → Adds (S.told site.old) (S.told site.new)
        (Leads (As stamped job) (AtJob stamped (IsOutput v outs output.old))
        (EndsSo stamped (λ t u. IsOutput v
        (outs ++ given_chunks heads.now (end_view end.now) index (place_given heads.now index behind splitter.now) splitter.now.given)
        output.new u) result)) }
    ensures due { OnOk result (PutsIf (0 < length splitter.now.given) output.old.entries output.new.entries) }
    ensures writer { OnOk result (IsWriter (book_view book.now).next output.new.segmenter) }
    ensures only { IfErr result IsOfWrite }
    ensures works { Adds (S.told site.old) (S.told site.new) (Worked (WritesTo (segment_name (codes "demux") (book_view book.now).next)) result) }
    ensures cause { JobCause (S.fault_count site.old) (S.fault_count site.new) result }
{
    let Some(record) = splitter.complete() else {
        return Ok(());
    };
    let Some(place) = place_of(head.key.seq, splitter.pending(), behind) else {
        return Err(JobFault::NoMemory);
    };
    write_record(
        alloc, site, who, book, output, heads, index, head, end, place, record,
    )
}

/// Writes the record that has these bytes, up to the offset `place`, with the cluster of the record that holds its first byte.
fn write_record<S: Site>(
    alloc: Global,
    site: &mut S,
    who: &Who,
    book: &Book,
    output: &mut Output,
    heads: &Heads,
    index: usize,
    head: &HeadRef<'_>,
    end: &End,
    place: u64,
    bytes: &[u8],
) -> Result<(), JobFault>
    requires job { who.now ≡ job }
    requires writer { IsWriter (book_view book.now).next output.old.segmenter }
    requires index { index < length heads.now }
    requires head { IsOwnHead heads.now (end_view end.now).stream index head.now }
    requires some { 0 < length bytes.now }
    ensures told { (stamped : List (List ℕ)) (v : Sight) (outs : List Chunk) → IsFree v (book_view book.now).next
        → Adds (S.told site.old) (S.told site.new)
        (Leads (As stamped job) (AtJob stamped (IsOutput v outs output.old))
        (EndsSo stamped (λ t u. IsOutput v
        (outs ++ given_chunks heads.now (end_view end.now) index place bytes.now) output.new u) result)) }
    ensures writer { OnOk result (IsWriter (book_view book.now).next output.new.segmenter) }
    ensures only { IfErr result IsOfWrite }
    ensures works { Adds (S.told site.old) (S.told site.new) (Worked (WritesTo (segment_name (codes "demux") (book_view book.now).next)) result) }
    ensures cause { JobCause (S.fault_count site.old) (S.fault_count site.new) result }
{
    let at = place.saturating_sub(bytes.len() as u64);
    let Some(cluster) = cluster_at(heads, index, head, end, at) else {
        return Err(JobFault::NoMemory);
    };
    let Some(chunk) = record_chunk(end, cluster, place, bytes) else {
        return Err(JobFault::NoMemory);
    };
    put(alloc, site, who, book, output, &chunk)
}

/// Feeds bytes to the splitter, and writes each record that they complete. They are the last ones of the head's record.
pub(crate) fn split_value<S: Site>(
    alloc: Global,
    site: &mut S,
    who: &Who,
    book: &Book,
    output: &mut Output,
    splitter: &mut Splitter,
    heads: &Heads,
    index: usize,
    head: &HeadRef<'_>,
    end: &End,
    value: &[u8],
) -> Result<(), JobFault>
    requires job { who.now ≡ job }
    requires writer { IsWriter (book_view book.now).next output.old.segmenter }
    requires index { index < length heads.now }
    requires head { IsOwnHead heads.now (end_view end.now).stream index head.now }
    ensures told { (stamped : List (List ℕ)) (v : Sight) (outs : List Chunk) (from : ℕ) (by_stamps : Bool) (fed : List ℕ)
        → IsFree v (book_view book.now).next → IsSplitting by_stamps fed splitter.old
        → IsPlaced heads.now (end_view end.now) index from (fed ++ value.now)
        → Adds (S.told site.old) (S.told site.new)
        (Leads (As stamped job)
        (AtJob stamped (IsOutput v (outs ++ chunks_of_fed heads.now (end_view end.now) from by_stamps fed) output.old))
        (EndsSo stamped (λ t u. IsOutput v
        (outs ++ chunks_of_fed heads.now (end_view end.now) from by_stamps (fed ++ value.now)) output.new u) result)) }
    ensures split { (by_stamps : Bool) (fed : List ℕ) → IsSplitting by_stamps fed splitter.old
        → OnOk result (IsSplitting by_stamps (fed ++ value.now) splitter.new) }
    ensures due { (by_stamps : Bool) (fed : List ℕ) → IsSplitting by_stamps fed splitter.old
        → OnOk result (PutsIf (HasRecord by_stamps (fed ++ value.now)) output.old.entries output.new.entries) }
    ensures writer { OnOk result (IsWriter (book_view book.now).next output.new.segmenter) }
    ensures only { IfErr result IsOfWrite }
    ensures works { Adds (S.told site.old) (S.told site.new) (Worked (WritesTo (segment_name (codes "demux") (book_view book.now).next)) result) }
    ensures cause { JobCause (S.fault_count site.old) (S.fault_count site.new) result }
{
    let mut at = 0;
    while at < value.len() {
        let taken = splitter.feed(&value[at..])?;
        at += taken;
        let behind = value.len() - at;
        give(
            alloc, site, who, book, output, splitter, heads, index, head, end, behind,
        )?;
    }
    Ok(())
}
