//! The bytes of a stream in both archives are compared.

ghost use Rattle.std.specs.Prelude.{◌≡◌, ◌+◌, ◌-◌, ◌<◌, ◌≤◌, ℕ, List, length, take, drop, IfOk, IfErr, IfNone};
ghost use Rattle.chk_chunk.specs.Keys.{record_limit};
ghost use Rattle.chk_site.specs.Files.{Files};
ghost use Rattle.chk_site.specs.History.{Every};
ghost use Rattle.chk_site.specs.Site.{Adds};
ghost use Rattle.chk_site.specs.Runs.{anyhow, Leads};
ghost use Rattle.chk_world.specs.Sight.{job};
ghost use Rattle.chk_world.specs.JobSteps.{IsOf, ReadsFile};
ghost use Rattle.chk_record_index.specs.Faults.{JobCause, FailsLast, IsOfRead};
ghost use Rattle.chk_record_index.specs.Pieces.{AsksInPieces};
ghost use Rattle.chk_record_reader.specs.ReadBack.{HoldsNothing};
ghost use Rattle.chk_record_reader.specs.Segments.{HasFiles, SparesFiles, AreSettled};
ghost use Rattle.chk_join_sources.specs.Differences.{first_difference};
ghost use Rattle.chk_join_sources.specs.Comparing.{IsMoved, IsCompared, IsSide, AreTrue, AreWithin, ComparedOne, ComparedAll, values_between};

use crate::blocks::Block;
use crate::gathering::{Side, fetch};
use chk_bytes::NoMemory;
use chk_record_index::JobFault;
use chk_record_reader::RecordReader;
use chk_site::{Site, Who};
use std::alloc::Global;

/// How far a side's records of a stream are gone through, whose heads stand up to `end`: some bytes of the value of the head at
/// `index` are passed.
#[derive(Clone, Copy)]
struct Cursor {
    index: usize,
    end: usize,
    passed: usize,
}

/// How far both sides' records of a stream are gone through, and how many bytes were the same.
#[derive(Clone, Copy)]
struct Progress {
    left: Cursor,
    right: Cursor,
    same: u64,
}

/// The readers of both sides.
#[derive(Drop)]
pub struct Readers {
    pub left: RecordReader,
    pub right: RecordReader,
}

impl Readers {
    /// Readers that hold nothing. They take no memory.
    pub fn new(alloc: Global) -> Readers
        ensures left { HoldsNothing result.left }
        ensures right { HoldsNothing result.right }
    {
        Readers {
            left: RecordReader::new(alloc),
            right: RecordReader::new(alloc),
        }
    }
}

/// The first place at which both have a byte and these differ. Where both are equal it costs their comparison alone.
fn difference(a: &[u8], b: &[u8]) -> Option<usize>
    ensures { result ≡ first_difference a.now b.now }
{
    if a == b {
        return None;
    }
    let count = a.len().min(b.len());
    for i in 0..count {
        if a[i] != b[i] {
            return Some(i);
        }
    }
    None
}

/// What of a value isn't passed yet.
fn rest(value: &[u8], passed: usize) -> &[u8]
    ensures { result.now ≡ drop passed value.now }
{
    if passed >= value.len() {
        return &value[value.len()..];
    }
    &value[passed..]
}

/// The cursor, once so many more bytes of a value of this size are passed.
fn moved(cursor: Cursor, count: usize, size: usize) -> Cursor
    requires { cursor.index < cursor.end }
    ensures is { (value more : List ℕ) → length value ≡ size → cursor.passed ≤ size → count ≤ size - cursor.passed
        → IsMoved value more count cursor result }
    ensures end { result.end ≡ cursor.end }
    ensures back { cursor.index ≤ result.index }
    ensures on { result.index ≤ cursor.index + 1 }
    ensures next { size - cursor.passed ≤ count → result.index ≡ cursor.index + 1 }
{
    let left = size.saturating_sub(cursor.passed);
    if count >= left {
        return Cursor {
            index: cursor.index + 1,
            end: cursor.end,
            passed: 0,
        };
    }
    Cursor {
        index: cursor.index,
        end: cursor.end,
        passed: cursor.passed + count,
    }
}

/// Compares what two values have that isn't passed, as far as both go: how many bytes are the same in all up to the first ones that
/// differ, or both cursors move on, at least one of them to its next value.
fn compare_values(first: &[u8], second: &[u8], at: &mut Progress) -> Result<Option<u64>, NoMemory>
    requires left { at.old.left.index < at.old.left.end }
    requires right { at.old.right.index < at.old.right.end }
    ensures is { (more rest : List ℕ) → at.old.left.passed ≤ length first.now → at.old.right.passed ≤ length second.now
        → IfOk result (λ found. IsCompared first.now more second.now rest at.old at.new found) }
    ensures ends { (at.new.left.end ≡ at.old.left.end) × (at.new.right.end ≡ at.old.right.end) }
    ensures on { (at.new.left.index ≤ at.old.left.index + 1) × (at.new.right.index ≤ at.old.right.index + 1) }
    ensures next { IfOk result (λ found. IfNone found
        (at.old.left.index + at.old.right.index < at.new.left.index + at.new.right.index)) }
{
    let a = rest(first, at.left.passed);
    let b = rest(second, at.right.passed);
    let count = a.len().min(b.len());
    if let Some(place) = difference(&a[..count], &b[..count]) {
        return Ok(Some(sum_of(at.same, place)?));
    }
    at.same = sum_of(at.same, count)?;
    at.left = moved(at.left, count, first.len());
    at.right = moved(at.right, count, second.len());
    Ok(None)
}

/// The sum. One of more than 64 bits counts as want of memory.
fn sum_of(a: u64, b: usize) -> Result<u64, NoMemory>
    ensures { IfOk result (λ n. n ≡ a + b) }
{
    a.checked_add(b as u64).ok_or(NoMemory)
}

/// Fetches the records at both cursors, and compares what isn't passed of them, as `compare_values` does.
fn compare_records<S: Site>(
    alloc: Global,
    site: &mut S,
    who: &Who,
    left: &Side<'_>,
    right: &Side<'_>,
    readers: &mut Readers,
    at: &mut Progress,
) -> Result<Option<u64>, JobFault>
    requires job { who.now ≡ job }
    requires left { at.old.left.index < at.old.left.end }
    requires right { at.old.right.index < at.old.right.end }
    requires lefts { at.old.left.end ≤ length left.now.heads.now }
    requires rights { at.old.right.end ≤ length right.now.heads.now }
    ensures raw { (most : ℕ) (all : List (List ℕ)) (held : Files) → most ≤ record_limit → AreSettled all held → IsSide most all held left.now
        → IsSide most all held right.now → AreTrue left.now right.now held readers.old → AreWithin left.now right.now held at.old
        → Adds (S.told site.old) (S.told site.new)
        (Leads (anyhow (SparesFiles all)) (HasFiles all held) (ComparedOne all left.now right.now held readers.new at.old at.new result)) }
    ensures ends { (at.new.left.end ≡ at.old.left.end) × (at.new.right.end ≡ at.old.right.end) }
    ensures on { (at.new.left.index ≤ at.old.left.index + 1) × (at.new.right.index ≤ at.old.right.index + 1) }
    ensures next { IfOk result (λ found. IfNone found
        (at.old.left.index + at.old.right.index < at.new.left.index + at.new.right.index)) }
    ensures own { Adds (S.told site.old) (S.told site.new) (Every (IsOf ReadsFile)) }
    ensures pieces { Adds (S.told site.old) (S.told site.new) (Every AsksInPieces) }
    ensures only { IfErr result IsOfRead }
    ensures last { Adds (S.told site.old) (S.told site.new) (FailsLast result) }
    ensures cause { JobCause (S.fault_count site.old) (S.fault_count site.new) result }
{
    fetch(alloc, site, who, &mut readers.left, left, at.left.index)?;
    fetch(alloc, site, who, &mut readers.right, right, at.right.index)?;
    let found = compare_values(readers.left.value(), readers.right.value(), at)?;
    Ok(found)
}

/// The number of equal bytes in front of the first ones that differ, of the values of the records whose heads stand in these
/// blocks, as far as both have bytes. Nothing differs where one is the front of the other.
///
/// Each record is read once, in pieces of at most 1,048,576 bytes, and its bytes are compared once. More equal bytes than 64 bits
/// count come as want of memory.
pub fn compare_blocks<S: Site>(
    alloc: Global,
    site: &mut S,
    who: &Who,
    left: &Side<'_>,
    right: &Side<'_>,
    readers: &mut Readers,
    first: Block,
    second: Block,
) -> Result<Option<u64>, JobFault>
    requires job { who.now ≡ job }
    requires lefts { (first.first ≤ first.end) × (first.end ≤ length left.now.heads.now) }
    requires rights { (second.first ≤ second.end) × (second.end ≤ length right.now.heads.now) }
    ensures raw { (most : ℕ) (all : List (List ℕ)) (held : Files) → most ≤ record_limit → AreSettled all held → IsSide most all held left.now
        → IsSide most all held right.now → AreTrue left.now right.now held readers.old → Adds (S.told site.old) (S.told site.new)
        (Leads (anyhow (SparesFiles all)) (HasFiles all held) (ComparedAll all left.now right.now held readers.new
        (values_between left.now held first.first first.end) (values_between right.now held second.first second.end) result)) }
    ensures own { Adds (S.told site.old) (S.told site.new) (Every (IsOf ReadsFile)) }
    ensures pieces { Adds (S.told site.old) (S.told site.new) (Every AsksInPieces) }
    ensures only { IfErr result IsOfRead }
    ensures last { Adds (S.told site.old) (S.told site.new) (FailsLast result) }
    ensures cause { JobCause (S.fault_count site.old) (S.fault_count site.new) result }
{
    let mut at = Progress {
        left: Cursor {
            index: first.first,
            end: first.end,
            passed: 0,
        },
        right: Cursor {
            index: second.first,
            end: second.end,
            passed: 0,
        },
        same: 0,
    };
    while at.left.index < at.left.end && at.right.index < at.right.end {
        let found = compare_records(alloc, site, who, left, right, readers, &mut at)?;
        if let Some(place) = found {
            return Ok(Some(place));
        }
    }
    Ok(None)
}
