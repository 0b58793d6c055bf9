//! The next stream of two archives is taken, or found to differ.

ghost use Rattle.std.specs.Prelude.{◌≡◌, ◌⊎◌, ◌+◌, ◌-◌, ◌^◌, ◌<◌, ◌≤◌, ℕ, min, List, length, map, true, false, OnOk, IfOk, IfErr, IfNone, None, Some};
ghost use Rattle.chk_chunk.specs.Keys.{record_limit};
ghost use Rattle.chk_site.specs.Files.{Files};
ghost use Rattle.chk_site.specs.History.{Every};
ghost use Rattle.chk_site.specs.Site.{Adds};
ghost use Rattle.chk_site.specs.Runs.{anyhow, Leads};
ghost use Rattle.chk_world.specs.Sight.{job};
ghost use Rattle.chk_world.specs.JobSteps.{IsOf, ReadsFile};
ghost use Rattle.chk_record_index.specs.Faults.{JobCause, FailsLast, IsOfRead};
ghost use Rattle.chk_record_index.specs.Pieces.{AsksInPieces};
ghost use Rattle.chk_record_index.specs.declared.fault.JobFault.TheVariants.{NoMemory as no_memory};
ghost use Rattle.chk_book.specs.Views.{end_view};
ghost use Rattle.chk_record_reader.specs.Segments.{HasFiles, SparesFiles, AreSettled};
ghost use Rattle.chk_record_reader.specs.OnePass.{end_at};
ghost use Rattle.chk_join_sources.specs.Comparing.{IsSide, AreTrue, values_between};
ghost use Rattle.chk_join_sources.specs.Pairs.{left_alone, right_alone, paired, taken_end, pairs_left};
ghost use Rattle.chk_join_sources.specs.Plans.{IsBlockOf, IsChoiceOf, HasTaken, HasTakenBlock, HasTakenPair, HasPassedOne};
ghost use Rattle.chk_join_sources.specs.Differing.{FoundOf, place_behind, difference_at, difference_by};
ghost use Rattle.chk_join_sources.specs.Choosing.{IsSideInOrder, ComparedPair, ComparedFirst};

use crate::difference::Difference;
use crate::pairs::{Places, Turn, next_turn};
use crate::plan::{Choice, Plan};
use crate::{Block, Readers, Side, block_of, compare_blocks};
use chk_book::End;
use chk_bytes::NoMemory;
use chk_record_index::{Heads, JobFault};
use chk_site::{Site, Who};
use std::alloc::Global;

/// The offset so far behind a stream's start, if one is given. One of more than 64 bits counts as want of memory.
fn place_of(start: u64, same: Option<u64>) -> Result<Option<u64>, JobFault>
    ensures ok { IfOk result (λ found. found ≡ place_behind start same) }
    ensures err { IfErr result (λ fault. fault ≡ no_memory) }
{
    let Some(same) = same else {
        return Ok(None);
    };
    match start.checked_add(same) {
        Some(at) => Ok(Some(at)),
        None => Err(JobFault::NoMemory),
    }
}

/// The lesser one.
fn lesser(a: u64, b: u64) -> u64
    ensures { result ≡ min a b }
{
    if a < b { a } else { b }
}

/// Where the streams of two ends differ whose records' heads stand in these blocks. Where the starts aren't the same it costs no
/// call.
fn find_difference<S: Site>(
    alloc: Global,
    site: &mut S,
    who: &Who,
    left: &Side<'_>,
    right: &Side<'_>,
    readers: &mut Readers,
    a: &End,
    b: &End,
    first: Block,
    second: Block,
) -> Result<Option<u64>, JobFault>
    requires job { who.now ≡ job }
    requires lefts { (first.first ≤ first.end) × (first.end ≤ length left.now.heads.now) }
    requires rights { (second.first ≤ second.end) × (second.end ≤ length right.now.heads.now) }
    ensures raw { (most : ℕ) (all : List (List ℕ)) (held : Files) → most ≤ record_limit → AreSettled all held → IsSide most all held left.now
        → IsSide most all held right.now → AreTrue left.now right.now held readers.old → Adds (S.told site.old) (S.told site.new)
        (Leads (anyhow (SparesFiles all)) (HasFiles all held) (FoundOf all left.now right.now held readers.new
        (end_view a.now) (end_view b.now) (values_between left.now held first.first first.end)
        (values_between right.now held second.first second.end) result)) }
    ensures own { Adds (S.told site.old) (S.told site.new) (Every (IsOf ReadsFile)) }
    ensures pieces { Adds (S.told site.old) (S.told site.new) (Every AsksInPieces) }
    ensures only { IfErr result IsOfRead }
    ensures last { Adds (S.told site.old) (S.told site.new) (FailsLast result) }
    ensures cause { JobCause (S.fault_count site.old) (S.fault_count site.new) result }
{
    if a.start != b.start {
        return Ok(Some(lesser(a.start, b.start)));
    }
    match compare_blocks(alloc, site, who, left, right, readers, first, second) {
        Ok(same) => place_of(a.start, same),
        Err(fault) => Err(fault),
    }
}

/// Takes the next stream of one side alone, which differs from none.
fn take_alone(
    plan: &mut Plan,
    ends: &[End],
    heads: &Heads,
    from_right: bool,
    at: &mut usize,
    head: &mut usize,
) -> Result<Option<Difference>, JobFault>
    requires { at.old < length ends.now }
    ensures none { IfOk result (λ found. found ≡ None) }
    ensures err { IfErr result (λ fault. fault ≡ no_memory) }
    ensures taken { IfOk result (λ found. HasTakenBlock heads.now (end_at (map end_view ends.now) at.old) from_right plan.old plan.new) }
    ensures next { IfOk result (λ found. at.new ≡ at.old + 1) }
{
    let end = &ends[*at];
    let block = block_of(heads, end, head);
    plan.take(end, Choice { from_right, block })?;
    *at += 1;
    Ok(None)
}

/// Takes the records of the end that has more bytes, of the left one where both have as many.
fn take_longer(
    plan: &mut Plan,
    a: &End,
    b: &End,
    first: Block,
    second: Block,
) -> Result<(), NoMemory>
    ensures left { b.now.end ≤ a.now.end
        → OnOk result (HasTaken (end_view a.now) (record { from_right = false; block = first }) plan.old plan.new) }
    ensures right { a.now.end < b.now.end
        → OnOk result (HasTaken (end_view b.now) (record { from_right = true; block = second }) plan.old plan.new) }
{
    if a.end < b.end {
        let choice = Choice {
            from_right: true,
            block: second,
        };
        return plan.take(b, choice);
    }
    let choice = Choice {
        from_right: false,
        block: first,
    };
    plan.take(a, choice)
}

/// The end's stream differs there.
fn differ(end: &End, at: u64) -> Result<Option<Difference>, JobFault>
    ensures ok { IfOk result (λ found. found ≡ difference_by (end_view end.now).stream (Some at)) }
    ensures err { IfErr result (λ fault. fault ≡ no_memory) }
{
    match Difference::of(end, at) {
        Ok(found) => Ok(Some(found)),
        Err(_) => Err(JobFault::NoMemory),
    }
}

/// Takes the longer one of two ends that are alike, and goes on behind both; or says where they differ.
fn pass_both(
    plan: &mut Plan,
    at: &mut Places,
    a: &End,
    b: &End,
    first: Block,
    second: Block,
    found: Option<u64>,
) -> Result<Option<Difference>, JobFault>
    requires { (at.old.left < 2 ^ 64 - 1) × (at.old.right < 2 ^ 64 - 1) }
    ensures ok { IfOk result (λ difference. difference ≡ difference_by (end_view a.now).stream found) }
    ensures err { IfErr result (λ fault. fault ≡ no_memory) }
    ensures left { b.now.end ≤ a.now.end → IfOk result (λ difference. IfNone difference
        (HasTaken (end_view a.now) (record { from_right = false; block = first }) plan.old plan.new)) }
    ensures right { a.now.end < b.now.end → IfOk result (λ difference. IfNone difference
        (HasTaken (end_view b.now) (record { from_right = true; block = second }) plan.old plan.new)) }
    ensures next { IfOk result (λ difference. IfNone difference
        ((at.new.left ≡ at.old.left + 1) × (at.new.right ≡ at.old.right + 1))) }
{
    match found {
        Some(place) => differ(a, place),
        None => {
            take_longer(plan, a, b, first, second)?;
            at.left += 1;
            at.right += 1;
            Ok(None)
        }
    }
}

/// Compares the next stream of both sides, and takes the records of the longer one, the left ones where both are equally long;
/// or says where they differ.
fn take_both<S: Site>(
    alloc: Global,
    site: &mut S,
    who: &Who,
    lefts: &[End],
    rights: &[End],
    left: &Side<'_>,
    right: &Side<'_>,
    readers: &mut Readers,
    plan: &mut Plan,
    at: &mut Places,
) -> Result<Option<Difference>, JobFault>
    requires job { who.now ≡ job }
    requires lefts { at.old.left < length lefts.now }
    requires rights { at.old.right < length rights.now }
    ensures raw { (most : ℕ) (all : List (List ℕ)) (held : Files) → most ≤ record_limit → AreSettled all held
        → IsSideInOrder most all held left.now → IsSideInOrder most all held right.now → AreTrue left.now right.now held readers.old
        → Adds (S.told site.old) (S.told site.new) (Leads (anyhow (SparesFiles all)) (HasFiles all held)
        (ComparedPair all left.now right.now held readers.new
        (paired (end_at (map end_view lefts.now) at.old.left) (end_at (map end_view rights.now) at.old.right)) result)) }
    ensures taken { IfOk result (λ found. IfNone found (HasTakenPair left.now.heads.now right.now.heads.now
        (paired (end_at (map end_view lefts.now) at.old.left) (end_at (map end_view rights.now) at.old.right)) plan.old plan.new)) }
    ensures next { IfOk result (λ found. IfNone found
        ((at.new.left ≡ at.old.left + 1) × (at.new.right ≡ at.old.right + 1))) }
    ensures own { Adds (S.told site.old) (S.told site.new) (Every (IsOf ReadsFile)) }
    ensures pieces { Adds (S.told site.old) (S.told site.new) (Every AsksInPieces) }
    ensures only { IfErr result IsOfRead }
    ensures last { Adds (S.told site.old) (S.told site.new) (FailsLast result) }
    ensures cause { JobCause (S.fault_count site.old) (S.fault_count site.new) result }
{
    let a = &lefts[at.left];
    let b = &rights[at.right];
    let first = block_of(left.heads, a, &mut at.left_head);
    let second = block_of(right.heads, b, &mut at.right_head);
    match find_difference(alloc, site, who, left, right, readers, a, b, first, second) {
        Ok(found) => pass_both(plan, at, a, b, first, second, found),
        Err(fault) => Err(fault),
    }
}

/// Takes the next stream in byte order, or says where both archives differ in it.
pub(crate) fn take_next<S: Site>(
    alloc: Global,
    site: &mut S,
    who: &Who,
    lefts: &[End],
    rights: &[End],
    left: &Side<'_>,
    right: &Side<'_>,
    readers: &mut Readers,
    plan: &mut Plan,
    at: &mut Places,
) -> Result<Option<Difference>, JobFault>
    requires job { who.now ≡ job }
    requires some { (at.old.left < length lefts.now) ⊎ (at.old.right < length rights.now) }
    requires left { at.old.left ≤ length lefts.now }
    requires right { at.old.right ≤ length rights.now }
    ensures raw { (most : ℕ) (all : List (List ℕ)) (held : Files) → most ≤ record_limit → AreSettled all held
        → IsSideInOrder most all held left.now → IsSideInOrder most all held right.now → AreTrue left.now right.now held readers.old
        → Adds (S.told site.old) (S.told site.new) (Leads (anyhow (SparesFiles all)) (HasFiles all held)
        (ComparedFirst all left.now right.now held readers.new
        (pairs_left (map end_view lefts.now) (map end_view rights.now) at.old) result)) }
    ensures passed { IfOk result (λ found. IfNone found (HasPassedOne left.now.heads.now right.now.heads.now
        (map end_view lefts.now) (map end_view rights.now) at.old at.new plan.old plan.new)) }
    ensures own { Adds (S.told site.old) (S.told site.new) (Every (IsOf ReadsFile)) }
    ensures pieces { Adds (S.told site.old) (S.told site.new) (Every AsksInPieces) }
    ensures only { IfErr result IsOfRead }
    ensures last { Adds (S.told site.old) (S.told site.new) (FailsLast result) }
    ensures cause { JobCause (S.fault_count site.old) (S.fault_count site.new) result }
{
    match next_turn(lefts, rights, at.left, at.right) {
        Turn::Left => take_alone(
            plan,
            lefts,
            left.heads,
            false,
            &mut at.left,
            &mut at.left_head,
        ),
        Turn::Right => take_alone(
            plan,
            rights,
            right.heads,
            true,
            &mut at.right,
            &mut at.right_head,
        ),
        Turn::Both => take_both(
            alloc, site, who, lefts, rights, left, right, readers, plan, at,
        ),
    }
}
