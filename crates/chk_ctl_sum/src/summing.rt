//! The digests of the streams whose records' heads are known.

ghost use Rattle.std.specs.Prelude.{◌≡◌, ◌<◌, ◌≤◌, ◌++◌, ℕ, List, drop, length, map, IfErr, IfOk};
ghost use Rattle.chk_chunk.specs.Keys.{record_limit};
ghost use Rattle.chk_site.specs.Files.{Files};
ghost use Rattle.chk_site.specs.History.{Every};
ghost use Rattle.chk_site.specs.Site.{Adds};
ghost use Rattle.chk_site.specs.Runs.{anyhow, Leads};
ghost use Rattle.chk_world.specs.Sight.{job};
ghost use Rattle.chk_world.specs.JobSteps.{IsOf, ReadsFile};
ghost use Rattle.chk_record_index.specs.Faults.{JobCause, FailsLast, IsOfRead};
ghost use Rattle.chk_record_reader.specs.Segments.{HasFiles, SparesFiles, AreSettled};
ghost use Rattle.chk_join_sources.specs.Blocks.{StreamsRise};
ghost use Rattle.chk_join_sources.specs.Comparing.{IsSide, values_between, value_there};
ghost use Rattle.chk_ctl_sum.specs.Summing.{digest_of, rest_of, CanSum, HasSummed, TookOne};
ghost use Rattle.chk_ctl_sum.specs.Summing.{SummedOne, SummedAll};

use crate::digests::Digests;
use crate::rests::{Rest, Skipping};
use chk_join_sources::{Block, Side, block_of, fetch};
use chk_record_index::JobFault;
use chk_record_reader::RecordReader;
use chk_site::{Site, Who};
use std::alloc::Global;

/// Hands the value of the record at `index` to the hasher.
fn take_record<S: Site>(
    alloc: Global,
    site: &mut S,
    who: &Who,
    side: &Side<'_>,
    reader: &mut RecordReader,
    hasher: &mut Skipping,
    index: usize,
) -> Result<(), JobFault>
    requires job { who.now ≡ job }
    requires index { index < length side.now.heads.now }
    ensures raw { (most : ℕ) (all : List (List ℕ)) (held : Files) (skip : ℕ) (taken : List ℕ)
        → most ≤ record_limit → AreSettled all held → IsSide most all held side.now
        → Adds (S.told site.old) (S.told site.new) (Leads (anyhow (SparesFiles all))
        (HasSummed all held side.now skip taken reader.old hasher.old)
        (TookOne all held side.now skip (taken ++ value_there side.now held index) reader.new
        hasher.new result)) }
    ensures own { Adds (S.told site.old) (S.told site.new) (Every (IsOf ReadsFile)) }
    ensures only { IfErr result IsOfRead }
    ensures last { Adds (S.told site.old) (S.told site.new) (FailsLast result) }
    ensures cause { JobCause (S.fault_count site.old) (S.fault_count site.new) result }
{
    match fetch(alloc, site, who, reader, side, index) {
        Ok(()) => {
            hasher.update(reader.value());
            Ok(())
        }
        Err(fault) => Err(fault),
    }
}

/// The digest of the values of the records whose heads stand in the block, without the first
/// `skip` of their bytes.
fn sum_block<S: Site>(
    alloc: Global,
    site: &mut S,
    who: &Who,
    side: &Side<'_>,
    reader: &mut RecordReader,
    block: Block,
    skip: u64,
) -> Result<[u8; 32], JobFault>
    requires job { who.now ≡ job }
    requires low { block.first ≤ block.end }
    requires high { block.end ≤ length side.now.heads.now }
    ensures raw { (most : ℕ) (all : List (List ℕ)) (held : Files) → most ≤ record_limit
        → AreSettled all held → IsSide most all held side.now
        → Adds (S.told site.old) (S.told site.new)
        (Leads (anyhow (SparesFiles all)) (CanSum all held side.now reader.old)
        (SummedOne all held side.now
        (drop skip (values_between side.now held block.first block.end)) reader.new result)) }
    ensures own { Adds (S.told site.old) (S.told site.new) (Every (IsOf ReadsFile)) }
    ensures only { IfErr result IsOfRead }
    ensures last { Adds (S.told site.old) (S.told site.new) (FailsLast result) }
    ensures cause { JobCause (S.fault_count site.old) (S.fault_count site.new) result }
{
    let mut hasher = Skipping::new(skip);
    for index in block.first..block.end {
        take_record(alloc, site, who, side, reader, &mut hasher, index)?;
    }
    Ok(hasher.finalize())
}

/// The digest of the stream from its offset on. Its heads are looked for from `next` on, which then stands
/// behind them, so that streams in order cost one pass over the heads.
fn sum_stream<S: Site>(
    alloc: Global,
    site: &mut S,
    who: &Who,
    side: &Side<'_>,
    reader: &mut RecordReader,
    next: &mut usize,
    rest: &Rest<'_>,
) -> Result<[u8; 32], JobFault>
    requires job { who.now ≡ job }
    ensures raw { (most : ℕ) (all : List (List ℕ)) (held : Files) → most ≤ record_limit
        → AreSettled all held → IsSide most all held side.now → StreamsRise side.now.heads.now
        → Adds (S.told site.old) (S.told site.new)
        (Leads (anyhow (SparesFiles all)) (CanSum all held side.now reader.old)
        (SummedOne all held side.now (rest_of side.now held rest.now) reader.new result)) }
    ensures own { Adds (S.told site.old) (S.told site.new) (Every (IsOf ReadsFile)) }
    ensures only { IfErr result IsOfRead }
    ensures last { Adds (S.told site.old) (S.told site.new) (FailsLast result) }
    ensures cause { JobCause (S.fault_count site.old) (S.fault_count site.new) result }
{
    let block = block_of(side.heads, rest.end, next);
    sum_block(alloc, site, who, side, reader, block, rest.skip())
}

/// The digest of each stream from its offset on, in their order. It costs the reads of their
/// records, in pieces of at most 1,048,576 bytes, of which one is held, and for streams in order one
/// pass over the heads.
pub fn sum_streams<S: Site>(
    alloc: Global,
    site: &mut S,
    who: &Who,
    side: &Side<'_>,
    rests: &[Rest<'_>],
) -> Result<Digests, JobFault>
    requires job { who.now ≡ job }
    ensures raw { (most : ℕ) (all : List (List ℕ)) (held : Files) → most ≤ record_limit
        → AreSettled all held → IsSide most all held side.now → StreamsRise side.now.heads.now
        → Adds (S.told site.old) (S.told site.new)
        (Leads (anyhow (SparesFiles all)) (HasFiles all held)
        (SummedAll all held (map (digest_of side.now held) rests.now) result)) }
    ensures count { IfOk result (λ digests. length digests ≡ length rests.now) }
    ensures own { Adds (S.told site.old) (S.told site.new) (Every (IsOf ReadsFile)) }
    ensures only { IfErr result IsOfRead }
    ensures last { Adds (S.told site.old) (S.told site.new) (FailsLast result) }
    ensures cause { JobCause (S.fault_count site.old) (S.fault_count site.new) result }
{
    let mut digests = Digests::new(alloc);
    let mut reader = RecordReader::new(alloc);
    let mut next = 0;
    for rest in rests {
        let digest = sum_stream(alloc, site, who, side, &mut reader, &mut next, rest)?;
        digests.push(digest)?;
    }
    Ok(digests)
}
