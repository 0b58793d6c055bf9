//! Records of an archive compared with a log.

ghost use Rattle.std.specs.Prelude.{◌≡◌, ◌<◌, ◌≤◌, ◌-◌, [], ◌++◌, ℕ, List, length, drop};
ghost use Rattle.std.specs.Prelude.{IfErr, Option};
ghost use Rattle.chk_site.specs.Files.{Files};
ghost use Rattle.chk_site.specs.History.{Every, History};
ghost use Rattle.chk_site.specs.Site.{Adds, OutsideCause};
ghost use Rattle.chk_site.specs.Runs.{anyhow, Leads};
ghost use Rattle.chk_chunk.specs.Keys.{record_limit};
ghost use Rattle.chk_world.specs.JobSteps.{IsOf};
ghost use Rattle.chk_world.specs.Sight.{job};
ghost use Rattle.chk_record_index.specs.Faults.{JobCause, IsOfRead};
ghost use Rattle.chk_record_reader.specs.ReadBack.{value_held};
ghost use Rattle.chk_record_reader.specs.Segments.{AreSettled, SparesFiles};
ghost use Rattle.chk_rotate.specs.Readers.{Reader};
ghost use Rattle.chk_join_sources.specs.Comparing.{IsSide};
ghost use Rattle.chk_ctl_audit_log.specs.Placing.{ReadsLogOf};
ghost use Rattle.chk_ctl_sum.specs.Summing.{CanSum};
ghost use Rattle.chk_ctl_audit_log.specs.Ahead.{LogAt};
ghost use Rattle.chk_ctl_audit_log.specs.Records.{BlockMet, FetchedOne, ReadsBeside, RecordMet};

use crate::ahead::Ahead;
use crate::comparing::{Met, compare_rest};
use chk_ctl_sum::behind;
use chk_join_sources::{Block, Side, fetch};
use chk_record_index::JobFault;
use chk_record_reader::RecordReader;
use chk_site::{OutsideFault, Site, Who};
use std::alloc::Global;

/// Compares what of this value isn't left out with what the log has next.
fn compare_value<S: Site>(
    alloc: Global,
    site: &mut S,
    who: &Who,
    log: &mut Ahead,
    value: &[u8],
    left: &mut u64,
) -> Result<Met, OutsideFault>
    requires job { who.now ≡ job }
    ensures told { (from : Reader) (skip : ℕ) (taken : List ℕ) (before : Option History)
        → left.old ≡ skip - length taken
        → LogAt who.now from (drop skip taken) log.old before (S.told site.old)
        → RecordMet who.now from skip taken value.now log.new left.new before result
        (S.told site.new) }
    ensures own { Adds (S.told site.old) (S.told site.new)
        (Every (IsOf (ReadsLogOf log.old.reader.path))) }
    ensures path { log.new.reader.path ≡ log.old.reader.path }
    ensures cause { OutsideCause (S.fault_count site.old) (S.fault_count site.new) result }
{
    let rest = behind(value, *left);
    *left = left.saturating_sub(value.len() as u64);
    compare_rest(alloc, site, who, log, rest)
}

/// Compares the record at `index`.
fn compare_record<S: Site>(
    alloc: Global,
    site: &mut S,
    who: &Who,
    side: &Side<'_>,
    reader: &mut RecordReader,
    log: &mut Ahead,
    left: &mut u64,
    index: usize,
) -> Result<Met, JobFault>
    requires job { who.now ≡ job }
    requires index { index < length side.now.heads.now }
    ensures told { (from : Reader) (skip : ℕ) (taken : List ℕ) (before : Option History)
        → left.old ≡ skip - length taken
        → LogAt who.now from (drop skip taken) log.old before (S.told site.old)
        → RecordMet who.now from skip taken (value_held reader.new) log.new left.new before result
        (S.told site.new) }
    ensures raw { (most : ℕ) (all : List (List ℕ)) (held : Files) → most ≤ record_limit
        → AreSettled all held → IsSide most all held side.now
        → Adds (S.told site.old) (S.told site.new) (Leads (anyhow (SparesFiles all))
        (CanSum all held side.now reader.old)
        (FetchedOne all held side.now index reader.new result)) }
    ensures own { Adds (S.told site.old) (S.told site.new)
        (Every (IsOf (ReadsBeside log.old.reader.path))) }
    ensures path { log.new.reader.path ≡ log.old.reader.path }
    ensures only { IfErr result IsOfRead }
    ensures cause { JobCause (S.fault_count site.old) (S.fault_count site.new) result }
{
    match fetch(alloc, site, who, reader, side, index) {
        Ok(()) => match compare_value(alloc, site, who, log, reader.value(), left) {
            Ok(met) => Ok(met),
            Err(fault) => Err(JobFault::from(fault)),
        },
        Err(fault) => Err(fault),
    }
}

/// Compares the records of the block, without the first `skip` of their bytes, up to the first
/// bytes that differ.
pub(crate) fn compare_block<S: Site>(
    alloc: Global,
    site: &mut S,
    who: &Who,
    side: &Side<'_>,
    reader: &mut RecordReader,
    log: &mut Ahead,
    block: Block,
    skip: u64,
) -> Result<Met, JobFault>
    requires job { who.now ≡ job }
    requires low { block.first ≤ block.end }
    requires high { block.end ≤ length side.now.heads.now }
    ensures told { (from : Reader) → LogAt who.now from [] log.old (S.told site.old) (S.told site.old)
        → BlockMet who.now side.now reader.old from skip block.first block.end log.new
        (S.told site.old) result (S.told site.new) }
    ensures own { Adds (S.told site.old) (S.told site.new)
        (Every (IsOf (ReadsBeside log.old.reader.path))) }
    ensures only { IfErr result IsOfRead }
    ensures cause { JobCause (S.fault_count site.old) (S.fault_count site.new) result }
{
    let mut left = skip;
    for index in block.first..block.end {
        match compare_record(alloc, site, who, side, reader, log, &mut left, index) {
            Ok(Met::All) => {}
            Ok(Met::Differs(at)) => return Ok(Met::Differs(at)),
            Ok(Met::Ends(at)) => return Ok(Met::Ends(at)),
            Err(fault) => return Err(fault),
        }
    }
    Ok(Met::All)
}
