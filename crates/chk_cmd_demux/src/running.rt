//! A demux run, and what it prints.

ghost use Rattle.std.specs.Prelude.{◌≡◌, ℕ, List};
ghost use Rattle.chk_site.specs.History.{Every};
ghost use Rattle.chk_site.specs.Site.{Adds};
ghost use Rattle.chk_site.specs.Runs.{Leads};
ghost use Rattle.chk_world.specs.Places.{As};
ghost use Rattle.chk_world.specs.Sight.{job};
ghost use Rattle.chk_world.specs.JobSteps.{IsOf};
ghost use Rattle.chk_record_index.specs.Faults.{JobCause, FailsLast};
ghost use Rattle.chk_record_index.specs.Causes.{Shows};
ghost use Rattle.chk_demux.specs.Demuxed.{Earlier, Begun, Demuxed, NamesStamped};
ghost use Rattle.chk_demux.specs.Shown.{IsDamage, ShowsSpent};
ghost use Rattle.chk_demux.specs.Splitting.{texts};
ghost use Rattle.chk_cmd_demux.specs.Telling.{DemuxesAndTells, IsTold, EndsRunning};

use crate::telling::tell;
use chk_demux::{DemuxReport, demux};
use chk_record_index::JobFault;
use chk_site::{Site, Who};
use std::alloc::Global;

/// Runs the demux job once, with these types split by stamps, and prints its report with one call. Where a call fails nothing more
/// is done; the records that were published stay so.
pub fn run_demux<S: Site>(
    alloc: Global,
    site: &mut S,
    who: &Who,
    types: &[&str],
) -> Result<DemuxReport, JobFault>
    requires { who.now ≡ job }
    ensures told { (stamped : List (List ℕ)) (before : Earlier) → NamesStamped stamped (texts types.now)
        → Adds (S.told site.old) (S.told site.new)
        (Leads (As stamped job) (Begun stamped before) (Demuxed stamped before result)) }
    ensures own { Adds (S.told site.old) (S.told site.new) (Every (IsOf DemuxesAndTells)) }
    ensures prints { Adds (S.told site.old) (S.told site.new) (IsTold result) }
    ensures runs { Adds (S.told site.old) (S.told site.new) (EndsRunning result) }
    ensures shown { Adds (S.told site.old) (S.told site.new) (Shows IsDamage result) }
    ensures spent { Adds (S.told site.old) (S.told site.new) (ShowsSpent result) }
    ensures last { Adds (S.told site.old) (S.told site.new) (FailsLast result) }
    ensures cause { JobCause (S.fault_count site.old) (S.fault_count site.new) result }
{
    let report = demux(alloc, site, who, types)?;
    tell(alloc, site, who, &report)?;
    Ok(report)
}
