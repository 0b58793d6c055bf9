//! The end of a round: the collector closes its sink, and the archive job runs once.

ghost use Rattle.std.specs.Prelude.{◌≡◌, IfErr, ℕ, List, Contains, IsTrue, OnOk};
ghost use Rattle.chk_site.specs.declared.acts.Who.{Who as Person};
ghost use Rattle.chk_site.specs.Site.{Adds};
ghost use Rattle.chk_site.specs.Runs.{Leads};
ghost use Rattle.chk_world.specs.Sight.{job};
ghost use Rattle.chk_world.specs.Together.{Together};
ghost use Rattle.chk_sink.specs.States.{IsSameStart};
ghost use Rattle.chk_collector.specs.Finishing.{finished};
ghost use Rattle.chk_agent.specs.Fits.{IsSound};
ghost use Rattle.chk_agent.specs.States.{State as Agents};
ghost use Rattle.chk_archive.specs.Archived.{GivenOnce};
ghost use Rattle.chk_round.specs.Closing.{Closed};
ghost use Rattle.chk_round.specs.Faults.{FailsLast, RoundCause};
ghost use Rattle.chk_round.specs.Joint.{AreIn, BothAt};
ghost use Rattle.chk_round.specs.Lengths.{IsPlain, WorkShown};
ghost use Rattle.chk_round.specs.Sending.{SendsNone};
ghost use Rattle.chk_round.specs.Theirs.{ListsTheirs};
ghost use Rattle.chk_round.specs.Calls.{RestCalls};

use crate::faults::RoundFault;
use chk_archive::{Report, archive};
use chk_collector::Collector;
use chk_site::{Site, Who};
use std::alloc::Global;

/// The collector closes its sink, and the job runs once.
pub(crate) fn close<S: Site>(
    alloc: Global,
    site: &mut S,
    collector: &mut Collector,
    archiving: &Who,
) -> Result<Report, RoundFault>
    requires job_is { archiving.now ≡ job }
    ensures told { (stamped : List (List ℕ)) (started acting : List Person) (a : Agents) → IsSound a
        → AreIn started acting collector.old a → Contains started job → Contains acting job
        → Adds (S.told site.old) (S.told site.new) (Leads (Together stamped started acting)
        (BothAt stamped collector.old a) (Closed stamped collector.new a result)) }
    ensures sends { OnOk result (SendsNone (S.told site.old) (S.told site.new)) }
    ensures theirs { OnOk result (ListsTheirs collector.old (S.told site.old) (S.told site.new)) }
    ensures given { OnOk result (Adds (S.told site.old) (S.told site.new) GivenOnce) }
    ensures same { IsSameStart collector.old collector.new }
    ensures finished { OnOk result (collector.new ≡ finished collector.old) }
    ensures acts { Adds (S.told site.old) (S.told site.new) RestCalls }
    ensures last { Adds (S.told site.old) (S.told site.new) (FailsLast result) }
    ensures only { IfErr result IsPlain }
    ensures shown { WorkShown result (S.told site.old) (S.told site.new) }
    ensures cause { RoundCause (S.fault_count site.old) (S.fault_count site.new) result }
{
    collector.finish(alloc, site)?;
    let report = archive(alloc, site, archiving)?;
    Ok(report)
}
