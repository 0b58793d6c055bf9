//! A round of a collector and an agent that have begun.

ghost use Rattle.std.specs.Prelude.{◌≡◌, ◌≤◌, ◌∷◌, ℕ, List, [], Contains, IsTrue, OnOk, true};
ghost use Rattle.chk_bytes.specs.Stems.{is_collector};
ghost use Rattle.chk_site.specs.declared.acts.Who.{Who as Person};
ghost use Rattle.chk_site.specs.Messages.{self_address};
ghost use Rattle.chk_site.specs.Site.{Adds};
ghost use Rattle.chk_world.specs.Sight.{job};
ghost use Rattle.chk_sink.specs.States.{process};
ghost use Rattle.chk_round.specs.Faults.{FailsInside, RoundCause};
ghost use Rattle.chk_round.specs.Following.{KeepsLogs};
ghost use Rattle.chk_round.specs.Joint.{AreIn};
ghost use Rattle.chk_round.specs.Lengths.{WorkShown};
ghost use Rattle.chk_round.specs.Scripts.{RunReads, WereRead};
ghost use Rattle.chk_round.specs.Rounds.{AllSteady, RunsTo};
ghost use Rattle.chk_round.specs.Calls.{RoundCalls};

use crate::closing::close;
use crate::delivering::deliver;
use crate::faults::RoundFault;
use crate::reading::read_all;
use chk_agent::Agent;
use chk_archive::Report;
use chk_collector::Collector;
use chk_site::{Site, Who};
use std::alloc::Global;

/// Each log is read to its end, all of it is delivered, and the job runs once.
pub(crate) fn run_pair<S: Site>(
    alloc: Global,
    site: &mut S,
    agent: &mut Agent,
    collector: &mut Collector,
    collecting: &Who,
    archiving: &Who,
    now: u64,
    reads: u64,
) -> Result<Report, RoundFault>
    requires started { collecting.now ≡ process collector.old }
    requires named { IsTrue (is_collector collecting.now.name) }
    requires job_is { archiving.now ≡ job }
    requires ready { agent.old.ready ≡ true }
    requires address { agent.old.delivery.ring.addresses ≡ self_address ∷ [] }
    requires some { 1 ≤ reads }
    ensures told { (stamped : List (List ℕ)) (started acting : List Person) → AreIn started acting collector.old agent.old
        → Contains started job → Contains acting job → AllSteady agent.old → Adds (S.told site.old) (S.told site.new)
        (RunsTo stamped started acting collector.old agent.old agent.new result) }
    ensures script { RunReads reads agent.old result (S.told site.old) (S.told site.new) }
    ensures each { OnOk result (AllSteady agent.old → WereRead agent.old agent.new) }
    ensures live { OnOk result (KeepsLogs agent.old agent.new) }
    ensures cluster { OnOk result (agent.new.cluster ≡ agent.old.cluster) }
    ensures shown { WorkShown result (S.told site.old) (S.told site.new) }
    ensures acts { Adds (S.told site.old) (S.told site.new) RoundCalls }
    ensures last { Adds (S.told site.old) (S.told site.new) (FailsInside result) }
    ensures cause { RoundCause (S.fault_count site.old) (S.fault_count site.new) result }
{
    read_all(alloc, site, agent, collector, collecting, now, reads)?;
    let _sound_read = agent.ready();
    deliver(alloc, site, agent, collector, collecting, now)?;
    let _sound = agent.ready();
    let report = close(alloc, site, collector, archiving)?;
    Ok(report)
}
