//! What waits is delivered, and the checkpoint says so.

ghost use Rattle.std.specs.Prelude.{◌≡◌, IfErr, ◌∷◌, [], Err, IsTrue, OnOk, true};
ghost use Rattle.chk_bytes.specs.Stems.{is_collector};
ghost use Rattle.chk_site.specs.Messages.{self_address};
ghost use Rattle.chk_site.specs.Site.{Adds};
ghost use Rattle.chk_sink.specs.States.{IsSameStart, process};
ghost use Rattle.chk_round.specs.Delivering.{Delivered};
ghost use Rattle.chk_round.specs.Faults.{FailsInside, RoundCause};
ghost use Rattle.chk_round.specs.Following.{KeepsLogs};
ghost use Rattle.chk_round.specs.Joint.{JointTo};
ghost use Rattle.chk_round.specs.Lengths.{WorkShown};
ghost use Rattle.chk_round.specs.OwnRows.{OwnTo};
ghost use Rattle.chk_round.specs.Scripts.{IsNoRead};
ghost use Rattle.chk_round.specs.Sending.{SendsRest};
ghost use Rattle.chk_round.specs.Calls.{RestCalls};

use crate::faults::RoundFault;
use crate::polling::commit_rows;
use crate::posting::post_rest;
use chk_agent::Agent;
use chk_collector::Collector;
use chk_site::{Site, Who};
use std::alloc::Global;

/// What waits is sent and committed, and the checkpoint says so.
pub(crate) fn deliver<S: Site>(
    alloc: Global,
    site: &mut S,
    agent: &mut Agent,
    collector: &mut Collector,
    collecting: &Who,
    now: u64,
) -> Result<(), RoundFault>
    requires started { collecting.now ≡ process collector.old }
    requires named { IsTrue (is_collector collecting.now.name) }
    requires ready { agent.old.ready ≡ true }
    requires address { agent.old.delivery.ring.addresses ≡ self_address ∷ [] }
    ensures joint { JointTo collector.old agent.old collector.new agent.new result (S.told site.old) (S.told site.new) }
    ensures rows { IfErr result (λ fault. OwnTo collector.old agent.old collector.new agent.new (Err fault)
        (S.told site.old) (S.told site.new)) }
    ensures live { OnOk result (KeepsLogs agent.old agent.new) }
    ensures all { OnOk result (Delivered agent.old agent.new) }
    ensures sends { OnOk result (SendsRest agent.old (S.told site.old) (S.told site.new)) }
    ensures same { IsSameStart collector.old collector.new }
    ensures shown { WorkShown result (S.told site.old) (S.told site.new) }
    ensures acts { Adds (S.told site.old) (S.told site.new) RestCalls }
    ensures last { Adds (S.told site.old) (S.told site.new) (FailsInside result) }
    ensures only { IfErr result IsNoRead }
    ensures cause { RoundCause (S.fault_count site.old) (S.fault_count site.new) result }
{
    post_rest(alloc, site, agent, collector, collecting, now)?;
    let rows = agent.most_rows();
    commit_rows(alloc, site, agent, collector, collecting, now, rows)?;
    let _sound = agent.free_rows();
    let _settled = agent.settle(alloc, site, now)?;
    Ok(())
}
