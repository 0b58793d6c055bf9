//! The posts of a round.

ghost use Rattle.std.specs.Prelude.{◌≡◌, IfErr, ◌≢◌, ◌∷◌, [], IsTrue, OnOk, true};
ghost use Rattle.chk_bytes.specs.Stems.{is_collector};
ghost use Rattle.chk_site.specs.Messages.{self_address};
ghost use Rattle.chk_site.specs.Site.{Adds};
ghost use Rattle.chk_sink.specs.States.{IsSameStart, process};
ghost use Rattle.chk_agent_delivery.specs.States.{free_rows};
ghost use Rattle.chk_round.specs.Faults.{FailsInside, RoundCause};
ghost use Rattle.chk_round.specs.Joint.{JointTo};
ghost use Rattle.chk_round.specs.Lengths.{WorkShown};
ghost use Rattle.chk_round.specs.OwnRows.{OwnTo};
ghost use Rattle.chk_round.specs.Scripts.{IsNoRead};
ghost use Rattle.chk_round.specs.Polling.{PostedAll, PostedSome};
ghost use Rattle.chk_round.specs.Sending.{SendsOn};
ghost use Rattle.chk_round.specs.Calls.{RestCalls};

use crate::faults::RoundFault;
use crate::polling::make_room;
use chk_agent::Agent;
use chk_collector::Collector;
use chk_exchange::post_inside;
use chk_site::{Site, Who};
use std::alloc::Global;

/// Sends all chunks that wait.
pub(crate) fn post_rest<S: Site>(
    alloc: Global,
    site: &mut S,
    agent: &mut Agent,
    collector: &mut Collector,
    collecting: &Who,
    now: u64,
) -> Result<(), RoundFault>
    requires started { collecting.now ≡ process collector.old }
    requires named { IsTrue (is_collector collecting.now.name) }
    requires ready { agent.old.ready ≡ true }
    requires address { agent.old.delivery.ring.addresses ≡ self_address ∷ [] }
    ensures joint { JointTo collector.old agent.old collector.new agent.new result (S.told site.old) (S.told site.new) }
    ensures rows { OwnTo collector.old agent.old collector.new agent.new result (S.told site.old) (S.told site.new) }
    ensures all { OnOk result (PostedAll agent.old agent.new) }
    ensures sends { OnOk result (SendsOn agent.old agent.new (S.told site.old) (S.told site.new)) }
    ensures same { IsSameStart collector.old collector.new }
    ensures shown { WorkShown result (S.told site.old) (S.told site.new) }
    ensures acts { Adds (S.told site.old) (S.told site.new) RestCalls }
    ensures last { Adds (S.told site.old) (S.told site.new) (FailsInside result) }
    ensures only { IfErr result IsNoRead }
    ensures cause { RoundCause (S.fault_count site.old) (S.fault_count site.new) result }
{
    'posts: while !agent.is_empty() {
        post_next(alloc, site, agent, collector, collecting, now)?;
    }
    Ok(())
}

/// Sends the next chunks that wait; where no row is free, a commit and polls go first.
pub(crate) fn post_next<S: Site>(
    alloc: Global,
    site: &mut S,
    agent: &mut Agent,
    collector: &mut Collector,
    collecting: &Who,
    now: u64,
) -> Result<(), RoundFault>
    requires started { collecting.now ≡ process collector.old }
    requires named { IsTrue (is_collector collecting.now.name) }
    requires ready { agent.old.ready ≡ true }
    requires address { agent.old.delivery.ring.addresses ≡ self_address ∷ [] }
    requires some { agent.old.delivery.queue.chunks ≢ [] }
    ensures joint { JointTo collector.old agent.old collector.new agent.new result (S.told site.old) (S.told site.new) }
    ensures rows { OwnTo collector.old agent.old collector.new agent.new result (S.told site.old) (S.told site.new) }
    ensures some { OnOk result (PostedSome agent.old agent.new) }
    ensures sends { OnOk result (SendsOn agent.old agent.new (S.told site.old) (S.told site.new)) }
    ensures same { IsSameStart collector.old collector.new }
    ensures shown { WorkShown result (S.told site.old) (S.told site.new) }
    ensures acts { Adds (S.told site.old) (S.told site.new) RestCalls }
    ensures last { Adds (S.told site.old) (S.told site.new) (FailsInside result) }
    ensures only { IfErr result IsNoRead }
    ensures cause { RoundCause (S.fault_count site.old) (S.fault_count site.new) result }
{
    make_room(alloc, site, agent, collector, collecting, now)?;
    post_inside(alloc, site, agent, collector, collecting, now)?;
    Ok(())
}
