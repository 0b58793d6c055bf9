//! The commits and polls of a round.

ghost use Rattle.std.specs.Prelude.{◌≡◌, IfErr, ◌≢◌, ◌≤◌, ◌∷◌, [], IsTrue, OnOk, true};
ghost use Rattle.chk_bytes.specs.Stems.{is_collector};
ghost use Rattle.chk_site.specs.Messages.{self_address};
ghost use Rattle.chk_site.specs.Site.{Adds};
ghost use Rattle.chk_sink.specs.States.{IsSameStart, process};
ghost use Rattle.chk_agent_delivery.specs.Turns.{asked_stems};
ghost use Rattle.chk_round.specs.Faults.{FailsInside, RoundCause};
ghost use Rattle.chk_round.specs.Joint.{JointTo};
ghost use Rattle.chk_round.specs.LastPolls.{LengthTold};
ghost use Rattle.chk_round.specs.Lengths.{HasCommitted, WorkShown, PolledOnce};
ghost use Rattle.chk_round.specs.OwnRows.{OwnTo};
ghost use Rattle.chk_round.specs.Polled.{PollTo};
ghost use Rattle.chk_round.specs.Scripts.{IsNoRead};
ghost use Rattle.chk_round.specs.Polling.{HasFree, PolledAll};
ghost use Rattle.chk_round.specs.Sending.{SendsOn};
ghost use Rattle.chk_round.specs.Calls.{RestCalls};

use crate::faults::RoundFault;
use chk_agent::Agent;
use chk_agent_delivery::Below;
use chk_collector::Collector;
use chk_exchange::poll_inside;
use chk_site::{Site, Who};
use std::alloc::Global;

/// Where no row is free, the collector commits, and the agent polls until one is.
pub(crate) fn make_room<S: Site>(
    alloc: Global,
    site: &mut S,
    agent: &mut Agent,
    collector: &mut Collector,
    collecting: &Who,
    now: u64,
) -> Result<(), RoundFault>
    requires started { collecting.now ≡ process collector.old }
    requires named { IsTrue (is_collector collecting.now.name) }
    requires ready { agent.old.ready ≡ true }
    requires address { agent.old.delivery.ring.addresses ≡ self_address ∷ [] }
    ensures joint { JointTo collector.old agent.old collector.new agent.new result (S.told site.old) (S.told site.new) }
    ensures rows { OwnTo collector.old agent.old collector.new agent.new result (S.told site.old) (S.told site.new) }
    ensures free { OnOk result (HasFree 1 agent.old agent.new) }
    ensures sends { OnOk result (SendsOn agent.old agent.new (S.told site.old) (S.told site.new)) }
    ensures same { IsSameStart collector.old collector.new }
    ensures shown { WorkShown result (S.told site.old) (S.told site.new) }
    ensures acts { Adds (S.told site.old) (S.told site.new) RestCalls }
    ensures last { Adds (S.told site.old) (S.told site.new) (FailsInside result) }
    ensures only { IfErr result IsNoRead }
    ensures cause { RoundCause (S.fault_count site.old) (S.fault_count site.new) result }
{
    let _sound = agent.most_rows();
    if agent.free_rows() > 0 {
        Ok(())
    } else {
        commit_rows(alloc, site, agent, collector, collecting, now, 1)
    }
}

/// The collector commits, and the agent polls until so many rows are free.
pub(crate) fn commit_rows<S: Site>(
    alloc: Global,
    site: &mut S,
    agent: &mut Agent,
    collector: &mut Collector,
    collecting: &Who,
    now: u64,
    wanted: u32,
) -> Result<(), RoundFault>
    requires started { collecting.now ≡ process collector.old }
    requires named { IsTrue (is_collector collecting.now.name) }
    requires ready { agent.old.ready ≡ true }
    requires address { agent.old.delivery.ring.addresses ≡ self_address ∷ [] }
    requires few { wanted ≤ agent.old.delivery.table.room }
    ensures joint { JointTo collector.old agent.old collector.new agent.new result (S.told site.old) (S.told site.new) }
    ensures rows { OwnTo collector.old agent.old collector.new agent.new result (S.told site.old) (S.told site.new) }
    ensures free { OnOk result (HasFree wanted agent.old agent.new) }
    ensures sends { OnOk result (SendsOn agent.old agent.new (S.told site.old) (S.told site.new)) }
    ensures same { IsSameStart collector.old collector.new }
    ensures shown { WorkShown result (S.told site.old) (S.told site.new) }
    ensures acts { Adds (S.told site.old) (S.told site.new) RestCalls }
    ensures last { Adds (S.told site.old) (S.told site.new) (FailsInside result) }
    ensures only { IfErr result IsNoRead }
    ensures cause { RoundCause (S.fault_count site.old) (S.fault_count site.new) result }
{
    let _sound = agent.ready();
    collector.tick(alloc, site, now)?;
    poll_until_free(alloc, site, agent, collector, collecting, wanted)
}

// Polls until so many rows are free. It ends, since each poll that goes on marks a row.
fn poll_until_free<S: Site>(
    alloc: Global,
    site: &mut S,
    agent: &mut Agent,
    collector: &mut Collector,
    collecting: &Who,
    wanted: u32,
) -> Result<(), RoundFault>
    requires started { collecting.now ≡ process collector.old }
    requires named { IsTrue (is_collector collecting.now.name) }
    requires ready { agent.old.ready ≡ true }
    requires address { agent.old.delivery.ring.addresses ≡ self_address ∷ [] }
    requires few { wanted ≤ agent.old.delivery.table.room }
    requires committed { HasCommitted collector.old }
    ensures joint { JointTo collector.old agent.old collector.new agent.new result (S.told site.old) (S.told site.new) }
    ensures rows { OwnTo collector.old agent.old collector.new agent.new result (S.told site.old) (S.told site.new) }
    ensures free { OnOk result (HasFree wanted agent.old agent.new) }
    ensures sends { OnOk result (SendsOn agent.old agent.new (S.told site.old) (S.told site.new)) }
    ensures same { IsSameStart collector.old collector.new }
    ensures shown { WorkShown result (S.told site.old) (S.told site.new) }
    ensures acts { Adds (S.told site.old) (S.told site.new) RestCalls }
    ensures last { Adds (S.told site.old) (S.told site.new) (FailsInside result) }
    ensures only { IfErr result IsNoRead }
    ensures cause { RoundCause (S.fault_count site.old) (S.fault_count site.new) result }
{
    'polls: while agent.free_rows() < wanted {
        poll_whole(alloc, site, agent, collector, collecting)?;
    }
    Ok(())
}

// One poll, which gives each sink that it asks for all that was answered.
fn poll_whole<S: Site>(
    alloc: Global,
    site: &mut S,
    agent: &mut Agent,
    collector: &mut Collector,
    collecting: &Who,
) -> Result<(), RoundFault>
    requires started { collecting.now ≡ process collector.old }
    requires named { IsTrue (is_collector collecting.now.name) }
    requires ready { agent.old.ready ≡ true }
    requires address { agent.old.delivery.ring.addresses ≡ self_address ∷ [] }
    requires some { asked_stems agent.old.delivery.table ≢ [] }
    ensures joint { PollTo collector.old agent.old collector.new agent.new result (S.told site.old) (S.told site.new) }
    ensures least { LengthTold collecting.now collector.old agent.old result (S.told site.old) (S.told site.new) }
    ensures all { OnOk result (PolledAll agent.old agent.new) }
    ensures sends { OnOk result (SendsOn agent.old agent.new (S.told site.old) (S.told site.new)) }
    ensures same { IsSameStart collector.old collector.new }
    ensures polls { PolledOnce collecting.now collector.old agent.old result collector.new agent.new
        (S.told site.old) (S.told site.new) }
    ensures acts { Adds (S.told site.old) (S.told site.new) RestCalls }
    ensures last { Adds (S.told site.old) (S.told site.new) (FailsInside result) }
    ensures only { IfErr result IsNoRead }
    ensures cause { RoundCause (S.fault_count site.old) (S.fault_count site.new) result }
{
    match poll_inside(alloc, site, agent, collector, collecting)? {
        Some(below) => Err(too_short(below)),
        None => Ok(()),
    }
}

// The end of a round by a length below an answered offset.
fn too_short(below: Below) -> RoundFault
    ensures { result ≡ RoundFault.Length below.stem below.got below.want }
{
    let Below { stem, got, want } = below;
    RoundFault::Length { stem, got, want }
}
