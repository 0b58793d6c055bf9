//! One turn of a collector and one of an agent, for callers that run one.

ghost use Rattle.std.specs.Prelude.{◌≡◌, ℕ, List, true, IsTrue, IfErr, IfOk, OnOk};
ghost use Rattle.chk_bytes.specs.Stems.{is_collector};
ghost use Rattle.chk_site.specs.Site.{Adds};
ghost use Rattle.chk_site.specs.Runs.{Leads};
ghost use Rattle.chk_world.specs.Places.{Foreign, Talking};
ghost use Rattle.chk_sink.specs.Closes.{IsOfTick};
ghost use Rattle.chk_sink.specs.Faults.{FailsLast};
ghost use Rattle.chk_sink.specs.Held.{Matches};
ghost use Rattle.chk_sink.specs.States.{IsSameStart, process};
ghost use Rattle.chk_collector_run.specs.Turns.{IsCollectorTurn, IsCutTurn};
ghost use Rattle.chk_collector_run.specs.Legality.{IsSettled, TurnEnds, Finds, TurnCause};
ghost use Rattle.chk_agent.specs.States.{process as agent_process};
ghost use Rattle.chk_agent.specs.Facts.{Matches as AgentMatches};
ghost use Rattle.chk_agent.specs.Faults.{AgentCause, FailsLast as AgentFailsLast, IsUndamaged};
ghost use Rattle.chk_agent_run.specs.Lent.{word_of};
ghost use Rattle.chk_agent_run.specs.Turns.{GoesOrEnds, IsAgentTurn};

use chk_agent::{Agent, AgentFault, Then};
use chk_bytes::Word;
use chk_collector::Collector;
use chk_sink::SinkFault;
use chk_site::{Site, Who};
use chk_tee_sender::Tees;
use std::alloc::Global;

/// One turn of the collector that `who` is, at that door, as the command makes each by default: it
/// waits up to 1,000 milliseconds for a message, reads it to its end, handles it and answers it once,
/// asks the clock, and ticks at that moment. Behind an answer that was done it sends the subscribers
/// what was written. A call that fails while the message is read, handled or
/// answered ends the message alone: `Outside` names the taking, the clock or a call of the tick.
/// After a refusal the finished parts stand.
pub fn collector_turn<S: Site>(
    alloc: Global,
    site: &mut S,
    who: &Who,
    collector: &mut Collector,
    door: &Word,
    tees: &mut Tees,
) -> Result<(), SinkFault>
    requires started { who.now ≡ process collector.old }
    requires named { IsTrue (is_collector who.now.name) }
    ensures turn { OnOk result (IsCollectorTurn who.now door.now 1 1000 collector.old tees.old
        (S.told site.old) collector.new tees.new (S.told site.new)) }
    ensures refused { IfErr result (λ fault. IsCutTurn who.now door.now 1 1000 fault collector.old
        tees.old (S.told site.old) collector.new tees.new (S.told site.new)) }
    ensures told { (stamped : List (List ℕ)) → Adds (S.told site.old) (S.told site.new)
        (Leads (Talking stamped who.now) (Matches stamped collector.old)
        (TurnEnds stamped collector.new result)) }
    ensures finds { (stamped : List (List ℕ)) → IsSettled collector.old
        → Adds (S.told site.old) (S.told site.new)
        (Finds (Foreign stamped who.now) who.now.name (Matches stamped collector.old)) }
    ensures settled { OnOk result (IsSettled collector.new) }
    ensures same { IsSameStart collector.old collector.new }
    ensures only { IfErr result IsOfTick }
    ensures last { Adds (S.told site.old) (S.told site.new) (FailsLast result) }
    ensures cause { TurnCause (S.fault_count site.old) (S.fault_count site.new) result }
{
    chk_collector_run::collector_turn(alloc, site, who, collector, door, 1, tees)
}

/// One turn of the agent that `who` is, as the command makes each by default: it does what the
/// control messages that are at the door ask for, at most 64, and nothing of them where no door is
/// given, asks for the time, makes the agent's turn at that moment, and waits 200 milliseconds.
/// `End` comes where the last message held an accepted `stopagent`, and else `Go`. `Outside` names
/// the taking, the clock, the pause or a call of the agent. After a refusal the finished parts
/// stand.
pub fn agent_turn<S: Site>(
    alloc: Global,
    site: &mut S,
    who: &Who,
    agent: &mut Agent,
    door: Option<&Word>,
) -> Result<Then, AgentFault>
    requires ready { agent.old.ready ≡ true }
    requires who { who.now ≡ agent_process agent.old }
    ensures turn { IsAgentTurn who.now (word_of door.entry) 200 agent.old result agent.new
        (S.told site.old) (S.told site.new) }
    ensures told { (stamped : List (List ℕ)) → Adds (S.told site.old) (S.told site.new)
        (Leads (Talking stamped (agent_process agent.old)) (AgentMatches stamped agent.old)
        (AgentMatches stamped agent.new)) }
    ensures source { agent.new.source ≡ agent.old.source }
    ensures ready { IfOk result (λ _. agent.new.ready ≡ true) }
    ensures on { GoesOrEnds result }
    ensures undamaged { IsUndamaged result }
    ensures last { Adds (S.told site.old) (S.told site.new) (AgentFailsLast result) }
    ensures cause { AgentCause (S.fault_count site.old) (S.fault_count site.new) result }
{
    chk_agent_run::agent_turn(alloc, site, who, agent, door, 200)
}
