//! The calls of a turn that aren't the agent's own.

ghost use Rattle.std.specs.Prelude.{◌≡◌, ◌≤◌, ℕ, List, [], ◌∷◌, true, IfErr};
ghost use Rattle.chk_site.specs.declared.acts.Call.TheVariants.{Answer};
ghost use Rattle.chk_site.specs.Site.{Adds, MayFail, CauseOf};
ghost use Rattle.chk_site.specs.Runs.{Leads};
ghost use Rattle.chk_world.specs.Places.{Talking};
ghost use Rattle.chk_agent.specs.declared.answers.AgentFault.TheVariants.{NoMemory as wanting};
ghost use Rattle.chk_agent.specs.States.{process};
ghost use Rattle.chk_agent.specs.Facts.{Matches};
ghost use Rattle.chk_agent.specs.Faults.{AgentCause, FailsLast, IsUndamaged};
ghost use Rattle.chk_agent_run.specs.Calls.{Gives, Took, Clocked, Paused};
ghost use Rattle.chk_agent_run.specs.Turns.{AnswerGives, Answers};

use chk_agent::{Agent, AgentFault};
use chk_bytes::Word;
use chk_site::{Call, CallFault, Site, Taking, Who};
use std::alloc::Global;

// What a call's answer is taken for.
fn given<T: Drop>(call: Call, answer: Result<T, CallFault>) -> Result<T, AgentFault>
    requires may { MayFail answer }
    ensures gives { Gives call answer result }
    ensures undamaged { IsUndamaged result }
{
    match answer {
        Ok(value) => Ok(value),
        Err(CallFault::Failed) => Err(AgentFault::Outside { call }),
        Err(CallFault::NoMemory) => Err(AgentFault::NoMemory),
        Err(_) => unreachable!(),
    }
}

// What an answer's answer is taken for: that it failed is no fault.
fn answered(answer: Result<(), CallFault>) -> Result<(), AgentFault>
    requires may { MayFail answer }
    ensures gives { AnswerGives answer result }
    ensures unmade { IfErr result (λ fault. fault ≡ wanting) }
{
    match answer {
        Ok(()) | Err(CallFault::Failed) => Ok(()),
        Err(CallFault::NoMemory) => Err(AgentFault::NoMemory),
        Err(_) => unreachable!(),
    }
}

// Takes a message at the door, where one is there.
pub(crate) fn take<S: Site>(
    alloc: Global,
    site: &mut S,
    who: &Who,
    agent: &Agent,
    door: &Word,
) -> Result<Option<Taking>, AgentFault>
    requires ready { agent.now.ready ≡ true }
    requires who { who.now ≡ process agent.now }
    ensures taken { Took who.now door.now result (S.told site.old) (S.told site.new) }
    ensures told { (stamped : List (List ℕ)) → Adds (S.told site.old) (S.told site.new)
        (Leads (Talking stamped (process agent.now)) (Matches stamped agent.now) (Matches stamped agent.now)) }
    ensures undamaged { IsUndamaged result }
    ensures last { Adds (S.told site.old) (S.told site.new) (FailsLast result) }
    ensures cause { AgentCause (S.fault_count site.old) (S.fault_count site.new) result }
{
    let _sound = agent.ready();
    let answer = site.take(alloc, who, door.as_str(), 0);
    given(Call::Take, answer)
}

/// Asks for the time, as the agent that `who` is.
pub fn clock<S: Site>(
    alloc: Global,
    site: &mut S,
    who: &Who,
    agent: &Agent,
) -> Result<u64, AgentFault>
    requires ready { agent.now.ready ≡ true }
    requires who { who.now ≡ process agent.now }
    ensures made { Clocked who.now result (S.told site.old) (S.told site.new) }
    ensures told { (stamped : List (List ℕ)) → Adds (S.told site.old) (S.told site.new)
        (Leads (Talking stamped (process agent.now)) (Matches stamped agent.now) (Matches stamped agent.now)) }
    ensures undamaged { IsUndamaged result }
    ensures last { Adds (S.told site.old) (S.told site.new) (FailsLast result) }
    ensures cause { AgentCause (S.fault_count site.old) (S.fault_count site.new) result }
{
    let _sound = agent.ready();
    let answer = site.clock(alloc, who);
    given(Call::Clock, answer)
}

// Waits so many milliseconds.
pub(crate) fn wait<S: Site>(
    alloc: Global,
    site: &mut S,
    who: &Who,
    agent: &Agent,
    time: u64,
) -> Result<(), AgentFault>
    requires ready { agent.now.ready ≡ true }
    requires who { who.now ≡ process agent.now }
    ensures made { Paused who.now time result (S.told site.old) (S.told site.new) }
    ensures told { (stamped : List (List ℕ)) → Adds (S.told site.old) (S.told site.new)
        (Leads (Talking stamped (process agent.now)) (Matches stamped agent.now) (Matches stamped agent.now)) }
    ensures undamaged { IsUndamaged result }
    ensures last { Adds (S.told site.old) (S.told site.new) (FailsLast result) }
    ensures cause { AgentCause (S.fault_count site.old) (S.fault_count site.new) result }
{
    let _sound = agent.ready();
    let answer = site.pause(alloc, who, time);
    given(Call::Pause, answer)
}

// Answers a message. That the answer failed is no fault.
pub(crate) fn answer<S: Site>(
    alloc: Global,
    site: &mut S,
    who: &Who,
    agent: &Agent,
    taking: u64,
    text: &[u8],
) -> Result<(), AgentFault>
    requires ready { agent.now.ready ≡ true }
    requires who { who.now ≡ process agent.now }
    ensures made { Answers who.now taking text.now result (S.told site.old) (S.told site.new) }
    ensures told { (stamped : List (List ℕ)) → Adds (S.told site.old) (S.told site.new)
        (Leads (Talking stamped (process agent.now)) (Matches stamped agent.now) (Matches stamped agent.now)) }
    ensures unmade { IfErr result (λ fault. fault ≡ wanting) }
    ensures count { S.fault_count site.old ≤ S.fault_count site.new }
{
    let _sound = agent.ready();
    let reply = site.answer(alloc, who, taking, text);
    answered(reply)
}
