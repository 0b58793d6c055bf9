//! A turn of an agent that runs, and a chain of turns.

ghost use Rattle.std.specs.Prelude.{◌≡◌, ◌≤◌, ℕ, List, true, IfOk};
ghost use Rattle.chk_site.specs.Site.{Adds};
ghost use Rattle.chk_site.specs.Runs.{Leads};
ghost use Rattle.chk_world.specs.Places.{Talking};
ghost use Rattle.chk_agent.specs.States.{process};
ghost use Rattle.chk_agent.specs.Facts.{Matches};
ghost use Rattle.chk_agent.specs.Faults.{AgentCause, FailsLast, IsUndamaged};
ghost use Rattle.chk_agent_run.specs.Lent.{word_of};
ghost use Rattle.chk_agent_run.specs.Pauses.{waits};
ghost use Rattle.chk_agent_run.specs.Turns.{IsControlled, AreControlled, AtDoor, IsAgentTurn, AreAgentTurns, GoesOrEnds, behind};

use crate::calls::{answer, clock, take, wait};
use crate::lines::run_lines;
use crate::message::read_message;
use chk_agent::{Agent, AgentFault, Then};
use chk_bytes::Word;
use chk_site::{Site, Taking, Who};
use std::alloc::Global;

/// The most control messages that a turn takes.
const MOST_MESSAGES: u32 = 64;

/// How many milliseconds a turn waits at its end, but behind a full piece of a log.
const PAUSE: u64 = 200;

/// How the turns of an agent ended.
#[derive(Clone, Copy, Debug, PartialEq, Eq)]
pub enum Ended {
    /// All were made.
    Over,
    /// A control line ended the agent.
    Stopped,
}

// What goes on behind a message.
fn behind(then: Then) -> Then
    ensures { result ≡ behind then }
{
    match then {
        Then::Go | Then::Close => Then::Go,
        Then::End => Then::End,
    }
}

// Reads a taken message to its end, runs its lines, and answers it with all their texts. Where a
// piece failed it does nothing.
fn run_message<S: Site>(
    alloc: Global,
    site: &mut S,
    who: &Who,
    agent: &mut Agent,
    taking: Taking,
) -> Result<Then, AgentFault>
    requires ready { agent.old.ready ≡ true }
    requires who { who.now ≡ process agent.old }
    ensures script { IsControlled who.now taking agent.old result agent.new (S.told site.old) (S.told site.new) }
    ensures told { (stamped : List (List ℕ)) → Adds (S.told site.old) (S.told site.new)
        (Leads (Talking stamped (process agent.old)) (Matches stamped agent.old) (Matches stamped agent.new)) }
    ensures source { agent.new.source ≡ agent.old.source }
    ensures ready { IfOk result (λ _. agent.new.ready ≡ true) }
    ensures on { GoesOrEnds result }
    ensures undamaged { IsUndamaged result }
    ensures last { Adds (S.told site.old) (S.told site.new) (FailsLast result) }
    ensures cause { AgentCause (S.fault_count site.old) (S.fault_count site.new) result }
{
    let number = taking.number;
    let Some(message) = read_message(alloc, site, who, agent, taking)? else {
        return Ok(Then::Go);
    };
    let reply = run_lines(alloc, site, agent, message.as_slice())?;
    answer(alloc, site, who, agent, number, reply.text.as_slice())?;
    Ok(behind(reply.then))
}

// Takes the messages that are at the door, at most 64, up to one that ends the agent.
fn run_messages<S: Site>(
    alloc: Global,
    site: &mut S,
    who: &Who,
    agent: &mut Agent,
    door: &Word,
) -> Result<Then, AgentFault>
    requires ready { agent.old.ready ≡ true }
    requires who { who.now ≡ process agent.old }
    ensures script { AreControlled who.now door.now 64 agent.old result agent.new (S.told site.old) (S.told site.new) }
    ensures told { (stamped : List (List ℕ)) → Adds (S.told site.old) (S.told site.new)
        (Leads (Talking stamped (process agent.old)) (Matches stamped agent.old) (Matches stamped agent.new)) }
    ensures source { agent.new.source ≡ agent.old.source }
    ensures ready { IfOk result (λ _. agent.new.ready ≡ true) }
    ensures on { GoesOrEnds result }
    ensures undamaged { IsUndamaged result }
    ensures last { Adds (S.told site.old) (S.told site.new) (FailsLast result) }
    ensures cause { AgentCause (S.fault_count site.old) (S.fault_count site.new) result }
{
    for _message in 0..MOST_MESSAGES {
        let Some(taking) = take(alloc, site, who, agent, door)? else {
            return Ok(Then::Go);
        };
        match run_message(alloc, site, who, agent, taking)? {
            Then::End => return Ok(Then::End),
            _ => {}
        }
    }
    Ok(Then::Go)
}

// Does what the messages at the door ask for, where there is a door.
fn at_door<S: Site>(
    alloc: Global,
    site: &mut S,
    who: &Who,
    agent: &mut Agent,
    door: Option<&Word>,
) -> Result<Then, AgentFault>
    requires ready { agent.old.ready ≡ true }
    requires who { who.now ≡ process agent.old }
    ensures script { AtDoor who.now agent.old (word_of door.entry) result agent.new (S.told site.old) (S.told site.new) }
    ensures told { (stamped : List (List ℕ)) → Adds (S.told site.old) (S.told site.new)
        (Leads (Talking stamped (process agent.old)) (Matches stamped agent.old) (Matches stamped agent.new)) }
    ensures source { agent.new.source ≡ agent.old.source }
    ensures ready { IfOk result (λ _. agent.new.ready ≡ true) }
    ensures on { GoesOrEnds result }
    ensures undamaged { IsUndamaged result }
    ensures last { Adds (S.told site.old) (S.told site.new) (FailsLast result) }
    ensures cause { AgentCause (S.fault_count site.old) (S.fault_count site.new) result }
{
    match door {
        Some(door) => run_messages(alloc, site, who, agent, door),
        None => Ok(Then::Go),
    }
}

/// One turn of the agent that `who` is: it does what the control messages that are at the door ask
/// for, at most 64, asks for the time, makes the agent's turn at that moment, and waits: `pause`
/// milliseconds where a step gave 131,072 bytes, so that its log may have more, and else 200.
/// `End` comes where the last message held an accepted `stopagent`; the turn is made all the same.
/// A message is held whole, up to 65,536 bytes; a sender that sends byte by byte costs that many
/// calls.
pub fn agent_turn<S: Site>(
    alloc: Global,
    site: &mut S,
    who: &Who,
    agent: &mut Agent,
    door: Option<&Word>,
    pause: u64,
) -> Result<Then, AgentFault>
    requires ready { agent.old.ready ≡ true }
    requires who { who.now ≡ process agent.old }
    ensures turn { IsAgentTurn who.now (word_of door.entry) pause agent.old result agent.new
        (S.told site.old) (S.told site.new) }
    ensures told { (stamped : List (List ℕ)) → Adds (S.told site.old) (S.told site.new)
        (Leads (Talking stamped (process agent.old)) (Matches stamped agent.old) (Matches stamped agent.new)) }
    ensures source { agent.new.source ≡ agent.old.source }
    ensures ready { IfOk result (λ _. agent.new.ready ≡ true) }
    ensures on { GoesOrEnds result }
    ensures undamaged { IsUndamaged result }
    ensures last { Adds (S.told site.old) (S.told site.new) (FailsLast result) }
    ensures cause { AgentCause (S.fault_count site.old) (S.fault_count site.new) result }
{
    let then = at_door(alloc, site, who, agent, door)?;
    let now = clock(alloc, site, who, agent)?;
    let full = agent.turn(alloc, site, now)?;
    let time = time_behind(pause, full);
    wait(alloc, site, who, agent, time)?;
    Ok(then)
}

// How many milliseconds a turn waits, where `full` says whether a step gave a full piece.
fn time_behind(pause: u64, full: bool) -> u64
    ensures { result ≡ waits pause full }
{
    if full { pause } else { PAUSE }
}

// So many turns, or fewer where one ended the agent.
pub(crate) fn run_turns<S: Site>(
    alloc: Global,
    site: &mut S,
    who: &Who,
    agent: &mut Agent,
    door: Option<&Word>,
    pause: u64,
    turns: u64,
) -> Result<Ended, AgentFault>
    requires ready { agent.old.ready ≡ true }
    requires who { who.now ≡ process agent.old }
    ensures script { AreAgentTurns who.now (word_of door.entry) pause turns agent.old result agent.new
        (S.told site.old) (S.told site.new) }
    ensures told { (stamped : List (List ℕ)) → Adds (S.told site.old) (S.told site.new)
        (Leads (Talking stamped (process agent.old)) (Matches stamped agent.old) (Matches stamped agent.new)) }
    ensures undamaged { IsUndamaged result }
    ensures last { Adds (S.told site.old) (S.told site.new) (FailsLast result) }
    ensures cause { AgentCause (S.fault_count site.old) (S.fault_count site.new) result }
{
    for _turn in 0..turns {
        match agent_turn(alloc, site, who, agent, door, pause)? {
            Then::End => return Ok(Ended::Stopped),
            _ => {}
        }
    }
    Ok(Ended::Over)
}
