//! The polls of a drain.

ghost use Rattle.std.specs.Prelude.{◌≡◌, ◌≢◌, ◌⊎◌, ◌≤◌, ◌<◌, ◌-◌, ℕ, [], length, true, Some, None};
ghost use Rattle.chk_site.specs.Site.{Adds};
ghost use Rattle.chk_agent_delivery.specs.Turns.{asked_stems};
ghost use Rattle.chk_agent.specs.Faults.{AgentCause, FailsLast, IsUndamaged};
ghost use Rattle.chk_agent_drain.specs.Drains.{Progress, MayPoll};
ghost use Rattle.chk_agent_drain.specs.Parts.{Freed, IsFresh, IsUntried, Leaves, MissCause, Part, PausesBetween, PausesOnce, PolledBy, PollsOn, PollsOnce, Talks, WantsRows, pending_by};

use crate::answers::Drained;
use crate::tries::{Miss, Tries};
use chk_agent::{Agent, AgentFault};
use chk_agent_delivery::{Below, PollAnswer, Polled};
use chk_site::{Call, Site, done};
use std::alloc::Global;

// How many milliseconds a drain waits between two polls.
const BETWEEN_POLLS: u64 = 1_000;

// Sends a poll, and takes the reply to it.
fn poll_once<S: Site>(
    alloc: Global,
    agent: &mut Agent,
    site: &mut S,
) -> Result<Result<Option<Below>, Miss>, AgentFault>
    requires ready { agent.old.ready ≡ true }
    requires waiting { asked_stems agent.old.delivery.table ≢ [] }
    ensures state { (now : ℕ) → PollsOnce now agent.old result agent.new (S.told site.old) (S.told site.new) }
    ensures talks { Talks agent.old agent.new (S.told site.old) (S.told site.new) }
    ensures cause { MissCause (S.fault_count site.old) (S.fault_count site.new) result }
{
    match agent.poll(alloc, site)? {
        Polled::Sent { .. } => match agent.poll_reply(alloc, site)? {
            PollAnswer::Lengths { below, .. } => Ok(Ok(below)),
            PollAnswer::Refused { code } => Ok(Err(Miss::Refused { code })),
            PollAnswer::Silent => Ok(Err(Miss::Silent)),
            PollAnswer::Nothing => unreachable!(),
        },
        Polled::Failed => Ok(Err(Miss::Unsent)),
        Polled::NoneWaiting => unreachable!(),
    }
}

// Sends polls up to one with a good reply, of which it gives the first row below. Where no address
// gives one, it is the drain's answer.
fn poll_on<S: Site>(
    alloc: Global,
    agent: &mut Agent,
    site: &mut S,
) -> Result<Option<Below>, Result<Drained, AgentFault>>
    requires ready { agent.old.ready ≡ true }
    requires waiting { asked_stems agent.old.delivery.table ≢ [] }
    ensures { (now reads polls : ℕ) (p : Progress) → IsUntried p → MayPoll p agent.old
        → PollsOn now reads polls p agent.old result agent.new
        (S.told site.old) (S.told site.new) (S.fault_count site.old) (S.fault_count site.new) }
{
    let addresses = agent.addresses();
    let mut tries = Tries::none();
    loop {
        match poll_once(alloc, agent, site) {
            Ok(Ok(below)) => return Ok(below),
            Ok(Err(miss)) => tries = tries.missed(miss),
            Err(fault) => return Err(Err(fault)),
        }
        if tries.count >= addresses {
            return Err(tries.answer());
        }
    }
}

// Waits a second, as between two polls.
fn pause<S: Site>(alloc: Global, agent: &Agent, site: &mut S) -> Result<(), AgentFault>
    requires ready { agent.now.ready ≡ true }
    ensures state { PausesOnce agent.now result (S.told site.old) (S.told site.new) }
    ensures talks { Talks agent.now agent.now (S.told site.old) (S.told site.new) }
    ensures undamaged { IsUndamaged result }
    ensures last { Adds (S.told site.old) (S.told site.new) (FailsLast result) }
    ensures cause { AgentCause (S.fault_count site.old) (S.fault_count site.new) result }
{
    let _sound = agent.free_rows();
    let given = site.pause(alloc, agent.who(), BETWEEN_POLLS);
    done(Call::Pause, given)?;
    Ok(())
}

// Whether nothing is left to poll for: no chunk waits to be sent, and no row to be committed.
fn is_all_committed(agent: &Agent) -> bool
    ensures { Leaves result agent.now }
{
    agent.is_empty() && agent.free_rows() >= agent.most_rows()
}

// Waits a second where another poll is to follow.
fn pause_between<S: Site>(alloc: Global, agent: &Agent, site: &mut S) -> Result<(), AgentFault>
    requires ready { agent.now.ready ≡ true }
    ensures state { PausesBetween agent.now result (S.told site.old) (S.told site.new) }
    ensures talks { Talks agent.now agent.now (S.told site.old) (S.told site.new) }
    ensures undamaged { IsUndamaged result }
    ensures last { Adds (S.told site.old) (S.told site.new) (FailsLast result) }
    ensures cause { AgentCause (S.fault_count site.old) (S.fault_count site.new) result }
{
    if is_all_committed(agent) {
        return Ok(());
    }
    pause(alloc, agent, site)
}

// Polls up to a good reply, and waits where another poll is to follow. So many polls with one were
// left since the last post; where this is the last of them, and a row stays below its offset, that
// is the drain's answer.
fn poll_and_wait<S: Site>(
    alloc: Global,
    agent: &mut Agent,
    site: &mut S,
    left: u32,
) -> Option<Result<Drained, AgentFault>>
    requires ready { agent.old.ready ≡ true }
    requires waiting { asked_stems agent.old.delivery.table ≢ [] }
    requires may { (p : Progress) × IsUntried p × MayPoll p agent.old }
    ensures { (now reads polls : ℕ) (p : Progress) → IsUntried p → MayPoll p agent.old → left ≡ polls - p.polls
        → Part now reads polls p agent.old (PolledBy left p agent.old) result agent.new
        (S.told site.old) (S.told site.new) (S.fault_count site.old) (S.fault_count site.new) }
{
    match poll_on(alloc, agent, site) {
        Ok(below) => match pending(below, left) {
            Some(answer) => Some(Ok(answer)),
            None => match pause_between(alloc, agent, site) {
                Ok(()) => None,
                Err(fault) => Some(Err(fault)),
            },
        },
        Err(end) => Some(end),
    }
}

// What a drain answers of the row below, where no more polls were left than the one that gave it.
fn pending(below: Option<Below>, left: u32) -> Option<Drained>
    ensures { result ≡ pending_by left below }
{
    match below {
        Some(Below { stem, got, want }) => {
            if left > 1 {
                None
            } else {
                Some(Drained::Pending { stem, got, want })
            }
        }
        None => None,
    }
}

// Polls until so many rows are free. It ends, since each good reply counts or marks a row.
pub(crate) fn poll_until_free<S: Site>(
    alloc: Global,
    agent: &mut Agent,
    site: &mut S,
    polls: u32,
    wanted: u32,
) -> Option<Result<Drained, AgentFault>>
    requires ready { agent.old.ready ≡ true }
    requires few { wanted ≤ agent.old.delivery.table.room }
    requires wants { (wanted ≡ 1) ⊎ (agent.old.delivery.queue.chunks ≡ []) }
    ensures { (now reads : ℕ) (p : Progress) → IsFresh p → WantsRows wanted p agent.old
        → Part now reads polls p agent.old (Freed wanted p agent.old) result agent.new
        (S.told site.old) (S.told site.new) (S.fault_count site.old) (S.fault_count site.new) }
{
    let mut left = polls;
    'polls: while agent.free_rows() < wanted {
        if let Some(end) = poll_and_wait(alloc, agent, site, left) {
            return Some(end);
        }
        left = left.saturating_sub(1);
    }
    None
}
