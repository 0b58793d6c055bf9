//! The posts of a drain.

ghost use Rattle.std.specs.Prelude.{◌≡◌, ◌≢◌, ◌<◌, ◌≤◌, ℕ, [], length, true, Some, None};
ghost use Rattle.chk_agent_delivery.specs.States.{free_rows};
ghost use Rattle.chk_agent_drain.specs.Drains.{Progress, AllEnded, MayPost};
ghost use Rattle.chk_agent_drain.specs.Parts.{IsFresh, IsUntried, MissCause, Part, PostedAll, PostedBy, PostsOnce, Talks};

use crate::answers::Drained;
use crate::polling::poll_until_free;
use crate::tries::{Miss, Tries};
use chk_agent::{Agent, AgentFault};
use chk_agent_delivery::{Answered, Posted};
use chk_site::Site;
use std::alloc::Global;

// Sends a post, and takes the reply to it.
fn post_once<S: Site>(
    alloc: Global,
    agent: &mut Agent,
    site: &mut S,
    now: u64,
) -> Result<Result<(), Miss>, AgentFault>
    requires ready { agent.old.ready ≡ true }
    requires waiting { agent.old.delivery.queue.chunks ≢ [] }
    requires room { free_rows agent.old.delivery ≢ 0 }
    ensures state { PostsOnce now agent.old result agent.new (S.told site.old) (S.told site.new) }
    ensures talks { Talks agent.old agent.new (S.told site.old) (S.told site.new) }
    ensures cause { MissCause (S.fault_count site.old) (S.fault_count site.new) result }
{
    match agent.post(alloc, site)? {
        Posted::Sent { .. } => match agent.post_reply(alloc, site, now)? {
            Answered::Taken { .. } => Ok(Ok(())),
            Answered::Refused { code } => Ok(Err(Miss::Refused { code })),
            Answered::Silent => Ok(Err(Miss::Silent)),
            Answered::Nothing => unreachable!(),
        },
        Posted::Failed => Ok(Err(Miss::Unsent)),
        Posted::Empty | Posted::NoRows => unreachable!(),
    }
}

// Sends posts up to one with a good reply. Where no address gives one, it is the drain's answer.
fn post_on<S: Site>(
    alloc: Global,
    agent: &mut Agent,
    site: &mut S,
    now: u64,
) -> Option<Result<Drained, AgentFault>>
    requires ready { agent.old.ready ≡ true }
    requires waiting { agent.old.delivery.queue.chunks ≢ [] }
    requires room { free_rows agent.old.delivery ≢ 0 }
    ensures { (reads polls : ℕ) (p : Progress) → IsUntried p → MayPost p agent.old
        → Part now reads polls p agent.old (PostedBy p agent.old) result agent.new
        (S.told site.old) (S.told site.new) (S.fault_count site.old) (S.fault_count site.new) }
{
    let addresses = agent.addresses();
    let mut tries = Tries::none();
    loop {
        match post_once(alloc, agent, site, now) {
            Ok(Ok(())) => return None,
            Ok(Err(miss)) => tries = tries.missed(miss),
            Err(fault) => return Some(Err(fault)),
        }
        if tries.count >= addresses {
            return Some(tries.answer());
        }
    }
}

// Sends the next chunks that wait; where no row is free, polls go first.
pub(crate) fn post_next<S: Site>(
    alloc: Global,
    agent: &mut Agent,
    site: &mut S,
    now: u64,
    polls: u32,
) -> Option<Result<Drained, AgentFault>>
    requires ready { agent.old.ready ≡ true }
    requires waiting { agent.old.delivery.queue.chunks ≢ [] }
    ensures { (reads : ℕ) (p : Progress) → IsFresh p → MayPost p agent.old
        → Part now reads polls p agent.old (PostedBy p agent.old) result agent.new
        (S.told site.old) (S.told site.new) (S.fault_count site.old) (S.fault_count site.new) }
{
    let _sound = agent.most_rows();
    if let Some(end) = poll_until_free(alloc, agent, site, polls, 1) {
        return Some(end);
    }
    post_on(alloc, agent, site, now)
}

// Sends all chunks that wait.
pub(crate) fn post_rest<S: Site>(
    alloc: Global,
    agent: &mut Agent,
    site: &mut S,
    now: u64,
    polls: u32,
) -> Option<Result<Drained, AgentFault>>
    requires ready { agent.old.ready ≡ true }
    ensures { (reads : ℕ) (p : Progress) → IsFresh p → AllEnded p agent.old
        → Part now reads polls p agent.old (PostedAll p agent.old) result agent.new
        (S.told site.old) (S.told site.new) (S.fault_count site.old) (S.fault_count site.new) }
{
    'posts: while !agent.is_empty() {
        if let Some(end) = post_next(alloc, agent, site, now, polls) {
            return Some(end);
        }
    }
    None
}
