//! A drain.

ghost use Rattle.std.specs.Prelude.{◌≡◌, ◌≤◌, ℕ, List, IfOk, true, Some, None};
ghost use Rattle.chk_site.specs.Site.{Adds};
ghost use Rattle.chk_agent.specs.Faults.{AgentCause, IsUndamaged};
ghost use Rattle.chk_agent_drain.specs.Drains.{Progress, AllEnded, IsDrained};
ghost use Rattle.chk_agent_drain.specs.Parts.{DeliveredBy, FailsLastBut, IsFresh, Part};
ghost use Rattle.chk_agent_drain.specs.Whole.{DrainsTo};

use crate::answers::Drained;
use crate::polling::poll_until_free;
use crate::posting::post_rest;
use crate::reading::read_all;
use chk_agent::{Agent, AgentFault};
use chk_site::Site;
use std::alloc::Global;

/// Reads each log that is still read to its end, by at most `reads` reads that give bytes, sends
/// what they give, and polls until all of it is committed; then the checkpoint is written. The ring
/// begins at its first address. Polls lie 1,000 ms apart, and `polls` of them with a good reply
/// since the last post are waited for. `now` in milliseconds is the moment of all calls. A post or
/// a poll without a good reply goes to the next address; where all addresses were tried in a row,
/// `Outside` names the last call that failed among them, and `AllTried` comes where none failed.
pub fn drain<S: Site>(
    alloc: Global,
    agent: &mut Agent,
    site: &mut S,
    now: u64,
    reads: u64,
    polls: u32,
) -> Result<Drained, AgentFault>
    requires ready { agent.old.ready ≡ true }
    requires a_read { 1 ≤ reads }
    requires a_poll { 1 ≤ polls }
    ensures state { IsDrained now reads polls agent.old result agent.new
        (S.told site.old) (S.told site.new) }
    ensures told { (stamped : List (List ℕ)) → Adds (S.told site.old) (S.told site.new)
        (DrainsTo stamped agent.old result agent.new) }
    ensures ready { IfOk result (λ _. agent.new.ready ≡ true) }
    ensures undamaged { IsUndamaged result }
    ensures last { Adds (S.told site.old) (S.told site.new) (FailsLastBut result) }
    ensures cause { AgentCause (S.fault_count site.old) (S.fault_count site.new) result }
{
    agent.first_address();
    if let Some(end) = read_all(alloc, agent, site, now, reads, polls) {
        return end;
    }
    if let Some(end) = deliver(alloc, agent, site, now, polls) {
        return end;
    }
    let _settled = agent.settle(alloc, site, now)?;
    Ok(Drained::Done)
}

// Sends all chunks that wait, and polls until each of them is committed.
fn deliver<S: Site>(
    alloc: Global,
    agent: &mut Agent,
    site: &mut S,
    now: u64,
    polls: u32,
) -> Option<Result<Drained, AgentFault>>
    requires ready { agent.old.ready ≡ true }
    ensures { (reads : ℕ) (p : Progress) → IsFresh p → AllEnded p agent.old
        → Part now reads polls p agent.old (DeliveredBy agent.old) result agent.new
        (S.told site.old) (S.told site.new) (S.fault_count site.old) (S.fault_count site.new) }
{
    if let Some(end) = post_rest(alloc, agent, site, now, polls) {
        return Some(end);
    }
    let rows = agent.most_rows();
    poll_until_free(alloc, agent, site, polls, rows)
}
