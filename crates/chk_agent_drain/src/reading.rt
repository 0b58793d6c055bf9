//! The reads of a drain.

ghost use Rattle.std.specs.Prelude.{◌≡◌, ◌<◌, ◌≤◌, ℕ, List, IsTrue, slice_get, true, false, Some, None};
ghost use Rattle.chk_site.specs.Site.{Adds};
ghost use Rattle.chk_site.specs.Runs.{Leads};
ghost use Rattle.chk_world.specs.Places.{Talking};
ghost use Rattle.chk_agent_adaptor.specs.Adaptors.{Adaptor as Reading, is_stepped};
ghost use Rattle.chk_agent.specs.States.{process};
ghost use Rattle.chk_agent.specs.Facts.{Matches};
ghost use Rattle.chk_agent_drain.specs.Drains.{Progress};
ghost use Rattle.chk_agent_drain.specs.Parts.{AllRead, IsFresh, IsUnread, Part, ReadOut, WasNotRead};
ghost use Rattle.chk_agent_drain.specs.Whole.{AfterReads, EndsReading};

use crate::answers::Drained;
use crate::posting::post_next;
use chk_agent::{Agent, AgentFault, Stepped};
use chk_site::Site;
use std::alloc::Global;

// Reads each log that is still read to its end.
pub(crate) fn read_all<S: Site>(
    alloc: Global,
    agent: &mut Agent,
    site: &mut S,
    now: u64,
    reads: u64,
    polls: u32,
) -> Option<Result<Drained, AgentFault>>
    requires ready { agent.old.ready ≡ true }
    requires some { 1 ≤ reads }
    ensures part { (p : Progress) → IsFresh p → IsUnread p
        → Part now reads polls p agent.old (AllRead agent.old) result agent.new
        (S.told site.old) (S.told site.new) (S.fault_count site.old) (S.fault_count site.new) }
    ensures told { (stamped : List (List ℕ)) → Adds (S.told site.old) (S.told site.new)
        (EndsReading stamped agent.old result agent.new) }
{
    let count = agent.adaptors();
    for adaptor in 0..count {
        if agent.is_read_on(adaptor) {
            if let Some(end) = read_out(alloc, agent, site, adaptor, now, reads, polls) {
                return Some(end);
            }
        }
    }
    None
}

// Reads the adaptor's log to its end, by at most so many reads that give bytes. Where the queue has
// no room for a read, posts go first.
fn read_out<S: Site>(
    alloc: Global,
    agent: &mut Agent,
    site: &mut S,
    adaptor: u32,
    now: u64,
    reads: u64,
    polls: u32,
) -> Option<Result<Drained, AgentFault>>
    requires ready { agent.old.ready ≡ true }
    requires some { 1 ≤ reads }
    requires read_on { (a : Reading) × (slice_get agent.old.adaptors adaptor ≡ Some a) × IsTrue (is_stepped a.phase) }
    ensures part { (p : Progress) → IsFresh p → WasNotRead adaptor p
        → Part now reads polls p agent.old (ReadOut adaptor p agent.old) result agent.new
        (S.told site.old) (S.told site.new) (S.fault_count site.old) (S.fault_count site.new) }
    ensures told { (stamped : List (List ℕ)) → Adds (S.told site.old) (S.told site.new)
        (Leads (Talking stamped (process agent.old)) (Matches stamped agent.old)
        (AfterReads stamped adaptor agent.new result)) }
{
    let mut count = 0;
    'reads: loop {
        match agent.step(alloc, site, adaptor) {
            Ok(Stepped::AtEnd) => return None,
            Ok(Stepped::Held { .. }) => {
                let _sound = agent.free_rows();
                if let Some(end) = post_next(alloc, agent, site, now, polls) {
                    return Some(end);
                }
            }
            Ok(Stepped::Read { .. }) => {
                count += 1;
                if count >= reads {
                    return Some(Ok(Drained::Growing { adaptor, reads }));
                }
            }
            Ok(Stepped::Shrank { had, is }) => {
                return Some(Ok(Drained::Shrank { adaptor, had, is }));
            }
            Err(fault) => return Some(Err(fault)),
        }
    }
}
