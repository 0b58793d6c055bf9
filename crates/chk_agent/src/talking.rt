//! The posts and polls of an agent.

ghost use Rattle.std.specs.Prelude.{◌≡◌, ℕ, List, true};
ghost use Rattle.chk_site.specs.declared.acts.Call.TheVariants.{Send};
ghost use Rattle.chk_site.specs.Site.{Adds};
ghost use Rattle.chk_site.specs.Runs.{Leads};
ghost use Rattle.chk_world.specs.Places.{As, Making};
ghost use Rattle.chk_agent.specs.States.{process};
ghost use Rattle.chk_agent.specs.Facts.{Matches};
ghost use Rattle.chk_agent_delivery.specs.Scripts.{CauseBy};
ghost use Rattle.chk_agent.specs.Faults.{AgentCause, fails_post, fails_answer, fails_poll};
ghost use Rattle.chk_agent.specs.Faults.{fails_lengths};
ghost use Rattle.chk_agent.specs.Turns.{Posts, GetsPostReply, Polls, GetsLengths, as_agent};

use crate::agent::Agent;
use crate::answers::AgentFault;
use chk_agent_delivery::{Answered, PollAnswer, Polled, Posted};
use chk_bytes::NoMemory;
use chk_site::Site;
use std::alloc::Global;

impl Agent {
    /// Sends the longest front of the queue that fits a post and the free rows.
    pub fn post<S: Site>(&mut self, alloc: Global, site: &mut S) -> Result<Posted, AgentFault>
        requires ready { self.old.ready ≡ true }
        ensures state { Posts self.old result self.new (S.told site.old) (S.told site.new) }
        ensures told { (stamped : List (List ℕ)) → Adds (S.told site.old) (S.told site.new)
            (Leads (Making stamped (process self.old) Send) (Matches stamped self.old)
            (Matches stamped self.new)) }
        ensures cause { AgentCause (S.fault_count site.old) (S.fault_count site.new) result }
        ensures failed { CauseBy (S.fault_count site.old) (S.fault_count site.new) (fails_post result) }
    {
        let given = self.delivery.post(alloc, site, &self.who);
        let _sound = self.delivery.used();
        as_agent(given)
    }

    /// Asks for the reply to the post that is out, at `now` in milliseconds.
    pub fn post_reply<S: Site>(
        &mut self,
        alloc: Global,
        site: &mut S,
        now: u64,
    ) -> Result<Answered, AgentFault>
        requires ready { self.old.ready ≡ true }
        ensures state { GetsPostReply now self.old result self.new (S.told site.old) (S.told site.new) }
        ensures told { (stamped : List (List ℕ)) → Adds (S.told site.old) (S.told site.new)
            (Leads (As stamped (process self.old)) (Matches stamped self.old) (Matches stamped self.new)) }
        ensures cause { AgentCause (S.fault_count site.old) (S.fault_count site.new) result }
        ensures failed { CauseBy (S.fault_count site.old) (S.fault_count site.new) (fails_answer result) }
    {
        let given = self.delivery.post_reply(alloc, site, &self.who, now);
        let _sound = self.delivery.used();
        as_agent(given)
    }

    /// Asks for the committed lengths of the first 64 different sinks with unmarked rows.
    pub fn poll<S: Site>(&mut self, alloc: Global, site: &mut S) -> Result<Polled, AgentFault>
        requires ready { self.old.ready ≡ true }
        ensures state { Polls self.old result self.new (S.told site.old) (S.told site.new) }
        ensures told { (stamped : List (List ℕ)) → Adds (S.told site.old) (S.told site.new)
            (Leads (Making stamped (process self.old) Send) (Matches stamped self.old)
            (Matches stamped self.new)) }
        ensures cause { AgentCause (S.fault_count site.old) (S.fault_count site.new) result }
        ensures failed { CauseBy (S.fault_count site.old) (S.fault_count site.new) (fails_poll result) }
    {
        let given = self.delivery.poll(alloc, site, &self.who);
        let _sound = self.delivery.used();
        as_agent(given)
    }

    /// Asks for the reply to the poll that is out.
    pub fn poll_reply<S: Site>(
        &mut self,
        alloc: Global,
        site: &mut S,
    ) -> Result<PollAnswer, AgentFault>
        requires ready { self.old.ready ≡ true }
        ensures state { GetsLengths self.old result self.new (S.told site.old) (S.told site.new) }
        ensures told { (stamped : List (List ℕ)) → Adds (S.told site.old) (S.told site.new)
            (Leads (As stamped (process self.old)) (Matches stamped self.old) (Matches stamped self.new)) }
        ensures cause { AgentCause (S.fault_count site.old) (S.fault_count site.new) result }
        ensures failed { CauseBy (S.fault_count site.old) (S.fault_count site.new) (fails_lengths result) }
    {
        let given = self.delivery.poll_reply(alloc, site, &self.who);
        let _sound = self.delivery.used();
        as_agent(given)
    }
}

// The answer of a call that takes no file, as an agent's.
fn as_agent<T>(given: Result<T, NoMemory>) -> Result<T, AgentFault>
    ensures { result ≡ as_agent given }
{
    Ok(given?)
}
