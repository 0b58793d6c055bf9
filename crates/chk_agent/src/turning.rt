//! A turn of an agent.

ghost use Rattle.std.specs.Prelude.{◌≡◌, ℕ, List, true, IfErr};
ghost use Rattle.chk_site.specs.Site.{Adds};
ghost use Rattle.chk_site.specs.Runs.{Leads};
ghost use Rattle.chk_world.specs.Places.{Talking};
ghost use Rattle.chk_agent_delivery.specs.Turns.{is_due};
ghost use Rattle.chk_agent.specs.declared.answers.AgentFault.TheVariants.{NoMemory as wanting};
ghost use Rattle.chk_agent.specs.States.{process};
ghost use Rattle.chk_agent.specs.Facts.{Matches};
ghost use Rattle.chk_agent.specs.Faults.{AgentCause, FailsLast, IsUndamaged};
ghost use Rattle.chk_agent.specs.Turns.{PollsIfDue, IsTurned, note_poll};

use crate::agent::Agent;
use crate::answers::AgentFault;
use chk_agent_delivery::Polled;
use chk_site::Site;
use std::alloc::Global;

impl Agent {
    /// `fill`, `post`, `post_reply`, then where a poll is due `poll` and `poll_reply`, then
    /// `settle`. It answers whether a step gave 131,072 bytes, so that its log may have more.
    pub fn turn<S: Site>(
        &mut self,
        alloc: Global,
        site: &mut S,
        now: u64,
    ) -> Result<bool, AgentFault>
        requires ready { self.old.ready ≡ true }
        ensures state { IsTurned now self.old result self.new (S.told site.old) (S.told site.new) }
        ensures told { (stamped : List (List ℕ)) → Adds (S.told site.old) (S.told site.new)
            (Leads (Talking stamped (process self.old)) (Matches stamped self.old)
            (Matches stamped self.new)) }
        ensures undamaged { IsUndamaged result }
        ensures last { Adds (S.told site.old) (S.told site.new) (FailsLast result) }
        ensures cause { AgentCause (S.fault_count site.old) (S.fault_count site.new) result }
    {
        let mut full = false;
        let _filled = self.fill_noting(alloc, site, &mut full)?;
        let _posted = self.post(alloc, site)?;
        let _answered = self.post_reply(alloc, site, now)?;
        self.poll_if_due(alloc, site, now)?;
        let _settled = self.settle(alloc, site, now)?;
        Ok(full)
    }

    // Sends a poll where one is due at `now`, and takes the reply to it.
    fn poll_if_due<S: Site>(
        &mut self,
        alloc: Global,
        site: &mut S,
        now: u64,
    ) -> Result<(), AgentFault>
        requires ready { self.old.ready ≡ true }
        ensures state { PollsIfDue now self.old result self.new (S.told site.old) (S.told site.new) }
        ensures told { (stamped : List (List ℕ)) → Adds (S.told site.old) (S.told site.new)
            (Leads (Talking stamped (process self.old)) (Matches stamped self.old)
            (Matches stamped self.new)) }
        ensures unmade { IfErr result (λ fault. fault ≡ wanting) }
        ensures cause { AgentCause (S.fault_count site.old) (S.fault_count site.new) result }
    {
        if !self.is_poll_due(now) {
            return Ok(());
        }
        match self.poll(alloc, site)? {
            Polled::Sent { .. } => {
                self.note_poll(now);
                let _lengths = self.poll_reply(alloc, site)?;
                Ok(())
            }
            Polled::Failed => Ok(()),
            Polled::NoneWaiting => unreachable!(),
        }
    }

    fn is_poll_due(&self, now: u64) -> bool
        ensures { result ≡ is_due now self.now.delivery }
    {
        self.delivery.is_due(now)
    }

    // A poll was sent at `now`.
    fn note_poll(&mut self, now: u64)
        ensures { self.new ≡ note_poll now self.old }
    {
        self.delivery.note_poll(now);
    }
}
