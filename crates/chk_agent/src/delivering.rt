//! What an agent still has to deliver, as who sends and polls part by part sees it.

ghost use Rattle.std.specs.Prelude.{◌≡◌, ◌<◌, ◌≤◌, ◌↔◌, IsTrue, [], length};
ghost use Rattle.chk_acks.specs.Sound.{IsSound as IsSoundTable};
ghost use Rattle.chk_agent_delivery.specs.States.{free_rows};
ghost use Rattle.chk_agent.specs.States.{process};
ghost use Rattle.chk_agent.specs.Fits.{IsSound};
ghost use Rattle.chk_agent.specs.Commands.{first_again};

use crate::agent::Agent;
use chk_site::Who;

impl Agent {
    /// The process of the agent, under which it makes its calls.
    pub fn who(&self) -> &Who
        ensures { result.now ≡ process self.now }
    {
        &self.who
    }

    /// No chunk waits.
    pub fn is_empty(&self) -> bool
        ensures { IsTrue result ↔ (self.now.delivery.queue.chunks ≡ []) }
    {
        self.delivery.is_empty()
    }

    /// How many more rows of answers there is room for.
    pub fn free_rows(&self) -> u32
        ensures free { result ≡ free_rows self.now.delivery }
        ensures sound { IsSound self.now }
        ensures table { IsSoundTable self.now.delivery.table }
    {
        self.delivery.free_rows()
    }

    /// How many rows of answers there is room for.
    pub fn most_rows(&self) -> u32
        ensures most { result ≡ self.now.delivery.table.room }
        ensures some { 1 ≤ result }
    {
        self.delivery.most_rows()
    }

    /// How many addresses there are; equal ones count each.
    pub fn addresses(&self) -> u32
        ensures count { result ≡ length self.now.delivery.ring.addresses }
        ensures some { 0 < result }
    {
        self.delivery.addresses()
    }

    /// Back to the first address, with no failure counted.
    pub fn first_address(&mut self)
        ensures { self.new ≡ first_again self.old }
    {
        self.delivery.first_address();
        let _sound = self.delivery.used();
    }
}
