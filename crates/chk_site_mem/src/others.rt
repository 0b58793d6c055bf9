// The acts of others that a script has in store.
ghost use Rattle.std.specs.Prelude.{◌≡◌, OnOk};
ghost use Rattle.chk_site_mem_store.specs.Going.{TheirsSince};
ghost use Rattle.chk_site_mem_store.specs.Told.{told_of};
ghost use Rattle.chk_site_mem.specs.Memory.{first_due, happened, later, without_due};

use chk_bytes::NoMemory;
use chk_site::Other;
use chk_site_mem_store::Keeper;
use std::alloc::Global;
use std::collections::VecDeque;
use std::marker::Model;

/// The acts of others that are still to happen, in their order. One waits for those before it.
#[derive(Drop)]
pub struct Others {
    waiting: VecDeque<Other>,
}

impl Model for Others {
    ghost use Rattle.std.specs.Prelude.{List};
    ghost use Rattle.chk_site.specs.declared.scripts.Other.{Other};

    ghost Value = { List Other };

    ghost view = { λ o. o.waiting.items };
}

impl Others {
    pub fn new(waiting: Vec<Other>) -> Others
        ensures { result ≡ waiting.items }
    {
        Others {
            waiting: VecDeque::from_vec(waiting),
        }
    }

    /// Those that are due before the call of this number happen. One that the file model doesn't allow is left out, and
    /// so is one for which there is no memory: there it ends.
    pub fn happen(&mut self, alloc: Global, keeper: &mut Keeper, call: u64) -> Result<(), NoMemory>
        ensures theirs { TheirsSince (told_of keeper.old.kept) (told_of keeper.new.kept) }
        ensures acted { OnOk result (keeper.new ≡ happened call self.old keeper.old) }
        ensures left { OnOk result (self.new ≡ later call self.old) }
        ensures repeats { keeper.new.repeats ≡ keeper.old.repeats }
    {
        while let Some(other) = self.next_due(call) {
            keeper.keep(alloc, false, other.act)?;
        }
        Ok(())
    }

    fn next_due(&mut self, call: u64) -> Option<Other>
        ensures due { result ≡ first_due call self.old }
        ensures left { self.new ≡ without_due call self.old }
    {
        let before = self.waiting.front()?.before;
        if before <= call {
            self.waiting.pop_front()
        } else {
            None
        }
    }
}
