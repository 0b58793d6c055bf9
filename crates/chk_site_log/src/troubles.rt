//! The addresses and files of which something was told.
ghost use Rattle.std.specs.Prelude.{◌≡◌, ◌⊎◌, ◌<◌, ◌≤◌, Bool, false, [], Option, None, length, position, IfNone, IfSome, IsSome};
ghost use Rattle.chk_site_log.specs.declared.trouble.Recovery.{Recovery};
ghost use Rattle.std.specs.List.{list_any};
ghost use Rattle.chk_site_log.specs.Lists.{is_failing, is_of, GoesOn, IsKept, IsMade, IsTaken, IsUnknown};
ghost use Rattle.chk_site_log.specs.Troubles.{behind_event, behind_failure, behind_success, is_free, recovered, tells_failure};

use crate::trouble::{Recovery, Trouble};
use std::alloc::Global;
use std::marker::Model;

/// Of so many names it is known what was told; then that one is forgotten which came first.
pub const MOST_NAMES: usize = 256;

/// What was told of addresses and files.
#[derive(Drop)]
pub struct Troubles {
    kept: Vec<Trouble>,
}

impl Model for Troubles {
    ghost use Rattle.std.specs.Prelude.{◌≤◌, List, length};
    ghost use Rattle.chk_site_log.specs.declared.trouble.Trouble.{Trouble};

    ghost Value = { List Trouble };

    ghost view = { λ t. t.kept.items };

    ghost invariant = { λ t. length t.kept.items ≤ 256 };
}

impl Troubles {
    pub fn new(alloc: Global) -> Troubles
        ensures { result ≡ [] }
    {
        Troubles {
            kept: Vec::new(alloc),
        }
    }

    /// A call on the name failed. Whether that is to be told. Where there is no memory for the name
    /// nothing is.
    pub fn fail(&mut self, alloc: Global, name: &str, now: u64) -> bool
        ensures known { GoesOn Bool (behind_failure now) (tells_failure now) self.old self.new name.now result
            ⊎ ((result ≡ false) × IsUnknown self.old self.new name.now) }
    {
        let Some(mut trouble) = self.take(alloc, name) else {
            return false;
        };
        let tells = trouble.fail(now);
        self.keep(trouble);
        tells
    }

    /// Something else is to be told of the name: whether a line may be.
    pub fn happen(&mut self, alloc: Global, name: &str, now: u64) -> bool
        ensures known { GoesOn Bool (behind_event now) (λ t. is_free now t.said) self.old self.new name.now result
            ⊎ ((result ≡ false) × IsUnknown self.old self.new name.now) }
    {
        let Some(mut trouble) = self.take(alloc, name) else {
            return false;
        };
        let tells = trouble.happen(now);
        self.keep(trouble);
        tells
    }

    /// A call on the name went well. What is to be told of those that failed before it: nothing where of
    /// the name nothing is known.
    pub fn succeed(&mut self, name: &str, now: u64) -> Option<Recovery>
        ensures known { GoesOn (Option Recovery) (behind_success now) (recovered now) self.old self.new name.now result
            ⊎ ((result ≡ None) × IsUnknown self.old self.new name.now) }
    {
        let Some(mut trouble) = self.take_known(name) else {
            return None;
        };
        let tells = trouble.succeed(now);
        self.keep(trouble);
        tells
    }

    /// At some name calls fail.
    pub fn is_any_failing(&self) -> bool
        ensures { result ≡ list_any is_failing self.now }
    {
        self.kept.iter().any(|trouble| trouble.failures > 0)
    }

    // What is known of the name, which isn't kept from then on; of a name of which nothing is known a new
    // one, none where there is no memory.
    fn take(&mut self, alloc: Global, name: &str) -> Option<Trouble>
        ensures some { IfSome result (λ t.
            IsTaken self.old self.new name.now t ⊎ IsMade self.old self.new name.now t) }
        ensures none { IfNone result (IsUnknown self.old self.new name.now) }
        ensures room { IsSome result → length self.new < 256 }
    {
        match self.take_known(name) {
            Some(trouble) => Some(trouble),
            None => self.make(alloc, name),
        }
    }

    fn take_known(&mut self, name: &str) -> Option<Trouble>
        ensures some { IfSome result (IsTaken self.old self.new name.now) }
        ensures none { IfNone result (IsUnknown self.old self.new name.now) }
        ensures room { IsSome result → length self.new < 256 }
    {
        let place = self.find(name)?;
        Some(self.kept.remove(place))
    }

    // Makes room for a new one.
    fn make(&mut self, alloc: Global, name: &str) -> Option<Trouble>
        requires absent { position (is_of name.now) self.old ≡ None }
        ensures some { IfSome result (IsMade self.old self.new name.now) }
        ensures none { IfNone result (IsUnknown self.old self.new name.now) }
        ensures room { IsSome result → length self.new < 256 }
    {
        let Ok(name) = String::from_str(alloc, name) else {
            return None;
        };
        if self.kept.len() >= MOST_NAMES {
            let _oldest = self.kept.remove(0);
        }
        Some(Trouble::new(name))
    }

    fn find(&self, name: &str) -> Option<usize>
        ensures place { result ≡ position (is_of name.now) self.now }
        ensures few { length self.now ≤ 256 }
    {
        self.kept
            .iter()
            .position(|trouble| trouble.name.as_str() == name)
    }

    fn keep(&mut self, trouble: Trouble)
        requires room { length self.old < 256 }
        ensures { IsKept self.old self.new trouble }
    {
        let _kept = self.kept.push(trouble);
    }
}
