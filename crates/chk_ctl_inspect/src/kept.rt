//! What one inspection of all has seen.

ghost use Rattle.std.specs.Prelude.{◌≡◌, [], ◌∷◌, OnOk};
ghost use Rattle.chk_ctl_inspect.specs.Sights.{status_of, IsEmpty, Keeps};

use chk_bytes::NoMemory;
use chk_ctl_metrics::{NamedAgents, NamedDoor, NamedStore};
use std::alloc::Global;

/// What was seen so far, and the greatest status.
#[derive(Drop)]
pub(crate) struct Sight<'a> {
    pub agents: Vec<NamedAgents>,
    pub stores: Vec<NamedStore>,
    /// The folders that are no stores.
    pub absent: Vec<&'a str>,
    pub doors: Vec<NamedDoor>,
    pub status: u8,
}

/// What was seen in one turn.
#[derive(Drop)]
pub(crate) enum Seen<'a> {
    Agents(NamedAgents),
    Store(NamedStore),
    /// The folder is no store.
    Absent(&'a str),
    Door(NamedDoor),
    /// The inspection ended with this status, which was reported.
    Failed(u8),
    /// Nothing was named.
    Nothing,
}

impl<'a> Sight<'a> {
    /// Nothing was seen yet.
    pub(crate) fn new(alloc: Global) -> Sight<'a>
        ensures { IsEmpty result }
    {
        Sight {
            agents: Vec::new(alloc),
            stores: Vec::new(alloc),
            absent: Vec::new(alloc),
            doors: Vec::new(alloc),
            status: 0,
        }
    }

    /// Keeps what was seen in one turn.
    pub(crate) fn keep(&mut self, seen: Seen<'a>) -> Result<(), NoMemory>
        ensures { OnOk result (Keeps self.old (seen.entry ∷ []) self.new) }
    {
        self.status = self.status.max(seen.status());
        match seen {
            Seen::Agents(agents) => self.agents.push(agents)?,
            Seen::Store(store) => self.stores.push(store)?,
            Seen::Absent(folder) => self.absent.push(folder)?,
            Seen::Door(door) => self.doors.push(door)?,
            Seen::Failed(_) | Seen::Nothing => {}
        }
        Ok(())
    }
}

impl Seen<'_> {
    /// 0, or 1 if there is trouble, or how it failed.
    fn status(&self) -> u8
        ensures { result ≡ status_of self.now }
    {
        match self {
            Seen::Agents(found) => found.agents.is_empty() as u8,
            Seen::Store(store) => store.seen.has_trouble() as u8,
            Seen::Absent(_) => 1,
            Seen::Door(door) => door.door.has_trouble() as u8,
            Seen::Failed(status) => *status,
            Seen::Nothing => 0,
        }
    }
}
