//! Doors by the names under which they were asked for.
ghost use Rattle.std.specs.Prelude.{◌≡◌, ◌∷◌, ◌++◌, [], bytes_eq, length, position, string_bytes, IfOk, OnErr, OnOk};
ghost use Rattle.chk_site.specs.Site.{MayFail};
ghost use Rattle.chk_site_errors.specs.Faults.{answer_of};

use chk_site_errors::SystemFault;
use std::alloc::Global;
use std::io::ErrorKind;

/// A door, by the name under which it was asked for.
#[derive(Drop)]
pub struct Named<T> {
    pub name: String,
    pub door: T,
}

/// The doors that are open, the one opened last at the end.
#[derive(Drop)]
pub struct DoorList<T> {
    pub open: Vec<Named<T>>,
}

impl<T: Drop> DoorList<T> {
    pub fn new(alloc: Global) -> DoorList<T>
        ensures { result.open.items ≡ [] }
    {
        DoorList {
            open: Vec::new(alloc),
        }
    }

    /// The place of the door of this name.
    pub fn place_of(&self, name: &str) -> Option<usize>
        ensures { result
            ≡ position (λ d. bytes_eq (string_bytes d.name) name.now) self.now.open.items }
    {
        self.open
            .iter()
            .position(|named| named.name.as_str() == name)
    }

    /// The place of the door, which comes last. There is memory for it where a place was made
    /// before.
    pub fn keep(&mut self, named: Named<T>) -> Result<usize, SystemFault>
        ensures held { OnOk result (self.new.open.items ≡ self.old.open.items ++ named ∷ []) }
        ensures place { IfOk result (λ place. place ≡ length self.old.open.items) }
        ensures err { OnErr result (self.new.open.items ≡ self.old.open.items) }
        ensures only { MayFail (answer_of result) }
    {
        let place = self.open.len();
        match self.open.push(named) {
            Ok(()) => Ok(place),
            Err(_) => Err(SystemFault::failed(ErrorKind::OutOfMemory, "no place for the door")),
        }
    }
}
