//! The locks by which one process at a time acts under a name.
ghost use Rattle.std.specs.Prelude.{◌≡◌, ◌∷◌, ◌++◌, [], option_map, string_bytes, IfOk, OnErr, OnOk};
ghost use Rattle.std.specs.List.{list_any};
ghost use Rattle.chk_site.specs.Site.{MayFail};
ghost use Rattle.chk_site.specs.declared.acts.CallFault.TheVariants.{Failed};
ghost use Rattle.chk_site_errors.specs.Faults.{answer_of, call_fault};
ghost use Rattle.chk_site_real.specs.Locks.{is_of, lock_of, Holds};

use chk_bytes::NoMemory;
use chk_site::{Role, Who};
use chk_site_errors::{SystemFault, make_place, text};
use chk_site_files::open_made;
use std::alloc::Global;
use std::fs::{File, TryLockError};
use std::io::ErrorKind;
use std::rt::Files;

/// A lock that is held as long as its file is open.
#[derive(Drop)]
struct Lock {
    name: String,
    _file: File,
}

/// The locks that were taken. The system lets them go with the process.
#[derive(Drop)]
pub struct Locks {
    held: Vec<Lock>,
}

impl Locks {
    pub fn new(alloc: Global) -> Locks
        ensures { result.held.items ≡ [] }
    {
        Locks {
            held: Vec::new(alloc),
        }
    }

    /// Takes the lock of this name where it isn't held here, and makes its file and the folder where
    /// they aren't there. `Failed` where another process holds it.
    pub fn take<R: Files<File = File>>(
        &mut self,
        rt: &R,
        alloc: Global,
        name: &str,
    ) -> Result<(), SystemFault>
        ensures held { OnOk result (Holds self.old.held.items self.new.held.items name.now) }
        ensures err { OnErr result (self.new.held.items ≡ self.old.held.items) }
        ensures only { MayFail (answer_of result) }
    {
        if self.has(name) {
            return Ok(());
        }
        let name_kept = text(alloc, name)?;
        make_place(&mut self.held)?;
        let file = taken(rt, name)?;
        self.keep(Lock {
            name: name_kept,
            _file: file,
        })
    }

    // The lock of this name is held here.
    fn has(&self, name: &str) -> bool
        ensures { result ≡ list_any (is_of name.now) self.now.held.items }
    {
        self.held.iter().any(|lock| lock.name.as_str() == name)
    }

    fn keep(&mut self, lock: Lock) -> Result<(), SystemFault>
        ensures held { OnOk result (self.new.held.items ≡ self.old.held.items ++ lock ∷ []) }
        ensures err { OnErr result (self.new.held.items ≡ self.old.held.items) }
        ensures only { MayFail (answer_of result) }
    {
        self.held.push(lock).map_err(|_| SystemFault::failed(
            ErrorKind::OutOfMemory,
            "no place for the lock",
        ))
    }
}

// The file of this name, locked.
fn taken<R: Files<File = File>>(rt: &R, name: &str) -> Result<File, SystemFault>
    ensures { MayFail (answer_of result) }
{
    let file = open_made(rt, name)?;
    match file.try_lock() {
        Ok(()) => Ok(file),
        Err(TryLockError::WouldBlock) => Err(held_elsewhere()),
        Err(TryLockError::Error(error)) => Err(SystemFault::Failed(error)),
    }
}

fn held_elsewhere() -> SystemFault
    ensures { call_fault result ≡ Failed }
{
    SystemFault::failed(ErrorKind::WouldBlock, "another process holds this lock")
}

/// The name of this process's lock; a writer has none.
pub fn lock_name(alloc: Global, who: &Who) -> Result<Option<String>, NoMemory>
    ensures { IfOk result (λ found. option_map string_bytes found ≡ lock_of who.now.role who.now.name) }
{
    Ok(match who.role {
        Role::Agent => Some(joined(alloc, "locks/agent.", who.name.as_str())?),
        Role::Collector => Some(joined(alloc, "locks/collector.", who.name.as_str())?),
        Role::Job => Some(text(alloc, "locks/job")?),
        Role::Writer => None,
    })
}

fn joined(alloc: Global, front: &str, name: &str) -> Result<String, NoMemory>
    ensures { IfOk result (λ lock. string_bytes lock ≡ front.now ++ name.now) }
{
    let mut lock = text(alloc, front)?;
    lock.push_str(name)?;
    Ok(lock)
}
