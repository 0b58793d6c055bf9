//! Who runs in a folder, by the locks of its runs.

ghost use Rattle.std.specs.Prelude.{◌≡◌, count_by, flat_map, string_bytes, IfOk};
ghost use Rattle.chk_site.specs.Site.{OutsideCause};
ghost use Rattle.chk_ctl_status.specs.Locks.{held_at, held_in, holder_cell, holder_in};
ghost use Rattle.chk_ctl_status.specs.Locks.{is_held, lock_line, locks_line, locks_text};
ghost use Rattle.chk_ctl_status.specs.Locks.{owner_at, owner_in};
ghost use Rattle.chk_ctl_status.specs.Telling.{Tells};

use crate::telling::say_text;
use chk_bytes::{NoMemory, Word, take_decimal};
use chk_site::{OutsideFault, Site, Who};
use std::alloc::Global;

/// The line above the locks.
const LOCKS: &str = "            PID  LOCK\n";

/// A lock of a folder.
#[derive(Debug, Drop)]
pub struct Lock {
    /// Its name: `agent.SOURCE`, `collector.NAME` or `job`.
    pub name: Word,
    pub holder: Holder,
}

/// Who holds a lock.
#[derive(Clone, Copy, Debug, PartialEq, Eq)]
pub enum Holder {
    /// Nobody does, so nobody runs under its name.
    Nobody,
    /// The process of this number.
    Process(u64),
    /// The system doesn't say.
    Unknown,
}

/// The process that holds the lock of the file at this place, where this line of the system's list
/// of locks says so. A place is `<major>:<minor>:<inode>` as the list has it, and a line that holds
/// `<number>: FLOCK  ADVISORY  WRITE <process> <place> 0 EOF`; one of a process that waits for the
/// lock has `->` behind its number.
pub fn holder_in(line: &str, place: &str) -> Option<u64>
    ensures { result ≡ holder_in place.now line.now }
{
    match line.split_once(':') {
        Some((_, lock)) => held_in(lock.as_bytes(), place),
        None => None,
    }
}

/// The same of what stands behind the line's number.
fn held_in(lock: &[u8], place: &str) -> Option<u64>
    ensures { result ≡ held_in place.now lock.now }
{
    let held = lock.strip_prefix(b" FLOCK  ADVISORY  WRITE ")?;
    held_at(held, place)
}

/// The same of the process, the place and the range.
fn held_at(held: &[u8], place: &str) -> Option<u64>
    ensures { result ≡ held_at place.now held.now }
{
    let owned = held.strip_suffix(b" 0 EOF")?;
    owner_at(owned, place)
}

/// The same of the process and the place.
fn owner_at(owned: &[u8], place: &str) -> Option<u64>
    ensures { result ≡ owner_at place.now owned.now }
{
    let owner = owned.strip_suffix(place.as_bytes())?;
    owner_in(owner)
}

/// The number in front of a space.
fn owner_in(owner: &[u8]) -> Option<u64>
    ensures { result ≡ owner_in owner.now }
{
    take_decimal(owner.strip_suffix(b" ")?)
}

/// Prints a line for each lock, in one piece: the number of the process that holds it (`-` where
/// nobody does, `?` where the system doesn't say), and its name. It costs one call.
pub fn tell_locks<S: Site>(
    alloc: Global,
    site: &mut S,
    who: &Who,
    locks: &[Lock],
) -> Result<(), OutsideFault>
    ensures told { Tells who.now (locks_text locks.now) result (S.told site.old) (S.told site.new) }
    ensures cause { OutsideCause (S.fault_count site.old) (S.fault_count site.new) result }
{
    match locks_text(alloc, locks) {
        Ok(text) => say_text(alloc, site, who, text.as_str()),
        Err(NoMemory) => Err(OutsideFault::NoMemory),
    }
}

/// Prints how many of a folder's locks are held, as one line that Nagios reads:
/// `OK - <folder>: locks <n> held <n>`. It costs one call.
pub fn tell_locks_line<S: Site>(
    alloc: Global,
    site: &mut S,
    who: &Who,
    folder: &str,
    locks: &[Lock],
) -> Result<(), OutsideFault>
    ensures told { Tells who.now (locks_line folder.now locks.now) result (S.told site.old)
        (S.told site.new) }
    ensures cause { OutsideCause (S.fault_count site.old) (S.fault_count site.new) result }
{
    match locks_line(alloc, folder, locks) {
        Ok(text) => say_text(alloc, site, who, text.as_str()),
        Err(NoMemory) => Err(OutsideFault::NoMemory),
    }
}

fn locks_line(alloc: Global, folder: &str, locks: &[Lock]) -> Result<String, NoMemory>
    ensures { IfOk result (λ text. string_bytes text ≡ locks_line folder.now locks.now) }
{
    let count = locks.len();
    let held = held_among(locks);
    let text = format!(in alloc; "OK - {folder}: locks {count} held {held}\n")?;
    Ok(text)
}

/// How many of them a process is known to hold.
fn held_among(locks: &[Lock]) -> usize
    ensures { result ≡ count_by is_held locks.now }
{
    let mut count = 0;
    for lock in locks {
        if is_held(lock) {
            count += 1;
        }
    }
    count
}

fn is_held(lock: &Lock) -> bool
    ensures { result ≡ is_held lock.now }
{
    match lock.holder {
        Holder::Process(_) => true,
        _ => false,
    }
}

fn locks_text(alloc: Global, locks: &[Lock]) -> Result<String, NoMemory>
    ensures { IfOk result (λ text. string_bytes text ≡ locks_text locks.now) }
{
    let lines = lock_lines(alloc, locks)?;
    let text = format!(in alloc; "{LOCKS}{lines}")?;
    Ok(text)
}

fn lock_lines(alloc: Global, locks: &[Lock]) -> Result<String, NoMemory>
    ensures { IfOk result (λ text. string_bytes text ≡ flat_map lock_line locks.now) }
{
    let mut text = String::new(alloc);
    for lock in locks {
        let line = lock_line(alloc, lock)?;
        text.push_str(line.as_str())?;
    }
    Ok(text)
}

fn lock_line(alloc: Global, lock: &Lock) -> Result<String, NoMemory>
    ensures { IfOk result (λ text. string_bytes text ≡ lock_line lock.now) }
{
    let holder = holder_cell(alloc, lock.holder)?;
    let name = lock.name.as_str();
    let text = format!(in alloc; "{holder}  {name}\n")?;
    Ok(text)
}

fn holder_cell(alloc: Global, holder: Holder) -> Result<String, NoMemory>
    ensures { IfOk result (λ text. string_bytes text ≡ holder_cell holder) }
{
    match holder {
        Holder::Process(process) => {
            let text = format!(in alloc; "{process:>15}")?;
            Ok(text)
        }
        Holder::Nobody => {
            let text = String::from_str(alloc, "              -")?;
            Ok(text)
        }
        Holder::Unknown => {
            let text = String::from_str(alloc, "              ?")?;
            Ok(text)
        }
    }
}
