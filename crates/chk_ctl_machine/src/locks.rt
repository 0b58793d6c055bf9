//! The inspection of a folder's locks.

ghost use Rattle.std.specs.Prelude.{◌≡◌, ◌∷◌, ◌++◌, [], option_map, string_bytes, Some, IfErr, IfOk, MatchResult, OnOk};
ghost use Rattle.std.specs.Str.Lines.{lines};
ghost use Rattle.chk_site.specs.History.{Every};
ghost use Rattle.chk_site.specs.Site.{Adds};
ghost use Rattle.chk_ctl_machine.specs.Inspecting.{Inspects};
ghost use Rattle.chk_ctl_machine.specs.Lending.{listed, Lent, SeenCause};
ghost use Rattle.chk_ctl_machine.specs.Locks.{holder_or, listed_as, major_of, minor_of, named_by};
ghost use Rattle.chk_ctl_machine.specs.Locks.{place_of, process_in, FindsHolder, FindsLocks};
ghost use Rattle.chk_ctl_machine.specs.Locks.{IsHolder, ListsLocks, FindsLock, SeesLocks};
ghost use Rattle.chk_ctl_machine.specs.Turns.{InTurn};
ghost use Rattle.chk_ctl_run.specs.declared.outcome.Outcome.TheVariants.{NoMemory as no_memory};

use crate::machine::{FileNumbers, Machine};
use chk_bytes::{NoMemory, Word};
use chk_ctl_run::{Outcome, looker};
use chk_ctl_status::{Holder, Lock, holder_in};
use chk_site::{Call, CallFault, Site};
use std::alloc::Global;

/// The locks of the current folder, and who holds each; or how their inspection ends.
pub fn see_locks<M: Machine>(alloc: Global, machine: &mut M) -> Result<Vec<Lock>, Outcome>
    ensures { SeesLocks (listed result (λ v. v.items)) (M.told machine.old) (M.told machine.new) }
{
    match list_there(alloc, machine) {
        Ok(names) => {
            let held = machine.locks_held();
            locks_of(alloc, machine, &held, names.as_slice())
        }
        Err(outcome) => Err(outcome),
    }
}

fn list_there<M: Machine>(alloc: Global, machine: &mut M) -> Result<Vec<Word>, Outcome>
    ensures { Lent None (FindsLocks (listed result (λ v. v.items))) (M.told machine.old)
        (M.told machine.new) }
{
    let mut folder = machine.lend(None);
    let listed = list_by(alloc, &mut folder);
    machine.take_back(folder);
    listed
}

fn list_by<S: Site>(alloc: Global, site: &mut S) -> Result<Vec<Word>, Outcome>
    ensures told { ListsLocks (listed result (λ v. v.items)) (S.told site.old) (S.told site.new) }
    ensures own { Adds (S.told site.old) (S.told site.new) (Every Inspects) }
    ensures cause { SeenCause (S.fault_count site.old) (S.fault_count site.new)
        (listed result (λ v. v.items)) }
{
    match looker(alloc) {
        Ok(who) => {
            let given = site.list(alloc, &who, "locks");
            listed_as(given)
        }
        Err(NoMemory) => Err(Outcome::NoMemory),
    }
}

/// The names, or the outcome of a refusal.
fn listed_as(given: Result<Vec<Word>, CallFault>) -> Result<Vec<Word>, Outcome>
    ensures { listed result (λ v. v.items) ≡ listed_as (named_by given (λ v. v.items)) }
{
    match given {
        Ok(names) => Ok(names),
        Err(CallFault::NoMemory) => Err(Outcome::NoMemory),
        Err(_) => Err(Outcome::Outside { call: Call::List }),
    }
}

fn locks_of<M: Machine>(
    alloc: Global,
    machine: &mut M,
    held: &Option<String>,
    names: &[Word],
) -> Result<Vec<Lock>, Outcome>
    ensures { MatchResult result
        (λ locks. InTurn (FindsLock (option_map string_bytes held.now)) names.now locks.items
        (M.told machine.old) (M.told machine.new))
        (λ outcome. outcome ≡ no_memory) }
{
    let mut locks = Vec::new(alloc);
    for name in names {
        match find_lock(alloc, machine, held, name) {
            Ok(lock) => add_lock(&mut locks, lock)?,
            Err(NoMemory) => return Err(Outcome::NoMemory),
        }
    }
    Ok(locks)
}

fn add_lock(locks: &mut Vec<Lock>, lock: Lock) -> Result<(), Outcome>
    ensures ok { OnOk result (locks.new.items ≡ locks.old.items ++ lock ∷ []) }
    ensures err { IfErr result (λ outcome. outcome ≡ no_memory) }
{
    match locks.push(lock) {
        Ok(()) => Ok(()),
        Err(_) => Err(Outcome::NoMemory),
    }
}

fn find_lock<M: Machine>(
    alloc: Global,
    machine: &mut M,
    held: &Option<String>,
    name: &Word,
) -> Result<Lock, NoMemory>
    ensures { IfOk result (λ lock. FindsLock (option_map string_bytes held.now) name.now lock
        (M.told machine.old) (M.told machine.new)) }
{
    let holder = holder_of(alloc, machine, held, name.as_str());
    let name = name.copy()?;
    Ok(Lock { name, holder })
}

/// Who holds the lock of this name, by the system's list.
fn holder_of<M: Machine>(
    alloc: Global,
    machine: &mut M,
    held: &Option<String>,
    name: &str,
) -> Holder
    ensures { FindsHolder (option_map string_bytes held.now) name.now result (M.told machine.old)
        (M.told machine.new) }
{
    let Some(held) = held else {
        return Holder::Unknown;
    };
    let Ok(path) = format!(in alloc; "locks/{name}") else {
        return Holder::Unknown;
    };
    match machine.numbers_of(path.as_str()) {
        Some(numbers) => holder_at(alloc, held.as_str(), numbers),
        None => Holder::Unknown,
    }
}

/// Who holds the lock of the file of these numbers. If its file system has no device of its own, the
/// system's list may name another one than the file does, so a lock that isn't found there may be
/// held.
fn holder_at(alloc: Global, held: &str, numbers: FileNumbers) -> Holder
    ensures { IsHolder held.now (Some numbers) result }
{
    match place_of(alloc, numbers) {
        Ok(place) => holder_or(major_of(numbers.device), process_in(held, place.as_str())),
        Err(NoMemory) => Holder::Unknown,
    }
}

/// The place of a file, as the system's list of locks has it.
fn place_of(alloc: Global, numbers: FileNumbers) -> Result<String, NoMemory>
    ensures { IfOk result (λ place. string_bytes place ≡ place_of numbers) }
{
    let major = major_of(numbers.device);
    let minor = minor_of(numbers.device);
    let number = numbers.number;
    let place = format!(in alloc; "{major:02x}:{minor:02x}:{number}")?;
    Ok(place)
}

fn major_of(device: u64) -> u64
    ensures { result ≡ major_of device }
{
    (device >> 8) & 0xfff | (device >> 32) & 0xffff_f000
}

fn minor_of(device: u64) -> u64
    ensures { result ≡ minor_of device }
{
    device & 0xff | (device >> 12) & 0xffff_ff00
}

/// The first process that a line of the list names for the place.
fn process_in(held: &str, place: &str) -> Option<u64>
    ensures { result ≡ process_in place.now (lines held.now) }
{
    for line in held.lines() {
        if let Some(process) = holder_in(line, place) {
            return Some(process);
        }
    }
    None
}

fn holder_or(major: u64, process: Option<u64>) -> Holder
    ensures { result ≡ holder_or major process }
{
    match process {
        Some(process) => Holder::Process(process),
        None if major == 0 => Holder::Unknown,
        None => Holder::Nobody,
    }
}
