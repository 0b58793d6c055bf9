// The outside, by what each call adds to the history.
ghost use Rattle.std.specs.Prelude.{◌≡◌, ℕ, ◌≤◌, [], ◌∷◌, Option, Ok, length, IfOk, MatchResult};
ghost use Rattle.chk_site.specs.declared.acts.Call.TheVariants.{Start, LogRead, LogNewest, LogAppend, Create, Append, Sync, Rename, Remove, Cut, Size, Read, List, Clock, Pause, Send, Got, Take, More, Answer, Say};
ghost use Rattle.chk_site.specs.History.{History};
ghost use Rattle.chk_site.specs.Site.{Adds, asked, answered, plain, sized, bytes_given, suffix_given, names_given, piece_given, taking_given, part_text, EndsPast, Calls, CallsSome, CauseOf, MayFail, MayExist, MayMiss, MayBeShort, MayMissOrBeShort, IsDone, Ends, IsTaken, OutsideCause};
ghost use Rattle.chk_site.specs.Once.{TakenOnce};

use crate::{Call, CallFault, OutsideFault, Part, Piece, Suffix, Taking, Who};
use chk_bytes::{Bytes, Word};
use std::alloc::Global;

/// The calls on the outside. What is said here of files, logs and messages holds where the history
/// is told: each answer agrees with it.
pub trait Site {
    /// The history so far, where the site tells it.
    ghost told: { Self → Option History };

    /// How often a call has failed.
    ghost fault_count: { Self → ℕ };

    /// The process acts from here on, and its mailbox `self` is empty.
    fn start(&mut self, alloc: Global, who: &Who) -> Result<(), CallFault>
        ensures told { Adds (told self.old) (told self.new) (Calls (asked who.now Start [] 0 0) (answered plain result)) }
        ensures only { MayFail result }
        ensures cause { CauseOf (fault_count self.old) (fault_count self.new) result };

    /// Makes an empty file; `Exists` exactly where there is one of this name.
    fn create(&mut self, alloc: Global, who: &Who, name: &str) -> Result<(), CallFault>
        ensures told { Adds (told self.old) (told self.new) (Calls (asked who.now Create (name.now ∷ []) 0 0) (answered plain result)) }
        ensures only { MayExist result }
        ensures cause { CauseOf (fault_count self.old) (fault_count self.new) result };

    /// Adds the bytes at the file's end, not yet synced; `Missing` exactly where there is no such
    /// file.
    fn append(
        &mut self,
        alloc: Global,
        who: &Who,
        name: &str,
        bytes: &[u8],
    ) -> Result<(), CallFault>
        ensures told { Adds (told self.old) (told self.new) (Calls (asked who.now Append (name.now ∷ bytes.now ∷ []) 0 0) (answered plain result)) }
        ensures only { MayMiss result }
        ensures cause { CauseOf (fault_count self.old) (fault_count self.new) result };

    /// Makes all bytes of the file sure, so that a stop keeps them; `Missing` exactly where there
    /// is no such file.
    fn sync(&mut self, alloc: Global, who: &Who, name: &str) -> Result<(), CallFault>
        ensures told { Adds (told self.old) (told self.new) (Calls (asked who.now Sync (name.now ∷ []) 0 0) (answered plain result)) }
        ensures only { MayMiss result }
        ensures cause { CauseOf (fault_count self.old) (fault_count self.new) result };

    /// Gives the file the new name, in place of a file of that name; `Missing` exactly where there
    /// is no file `old`.
    fn rename(&mut self, alloc: Global, who: &Who, old: &str, new: &str) -> Result<(), CallFault>
        ensures told { Adds (told self.old) (told self.new) (Calls (asked who.now Rename (old.now ∷ new.now ∷ []) 0 0) (answered plain result)) }
        ensures only { MayMiss result }
        ensures cause { CauseOf (fault_count self.old) (fault_count self.new) result };

    /// Removes the file; `Missing` exactly where there is none.
    fn remove(&mut self, alloc: Global, who: &Who, name: &str) -> Result<(), CallFault>
        ensures told { Adds (told self.old) (told self.new) (Calls (asked who.now Remove (name.now ∷ []) 0 0) (answered plain result)) }
        ensures only { MayMiss result }
        ensures cause { CauseOf (fault_count self.old) (fault_count self.new) result };

    /// The file's length in bytes; `Missing` exactly where there is no such file.
    fn size(&mut self, alloc: Global, who: &Who, name: &str) -> Result<u64, CallFault>
        ensures told { Adds (told self.old) (told self.new) (Calls (asked who.now Size (name.now ∷ []) 0 0) (answered sized result)) }
        ensures only { MayMiss result }
        ensures cause { CauseOf (fault_count self.old) (fault_count self.new) result };

    /// The file's bytes from `at`, up to `max` of them; `Missing` without a file, `Short` exactly
    /// where it ends before `at`.
    fn read(
        &mut self,
        alloc: Global,
        who: &Who,
        name: &str,
        at: u64,
        max: u32,
    ) -> Result<Bytes, CallFault>
        ensures told { Adds (told self.old) (told self.new) (Calls (asked who.now Read (name.now ∷ []) at max) (answered bytes_given result)) }
        ensures most { IfOk result (λ bytes. length bytes ≤ max) }
        ensures only { MayMissOrBeShort result }
        ensures cause { CauseOf (fault_count self.old) (fault_count self.new) result };

    /// Prints the bytes on standard output.
    fn say(&mut self, alloc: Global, who: &Who, bytes: &[u8]) -> Result<(), CallFault>
        ensures told { Adds (told self.old) (told self.new) (Calls (asked who.now Say (bytes.now ∷ []) 0 0) (answered plain result)) }
        ensures only { MayFail result }
        ensures cause { CauseOf (fault_count self.old) (fault_count self.new) result };

    /// The bytes from `at`, up to `max`, of the first generation of the part; `ended` is its suffix
    /// exactly where it is a rotated one and they reach its end. `Short` comes exactly where that
    /// generation ends before `at`.
    fn log_read(
        &mut self,
        alloc: Global,
        who: &Who,
        path: &str,
        part: Part<'_>,
        at: u64,
        max: u32,
    ) -> Result<Piece, CallFault>
        ensures told { Adds (told self.old) (told self.new) (Calls (asked who.now LogRead (path.now ∷ part_text part.entry ∷ []) at max) (answered piece_given result)) }
        ensures most { IfOk result (λ piece. length piece.bytes ≤ max) }
        ensures past { IfOk result (λ piece. EndsPast part.entry piece.ended) }
        ensures only { MayBeShort result }
        ensures cause { CauseOf (fault_count self.old) (fault_count self.new) result };

    /// The greatest suffix of the log's rotated generations, none exactly where there is none.
    fn log_newest(
        &mut self,
        alloc: Global,
        who: &Who,
        path: &str,
    ) -> Result<Option<Suffix>, CallFault>
        ensures told { Adds (told self.old) (told self.new) (Calls (asked who.now LogNewest (path.now ∷ []) 0 0) (answered suffix_given result)) }
        ensures only { MayFail result }
        ensures cause { CauseOf (fault_count self.old) (fault_count self.new) result };

    /// Adds the bytes at the end of the log's base file, and makes that where it isn't there.
    fn log_append(
        &mut self,
        alloc: Global,
        who: &Who,
        path: &str,
        bytes: &[u8],
    ) -> Result<(), CallFault>
        ensures told { Adds (told self.old) (told self.new) (Calls (asked who.now LogAppend (path.now ∷ bytes.now ∷ []) 0 0) (answered plain result)) }
        ensures only { MayFail result }
        ensures cause { CauseOf (fault_count self.old) (fault_count self.new) result };

    /// Keeps the file's first `length` bytes; `Missing` without a file, `Short` exactly where it
    /// has fewer.
    fn cut(&mut self, alloc: Global, who: &Who, name: &str, length: u64) -> Result<(), CallFault>
        ensures told { Adds (told self.old) (told self.new) (Calls (asked who.now Cut (name.now ∷ []) length 0) (answered plain result)) }
        ensures only { MayMissOrBeShort result }
        ensures cause { CauseOf (fault_count self.old) (fault_count self.new) result };

    /// The names of the folder's files that are words, without the folder, in byte order.
    fn list(&mut self, alloc: Global, who: &Who, folder: &str) -> Result<Vec<Word>, CallFault>
        ensures told { Adds (told self.old) (told self.new) (Calls (asked who.now List (folder.now ∷ []) 0 0) (answered (λ names. names_given names.items) result)) }
        ensures only { MayFail result }
        ensures cause { CauseOf (fault_count self.old) (fault_count self.new) result };

    /// The time in milliseconds: any number, which may fall.
    fn clock(&mut self, alloc: Global, who: &Who) -> Result<u64, CallFault>
        ensures told { Adds (told self.old) (told self.new) (Calls (asked who.now Clock [] 0 0) (answered sized result)) }
        ensures only { MayFail result }
        ensures cause { CauseOf (fault_count self.old) (fault_count self.new) result };

    /// Waits so many milliseconds.
    fn pause(&mut self, alloc: Global, who: &Who, ms: u64) -> Result<(), CallFault>
        ensures told { Adds (told self.old) (told self.new) (Calls (asked who.now Pause [] ms 0) (answered plain result)) }
        ensures only { MayFail result }
        ensures cause { CauseOf (fault_count self.old) (fault_count self.new) result };

    /// Sends a message, which may be lost, late or repeated, but not at `self`; its number is new
    /// in the history.
    fn send(
        &mut self,
        alloc: Global,
        who: &Who,
        address: &str,
        bytes: &[u8],
    ) -> Result<u64, CallFault>
        ensures told { Adds (told self.old) (told self.new) (CallsSome (λ n. asked who.now Send (address.now ∷ bytes.now ∷ []) n 0) (λ n. answered sized result)) }
        ensures only { MayFail result }
        ensures cause { CauseOf (fault_count self.old) (fault_count self.new) result };

    /// The answer to a message that was sent, or a front of it; no bytes where there is none.
    fn got(&mut self, alloc: Global, who: &Who, message: u64) -> Result<Bytes, CallFault>
        ensures told { Adds (told self.old) (told self.new) (Calls (asked who.now Got [] message 0) (answered bytes_given result)) }
        ensures only { MayFail result }
        ensures cause { CauseOf (fault_count self.old) (fault_count self.new) result };

    /// The first piece of a message at the door, under a new number; none where none came within
    /// `wait` milliseconds, at `self` exactly where none is left.
    fn take(
        &mut self,
        alloc: Global,
        who: &Who,
        door: &str,
        wait: u64,
    ) -> Result<Option<Taking>, CallFault>
        ensures told { Adds (told self.old) (told self.new) (CallsSome (λ of. asked who.now Take (door.now ∷ []) wait 0) (λ of. answered (taking_given of) result)) }
        ensures only { MayFail result }
        ensures cause { CauseOf (fault_count self.old) (fault_count self.new) result };

    /// The next piece of a message that this process took; no bytes at its end.
    fn more(&mut self, alloc: Global, who: &Who, taking: u64) -> Result<Bytes, CallFault>
        ensures told { Adds (told self.old) (told self.new) (Calls (asked who.now More [] taking 0) (answered bytes_given result)) }
        ensures only { MayFail result }
        ensures cause { CauseOf (fault_count self.old) (fault_count self.new) result };

    /// Answers a message that this process took; only its taker's answers are answers to it.
    fn answer(
        &mut self,
        alloc: Global,
        who: &Who,
        taking: u64,
        bytes: &[u8],
    ) -> Result<(), CallFault>
        ensures told { Adds (told self.old) (told self.new) (Calls (asked who.now Answer (bytes.now ∷ []) taking 0) (answered plain result)) }
        ensures only { MayFail result }
        ensures cause { CauseOf (fault_count self.old) (fault_count self.new) result };

    /// How often a call has answered `Failed`; it stays at the greatest number of 64 bits.
    fn faults(&self) -> u64
        ensures { result ≡ fault_count self.now };
}

/// Goes on after a call that was done, or that was refused for the state of the files.
pub fn done(call: Call, given: Result<(), CallFault>) -> Result<(), OutsideFault>
    ensures { MatchResult result (λ _. IsDone given) (λ fault. Ends call given fault) }
{
    taken(call, given)?;
    Ok(())
}

/// The value of a call that was done; none where it was refused for the state of the files.
pub fn taken<T: Drop>(call: Call, given: Result<T, CallFault>) -> Result<Option<T>, OutsideFault>
    ensures { MatchResult result (λ value. IsTaken given value) (λ fault. Ends call given fault) }
{
    match given {
        Ok(value) => Ok(Some(value)),
        Err(CallFault::Failed) => Err(OutsideFault::Outside { call }),
        Err(CallFault::NoMemory) => Err(OutsideFault::NoMemory),
        Err(_) => Ok(None),
    }
}

/// The length of the file of this name, where it is there. It costs one call.
pub fn size_of<S: Site>(
    alloc: Global,
    site: &mut S,
    who: &Who,
    name: &str,
) -> Result<Option<u64>, OutsideFault>
    ensures told { TakenOnce (asked who.now Size (name.now ∷ []) 0 0) sized result (S.told site.old) (S.told site.new) }
    ensures cause { OutsideCause (S.fault_count site.old) (S.fault_count site.new) result }
{
    let given = site.size(alloc, who, name);
    taken(Call::Size, given)
}

/// The value of a call that is never refused for the state of the files.
pub fn reached<T: Drop>(call: Call, given: Result<T, CallFault>) -> Result<T, OutsideFault>
    requires { MayFail given }
    ensures { MatchResult result (λ value. given ≡ Ok value) (λ fault. Ends call given fault) }
{
    match given {
        Ok(value) => Ok(value),
        Err(CallFault::Failed) => Err(OutsideFault::Outside { call }),
        Err(CallFault::NoMemory) => Err(OutsideFault::NoMemory),
        Err(_) => unreachable!(),
    }
}
