//! The site of the real outside.
ghost use Rattle.std.specs.Prelude.{◌≡◌, ◌≤◌, ◌∷◌, [], None, Err, IsSome, IsTrue, option_map};
ghost use Rattle.chk_site.specs.Site.{answered, asked, taking_given, Adds, CallsSome, CauseOf, MayFail};
ghost use Rattle.chk_site.specs.declared.acts.Call.TheVariants as call;
ghost use Rattle.chk_site.specs.declared.acts.CallFault.TheVariants.{Failed};
ghost use Rattle.chk_site_errors.specs.Faults.{answer_of};
ghost use Rattle.chk_site_real.specs.Requests.{IsNoRequest};

use crate::locks::{Locks, lock_name};
use crate::requests::given_to;
use chk_bytes::{Bytes, Word};
use chk_site::{Call, CallFault, LOG_END, Part, Piece, Role, Site, Suffix, Taking, Who};
use chk_site_errors::{SystemFault, text};
use chk_site_files::{Folders, Host, Unsettled, make_folders};
use chk_site_listings::sorted_names;
use chk_site_log::{Failure, clock_moment};
use chk_site_sockets::Messages;
use std::alloc::{AllocError, Global};
use std::fs::File;
use std::io::Eprint;
use std::net::Net;
use std::rt::Files;
use std::time::{Clock, Duration};
use std::{io, thread};

/// How many bytes the longest message has, with its head.
const LONGEST_MESSAGE: usize = 4_210_688;

/// The outside as the machine has it. It tells no history, counts the calls that failed, and keeps
/// the cause of the last one.
///
/// Files are named from the current folder, with or without a folder before the name; logs by their
/// paths. What was made, renamed, removed or cut is so after a stop of the machine too, and what was
/// appended once it is synced; a new file `.tmp` stays from its rename on. To append to, sync or rename a
/// file that isn't there fails; only `cut`, `remove`, `size` and `read` answer `Missing`, and they fail too
/// where the file's folder isn't there, but `size` and `read` of a program that only looks. A read asks the machine for 131,072 bytes at a time. At most two
/// files are open, the one written last and the one read last.
///
/// A log's rotated generations are found by their names in its folder, before each read, and after the
/// read of a rotated one; a read is made again up to three times where the log changed. The folder is listed
/// for that where its times or its number changed since it was listed, or it was changed within the last
/// three seconds. The names are kept of the 64 folders that were asked for last, up to 65,536 in all; other
/// folders are listed each time. The file that was read last is kept open. A base file that was renamed is
/// still the base file, and neither it nor a later one is shown as rotated, until it hasn't grown for three
/// seconds, or for sixty at most, where this site saw it at the log's path (`chk_site_rotations`, for 65,536
/// logs). What isn't a file counts as no log; a file that may not be read fails each look at it until it
/// was read once. Only at those looks, and where it has bytes at the place, a file is opened.
///
/// What happens is told on standard error, with the moment (`chk_site_log`). That a log is shorter than
/// `LOG_END` isn't: a read there asks how long it is.
///
/// A start fails where one of the folders couldn't be synced when the site was made. Else it takes the
/// lock of its process, which no other process can hold meanwhile: on the file
/// `locks/agent.<source>`, `locks/collector.<name>` or `locks/job`. It is kept as long as the site
/// lives, also over further starts; where another process holds it, the start fails and changes
/// nothing. The system lets go of a lock when its process ends, however that ends. A writer has none.
///
/// The clock counts milliseconds from an arbitrary start and never goes back. Messages are as
/// `chk_site_sockets::Messages` has them. An agent isn't given a message that begins as a request of the web does:
/// it is lost.
#[derive(Drop)]
pub struct SiteReal<R: Files<File = File> + Net + Clock + Print + Eprint + Drop> {
    faults: u64,
    failure: Option<Failure>,
    /// A folder whose sync failed. No process starts then.
    unsettled: Option<Unsettled>,
    locks: Locks,
    host: Host<R>,
    messages: Messages<R>,
    /// The message that was sent last, and its address.
    sent: Option<Sent>,
}

// A message, and where it was sent to.
#[derive(Drop)]
struct Sent {
    message: u64,
    address: String,
}

impl<R: Files<File = File> + Net + Clock + Print + Eprint + Drop> SiteReal<R> {
    /// Makes the folders where they aren't there. The count of faults begins at 0, or at 1 where a
    /// folder can't be made or synced. Where it can't be made, the calls on its files fail; where it can't
    /// be synced, each start fails: a rename of an earlier process that is seen in it may be lost with the
    /// next loss of power, and a sync that is made again proves nothing, since the system tells of a lost
    /// write once.
    pub fn new(rt: R, alloc: Global) -> SiteReal<R>
        ensures faults { result.faults ≤ 1 }
        ensures counted { IsSome result.unsettled → result.faults ≡ 1 }
    {
        let folders = make_folders(&rt);
        SiteReal::over(Host::new(rt, alloc), alloc, folders)
    }

    /// The outside for a program that only looks: no folder is made or synced, neither now nor behind a read
    /// of a mark, so the count of faults begins at 0. Such a program makes no start: that would make the file of a lock, and take it.
    pub fn read_only(rt: R, alloc: Global) -> SiteReal<R>
        ensures faults { result.faults ≡ 0 }
        ensures settled { result.unsettled ≡ None }
        ensures looks { IsTrue result.host.only_looks }
    {
        let folders = Folders {
            faults: 0,
            unsettled: None,
        };
        SiteReal::over(Host::read_only(rt, alloc), alloc, folders)
    }

    // The outside over this machine, where this became of the folders.
    fn over(host: Host<R>, alloc: Global, folders: Folders) -> SiteReal<R>
        ensures faults { result.faults ≡ folders.faults }
        ensures unsettled { result.unsettled ≡ folders.unsettled }
        ensures failure { result.failure ≡ None }
        ensures sent { result.sent ≡ None }
        ensures host { result.host ≡ host }
    {
        keep_freed_memory(alloc);
        SiteReal {
            faults: folders.faults,
            failure: None,
            unsettled: folders.unsettled,
            locks: Locks::new(alloc),
            host,
            messages: Messages::new(alloc),
            sent: None,
        }
    }

    /// The last call that failed, for a message to the operator.
    pub fn failure(&self) -> Option<&Failure>
        ensures { option_map (λ failure. failure.now) result ≡ self.now.failure }
    {
        self.failure.as_ref()
    }

    // Lets the process act: where each folder was synced, it takes its lock.
    fn admit(&mut self, alloc: Global, who: &Who) -> Result<(), CallFault>
        ensures unsettled { IsSome self.old.unsettled → result ≡ Err Failed }
        ensures only { MayFail result }
        ensures cause { CauseOf self.old.faults self.new.faults result }
    {
        match self.unsettled {
            None => self.lock(alloc, who),
            Some(Unsettled { folder, error }) => {
                self.settle(alloc, Call::Start, folder, Err(SystemFault::Failed(error)))
            }
        }
    }

    // Takes the lock of the process, where it doesn't hold it yet.
    fn lock(&mut self, alloc: Global, who: &Who) -> Result<(), CallFault>
        ensures only { MayFail result }
        ensures cause { CauseOf self.old.faults self.new.faults result }
    {
        let Some(name) = lock_name(alloc, who)? else {
            return Ok(());
        };
        let given = self.locks.take(&self.host.rt, alloc, name.as_str());
        self.settle(alloc, Call::Start, name.as_str(), given)
    }

    // Tells that an agent's door for control lines is open.
    fn tell_open(&mut self, alloc: Global, who: &Who, door: &str, is_open: bool)
        ensures { self.new.faults ≡ self.old.faults }
    {
        if who.role == Role::Agent && is_open {
            self.host.notices.tell_door(&self.host.rt, alloc, door);
        }
    }

    // Counts a call that failed, and keeps its cause.
    fn settle<T>(
        &mut self,
        alloc: Global,
        call: Call,
        name: &str,
        given: Result<T, SystemFault>,
    ) -> Result<T, CallFault>
        ensures same { result ≡ answer_of given }
        ensures cause { CauseOf self.old.faults self.new.faults result }
    {
        match given {
            Ok(value) => {
                self.host
                    .notices
                    .tell_success(&self.host.rt, alloc, call, name);
                Ok(value)
            }
            Err(fault) => {
                if let SystemFault::Failed(error) = &fault {
                    self.faults = self.faults.saturating_add(1);
                    self.keep_failure(alloc, call, name, *error);
                }
                Err(fault.call_fault())
            }
        }
    }

    // Keeps the cause of a call that failed, and tells it.
    fn keep_failure(&mut self, alloc: Global, call: Call, name: &str, error: io::Error)
        ensures { self.new.faults ≡ self.old.faults }
    {
        let name = text(alloc, name).unwrap_or(String::new(alloc));
        let failure = Failure::new(call, name, error);
        self.host
            .notices
            .tell_failure(&self.host.rt, alloc, &failure);
        self.failure = Some(failure);
    }

    // Keeps to which address the message was sent.
    fn keep_sent(&mut self, alloc: Global, address: &str, given: &Result<u64, CallFault>)
        ensures { self.new.faults ≡ self.old.faults }
    {
        if let (Ok(message), Ok(address)) = (*given, text(alloc, address)) {
            self.sent = Some(Sent { message, address });
        }
    }

    // The address to which the message was sent, where it was sent last.
    fn address_of(&self, alloc: Global, message: u64) -> String {
        match &self.sent {
            Some(sent) if sent.message == message => {
                text(alloc, sent.address.as_str()).unwrap_or(String::new(alloc))
            }
            _ => String::new(alloc),
        }
    }
}

// Takes memory for the longest message, and lets it go untouched. The C library keeps what is let go for
// later calls, but for pieces that are longer than each one that was let go before: these go back to the
// system, and each page of them is made anew.
fn keep_freed_memory(alloc: Global) {
    let _longest: Result<Vec<u8>, AllocError> = Vec::with_capacity(alloc, LONGEST_MESSAGE);
}

impl<R: Files<File = File> + Net + Clock + Print + Eprint + Drop> Site for SiteReal<R> {
    ghost told = { λ _. None };

    ghost fault_count = { λ s. s.faults };

    fn start(&mut self, alloc: Global, who: &Who) -> Result<(), CallFault> {
        let given = self.admit(alloc, who);
        if given.is_ok() && who.role == Role::Collector {
            self.messages.start();
        }
        given
    }

    fn create(&mut self, alloc: Global, _who: &Who, name: &str) -> Result<(), CallFault> {
        let given = self.host.create(alloc, name);
        self.settle(alloc, Call::Create, name, given)
    }

    fn append(
        &mut self,
        alloc: Global,
        _who: &Who,
        name: &str,
        bytes: &[u8],
    ) -> Result<(), CallFault> {
        let given = self.host.append(alloc, name, bytes);
        self.settle(alloc, Call::Append, name, given)
    }

    fn sync(&mut self, alloc: Global, _who: &Who, name: &str) -> Result<(), CallFault> {
        let given = self.host.sync(alloc, name);
        self.settle(alloc, Call::Sync, name, given)
    }

    fn rename(&mut self, alloc: Global, _who: &Who, old: &str, new: &str) -> Result<(), CallFault> {
        let given = self.host.rename(alloc, old, new);
        self.settle(alloc, Call::Rename, old, given)
    }

    fn remove(&mut self, alloc: Global, _who: &Who, name: &str) -> Result<(), CallFault> {
        let given = self.host.remove(name);
        self.settle(alloc, Call::Remove, name, given)
    }

    fn size(&mut self, alloc: Global, _who: &Who, name: &str) -> Result<u64, CallFault> {
        let given = self.host.size(name);
        self.settle(alloc, Call::Size, name, given)
    }

    fn read(
        &mut self,
        alloc: Global,
        _who: &Who,
        name: &str,
        at: u64,
        max: u32,
    ) -> Result<Bytes, CallFault> {
        let given = self.host.read(alloc, name, at, max);
        self.settle(alloc, Call::Read, name, given)
    }

    fn say(&mut self, alloc: Global, _who: &Who, bytes: &[u8]) -> Result<(), CallFault> {
        let given = self.host.rt.write_all(bytes).map_err(SystemFault::Failed);
        self.settle(alloc, Call::Say, "", given)
    }

    fn log_read(
        &mut self,
        alloc: Global,
        _who: &Who,
        path: &str,
        part: Part<'_>,
        at: u64,
        max: u32,
    ) -> Result<Piece, CallFault> {
        let given = self.host.read_log(alloc, path, part, at, max);
        if let Err(SystemFault::Short { size }) = &given {
            // A read at the end of all places asks how many bytes the log has.
            if at < LOG_END {
                self.host
                    .notices
                    .tell_shrank(&self.host.rt, alloc, path, at, *size);
            }
        }
        self.settle(alloc, Call::LogRead, path, given)
    }

    fn log_newest(
        &mut self,
        alloc: Global,
        _who: &Who,
        path: &str,
    ) -> Result<Option<Suffix>, CallFault> {
        let given = self.host.newest_suffix(alloc, path);
        self.settle(alloc, Call::LogNewest, path, given)
    }

    fn log_append(
        &mut self,
        alloc: Global,
        _who: &Who,
        path: &str,
        bytes: &[u8],
    ) -> Result<(), CallFault> {
        let given = self.host.append_log(path, bytes);
        self.settle(alloc, Call::LogAppend, path, given)
    }

    fn cut(&mut self, alloc: Global, _who: &Who, name: &str, length: u64) -> Result<(), CallFault> {
        let given = self.host.cut(alloc, name, length);
        self.settle(alloc, Call::Cut, name, given)
    }

    fn list(&mut self, alloc: Global, _who: &Who, folder: &str) -> Result<Vec<Word>, CallFault> {
        let given = sorted_names(&self.host.rt, alloc, folder);
        self.settle(alloc, Call::List, folder, given)
    }

    fn clock(&mut self, alloc: Global, _who: &Who) -> Result<u64, CallFault> {
        let given = clock_moment(&self.host.rt);
        self.settle(alloc, Call::Clock, "", given)
    }

    fn pause(&mut self, _alloc: Global, _who: &Who, ms: u64) -> Result<(), CallFault> {
        thread::sleep(&self.host.rt, Duration::from_millis(ms));
        Ok(())
    }

    fn send(
        &mut self,
        alloc: Global,
        _who: &Who,
        address: &str,
        bytes: &[u8],
    ) -> Result<u64, CallFault> {
        let given = self.messages.send(&self.host.rt, alloc, address, bytes);
        let given = self.settle(alloc, Call::Send, address, given);
        self.keep_sent(alloc, address, &given);
        given
    }

    fn got(&mut self, alloc: Global, _who: &Who, message: u64) -> Result<Bytes, CallFault> {
        let given = self.messages.got(&self.host.rt, alloc, message);
        let address = self.address_of(alloc, message);
        self.settle(alloc, Call::Got, address.as_str(), given)
    }

    fn take(
        &mut self,
        alloc: Global,
        who: &Who,
        door: &str,
        wait: u64,
    ) -> Result<Option<Taking>, CallFault>
        ensures told { Adds None None (CallsSome
            (λ of. asked who.now call.Take (door.now ∷ []) wait 0)
            (λ of. answered (taking_given of) result)) }
        ensures only { MayFail result }
        ensures cause { CauseOf self.old.faults self.new.faults result }
        ensures web { who.now.role ≡ Role.Agent → IsNoRequest result }
    {
        let given = self.messages.take(&self.host.rt, alloc, door, wait);
        self.tell_open(alloc, who, door, given.is_ok());
        self.settle(alloc, Call::Take, door, given_to(who.role, given))
    }

    fn more(&mut self, alloc: Global, _who: &Who, taking: u64) -> Result<Bytes, CallFault> {
        let given = self.messages.more(&self.host.rt, alloc, taking);
        self.settle(alloc, Call::More, "", given)
    }

    fn answer(
        &mut self,
        alloc: Global,
        _who: &Who,
        taking: u64,
        bytes: &[u8],
    ) -> Result<(), CallFault> {
        let given = self.messages.answer(&self.host.rt, alloc, taking, bytes);
        self.settle(alloc, Call::Answer, "", given)
    }

    fn faults(&self) -> u64 {
        self.faults
    }
}
