//! What is told on standard error when it happens.
ghost use Rattle.std.specs.Prelude.{◌≡◌, [], None, string_bytes, IfOk};
ghost use Rattle.chk_site.specs.Site.{MayFail};
ghost use Rattle.chk_site_errors.specs.Faults.{answer_of};
ghost use Rattle.chk_site_log.specs.Notices.{place_of, Fails, Happens, HasFailed, HasHappened, Opens, Succeeds, WentWell};

use crate::failure::Failure;
use crate::moment::Moment;
use crate::trouble::Recovery;
use crate::troubles::Troubles;
use chk_bytes::NoMemory;
use chk_site::Call;
use chk_site_errors::{SystemFault, text};
use std::alloc::Global;
use std::fmt::Display;
use std::io::{Eprint, ErrorKind};
use std::time::Clock;

/// What was told of addresses and files. A line begins with the moment, and about one call on one address
/// or file one is told a minute at most; what a line doesn't say for that is said by a later one.
#[derive(Drop)]
pub struct Notices {
    troubles: Troubles,
    /// Calls fail somewhere, so that those that go well are looked at.
    failing: bool,
    /// The door that was opened last by an agent.
    door: Option<String>,
}

impl Notices {
    pub fn new(alloc: Global) -> Notices
        ensures troubles { result.troubles ≡ [] }
        ensures door { result.door ≡ None }
    {
        Notices {
            troubles: Troubles::new(alloc),
            failing: false,
            door: None,
        }
    }

    /// A call failed. It is told where none at the same address or file failed before it.
    pub fn tell_failure<R: Clock + Eprint>(&mut self, rt: &R, alloc: Global, failure: &Failure)
        ensures { Fails self.old self.new (place_of failure.now.call (string_bytes failure.now.name)) }
    {
        let (Ok(now), Ok(place)) = (clock_moment(rt), failure.place(alloc)) else {
            return;
        };
        if self.fail(alloc, place.as_str(), now) {
            tell(rt, format_args!("{failure}"));
        }
    }

    // A call at the place failed. Whether that is to be told.
    fn fail(&mut self, alloc: Global, place: &str, now: u64) -> bool
        ensures { HasFailed self.old self.new place.now now result }
    {
        self.failing = true;
        self.troubles.fail(alloc, place, now)
    }

    /// A call went well. It is told where calls at the same address or file failed before it.
    pub fn tell_success<R: Clock + Eprint>(&mut self, rt: &R, alloc: Global, call: Call, name: &str)
        ensures { Succeeds self.old self.new (place_of call name.now) }
    {
        if !self.failing {
            return;
        }
        let (Ok(now), Ok(place)) = (clock_moment(rt), place(alloc, call, name)) else {
            return;
        };
        if let Some(found) = self.succeed(place.as_str(), now) {
            tell_recovery(rt, place.as_str(), found);
        }
    }

    // A call at the place went well. What is to be told of those that failed before.
    fn succeed(&mut self, place: &str, now: u64) -> Option<Recovery>
        ensures { WentWell self.old self.new place.now now result }
    {
        let found = self.troubles.succeed(place, now);
        self.failing = self.troubles.is_any_failing();
        found
    }

    /// The log has fewer bytes than the place from which it was to be read.
    pub fn tell_shrank<R: Clock + Eprint>(
        &mut self,
        rt: &R,
        alloc: Global,
        path: &str,
        had: u64,
        is: u64,
    )
        ensures { Happens self.old self.new path.now }
    {
        if self.may_tell(rt, alloc, path) {
            tell(
                rt,
                format_args!("{path} shrank: {had} bytes were read, and {is} are there"),
            );
        }
    }

    /// Another file has the log's name, and the one that had it is no generation of it.
    pub fn tell_replaced<R: Clock + Eprint>(&mut self, rt: &R, alloc: Global, path: &str)
        ensures { Happens self.old self.new path.now }
    {
        if self.may_tell(rt, alloc, path) {
            tell(
                rt,
                format_args!("{path} is another file, and no rotated one came: bytes may be lost"),
            );
        }
    }

    /// So many bytes came to a rotated file behind its end.
    pub fn tell_late<R: Clock + Eprint>(&mut self, rt: &R, alloc: Global, name: &str, count: u64)
        ensures { Happens self.old self.new name.now }
    {
        if self.may_tell(rt, alloc, name) {
            tell(
                rt,
                format_args!("{name} grew behind its rotation: {count} bytes are lost"),
            );
        }
    }

    /// A control door is open. It is told once.
    pub fn tell_door<R: Clock + Eprint>(&mut self, rt: &R, alloc: Global, door: &str)
        ensures { Opens self.old self.new door.now }
    {
        match &self.door {
            Some(known) if known.as_str() == door => return,
            _ => {}
        }
        if let Ok(name) = text(alloc, door) {
            self.door = Some(name);
            tell(rt, format_args!("the control door {door} is open"));
        }
    }

    // Whether a line about the name may be told.
    fn may_tell<R: Clock>(&mut self, rt: &R, alloc: Global, name: &str) -> bool
        ensures { Happens self.old self.new name.now }
    {
        match clock_moment(rt) {
            Ok(now) => self.happen(alloc, name, now),
            Err(_) => false,
        }
    }

    fn happen(&mut self, alloc: Global, name: &str, now: u64) -> bool
        ensures { HasHappened self.old self.new name.now now result }
    {
        self.troubles.happen(alloc, name, now)
    }
}

/// The call and its address or file, as `send store1:9093`.
pub(crate) fn place(alloc: Global, call: Call, name: &str) -> Result<String, NoMemory>
    ensures { IfOk result (λ place. string_bytes place ≡ place_of call name.now) }
{
    let mut place = text(alloc, call.name())?;
    place.push(' ')?;
    place.push_str(name)?;
    Ok(place)
}

fn tell_recovery<R: Clock + Eprint>(rt: &R, place: &str, found: Recovery) {
    let count = found.failures;
    let seconds = found.lasted / 1_000;
    tell(
        rt,
        format_args!("{place}: well again after {count} failures in {seconds} s"),
    );
}

// A line with the moment. That standard error takes no more is no fault.
fn tell<R: Clock + Eprint, D: Display + Drop>(rt: &R, what: D) {
    let now = rt
        .since_1970()
        .ok()
        .and_then(|now| Moment::new(now.as_secs()));
    let _told = match now {
        Some(now) => eprintln!(rt; "{now} chukwa: {what}"),
        None => eprintln!(rt; "chukwa: {what}"),
    };
}

/// Milliseconds of a clock that doesn't go back.
pub fn clock_moment<R: Clock>(rt: &R) -> Result<u64, SystemFault>
    ensures { MayFail (answer_of result) }
{
    let since_start = rt.monotonic()?;
    match u64::try_from(since_start.as_millis()) {
        Ok(milliseconds) => Ok(milliseconds),
        Err(_) => Err(SystemFault::failed(ErrorKind::Other, "the clock ran too long")),
    }
}
