//! A site that tells on standard error how far a look has come.

ghost use Rattle.std.specs.Prelude.{◌≡◌};

use crate::course::{Course, course_line};
use chk_bytes::{Bytes, Word};
use chk_site::{CallFault, Part, Piece, Site, Suffix, Taking, Who};
use chk_site_log::clock_moment;
use std::alloc::Global;
use std::io::Eprint;
use std::time::Clock;

/// The pause between two tellings on a terminal, in milliseconds.
const OFTEN: u64 = 500;

/// The pause elsewhere.
const SELDOM: u64 = 10_000;

/// Whether it is told, and how.
#[derive(Clone, Copy, Debug, PartialEq, Eq)]
pub enum Shows {
    Nothing,
    /// A line of a terminal, which is written anew every half second.
    OneLine,
    /// A line every ten seconds.
    Lines,
}

/// A site over another one. Each call is passed on as it is, with what it answers; where it is asked
/// to, it tells on standard error how many bytes of files and logs were gone over: in each file up to
/// where the last read of it ended, and anew where a file is read from an earlier place.
#[derive(Drop)]
pub struct Progress<S: Site + Drop, R: Clock + Eprint + Drop> {
    pub site: S,
    rt: R,
    shows: Shows,
    /// About how many bytes there are in all.
    all: u64,
    /// How many were gone over in files that were read before the present one.
    before: u64,
    /// The file that was read last, and where that read ended.
    name: Option<String>,
    at: u64,
    /// When it began and when it was told last, in milliseconds of one clock.
    began: u64,
    told: u64,
    /// A line of the terminal stands there without an end.
    stands: bool,
}

impl<S: Site + Drop, R: Clock + Eprint + Drop> Progress<S, R> {
    /// Lays it over the site, for a look at about so many bytes.
    pub fn over(site: S, rt: R, shows: Shows, all: u64) -> Progress<S, R>
        ensures site { result.site ≡ site }
    {
        let began = clock_moment(&rt).unwrap_or(0);
        Progress {
            site,
            rt,
            shows,
            all,
            before: 0,
            name: None,
            at: 0,
            began,
            told: began,
            stands: false,
        }
    }

    /// Takes back the line that stands on the terminal, where there is one.
    pub fn clear(&mut self)
        ensures site { self.new.site ≡ self.old.site }
    {
        if self.stands {
            let _cleared = eprint!(self.rt; "\r\x1b[K");
            self.stands = false;
        }
    }

    // A read of the file ended there.
    fn pass(&mut self, alloc: Global, name: &str, end: u64)
        ensures site { self.new.site ≡ self.old.site }
    {
        if self.shows == Shows::Nothing {
            return;
        }
        if !self.goes_on(name, end) {
            self.before = self.before.saturating_add(self.at);
            self.name = String::from_str(alloc, name).ok();
        }
        self.at = end;
        self.tell_in_time(alloc);
    }

    // The read is of the file that was read last, and ended behind the one before it.
    fn goes_on(&self, name: &str, end: u64) -> bool {
        match &self.name {
            Some(last) => last.as_str() == name && end >= self.at,
            None => false,
        }
    }

    // Tells how far it is, where that wasn't told for long enough.
    fn tell_in_time(&mut self, alloc: Global)
        ensures site { self.new.site ≡ self.old.site }
    {
        let Ok(now) = clock_moment(&self.rt) else {
            return;
        };
        let pause = if self.shows == Shows::OneLine {
            OFTEN
        } else {
            SELDOM
        };
        if now.saturating_sub(self.told) >= pause {
            self.told = now;
            self.tell(alloc, now);
        }
    }

    fn tell(&mut self, alloc: Global, now: u64)
        ensures site { self.new.site ≡ self.old.site }
    {
        let gone = self.before.saturating_add(self.at);
        let course = Course {
            gone,
            all: self.all.max(gone),
            seconds: now.saturating_sub(self.began) / 1000,
        };
        let Ok(line) = course_line(alloc, course) else {
            return;
        };
        if self.shows == Shows::OneLine {
            let _told = eprint!(self.rt; "\r{line}\x1b[K");
            self.stands = true;
        } else {
            let _told = eprintln!(self.rt; "{line}");
        }
    }
}

impl<S: Site + Drop, R: Clock + Eprint + Drop> Site for Progress<S, R> {
    ghost told = { λ p. S.told p.site };

    ghost fault_count = { λ p. S.fault_count p.site };

    fn start(&mut self, alloc: Global, who: &Who) -> Result<(), CallFault> {
        self.site.start(alloc, who)
    }

    fn create(&mut self, alloc: Global, who: &Who, name: &str) -> Result<(), CallFault> {
        self.site.create(alloc, who, name)
    }

    fn append(
        &mut self,
        alloc: Global,
        who: &Who,
        name: &str,
        bytes: &[u8],
    ) -> Result<(), CallFault> {
        self.site.append(alloc, who, name, bytes)
    }

    fn sync(&mut self, alloc: Global, who: &Who, name: &str) -> Result<(), CallFault> {
        self.site.sync(alloc, who, name)
    }

    fn rename(&mut self, alloc: Global, who: &Who, old: &str, new: &str) -> Result<(), CallFault> {
        self.site.rename(alloc, who, old, new)
    }

    fn remove(&mut self, alloc: Global, who: &Who, name: &str) -> Result<(), CallFault> {
        self.site.remove(alloc, who, name)
    }

    fn size(&mut self, alloc: Global, who: &Who, name: &str) -> Result<u64, CallFault> {
        self.site.size(alloc, who, name)
    }

    fn read(
        &mut self,
        alloc: Global,
        who: &Who,
        name: &str,
        at: u64,
        max: u32,
    ) -> Result<Bytes, CallFault> {
        let given = self.site.read(alloc, who, name, at, max);
        if let Ok(bytes) = &given {
            self.pass(alloc, name, at.saturating_add(bytes.len() as u64));
        }
        given
    }

    fn say(&mut self, alloc: Global, who: &Who, bytes: &[u8]) -> Result<(), CallFault> {
        self.clear();
        self.site.say(alloc, who, bytes)
    }

    fn log_read(
        &mut self,
        alloc: Global,
        who: &Who,
        path: &str,
        part: Part<'_>,
        at: u64,
        max: u32,
    ) -> Result<Piece, CallFault> {
        let given = self.site.log_read(alloc, who, path, part, at, max);
        if let Ok(piece) = &given {
            self.pass(alloc, path, at.saturating_add(piece.bytes.len() as u64));
        }
        given
    }

    fn log_newest(
        &mut self,
        alloc: Global,
        who: &Who,
        path: &str,
    ) -> Result<Option<Suffix>, CallFault> {
        self.site.log_newest(alloc, who, path)
    }

    fn log_append(
        &mut self,
        alloc: Global,
        who: &Who,
        path: &str,
        bytes: &[u8],
    ) -> Result<(), CallFault> {
        self.site.log_append(alloc, who, path, bytes)
    }

    fn cut(&mut self, alloc: Global, who: &Who, name: &str, length: u64) -> Result<(), CallFault> {
        self.site.cut(alloc, who, name, length)
    }

    fn list(&mut self, alloc: Global, who: &Who, folder: &str) -> Result<Vec<Word>, CallFault> {
        self.site.list(alloc, who, folder)
    }

    fn clock(&mut self, alloc: Global, who: &Who) -> Result<u64, CallFault> {
        self.site.clock(alloc, who)
    }

    fn pause(&mut self, alloc: Global, who: &Who, ms: u64) -> Result<(), CallFault> {
        self.site.pause(alloc, who, ms)
    }

    fn send(
        &mut self,
        alloc: Global,
        who: &Who,
        address: &str,
        bytes: &[u8],
    ) -> Result<u64, CallFault> {
        self.site.send(alloc, who, address, bytes)
    }

    fn got(&mut self, alloc: Global, who: &Who, message: u64) -> Result<Bytes, CallFault> {
        self.site.got(alloc, who, message)
    }

    fn take(
        &mut self,
        alloc: Global,
        who: &Who,
        door: &str,
        wait: u64,
    ) -> Result<Option<Taking>, CallFault> {
        self.site.take(alloc, who, door, wait)
    }

    fn more(&mut self, alloc: Global, who: &Who, taking: u64) -> Result<Bytes, CallFault> {
        self.site.more(alloc, who, taking)
    }

    fn answer(
        &mut self,
        alloc: Global,
        who: &Who,
        taking: u64,
        bytes: &[u8],
    ) -> Result<(), CallFault> {
        self.site.answer(alloc, who, taking, bytes)
    }

    fn faults(&self) -> u64 {
        self.site.faults()
    }
}
