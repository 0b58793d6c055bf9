//! The machine that the program runs on.

ghost use Rattle.std.specs.Prelude.{None};

use crate::disk::free_here;
use chk_ctl_machine::{FileNumbers, LongInspection, Machine, shows_of};
use chk_ctl_run::{Outcome, Usage};
use chk_site_progress::{Progress, Shows, bytes_in};
use chk_site_real::SiteReal;
use std::io::IsTerminal;
use std::os::unix::fs::MetadataExt;
use std::path::PathBuf;
use std::time::Duration;
use std::{env, fs, io, thread};

/// Where the system lists the locks that are held.
const LOCKS: &str = "/proc/locks";

/// The machine, and the folder where the user stands, once that was found.
#[derive(Drop)]
pub(crate) struct HostMachine {
    pub rt: HostRuntime,
    pub base: Option<PathBuf>,
}

impl Machine for HostMachine {
    type Folder = Progress<SiteReal<HostRuntime>, HostRuntime>;

    ghost told = { λ _. None };

    fn stand(&mut self) -> bool {
        match env::current_dir(&self.rt) {
            Ok(base) => {
                self.base = Some(base);
                true
            }
            Err(error) => {
                let _told = eprintln!(self.rt; "chukwactl: {error}");
                false
            }
        }
    }

    // `audit` enters one folder alone, from the current one: it isn't entered by its path again.
    fn path_of(&mut self, folder: &str) -> Option<String> {
        let path = self.base.take()?.join(self.rt.alloc(), folder).ok()?;
        String::from_str(self.rt.alloc(), path.to_string_lossy()).ok()
    }

    fn enter(&mut self, folder: &str) -> bool {
        match self.change_to(folder) {
            Ok(()) => true,
            Err(error) => {
                let _told = eprintln!(self.rt; "chukwactl: {folder}: {error}");
                false
            }
        }
    }

    // Each run that works in a folder makes `sinks` there.
    fn is_store(&mut self) -> bool {
        match fs::metadata(&self.rt, "sinks") {
            Ok(found) => found.is_dir(),
            Err(_) => false,
        }
    }

    fn lend(
        &mut self,
        long: Option<LongInspection>,
    ) -> Progress<SiteReal<HostRuntime>, HostRuntime> {
        let rt = self.rt;
        let site = SiteReal::read_only(rt, rt.alloc());
        match long {
            Some(long) => {
                let extent = long.extent;
                let all = bytes_in(&rt, rt.alloc(), extent.folders()).saturating_mul(
                    extent.times(),
                );
                let shows = shows_of(long, rt.stdout().is_terminal(), rt.stderr().is_terminal());
                Progress::over(site, rt, shows, all)
            }
            None => Progress::over(site, rt, Shows::Nothing, 0),
        }
    }

    fn take_back(&mut self, mut folder: Progress<SiteReal<HostRuntime>, HostRuntime>) {
        folder.clear();
        if let Some(failure) = folder.site.failure() {
            let _told = eprintln!(self.rt; "chukwactl: {failure}");
        }
    }

    fn age_of(&mut self, path: &str) -> Option<u64> {
        let changed = fs::metadata(&self.rt, path).ok()?.modified().ok()?;
        Some(changed.elapsed(&self.rt).ok()?.as_secs())
    }

    fn locks_held(&mut self) -> Option<String> {
        fs::read_to_string(&self.rt, LOCKS).ok()
    }

    fn numbers_of(&mut self, path: &str) -> Option<FileNumbers> {
        let found = fs::metadata(&self.rt, path).ok()?;
        Some(FileNumbers {
            device: found.dev(),
            number: found.ino(),
        })
    }

    fn free(&mut self) -> Option<u64> {
        free_here(self.rt)
    }

    fn sleep(&mut self, seconds: u64) {
        thread::sleep(&self.rt, Duration::from_secs(seconds));
    }

    fn print(&mut self, text: &str) -> bool {
        print!(self.rt; "{text}").is_ok()
    }

    fn tell(&mut self, outcome: &Outcome) {
        let _told = eprintln!(self.rt; "chukwactl: {outcome}");
    }

    fn tell_usage(&mut self, usage: Usage) {
        let text = usage.text().trim_end();
        let _told = eprintln!(self.rt; "{text}");
    }
}

impl HostMachine {
    fn change_to(&self, folder: &str) -> io::Result<()> {
        if let Some(base) = &self.base {
            env::set_current_dir(&self.rt, base)?;
        }
        env::set_current_dir(&self.rt, folder)
    }
}
