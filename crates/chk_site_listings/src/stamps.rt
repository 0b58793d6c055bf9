//! When a folder was changed.
//!
//! The system stamps a folder with the time at each change of its names. The stamps go in steps, of
//! two seconds on some disks, so that two changes in one step leave the same stamp. So what a listing
//! gave counts only where the folder's last change was more than three seconds before the listing
//! began: then each later change leaves a later stamp. Where the clock that stamps them is set back
//! to that very moment, a change may go unseen.

ghost use Rattle.std.specs.Prelude.{◌≢◌, ◌↔◌, ◌/◌, ◌+ℤ◌, ◌<ℤ◌, pos, IfSome, IsTrue};
ghost use Rattle.std.specs.Duration.{as_nanos};
ghost use Rattle.chk_site_listings.specs.Stamps.{last_second};

use std::fs;
use std::os::unix::fs::MetadataExt;
use std::rt::Files;
use std::time::Duration;

/// A folder that was changed within so many seconds may change again under the same stamp.
const UNSURE_SECONDS: i128 = 3;

/// Which folder it is, and when it was changed last, in seconds and nanoseconds since 1970.
#[derive(Clone, Copy, PartialEq, Eq)]
pub struct Stamp {
    pub device: u64,
    pub number: u64,
    pub modified: (i64, i64),
    pub changed: (i64, i64),
}

impl Stamp {
    /// The stamp of the folder that has this name now; none where there is none, or the runtime
    /// numbers no folders.
    pub fn of<R: Files>(rt: &R, folder: &str) -> Option<Stamp>
        ensures { IfSome result (λ stamp. stamp.number ≢ 0) }
    {
        let Ok(found) = fs::metadata(rt, folder) else {
            return None;
        };
        let number = found.ino();
        if number == 0 {
            return None;
        }
        Some(Stamp {
            device: found.dev(),
            number,
            modified: (found.mtime(), found.mtime_nsec()),
            changed: (found.ctime(), found.ctime_nsec()),
        })
    }

    /// Each change of the folder after this time since 1970 leaves another stamp: the second of its
    /// last change lies more than three before.
    pub fn is_settled(&self, now: Duration) -> bool
        ensures { let seconds = pos (as_nanos now / 1_000_000_000) in
            IsTrue result ↔ ((last_second self.now +ℤ pos 3) <ℤ seconds) }
    {
        let last = self.modified.0.max(self.changed.0);
        i128::from(last) + UNSURE_SECONDS < i128::from(now.as_secs())
    }
}
