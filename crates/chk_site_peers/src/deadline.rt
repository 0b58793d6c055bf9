//! The end of a wait.

ghost use Rattle.std.specs.Prelude.{◌≡◌, ◌*◌, ◌≤◌, ◌↔◌, IfOk, IsTrue};
ghost use Rattle.std.specs.Duration.{as_nanos};
ghost use Rattle.chk_site_peers.specs.Moments.{IsNear};

use std::io;
use std::time::{Clock, Duration};

/// How many milliseconds one wait for a peer takes at most.
pub const WAIT_MS: u64 = 2_000;

pub fn longest_wait() -> Duration
    ensures { as_nanos result ≡ WAIT_MS * 1_000_000 }
{
    Duration::from_millis(WAIT_MS)
}

/// A moment on the clock that never goes back.
#[derive(Clone, Copy)]
pub struct Deadline {
    end: Duration,
}

impl Deadline {
    pub fn after<R: Clock>(rt: &R, wait: Duration) -> io::Result<Deadline>
        ensures { IfOk result (λ deadline. as_nanos wait ≤ as_nanos deadline.end) }
    {
        Ok(Deadline {
            end: rt.monotonic()?.saturating_add(wait),
        })
    }

    /// The time until then; zero where it has passed.
    pub fn left<R: Clock>(&self, rt: &R) -> io::Result<Duration>
        ensures { IfOk result (λ left. as_nanos left ≤ as_nanos self.now.end) }
    {
        Ok(self.end.saturating_sub(rt.monotonic()?))
    }

    /// Whether it has passed, or the clock fails.
    pub fn is_over<R: Clock>(&self, rt: &R) -> bool
        ensures start { as_nanos self.now.end ≡ 0 → IsTrue result }
    {
        self.is_near(rt.monotonic().ok(), 0)
    }

    /// Whether at this moment no more than so many milliseconds are left, or the clock gave none.
    pub fn is_near(&self, now: Option<Duration>, ms: u64) -> bool
        ensures { IsTrue result ↔ IsNear self.now.end now ms }
    {
        match now {
            Some(now) => self.end.saturating_sub(now) <= Duration::from_millis(ms),
            None => true,
        }
    }

    /// This moment, or that of so long from now, where that comes first.
    pub fn or_after<R: Clock>(&self, rt: &R, wait: Duration) -> io::Result<Deadline>
        ensures { IfOk result (λ deadline. as_nanos deadline.end ≤ as_nanos self.now.end) }
    {
        Ok(Deadline {
            end: self.end.min(rt.monotonic()?.saturating_add(wait)),
        })
    }
}
