//! The logs that were looked at.
ghost use Rattle.std.specs.Prelude.{◌≡◌, ◌≤◌, ◌<◌, [], length, IfOk, IfSome, IfNone, IsTrue, OnErr, ◌↔◌};
ghost use Rattle.chk_site_rotations.specs.Logs.{most_logs, AreRising, IsAt, IsPathEnd, IsPlaced, StaysKnown};

use crate::log::Log;
use chk_bytes::{NoMemory, comes_before};
use std::alloc::Global;

/// How many logs are remembered; further ones aren't, so that their renamed files are shown at once.
pub const MOST_LOGS: usize = 65_536;

/// The logs that were looked at, in byte order of their paths.
#[derive(Drop)]
pub struct Logs {
    pub seen: Vec<Log>,
}

impl Logs {
    pub fn new(alloc: Global) -> Logs
        ensures { result.seen.items ≡ [] }
    {
        Logs {
            seen: Vec::new(alloc),
        }
    }

    /// The place of the log, which is added where it isn't there; none where there is room for no further
    /// one. It searches by halves.
    pub fn place(&mut self, alloc: Global, path: &str) -> Result<Option<usize>, NoMemory>
        ensures placed { IfOk result (λ found. IfSome found
            (IsPlaced self.old.seen.items self.new.seen.items path.now)) }
        ensures full { IfOk result (λ found. IfNone found ((self.new.seen.items ≡ self.old.seen.items)
            × (most_logs ≤ length self.old.seen.items))) }
        ensures err { OnErr result (self.new.seen.items ≡ self.old.seen.items) }
        ensures rising { AreRising self.old.seen.items → AreRising self.new.seen.items }
        ensures once { IfOk result (StaysKnown self.old.seen.items self.new.seen.items path.now) }
    {
        let place = count_below(&self.seen, path);
        if has_path(&self.seen, place, path) {
            return Ok(Some(place));
        }
        if self.seen.len() >= MOST_LOGS {
            return Ok(None);
        }
        let log = Log::new(String::from_str(alloc, path)?);
        self.seen.insert(place, log)?;
        Ok(Some(place))
    }
}

// How many of the paths come before this one.
fn count_below(logs: &[Log], path: &str) -> usize
    ensures within { result ≤ length logs.now }
    ensures place { AreRising logs.now → IsPathEnd logs.now path.now result }
{
    logs.partition_point(|log| comes_before(log.path.as_str(), path))
}

// The log at the place has the path.
fn has_path(logs: &[Log], place: usize, path: &str) -> bool
    ensures { IsTrue result ↔ IsAt logs.now place path.now }
{
    match logs.get(place) {
        Some(log) => log.path.as_str() == path,
        None => false,
    }
}
