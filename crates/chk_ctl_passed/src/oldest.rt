//! The oldest generation of a log.

ghost use Rattle.std.specs.Prelude.{◌≡◌, ◌<◌, ◌≤◌, length, IfOk};
ghost use Rattle.chk_site.specs.History.{Every};
ghost use Rattle.chk_site.specs.Site.{Adds, LastFailed, OutsideCause};
ghost use Rattle.chk_site.specs.declared.limits.TheConstants.{PIECE_BYTES};
ghost use Rattle.chk_world.specs.JobSteps.{IsOf};
ghost use Rattle.chk_world.specs.Sight.{job};
ghost use Rattle.chk_ctl_passed.specs.Oldest.{came_of, further, GoesUp, LooksAtLog};
ghost use Rattle.chk_ctl_passed.specs.Oldest.{SawNewest, SawOldest, SawRead};

use chk_site::{Call, CallFault, OutsideFault, Part, Piece, Site, Suffix, Who};
use std::alloc::Global;

/// The most bytes of one read.
const PIECE: u32 = 131_072;

/// The oldest generation of a log that is there.
#[derive(Drop)]
pub enum Oldest {
    /// No rotated generation is there, but at most the base file.
    Base,
    /// The rotated generation with this suffix.
    Rotated(Suffix),
    /// The log changed while it was looked for: at a read the oldest generation was shorter than
    /// what was read of the oldest one before.
    Changed,
}

/// What a read of the first generation showed.
#[derive(Drop)]
enum Came {
    /// It reached the end of the rotated generation with this suffix.
    Ended(Suffix),
    /// There is more, from this place on.
    More(u64),
    /// There is no rotated generation, and nothing more.
    Base,
    /// The generation is shorter.
    Changed,
}

/// Finds the oldest generation of the log at `path` that is there. A generation tells its suffix
/// only at its end, so one that is there is read to its end, in pieces of 131,072 bytes; where
/// there is none, one call is made and nothing is read.
pub fn find_oldest<S: Site>(
    alloc: Global,
    site: &mut S,
    who: &Who,
    path: &str,
) -> Result<Oldest, OutsideFault>
    requires job { who.now ≡ job }
    ensures saw { Adds (S.told site.old) (S.told site.new) (SawOldest path.now result) }
    ensures own { Adds (S.told site.old) (S.told site.new) (Every (IsOf (LooksAtLog path.now))) }
    ensures last { Adds (S.told site.old) (S.told site.new) (LastFailed result) }
    ensures cause { OutsideCause (S.fault_count site.old) (S.fault_count site.new) result }
{
    match has_rotated(alloc, site, who, path) {
        Ok(true) => read_oldest(alloc, site, who, path),
        Ok(false) => Ok(Oldest::Base),
        Err(fault) => Err(fault),
    }
}

/// Whether the log has a rotated generation.
fn has_rotated<S: Site>(
    alloc: Global,
    site: &mut S,
    who: &Who,
    path: &str,
) -> Result<bool, OutsideFault>
    requires job { who.now ≡ job }
    ensures saw { Adds (S.told site.old) (S.told site.new) (SawNewest path.now result) }
    ensures own { Adds (S.told site.old) (S.told site.new) (Every (IsOf (LooksAtLog path.now))) }
    ensures last { Adds (S.told site.old) (S.told site.new) (LastFailed result) }
    ensures cause { OutsideCause (S.fault_count site.old) (S.fault_count site.new) result }
{
    match site.log_newest(alloc, who, path) {
        Ok(newest) => Ok(newest.is_some()),
        Err(CallFault::Failed) => Err(OutsideFault::Outside {
            call: Call::LogNewest,
        }),
        Err(CallFault::NoMemory) => Err(OutsideFault::NoMemory),
        Err(_) => unreachable!(),
    }
}

/// Reads the first generation to its end.
fn read_oldest<S: Site>(
    alloc: Global,
    site: &mut S,
    who: &Who,
    path: &str,
) -> Result<Oldest, OutsideFault>
    requires job { who.now ≡ job }
    ensures saw { Adds (S.told site.old) (S.told site.new) (SawOldest path.now result) }
    ensures own { Adds (S.told site.old) (S.told site.new) (Every (IsOf (LooksAtLog path.now))) }
    ensures last { Adds (S.told site.old) (S.told site.new) (LastFailed result) }
    ensures cause { OutsideCause (S.fault_count site.old) (S.fault_count site.new) result }
{
    let mut at = 0;
    loop {
        match read_at(alloc, site, who, path, at) {
            Ok(Came::Ended(suffix)) => return Ok(Oldest::Rotated(suffix)),
            Ok(Came::More(next)) => at = next,
            Ok(Came::Base) => return Ok(Oldest::Base),
            Ok(Came::Changed) => return Ok(Oldest::Changed),
            Err(fault) => return Err(fault),
        }
    }
}

/// Reads a piece of the first generation.
fn read_at<S: Site>(
    alloc: Global,
    site: &mut S,
    who: &Who,
    path: &str,
    at: u64,
) -> Result<Came, OutsideFault>
    requires job { who.now ≡ job }
    ensures saw { Adds (S.told site.old) (S.told site.new) (SawRead path.now result) }
    ensures up { IfOk result (λ came. GoesUp at came) }
    ensures own { Adds (S.told site.old) (S.told site.new) (Every (IsOf (LooksAtLog path.now))) }
    ensures last { Adds (S.told site.old) (S.told site.new) (LastFailed result) }
    ensures cause { OutsideCause (S.fault_count site.old) (S.fault_count site.new) result }
{
    match site.log_read(alloc, who, path, Part::After(None), at, PIECE) {
        Ok(piece) => Ok(came_of(piece, at)),
        Err(CallFault::Short { .. }) => Ok(Came::Changed),
        Err(CallFault::Failed) => Err(OutsideFault::Outside {
            call: Call::LogRead,
        }),
        Err(CallFault::NoMemory) => Err(OutsideFault::NoMemory),
        Err(_) => unreachable!(),
    }
}

/// What a read at the place showed.
fn came_of(piece: Piece, at: u64) -> Came
    requires few { length piece.bytes ≤ PIECE_BYTES }
    ensures is { result ≡ came_of piece at }
    ensures up { GoesUp at result }
{
    let Piece { bytes, ended } = piece;
    match ended {
        Some(suffix) => Came::Ended(suffix),
        None => further(bytes.len() as u64, at),
    }
}

/// What a read that reached no rotated generation's end showed, by how many bytes it gave.
fn further(count: u64, at: u64) -> Came
    ensures is { result ≡ further count at }
    ensures up { GoesUp at result }
{
    if count == 0 {
        return Came::Base;
    }
    match at.checked_add(count) {
        Some(next) => Came::More(next),
        None => Came::Changed,
    }
}
