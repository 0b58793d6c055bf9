//! The size of one generation of a log.

ghost use Rattle.std.specs.Prelude.{◌≡◌};
ghost use Rattle.chk_site.specs.Site.{part_text, OutsideCause};
ghost use Rattle.chk_world.specs.Checkpoints.{after_text};
ghost use Rattle.chk_ctl_status_rows.specs.Ends.{next_by, opened, size_shown, stepped};
ghost use Rattle.std.specs.Option.{option_copied};
ghost use Rattle.chk_ctl_status_rows.specs.Ends.{BySize, Probes, Sees, SeesEnd};

use chk_site::{Call, CallFault, LOG_END, OutsideFault, Part, Piece, Site, Suffix, Who};
use std::alloc::Global;

/// What a read of a generation shows.
#[derive(Drop)]
pub(crate) enum Probe {
    /// It has so many bytes, and ends before the place.
    Short(u64),
    /// It is the rotated one with this suffix, and the read reached its end.
    Ended(Suffix),
    /// Neither.
    Open,
}

/// What is seen of a generation.
#[derive(Drop)]
pub(crate) enum Next {
    /// It is the last one, and goes up to this offset.
    Last(u64),
    /// It is the rotated one with this suffix; the next one begins at this offset.
    More(Suffix, u64),
    /// The log changed meanwhile.
    Changed,
}

/// The first generation behind this suffix, which begins at the offset `first`.
pub(crate) fn see<S: Site>(
    alloc: Global,
    site: &mut S,
    who: &Who,
    path: &str,
    after: Option<&Suffix>,
    first: u64,
) -> Result<Next, OutsideFault>
    ensures told { Sees who.now path.now (after_text (option_copied after.entry)) first result
        (S.told site.old) (S.told site.new) }
    ensures cause { OutsideCause (S.fault_count site.old) (S.fault_count site.new) result }
{
    match read_at(alloc, site, who, path, Part::After(after), LOG_END) {
        Ok(probe) => see_by(alloc, site, who, path, after, first, size_shown(probe)),
        Err(fault) => Err(fault),
    }
}

/// The same, where a read far behind its end shows this.
fn see_by<S: Site>(
    alloc: Global,
    site: &mut S,
    who: &Who,
    path: &str,
    after: Option<&Suffix>,
    first: u64,
    size: Option<u64>,
) -> Result<Next, OutsideFault>
    ensures told { BySize who.now path.now (after_text (option_copied after.entry)) first size
        result (S.told site.old) (S.told site.new) }
    ensures cause { OutsideCause (S.fault_count site.old) (S.fault_count site.new) result }
{
    match size {
        Some(size) => see_end(alloc, site, who, path, after, first, size),
        None => Ok(Next::Changed),
    }
}

fn size_shown(probe: Probe) -> Option<u64>
    ensures { result ≡ size_shown probe }
{
    match probe {
        Probe::Short(size) => Some(size),
        _ => None,
    }
}

/// The same, where it has this size: a read at its end tells whether it is a rotated one.
fn see_end<S: Site>(
    alloc: Global,
    site: &mut S,
    who: &Who,
    path: &str,
    after: Option<&Suffix>,
    first: u64,
    size: u64,
) -> Result<Next, OutsideFault>
    ensures told { SeesEnd who.now path.now (after_text (option_copied after.entry)) first size
        result (S.told site.old) (S.told site.new) }
    ensures cause { OutsideCause (S.fault_count site.old) (S.fault_count site.new) result }
{
    let given = read_at(alloc, site, who, path, Part::After(after), size);
    next_by(first, size, given)
}

fn next_by(first: u64, size: u64, given: Result<Probe, OutsideFault>) -> Result<Next, OutsideFault>
    ensures { result ≡ next_by first size given }
{
    match given {
        Ok(probe) => Ok(stepped(first, size, probe)),
        Err(fault) => Err(fault),
    }
}

fn stepped(first: u64, size: u64, probe: Probe) -> Next
    ensures { result ≡ stepped first size probe }
{
    match probe {
        Probe::Short(_) => Next::Changed,
        Probe::Ended(suffix) => Next::More(suffix, first.saturating_add(size)),
        Probe::Open => Next::Last(first.saturating_add(size)),
    }
}

/// What a read of one byte at this place shows of the part's first generation.
pub(crate) fn read_at<S: Site>(
    alloc: Global,
    site: &mut S,
    who: &Who,
    path: &str,
    part: Part<'_>,
    at: u64,
) -> Result<Probe, OutsideFault>
    ensures told { Probes who.now path.now (part_text part.entry) at result (S.told site.old)
        (S.told site.new) }
    ensures cause { OutsideCause (S.fault_count site.old) (S.fault_count site.new) result }
{
    match site.log_read(alloc, who, path, part, at, 1) {
        Ok(piece) => Ok(opened(piece)),
        Err(CallFault::Short { size }) => Ok(Probe::Short(size)),
        Err(CallFault::Failed) => Err(OutsideFault::Outside {
            call: Call::LogRead,
        }),
        Err(CallFault::NoMemory) => Err(OutsideFault::NoMemory),
        Err(_) => unreachable!(),
    }
}

fn opened(piece: Piece) -> Probe
    ensures { result ≡ opened piece.ended }
{
    let Piece { bytes: _, ended } = piece;
    match ended {
        Some(suffix) => Probe::Ended(suffix),
        None => Probe::Open,
    }
}
