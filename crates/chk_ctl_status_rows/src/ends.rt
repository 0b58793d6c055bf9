//! How far a log goes.

ghost use Rattle.std.specs.Prelude.{◌≡◌};
ghost use Rattle.chk_site.specs.Site.{OutsideCause};
ghost use Rattle.chk_world.specs.Checkpoints.{after_text};
ghost use Rattle.chk_checkpoint.specs.Lines.{shown};
ghost use Rattle.chk_ctl_status_rows.specs.Ends.{base_end, FindsBase, FindsEnd, FindsRotated, SumsOn};

use crate::probing::{Next, Probe, read_at, see};
use chk_checkpoint::CheckLine;
use chk_control::Class;
use chk_rotate::Place;
use chk_site::{LOG_END, OutsideFault, Part, Site, Suffix, Who};
use std::alloc::Global;

/// Of so many generations behind the first the sizes are added up.
pub const MOST_GENERATIONS: u32 = 1_000;

/// The offset of the stream up to which its log goes: the sizes of the generations that aren't
/// passed, behind the offset at which the first of them begins. None where the log changed while
/// it was looked at, or has more than 1,001 of them.
///
/// It costs one read of `LWFTAdaptor`'s log, and of another two a generation, of a byte each.
pub fn log_end<S: Site>(
    alloc: Global,
    site: &mut S,
    who: &Who,
    line: &CheckLine,
) -> Result<Option<u64>, OutsideFault>
    ensures told { FindsEnd who.now (shown line.now) result (S.told site.old) (S.told site.new) }
    ensures cause { OutsideCause (S.fault_count site.old) (S.fault_count site.new) result }
{
    match line.class {
        Class::Plain => base_end(alloc, site, who, line.path.as_str(), line.place.first),
        Class::Rotating => rotated_end(alloc, site, who, line.path.as_str(), &line.place),
        Class::Lines => rotated_end(alloc, site, who, line.path.as_str(), &line.place),
    }
}

/// The same of a log of which the base file alone is read.
fn base_end<S: Site>(
    alloc: Global,
    site: &mut S,
    who: &Who,
    path: &str,
    first: u64,
) -> Result<Option<u64>, OutsideFault>
    ensures told { FindsBase who.now path.now first result (S.told site.old) (S.told site.new) }
    ensures cause { OutsideCause (S.fault_count site.old) (S.fault_count site.new) result }
{
    let given = read_at(alloc, site, who, path, Part::Base, LOG_END);
    end_by(first, given)
}

fn end_by(first: u64, given: Result<Probe, OutsideFault>) -> Result<Option<u64>, OutsideFault>
    ensures { result ≡ base_end first given }
{
    match given {
        Ok(Probe::Short(size)) => Ok(Some(first.saturating_add(size))),
        Ok(_) => Ok(None),
        Err(fault) => Err(fault),
    }
}

/// The same of a log that is rotated.
fn rotated_end<S: Site>(
    alloc: Global,
    site: &mut S,
    who: &Who,
    path: &str,
    place: &Place,
) -> Result<Option<u64>, OutsideFault>
    ensures told { FindsRotated who.now path.now place.now.after place.now.first result
        (S.told site.old) (S.told site.new) }
    ensures cause { OutsideCause (S.fault_count site.old) (S.fault_count site.new) result }
{
    match see(alloc, site, who, path, place.after.as_ref(), place.first) {
        Ok(Next::More(suffix, end)) => sum_on(alloc, site, who, path, suffix, end),
        Ok(Next::Last(end)) => Ok(Some(end)),
        Ok(Next::Changed) => Ok(None),
        Err(fault) => Err(fault),
    }
}

/// The same behind this suffix, from the offset `end` on.
fn sum_on<S: Site>(
    alloc: Global,
    site: &mut S,
    who: &Who,
    path: &str,
    mut suffix: Suffix,
    mut end: u64,
) -> Result<Option<u64>, OutsideFault>
    ensures told { SumsOn who.now path.now result 0 suffix end (S.told site.old)
        (S.told site.new) }
    ensures cause { OutsideCause (S.fault_count site.old) (S.fault_count site.new) result }
{
    for _seen in 0..MOST_GENERATIONS {
        match see(alloc, site, who, path, Some(&suffix), end) {
            Ok(Next::More(next, further)) => {
                suffix = next;
                end = further;
            }
            Ok(Next::Last(last)) => return Ok(Some(last)),
            Ok(Next::Changed) => return Ok(None),
            Err(fault) => return Err(fault),
        }
    }
    Ok(None)
}
