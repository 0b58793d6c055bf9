//! Bytes compared with a log that is read on.

ghost use Rattle.std.specs.Prelude.{◌≡◌, ◌<◌, List, ℕ, length, Option};
ghost use Rattle.chk_site.specs.History.{Every, History};
ghost use Rattle.chk_site.specs.Site.{Adds, OutsideCause};
ghost use Rattle.chk_rotate.specs.Readers.{Reader};
ghost use Rattle.chk_world.specs.JobSteps.{IsOf};
ghost use Rattle.chk_world.specs.Sight.{job};
ghost use Rattle.chk_ctl_audit_log.specs.Placing.{ReadsLogOf};
ghost use Rattle.chk_ctl_audit_log.specs.Ahead.{LogAt};
ghost use Rattle.chk_ctl_audit_log.specs.Meeting.{IsNext, NextMet, RestMet};

use crate::ahead::{Ahead, Next};
use chk_ctl_sum::behind;
use chk_site::{OutsideFault, Site, Who};
use std::alloc::Global;

/// Where the archive of a stream and its log part.
#[derive(Clone, Copy, Debug, PartialEq, Eq)]
pub enum Met {
    /// Nowhere: the log has all that the archive has.
    All,
    /// At this offset both have a byte, and these differ.
    Differs(u64),
    /// The log, as it was read, ends at this offset, before the archive.
    Ends(u64),
}

/// Compares the first of these bytes with what the log has next, of which it reads some where none
/// is left.
fn compare_next<S: Site>(
    alloc: Global,
    site: &mut S,
    who: &Who,
    log: &mut Ahead,
    rest: &[u8],
) -> Result<Next, OutsideFault>
    requires job { who.now ≡ job }
    requires some { 0 < length rest.now }
    ensures told { (from : Reader) (passed : List ℕ) (before : Option History)
        → LogAt who.now from passed log.old before (S.told site.old)
        → NextMet who.now from passed rest.now log.new before result (S.told site.new) }
    ensures own { Adds (S.told site.old) (S.told site.new)
        (Every (IsOf (ReadsLogOf log.old.reader.path))) }
    ensures path { log.new.reader.path ≡ log.old.reader.path }
    ensures next { IsNext rest.now result }
    ensures cause { OutsideCause (S.fault_count site.old) (S.fault_count site.new) result }
{
    let at = log.place();
    match log.fill(alloc, site, who) {
        Ok(true) => Ok(log.pass(rest)),
        Ok(false) => Ok(Next::Ends(at)),
        Err(fault) => Err(fault),
    }
}

/// Compares these bytes with what the log has next, up to the first ones that differ.
pub(crate) fn compare_rest<S: Site>(
    alloc: Global,
    site: &mut S,
    who: &Who,
    log: &mut Ahead,
    rest: &[u8],
) -> Result<Met, OutsideFault>
    requires job { who.now ≡ job }
    ensures told { (from : Reader) (passed : List ℕ) (before : Option History)
        → LogAt who.now from passed log.old before (S.told site.old)
        → RestMet who.now from passed rest.now log.new before result (S.told site.new) }
    ensures own { Adds (S.told site.old) (S.told site.new)
        (Every (IsOf (ReadsLogOf log.old.reader.path))) }
    ensures path { log.new.reader.path ≡ log.old.reader.path }
    ensures cause { OutsideCause (S.fault_count site.old) (S.fault_count site.new) result }
{
    let mut done = 0;
    while done < rest.len() {
        match compare_next(alloc, site, who, log, behind(rest, done as u64)) {
            Ok(Next::Same(count)) => done += count,
            Ok(Next::Differs(at)) => return Ok(Met::Differs(at)),
            Ok(Next::Ends(at)) => return Ok(Met::Ends(at)),
            Err(fault) => return Err(fault),
        }
    }
    Ok(Met::All)
}
