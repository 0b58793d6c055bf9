//! What an agent's checkpoint says of the oldest generation of a log.

ghost use Rattle.std.specs.Prelude.{◌≡◌};
ghost use Rattle.chk_site.specs.History.{Every};
ghost use Rattle.chk_site.specs.Site.{Adds};
ghost use Rattle.chk_world.specs.Sight.{job};
ghost use Rattle.chk_checkpoint.specs.Faults.{CheckCause, FailsLast};
ghost use Rattle.chk_checkpoint.specs.Lines.{lines_of};
ghost use Rattle.chk_ctl_passed.specs.Passing.{HasPassed, Looks, Weighed};

use crate::judging::{Verdict, verdict_of};
use crate::oldest::find_oldest;
use chk_checkpoint::{CheckFault, Checkpoint, load_checkpoint};
use chk_site::{Site, Who};
use std::alloc::Global;

/// What the checkpoint of the agent says of the oldest generation of the log at `path` that is
/// there: it is `Passed` only where the checkpoint is behind that generation with each stream that
/// it has of the log, also with those that were stopped, since they may be added again. The
/// checkpoint is read first, so that it may only have gone on where the log is looked at.
///
/// It costs the reads of the checkpoint, which is held whole, and those of the oldest generation.
pub fn has_passed<S: Site>(
    alloc: Global,
    site: &mut S,
    who: &Who,
    agent: &Who,
    path: &str,
) -> Result<Verdict, CheckFault>
    requires job { who.now ≡ job }
    ensures told { HasPassed agent.now path.now result (S.told site.old) (S.told site.new) }
    ensures own { Adds (S.told site.old) (S.told site.new) (Every (Looks agent.now path.now)) }
    ensures last { Adds (S.told site.old) (S.told site.new) (FailsLast result) }
    ensures cause { CheckCause (S.fault_count site.old) (S.fault_count site.new) result }
{
    match load_checkpoint(alloc, site, agent) {
        Ok(check) => weigh(alloc, site, who, &check, path),
        Err(fault) => Err(fault),
    }
}

/// The same by the lines of this checkpoint.
fn weigh<S: Site>(
    alloc: Global,
    site: &mut S,
    who: &Who,
    check: &Checkpoint,
    path: &str,
) -> Result<Verdict, CheckFault>
    requires job { who.now ≡ job }
    ensures told { Weighed (lines_of check.now) path.now result (S.told site.old)
        (S.told site.new) }
    ensures last { Adds (S.told site.old) (S.told site.new) (FailsLast result) }
    ensures cause { CheckCause (S.fault_count site.old) (S.fault_count site.new) result }
{
    match find_oldest(alloc, site, who, path) {
        Ok(oldest) => Ok(verdict_of(&check.lines, path, &oldest)),
        Err(fault) => Err(CheckFault::from(fault)),
    }
}
