//! What a start would refuse or skip.

ghost use Rattle.std.specs.Prelude.{◌≡◌, map, IsTrue};
ghost use Rattle.chk_ctl_check.specs.Checking.{ChecksBy};
ghost use Rattle.chk_ctl_line.specs.Commands.{check_of};
ghost use Rattle.chk_ctl_line.specs.Names.{are_collectors};
ghost use Rattle.chk_ctl_run.specs.Checking.{checked_as, CheckedCause, ShowsChecked};
ghost use Rattle.chk_site.specs.History.{Every};
ghost use Rattle.chk_site.specs.Site.{Adds};
ghost use Rattle.chk_world.specs.JobSteps.{IsOf};
ghost use Rattle.chk_world.specs.Sight.{job};

use crate::outcome::{Outcome, told_as};
use chk_ctl_check::{Checked, check};
use chk_ctl_line::CheckWords;
use chk_site::{OutsideFault, Site, Who};
use std::alloc::Global;

/// Prints a line for each thing that is wrong with the initial file, and for each collector that
/// doesn't answer.
pub(crate) fn show_checked<S: Site>(
    alloc: Global,
    site: &mut S,
    who: &Who,
    words: &CheckWords<'_>,
) -> Outcome
    requires job { who.now ≡ job }
    requires words { IsTrue (are_collectors (map (λ a. a.now) words.now.collectors.items)) }
    ensures told { ShowsChecked (check_of words.now) result (S.told site.old) (S.told site.new) }
    ensures own { Adds (S.told site.old) (S.told site.new) (Every (IsOf ChecksBy)) }
    ensures cause { CheckedCause (S.fault_count site.old) (S.fault_count site.new) result }
{
    let given = check(alloc, site, who, words.file, &words.collectors);
    checked_as(given)
}

/// The outcome of a check.
fn checked_as(given: Result<Checked, OutsideFault>) -> Outcome
    ensures { result ≡ checked_as given }
{
    match given {
        Ok(Checked::NoFile) => Outcome::NoFile,
        Ok(Checked::Fine) => Outcome::Done,
        Ok(Checked::Found) => Outcome::Found,
        Err(fault) => told_as(Err(fault)),
    }
}
