//! Whether agents have read what a rotation would remove.

ghost use Rattle.std.specs.Prelude.{◌≡◌};
ghost use Rattle.chk_site.specs.History.{Every};
ghost use Rattle.chk_site.specs.Site.{Adds};
ghost use Rattle.chk_world.specs.Sight.{job};
ghost use Rattle.chk_ctl_line.specs.Commands.{passed_of, Passed};
ghost use Rattle.chk_ctl_run.specs.Calls.{IsOfAsked};
ghost use Rattle.chk_ctl_run.specs.Outcomes.{OutcomeCause};
ghost use Rattle.chk_ctl_run.specs.Passing.{passed_as, ShowsPassed};

use crate::outcome::{Outcome, outcome_of_job};
use chk_ctl_line::PassedWords;
use chk_ctl_passed::{Verdict, all_have_passed};
use chk_site::{Site, Who};
use std::alloc::Global;

/// Weighs the checkpoints of the agents of this folder. It prints nothing.
pub(crate) fn show_passed<S: Site>(
    alloc: Global,
    site: &mut S,
    who: &Who,
    words: &PassedWords<'_>,
) -> Outcome
    requires job { who.now ≡ job }
    ensures told { ShowsPassed (passed_of words.now) result (S.told site.old) (S.told site.new) }
    ensures own { Adds (S.told site.old) (S.told site.new)
        (Every (IsOfAsked (Passed (passed_of words.now)))) }
    ensures cause { OutcomeCause (S.fault_count site.old) (S.fault_count site.new) result }
{
    match all_have_passed(alloc, site, who, words.log) {
        Ok(verdict) => passed_as(verdict),
        Err(fault) => outcome_of_job(fault),
    }
}

/// The outcome of a verdict.
fn passed_as(verdict: Verdict) -> Outcome
    ensures { result ≡ passed_as verdict }
{
    match verdict {
        Verdict::Passed => Outcome::Done,
        Verdict::Behind => Outcome::Behind,
        Verdict::Unknown => Outcome::Unknown,
    }
}
