//! The digests of a store's archive.

ghost use Rattle.std.specs.Prelude.{◌≡◌};
ghost use Rattle.chk_site.specs.History.{Every};
ghost use Rattle.chk_site.specs.Site.{Adds};
ghost use Rattle.chk_world.specs.JobSteps.{IsOf};
ghost use Rattle.chk_world.specs.Sight.{job};
ghost use Rattle.chk_ctl_streams.specs.Following.{LooksAgain};
ghost use Rattle.chk_ctl_run.specs.Outcomes.{OutcomeCause};
ghost use Rattle.chk_ctl_run.specs.Finding.{InStore};
ghost use Rattle.chk_ctl_run.specs.Summing.{ShowsSums, TellsSums};

use crate::finding::find_archive;
use crate::outcome::{Outcome, outcome_of_job, told_as};
use crate::showing::ARCHIVE;
use chk_ctl_sum::{Sums, print_sums, sum};
use chk_site::{Site, Who};
use std::alloc::Global;

/// Prints the digest of each stream's archive; damage ends it before the first line.
pub(crate) fn show_sums<S: Site>(alloc: Global, site: &mut S, who: &Who) -> Outcome
    requires job { who.now ≡ job }
    ensures told { InStore ShowsSums result (S.told site.old) (S.told site.new) }
    ensures own { Adds (S.told site.old) (S.told site.new) (Every (IsOf LooksAgain)) }
    ensures cause { OutcomeCause (S.fault_count site.old) (S.fault_count site.new) result }
{
    match find_archive(alloc, site, who) {
        Ok(()) => sum_archive(alloc, site, who),
        Err(outcome) => outcome,
    }
}

/// The same of a store that has an archive.
fn sum_archive<S: Site>(alloc: Global, site: &mut S, who: &Who) -> Outcome
    requires job { who.now ≡ job }
    ensures told { ShowsSums result (S.told site.old) (S.told site.new) }
    ensures own { Adds (S.told site.old) (S.told site.new) (Every (IsOf LooksAgain)) }
    ensures cause { OutcomeCause (S.fault_count site.old) (S.fault_count site.new) result }
{
    match sum(alloc, site, who, ARCHIVE) {
        Ok(sums) => tell_sums(alloc, site, who, &sums),
        Err(fault) => outcome_of_job(fault),
    }
}

/// Prints the lines of these digests.
fn tell_sums<S: Site>(alloc: Global, site: &mut S, who: &Who, sums: &Sums) -> Outcome
    requires job { who.now ≡ job }
    ensures told { TellsSums sums.now result (S.told site.old) (S.told site.new) }
    ensures own { Adds (S.told site.old) (S.told site.new) (Every (IsOf LooksAgain)) }
    ensures cause { OutcomeCause (S.fault_count site.old) (S.fault_count site.new) result }
{
    let given = print_sums(alloc, site, who, sums);
    told_as(given)
}
