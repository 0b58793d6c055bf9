//! The streams of a store of which chunks are set aside.

ghost use Rattle.std.specs.Prelude.{◌≡◌, length};
ghost use Rattle.chk_site.specs.History.{Every};
ghost use Rattle.chk_site.specs.Site.{Adds};
ghost use Rattle.chk_world.specs.JobSteps.{IsOf};
ghost use Rattle.chk_world.specs.Sight.{job};
ghost use Rattle.chk_ctl_streams.specs.Following.{LooksAgain};
ghost use Rattle.chk_ctl_run.specs.Outcomes.{OutcomeCause};
ghost use Rattle.chk_ctl_run.specs.Finding.{InStore};
ghost use Rattle.chk_ctl_run.specs.Holding.{held_as, ShowsHeld, TellsHeld};

use crate::finding::find_archive;
use crate::outcome::{Outcome, outcome_of_job};
use crate::showing::ARCHIVE;
use chk_ctl_held::{Waiting, find_waiting, print_waiting};
use chk_site::{OutsideFault, Site, Who};
use std::alloc::Global;

/// Prints what is missing and what waits of each stream of which chunks are set aside; damage
/// ends it before the first line.
pub(crate) fn show_held<S: Site>(alloc: Global, site: &mut S, who: &Who) -> Outcome
    requires job { who.now ≡ job }
    ensures told { InStore ShowsHeld result (S.told site.old) (S.told site.new) }
    ensures own { Adds (S.told site.old) (S.told site.new) (Every (IsOf LooksAgain)) }
    ensures cause { OutcomeCause (S.fault_count site.old) (S.fault_count site.new) result }
{
    match find_archive(alloc, site, who) {
        Ok(()) => show_waiting(alloc, site, who),
        Err(outcome) => outcome,
    }
}

/// The same of a store that has an archive.
fn show_waiting<S: Site>(alloc: Global, site: &mut S, who: &Who) -> Outcome
    requires job { who.now ≡ job }
    ensures told { ShowsHeld result (S.told site.old) (S.told site.new) }
    ensures own { Adds (S.told site.old) (S.told site.new) (Every (IsOf LooksAgain)) }
    ensures cause { OutcomeCause (S.fault_count site.old) (S.fault_count site.new) result }
{
    match find_waiting(alloc, site, who, ARCHIVE) {
        Ok(waiting) => tell_held(alloc, site, who, &waiting),
        Err(fault) => outcome_of_job(fault),
    }
}

/// Prints the lines of what waits.
fn tell_held<S: Site>(alloc: Global, site: &mut S, who: &Who, waiting: &Waiting) -> Outcome
    requires job { who.now ≡ job }
    ensures told { TellsHeld waiting.now result (S.told site.old) (S.told site.new) }
    ensures own { Adds (S.told site.old) (S.told site.new) (Every (IsOf LooksAgain)) }
    ensures cause { OutcomeCause (S.fault_count site.old) (S.fault_count site.new) result }
{
    let given = print_waiting(alloc, site, who, waiting);
    held_as(waiting.heads.len(), given)
}

/// The outcome of the lines, where so many chunks wait.
fn held_as(count: usize, given: Result<(), OutsideFault>) -> Outcome
    ensures { result ≡ held_as count given }
{
    match given {
        Ok(()) if count == 0 => Outcome::Done,
        Ok(()) => Outcome::Waits,
        Err(OutsideFault::Outside { call }) => Outcome::Outside { call },
        Err(OutsideFault::NoMemory) => Outcome::NoMemory,
    }
}
