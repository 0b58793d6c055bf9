//! An archive run, and what it prints.

ghost use Rattle.std.specs.Prelude.{◌≡◌, ℕ, List};
ghost use Rattle.chk_site.specs.History.{Every};
ghost use Rattle.chk_site.specs.Site.{Adds};
ghost use Rattle.chk_site.specs.Runs.{Leads};
ghost use Rattle.chk_world.specs.Books.{Book as Parts};
ghost use Rattle.chk_world.specs.Places.{As};
ghost use Rattle.chk_world.specs.Sight.{job};
ghost use Rattle.chk_world.specs.JobSteps.{IsOf};
ghost use Rattle.chk_record_index.specs.Faults.{JobCause, FailsLast};
ghost use Rattle.chk_archive.specs.Archived.{Archived, Begun, ListedOnce};
ghost use Rattle.chk_archive.specs.Reporting.{report_result};
ghost use Rattle.chk_archive.specs.Shown.{ShowsArchived};
ghost use Rattle.chk_cmd_archive.specs.Telling.{ArchivesAndTells, IsTold, EndsRunning};

use crate::telling::tell;
use chk_archive::{JobFault, Report, archive};
use chk_site::{Site, Who};
use std::alloc::Global;

/// Runs the archive job once, and prints its report and then a line for each stream of the book, each with a call of its own.
/// Where a call fails nothing more is printed; what was archived stays so.
pub fn run_archive<S: Site>(alloc: Global, site: &mut S, who: &Who) -> Result<Report, JobFault>
    requires { who.now ≡ job }
    ensures told { (stamped : List (List ℕ)) (loaded : Parts) → Adds (S.told site.old) (S.told site.new)
        (Leads (As stamped job) (Begun stamped loaded) (Archived stamped loaded (report_result result))) }
    ensures own { Adds (S.told site.old) (S.told site.new) (Every (IsOf ArchivesAndTells)) }
    ensures once { Adds (S.told site.old) (S.told site.new) (ListedOnce result) }
    ensures prints { Adds (S.told site.old) (S.told site.new) (IsTold (report_result result)) }
    ensures runs { Adds (S.told site.old) (S.told site.new) (EndsRunning result) }
    ensures shown { Adds (S.told site.old) (S.told site.new) (ShowsArchived result) }
    ensures last { Adds (S.told site.old) (S.told site.new) (FailsLast result) }
    ensures cause { JobCause (S.fault_count site.old) (S.fault_count site.new) result }
{
    let report = archive(alloc, site, who)?;
    tell(alloc, site, who, &report)?;
    Ok(report)
}
