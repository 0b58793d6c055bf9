//! The archive job as a command.

ghost use Rattle.std.specs.Prelude.{◌≡◌, ℕ, List};
ghost use Rattle.chk_site.specs.History.{History};
ghost use Rattle.chk_site.specs.Site.{Adds};
ghost use Rattle.chk_site.specs.Runs.{Leads};
ghost use Rattle.chk_cmd_line.specs.Commands.{Archive};
ghost use Rattle.chukwa_run.specs.Processes.{RunSide};
ghost use Rattle.chukwa_run.specs.Runs.{Begins, EndsWith, CausedBy};
ghost use Rattle.chukwa_run.specs.Causes.{EndingCause};
ghost use Rattle.chukwa_run.specs.JobFaults.{job_ending};
ghost use Rattle.chukwa_run.specs.Statuses.{HasItsStatus};

use chk_archive::JobFault;
use chk_cmd_archive::run_archive;
use chk_cmd_line::Ending;
use chk_round::job;
use chk_site::Site;
use std::alloc::Global;

/// Runs the archive job once, and prints its report and where each stream's archive ends.
pub fn run_job<S: Site>(alloc: Global, site: &mut S) -> Result<(), Ending>
    ensures told { (stamped : List (List ℕ)) (earlier : History) → Adds (S.told site.old) (S.told site.new)
        (Leads (RunSide stamped Archive) (Begins stamped earlier) (EndsWith stamped Archive result earlier)) }
    ensures causes { Adds (S.told site.old) (S.told site.new) (CausedBy Archive result) }
    ensures cause { EndingCause (S.fault_count site.old) (S.fault_count site.new) result }
    ensures status { HasItsStatus Archive result }
{
    let Ok(who) = job(alloc) else {
        return Err(Ending::NoMemory);
    };
    match run_archive(alloc, site, &who) {
        Ok(_report) => Ok(()),
        Err(fault) => Err(ending_of(fault)),
    }
}

/// The same fault.
pub(crate) fn ending_of(fault: JobFault) -> Ending
    ensures { result ≡ job_ending fault }
{
    match fault {
        JobFault::Outside { call } => Ending::Outside { call },
        JobFault::Damaged { name, at } => Ending::Damaged { name, at },
        JobFault::Spent { number } => Ending::Spent { number },
        JobFault::NoMemory => Ending::NoMemory,
    }
}
