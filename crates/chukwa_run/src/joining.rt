//! A join as a command.

ghost use Rattle.std.specs.Prelude.{◌≡◌, ℕ, List};
ghost use Rattle.chk_site.specs.History.{History};
ghost use Rattle.chk_site.specs.Site.{Adds};
ghost use Rattle.chk_site.specs.Runs.{Leads};
ghost use Rattle.chk_cmd_line.specs.Commands.{Join};
ghost use Rattle.chk_cmd_line.specs.Joining.{IsGoodJoin, join_of};
ghost use Rattle.chukwa_run.specs.Causes.{EndingCause};
ghost use Rattle.chukwa_run.specs.Joining.{join_ending};
ghost use Rattle.chukwa_run.specs.Processes.{RunSide};
ghost use Rattle.chukwa_run.specs.Runs.{Begins, CausedBy, EndsWith};
ghost use Rattle.chukwa_run.specs.Statuses.{HasItsStatus};

use crate::archiving::ending_of;
use chk_cmd_join::run_join;
use chk_cmd_line::{Ending, JoinWords};
use chk_join::JoinFault;
use chk_round::job;
use chk_site::Site;
use std::alloc::Global;

/// Joins the archives in both folders into `joined`, and prints the report.
pub fn run_joining<S: Site>(
    alloc: Global,
    site: &mut S,
    given: &JoinWords<'_>,
) -> Result<(), Ending>
    requires good { IsGoodJoin (join_of given.now) }
    ensures told { (stamped : List (List ℕ)) (earlier : History)
        → Adds (S.told site.old) (S.told site.new)
        (Leads (RunSide stamped (Join (join_of given.now))) (Begins stamped earlier)
        (EndsWith stamped (Join (join_of given.now)) result earlier)) }
    ensures causes { Adds (S.told site.old) (S.told site.new)
        (CausedBy (Join (join_of given.now)) result) }
    ensures cause { EndingCause (S.fault_count site.old) (S.fault_count site.new) result }
    ensures status { HasItsStatus (Join (join_of given.now)) result }
{
    let Ok(who) = job(alloc) else {
        return Err(Ending::NoMemory);
    };
    match run_join(alloc, site, &who, given.left, given.right) {
        Ok(_report) => Ok(()),
        Err(fault) => Err(join_ending(fault)),
    }
}

fn join_ending(fault: JoinFault) -> Ending
    ensures { result ≡ join_ending fault }
{
    match fault {
        JoinFault::Job { fault } => ending_of(fault),
        JoinFault::Differ {
            source,
            kind,
            name,
            at,
        } => Ending::Differ {
            source,
            kind,
            name,
            at,
        },
        JoinFault::NoMemory => Ending::NoMemory,
    }
}
