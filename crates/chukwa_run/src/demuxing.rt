//! The demux job as a command.

ghost use Rattle.std.specs.Prelude.{◌≡◌, ℕ, List, map};
ghost use Rattle.chk_site.specs.History.{History};
ghost use Rattle.chk_site.specs.Site.{Adds};
ghost use Rattle.chk_site.specs.Runs.{Leads};
ghost use Rattle.chk_demux.specs.Demuxed.{NamesStamped};
ghost use Rattle.chk_cmd_line.specs.Commands.{Demux};
ghost use Rattle.chukwa_run.specs.Processes.{RunSide};
ghost use Rattle.chukwa_run.specs.Runs.{Begins, EndsWith, CausedBy};
ghost use Rattle.chukwa_run.specs.Causes.{EndingCause};
ghost use Rattle.chukwa_run.specs.Statuses.{HasItsStatus};

use crate::archiving::ending_of;
use chk_cmd_demux::run_demux;
use chk_cmd_line::Ending;
use chk_round::job;
use chk_site::Site;
use std::alloc::Global;

/// Runs the demux job once, with these types split by time stamps, and prints its report.
pub fn run_split<S: Site>(alloc: Global, site: &mut S, kinds: &[&str]) -> Result<(), Ending>
    ensures told { (stamped : List (List ℕ)) (earlier : History) → NamesStamped stamped (map (λ t. t.now) kinds.now)
        → Adds (S.told site.old) (S.told site.new)
        (Leads (RunSide stamped (Demux (map (λ t. t.now) kinds.now))) (Begins stamped earlier)
        (EndsWith stamped (Demux (map (λ t. t.now) kinds.now)) result earlier)) }
    ensures causes { Adds (S.told site.old) (S.told site.new) (CausedBy (Demux (map (λ t. t.now) kinds.now)) result) }
    ensures cause { EndingCause (S.fault_count site.old) (S.fault_count site.new) result }
    ensures status { HasItsStatus (Demux (map (λ t. t.now) kinds.now)) result }
{
    let Ok(who) = job(alloc) else {
        return Err(Ending::NoMemory);
    };
    match run_demux(alloc, site, &who, kinds) {
        Ok(_report) => Ok(()),
        Err(fault) => Err(ending_of(fault)),
    }
}
