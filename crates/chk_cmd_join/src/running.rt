//! A join, and what it prints.

ghost use Rattle.std.specs.Prelude.{◌≡◌, ℕ, List, IsTrue, IfErr};
ghost use Rattle.chk_site.specs.History.{Every};
ghost use Rattle.chk_site.specs.Site.{Adds};
ghost use Rattle.chk_site.specs.Runs.{Leads};
ghost use Rattle.chk_world.specs.Places.{As};
ghost use Rattle.chk_world.specs.Rules.{Legal};
ghost use Rattle.chk_world.specs.Sight.{job};
ghost use Rattle.chk_world.specs.JobSteps.{IsOf};
ghost use Rattle.chk_join.specs.Faults.{IsJoinFault, JoinFailsLast, JoinCause};
ghost use Rattle.chk_join.specs.Joined.{can_join};
ghost use Rattle.chk_cmd_join.specs.Telling.{JoinsAndTells, IsTold, EndsRunning, ShowsJoin};

use crate::telling::print_report;
use chk_join::{JoinFault, JoinReport, join};
use chk_site::{Site, Who};
use std::alloc::Global;

/// Joins the archives in the folders `left` and `right` into `joined`, and prints the report with
/// one call. Where that call fails the book stays published.
pub fn run_join<S: Site>(
    alloc: Global,
    site: &mut S,
    who: &Who,
    left: &str,
    right: &str,
) -> Result<JoinReport, JoinFault>
    requires job { who.now ≡ job }
    requires left { IsTrue (can_join left.now) }
    requires right { IsTrue (can_join right.now) }
    ensures told { (stamped : List (List ℕ)) → Adds (S.told site.old) (S.told site.new)
        (Leads (As stamped job) (Legal stamped) (Legal stamped)) }
    ensures shown { Adds (S.told site.old) (S.told site.new) (ShowsJoin left.now right.now result) }
    ensures own { Adds (S.told site.old) (S.told site.new) (Every (IsOf JoinsAndTells)) }
    ensures prints { Adds (S.told site.old) (S.told site.new) (IsTold result) }
    ensures runs { Adds (S.told site.old) (S.told site.new) (EndsRunning result) }
    ensures only { IfErr result IsJoinFault }
    ensures last { Adds (S.told site.old) (S.told site.new) (JoinFailsLast result) }
    ensures cause { JoinCause (S.fault_count site.old) (S.fault_count site.new) result }
{
    match join(alloc, site, who, left, right) {
        Ok(report) => print_report(alloc, site, who, report),
        Err(fault) => Err(fault),
    }
}
