//! Lines of the program's own.

ghost use Rattle.std.specs.Prelude.{◌≡◌, IsTrue};
ghost use Rattle.chk_site.specs.History.{Every};
ghost use Rattle.chk_site.specs.Site.{Adds};
ghost use Rattle.chk_world.specs.ArchiveRuns.{is_one_line};
ghost use Rattle.chk_world.specs.JobSteps.{IsOf};
ghost use Rattle.chk_world.specs.Sight.{job};
ghost use Rattle.chk_ctl_streams.specs.Following.{LooksAgain};
ghost use Rattle.chk_ctl_line.specs.Usages.{usage_text};
ghost use Rattle.chk_ctl_run.specs.Outcomes.{OutcomeCause};
ghost use Rattle.chk_ctl_run.specs.Runs.{version_line, Tells};

use crate::outcome::{Outcome, told_as};
use chk_cmd_output::print_line;
use chk_ctl_line::Usage;
use chk_site::{Site, Who};
use std::alloc::Global;

/// The line of `--version`.
const VERSION: &str = "chukwactl 1.1.0\n";

/// Prints how a command is used.
pub(crate) fn tell_usage<S: Site>(alloc: Global, site: &mut S, who: &Who, usage: Usage) -> Outcome
    requires job { who.now ≡ job }
    ensures told { Tells (usage_text usage) result (S.told site.old) (S.told site.new) }
    ensures own { Adds (S.told site.old) (S.told site.new) (Every (IsOf LooksAgain)) }
    ensures cause { OutcomeCause (S.fault_count site.old) (S.fault_count site.new) result }
{
    tell(alloc, site, who, usage.text())
}

/// Prints the version.
pub(crate) fn tell_version<S: Site>(alloc: Global, site: &mut S, who: &Who) -> Outcome
    requires job { who.now ≡ job }
    ensures told { Tells version_line result (S.told site.old) (S.told site.new) }
    ensures own { Adds (S.told site.old) (S.told site.new) (Every (IsOf LooksAgain)) }
    ensures cause { OutcomeCause (S.fault_count site.old) (S.fault_count site.new) result }
{
    tell(alloc, site, who, VERSION)
}

/// Prints this line.
pub(crate) fn tell<S: Site>(alloc: Global, site: &mut S, who: &Who, line: &str) -> Outcome
    requires job { who.now ≡ job }
    requires line { IsTrue (is_one_line line.now) }
    ensures told { Tells line.now result (S.told site.old) (S.told site.new) }
    ensures own { Adds (S.told site.old) (S.told site.new) (Every (IsOf LooksAgain)) }
    ensures cause { OutcomeCause (S.fault_count site.old) (S.fault_count site.new) result }
{
    let given = print_line(alloc, site, who, line.as_bytes());
    told_as(given)
}
