//! Lines that a process prints.
#![tactic(auto)]

ghost use Rattle.std.specs.Prelude.{[], ◌∷◌, IsTrue};
ghost use Rattle.chk_site.specs.Site.{OutsideCause};
ghost use Rattle.chk_world.specs.ArchiveRuns.{is_one_line};
ghost use Rattle.chk_cmd_output.specs.Printing.{PrintsInTurn};

mod lines;

use chk_site::{Call, OutsideFault, Site, Who, reached};
pub use lines::named;
use std::alloc::Global;

/// Prints one line with its newline as this process. It costs one call.
pub fn print_line<S: Site>(
    alloc: Global,
    site: &mut S,
    who: &Who,
    line: &[u8],
) -> Result<(), OutsideFault>
    requires line { IsTrue (is_one_line line.now) }
    ensures told { PrintsInTurn who.now (line.now ∷ []) result (S.told site.old) (S.told site.new) }
    ensures cause { OutsideCause (S.fault_count site.old) (S.fault_count site.new) result }
{
    let given = site.say(alloc, who, line);
    reached(Call::Say, given)
}
