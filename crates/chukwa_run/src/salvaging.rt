//! The salvage of a file as a command.

ghost use Rattle.std.specs.Prelude.{◌≡◌, ◌≢◌, ◌≤◌, ℕ, List, IsTrue};
ghost use Rattle.chk_bytes.specs.Words.{is_word};
ghost use Rattle.chk_site.specs.History.{History};
ghost use Rattle.chk_site.specs.Site.{Adds};
ghost use Rattle.chk_site.specs.Runs.{Leads};
ghost use Rattle.chk_cmd_line.specs.Commands.{Salvage};
ghost use Rattle.chukwa_run.specs.Processes.{RunSide};
ghost use Rattle.chukwa_run.specs.Runs.{Begins, EndsWith, CausedBy};
ghost use Rattle.chukwa_run.specs.Causes.{EndingCause, IsEndingOf};
ghost use Rattle.chukwa_run.specs.Statuses.{HasItsStatus};

use chk_bytes::Word;
use chk_cmd_line::Ending;
use chk_cmd_load::writer;
use chk_cmd_salvage::{SalvageFault, salvage};
use chk_site::Site;
use std::alloc::Global;

/// Prints what can be read of the file. Its header's refusal is `Damaged` at 0.
pub fn run_salvage<S: Site>(alloc: Global, site: &mut S, file: &str) -> Result<(), Ending>
    requires word { IsTrue (is_word file.now) }
    ensures told { (stamped : List (List ℕ)) (earlier : History) → Adds (S.told site.old) (S.told site.new)
        (Leads (RunSide stamped (Salvage file.now)) (Begins stamped earlier)
        (EndsWith stamped (Salvage file.now) result earlier)) }
    ensures causes { Adds (S.told site.old) (S.told site.new) (CausedBy (Salvage file.now) result) }
    ensures cause { EndingCause (S.fault_count site.old) (S.fault_count site.new) result }
    ensures status { HasItsStatus (Salvage file.now) result }
{
    let Ok(writer) = writer(alloc) else {
        return Err(Ending::NoMemory);
    };
    match salvage(alloc, site, &writer, file) {
        Ok(()) => Ok(()),
        Err(fault) => Err(ending_of(alloc, file, fault)),
    }
}

fn ending_of(alloc: Global, file: &str, fault: SalvageFault) -> Ending
    requires word { IsTrue (is_word file.now) }
    ensures { IsEndingOf file.now fault result }
{
    match fault {
        SalvageFault::Outside { call } => Ending::Outside { call },
        SalvageFault::NoMemory => Ending::NoMemory,
        SalvageFault::Damaged => match Word::from_text(alloc, file) {
            Ok(name) => Ending::Damaged { name, at: 0 },
            Err(_) => Ending::NoMemory,
        },
    }
}
