//! A load as a command.

ghost use Rattle.std.specs.Prelude.{◌≡◌, ℕ, List};
ghost use Rattle.chk_site.specs.History.{History};
ghost use Rattle.chk_site.specs.Site.{Adds};
ghost use Rattle.chk_site.specs.Runs.{Leads};
ghost use Rattle.chk_cmd_line.specs.Good.{IsIn};
ghost use Rattle.chk_cmd_line.specs.Commands.{Load};
ghost use Rattle.chukwa_run.specs.Processes.{RunSide};
ghost use Rattle.chukwa_run.specs.Runs.{Begins, EndsWith, CausedBy};
ghost use Rattle.chukwa_run.specs.Causes.{EndingCause};
ghost use Rattle.chukwa_run.specs.Loading.{IsLoadEnding, IsRoundEnding};
ghost use Rattle.chukwa_run.specs.Statuses.{HasItsStatus};

use chk_bytes::Word;
use chk_cmd_line::Ending;
use chk_cmd_load::{LoadEnd, run_load};
use chk_round::RoundFault;
use chk_site::Site;
use std::alloc::Global;

/// Appends the lines, takes them to the archive by a round, and prints the summary.
pub fn run_load_of<S: Site>(alloc: Global, site: &mut S, lines: u64) -> Result<(), Ending>
    requires good { IsIn 1 200000 lines }
    ensures told { (stamped : List (List ℕ)) (earlier : History) → Adds (S.told site.old) (S.told site.new)
        (Leads (RunSide stamped (Load lines)) (Begins stamped earlier) (EndsWith stamped (Load lines) result earlier)) }
    ensures causes { Adds (S.told site.old) (S.told site.new) (CausedBy (Load lines) result) }
    ensures cause { EndingCause (S.fault_count site.old) (S.fault_count site.new) result }
    ensures status { HasItsStatus (Load lines) result }
{
    match run_load(alloc, site, lines) {
        Ok(_report) => Ok(()),
        Err(end) => Err(ending_of(alloc, end)),
    }
}

fn ending_of(alloc: Global, end: LoadEnd) -> Ending
    ensures { IsLoadEnding end result }
{
    match end {
        LoadEnd::Outside { call } => Ending::Outside { call },
        LoadEnd::NoMemory => Ending::NoMemory,
        LoadEnd::Round { fault } => round_ending(alloc, fault),
        LoadEnd::Unclosed { name } => Ending::Unclosed { name },
    }
}

fn round_ending(alloc: Global, fault: RoundFault) -> Ending
    ensures { IsRoundEnding fault result }
{
    match fault {
        RoundFault::Outside { call } => Ending::Outside { call },
        RoundFault::NoMemory => Ending::NoMemory,
        RoundFault::Damaged { name, at } => Ending::Damaged { name, at },
        RoundFault::Checkpoint { at } => match Word::from_text(alloc, "agents/load.check") {
            Ok(name) => Ending::Damaged { name, at },
            Err(_) => Ending::NoMemory,
        },
        RoundFault::Length { stem, got, want } => Ending::Length { stem, got, want },
        RoundFault::Growing { path, reads } => Ending::Growing { path, reads },
        RoundFault::Shrank { path, had, is } => Ending::Shrank { path, had, is },
        RoundFault::Spent { number } => Ending::Spent { number },
        RoundFault::Refused { code } => Ending::Refused { code },
    }
}
