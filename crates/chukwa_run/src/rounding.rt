//! A round as a command.

ghost use Rattle.std.specs.Prelude.{◌≡◌, ℕ, List, IfOk, IsTrue};
ghost use Rattle.chk_site.specs.History.{History};
ghost use Rattle.chk_site.specs.Site.{Adds};
ghost use Rattle.chk_site.specs.Runs.{Leads};
ghost use Rattle.chk_world.specs.Names.{is_source};
ghost use Rattle.chk_cmd_line.specs.Commands.{round_of};
ghost use Rattle.chk_cmd_line.specs.Good.{IsGoodRound};
ghost use Rattle.chk_cmd_line.specs.Commands.{Round as RoundCommand};
ghost use Rattle.chukwa_run.specs.Processes.{RunSide};
ghost use Rattle.chukwa_run.specs.Runs.{Begins, EndsWith, CausedBy};
ghost use Rattle.chukwa_run.specs.Causes.{EndingCause};
ghost use Rattle.chukwa_run.specs.RoundRuns.{AreWordsOf, IsFaultEnding, IsRoundEnding};
ghost use Rattle.chukwa_run.specs.Statuses.{HasItsStatus};

use crate::agenting::{check_name, damaged, words_of};
use chk_bytes::{NoMemory, Word};
use chk_cmd_line::{Ending, RoundWords};
use chk_cmd_round::{RoundEnd, run_round};
use chk_round::{RoundFault, RoundWords as OwnedWords};
use chk_site::Site;
use std::alloc::Global;

/// Runs a collector, an agent and the archive job in one process, and prints a line for each live
/// adaptor and the line of the archive run.
pub fn run_whole_round<S: Site>(
    alloc: Global,
    site: &mut S,
    given: &RoundWords<'_>,
) -> Result<(), Ending>
    requires good { IsGoodRound (round_of given.now) }
    ensures told { (stamped : List (List ℕ)) (earlier : History) → Adds (S.told site.old) (S.told site.new)
        (Leads (RunSide stamped (RoundCommand (round_of given.now))) (Begins stamped earlier)
        (EndsWith stamped (RoundCommand (round_of given.now)) result earlier)) }
    ensures causes { Adds (S.told site.old) (S.told site.new) (CausedBy (RoundCommand (round_of given.now)) result) }
    ensures cause { EndingCause (S.fault_count site.old) (S.fault_count site.new) result }
    ensures status { HasItsStatus (RoundCommand (round_of given.now)) result }
{
    let Ok(words) = owned(alloc, given) else {
        return Err(Ending::NoMemory);
    };
    match run_round(alloc, site, &words) {
        Ok(()) => Ok(()),
        Err(end) => Err(ending_of(alloc, given.source, end)),
    }
}

// The words, owned.
fn owned(alloc: Global, given: &RoundWords<'_>) -> Result<OwnedWords, NoMemory>
    requires good { IsGoodRound (round_of given.now) }
    ensures { IfOk result (AreWordsOf (round_of given.now)) }
{
    Ok(OwnedWords {
        source: Word::from_text(alloc, given.source)?,
        kind: Word::from_text(alloc, given.kind)?,
        class: given.class,
        reads: given.reads,
        cluster: Word::from_text(alloc, given.cluster)?,
        logs: words_of(alloc, given.logs.as_slice())?,
    })
}

fn ending_of(alloc: Global, source: &str, end: RoundEnd) -> Ending
    requires source { IsTrue (is_source source.now) }
    ensures { IsRoundEnding source.now end result }
{
    match end {
        RoundEnd::Fault(fault) => fault_ending(alloc, source, fault),
        RoundEnd::Unclosed { name } => Ending::Unclosed { name },
    }
}

fn fault_ending(alloc: Global, source: &str, fault: RoundFault) -> Ending
    requires source { IsTrue (is_source source.now) }
    ensures { IsFaultEnding source.now fault result }
{
    match fault {
        RoundFault::Outside { call } => Ending::Outside { call },
        RoundFault::NoMemory => Ending::NoMemory,
        RoundFault::Damaged { name, at } => Ending::Damaged { name, at },
        RoundFault::Checkpoint { at } => damaged(check_name(alloc, source), at),
        RoundFault::Length { stem, got, want } => Ending::Length { stem, got, want },
        RoundFault::Growing { path, reads } => Ending::Growing { path, reads },
        RoundFault::Shrank { path, had, is } => Ending::Shrank { path, had, is },
        RoundFault::Spent { number } => Ending::Spent { number },
        RoundFault::Refused { code } => Ending::Refused { code },
    }
}
