//! The run of a drain as a command.

ghost use Rattle.std.specs.Prelude.{◌≡◌, ℕ, List, IfOk, IsTrue, is_some, true};
ghost use Rattle.chk_bytes.specs.Words.{is_word};
ghost use Rattle.chk_site.specs.History.{History};
ghost use Rattle.chk_site.specs.Site.{Adds};
ghost use Rattle.chk_site.specs.Runs.{Leads};
ghost use Rattle.chk_agent_run.specs.declared.faults.RunFault.TheVariants.{Initial as InitialLine};
ghost use Rattle.chk_cmd_drain.specs.declared.faults.DrainFault.TheVariants.{Run};
ghost use Rattle.chk_cmd_line.specs.Commands.{drain_of};
ghost use Rattle.chk_cmd_line.specs.Good.{IsGoodDrain};
ghost use Rattle.chk_cmd_line.specs.Commands.{Drain};
ghost use Rattle.chukwa_run.specs.Processes.{RunSide};
ghost use Rattle.chukwa_run.specs.Draining.{setting_of, drain_rules, drain_work};
ghost use Rattle.chukwa_run.specs.Runs.{Begins, EndsWith, CausedBy};
ghost use Rattle.chukwa_run.specs.Causes.{EndingCause, IsDrainEnding};
ghost use Rattle.chukwa_run.specs.Statuses.{HasItsStatus};

use crate::agenting::{agent, ending_of as run_ending, ring, word_if_any};
use chk_agent::Rules;
use chk_agent_run::{QUEUE, ROWS};
use chk_bytes::{NoMemory, Word};
use chk_cmd_drain::{DrainFault, Work, run_drain};
use chk_cmd_line::{DrainWords, Ending};
use chk_cmd_load::writer;
use chk_failover::Ring;
use chk_site::{Site, Who};
use std::alloc::Global;

/// With what a drain is run.
#[derive(Drop)]
pub(crate) struct Setting {
    pub who: Who,
    pub writer: Who,
    pub ring: Ring,
    pub rules: Rules,
    pub work: Work,
}

/// Reads the initial file, starts the agent, adds the streams of the file, reads each log to its
/// end, and sends what they gave until all of it is committed. Then it prints the line of each
/// stream. A sending or a reply that fails goes to the next address; any other call that fails ends
/// the run.
pub fn run_drain_of<S: Site>(
    alloc: Global,
    site: &mut S,
    given: &DrainWords<'_>,
) -> Result<(), Ending>
    requires good { IsGoodDrain (drain_of given.now) }
    ensures told { (stamped : List (List ℕ)) (earlier : History)
        → Adds (S.told site.old) (S.told site.new)
        (Leads (RunSide stamped (Drain (drain_of given.now))) (Begins stamped earlier)
        (EndsWith stamped (Drain (drain_of given.now)) result earlier)) }
    ensures causes { Adds (S.told site.old) (S.told site.new)
        (CausedBy (Drain (drain_of given.now)) result) }
    ensures cause { EndingCause (S.fault_count site.old) (S.fault_count site.new) result }
    ensures status { HasItsStatus (Drain (drain_of given.now)) result }
{
    let Ok(setting) = set_up(alloc, given) else {
        return Err(Ending::NoMemory);
    };
    let Setting {
        who,
        writer,
        ring,
        rules,
        work,
    } = setting;
    match run_drain(alloc, site, &who, &writer, ring, rules, &work) {
        Ok(()) => Ok(()),
        Err(fault) => Err(ending_of(alloc, given, fault)),
    }
}

fn set_up(alloc: Global, given: &DrainWords<'_>) -> Result<Setting, NoMemory>
    requires good { IsGoodDrain (drain_of given.now) }
    ensures { IfOk result (λ setting. setting ≡ setting_of (drain_of given.now)) }
{
    Ok(Setting {
        who: agent(alloc, given.source)?,
        writer: writer(alloc)?,
        ring: ring(alloc, given.collectors.as_slice())?,
        rules: rules(alloc, given.cluster)?,
        work: work(alloc, given)?,
    })
}

fn rules(alloc: Global, cluster: &str) -> Result<Rules, NoMemory>
    requires cluster { IsTrue (is_word cluster.now) }
    ensures { IfOk result (λ rules. rules ≡ drain_rules cluster.now) }
{
    Ok(Rules {
        rows: ROWS,
        queue: QUEUE,
        poll: 1_000,
        expire: 300_000,
        cluster: Word::from_text(alloc, cluster)?,
    })
}

fn work(alloc: Global, given: &DrainWords<'_>) -> Result<Work, NoMemory>
    requires good { IsGoodDrain (drain_of given.now) }
    ensures { IfOk result (λ work. work ≡ drain_work (drain_of given.now)) }
{
    Ok(Work {
        initial: word_if_any(alloc, given.initial)?,
        reads: given.reads,
        polls: given.polls as u32,
    })
}

fn ending_of(alloc: Global, given: &DrainWords<'_>, fault: DrainFault) -> Ending
    requires good { IsGoodDrain (drain_of given.now) }
    requires initial { (at : ℕ) → fault ≡ Run (InitialLine at) → is_some given.now.initial ≡ true }
    ensures { IsDrainEnding (drain_of given.now) fault result }
{
    match fault {
        DrainFault::Run(fault) => run_ending(alloc, given.initial, given.source, fault),
        DrainFault::Pending { stem, got, want } => Ending::Length { stem, got, want },
        DrainFault::Growing { path, reads } => Ending::Growing { path, reads },
        DrainFault::Shrank { path, had, is } => Ending::Shrank { path, had, is },
        DrainFault::Refused { code } => Ending::Refused { code },
    }
}
