//! The run of a collector as a command.

ghost use Rattle.std.specs.Prelude.{◌≡◌, ◌≤◌, ℕ, List, IsTrue, IfOk, IfSome, option_map};
ghost use Rattle.chk_bytes.specs.Words.{is_word};
ghost use Rattle.chk_bytes.specs.Stems.{is_collector};
ghost use Rattle.chk_site.specs.History.{History};
ghost use Rattle.chk_site.specs.Site.{Adds};
ghost use Rattle.chk_site.specs.Runs.{Leads};
ghost use Rattle.chk_cmd_line.specs.Commands.{Collector as CollectorCommand};
ghost use Rattle.chukwa_run.specs.Processes.{the_collector, RunSide};
ghost use Rattle.chukwa_run.specs.Runs.{Begins, EndsWith, CausedBy};
ghost use Rattle.chk_cmd_line.specs.Commands.{collector_of};
ghost use Rattle.chukwa_run.specs.Causes.{EndingCause, sink_ending};
ghost use Rattle.chukwa_run.specs.Statuses.{HasItsStatus};

use crate::teeing::read_tees;
use chk_bytes::{NoMemory, Word};
use chk_cmd_line::{CollectorWords, Ending};
use chk_collector_run::collect;
use chk_sink::SinkFault;
use chk_site::{Role, Site, Who};
use std::alloc::Global;

/// Reads the file of subscribers as the writer, starts the collector, runs its turns at the address,
/// each of at most so many messages, and finishes. A wrong line of the file ends the run before the
/// start. A message whose reading or answering fails ends alone; any other call that fails ends
/// the run.
pub fn run_collector<S: Site>(
    alloc: Global,
    site: &mut S,
    given: &CollectorWords<'_>,
) -> Result<(), Ending>
    requires name { IsTrue (is_collector given.now.name.now) }
    requires address { IsTrue (is_word given.now.address.now) }
    requires tee { IfSome (option_map (λ w. w.now) given.now.tee) (λ text. IsTrue (is_word text)) }
    ensures told { (stamped : List (List ℕ)) (earlier : History) → Adds (S.told site.old) (S.told site.new)
        (Leads (RunSide stamped (CollectorCommand (collector_of given.now))) (Begins stamped earlier)
        (EndsWith stamped (CollectorCommand (collector_of given.now)) result earlier)) }
    ensures causes { Adds (S.told site.old) (S.told site.new) (CausedBy (CollectorCommand (collector_of given.now)) result) }
    ensures cause { EndingCause (S.fault_count site.old) (S.fault_count site.new) result }
    ensures status { HasItsStatus (CollectorCommand (collector_of given.now)) result }
{
    let Ok(who) = collector(alloc, given.name) else {
        return Err(Ending::NoMemory);
    };
    let Ok(door) = Word::from_text(alloc, given.address) else {
        return Err(Ending::NoMemory);
    };
    let mut tees = match read_tees(alloc, site, given.tee) {
        Ok(tees) => tees,
        Err(ending) => return Err(ending),
    };
    match collect(
        alloc,
        site,
        &who,
        given.rotate,
        given.turns,
        given.messages,
        &door,
        &mut tees,
    ) {
        Ok(()) => Ok(()),
        Err(fault) => Err(ending_of(fault)),
    }
}

fn collector(alloc: Global, name: &str) -> Result<Who, NoMemory>
    requires name { IsTrue (is_collector name.now) }
    ensures { IfOk result (λ who. who ≡ the_collector name.now) }
{
    Ok(Who {
        role: Role::Collector,
        name: Word::from_text(alloc, name)?,
    })
}

fn ending_of(fault: SinkFault) -> Ending
    ensures { result ≡ sink_ending fault }
{
    match fault {
        SinkFault::Outside { call } => Ending::Outside { call },
        SinkFault::Damaged { name, at } => Ending::Damaged { name, at },
        SinkFault::Spent { born } => Ending::Spent { number: born },
        SinkFault::NoMemory => Ending::NoMemory,
    }
}
