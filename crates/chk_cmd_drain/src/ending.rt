//! What follows once a drain has begun.

ghost use Rattle.std.specs.Prelude.{◌≡◌, ◌≤◌, ℕ, List, true};
ghost use Rattle.chk_site.specs.Site.{Adds};
ghost use Rattle.chk_site.specs.Runs.{Leads};
ghost use Rattle.chk_world.specs.Places.{Talking};
ghost use Rattle.chk_agent.specs.States.{process};
ghost use Rattle.chk_agent.specs.Facts.{Matches};
ghost use Rattle.chk_cmd_drain.specs.Drains.{Finishes, IsUndone, IsNotDone, IsNoDamage, told_as, LastOfDrain, DrainCause};
ghost use Rattle.chk_cmd_drain.specs.Parts.{FinishesSo};
ghost use Rattle.chk_cmd_drain.specs.Streams.{IsPathAt};
ghost use Rattle.std.specs.Prelude.{IfOk};

use crate::faults::DrainFault;
use crate::telling::{live_numbers, tell_streams, word};
use chk_agent::Agent;
use chk_agent_drain::{Drained, drain};
use chk_agent_run::RunFault;
use chk_bytes::{NoMemory, Word};
use chk_site::{OutsideFault, Site, Who};
use std::alloc::Global;

/// Drains the agent, and prints the line of each stream that was live before; where none was, it
/// does nothing.
pub(crate) fn finish<S: Site>(
    alloc: Global,
    site: &mut S,
    who: &Who,
    agent: &mut Agent,
    now: u64,
    reads: u64,
    polls: u32,
) -> Result<(), DrainFault>
    requires ready { agent.old.ready ≡ true }
    requires who { who.now ≡ process agent.old }
    requires a_read { 1 ≤ reads }
    requires a_poll { 1 ≤ polls }
    ensures script { Finishes who.now now reads polls agent.old result agent.new (S.told site.old)
        (S.told site.new) }
    ensures told { (stamped : List (List ℕ)) → Adds (S.told site.old) (S.told site.new)
        (Leads (Talking stamped (process agent.old)) (Matches stamped agent.old)
        (Matches stamped agent.new)) }
    ensures done { (stamped : List (List ℕ)) → Adds (S.told site.old) (S.told site.new)
        (FinishesSo stamped who.now agent.old result agent.new) }
    ensures undamaged { IsNoDamage result }
    ensures last { Adds (S.told site.old) (S.told site.new) (LastOfDrain result) }
    ensures cause { DrainCause (S.fault_count site.old) (S.fault_count site.new) result }
{
    let _sound = agent.ready();
    let Ok(numbers) = live_numbers(alloc, agent) else {
        return Err(DrainFault::Run(RunFault::NoMemory));
    };
    if numbers.is_empty() {
        return Ok(());
    }
    match drain(alloc, agent, site, now, reads, polls) {
        Ok(Drained::Done) => {
            let _sound_still = agent.ready();
            told(tell_streams(alloc, site, who, agent, numbers.as_slice()))
        }
        Ok(drained) => Err(undone(alloc, agent, drained)),
        Err(fault) => Err(DrainFault::from(fault)),
    }
}

// The result of the prints as that of the drain.
fn told(printed: Result<(), OutsideFault>) -> Result<(), DrainFault>
    ensures { result ≡ told_as printed }
{
    match printed {
        Ok(()) => Ok(()),
        Err(fault) => Err(DrainFault::Run(RunFault::from(fault))),
    }
}

// Why a drain isn't done. A path that no call can name, or of no adaptor, counts as want of memory.
fn undone(alloc: Global, agent: &Agent, drained: Drained) -> DrainFault
    requires { IsNotDone drained }
    ensures { IsUndone agent.now drained result }
{
    match drained {
        Drained::Pending { stem, got, want } => DrainFault::Pending { stem, got, want },
        Drained::Growing { adaptor, reads } => match path_at(alloc, agent, adaptor) {
            Ok(path) => DrainFault::Growing { path, reads },
            Err(_) => DrainFault::Run(RunFault::NoMemory),
        },
        Drained::Shrank { adaptor, had, is } => match path_at(alloc, agent, adaptor) {
            Ok(path) => DrainFault::Shrank { path, had, is },
            Err(_) => DrainFault::Run(RunFault::NoMemory),
        },
        Drained::AllTried { code, .. } => DrainFault::Refused { code },
        Drained::Done => unreachable!(),
    }
}

// The path of an adaptor's log.
fn path_at(alloc: Global, agent: &Agent, adaptor: u32) -> Result<Word, NoMemory>
    ensures { IfOk result (IsPathAt agent.now adaptor) }
{
    if adaptor >= agent.adaptors() {
        return Err(NoMemory);
    }
    word(alloc, agent.path(adaptor))
}
