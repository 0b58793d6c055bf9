//! The inspection of a store.

ghost use Rattle.std.specs.Prelude.{◌≡◌, IfErr};
ghost use Rattle.chk_site.specs.History.{Every};
ghost use Rattle.chk_site.specs.Site.{Adds};
ghost use Rattle.chk_world.specs.Names.{spell, SinkFile};
ghost use Rattle.chk_ctl_machine.specs.Ages.{AsksAgeOf};
ghost use Rattle.chk_ctl_machine.specs.Inspecting.{Inspects};
ghost use Rattle.chk_ctl_machine.specs.Lending.{Lent, SeenCause};
ghost use Rattle.chk_ctl_machine.specs.Stores.{found_as, AgesSink, AgesStore, FindsStore};
ghost use Rattle.chk_ctl_machine.specs.Stores.{ReadsStore, SeesStore};
ghost use Rattle.chk_record_index.specs.Faults.{IsOfRead};
ghost use Rattle.chk_ctl_machine.specs.Turns.{InTurn};

use crate::machine::Machine;
use chk_bytes::{NoMemory, Stem};
use chk_ctl_run::{Outcome, looker, outcome_of_job};
use chk_ctl_status::{StoreSeen, find_store};
use chk_ctl_status_rows::OpenSink;
use chk_record_index::JobFault;
use chk_site::Site;
use std::alloc::Global;

/// What is seen of the store that is the current folder, or how its inspection ends. How long its
/// sinks are quiet and how much is free is asked behind that.
pub fn see_store<M: Machine>(alloc: Global, machine: &mut M) -> Result<StoreSeen, Outcome>
    ensures { SeesStore result (M.told machine.old) (M.told machine.new) }
{
    match find_there(alloc, machine) {
        Ok(found) => Ok(with_ages(alloc, machine, found)),
        Err(outcome) => Err(outcome),
    }
}

fn find_there<M: Machine>(alloc: Global, machine: &mut M) -> Result<StoreSeen, Outcome>
    ensures { Lent None (FindsStore result) (M.told machine.old) (M.told machine.new) }
{
    let mut folder = machine.lend(None);
    let found = find_by(alloc, &mut folder);
    machine.take_back(folder);
    found
}

fn find_by<S: Site>(alloc: Global, site: &mut S) -> Result<StoreSeen, Outcome>
    ensures told { ReadsStore result (S.told site.old) (S.told site.new) }
    ensures own { Adds (S.told site.old) (S.told site.new) (Every Inspects) }
    ensures cause { SeenCause (S.fault_count site.old) (S.fault_count site.new) result }
{
    match looker(alloc) {
        Ok(who) => {
            let given = find_store(alloc, site, &who);
            found_as(given)
        }
        Err(NoMemory) => Err(Outcome::NoMemory),
    }
}

/// A store, or the outcome of a refusal.
fn found_as(given: Result<StoreSeen, JobFault>) -> Result<StoreSeen, Outcome>
    requires { IfErr given IsOfRead }
    ensures { result ≡ found_as given }
{
    match given {
        Ok(seen) => Ok(seen),
        Err(fault) => Err(outcome_of_job(fault)),
    }
}

fn with_ages<M: Machine>(alloc: Global, machine: &mut M, mut seen: StoreSeen) -> StoreSeen
    ensures { AgesStore seen result (M.told machine.old) (M.told machine.new) }
{
    age_sinks(alloc, machine, seen.sinks.unclosed.as_mut_slice());
    seen.free = machine.free();
    seen
}

fn age_sinks<M: Machine>(alloc: Global, machine: &mut M, sinks: &mut [OpenSink])
    ensures { InTurn AgesSink sinks.old sinks.new (M.told machine.old) (M.told machine.new) }
{
    for sink in sinks.iter_mut() {
        sink.quiet = quiet_of(alloc, machine, &sink.stem);
    }
}

/// How many seconds the sink of this stem is quiet.
fn quiet_of<M: Machine>(alloc: Global, machine: &mut M, stem: &Stem) -> Option<u64>
    ensures { AsksAgeOf (spell (SinkFile stem.now)) result (M.told machine.old)
        (M.told machine.new) }
{
    match format!(in alloc; "sinks/{stem}.chukwa") {
        Ok(path) => machine.age_of(path.as_str()),
        Err(_) => None,
    }
}
