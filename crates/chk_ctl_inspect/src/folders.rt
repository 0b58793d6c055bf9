//! The inspections that the words of `status` name, in turn.

ghost use Rattle.std.specs.Prelude.{◌≡◌, map, option_map, IfOk, OnOk};
ghost use Rattle.chk_ctl_line.specs.Status.{status_of};
ghost use Rattle.chk_ctl_inspect.specs.Folders.{named, InspectsAgentLocks, InspectsAgents, InspectsAll};
ghost use Rattle.chk_ctl_inspect.specs.Folders.{InspectsControl, InspectsStore, InspectsStoreLocks};
ghost use Rattle.chk_ctl_inspect.specs.Folders.{InspectsDoor, InspectsEach};
ghost use Rattle.chk_ctl_line.specs.Controls.{control_of};

use crate::kept::{Seen, Sight};
use crate::running::OUTSIDE;
use chk_bytes::NoMemory;
use chk_ctl_line::{ControlWords, StatusWords, control_in};
use chk_ctl_machine::{Machine, end_with, see_agents, see_control, see_locks, see_store};
use chk_ctl_metrics::{NamedAgents, NamedDoor, NamedStore};
use chk_ctl_status::StoreSeen;
use chk_ctl_status_rows::AgentSeen;
use std::alloc::Global;

/// Inspects all that is named: stores first, so that no log is found to end before its archive, then
/// folders of agents, then control ports.
pub(crate) fn inspect_all<'a, M: Machine>(
    alloc: Global,
    machine: &mut M,
    asked: &StatusWords<'a>,
) -> Result<Sight<'a>, NoMemory>
    ensures { IfOk result (λ sight. InspectsAll (status_of asked.now) sight (M.told machine.old)
        (M.told machine.new)) }
{
    let mut sight = Sight::new(alloc);
    inspect_stores(alloc, machine, named(asked.stores()), &mut sight)?;
    inspect_agents(alloc, machine, named(asked.agents()), &mut sight)?;
    inspect_controls(alloc, machine, named(asked.controls()), &mut sight)?;
    Ok(sight)
}

/// What an option names.
fn named<'b, 'a>(words: Option<&'b [&'a str]>) -> &'b [&'a str]
    ensures { map (λ w. w.now) result.now
        ≡ named (option_map (λ s. map (λ w. w.now) s.now) words.entry) }
{
    match words {
        Some(words) => words,
        None => &[],
    }
}

fn inspect_stores<'a, M: Machine>(
    alloc: Global,
    machine: &mut M,
    stores: &[&'a str],
    sight: &mut Sight<'a>,
) -> Result<(), NoMemory>
    ensures { OnOk result (InspectsEach InspectsStore (map (λ w. w.now) stores.now) sight.old sight.new
        (M.told machine.old) (M.told machine.new)) }
{
    for store in stores {
        let seen = inspect_store(alloc, machine, store)?;
        sight.keep(seen)?;
    }
    Ok(())
}

fn inspect_agents<'a, M: Machine>(
    alloc: Global,
    machine: &mut M,
    folders: &[&'a str],
    sight: &mut Sight<'a>,
) -> Result<(), NoMemory>
    ensures { OnOk result (InspectsEach InspectsAgents (map (λ w. w.now) folders.now) sight.old
        sight.new (M.told machine.old) (M.told machine.new)) }
{
    for folder in folders {
        let seen = inspect_folder(alloc, machine, folder)?;
        sight.keep(seen)?;
    }
    Ok(())
}

fn inspect_controls<'a, M: Machine>(
    alloc: Global,
    machine: &mut M,
    texts: &[&'a str],
    sight: &mut Sight<'a>,
) -> Result<(), NoMemory>
    ensures { OnOk result (InspectsEach InspectsControl (map (λ w. w.now) texts.now) sight.old
        sight.new (M.told machine.old) (M.told machine.new)) }
{
    for text in texts {
        let seen = inspect_control(alloc, machine, text)?;
        sight.keep(seen)?;
    }
    Ok(())
}

/// Inspects the store of this name, from where the user stands.
fn inspect_store<'a, M: Machine>(
    alloc: Global,
    machine: &mut M,
    store: &'a str,
) -> Result<Seen<'a>, NoMemory>
    ensures { IfOk result (λ seen. InspectsStore store.now seen (M.told machine.old)
        (M.told machine.new)) }
{
    if !machine.enter(store) {
        return Ok(Seen::Failed(OUTSIDE));
    }
    if !machine.is_store() {
        return Ok(Seen::Absent(store));
    }
    match see_store(alloc, machine) {
        Ok(seen) => inspect_store_locks(alloc, machine, store, seen),
        Err(outcome) => Ok(Seen::Failed(end_with(machine, &outcome))),
    }
}

fn inspect_store_locks<'a, M: Machine>(
    alloc: Global,
    machine: &mut M,
    store: &str,
    seen: StoreSeen,
) -> Result<Seen<'a>, NoMemory>
    ensures { IfOk result (λ of. InspectsStoreLocks store.now seen of (M.told machine.old)
        (M.told machine.new)) }
{
    match see_locks(alloc, machine) {
        Ok(locks) => {
            let folder = String::from_str(alloc, store)?;
            Ok(Seen::Store(NamedStore {
                folder,
                seen,
                locks,
            }))
        }
        Err(outcome) => Ok(Seen::Failed(end_with(machine, &outcome))),
    }
}

/// Inspects the folder of agents of this name, from where the user stands.
fn inspect_folder<'a, M: Machine>(
    alloc: Global,
    machine: &mut M,
    folder: &str,
) -> Result<Seen<'a>, NoMemory>
    ensures { IfOk result (λ seen. InspectsAgents folder.now seen (M.told machine.old)
        (M.told machine.new)) }
{
    if !machine.enter(folder) {
        return Ok(Seen::Failed(OUTSIDE));
    }
    match see_agents(alloc, machine) {
        Ok(agents) => inspect_agent_locks(alloc, machine, folder, agents),
        Err(outcome) => Ok(Seen::Failed(end_with(machine, &outcome))),
    }
}

fn inspect_agent_locks<'a, M: Machine>(
    alloc: Global,
    machine: &mut M,
    folder: &str,
    agents: Vec<AgentSeen>,
) -> Result<Seen<'a>, NoMemory>
    ensures { IfOk result (λ seen. InspectsAgentLocks folder.now agents.items seen
        (M.told machine.old) (M.told machine.new)) }
{
    match see_locks(alloc, machine) {
        Ok(locks) => {
            let folder = String::from_str(alloc, folder)?;
            Ok(Seen::Agents(NamedAgents {
                folder,
                agents,
                locks,
            }))
        }
        Err(outcome) => Ok(Seen::Failed(end_with(machine, &outcome))),
    }
}

/// Asks the control port that the text names.
fn inspect_control<'a, M: Machine>(
    alloc: Global,
    machine: &mut M,
    text: &str,
) -> Result<Seen<'a>, NoMemory>
    ensures { IfOk result (λ seen. InspectsControl text.now seen (M.told machine.old)
        (M.told machine.new)) }
{
    match control_in(text) {
        Some(control) => inspect_door(alloc, machine, control),
        None => Ok(Seen::Nothing),
    }
}

fn inspect_door<'a, M: Machine>(
    alloc: Global,
    machine: &mut M,
    control: ControlWords<'_>,
) -> Result<Seen<'a>, NoMemory>
    ensures { IfOk result (λ seen. InspectsDoor (control_of control.entry) seen (M.told machine.old)
        (M.told machine.new)) }
{
    let door = see_control(alloc, machine, control.address)?;
    let name = String::from_str(alloc, control.name)?;
    let address = String::from_str(alloc, control.address)?;
    Ok(Seen::Door(NamedDoor {
        name,
        address,
        door,
    }))
}
