//! `audit`: it runs in the folder of the agents, so the store is named by its whole path.

ghost use Rattle.chk_ctl_inspect.specs.Running.{Audits};

use crate::running::{NO_MEMORY, OUTSIDE, run_in};
use chk_ctl_machine::Machine;
use std::alloc::Global;

/// Compares the archive of the store with the logs of the agents in the folder.
pub(crate) fn inspect_audit<M: Machine>(
    alloc: Global,
    machine: &mut M,
    agent: &str,
    store: &str,
) -> u8
    ensures { Audits agent.now store.now result (M.told machine.old) (M.told machine.new) }
{
    if !machine.stand() {
        return OUTSIDE;
    }
    match machine.path_of(store) {
        Some(path) => {
            let words = ["audit", "--agent", ".", "--store", path.as_str()];
            run_in(alloc, machine, words.as_slice(), agent, None)
        }
        None => NO_MEMORY,
    }
}
