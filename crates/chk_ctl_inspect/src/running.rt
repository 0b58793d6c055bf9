//! A run of `chukwactl`.

ghost use Rattle.std.specs.Prelude.{◌≡◌, map};
ghost use Rattle.chk_ctl_line.specs.Commands.{asked_of};
ghost use Rattle.chk_ctl_inspect.specs.Commands.{folder_of, long_of};
ghost use Rattle.chk_ctl_inspect.specs.Inspections.{is_status, Inspected};
ghost use Rattle.chk_ctl_inspect.specs.Running.{RunsAsked, RunsHere, RunsIn, RunsWhere};
ghost use Rattle.chk_ctl_line.specs.Usages.{usage_of};

use crate::audit::inspect_audit;
use crate::command::{audit_in, folder_of, long_of};
use crate::status::inspect_status;
use chk_ctl_line::{Command, WordsFault, read_words, usage_of};
use chk_ctl_machine::{LongInspection, Machine, end_with};
use chk_ctl_run::{Usage, run};
use std::alloc::Global;

/// The status if a folder can't be entered or found.
pub(crate) const OUTSIDE: u8 = 3;

/// The status if there is no memory.
pub(crate) const NO_MEMORY: u8 = 4;

/// Runs the command that the words behind the program's name ask for, and says with which status the
/// program ends: that of the command's outcome, which it reports on standard error unless it is
/// `Done`; 3 if a folder can't be entered, or where the user stands can't be found; 4 if there is no
/// memory for the words.
///
/// A command runs in the folder that it names: a store, or for `audit` and `passed` that of agents.
/// `check`, `held` of several stores, `--help` and `--version` run where the user stands. `audit`
/// names its store by the whole path.
///
/// `status` inspects each store, then each folder of agents, then each control port that the words
/// name, and prints all that it has seen. Its status is the greatest one: 1 if a folder is no store
/// or has no agent, or there is trouble in a store or no list of a control port. With `--watch` it
/// does so every so many seconds, up to an inspection with a status above 1.
pub fn inspect<M: Machine>(alloc: Global, machine: &mut M, words: &[&str]) -> u8
    ensures { Inspected (map (λ w. w.now) words.now) result (M.told machine.old)
        (M.told machine.new) }
{
    if is_status(words) {
        return inspect_status(alloc, machine, words);
    }
    match read_words(alloc, words) {
        Ok(command) => inspect_command(alloc, machine, words, &command),
        Err(WordsFault::Usage) => run_here(alloc, machine, words, None),
        Err(WordsFault::NoMemory) => NO_MEMORY,
    }
}

/// The words are those of `status`.
fn is_status(words: &[&str]) -> bool
    ensures { result ≡ is_status (usage_of (map (λ w. w.now) words.now)) }
{
    match usage_of(words) {
        Usage::Status => true,
        _ => false,
    }
}

fn inspect_command<M: Machine>(
    alloc: Global,
    machine: &mut M,
    words: &[&str],
    command: &Command<'_>,
) -> u8
    ensures { RunsAsked (asked_of command.now) (map (λ w. w.now) words.now) result
        (M.told machine.old) (M.told machine.new) }
{
    match audit_in(command) {
        Some(audit) => inspect_audit(alloc, machine, audit.agent, audit.store),
        None => run_where(alloc, machine, words, command),
    }
}

/// Runs a command that isn't `audit`, in the folder that it names, or where the user stands.
fn run_where<M: Machine>(
    alloc: Global,
    machine: &mut M,
    words: &[&str],
    command: &Command<'_>,
) -> u8
    ensures { RunsWhere (folder_of (asked_of command.now)) (map (λ w. w.now) words.now)
        (long_of (asked_of command.now) (map (λ w. w.now) words.now)) result (M.told machine.old)
        (M.told machine.new) }
{
    let long = long_of(command, words);
    match folder_of(command) {
        Some(folder) => run_in(alloc, machine, words, folder, long),
        None => run_here(alloc, machine, words, long),
    }
}

/// Runs the command in the folder of this name.
pub(crate) fn run_in<M: Machine>(
    alloc: Global,
    machine: &mut M,
    words: &[&str],
    folder: &str,
    long: Option<LongInspection>,
) -> u8
    ensures { RunsIn folder.now (map (λ w. w.now) words.now) long result (M.told machine.old)
        (M.told machine.new) }
{
    if machine.enter(folder) {
        run_here(alloc, machine, words, long)
    } else {
        OUTSIDE
    }
}

fn run_here<M: Machine>(
    alloc: Global,
    machine: &mut M,
    words: &[&str],
    long: Option<LongInspection>,
) -> u8
    ensures { RunsHere (map (λ w. w.now) words.now) long result (M.told machine.old)
        (M.told machine.new) }
{
    let mut folder = machine.lend(long);
    let outcome = run(alloc, &mut folder, words);
    machine.take_back(folder);
    end_with(machine, &outcome)
}
