//! `status`: inspections of stores and agents, once or every so many seconds.

ghost use Rattle.std.specs.Prelude.{◌≡◌, ◌^◌, ◌-◌, map};
ghost use Rattle.chk_ctl_line.specs.Status.{status_of};
ghost use Rattle.chk_ctl_inspect.specs.Statuses.{InspectsAsked, InspectsOnce, InspectsStatus, Repeats};
ghost use Rattle.chk_ctl_inspect.specs.Statuses.{stops};

use crate::folders::inspect_all;
use crate::reports::report;
use crate::running::{NO_MEMORY, OUTSIDE};
use chk_bytes::NoMemory;
use chk_ctl_line::{StatusWords, WordsFault, read_status};
use chk_ctl_machine::{Machine, end_with};
use chk_ctl_run::{Outcome, Usage};
use std::alloc::Global;

/// The greatest status of an inspection that is repeated.
const FOUND: u8 = 1;

/// Does what the words of `status` ask for, and says with which status the program ends.
pub(crate) fn inspect_status<M: Machine>(alloc: Global, machine: &mut M, words: &[&str]) -> u8
    ensures { InspectsStatus (map (λ w. w.now) words.now) result (M.told machine.old)
        (M.told machine.new) }
{
    match read_status(alloc, words) {
        Ok(asked) => inspect_asked(alloc, machine, &asked),
        Err(WordsFault::Usage) => end_with(machine, &Outcome::Usage(Usage::Status)),
        Err(WordsFault::NoMemory) => NO_MEMORY,
    }
}

fn inspect_asked<M: Machine>(alloc: Global, machine: &mut M, asked: &StatusWords<'_>) -> u8
    ensures { InspectsAsked (status_of asked.now) result (M.told machine.old) (M.told machine.new) }
{
    if asked.asks_help() {
        if machine.print(Usage::Status.text()) {
            0
        } else {
            OUTSIDE
        }
    } else if machine.stand() {
        inspect_again(alloc, machine, asked)
    } else {
        OUTSIDE
    }
}

/// One inspection, or one every so many seconds, up to one that fails.
fn inspect_again<M: Machine>(alloc: Global, machine: &mut M, asked: &StatusWords<'_>) -> u8
    ensures { Repeats (status_of asked.now) (2 ^ 64 - 1) result (M.told machine.old)
        (M.told machine.new) }
{
    let seconds = asked.seconds();
    for _ in 0..u64::MAX {
        let status = inspect_once(alloc, machine, asked);
        if stops(seconds, status) {
            return status;
        }
        machine.sleep(seconds);
    }
    OUTSIDE
}

/// It isn't repeated behind an inspection with this status.
fn stops(seconds: u64, status: u8) -> bool
    ensures { result ≡ stops seconds status }
{
    seconds == 0 || status > FOUND
}

/// The status of one inspection is the greatest of all that is inspected.
fn inspect_once<M: Machine>(alloc: Global, machine: &mut M, asked: &StatusWords<'_>) -> u8
    ensures { InspectsOnce (status_of asked.now) result (M.told machine.old) (M.told machine.new) }
{
    match inspect_all(alloc, machine, asked) {
        Ok(sight) => {
            let status = report(alloc, machine, &sight, asked.form());
            sight.status.max(status)
        }
        Err(NoMemory) => NO_MEMORY,
    }
}
