//! The words of `held`.

ghost use Rattle.std.specs.Prelude.{◌≡◌, map, IfOk};
ghost use Rattle.chk_ctl_line.specs.Asked.{asked_by, asked_in, held_in, ReadsCommand};
ghost use Rattle.chk_ctl_line.specs.Commands.{asked_of, IsGood};
ghost use Rattle.chk_ctl_line.specs.Given.{rows_in};

use crate::commands::{Command, WordsFault};
use crate::names::{are_stores, is_store};
use crate::options::Given;
use crate::usage::Usage;
use std::alloc::Global;

/// What the words of which the first is `held` ask for.
pub(crate) fn read_held<'a>(alloc: Global, words: &'a [&'a str]) -> Result<Command<'a>, WordsFault>
    ensures asked { ReadsCommand (asked_in Usage.Held (map (λ w. w.now) words.now)) result }
    ensures good { IfOk result (λ command. IsGood (asked_of command)) }
{
    let given = Given::read(alloc, Usage::Held, words)?;
    held_by(alloc, &given)
}

fn held_by<'a>(alloc: Global, given: &Given<'a>) -> Result<Command<'a>, WordsFault>
    ensures asked { ReadsCommand (asked_by Usage.Held (rows_in given.now)) result }
    ensures good { IfOk result (λ command. IsGood (asked_of command)) }
{
    if given.has("help") {
        return Ok(Command::Help(Usage::Held));
    }
    match given.plain() {
        Some(stores) => held_in(alloc, stores),
        None => Err(WordsFault::Usage),
    }
}

/// One store, or several of which the paths can stand in front of names.
fn held_in<'a>(alloc: Global, stores: &[&'a str]) -> Result<Command<'a>, WordsFault>
    ensures asked { ReadsCommand (held_in (map (λ w. w.now) stores.now)) result }
    ensures good { IfOk result (λ command. IsGood (asked_of command)) }
{
    match stores {
        [store] if is_store(store) => Ok(Command::Held(store)),
        [_] => Err(WordsFault::Usage),
        _ if are_stores(stores) => Ok(Command::HeldIn(stores.to_vec(alloc)?)),
        _ => Err(WordsFault::Usage),
    }
}
