//! The words of `check`.

ghost use Rattle.std.specs.Prelude.{◌≡◌, codes, map, option_map, IfOk, IfSome, IsTrue};
ghost use Rattle.clap.specs.Walk.{first_of};
ghost use Rattle.chk_bytes.specs.Words.{is_word};
ghost use Rattle.chk_ctl_line.specs.Asked.{asked_by, asked_in, collectors_in, word_in};
ghost use Rattle.chk_ctl_line.specs.Asked.{ReadsCommand};
ghost use Rattle.chk_ctl_line.specs.Commands.{asked_of, IsGood};
ghost use Rattle.chk_ctl_line.specs.Given.{rows_in};
ghost use Rattle.chk_ctl_line.specs.Names.{are_collectors};
ghost use Rattle.chk_ctl_line.specs.Options.{plain_of};

use crate::commands::{CheckWords, Command, WordsFault};
use crate::names::{are_collectors, is_word};
use crate::options::Given;
use crate::usage::Usage;
use std::alloc::Global;

/// What the words of which the first is `check` ask for.
pub(crate) fn read_check<'a>(alloc: Global, words: &'a [&'a str]) -> Result<Command<'a>, WordsFault>
    ensures asked { ReadsCommand (asked_in Usage.Check (map (λ w. w.now) words.now)) result }
    ensures good { IfOk result (λ command. IsGood (asked_of command)) }
{
    let given = Given::read(alloc, Usage::Check, words)?;
    check_by(alloc, &given)
}

fn check_by<'a>(alloc: Global, given: &Given<'a>) -> Result<Command<'a>, WordsFault>
    ensures asked { ReadsCommand (asked_by Usage.Check (rows_in given.now)) result }
    ensures good { IfOk result (λ command. IsGood (asked_of command)) }
{
    if given.has("help") {
        return Ok(Command::Help(Usage::Check));
    }
    let file = file_in(given).ok_or(WordsFault::Usage)?;
    let collectors = collectors_in(given).ok_or(WordsFault::Usage)?;
    Ok(Command::Check(CheckWords {
        file,
        collectors: collectors.to_vec(alloc)?,
    }))
}

/// The value of `--initial`, where it is a word.
fn file_in<'a>(given: &Given<'a>) -> Option<&'a str>
    ensures asked { option_map (λ w. w.now) result
        ≡ word_in (first_of (codes "initial") (rows_in given.now)) }
    ensures good { IfSome result (λ w. IsTrue (is_word w.now)) }
{
    match given.value("initial")? {
        file if is_word(file) => Some(file),
        _ => None,
    }
}

/// The words that are no options, where they may be the addresses of collectors.
fn collectors_in<'a, 'g>(given: &'g Given<'a>) -> Option<&'g [&'a str]>
    ensures asked { option_map (λ ws. map (λ w. w.now) ws.now) result
        ≡ collectors_in (plain_of (rows_in given.now)) }
    ensures good { IfSome result (λ ws. IsTrue (are_collectors (map (λ w. w.now) ws.now))) }
{
    match given.plain()? {
        words if are_collectors(words) => Some(words),
        _ => None,
    }
}
