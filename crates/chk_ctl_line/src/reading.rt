//! Words to commands.

ghost use Rattle.std.specs.Prelude.{◌≡◌, ◌≢◌, map, option_map, IfOk, IfSome, IsTrue};
ghost use Rattle.chk_ctl_line.specs.Names.{is_store};
ghost use Rattle.chk_ctl_line.specs.Asked.{asked, alone_named, asked_alone, asked_by, asked_cat};
ghost use Rattle.chk_ctl_line.specs.Asked.{asked_in, asked_passed, store_of, ReadsCommand};
ghost use Rattle.chk_ctl_line.specs.Commands.{asked_of, IsGood};
ghost use Rattle.chk_ctl_line.specs.Given.{rows_in};

use crate::auditing::read_audit;
use crate::checking::read_check;
use crate::commands::{CatWords, Command, PassedWords, WordsFault};
use crate::holding::read_held;
use crate::names::{is_store, is_word};
use crate::options::Given;
use crate::usage::{Usage, usage_of};
use std::alloc::Global;

/// The most of an offset.
const MOST: u64 = (1 << 63) - 1;

/// Reads the words behind the program's name. `Usage` comes exactly where they aren't a command;
/// `usage_of` says which line tells how they should have been. `--help` behind a command's name
/// asks for that line, whatever the other words that are no options are. Words of `status` are
/// no command here: `read_status` reads them. A parse takes memory for
/// the options and for one reference a word.
pub fn read_words<'a>(alloc: Global, words: &'a [&'a str]) -> Result<Command<'a>, WordsFault>
    ensures asked { ReadsCommand (asked (map (λ w. w.now) words.now)) result }
    ensures good { IfOk result (λ command. IsGood (asked_of command)) }
{
    match usage_of(words) {
        Usage::Commands => read_alone(words).ok_or(WordsFault::Usage),
        Usage::Audit => read_command(alloc, Usage::Audit, words),
        Usage::Cat => read_command(alloc, Usage::Cat, words),
        Usage::Check => read_check(alloc, words),
        Usage::Status => Err(WordsFault::Usage),
        Usage::Streams => read_command(alloc, Usage::Streams, words),
        Usage::Verify => read_command(alloc, Usage::Verify, words),
        Usage::Sum => read_command(alloc, Usage::Sum, words),
        Usage::Held => read_held(alloc, words),
        Usage::Passed => read_command(alloc, Usage::Passed, words),
    }
}

/// The command that the only word is, where it is one.
fn read_alone<'a>(words: &[&str]) -> Option<Command<'a>>
    ensures asked { option_map asked_of result ≡ asked_alone (map (λ w. w.now) words.now) }
    ensures good { IfSome result (λ command. IsGood (asked_of command)) }
{
    match words {
        [word] => alone_named(word),
        _ => None,
    }
}

fn alone_named<'a>(word: &str) -> Option<Command<'a>>
    ensures asked { option_map asked_of result ≡ alone_named word.now }
    ensures good { IfSome result (λ command. IsGood (asked_of command)) }
{
    match word {
        "--help" => Some(Command::Help(Usage::Commands)),
        "--version" => Some(Command::Version),
        _ => None,
    }
}

fn read_command<'a>(
    alloc: Global,
    usage: Usage,
    words: &'a [&'a str],
) -> Result<Command<'a>, WordsFault>
    requires alone { usage ≢ Usage.Check }
    requires apart { usage ≢ Usage.Held }
    ensures asked { ReadsCommand (asked_in usage (map (λ w. w.now) words.now)) result }
    ensures good { IfOk result (λ command. IsGood (asked_of command)) }
{
    let given = Given::read(alloc, usage, words)?;
    command_by(usage, &given).ok_or(WordsFault::Usage)
}

fn command_by<'a>(usage: Usage, given: &Given<'a>) -> Option<Command<'a>>
    requires alone { usage ≢ Usage.Check }
    requires apart { usage ≢ Usage.Held }
    ensures asked { option_map asked_of result ≡ asked_by usage (rows_in given.now) }
    ensures good { IfSome result (λ command. IsGood (asked_of command)) }
{
    if given.has("help") {
        return Some(Command::Help(usage));
    }
    match usage {
        Usage::Commands => None,
        Usage::Audit => read_audit(given),
        Usage::Cat => read_cat(given),
        Usage::Check | Usage::Held => unreachable!(),
        Usage::Status => None,
        Usage::Streams => Some(Command::Streams(read_store(given)?)),
        Usage::Verify => Some(Command::Verify(read_store(given)?)),
        Usage::Sum => Some(Command::Sum(read_store(given)?)),
        Usage::Passed => read_passed(given),
    }
}

fn read_cat<'a>(given: &Given<'a>) -> Option<Command<'a>>
    ensures asked { option_map asked_of result ≡ asked_cat (rows_in given.now) }
    ensures good { IfSome result (λ command. IsGood (asked_of command)) }
{
    let begin = given.number("begin", MOST)?;
    match given.plain()? {
        [store, source, kind, name]
            if is_store(store) && is_word(source) && is_word(kind) && is_word(name) => {
            Some(Command::Cat(CatWords {
                begin,
                follow: given.has("follow"),
                records: given.has("records"),
                store,
                source,
                kind,
                name,
            }))
        }
        _ => None,
    }
}

fn read_passed<'a>(given: &Given<'a>) -> Option<Command<'a>>
    ensures asked { option_map asked_of result ≡ asked_passed (rows_in given.now) }
    ensures good { IfSome result (λ command. IsGood (asked_of command)) }
{
    let agent = given.value("agent")?;
    match given.plain()? {
        [log] if is_store(agent) && is_word(log) => {
            Some(Command::Passed(PassedWords { agent, log }))
        }
        _ => None,
    }
}

// The path of a store, where it is the only word.
fn read_store<'a>(given: &Given<'a>) -> Option<&'a str>
    ensures asked { option_map (λ w. w.now) result ≡ store_of (rows_in given.now) }
    ensures good { IfSome result (λ w. IsTrue (is_store w.now)) }
{
    match given.plain()? {
        [store] if is_store(store) => Some(store),
        _ => None,
    }
}
