//! The words of `subscribe`.

ghost use Rattle.std.specs.Prelude.{◌≡◌, option_map, IfSome};
ghost use Rattle.chk_cmd_line.specs.Asked.{asked_subscribe};
ghost use Rattle.chk_cmd_line.specs.Commands.{asked_of};
ghost use Rattle.chk_cmd_line.specs.Given.{rows_in};
ghost use Rattle.chk_cmd_line.specs.Good.{IsGood};

use crate::commands::Command;
use crate::names::is_word;
use crate::options::Given;
use chk_bytes::LAST_NUMBER;

/// The words of `subscribe`.
#[derive(Clone, Copy, Debug)]
pub struct SubscribeWords<'a> {
    /// How many turns it runs, from 1.
    pub turns: u64,
    /// The address at which it takes messages.
    pub address: &'a str,
}

pub(crate) fn read_subscribe<'a>(given: &Given<'a>) -> Option<Command<'a>>
    ensures asked { option_map asked_of result ≡ asked_subscribe (rows_in given.now) }
    ensures good { IfSome result (λ command. IsGood (asked_of command)) }
{
    let turns = given.number("turns", LAST_NUMBER, 1, LAST_NUMBER)?;
    match given.plain()? {
        [address] if is_word(address) => {
            Some(Command::Subscribe(SubscribeWords { turns, address }))
        }
        _ => None,
    }
}
