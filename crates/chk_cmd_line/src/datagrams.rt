//! The words of `udp`, and the line that it prints.

ghost use Rattle.std.specs.Prelude.{◌≡◌, ◌++◌, option_map, IfSome, OnErr, OnOk};
ghost use Rattle.std.specs.List.{list_all};
ghost use Rattle.chk_cmd_line.specs.Asked.{asked_udp};
ghost use Rattle.chk_cmd_line.specs.Commands.{asked_of};
ghost use Rattle.chk_cmd_line.specs.Datagrams.{is_writer_byte, is_writer_name, udp_line};
ghost use Rattle.chk_cmd_line.specs.Given.{rows_in};
ghost use Rattle.chk_cmd_line.specs.Good.{IsGood};
ghost use Rattle.chk_cmd_line.specs.ReadUdp.{AreGoodUdp, ReadsUdpOptions};

use crate::commands::Command;
use crate::lines::{Part, put_line};
use crate::names::is_word;
use crate::options::Given;
use crate::reading::MOST_MESSAGES;
use chk_bytes::{Bytes, LAST_NUMBER, NoMemory};

/// The words of `udp`.
#[derive(Clone, Copy, Debug)]
pub struct UdpWords<'a> {
    /// How many turns it runs, from 1.
    pub turns: u64,
    /// The length in bytes at which a buffer is closed, from 1.
    pub rotate: u64,
    /// How many datagrams it takes at most between two commits, from 1 to 64.
    pub messages: u64,
    /// The writer's name, of 1 to 64 letters, digits and `_`.
    pub name: &'a str,
    /// The address at which it takes datagrams.
    pub address: &'a str,
}

pub(crate) fn read_udp<'a>(given: &Given<'a>) -> Option<Command<'a>>
    ensures asked { option_map asked_of result ≡ asked_udp (rows_in given.now) }
    ensures good { IfSome result (λ command. IsGood (asked_of command)) }
{
    let options = udp_options(given)?;
    match given.plain()? {
        [name, address] if is_writer(name) && is_word(address) => Some(Command::Udp(UdpWords {
            turns: options.turns,
            rotate: options.rotate,
            messages: options.messages,
            name,
            address,
        })),
        _ => None,
    }
}

#[derive(Clone, Copy)]
struct UdpOptions {
    turns: u64,
    rotate: u64,
    messages: u64,
}

fn udp_options(given: &Given<'_>) -> Option<UdpOptions>
    ensures asked { ReadsUdpOptions (rows_in given.now) result }
    ensures good { IfSome result AreGoodUdp }
{
    Some(UdpOptions {
        turns: given.number("turns", LAST_NUMBER, 1, LAST_NUMBER)?,
        rotate: given.number("rotate", 1_048_576, 1, LAST_NUMBER)?,
        messages: given.number("messages", 1, 1, MOST_MESSAGES)?,
    })
}

// Whether a text may name a writer of datagrams. No closed buffer of one name is a generation of
// another name's log, since there is no hyphen in them.
fn is_writer(text: &str) -> bool
    ensures { result ≡ is_writer_name text.now }
{
    let bytes = text.as_bytes();
    !bytes.is_empty() && bytes.len() <= 64 && are_writer_bytes(bytes)
}

fn are_writer_bytes(bytes: &[u8]) -> bool
    ensures { result ≡ list_all is_writer_byte bytes.now }
{
    bytes
        .iter()
        .all(|b| b.is_ascii_alphanumeric() || *b == b'_')
}

/// Appends the line of a run that took datagrams, or without memory nothing. It tells how many
/// were taken, and their bytes.
pub fn put_udp(out: &mut Bytes, taken: u64, bytes: u64) -> Result<(), NoMemory>
    ensures ok { OnOk result (out.new ≡ out.old ++ udp_line taken bytes) }
    ensures err { OnErr result (out.new ≡ out.old) }
{
    let parts = [
        Part::Text("udp"),
        Part::Text("taken"),
        Part::Number(taken),
        Part::Text("bytes"),
        Part::Number(bytes),
    ];
    put_line(out, &parts)
}
