//! The words of `join`, and the lines that it prints.

ghost use Rattle.std.specs.Prelude.{◌≡◌, ◌++◌, option_map, IfSome, OnErr, OnOk};
ghost use Rattle.chk_cmd_line.specs.Asked.{asked_join};
ghost use Rattle.chk_cmd_line.specs.Commands.{asked_of};
ghost use Rattle.chk_cmd_line.specs.Given.{rows_in};
ghost use Rattle.chk_cmd_line.specs.Good.{IsGood};
ghost use Rattle.chk_cmd_line.specs.Joining.{is_joinable, join_line};

use crate::commands::Command;
use crate::lines::{Part, put_line};
use crate::names::is_word;
use crate::options::Given;
use chk_bytes::{Bytes, NoMemory};

/// The most bytes of the name of a folder whose archive is joined.
const LONGEST_FOLDER: usize = 4_072;

/// The words of `join`.
#[derive(Clone, Copy, Debug)]
pub struct JoinWords<'a> {
    /// The folder of the one archive, of at most 4,072 bytes, and neither `joined` nor `demux`.
    pub left: &'a str,
    /// The folder of the other one, of which the same holds.
    pub right: &'a str,
}

pub(crate) fn read_join<'a>(given: &Given<'a>) -> Option<Command<'a>>
    ensures asked { option_map asked_of result ≡ asked_join (rows_in given.now) }
    ensures good { IfSome result (λ command. IsGood (asked_of command)) }
{
    match given.plain()? {
        [left, right] if is_joinable(left) && is_joinable(right) => {
            Some(Command::Join(JoinWords { left, right }))
        }
        _ => None,
    }
}

// Whether the archive in a folder of this name can be joined.
fn is_joinable(folder: &str) -> bool
    ensures { result ≡ is_joinable folder.now }
{
    is_word(folder) && folder.len() <= LONGEST_FOLDER && folder != "joined" && folder != "demux"
}

/// Appends the report of a join, or without memory nothing. It tells the streams of the joined
/// archive, and their bytes.
pub fn put_join(out: &mut Bytes, streams: u32, bytes: u64) -> Result<(), NoMemory>
    ensures ok { OnOk result (out.new ≡ out.old ++ join_line streams bytes) }
    ensures err { OnErr result (out.new ≡ out.old) }
{
    let parts = [
        Part::Text("join"),
        Part::Text("streams"),
        Part::Number(u64::from(streams)),
        Part::Text("bytes"),
        Part::Number(bytes),
    ];
    put_line(out, &parts)
}
