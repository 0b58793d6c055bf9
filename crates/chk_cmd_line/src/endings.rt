//! How a run ends otherwise than well.

ghost use Rattle.std.specs.Prelude.{◌≡◌, ◌++◌, OnOk, OnErr};
ghost use Rattle.chk_cmd_line.specs.Endings.{differ_line, ending_line, ending_status};

use crate::lines::{Part, put_line};
use chk_bytes::{Bytes, NoMemory, Stem, Word};
use chk_site::Call;

/// How a run ends otherwise than well, where its words are a command. Each has a status and a
/// line.
#[derive(Debug, Drop)]
pub enum Ending {
    /// This call on the outside failed; 3.
    Outside {
        call: Call,
    },
    /// There was no memory; 4.
    NoMemory,
    /// The bytes of the named file aren't in its grammar from `at` on; 5.
    Damaged {
        name: Word,
        at: u64,
    },
    /// The last poll gave a committed length `got` below the answered offset `want`; 6.
    Length {
        stem: Stem,
        got: u64,
        want: u64,
    },
    /// Each of `reads` reads of this log gave bytes; 6.
    Growing {
        path: Word,
        reads: u64,
    },
    /// A sink of another collector was under writing; 6.
    Unclosed {
        name: Word,
    },
    /// A log has `is` bytes, fewer than the place `had` from which it was to be read; 7.
    Shrank {
        path: Word,
        had: u64,
        is: u64,
    },
    /// A number that can't grow was to grow; 8.
    Spent {
        number: u64,
    },
    /// All addresses refused, the last of them with this code; 9.
    Refused {
        code: u16,
    },
    /// Two archives have this stream, and differ in it at this offset; 11.
    Differ {
        source: Word,
        kind: Word,
        name: Word,
        at: u64,
    },
}

impl Ending {
    /// The status with which the program ends.
    pub fn status(&self) -> u8
        ensures { result ≡ ending_status self.now }
    {
        match self {
            Ending::Outside { .. } => 3,
            Ending::NoMemory => 4,
            Ending::Damaged { .. } => 5,
            Ending::Length { .. } | Ending::Growing { .. } | Ending::Unclosed { .. } => 6,
            Ending::Shrank { .. } => 7,
            Ending::Spent { .. } => 8,
            Ending::Refused { .. } => 9,
            Ending::Differ { .. } => 11,
        }
    }

    /// Appends the line that says it, or without memory nothing.
    pub fn put_line(&self, out: &mut Bytes) -> Result<(), NoMemory>
        ensures ok { OnOk result (out.new ≡ out.old ++ ending_line self.now) }
        ensures err { OnErr result (out.new ≡ out.old) }
    {
        match self {
            Ending::Outside { call } => {
                put_line(out, &[Part::Text("outside"), Part::Text(call.name())])
            }
            Ending::NoMemory => out.push_all(b"out of memory\n"),
            Ending::Damaged { name, at } => put_line(
                out,
                &[
                    Part::Text("damaged"),
                    Part::Text(name.as_str()),
                    Part::Number(*at),
                ],
            ),
            Ending::Length { stem, got, want } => put_line(
                out,
                &[
                    Part::Text("pending"),
                    Part::Text("length"),
                    Part::Stem(stem),
                    Part::Number(*got),
                    Part::Number(*want),
                ],
            ),
            Ending::Growing { path, reads } => put_line(
                out,
                &[
                    Part::Text("pending"),
                    Part::Text("growing"),
                    Part::Text(path.as_str()),
                    Part::Number(*reads),
                ],
            ),
            Ending::Unclosed { name } => put_line(
                out,
                &[
                    Part::Text("pending"),
                    Part::Text("unclosed"),
                    Part::Text(name.as_str()),
                ],
            ),
            Ending::Shrank { path, had, is } => put_line(
                out,
                &[
                    Part::Text("shrank"),
                    Part::Text(path.as_str()),
                    Part::Number(*had),
                    Part::Number(*is),
                ],
            ),
            Ending::Spent { number } => {
                put_line(out, &[Part::Text("spent"), Part::Number(*number)])
            }
            Ending::Refused { code } => put_line(
                out,
                &[Part::Text("refused"), Part::Number(u64::from(*code))],
            ),
            Ending::Differ {
                source,
                kind,
                name,
                at,
            } => put_differ(out, source.as_str(), kind.as_str(), name.as_str(), *at),
        }
    }
}

fn put_differ<'a>(
    out: &mut Bytes,
    source: &'a str,
    kind: &'a str,
    name: &'a str,
    at: u64,
) -> Result<(), NoMemory>
    ensures ok { OnOk result (out.new ≡ out.old
        ++ differ_line source.entry.now kind.entry.now name.entry.now at) }
    ensures err { OnErr result (out.new ≡ out.old) }
{
    let parts = [
        Part::Text("differ"),
        Part::Text(source),
        Part::Text(kind),
        Part::Text(name),
        Part::Number(at),
    ];
    put_line(out, &parts)
}
