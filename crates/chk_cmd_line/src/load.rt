//! The lines that a load appends to its three logs.

ghost use Rattle.std.specs.Prelude.{◌≡◌, ◌≤◌, ◌<◌, ◌^◌, ℕ, OnErr};
ghost use Rattle.chk_cmd_line.specs.Loads.{LoadPlace, Moved, load_log, load_value, next_value};

use crate::lines::{Part, put_line};
use chk_bytes::{Bytes, NoMemory};
use std::marker::Model;

/// The path of the log to which line `line` goes, counted from 0.
pub fn load_log(line: u64) -> &'static str
    ensures { result.now ≡ load_log line }
{
    let log = line % 3;
    if log == 0 {
        "load.0.log"
    } else if log == 1 {
        "load.1.log"
    } else {
        "load.2.log"
    }
}

/// The lines of `load` for a number of lines, given one after the other in constant time each.
#[derive(Debug, Drop)]
pub struct LoadLines {
    lines: u64,
    line: u64,
    value: u64,
}

impl Model for LoadLines {
    ghost Value = { LoadPlace };

    ghost view = { λ l. record { lines = l.lines; line = l.line } };

    ghost invariant = { λ l. (l.value ≡ load_value l.lines l.line) × (l.line ≤ l.lines) };
}

impl LoadLines {
    /// The lines of a load of so many, from the first one on.
    pub fn new(lines: u64) -> LoadLines
        ensures { result ≡ record { lines = lines; line = 0 } }
    {
        LoadLines {
            lines,
            line: 0,
            value: lines % (1 << 31),
        }
    }

    /// The number of the line that comes next, from 0.
    pub fn line(&self) -> u64
        ensures { result ≡ self.now.line }
    {
        self.line
    }

    /// Appends the next line, of at most 31 bytes, and tells whether there was one. Without memory
    /// nothing changes.
    pub fn put_next(&mut self, out: &mut Bytes) -> Result<bool, NoMemory>
        ensures moved { Moved self.old self.new out.old out.new result }
        ensures err_lines { OnErr result (self.new ≡ self.old) }
        ensures err_out { OnErr result (out.new ≡ out.old) }
    {
        if self.line == self.lines {
            return Ok(false);
        }
        put_line(out, &[Part::Number(self.line), Part::Number(self.value)])?;
        self.line += 1;
        self.value = next_value(self.value);
        Ok(true)
    }
}

// The next number of the linear congruential generator.
fn next_value(value: u64) -> u64
    requires { value < 2 ^ 31 }
    ensures { result ≡ next_value value }
{
    (1_103_515_245 * value + 12_345) % (1 << 31)
}
