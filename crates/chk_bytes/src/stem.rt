//! Stems, the names of sinks.

ghost use Rattle.std.specs.Prelude.{◌≡◌, ◌≤◌, ◌++◌, ◌==◌, length, take, position, Some, IsTrue, SomeIff, MatchOption, OnOk, OnErr};
ghost use Rattle.chk_bytes.specs.Stems.{is_stem, stem_of, stem_text, read_stem, same_stem, is_collector, is_stem_letter, is_count};
ghost use Rattle.chk_bytes.specs.StemFields.{padded};
ghost use Rattle.chk_bytes.specs.StemEquality.{same_stem_laws, same_stem_equivalence};
ghost use Rattle.chk_bytes.specs.Words.{lacks, SplitsAt};
ghost use Rattle.std.specs.List.{list_all};

use crate::{Bytes, NoMemory, put_decimal, take_plain_decimal};
use std::fmt;
use std::marker::Model;

/// The name of a sink: its collector, the number of the collector's start, and the number of the
/// sink within that start. It is 88 bytes of data without memory on the heap, and is copied.
#[derive(Clone, Copy)]
pub struct Stem {
    letters: [u8; 64],
    used: usize,
    born: u64,
    number: u64,
}

impl Model for Stem {
    ghost use Rattle.chk_bytes.specs.Stems.{Stem as Parts};

    ghost Value = { Parts };

    ghost use Rattle.chk_bytes.specs.StemFields.{stem_view, stem_inside, IsSound};
    ghost use Rattle.chk_bytes.specs.StemFields.{stem_inside-stem_view};

    ghost view = { stem_view };

    ghost invariant = { IsSound };

    ghost inverse = { stem_inside };

    ghost inverse_ok = { stem_inside-stem_view };
}

impl Stem {
    /// The stem of a collector's name, which has 1 to 64 letters, digits, `_` and `-`, of a start
    /// and of a sink in it, both from 1 to 2^63 - 1.
    pub fn new(name: &str, born: u64, number: u64) -> Option<Stem>
        ensures { let x = stem_of name.now born number in SomeIff result (IsTrue (is_stem x)) x }
    {
        let text = name.as_bytes();
        if !is_collector(text) || !is_count(born) || !is_count(number) {
            return None;
        }
        Some(Stem {
            letters: padded(text),
            used: text.len(),
            born,
            number,
        })
    }

    /// The stem that a text spells as `write` writes it, with no leading zeros.
    pub fn read(text: &[u8]) -> Option<Stem>
        ensures { result ≡ read_stem text.now }
    {
        let (name, numbers) = split_at_dot(text)?;
        let (born, number) = split_at_dot(numbers)?;
        let born = take_plain_decimal(born)?;
        let number = take_plain_decimal(number)?;
        match str::from_utf8(name) {
            Ok(name) => Stem::new(name, born, number),
            Err(_) => None,
        }
    }

    /// Appends `<name>.<born>.<number>`, at most 104 bytes, or without memory nothing.
    pub fn write(&self, out: &mut Bytes) -> Result<(), NoMemory>
        ensures ok { OnOk result (out.new ≡ out.old ++ stem_text self.now) }
        ensures err { OnErr result (out.new ≡ out.old) }
    {
        let length = out.len();
        let written = self.append_to(out);
        if written.is_err() {
            out.truncate(length);
        }
        written
    }

    // Appends the text, or without memory a part of it.
    fn append_to(&self, out: &mut Bytes) -> Result<(), NoMemory>
        ensures ok { OnOk result (out.new ≡ out.old ++ stem_text self.now) }
        ensures err { OnErr result (take (length out.old) out.new ≡ out.old) }
    {
        out.push_all(self.name().as_bytes())?;
        out.push_all(b".")?;
        put_decimal(out, self.born)?;
        out.push_all(b".")?;
        put_decimal(out, self.number)
    }

    /// The collector's name.
    pub fn name(&self) -> &str
        ensures name { result.now ≡ self.now.collector }
        ensures stem { IsTrue (is_stem self.now) }
    {
        match str::from_utf8(&self.letters[..self.used]) {
            Ok(name) => name,
            Err(_) => unreachable!(),
        }
    }

    /// The number of the collector's start, from 1.
    pub fn born(&self) -> u64
        ensures born { result ≡ self.now.born }
        ensures stem { IsTrue (is_stem self.now) }
    {
        self.born
    }

    /// The number of the sink within its start, from 1.
    pub fn number(&self) -> u64
        ensures number { result ≡ self.now.number }
        ensures stem { IsTrue (is_stem self.now) }
    {
        self.number
    }
}

impl PartialEq for Stem {
    ghost eq = { same_stem };

    ghost laws = { same_stem_laws };

    fn eq(&self, other: &Stem) -> bool {
        self.name() == other.name() && self.born == other.born && self.number == other.number
    }
}

impl Eq for Stem {
    ghost laws = { same_stem_equivalence };
}

impl fmt::Display for Stem {
    ghost output = { λ x. Some (stem_text x) };

    fn fmt<W: fmt::Write>(&self, f: &mut fmt::Formatter<W>) -> fmt::Result {
        let name = self.name();
        let born = self.born;
        let number = self.number;
        write!(f, "{name}.{born}.{number}")
    }
}

impl fmt::Debug for Stem {
    fn fmt<W: fmt::Write>(&self, f: &mut fmt::Formatter<W>) -> fmt::Result {
        write!(f, "Stem({self})")
    }
}

// What stands before and behind the first dot.
fn split_at_dot(text: &[u8]) -> Option<(&[u8], &[u8])>
    ensures { MatchOption result (IsTrue (lacks 46 text.now))
        (λ parts. SplitsAt 46 text.now parts.0.now parts.1.now) }
{
    let at = first_dot(text)?;
    Some((&text[..at], &text[at + 1..]))
}

fn first_dot(text: &[u8]) -> Option<usize>
    ensures { result ≡ position (λ b. b == 46) text.now }
{
    text.iter().position(|b| *b == b'.')
}

fn is_collector(name: &[u8]) -> bool
    ensures { result ≡ is_collector name.now }
{
    !name.is_empty() && name.len() <= 64 && has_stem_letters(name)
}

fn has_stem_letters(name: &[u8]) -> bool
    ensures { result ≡ list_all is_stem_letter name.now }
{
    name.iter()
        .all(|b| b.is_ascii_alphanumeric() || *b == b'_' || *b == b'-')
}

// The name with zeros behind it.
fn padded(name: &[u8]) -> [u8; 64]
    requires { length name.now ≤ 64 }
    ensures { result ≡ padded name.now }
{
    let mut letters = [0; 64];
    letters[..name.len()].copy_from_slice(name);
    letters
}

fn is_count(n: u64) -> bool
    ensures { result ≡ is_count n }
{
    n >= 1 && n < 1 << 63
}
