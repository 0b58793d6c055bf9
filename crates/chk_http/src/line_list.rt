//! The lines of a good reply.

ghost use Rattle.std.specs.Prelude.{◌≡◌, [], ◌∷◌, ℕ, List, IsTrue, IfSome, IfNone, IfOk, IfErr};
ghost use Rattle.std.specs.Prelude.{MatchOption};
ghost use Rattle.chk_http_grammar.specs.Messages.{Ack, ack_of};
ghost use Rattle.chk_http.specs.Lines.{IsLines, HasNoLine, BeginsWithLine};

use crate::HttpFault;
use crate::split::split_at;
use chk_bytes::{Stem, take_plain_decimal};
use std::marker::Model;

/// The lines that a body still holds, in order, borrowed from it.
#[derive(Debug, Drop)]
pub struct LineList<'a> {
    rest: &'a [u8],
    left: u32,
}

impl<'a> Model for LineList<'a> {
    ghost use Rattle.std.specs.Prelude.{List};
    ghost use Rattle.chk_http_grammar.specs.Messages.{Ack};

    ghost Value = { List Ack };

    ghost use Rattle.chk_http.specs.Lines.{acks_in, AreLinesListed};

    ghost view = { λ l. acks_in l.left l.rest.now };

    ghost invariant = { λ l. AreLinesListed l.left l.rest.now };
}

// A line, and what stands behind it.
#[derive(Clone, Copy)]
pub struct Line<'a> {
    pub stem: Stem,
    pub number: u64,
    pub behind: &'a [u8],
}

impl<'a> LineList<'a> {
    /// The lines of a body, which are just `count`: a stem, a space and a number below 2^63 without
    /// leading zeros. It reads the body once and takes no memory.
    pub fn new(body: &'a [u8], count: u32) -> Result<LineList<'a>, HttpFault>
        ensures lines { IfOk result (λ lines. IsLines count lines body.now) }
        ensures bad_line { IfErr result (λ fault. fault ≡ HttpFault.BadLine) }
        ensures none { IfErr result (λ _. (acks : List Ack) → ¬ (IsLines count acks body.now)) }
    {
        if !are_lines(body, count) {
            return Err(HttpFault::BadLine);
        }
        Ok(LineList {
            rest: body,
            left: count,
        })
    }

    /// The stem and the number of the next line, `None` after the last and ever after.
    pub fn next(&mut self) -> Option<(Stem, u64)>
        ensures item { IfSome result (λ line. self.old ≡ ack_of line.0 line.1 ∷ self.new) }
        ensures end { IfNone result ((self.old ≡ []) × (self.new ≡ [])) }
    {
        if self.left == 0 {
            return None;
        }
        match first_line(self.rest) {
            Some(line) => {
                self.rest = line.behind;
                self.left -= 1;
                Some((line.stem, line.number))
            }
            None => None,
        }
    }
}

// Whether a body is just so many lines.
fn are_lines(body: &[u8], count: u32) -> bool
    ensures lines { IsTrue result → (acks : List Ack) × IsLines count acks body.now }
    ensures none { (acks : List Ack) → IsLines count acks body.now → IsTrue result }
{
    let mut rest = body;
    for _taken in 0..count {
        match first_line(rest) {
            Some(line) => rest = line.behind,
            None => return false,
        }
    }
    rest.is_empty()
}

// The line in front.
fn first_line(text: &[u8]) -> Option<Line<'_>>
    ensures { MatchOption result (HasNoLine text.now) (λ line. BeginsWithLine text.now line) }
{
    let (line, behind) = split_at(text, b'\n')?;
    let (stem, number) = split_at(line, b' ')?;
    let stem = Stem::read(stem)?;
    let number = take_plain_decimal(number)?;
    Some(Line {
        stem,
        number,
        behind,
    })
}
