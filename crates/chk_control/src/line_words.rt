//! The words of a line, one after the other.

ghost use Rattle.std.specs.Prelude.{◌≡◌, ◌∷◌, [], List, ℕ, not, position, IfSome, IfNone};
ghost use Rattle.chk_control.specs.LineWords.{is_gap, words_of};

use std::marker::Model;

/// The words that are still to come. Spaces and tabs stand between them.
#[derive(Drop)]
pub(crate) struct LineWords<'a> {
    rest: &'a [u8],
}

impl<'a> Model for LineWords<'a> {
    ghost Value = { List (List ℕ) };

    ghost view = { λ words. words_of words.rest.now };
}

impl<'a> LineWords<'a> {
    pub(crate) fn new(line: &'a [u8]) -> LineWords<'a>
        ensures { result ≡ words_of line.now }
    {
        LineWords { rest: line }
    }

    /// The next word.
    pub(crate) fn next(&mut self) -> Option<&'a [u8]>
        ensures some { IfSome result (λ word. self.old ≡ word.now ∷ self.new) }
        ensures none { IfNone result (self.old ≡ []) }
        ensures ends { IfNone result (self.new ≡ []) }
    {
        let start = word_start(self.rest)?;
        let from = &self.rest[start..];
        let size = gap_start(from).unwrap_or(from.len());
        self.rest = &from[size..];
        Some(&from[..size])
    }

    /// The same words, to be read on their own.
    pub(crate) fn copy(&self) -> LineWords<'a>
        ensures { result ≡ self.now }
    {
        LineWords { rest: self.rest }
    }
}

fn is_gap(byte: u8) -> bool
    ensures { result ≡ is_gap byte }
{
    byte == b' ' || byte == b'\t'
}

fn word_start(bytes: &[u8]) -> Option<usize>
    ensures { result ≡ position (λ b. not (is_gap b)) bytes.now }
{
    bytes.iter().position(|b| !is_gap(*b))
}

fn gap_start(bytes: &[u8]) -> Option<usize>
    ensures { result ≡ position is_gap bytes.now }
{
    bytes.iter().position(|b| is_gap(*b))
}
