//! The words of a line, one space between each two.

ghost use Rattle.std.specs.Prelude.{◌≡◌, ◌<◌, ◌+◌, ◌∷◌, [], List, ℕ, length, IfSome, IfNone, ◌==◌, is_some};
ghost use Rattle.chk_bytes.specs.Words.{parts_at};
ghost use Rattle.chk_checkpoint.specs.Lines.{text_version};
ghost use Rattle.chk_checkpoint.specs.Fields.{rest_words, last_words, words_in, count_of, has_start};

use crate::version::Version;
use chk_bytes::first_space;
use std::marker::Model;

/// The words that are still to come.
#[derive(Drop)]
struct Spaced<'a> {
    rest: Option<&'a [u8]>,
}

impl<'a> Model for Spaced<'a> {
    ghost Value = { List (List ℕ) };

    ghost view = { λ words. rest_words words.rest };
}

impl<'a> Spaced<'a> {
    fn new(line: &'a [u8]) -> Spaced<'a>
        ensures { result ≡ parts_at 32 line.now }
    {
        Spaced { rest: Some(line) }
    }

    // The next word, which is empty between two spaces.
    fn next(&mut self) -> Option<&'a [u8]>
        ensures some { IfSome result (λ word. self.old ≡ word.now ∷ self.new) }
        ensures none { IfNone result (self.old ≡ []) }
    {
        let rest = self.rest?;
        match first_space(rest) {
            Some(at) => {
                self.rest = Some(&rest[at + 1..]);
                Some(&rest[..at])
            }
            None => {
                self.rest = None;
                Some(rest)
            }
        }
    }

    // The next three words.
    fn next_three(&mut self) -> Option<(&'a [u8], &'a [u8], &'a [u8])>
        ensures some { IfSome result (λ words. self.old ≡ words.0.now ∷ words.1.now ∷ words.2.now ∷ self.new) }
        ensures none { IfNone result (length self.old < 3) }
    {
        let first = self.next()?;
        let second = self.next()?;
        let third = self.next()?;
        Some((first, second, third))
    }

    // The start, where the version has it and no word follows.
    fn last(&mut self, version: Version) -> Option<Option<&'a [u8]>>
        ensures some { IfSome result (λ start. self.old ≡ last_words start) }
        ensures start { IfSome result (λ start. is_some start ≡ has_start (text_version version)) }
        ensures none { IfNone result (9 + length self.old ≡ count_of (text_version version) → ⊥) }
    {
        let start = match version {
            Version::One => None,
            Version::Two => Some(self.next()?),
        };
        if self.next().is_some() {
            return None;
        }
        Some(start)
    }
}

/// The words of a line by what they stand for. The start is there in the second version alone.
#[derive(Clone, Copy)]
pub(crate) struct Words<'a> {
    pub(crate) state: &'a [u8],
    pub(crate) name: &'a [u8],
    pub(crate) equal: &'a [u8],
    pub(crate) class: &'a [u8],
    pub(crate) kind: &'a [u8],
    pub(crate) path: &'a [u8],
    pub(crate) offset: &'a [u8],
    pub(crate) first: &'a [u8],
    pub(crate) after: &'a [u8],
    pub(crate) start: Option<&'a [u8]>,
}

/// The words of a line, where there are as many as the version has.
pub(crate) fn words_of<'a>(version: Version, line: &'a [u8]) -> Option<Words<'a>>
    ensures some { IfSome result (λ w. parts_at 32 line.now ≡ words_in w) }
    ensures start { IfSome result (λ w. is_some w.start ≡ has_start (text_version version)) }
    ensures none { IfNone result (length (parts_at 32 line.now) ≡ count_of (text_version version) → ⊥) }
{
    let mut words = Spaced::new(line);
    let (state, name, equal) = words.next_three()?;
    let (class, kind, path) = words.next_three()?;
    let (offset, first, after) = words.next_three()?;
    let start = words.last(version)?;
    Some(Words {
        state,
        name,
        equal,
        class,
        kind,
        path,
        offset,
        first,
        after,
        start,
    })
}
