//! The stems of a query.

ghost use Rattle.std.specs.Prelude.{◌≡◌, [], ◌∷◌, ℕ, List, IsTrue, IfSome, IfNone};
ghost use Rattle.chk_bytes.specs.Stems.{Stem as Parts};
ghost use Rattle.chk_http.specs.Queries.{IsQuery, IsFirstPart};

use crate::split::split_at;
use chk_bytes::Stem;
use std::marker::Model;

/// The most stems of a query.
pub const MOST_STEMS: usize = 64;

/// The stems that a query still holds, in order, borrowed from it. A stem may come twice.
#[derive(Debug, Drop)]
pub struct StemList<'a> {
    rest: &'a [u8],
}

impl<'a> Model for StemList<'a> {
    ghost use Rattle.std.specs.Prelude.{List};
    ghost use Rattle.chk_bytes.specs.Stems.{Stem as Parts};

    ghost Value = { List Parts };

    ghost use Rattle.chk_http.specs.Queries.{stems_in, AreListed};

    ghost view = { λ l. stems_in l.rest.now };

    ghost invariant = { λ l. AreListed l.rest.now };
}

impl<'a> StemList<'a> {
    /// The stems of a query, which are 1 to 64 with `&` between each two. It reads the query once
    /// and takes no memory.
    pub fn new(query: &'a str) -> Option<StemList<'a>>
        ensures some { IfSome result (λ stems. IsQuery stems query.now) }
        ensures none { IfNone result ((stems : List Parts) → ¬ (IsQuery stems query.now)) }
    {
        let rest = query.as_bytes();
        if is_query(rest) {
            Some(StemList { rest })
        } else {
            None
        }
    }

    /// The next stem, `None` after the last and ever after.
    pub fn next(&mut self) -> Option<Stem>
        ensures item { IfSome result (λ stem. self.old ≡ stem ∷ self.new) }
        ensures end { IfNone result ((self.old ≡ []) × (self.new ≡ [])) }
    {
        if self.rest.is_empty() {
            return None;
        }
        let (part, behind) = first_part(self.rest);
        self.rest = behind;
        Stem::read(part)
    }
}

// The first part, and what stands behind the separator: nothing where there is none.
fn first_part(text: &[u8]) -> (&[u8], &[u8])
    ensures { IsFirstPart text.now result.0.now result.1.now }
{
    match split_at(text, b'&') {
        Some(parts) => parts,
        None => (text, &text[text.len()..]),
    }
}

/// Whether a text is 1 to 64 stems with `&` between each two.
pub fn is_query(text: &[u8]) -> bool
    ensures stems { IsTrue result → (stems : List Parts) × IsQuery stems text.now }
    ensures none { (stems : List Parts) → IsQuery stems text.now → IsTrue result }
{
    let mut rest = text;
    for _taken in 0..MOST_STEMS {
        match split_at(rest, b'&') {
            Some((part, behind)) => {
                if Stem::read(part).is_none() {
                    return false;
                }
                rest = behind;
            }
            None => return Stem::read(rest).is_some(),
        }
    }
    false
}
