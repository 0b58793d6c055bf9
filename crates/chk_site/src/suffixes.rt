// The suffixes of rotated generations, and what is read of a log.
ghost use Rattle.std.specs.Prelude.{◌≡◌, IfOk, OnOk, IfErr, IsTrue, count_by};
ghost use Rattle.std.specs.Char.{is_ascii_digit};
ghost use Rattle.std.specs.List.{list_all};
ghost use Rattle.chk_site.specs.Suffixes.{is_suffix, is_date, is_date_byte, IsNoSuffix};

use chk_bytes::{Bytes, NoMemory, Word, WordFault};
use std::alloc::Global;
use std::marker::Model;

/// What follows the base name in a rotated file's name: `.` or `-`, then 8 to 32 bytes that are digits, `-` or `_`, the
/// first a digit, with at least eight digits, as `.2010-11-08` or `-20101108`. A newer suffix is greater in byte order.
#[derive(Debug, Drop)]
pub struct Suffix {
    text: Word,
}

impl Model for Suffix {
    ghost use Rattle.std.specs.Prelude.{List, ℕ, IsTrue};
    ghost use Rattle.chk_site.specs.Suffixes.{is_suffix};

    ghost Value = { List ℕ };

    ghost view = { λ s. s.text };

    ghost invariant = { λ s. IsTrue (is_suffix s.text) };
}

impl Suffix {
    /// The suffix of these bytes. `NotWord` at 0 comes exactly where they are none.
    pub fn new(alloc: Global, text: &[u8]) -> Result<Suffix, WordFault>
        ensures text { IfOk result (λ s. s ≡ text.now) }
        ensures suffix { OnOk result (IsTrue (is_suffix text.now)) }
        ensures refused { IfErr result (λ fault. IsNoSuffix text.now fault) }
    {
        if !is_suffix(text) {
            return Err(WordFault::NotWord { at: 0 });
        }
        match str::from_utf8(text) {
            Ok(text) => match Word::from_text(alloc, text) {
                Ok(text) => Ok(Suffix { text }),
                Err(NoMemory) => Err(WordFault::NoMemory),
            },
            Err(_) => unreachable!(),
        }
    }

    /// The text, without a copy.
    pub fn as_str(&self) -> &str
        ensures text { result.now ≡ self.now }
        ensures suffix { IsTrue (is_suffix self.now) }
    {
        self.text.as_str()
    }

    /// A second suffix of the same text.
    pub fn copy(&self) -> Result<Suffix, NoMemory>
        ensures { IfOk result (λ s. s ≡ self.now) }
    {
        let text = self.text.copy()?;
        Ok(Suffix { text })
    }
}

/// Whether the bytes are a suffix.
pub fn is_suffix(text: &[u8]) -> bool
    ensures { result ≡ is_suffix text.now }
{
    match text {
        [b'.' | b'-', date @ ..] => is_date(date),
        _ => false,
    }
}

fn is_date(text: &[u8]) -> bool
    ensures { result ≡ is_date text.now }
{
    match text {
        [first, rest @ ..] => {
            first.is_ascii_digit()
                && rest.len() >= 7
                && rest.len() <= 31
                && all_dated(rest)
                && digits(rest) >= 7
        }
        [] => false,
    }
}

fn all_dated(text: &[u8]) -> bool
    ensures { result ≡ list_all is_date_byte text.now }
{
    text.iter()
        .all(|b| b.is_ascii_digit() || *b == b'-' || *b == b'_')
}

fn digits(text: &[u8]) -> usize
    ensures { result ≡ count_by is_ascii_digit text.now }
{
    text.iter().filter(|b| b.is_ascii_digit()).count()
}

/// Which generations of a log are asked for.
pub enum Part<'a> {
    /// The base file alone.
    Base,
    /// Those after this suffix (none: all of them), and then the base file.
    After(Option<&'a Suffix>),
}

/// What a read of a log gave, and the suffix of a rotated generation whose end it reached.
#[derive(Drop)]
pub struct Piece {
    pub bytes: Bytes,
    pub ended: Option<Suffix>,
}

/// The first piece of a message that was taken, and the number of the taking.
#[derive(Drop)]
pub struct Taking {
    pub number: u64,
    pub bytes: Bytes,
}
