//! Words: the texts that name sources, types, streams, paths and addresses.

ghost use Rattle.std.specs.Prelude.{◌≡◌, ℕ, List, IfOk, IfErr, IsTrue, not, position, Some, string_bytes};
ghost use Rattle.chk_bytes.specs.Words.{is_word, is_word_byte, text_lt};
ghost use Rattle.chk_bytes.specs.WordFaults.{word_fault_of, IsRefusal};

use crate::NoMemory;
use std::alloc::Global;
use std::fmt;
use std::marker::Model;

// The most bytes of a word.
const LIMIT: usize = 4096;

/// Why a text is no word. The first that holds is told, in this order.
#[derive(Clone, Copy, Debug, PartialEq, Eq)]
pub enum WordFault {
    /// It has no byte.
    Empty,
    /// It has `found` bytes, more than `limit`, which is 4,096.
    TooLong { limit: u64, found: u64 },
    /// It isn't UTF-8. The bytes before `at` are, and those up to any later place aren't.
    NotUtf8 { at: u64 },
    /// The first space, control byte or byte 127 (DEL) stands at `at`.
    NotWord { at: u64 },
    /// It is a word, but there was no memory for it.
    NoMemory,
}

/// A text of 1 to 4,096 bytes of UTF-8 with no byte at or below the space and no byte 127, so it
/// stands in a line or a path as it is.
#[derive(Debug, Drop)]
pub struct Word {
    text: String,
}

impl Model for Word {
    ghost Value = { List ℕ };

    ghost view = { λ w. string_bytes w.text };

    ghost invariant = { λ w. IsTrue (is_word (string_bytes w.text)) };
}

impl Word {
    /// The word of these bytes. A text over the limit is refused without reading it.
    pub fn new(alloc: Global, text: &[u8]) -> Result<Word, WordFault>
        ensures text { IfOk result (λ w. w ≡ text.now) }
        ensures word { IfOk result (λ w. IsTrue (is_word w)) }
        ensures faultless { IfOk result (λ w. word_fault_of text.now ≡ None) }
        ensures refused { IfErr result (λ fault. IsRefusal text.now fault) }
    {
        if let Some(fault) = word_fault(text) {
            return Err(fault);
        }
        match str::from_utf8(text) {
            Ok(text) => Word::from_text(alloc, text).map_err(|_| WordFault::NoMemory),
            Err(_) => unreachable!(),
        }
    }

    /// The word of a text that is known to be one.
    pub fn from_text(alloc: Global, text: &str) -> Result<Word, NoMemory>
        requires word { IsTrue (is_word text.now) }
        ensures { IfOk result (λ w. w ≡ text.now) }
    {
        Ok(Word {
            text: String::from_str(alloc, text)?,
        })
    }

    /// The text, without a copy.
    pub fn as_str(&self) -> &str
        ensures text { result.now ≡ self.now }
        ensures word { IsTrue (is_word self.now) }
    {
        self.text.as_str()
    }

    /// A second word of the same text, from the same allocator.
    pub fn copy(&self) -> Result<Word, NoMemory>
        ensures { IfOk result (λ w. w ≡ self.now) }
    {
        let text = self.text.clone()?;
        Ok(Word { text })
    }
}

impl fmt::Display for Word {
    ghost output = { λ w. Some w };

    fn fmt<W: fmt::Write>(&self, f: &mut fmt::Formatter<W>) -> fmt::Result {
        let text = self.text.as_str();
        write!(f, "{text}")
    }
}

/// What is wrong with a text as a word, `None` where it is one. It takes no memory, and reads a
/// text of up to 4,096 bytes twice and a longer one not at all. It never answers `NoMemory`.
pub fn word_fault(text: &[u8]) -> Option<WordFault>
    ensures { result ≡ word_fault_of text.now }
{
    if text.is_empty() {
        return Some(WordFault::Empty);
    }
    if text.len() > LIMIT {
        return Some(WordFault::TooLong {
            limit: LIMIT as u64,
            found: text.len() as u64,
        });
    }
    match str::from_utf8(text) {
        Ok(_) => not_word_at(text).map(|at| WordFault::NotWord { at: at as u64 }),
        Err(error) => Some(WordFault::NotUtf8 {
            at: error.valid_up_to() as u64,
        }),
    }
}

// The place of the first byte that may not stand in a word.
fn not_word_at(text: &[u8]) -> Option<usize>
    ensures { result ≡ position (λ b. not (is_word_byte b)) text.now }
{
    text.iter().position(|b| *b <= 0x20 || *b == 0x7F)
}

/// The first text comes before the other one in byte order.
pub fn comes_before(a: &str, b: &str) -> bool
    ensures { result ≡ text_lt a.now b.now }
{
    a < b
}
