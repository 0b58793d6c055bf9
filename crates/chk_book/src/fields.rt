//! The fields of a book, each with its place where it is wrong.

ghost use Rattle.std.specs.Prelude.{◌≡◌, ◌≤◌, ◌<◌, ◌+◌, ◌^◌, ℕ, List, length, drop, take, Some, None, IfOk, IfErr, IsTrue, string_bytes};
ghost use Rattle.chk_bytes.specs.Numbers.{be64, spelled_at};
ghost use Rattle.chk_bytes.specs.Words.{is_word};
ghost use Rattle.chk_bytes.specs.WordFaults.{IsRefusal};
ghost use Rattle.chk_chunk.specs.Keys.{text_at, behind_text};
ghost use Rattle.chk_book.specs.Damage.{head_damage, next_damage, count_damage, segment_damage, offsets_damage, text_damage, end_place, start_there, texts_place};
ghost use Rattle.chk_book.specs.Reading.{IsRefused, IsNoWord};

use crate::lists::Segment;
use chk_bytes::{NoMemory, Word, WordFault, take_u16, take_u32, take_u64};
use std::alloc::Global;

/// Why bytes give no book.
#[derive(Clone, Copy)]
pub(crate) enum BookFault {
    /// The field at `at` is the first that is wrong.
    Damaged { at: u64 },
    NoMemory,
}

impl From<NoMemory> for BookFault {
    ghost use Rattle.std.specs.Prelude.{◌≡◌};
    ghost use Rattle.chk_book.specs.declared.fields.BookFault.TheVariants.{NoMemory};

    ghost from_gives = { λ _ e. e ≡ NoMemory };

    fn from(_: NoMemory) -> Self {
        BookFault::NoMemory
    }
}

/// The version, at the end of the first five bytes.
#[tactic(auto, unfolding(crate::specs::Damage::head_damage, crate::specs::Damage::damage_unless))]
pub(crate) fn version_of(bytes: &[u8]) -> Result<u8, BookFault>
    ensures fault { IfErr result (IsRefused (head_damage bytes.now)) }
    ensures head { IfOk result (λ version. (head_damage bytes.now ≡ None) × (version ≡ spelled_at 4 1 bytes.now)) }
{
    let letters: &[u8] = b"CHKB";
    if bytes.len() < 5 || &bytes[..4] != letters || bytes[4] < 1 || bytes[4] > 3 {
        return Err(BookFault::Damaged { at: 0 });
    }
    Ok(bytes[4])
}

/// The next number.
#[tactic(auto, unfolding(crate::specs::Damage::next_damage, crate::specs::Damage::damage_unless))]
pub(crate) fn next_of(bytes: &[u8]) -> Result<u64, BookFault>
    ensures fault { IfErr result (IsRefused (next_damage bytes.now)) }
    ensures next { IfOk result (λ next. (next_damage bytes.now ≡ None) × (next ≡ spelled_at 5 8 bytes.now)
        × (next < 2 ^ 63) × (13 ≤ length bytes.now)) }
{
    match take_u64(bytes, 5) {
        Some(next) if next > 0 && next < 1 << 63 => Ok(next),
        _ => Err(BookFault::Damaged { at: 5 }),
    }
}

/// A count.
#[tactic(auto, unfolding(crate::specs::Damage::count_damage, crate::specs::Damage::damage_unless))]
pub(crate) fn count_at(bytes: &[u8], at: usize) -> Result<u32, BookFault>
    ensures fault { IfErr result (IsRefused (count_damage at bytes.now)) }
    ensures count { IfOk result (λ count. (count_damage at bytes.now ≡ None) × (count ≡ spelled_at at 4 bytes.now)
        × (at + 4 ≤ length bytes.now) × (count < 2 ^ 32)) }
{
    take_u32(bytes, at).ok_or(BookFault::Damaged { at: at as u64 })
}

/// A segment whose number is past the last one.
#[tactic(auto, unfolding(crate::specs::Damage::segment_damage, crate::specs::Damage::first_damage, crate::specs::Damage::damage_unless))]
pub(crate) fn segment_at(
    bytes: &[u8],
    at: usize,
    next: u64,
    last: u64,
) -> Result<Segment, BookFault>
    requires { at ≤ length bytes.now }
    ensures fault { IfErr result (IsRefused (segment_damage next last at bytes.now)) }
    ensures segment { IfOk result (λ g. (segment_damage next last at bytes.now ≡ None)
        × (g.number ≡ spelled_at at 8 bytes.now) × (g.length ≡ spelled_at (at + 8) 8 bytes.now)) }
{
    let number = match take_u64(bytes, at) {
        Some(number) if number > last && number < next => number,
        _ => return Err(BookFault::Damaged { at: at as u64 }),
    };
    let length = match take_u64(bytes, at + 8) {
        Some(length) if length >= 96 && length < 1 << 63 => length,
        _ => return Err(BookFault::Damaged {
            at: (at + 8) as u64,
        }),
    };
    Ok(Segment { number, length })
}

/// A stream's start and end, and the place behind them.
#[tactic(auto, unfolding(crate::specs::Damage::offsets_damage, crate::specs::Damage::first_damage, crate::specs::Damage::damage_unless))]
pub(crate) fn offsets_at(
    bytes: &[u8],
    at: usize,
    starts: bool,
) -> Result<(u64, u64, usize), BookFault>
    requires { at ≤ length bytes.now }
    ensures fault { IfErr result (IsRefused (offsets_damage starts at bytes.now)) }
    ensures offsets { IfOk result (λ found. (offsets_damage starts at bytes.now ≡ None)
        × (found.0 ≡ start_there starts at bytes.now) × (found.1 ≡ spelled_at (end_place starts at) 8 bytes.now)) }
    ensures behind { IfOk result (λ found. (found.2 ≡ texts_place starts at) × (found.2 ≤ length bytes.now)) }
{
    let (start, end_at) = if starts {
        match take_u64(bytes, at) {
            Some(start) if start < 1 << 62 => (start, at + 8),
            _ => return Err(BookFault::Damaged { at: at as u64 }),
        }
    } else {
        (0, at)
    };
    match take_u64(bytes, end_at) {
        Some(end) if start <= end && end < 1 << 63 => Ok((start, end, end_at + 8)),
        _ => Err(BookFault::Damaged { at: end_at as u64 }),
    }
}

/// A word behind its length, and the place behind it.
#[tactic(auto, unfolding(crate::specs::Damage::text_damage, crate::specs::Damage::first_damage, crate::specs::Damage::damage_unless))]
pub(crate) fn text_at(alloc: Global, bytes: &[u8], at: usize) -> Result<(Word, usize), BookFault>
    requires { at ≤ length bytes.now }
    ensures fault { IfErr result (IsRefused (text_damage at bytes.now)) }
    ensures text { IfOk result (λ found. (text_damage at bytes.now ≡ None)
        × (found.0 ≡ text_at at bytes.now) × (found.1 ≡ behind_text at bytes.now) × (found.1 ≤ length bytes.now)) }
{
    let size = match take_u16(bytes, at) {
        Some(size) if size > 0 && size <= 4096 => usize::from(size),
        _ => return Err(BookFault::Damaged { at: at as u64 }),
    };
    let from = at + 2;
    let end = from + size;
    if bytes.len() < end {
        return Err(BookFault::Damaged { at: from as u64 });
    }
    let word = word_of(alloc, &bytes[from..end], from)?;
    Ok((word, end))
}

/// The bytes as a word, which stand at `at`.
fn word_of(alloc: Global, text: &[u8], at: usize) -> Result<Word, BookFault>
    ensures fault { IfErr result (λ fault. IsNoWord at text.now fault) }
    ensures word { IfOk result (λ word. (word ≡ text.now) × IsTrue (is_word text.now)) }
{
    match Word::new(alloc, text) {
        Ok(word) => Ok(word),
        Err(fault) => Err(refusal_of(fault, at as u64)),
    }
}

fn refusal_of(fault: WordFault, at: u64) -> BookFault
    ensures { (text : List ℕ) → IsRefusal text fault → IsNoWord at text result }
{
    match fault {
        WordFault::NoMemory => BookFault::NoMemory,
        WordFault::Empty => BookFault::Damaged { at },
        WordFault::TooLong { .. } => BookFault::Damaged { at },
        WordFault::NotUtf8 { .. } => BookFault::Damaged { at },
        WordFault::NotWord { .. } => BookFault::Damaged { at },
    }
}
