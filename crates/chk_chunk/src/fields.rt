//! The fields of keys and posts: numbers and texts at places, each with its fault where it is
//! wrong.

ghost use Rattle.std.specs.Prelude.{◌≡◌, ◌≤◌, ◌<◌, ◌+◌, length, Some, None, IfOk, IfErr, IfSome};
ghost use Rattle.std.specs.Prelude.{not, position};
ghost use Rattle.chk_bytes.specs.Words.{is_word_byte};
ghost use Rattle.chk_chunk.specs.Faults.{short_fault, trailing_fault, letters_fault, text_fault};
ghost use Rattle.chk_chunk.specs.Faults.{stream_fault};
ghost use Rattle.chk_chunk.specs.Fields.{IsNumberAt, IsTextAt, IsStreamAt};

use crate::ChunkFault;
use chk_bytes::{take_u16, take_u32, take_u64};

// The three texts of a stream.
#[derive(Clone, Copy)]
pub(crate) struct StreamRef<'a> {
    pub source: &'a str,
    pub kind: &'a str,
    pub name: &'a str,
}

// The number of 1, 2, 4 or 8 bytes that stands at a place.
#[tactic(auto, unfolding(crate::specs::Faults::fault_if))]
pub(crate) fn u8_at(bytes: &[u8], at: usize) -> Result<u8, ChunkFault>
    ensures fault { IfErr result (λ fault. short_fault at 1 bytes.now ≡ Some fault) }
    ensures value { IfOk result (λ n. IsNumberAt at 1 bytes.now n) }
{
    if at >= bytes.len() {
        return Err(ChunkFault::Short { at: at as u64 });
    }
    Ok(bytes[at])
}

#[tactic(auto, unfolding(crate::specs::Faults::fault_if))]
pub(crate) fn u16_at(bytes: &[u8], at: usize) -> Result<u16, ChunkFault>
    ensures fault { IfErr result (λ fault. short_fault at 2 bytes.now ≡ Some fault) }
    ensures value { IfOk result (λ n. IsNumberAt at 2 bytes.now n) }
{
    take_u16(bytes, at).ok_or(ChunkFault::Short { at: at as u64 })
}

#[tactic(auto, unfolding(crate::specs::Faults::fault_if))]
pub(crate) fn u32_at(bytes: &[u8], at: usize) -> Result<u32, ChunkFault>
    ensures fault { IfErr result (λ fault. short_fault at 4 bytes.now ≡ Some fault) }
    ensures value { IfOk result (λ n. IsNumberAt at 4 bytes.now n) }
{
    take_u32(bytes, at).ok_or(ChunkFault::Short { at: at as u64 })
}

#[tactic(auto, unfolding(crate::specs::Faults::fault_if))]
pub(crate) fn u64_at(bytes: &[u8], at: usize) -> Result<u64, ChunkFault>
    ensures fault { IfErr result (λ fault. short_fault at 8 bytes.now ≡ Some fault) }
    ensures value { IfOk result (λ n. IsNumberAt at 8 bytes.now n) }
{
    take_u64(bytes, at).ok_or(ChunkFault::Short { at: at as u64 })
}

// Nothing stands at `at` or behind it.
#[tactic(auto, unfolding(crate::specs::Faults::fault_if))]
pub(crate) fn end_at(bytes: &[u8], at: usize) -> Result<(), ChunkFault>
    ensures fault { IfErr result (λ fault. trailing_fault at bytes.now ≡ Some fault) }
    ensures last { IfOk result (λ _. trailing_fault at bytes.now ≡ None) }
{
    if at < bytes.len() {
        return Err(ChunkFault::Trailing { at: at as u64 });
    }
    Ok(())
}

// The bytes as a text that may be a word, where they stand from `at` on.
fn letters_of(bytes: &[u8], at: usize) -> Result<&str, ChunkFault>
    requires { at + length bytes.now ≤ usize.MAX }
    ensures fault { IfErr result (λ fault. letters_fault at bytes.now ≡ Some fault) }
    ensures fine { IfOk result (λ _. letters_fault at bytes.now ≡ None) }
    ensures text { IfOk result (λ text. text.now ≡ bytes.now) }
{
    match str::from_utf8(bytes) {
        Ok(text) => match not_word_at(bytes) {
            Some(i) => Err(ChunkFault::NotWord {
                at: (at + i) as u64,
            }),
            None => Ok(text),
        },
        Err(error) => Err(ChunkFault::NotUtf8 {
            at: (at + error.valid_up_to()) as u64,
        }),
    }
}

// The place of the first byte that may not stand in a word.
fn not_word_at(bytes: &[u8]) -> Option<usize>
    ensures place { result ≡ position (λ b. not (is_word_byte b)) bytes.now }
    ensures within { IfSome result (λ i. i < length bytes.now) }
{
    bytes.iter().position(|b| *b <= 0x20 || *b == 0x7F)
}

// The text whose length stands at `at`, and the place behind it.
#[tactic(auto, unfolding(crate::specs::Faults::text_fault, crate::specs::Faults::first_fault, crate::specs::Faults::fault_if))]
pub(crate) fn text_at(bytes: &[u8], at: usize) -> Result<(&str, usize), ChunkFault>
    ensures fault { IfErr result (λ fault. text_fault at bytes.now ≡ Some fault) }
    ensures text { IfOk result (λ found. IsTextAt at bytes.now found.0.now found.1) }
{
    let size = usize::from(u16_at(bytes, at)?);
    if size == 0 {
        return Err(ChunkFault::Empty { at: at as u64 });
    }
    if size > 4096 {
        return Err(ChunkFault::TooLong {
            limit: 4096,
            found: size as u64,
        });
    }
    let from = at + 2;
    let end = from + size;
    if bytes.len() < end {
        return Err(ChunkFault::Short { at: from as u64 });
    }
    let text = letters_of(&bytes[from..end], from)?;
    Ok((text, end))
}

// The three texts of a stream, whose first length stands at `at`, and the place behind them.
#[tactic(auto, unfolding(crate::specs::Faults::stream_fault, crate::specs::Faults::first_fault))]
pub(crate) fn stream_at(bytes: &[u8], at: usize) -> Result<(StreamRef<'_>, usize), ChunkFault>
    ensures fault { IfErr result (λ fault. stream_fault at bytes.now ≡ Some fault) }
    ensures stream { IfOk result (λ found. IsStreamAt at bytes.now found.0 found.1) }
{
    let (source, kind_at) = text_at(bytes, at)?;
    let (kind, name_at) = text_at(bytes, kind_at)?;
    let (name, end) = text_at(bytes, name_at)?;
    Ok((StreamRef { source, kind, name }, end))
}
