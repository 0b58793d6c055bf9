//! The fields of messages: numbers, stems, offsets, keys and data at places, each with its fault
//! where it is wrong.

ghost use Rattle.std.specs.Prelude.{◌≡◌, ◌≤◌, ◌<◌, ◌+◌, ◌^◌, length, Some, None, IfOk, IfErr};
ghost use Rattle.chk_chunk.specs.Lent.{lent_key};
ghost use Rattle.chk_tee.specs.Faults.{short_wrong, trailing_wrong, stem_wrong, offset_wrong};
ghost use Rattle.chk_tee.specs.Faults.{key_wrong, value_wrong, from_whole, IsNear};
ghost use Rattle.chk_tee.specs.Fields.{IsNumberAt, IsStemAt, IsOffsetAt, IsKeyAt, IsValueAt};

use crate::TeeFault;
use chk_bytes::{Stem, take_u16, take_u32, take_u64};
use chk_chunk::{CHUNK_BYTES, ChunkFault, KeyRef, read_key};

// The number of 2, 4 or 8 bytes that stands at a place.
#[tactic(auto, unfolding(crate::specs::Faults::wrong_if))]
pub(crate) fn u16_at(bytes: &[u8], at: usize) -> Result<u16, TeeFault>
    ensures fault { IfErr result (λ fault. short_wrong at 2 bytes.now ≡ Some fault) }
    ensures value { IfOk result (λ n. IsNumberAt at 2 bytes.now n) }
{
    take_u16(bytes, at).ok_or(TeeFault::Short { at: at as u64 })
}

#[tactic(auto, unfolding(crate::specs::Faults::wrong_if))]
pub(crate) fn u32_at(bytes: &[u8], at: usize) -> Result<u32, TeeFault>
    ensures fault { IfErr result (λ fault. short_wrong at 4 bytes.now ≡ Some fault) }
    ensures value { IfOk result (λ n. IsNumberAt at 4 bytes.now n) }
{
    take_u32(bytes, at).ok_or(TeeFault::Short { at: at as u64 })
}

#[tactic(auto, unfolding(crate::specs::Faults::wrong_if))]
fn u64_at(bytes: &[u8], at: usize) -> Result<u64, TeeFault>
    ensures fault { IfErr result (λ fault. short_wrong at 8 bytes.now ≡ Some fault) }
    ensures value { IfOk result (λ n. IsNumberAt at 8 bytes.now n) }
{
    take_u64(bytes, at).ok_or(TeeFault::Short { at: at as u64 })
}

// Nothing stands at `at` or behind it.
#[tactic(auto, unfolding(crate::specs::Faults::wrong_if))]
pub(crate) fn end_at(bytes: &[u8], at: usize) -> Result<(), TeeFault>
    ensures fault { IfErr result (λ fault. trailing_wrong at bytes.now ≡ Some fault) }
    ensures last { IfOk result (λ _. trailing_wrong at bytes.now ≡ None) }
{
    if at < bytes.len() {
        return Err(TeeFault::Trailing { at: at as u64 });
    }
    Ok(())
}

// The stem whose length stands at `at`, and the place behind it.
#[tactic(auto, unfolding(crate::specs::Faults::stem_wrong, crate::specs::Faults::first_wrong, crate::specs::Faults::wrong_if))]
pub(crate) fn stem_at(bytes: &[u8], at: usize) -> Result<(Stem, usize), TeeFault>
    ensures fault { IfErr result (λ fault. stem_wrong at bytes.now ≡ Some fault) }
    ensures stem { IfOk result (λ found. IsStemAt at bytes.now found.0 found.1) }
{
    let size = usize::from(u16_at(bytes, at)?);
    if size == 0 || size > 104 {
        return Err(TeeFault::BadStem { at: at as u64 });
    }
    let from = at + 2;
    let end = from + size;
    if bytes.len() < end {
        return Err(TeeFault::Short { at: from as u64 });
    }
    match Stem::read(&bytes[from..end]) {
        Some(stem) => Ok((stem, end)),
        None => Err(TeeFault::BadStem { at: from as u64 }),
    }
}

// The offset that stands at `at`.
#[tactic(auto, unfolding(crate::specs::Faults::offset_wrong, crate::specs::Faults::first_wrong, crate::specs::Faults::wrong_if))]
pub(crate) fn offset_at(bytes: &[u8], at: usize) -> Result<u64, TeeFault>
    ensures fault { IfErr result (λ fault. offset_wrong at bytes.now ≡ Some fault) }
    ensures offset { IfOk result (λ offset. IsOffsetAt at bytes.now offset) }
{
    let offset = u64_at(bytes, at)?;
    if offset == 0 || offset >= 1 << 63 {
        return Err(TeeFault::BadOffset { at: at as u64 });
    }
    Ok(offset)
}

// The key whose length stands at `at`, and the place behind it.
#[tactic(auto, unfolding(crate::specs::Faults::key_wrong, crate::specs::Faults::first_wrong, crate::specs::Faults::wrong_if))]
pub(crate) fn key_at(bytes: &[u8], at: usize) -> Result<(KeyRef<'_>, usize), TeeFault>
    ensures fault { IfErr result (λ fault. key_wrong at bytes.now ≡ Some fault) }
    ensures key { IfOk result (λ found. IsKeyAt at bytes.now (lent_key found.0) found.1) }
{
    let size = u32_at(bytes, at)? as usize;
    let from = at + 4;
    let end = from + size;
    if bytes.len() < end {
        return Err(TeeFault::Short { at: from as u64 });
    }
    match read_key(&bytes[from..end]) {
        Ok(key) => Ok((key, end)),
        Err(fault) => Err(TeeFault::BadChunk {
            fault: from_whole(fault, from as u64),
        }),
    }
}

// The fault of a key that begins at `from`, its place counted from the first byte of the whole.
fn from_whole(fault: ChunkFault, from: u64) -> ChunkFault
    requires from { from < 2 ^ 63 }
    requires near { IsNear fault }
    ensures { result ≡ from_whole from fault }
{
    match fault {
        ChunkFault::Short { at } => ChunkFault::Short { at: from + at },
        ChunkFault::NotUtf8 { at } => ChunkFault::NotUtf8 { at: from + at },
        ChunkFault::Empty { at } => ChunkFault::Empty { at: from + at },
        ChunkFault::Trailing { at } => ChunkFault::Trailing { at: from + at },
        ChunkFault::NotWord { at } => ChunkFault::NotWord { at: from + at },
        _ => fault,
    }
}

// The data whose length stands at `at`, of a chunk with this key, and the place behind it.
#[tactic(auto, unfolding(crate::specs::Faults::value_wrong, crate::specs::Faults::first_wrong, crate::specs::Faults::wrong_if))]
pub(crate) fn value_at<'a>(
    bytes: &'a [u8],
    at: usize,
    key: &KeyRef<'_>,
) -> Result<(&'a [u8], usize), TeeFault>
    requires { key.now.start < 2 ^ 63 }
    ensures fault { IfErr result (λ fault. value_wrong (lent_key key.now) at bytes.now ≡ Some fault) }
    ensures value { IfOk result (λ found. IsValueAt (lent_key key.now) at bytes.now found.0.now found.1) }
{
    let size = u32_at(bytes, at)?;
    if size == 0 {
        return Err(TeeFault::BadChunk {
            fault: ChunkFault::Empty { at: at as u64 },
        });
    }
    let len = u64::from(size);
    if len > CHUNK_BYTES {
        return Err(TeeFault::BadChunk {
            fault: ChunkFault::TooLong {
                limit: CHUNK_BYTES,
                found: len,
            },
        });
    }
    if key.seq < key.start + len {
        return Err(TeeFault::BadChunk {
            fault: ChunkFault::BeforeStart { seq: key.seq, len },
        });
    }
    let from = at + 4;
    let end = from + size as usize;
    if bytes.len() < end {
        return Err(TeeFault::Short { at: from as u64 });
    }
    Ok((&bytes[from..end], end))
}
