//! Messages of a tee, read.

ghost use Rattle.std.specs.Prelude.{◌≡◌, ◌<◌, ◌≤◌, ◌+◌, ◌∷◌, [], List, length};
ghost use Rattle.std.specs.Prelude.{IsTrue, IfOk, IfErr, IsOkAnd, IfSome, IfNone, MatchOption};
ghost use Rattle.std.specs.Prelude.{Some, None};
ghost use Rattle.chk_bytes.specs.Numbers.{spelled_at};
ghost use Rattle.chk_tee.specs.Messages.{Teed as TeedSpec, IsTee, is_teed};
ghost use Rattle.chk_tee.specs.Faults.{mark_wrong, teed_wrong, teeds_wrong, tee_fault};
ghost use Rattle.chk_tee.specs.Fields.{IsTeedAt};
ghost use Rattle.chk_tee.specs.Lent.{lent_teed};

use crate::fields::{end_at, key_at, offset_at, stem_at, u32_at, value_at};
use crate::{TEE_BYTES, TEE_CHUNKS, TeeFault, Teed};
use chk_chunk::ChunkRef;
use std::marker::Model;

/// A message that was read. It gives its chunks in order, borrowed from the message's bytes, and
/// takes no memory.
#[derive(Drop)]
pub struct TeeRef<'a> {
    bytes: &'a [u8],
    at: usize,
    left: u32,
}

impl<'a> Model for TeeRef<'a> {
    ghost use Rattle.std.specs.Prelude.{List};
    ghost use Rattle.chk_tee.specs.Messages.{Teed as TeedSpec};

    ghost Value = { List TeedSpec };

    ghost use Rattle.chk_tee.specs.TeeFields.{tee_view, IsSoundTee};

    ghost view = { tee_view };

    ghost invariant = { IsSoundTee };
}

impl<'a> TeeRef<'a> {
    /// The next chunk, `None` after the last.
    pub fn next(&mut self) -> Option<Teed<'a>>
        ensures first { MatchOption result (self.old ≡ []) (λ t. self.old ≡ lent_teed t ∷ self.new) }
        ensures valid { IfSome result (λ t. IsTrue (is_teed (lent_teed t))) }
        ensures last { IfNone result (self.new ≡ []) }
    {
        if self.left == 0 {
            return None;
        }
        match teed_at(self.bytes, self.at) {
            Ok((teed, end)) => {
                self.at = end;
                self.left -= 1;
                Some(teed)
            }
            Err(_) => unreachable!(),
        }
    }
}

/// The chunks of the message that the bytes are. The whole message is read once, so its chunks are
/// then given without a fault. It takes no memory.
pub fn read_tee(bytes: &[u8]) -> Result<TeeRef<'_>, TeeFault>
    ensures tee { IfOk result (λ tee. IsTee tee bytes.now) }
    ensures every_tee { (items : List TeedSpec) → IsTee items bytes.now → IsOkAnd result (λ tee. tee ≡ items) }
    ensures fault { IfErr result (λ fault. tee_fault bytes.now ≡ Some fault) }
{
    let count = check_tee(bytes)?;
    Ok(TeeRef {
        bytes,
        at: 9,
        left: count,
    })
}

// How many chunks the bytes have, where they are a message.
#[tactic(auto, unfolding(crate::specs::Faults::tee_fault, crate::specs::Faults::first_wrong, crate::specs::Faults::wrong_if))]
fn check_tee(bytes: &[u8]) -> Result<u32, TeeFault>
    ensures fault { IfErr result (λ fault. tee_fault bytes.now ≡ Some fault) }
    ensures fine { IfOk result (λ _. tee_fault bytes.now ≡ None) }
    ensures count { IfOk result (λ count. count ≡ spelled_at 5 4 bytes.now) }
{
    let found = bytes.len() as u64;
    if found > TEE_BYTES {
        return Err(TeeFault::TooLong {
            limit: TEE_BYTES,
            found,
        });
    }
    check_mark(bytes)?;
    let count = u32_at(bytes, 5)?;
    if count == 0 || count > TEE_CHUNKS {
        return Err(TeeFault::BadCount { count });
    }
    check_teeds(bytes, count)?;
    Ok(count)
}

// The first five bytes are `CHKT` and the version.
#[tactic(auto, unfolding(crate::specs::Faults::mark_wrong, crate::specs::Faults::wrong_if))]
fn check_mark(bytes: &[u8]) -> Result<(), TeeFault>
    ensures fault { IfErr result (λ fault. mark_wrong bytes.now ≡ Some fault) }
    ensures fine { IfOk result (λ _. mark_wrong bytes.now ≡ None) }
{
    let mark = b"CHKT\x01";
    let size = bytes.len().min(5);
    if bytes[..size] != mark[..size] {
        return Err(TeeFault::NotTee);
    }
    if size < 5 {
        return Err(TeeFault::Short { at: 0 });
    }
    Ok(())
}

// From place 9 on the bytes are so many chunks.
#[tactic(auto, unfolding(crate::specs::Faults::first_wrong))]
fn check_teeds(bytes: &[u8], count: u32) -> Result<(), TeeFault>
    requires { 9 ≤ length bytes.now }
    ensures fault { IfErr result (λ fault. teeds_wrong count 9 bytes.now ≡ Some fault) }
    ensures fine { IfOk result (λ _. teeds_wrong count 9 bytes.now ≡ None) }
{
    let mut at = 9;
    for _done in 0..count {
        match teed_at(bytes, at) {
            Ok((_, end)) => at = end,
            Err(fault) => return Err(fault),
        }
    }
    end_at(bytes, at)
}

// The chunk that stands at `at`, with its stem and its offset, and the place behind it.
#[tactic(auto, unfolding(crate::specs::Faults::teed_wrong, crate::specs::Faults::first_wrong, crate::specs::Messages::guessed_teed, chk_chunk::specs::Posts::guessed_chunk))]
fn teed_at(bytes: &[u8], at: usize) -> Result<(Teed<'_>, usize), TeeFault>
    ensures fault { IfErr result (λ fault. teed_wrong at bytes.now ≡ Some fault) }
    ensures teed { IfOk result (λ found. IsTeedAt at bytes.now (lent_teed found.0) found.1) }
{
    let (stem, offset_at_place) = stem_at(bytes, at)?;
    let offset = offset_at(bytes, offset_at_place)?;
    let (key, value_at_place) = key_at(bytes, offset_at_place + 8)?;
    let (value, end) = value_at(bytes, value_at_place, &key)?;
    let chunk = ChunkRef {
        source: key.source,
        kind: key.kind,
        name: key.name,
        start: key.start,
        cluster: key.cluster,
        seq: key.seq,
        body: value,
    };
    let teed = Teed {
        stem,
        offset,
        chunk,
    };
    Ok((teed, end))
}
