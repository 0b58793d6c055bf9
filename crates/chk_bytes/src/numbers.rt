//! Numbers of 2, 4 and 8 bytes, the high byte first.

ghost use Rattle.std.specs.Prelude.{◌≡◌, ◌+◌, ◌^◌, ◌<◌, ◌≤◌, ◌++◌, length, take, drop, OnOk, OnErr, SomeIff, MatchOption};
ghost use Rattle.chk_bytes.specs.Numbers.{be16, be32, be64, spelled, spelled_at};

use crate::{Bytes, NoMemory};

/// The last number that files have: all are below 2^63.
pub const LAST_NUMBER: u64 = (1 << 63) - 1;

/// Appends a number as 2 bytes, or without memory nothing.
pub fn put_u16(out: &mut Bytes, n: u16) -> Result<(), NoMemory>
    ensures ok { OnOk result (out.new ≡ out.old ++ be16 n) }
    ensures err { OnErr result (out.new ≡ out.old) }
{
    out.push_all(&n.to_be_bytes())
}

/// Appends a number as 4 bytes, or without memory nothing.
pub fn put_u32(out: &mut Bytes, n: u32) -> Result<(), NoMemory>
    ensures ok { OnOk result (out.new ≡ out.old ++ be32 n) }
    ensures err { OnErr result (out.new ≡ out.old) }
{
    out.push_all(&n.to_be_bytes())
}

/// Appends a number as 8 bytes, or without memory nothing.
pub fn put_u64(out: &mut Bytes, n: u64) -> Result<(), NoMemory>
    ensures ok { OnOk result (out.new ≡ out.old ++ be64 n) }
    ensures err { OnErr result (out.new ≡ out.old) }
{
    out.push_all(&n.to_be_bytes())
}

/// The number that the 2 bytes from a place spell, `None` where fewer stand there. The place may
/// lie behind the end.
pub fn take_u16(bytes: &[u8], at: usize) -> Option<u16>
    ensures { SomeIff result (at + 2 ≤ length bytes.now) (spelled_at at 2 bytes.now) }
{
    Some(spelled_number(piece_at(bytes, at, 2)?) as u16)
}

/// The number that the 4 bytes from a place spell, `None` where fewer stand there. The place may
/// lie behind the end.
pub fn take_u32(bytes: &[u8], at: usize) -> Option<u32>
    ensures { SomeIff result (at + 4 ≤ length bytes.now) (spelled_at at 4 bytes.now) }
{
    Some(spelled_number(piece_at(bytes, at, 4)?) as u32)
}

/// The number that the 8 bytes from a place spell, `None` where fewer stand there. The place may
/// lie behind the end.
pub fn take_u64(bytes: &[u8], at: usize) -> Option<u64>
    ensures { SomeIff result (at + 8 ≤ length bytes.now) (spelled_at at 8 bytes.now) }
{
    Some(spelled_number(piece_at(bytes, at, 8)?))
}

// The bytes from a place, `None` where fewer than `size` stand there.
pub(crate) fn piece_at(bytes: &[u8], at: usize, size: usize) -> Option<&[u8]>
    ensures { MatchOption result (length bytes.now < at + size)
        (λ piece. (piece.now ≡ take size (drop at bytes.now)) × (at + size ≤ length bytes.now)) }
{
    if at <= bytes.len() && size <= bytes.len() - at {
        Some(&bytes[at..at + size])
    } else {
        None
    }
}

// The number that up to 8 bytes spell, the high one first.
pub(crate) fn spelled_number(bytes: &[u8]) -> u64
    requires { length bytes.now ≤ 8 }
    ensures value { result ≡ spelled bytes.now }
    ensures bound { result < 256 ^ length bytes.now }
{
    let mut n = 0;
    for byte in bytes {
        n = n * 256 + u64::from(*byte);
    }
    n
}
