//! Variable-length integers, as Hadoop's WritableUtils writes them.

ghost use Rattle.std.specs.Prelude.{◌≡◌, ◌<◌, ◌≤◌, ◌^◌, ◌++◌, length, OnOk, OnErr};
ghost use Rattle.chk_bytes.specs.Vints.{vint_spelling, vint_at, vint_size, vint_number, begins_negative};

use crate::numbers::{piece_at, spelled_number};
use crate::{Bytes, NoMemory};

/// Why no number from 0 to 2^31 - 1 stands somewhere. The first that holds is told, in this order.
#[derive(Clone, Copy, Debug, PartialEq, Eq)]
pub enum VintFault {
    /// The bytes end before the number does.
    Short,
    /// The number is below 0.
    Negative,
    /// The number is 2^31 or more.
    TooLarge,
}

/// Appends the shortest spelling of a number, 1 to 5 bytes, or without memory nothing.
pub fn put_vint(out: &mut Bytes, n: u32) -> Result<(), NoMemory>
    requires { n < 2 ^ 31 }
    ensures ok { OnOk result (out.new ≡ out.old ++ vint_spelling n) }
    ensures err { OnErr result (out.new ≡ out.old) }
{
    let [high, second, third, low] = n.to_be_bytes();
    if n < 1 << 7 {
        out.push_all(&[low])
    } else if n < 1 << 8 {
        out.push_all(&[0x8F, low])
    } else if n < 1 << 16 {
        out.push_all(&[0x8E, third, low])
    } else if n < 1 << 24 {
        out.push_all(&[0x8D, second, third, low])
    } else {
        out.push_all(&[0x8C, high, second, third, low])
    }
}

/// The number that stands at a place, in any of its spellings, and the place behind it. A place
/// behind the end of the bytes is `Short`.
pub fn take_vint(bytes: &[u8], at: usize) -> Result<(u32, usize), VintFault>
    ensures { result ≡ vint_at bytes.now at }
{
    if at >= bytes.len() {
        return Err(VintFault::Short);
    }
    let first = bytes[at];
    let size = vint_size(first);
    let Some(rest) = piece_at(bytes, at + 1, size) else {
        return Err(VintFault::Short);
    };
    if begins_negative(first) {
        return Err(VintFault::Negative);
    }
    let number = vint_number(first, rest);
    if number < 1 << 31 {
        Ok((number as u32, at + 1 + size))
    } else {
        Err(VintFault::TooLarge)
    }
}

// How many bytes follow a first byte.
fn vint_size(first: u8) -> usize
    ensures { result ≡ vint_size first }
{
    match first {
        0..=127 | 144..=255 => 0,
        128..=135 => 136 - first as usize,
        136..=143 => 144 - first as usize,
    }
}

// A number from 0, by its first byte and the bytes that follow.
fn vint_number(first: u8, following: &[u8]) -> u64
    requires { length following.now ≤ 8 }
    ensures { result ≡ vint_number first following.now }
{
    if first < 128 {
        u64::from(first)
    } else {
        spelled_number(following)
    }
}

fn begins_negative(first: u8) -> bool
    ensures { result ≡ begins_negative first }
{
    matches!(first, 128..=135 | 144..=255)
}
