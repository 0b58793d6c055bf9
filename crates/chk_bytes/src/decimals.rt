//! Numbers as decimal digits.

ghost use Rattle.std.specs.Prelude.{◌≡◌, ◌↔◌, ◌<◌, ◌≤◌, ◌++◌, length, drop, slice_index, decimal, IsTrue, OnOk, OnErr};
ghost use Rattle.std.specs.Char.{is_ascii_digit};
ghost use Rattle.std.specs.List.{list_all};
ghost use Rattle.std.specs.Str.Parse.{digits_value};
ghost use Rattle.chk_bytes.specs.Numbers.{number_in_digits, plain_number};

use crate::{Bytes, NoMemory};

/// Appends a number in decimal digits without leading zeros, or without memory nothing.
pub fn put_decimal(out: &mut Bytes, n: u64) -> Result<(), NoMemory>
    ensures ok { OnOk result (out.new ≡ out.old ++ decimal n) }
    ensures err { OnErr result (out.new ≡ out.old) }
{
    let mut digits = [b'0'; 20];
    let from = digits_at_end(n, &mut digits);
    out.push_all(&digits[from..])
}

// Writes the digits of `n` at the end of `digits`, which holds any number of 64 bits, and answers
// where they begin.
fn digits_at_end(n: u64, digits: &mut [u8; 20]) -> usize
    ensures within { result ≤ 20 }
    ensures value { drop result digits.new ≡ decimal n }
{
    let mut from = 19;
    let mut rest = n;
    while rest >= 10 {
        digits[from] = b'0' + (rest % 10) as u8;
        rest /= 10;
        from -= 1;
    }
    digits[from] = b'0' + rest as u8;
    from
}

/// The number of 1 to 19 decimal digits that the bytes are, where it is below 2^63. Leading zeros
/// are allowed, signs and spaces are not.
pub fn take_decimal(bytes: &[u8]) -> Option<u64>
    ensures { result ≡ number_in_digits bytes.now }
{
    if bytes.is_empty() || bytes.len() > 19 || !are_digits(bytes) {
        return None;
    }
    let n = number_of(bytes);
    if n < 1 << 63 { Some(n) } else { None }
}

/// The number that the bytes are as `put_decimal` writes it, where it is below 2^63: the same
/// without leading zeros.
pub fn take_plain_decimal(bytes: &[u8]) -> Option<u64>
    ensures { result ≡ plain_number bytes.now }
{
    if has_leading_zero(bytes) {
        None
    } else {
        take_decimal(bytes)
    }
}

fn has_leading_zero(bytes: &[u8]) -> bool
    ensures { IsTrue result ↔ ((1 < length bytes.now) × (slice_index bytes.now 0 ≡ 48)) }
{
    bytes.len() > 1 && bytes[0] == b'0'
}

fn are_digits(bytes: &[u8]) -> bool
    ensures { result ≡ list_all is_ascii_digit bytes.now }
{
    bytes.iter().all(|b| b.is_ascii_digit())
}

// The number that digits write.
fn number_of(digits: &[u8]) -> u64
    requires digits { IsTrue (list_all is_ascii_digit digits.now) }
    requires short { length digits.now ≤ 19 }
    ensures { result ≡ digits_value 10 digits.now }
{
    let mut n = 0;
    for digit in digits {
        n = n * 10 + u64::from(*digit - b'0');
    }
    n
}
