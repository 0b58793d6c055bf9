//! Bodies of the length that a head states, read in place.

ghost use Rattle.std.specs.Prelude.{◌≡◌, ◌≤◌, ℕ, length, drop, codes, All};
ghost use Rattle.httparse.specs.Spans.{IsHeaderWithin};
ghost use Rattle.chk_http.specs.HeaderLines.{values_at};
ghost use Rattle.chk_http.specs.Bodies.{AnswersBody, AnswersLengths, AnswersLength};

use crate::HttpFault;
use crate::header_lines::{Named, value_named};
use chk_bytes::take_decimal;
use httparse::spans::HeaderSpan;

/// The most bytes of a body.
const BODY_BYTES: u64 = 4_194_304;

/// The body behind a head of `start` bytes with these header lines, without a copy.
pub fn read_body<'a>(
    bytes: &'a [u8],
    headers: &[HeaderSpan],
    start: usize,
) -> Result<&'a [u8], HttpFault>
    requires start_fits { start ≤ length bytes.now }
    requires within { All (IsHeaderWithin start) headers.now }
    ensures { AnswersBody (values_at (codes "content-length") bytes.now headers.now)
        (drop start bytes.now) result }
{
    let length = stated_length(bytes, headers)?;
    bytes[start..].get(..length).ok_or(HttpFault::NotYet)
}

// The one length that the lines state.
fn stated_length(bytes: &[u8], headers: &[HeaderSpan]) -> Result<usize, HttpFault>
    requires within { All (IsHeaderWithin (length bytes.now)) headers.now }
    ensures { AnswersLengths (values_at (codes "content-length") bytes.now headers.now) result }
{
    match value_named(bytes, headers, b"content-length") {
        Named::Nothing => Err(HttpFault::NoLength),
        Named::One(value) => length_of(value),
        Named::Several => Err(HttpFault::BadHead),
    }
}

// The length that a value states, leading zeros allowed.
fn length_of(value: &[u8]) -> Result<usize, HttpFault>
    ensures { AnswersLength value.now result }
{
    match take_decimal(value) {
        Some(length) if length <= BODY_BYTES => Ok(length as usize),
        Some(_) => Err(HttpFault::TooLarge),
        None => Err(HttpFault::BadHead),
    }
}
