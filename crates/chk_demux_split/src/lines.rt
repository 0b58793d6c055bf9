//! Where a line ends, whether it begins with a stamp, and what it completes.
ghost use Rattle.std.specs.Prelude.{◌≡◌, ◌≤◌, ◌<◌, ◌||◌, false, nat_lt, length, take, drop};
ghost use Rattle.chk_chunk.specs.Keys.{chunk_limit, record_limit};
ghost use Rattle.chk_world.specs.Splits.{fits_pattern, has_stamp};
ghost use Rattle.chk_demux_split.specs.LineFronts.{GoesOn, fits_one};
ghost use Rattle.chk_demux_split.specs.Splitting.{complete_size};

use memchr::memchr;

/// The most bytes of a line: it ends after so many without a newline.
pub const LINE_BYTES: usize = 131_072;

/// The most bytes of a record by stamps: a line that would bring it over begins a new one.
pub const RECORD_BYTES: usize = 1_048_576;

// What a line takes of some bytes: so many, and whether it ends behind them.
#[derive(Clone, Copy)]
pub(crate) struct LineFront {
    pub(crate) taken: usize,
    pub(crate) ends: bool,
}

// What the line takes of the bytes: those up to its end, or all of them.
pub(crate) fn line_front(line: &[u8], bytes: &[u8]) -> LineFront
    requires { length line.now < chunk_limit }
    ensures within { result.taken ≤ length bytes.now }
    ensures some { 0 < length bytes.now → 0 < result.taken }
    ensures front { GoesOn line.now (take result.taken bytes.now) result.ends }
    ensures most { result.ends ≡ false → result.taken ≡ length bytes.now }
{
    let room = LINE_BYTES - line.len();
    let front = &bytes[..bytes.len().min(room)];
    match memchr(b'\n', front) {
        Some(at) => LineFront {
            taken: at + 1,
            ends: true,
        },
        None => LineFront {
            taken: front.len(),
            ends: line.len() + front.len() >= LINE_BYTES,
        },
    }
}

// How many of the first bytes are a complete record, where a line behind the first `begun` ones has
// just ended: 0 where none is.
pub(crate) fn complete_size(by_stamps: bool, held: &[u8], begun: usize) -> usize
    requires { begun ≤ length held.now }
    ensures { result ≡ complete_size by_stamps (take begun held.now) (drop begun held.now) }
{
    if !by_stamps {
        return held.len();
    }
    if begun == 0 {
        return 0;
    }
    let begins = begins_record(&held[begun..], held.len());
    if begins { begun } else { 0 }
}

// The line begins a record behind the one that has begun, which has so many bytes with the line.
fn begins_record(line: &[u8], size: usize) -> bool
    ensures { result ≡ (has_stamp line.now || nat_lt record_limit size) }
{
    has_stamp(line) || size > RECORD_BYTES
}

// The line begins with a stamp of a day and a time.
fn has_stamp(line: &[u8]) -> bool
    ensures { result ≡ has_stamp line.now }
{
    fits_pattern(b"dddd-dd-dd dd:dd:dd,ddd", line)
}

// The bytes begin as the pattern says: a digit where it has a d, else its byte.
fn fits_pattern(pattern: &[u8], bytes: &[u8]) -> bool
    ensures { result ≡ fits_pattern pattern.now bytes.now }
{
    for (at, wanted) in pattern.iter().enumerate() {
        if at >= bytes.len() {
            return false;
        }
        let fits = fits_byte(*wanted, bytes[at]);
        if !fits {
            return false;
        }
    }
    true
}

// The byte is a digit where a d is wanted, else the byte that is wanted.
fn fits_byte(wanted: u8, byte: u8) -> bool
    ensures { result ≡ fits_one wanted byte }
{
    if wanted == b'd' {
        byte.is_ascii_digit()
    } else {
        wanted == byte
    }
}
