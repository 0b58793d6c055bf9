//! What a start finds of an earlier run, and what is to be made of it.

ghost use Rattle.std.specs.Prelude.{◌≡◌, Some};
ghost use Rattle.chk_wahead.specs.Starting.{small_of, left_buffer, left_mark, plan_of};

use chk_bytes::{Bytes, take_u64};

/// Numbers in files are below this.
const LIMIT: u64 = 1 << 63;

/// What a file of one number holds.
#[derive(Clone, Copy)]
pub(crate) enum Small {
    /// It isn't there.
    Absent,
    /// 8 bytes of this number, which is below 2^63.
    Number(u64),
    /// Anything else.
    Damaged,
}

/// The number of the last buffer, the mark, and the size of the buffer where that is there.
#[derive(Clone, Copy)]
pub(crate) struct Found {
    pub(crate) next: Small,
    pub(crate) mark: Small,
    pub(crate) size: Option<u64>,
}

/// What a start makes of what it found.
#[derive(Clone, Copy)]
pub(crate) enum Plan {
    /// The number of the last buffer is damaged.
    DamagedNext,
    /// The mark is damaged.
    DamagedMark,
    /// The buffer of this number is cut to this length and closed.
    Close(u64, u64),
    /// The buffer is removed; the number stays.
    DropBuffer(u64),
    /// The mark is removed; the number stays.
    DropMark(u64),
    /// There is nothing to be done.
    Rest(u64),
}

/// What the file is whose bytes were read; none where it isn't there.
pub(crate) fn small_of(read: Option<Bytes>) -> Small
    ensures { result ≡ small_of read }
{
    match read {
        None => Small::Absent,
        Some(bytes) => number_of(bytes.as_slice()),
    }
}

fn number_of(bytes: &[u8]) -> Small
    ensures { result ≡ small_of (Some bytes.now) }
{
    if bytes.len() != 8 {
        return Small::Damaged;
    }
    match take_u64(bytes, 0) {
        Some(number) if number < LIMIT => Small::Number(number),
        _ => Small::Damaged,
    }
}

impl Found {
    /// What is to be made of it.
    pub(crate) fn plan(self) -> Plan
        ensures { result ≡ plan_of self }
    {
        match (self.size, self.next) {
            (_, Small::Damaged) | (Some(_), Small::Absent | Small::Number(0)) => Plan::DamagedNext,
            (None, Small::Absent) => left_mark(0, self.mark),
            (None, Small::Number(number)) => left_mark(number, self.mark),
            (Some(size), Small::Number(number)) => left_buffer(number, self.mark, size),
        }
    }
}

// What is made of a mark without a buffer.
fn left_mark(number: u64, mark: Small) -> Plan
    ensures { result ≡ left_mark number mark }
{
    match mark {
        Small::Absent => Plan::Rest(number),
        Small::Damaged | Small::Number(0) => Plan::DamagedMark,
        Small::Number(_) => Plan::DropMark(number),
    }
}

// What is made of a buffer of this size.
fn left_buffer(number: u64, mark: Small, size: u64) -> Plan
    ensures { result ≡ left_buffer number mark size }
{
    match mark {
        Small::Absent => Plan::DropBuffer(number),
        Small::Damaged | Small::Number(0) => Plan::DamagedMark,
        Small::Number(length) if length > size => Plan::DamagedMark,
        Small::Number(length) => Plan::Close(number, length),
    }
}
