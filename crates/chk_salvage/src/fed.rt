//! What a reader that is fed answers.

use crate::entry::EntryRef;
use chk_seqfile::{HeaderFault, Why};

/// What a reader that is fed answers.
#[derive(Clone, Copy, Debug, PartialEq, Eq)]
pub enum Fed<'a> {
    /// The next record.
    Entry(EntryRef<'a>),
    /// More bytes are wanted, or the file ends here.
    More,
    /// The header is refused.
    Header(HeaderFault),
    /// No entry can be read at this place, whatever bytes follow.
    Damaged { at: u64, why: Why },
    /// The record at this place has `need` bytes behind its first two lengths: more than the limit.
    Long { at: u64, need: u64 },
}

/// A record of which its lengths and its key have come, but not all of its value.
#[derive(Clone, Copy, Debug, PartialEq, Eq)]
pub struct Ahead<'a> {
    /// The place at which the record begins, with its length.
    pub at: u64,
    /// The place behind it.
    pub end: u64,
    pub key: &'a [u8],
    /// How many bytes its value has.
    pub size: u64,
}

/// A step of the reader, without the bytes of the record.
#[derive(Clone, Copy)]
pub(crate) enum Step {
    /// A record that begins at `start` in the bytes that are kept, with the sizes of its key and its
    /// value.
    Entry {
        start: usize,
        key: usize,
        value: usize,
    },
    More,
    Header(HeaderFault),
    Damaged(Why),
    Long(u32),
}
