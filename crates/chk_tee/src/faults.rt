//! What is wrong with bytes that are no message of a tee.

use chk_chunk::ChunkFault;

/// The first wrong field of a message, in the order in which its bytes are read. A length and the
/// bytes that it counts are two fields. `at` counts from the message's first byte, also inside a
/// `ChunkFault`, and is the place where the wrong field begins if nothing else is said.
#[derive(Clone, Copy, Debug, PartialEq, Eq)]
pub enum TeeFault {
    /// The bytes aren't a front of `CHKT` and the byte 1, and don't begin with these.
    NotTee,
    /// The bytes end before the field does, and those of it that are there aren't wrong yet.
    Short { at: u64 },
    /// The count of chunks is 0 or more than 1,000.
    BadCount { count: u32 },
    /// The length of a stem is 0 or more than 104, or its bytes aren't a stem.
    BadStem { at: u64 },
    /// An offset is 0, or 2^63 or more.
    BadOffset { at: u64 },
    /// The bytes of a key aren't a key, or the length of data is one that its chunk can't have.
    BadChunk { fault: ChunkFault },
    /// The byte at `at` is too much.
    Trailing { at: u64 },
    /// The message has more than 4,308,309 bytes. This is told before all else.
    TooLong { limit: u64, found: u64 },
}
