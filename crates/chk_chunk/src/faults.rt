//! What is wrong with bytes that are no key or no post.

/// The first wrong field of a key or a post, in the order in which its bytes are read. A length
/// and the bytes that it counts are two fields. `at` counts from the first byte that was given,
/// and is the place where the wrong field begins if nothing else is said.
#[derive(Clone, Copy, Debug, PartialEq, Eq)]
pub enum ChunkFault {
    /// The bytes end before the field does.
    Short { at: u64 },
    /// The version is neither 1 nor 2.
    Version { found: u8 },
    /// A text isn't UTF-8 from the byte at `at` on.
    NotUtf8 { at: u64 },
    /// The length of a text or of data, or the count of chunks, is 0.
    Empty { at: u64 },
    /// A text has more than 4,096 bytes, data more than 131,072, or a post more than 4,194,304.
    TooLong { limit: u64, found: u64 },
    /// The chunk would begin before its stream: the sequence id is below the start plus the length
    /// of the data. A sequence id of 0 in a key of version 1 is found before the data is, as `len` 1.
    BeforeStart { seq: u64, len: u64 },
    /// A post has more than 1,000 chunks.
    TooMany { count: u32 },
    /// The byte at `at` is too much.
    Trailing { at: u64 },
    /// The sequence id is 2^63 or more.
    TooHigh { seq: u64 },
    /// The byte at `at` of a text is a space, a control byte or the byte 127.
    NotWord { at: u64 },
    /// The start is 2^62 or more, or not below the sequence id.
    StartHigh { start: u64, seq: u64 },
}
