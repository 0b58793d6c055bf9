// What a step of a reader gives.
use chk_bytes::Bytes;

/// What a step of a reader of a log gave.
#[derive(Drop)]
pub enum Step {
    /// These bytes, 1 to `PIECE_BYTES` of them; `end` is the offset behind the last one.
    Bytes { bytes: Bytes, end: u64 },
    /// Nothing more could be taken at the read.
    AtEnd,
    /// The file is shorter than the place: the reader stands behind its first `had` bytes, and it
    /// has `is` bytes.
    Shrank { had: u64, is: u64 },
}
