//! A row of the table.

use chk_bytes::Stem;

/// A chunk of an adaptor's stream that a collector has answered, as the contracts of the table see
/// it.
#[derive(Drop)]
pub struct Row {
    /// The number of the adaptor.
    pub adaptor: u32,
    /// The offset of the chunk's first byte in its stream.
    pub begin: u64,
    /// The offset just past its last byte.
    pub end: u64,
    /// The sink that holds the chunk by the answer.
    pub stem: Stem,
    /// The place in that sink at which the chunk's entry ends.
    pub offset: u64,
    /// When the answer came, in milliseconds.
    pub answered: u64,
    /// The sink was seen committed up to the offset.
    pub marked: bool,
}
