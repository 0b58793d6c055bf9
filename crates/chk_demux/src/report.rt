//! What a run did.

/// What a demux run did.
#[derive(Clone, Copy, Debug, PartialEq, Eq)]
pub struct DemuxReport {
    /// How many bytes the records have that the run added.
    pub taken: u64,
    /// How many records these are.
    pub entries: u64,
    /// How many archived bytes are of no complete record.
    pub left: u64,
}
