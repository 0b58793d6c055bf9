//! What a join did.

/// What a join wrote.
#[derive(Clone, Copy, Debug, PartialEq, Eq)]
pub struct JoinReport {
    /// How many streams the joined archive has.
    pub streams: u32,
    /// How many bytes the values of its records have.
    pub bytes: u64,
}
