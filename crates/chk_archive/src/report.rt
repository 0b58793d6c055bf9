//! What a run did.

use chk_book::Ends;
use chk_bytes::Word;

/// What an archive run did.
#[derive(Debug, Drop)]
pub struct Report {
    /// How many sinks under writing the listing showed.
    pub unclosed: u32,
    /// The first one of these.
    pub first_unclosed: Option<Word>,
    /// How many bytes were taken.
    pub taken: u64,
    /// How many chunks are set aside after the run.
    pub held: u32,
    /// How many done sinks were removed.
    pub removed: u32,
    /// Where each stream's archive ends after the run.
    pub ends: Ends,
}
