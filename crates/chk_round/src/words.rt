//! What a round is asked for.

use chk_bytes::Word;
use chk_control::Class;

/// What a round is asked for.
#[derive(Drop)]
pub struct RoundWords {
    /// The agent's source, of 1 to 64 bytes.
    pub source: Word,
    /// The data type of each log.
    pub kind: Word,
    /// How a log that no line has yet is read.
    pub class: Class,
    /// After so many reads that gave bytes a log counts as still growing; from 1.
    pub reads: u64,
    /// The cluster of all chunks.
    pub cluster: Word,
    /// The paths of the logs.
    pub logs: Vec<Word>,
}

/// How much an agent holds at once.
#[derive(Clone, Copy)]
pub struct Limits {
    /// The rows of answers, at least 1.
    pub rows: u32,
    /// The bytes of data that wait, at least 131,072.
    pub queue: u64,
}
