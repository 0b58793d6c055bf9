//! An agent's checkpoint: one line for each stream that it has read, written whole and read whole.
//!
//! The file is `agents/<source>.check`. Its first line names the version of the text; each further line is a stream's. In
//! version 2 each line ends with the stream's start, and this version is written just where some start isn't 0.
#![tactic(auto)]

mod fault;
mod files;
mod line;
mod reading;
mod seen;
mod version;
mod words;
mod writing;

use chk_bytes::Word;
use chk_control::Class;
use chk_rotate::Place;
pub use fault::CheckFault;
pub use files::{load_checkpoint, write_checkpoint};

/// The most lines of a checkpoint.
pub const MOST_LINES: usize = 10_000;

/// What a checkpoint holds of one stream.
#[derive(Drop)]
pub struct CheckLine {
    /// The adaptor's name. No two live lines have one name.
    pub name: Word,
    /// Whether the adaptor is there; else it was stopped, and the stream may be added again.
    pub live: bool,
    /// How the log is read.
    pub class: Class,
    /// The data type. No two lines have one data type and one path.
    pub kind: Word,
    /// The path of the log.
    pub path: Word,
    /// Up to where the log is committed.
    pub place: Place,
    /// The offset of the stream's first byte, below 2^62.
    pub start: u64,
}

/// The lines of a checkpoint, in the order in which the streams were added.
#[derive(Drop)]
pub struct Checkpoint {
    pub lines: Vec<CheckLine>,
}
