//! Splits a stream's bytes, which come in pieces of any size, into records: by lines, or by stamps.
#![tactic(auto)]

mod laws;
mod lines;
mod splitter;

pub use laws::{feeds_split, split_goes_on};
pub use lines::{LINE_BYTES, RECORD_BYTES};
pub use splitter::Splitter;
