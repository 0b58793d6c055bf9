//! Merges a folder's segments by cursors, one in each segment: stream after stream in the book's
//! order, and of each stream the records of one segment after the other. It holds no heads. Where
//! the segments aren't in that order, or anything is wrong with them, `chk_record_reader` does it.
#![tactic(auto)]

mod cursor;
mod merging;
mod reading;
mod tour;

pub use merging::merge;
