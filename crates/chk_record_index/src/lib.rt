//! Reads a file of records in pieces, and keeps of each record its **head**: all of its chunk but the data, and where it
//! stands. A head takes 32 bytes, and the texts of a stream are kept once, so the heads of many large files fit in memory.
//! And how a record's key is written over the one before: in a stream they differ in the **sequence id** alone, which
//! stands in eight bytes behind the version.
#![tactic(auto)]

mod fault;
mod gather;
mod last_key;
mod laws;
mod origins;
mod reading;
mod recent;
mod recents;
mod tails;

pub use fault::{JobFault, damaged};
pub use gather::{HeadRef, Heads, SLACK, unfinished};
pub use last_key::{LastKey, Written};
pub use laws::chunks_have_no_damage;
pub use reading::{PIECE, read_file, read_piece};
