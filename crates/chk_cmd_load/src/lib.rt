//! A load: generated lines are appended to three logs, and a round takes them to the archive.
#![tactic(auto)]

mod archived;
mod ends;
mod pieces;
mod running;
mod words;

pub use ends::{LoadEnd, LoadReport};
pub use running::run_load;
pub use words::writer;
