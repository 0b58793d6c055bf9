//! A reader of a log's base file, and what readers of logs take of a read.
#![tactic(auto)]

mod laws;
mod step;
mod tail;
mod taking;

pub use chk_site::{LOG_END, PIECE_BYTES};
pub use laws::reader_takes_most;
pub use step::Step;
pub use tail::Tail;
pub use taking::{ask, take_of};
