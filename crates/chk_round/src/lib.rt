//! The round of one process: an agent reads its logs to their ends, a collector takes what they
//! gave, and one run of the archive job takes that into the archive.
#![tactic(auto)]

mod adding;
mod closing;
mod delivering;
mod faults;
mod gathering;
mod polling;
mod posting;
mod preparing;
mod reading;
mod running;
mod starting;
mod whole_round;
mod whos;
mod words;

pub use faults::RoundFault;
pub use whole_round::{Rounded, round, round_within};
pub use whos::{agent_of, job};
pub use words::{Limits, RoundWords};
