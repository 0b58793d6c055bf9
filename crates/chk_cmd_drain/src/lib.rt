//! A drain as a run: the agent starts, adds the streams of an initial file, sends all that its logs
//! hold, and prints how far each stream was read.
#![tactic(auto)]

mod begin;
mod ending;
mod faults;
mod run;
mod telling;

pub use faults::DrainFault;
pub use run::{Work, run_drain};
