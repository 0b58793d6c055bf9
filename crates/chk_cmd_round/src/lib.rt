//! A round as a run: a collector, an agent and one run of the archive job in one process, and then
//! the lines that tell of it.
#![tactic(auto)]

mod ends;
mod running;
mod telling;

pub use ends::RoundEnd;
pub use running::run_round;
