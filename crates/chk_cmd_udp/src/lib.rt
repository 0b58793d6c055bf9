//! The turns of a writer of datagrams, and the command that runs them.
//!
//! A turn waits up to 1,000 milliseconds for a datagram, puts it, and commits. Where none came, it closes
//! the buffer instead. It may take further datagrams before it commits, as long as they wait at the door
//! already and the buffer is shorter than the length at which it is closed.
#![tactic(auto)]

mod run;
mod taking;
mod tally;
mod telling;
mod turn;

pub use run::{Work, run_udp};
pub use tally::Tally;
pub use turn::udp_turn;
