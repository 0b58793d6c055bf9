//! The run of an agent: it starts, adds the streams of an initial file, and makes one turn after
//! the other. In a turn it does first what the messages at its control door ask for.
#![tactic(auto)]

mod calls;
mod faults;
mod initial;
mod lines;
mod message;
mod run;
mod turn;

pub use calls::clock;
pub use faults::RunFault;
pub use initial::{add_lines, read_initial};
pub use run::{QUEUE, ROWS, Work, run_agent};
pub use turn::{Ended, agent_turn};
