//! What the tables of a status are made of: the sinks of a store and the lines that say them, and the logs of a folder's
//! agents, with how far each is committed and how far it goes.
#![tactic(auto)]

mod agents;
mod ends;
mod lines;
mod names;
mod probing;
mod sinks;

pub use agents::{AgentSeen, AgentsFault, find_agents};
pub use ends::{MOST_GENERATIONS, log_end};
pub use lines::{counts_line, sink_lines, split_to, stream_lines, words_of};
pub use sinks::{OpenSink, Sinks, find_sinks};
