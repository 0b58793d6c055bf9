//! Whether an agent's checkpoint has passed the oldest generation of a log that is there.
#![tactic(auto)]

mod agents;
mod judging;
mod laws;
mod names;
mod oldest;
mod passing;

pub use agents::{all_have_passed, fault_in};
pub use judging::Verdict;
pub use laws::law_passed;
pub use names::agent_of;
pub use oldest::{Oldest, find_oldest};
pub use passing::has_passed;
