//! The commands of `chukwa`, over any outside.
#![tactic(auto)]

mod agenting;
mod archiving;
mod collecting;
mod commanding;
mod datagrams;
mod demuxing;
mod draining;
mod joining;
mod loading;
mod rounding;
mod runs;
mod salvaging;
mod saying;
mod subscribing;
mod teeing;
mod turns;

pub use chk_agent::Hashing;
pub use runs::{run, run_with_hasher};
pub use turns::{agent_turn, collector_turn};
