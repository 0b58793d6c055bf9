//! The agent: it reads the logs of its checkpoint, sends what they give as chunks, asks which of
//! them are committed, and moves its checkpoint on over those alone.
#![tactic(auto)]

mod adding;
mod agent;
mod answers;
mod commanding;
mod delivering;
mod faults;
mod filling;
mod lines;
mod naming;
mod settling;
mod starting;
mod stepping;
mod talking;
mod turning;

pub use agent::{Agent, Rules};
pub use answers::{Added, AgentFault, Filled, Reply, Settled, Stepped, Then};
pub use chk_agent_delivery::{Answered, Below, PollAnswer, Polled, Posted};
pub use chk_agent_table::Hashing;
