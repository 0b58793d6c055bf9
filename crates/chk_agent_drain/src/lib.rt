//! A drain of an agent: each log is read to its end, what they give is sent, and polls go on until
//! all of it is committed and the checkpoint says so.
#![tactic(auto)]

mod answers;
mod draining;
mod polling;
mod posting;
mod reading;
mod tries;

pub use answers::Drained;
pub use draining::drain;
