//! What an agent still has to deliver: the chunks that wait, the answers to those that were sent,
//! the collectors' addresses, and the messages that are out.
//!
//! An adaptor is a number here. Which stream it reads, and where its checkpoint stands, is said
//! beside the state, by whoever asks what the history holds of it.
#![tactic(auto)]

mod answers;
mod delivery;
mod waiting;

pub use answers::{Answered, Below, PollAnswer, Polled, Posted};
pub use delivery::{Delivery, Rules};
