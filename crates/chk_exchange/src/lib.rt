//! One message from an agent to the collector of the same process.
//!
//! The message goes to the mailbox of the process. The collector takes it there without waiting,
//! handles it and answers it, and the agent gets the answer.
#![tactic(auto)]

mod answering;
mod calls;
mod exchange;
mod fault;
mod made;

pub use exchange::{poll_inside, post_inside};
pub use fault::ExchangeFault;
