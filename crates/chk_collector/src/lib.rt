//! A collector: it answers posts and polls from its sinks.
//!
//! A post is answered by one line for each chunk, the sink and the length of it at which the chunk is
//! committed; a poll by one line for each stem that it asks for, with the length that is committed. A
//! line is sent before the data is durable; `tick` commits what was put.
#![tactic(auto)]

mod collector;
mod names;
mod replies;

pub use collector::Collector;
