//! Whether a store has of each stream of a folder's agents what its log has.
#![tactic(auto)]

mod agents;
mod audits;
mod lines;
mod streams;

pub use audits::{Compared, audit};
