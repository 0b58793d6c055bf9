//! A log beside its archive: the SHA-256 of what the log has at the offsets of a stream, where the log begins, and the
//! first offset at which the archive differs from it.
#![tactic(auto)]

mod ahead;
mod comparing;
mod placing;
mod records;
mod streams;
mod summing;

pub use comparing::Met;
pub use placing::find_begin;
pub use streams::meet_log;
pub use summing::{LogSum, sum_log};
