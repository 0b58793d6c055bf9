//! What is told of an address or a file, and when.
#![tactic(auto)]

mod failure;
mod laws;
mod moment;
mod notices;
mod trouble;
mod troubles;

pub use failure::Failure;
pub use laws::law_minute;
pub use moment::Moment;
pub use notices::{Notices, clock_moment};
pub use trouble::{BETWEEN, Recovery, Trouble};
pub use troubles::{MOST_NAMES, Troubles};
