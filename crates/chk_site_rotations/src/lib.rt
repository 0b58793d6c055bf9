//! When a log's file that was renamed is shown as rotated.
//!
//! A daemon goes on writing into its file until it opens the new one, which may be seconds behind the
//! rename. So a file that was seen as a log's base file stays that to its readers when it is renamed, until
//! it has not grown for three seconds, or for sixty seconds at most.
#![tactic(auto)]

mod generations;
mod holding;
mod laws;
mod log;
mod logs;
mod passed;

pub use generations::{first_of, newest_of};
pub use holding::{FileId, Generation, Holding, LONGEST, QUIET};
pub use laws::law_waits;
pub use log::{Change, Log};
pub use logs::{Logs, MOST_LOGS};
pub use passed::Passed;
