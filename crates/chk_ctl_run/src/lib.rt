//! The commands of `chukwactl`, over any outside.
#![tactic(auto)]

mod auditing;
mod checking;
mod finding;
mod holding;
mod naming;
mod outcome;
mod passing;
mod running;
mod several;
mod showing;
mod summing;
mod telling;
mod verifying;

pub use chk_ctl_line::Usage;
pub use outcome::{Outcome, outcome_of_job, told_as};
pub use running::{looker, run};
