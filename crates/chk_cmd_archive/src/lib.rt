//! An archive run whose report is printed.
#![tactic(auto)]

mod running;
mod telling;

pub use running::run_archive;
pub use telling::tell_run;
