//! A join of two archives whose report is printed.
#![tactic(auto)]

mod running;
mod telling;

pub use running::run_join;
