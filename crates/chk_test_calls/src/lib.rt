//! For tests that take a site in memory: its scripts, and programs of calls as text.
#![tactic(auto)]

mod answers;
mod calls;
mod scripts;

pub use calls::follows;
pub use scripts::{collector, failing, left_of, quiet, repeating, stopping, written};
