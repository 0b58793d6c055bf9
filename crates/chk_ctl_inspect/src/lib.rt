//! The commands of `chukwactl` by their words, over a machine.
#![tactic(auto)]

mod audit;
mod command;
mod folders;
mod kept;
mod reported;
mod reports;
mod running;
mod status;

pub use running::inspect;
