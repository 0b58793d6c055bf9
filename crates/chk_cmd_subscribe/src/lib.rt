//! The run of a watcher: it takes the messages of tees at a door, and prints each chunk that it
//! hasn't seen before, once.
#![tactic(auto)]

mod calls;
mod lines;
mod message;
mod run;

use chk_tee_sender::Sieve;
pub use run::subscribe;

/// What a watcher has seen: the sieve, how many chunks were printed, and how many messages were
/// refused.
#[derive(Drop)]
pub(crate) struct Watch {
    pub sieve: Sieve,
    pub printed: u64,
    pub refused: u64,
}
