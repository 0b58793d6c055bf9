//! The tee of a collector: which of the chunks that it wrote each subscriber is sent, and which of
//! the chunks that a subscriber took it has not seen before.
#![tactic(auto)]

mod laws;
mod offers;
mod passing;
mod sending;
mod sieve;
mod subscribers;
mod tees;
mod wanted;

use chk_bytes::Word;
use chk_tee::Filter;
pub use laws::{each_once, fresh_is_above};
pub use sieve::{Mark, Sieve};
pub use subscribers::{MOST_SUBSCRIBERS, SubscribersFault, read_subscribers, subscribers_grammar};
pub use tees::{Passed, Tees};

/// Who is sent chunks: the address, and which chunks are wanted there.
#[derive(Debug, Drop)]
pub struct Subscriber {
    pub address: Word,
    pub filter: Filter,
}
