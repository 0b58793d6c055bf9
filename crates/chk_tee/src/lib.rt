//! Chunks for watchers: which chunks a watcher wants, and the messages that carry them.
//!
//! A **filter** says of each chunk whether it passes, by the names of its stream. A **message** of
//! a tee is 1 to 1,000 chunks that a collector has written, each with its sink and the place in
//! it at which the chunk's record ends.
#![tactic(auto)]

mod faults;
mod fields;
mod filters;
mod laws;
mod messages;
mod writing;

use chk_bytes::Stem;
use chk_chunk::ChunkRef;
pub use faults::TeeFault;
pub use filters::{Filter, FilterFault, read_filter};
pub use laws::{
    filter_grammar, first_five, no_request, one_filter, one_message, tee_grammar, tees_stand_alone,
    written_is_tee,
};
pub use messages::{TeeRef, read_tee};
pub use writing::{push_passing, put_tee_head, write_tee};

/// The most bytes of a message.
pub const TEE_BYTES: u64 = 4_308_309;

/// The most chunks of a message.
pub const TEE_CHUNKS: u32 = 1000;

/// A chunk that a collector wrote to a sink, with the sink's stem and the place in the sink at
/// which the chunk's record ends, from 1 to 2^63 - 1.
#[derive(Clone, Copy)]
pub struct Teed<'a> {
    pub stem: Stem,
    pub offset: u64,
    pub chunk: ChunkRef<'a>,
}
