//! The turns of a collector, and the command that runs them.
//!
//! A turn takes at most so many messages, reads each to its end and answers it before it takes the
//! next, asks the clock and ticks. It waits up to 1,000 milliseconds for the first one. For a
//! further one it waits up to 20 where the one before it had 3,932,160 bytes or more, since its
//! sender has more to send, and else takes only what waits at the door already. A further message is
//! taken before what the earlier ones of its turn appended is committed: the tick commits all of it.
//! A call that fails while a message is read, handled or answered ends that message alone.
#![tactic(auto)]

mod calls;
mod laws;
mod message;
mod run;
mod turn;

pub use laws::law_reads_on_exactly;
pub use run::collect;
pub use turn::{FURTHER_WAIT, LONG, collector_turn};
