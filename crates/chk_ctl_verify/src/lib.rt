//! Whether each file of a store, of a collector's and of an agent's folder is in its grammar: the
//! checkpoints, the books with the segments that they name, the sinks, closed ones wholly and
//! those under writing as far as they are committed, the marks, and the numbers of starts and of
//! buffers. For each file that isn't a line is printed.
#![tactic(auto)]

mod books;
mod calls;
mod checks;
mod chunks;
mod folders;
mod names;
mod numbers;
mod sinks;
mod store;
mod telling;

pub use store::{Store, check_store};
