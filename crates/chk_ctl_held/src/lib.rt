//! The chunks that a folder's book sets aside, since bytes before them aren't archived yet: what
//! is missing, what waits for it, and which other stores have what is missing.
#![tactic(auto)]

mod clips;
mod elsewhere;
mod ends;
mod finding;
mod found;
mod gaps;
mod groups;
mod lines;
mod others;
mod places;
mod printing;
mod spans;
mod stores;
mod streams;

pub use elsewhere::print_stores;
pub use finding::{Waiting, find_waiting};
pub use lines::print_waiting;
pub use stores::Store;
