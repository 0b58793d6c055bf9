//! What a store holds, as one who only looks sees it: a line for each stream, of the books of its
//! archive and of its records; and the archive of a stream, printed on beside a job that puts
//! other segments in the place of those that were named.
#![tactic(auto)]

mod fault;
mod following;
mod going;
mod laws;
mod lines;
mod newest;
mod recorded;
mod streams;

pub use following::follow;
pub use going::print_on;
pub use laws::law_newest;
pub use streams::print_streams;
