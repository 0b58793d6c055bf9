//! The SHA-256 of the archive of each stream, as a folder's book names it, and its lines.
#![tactic(auto)]

mod digests;
mod lines;
mod rests;
mod summing;
mod sums;

pub use digests::Digests;
pub use lines::{hex_of, print_sums};
pub use rests::{Rest, behind};
pub use summing::sum_streams;
pub use sums::{Sums, sum, sum_rests};
