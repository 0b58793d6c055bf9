//! The names in folders: as the system lists them, and kept as long as their folder stays as it was.
#![tactic(auto)]

mod keeping;
mod names;
mod naming;
mod stamps;

pub use keeping::{Listings, MOST_FOLDERS, MOST_NAMES};
pub use names::Listing;
pub use naming::{Wanted, names_in, sorted_names};
pub use stamps::Stamp;
