//! What the job reads and writes: heads are gathered of all files, what an archive run takes of each record and what it sets aside is
//! chosen by them, both are written as segments, and a folder's next book is published.
#![tactic(auto)]

mod aside;
mod cuts;
mod fetching;
mod gathering;
mod kept;
mod laws;
mod publishing;
mod shelf;
mod writing;

pub use aside::{count_first, is_old_aside};
pub use cuts::{Cut, Cuts, cuts_of};
pub use fetching::{fetch, fetch_by_head};
pub use gathering::gather_found;
pub use kept::kept_of;
pub use laws::{cuts_are_parts, old_asides_are_whole};
pub use publishing::{can_be_spelled, publish_next};
pub use writing::{Purpose, add_segment};
