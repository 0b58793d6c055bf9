//! The archives that a join reads: the heads of their records, the bytes of a stream that both have, whose records the
//! joined archive takes or where the two differ, and the copy of the chosen records into one segment.
#![tactic(auto)]

mod blocks;
mod choices;
mod choosing;
mod comparing;
mod copying;
mod difference;
mod gathering;
mod pairs;
mod plan;
mod records;
mod streams;
mod writing;

pub use blocks::{Block, block_of};
pub use choosing::{Chosen, choose};
pub use comparing::{Readers, compare_blocks};
pub use difference::Difference;
pub use gathering::{Side, fetch, sound_heads};
pub use plan::{Choice, Plan};
pub use writing::write_chosen;
