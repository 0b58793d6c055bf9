//! The table of answers of an agent: which ranges of its logs collectors have answered, and up to
//! which end each log is committed without a gap.
#![tactic(auto)]

mod kept;
mod laws;
mod row;
mod rows;
mod table;

pub use laws::law_committed_is_contiguous;
pub use row::Row;
pub use table::Acks;
