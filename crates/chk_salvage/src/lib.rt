//! What can be read of a SequenceFile: entry by entry, the longest sound front of a damaged one, and
//! what stands behind the damage.
#![tactic(auto)]

mod entry;
mod fed;
mod laws;
mod lists;
mod outcome;
mod pieces;
mod reader;
mod scan;
mod whole;

pub use chk_seqfile::{HeaderFault, Why};
pub use entry::EntryRef;
pub use fed::{Ahead, Fed};
pub use laws::{law_front, law_pieces, law_salvage};
pub use lists::{EntryRefs, Span, Spans};
pub use outcome::{Front, FrontFault, FrontStop, Salvaged};
pub use pieces::Pieces;
pub use reader::{Next, Reader};
pub use whole::{front, salvage};
