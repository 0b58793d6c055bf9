//! Whether a folder's book is one, whether each segment that it names is of chunks, and whether
//! each stream's records go on from its start to its end. Sinks, marks, checkpoints and aside
//! segments aren't looked at.
#![tactic(auto)]

mod folders;

pub use folders::verify;
