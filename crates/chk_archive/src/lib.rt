//! The archive job: takes what is new of each stream from the done sinks into the archive.
#![tactic(auto)]

mod archiving;
mod beginning;
mod calling;
mod counting;
mod folder_names;
mod known;
mod merging;
mod report;
mod run;
mod sinks;
mod sources;
mod starts;
mod taking;
mod tidying;

pub use archiving::archive;
pub use chk_record_index::JobFault;
pub use report::Report;
