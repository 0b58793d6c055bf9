//! The demux job: splits what the archive has of each stream into records, and writes each complete record once, in order.
#![tactic(auto)]

mod beginning;
mod blocks;
mod giving;
mod laws;
mod output;
mod publishing;
mod recorded;
mod report;
mod run;
mod splitting;

pub use laws::records_are_the_split;
pub use report::DemuxReport;
pub use run::demux;
