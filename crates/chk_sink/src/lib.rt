//! The sinks of a collector: chunks are appended to one sink after the other, a sink's length is
//! committed by its mark, and what a start left under writing the next one settles.
//!
//! A **sink** is a SequenceFile of chunks, `sinks/<stem>.chukwa` while it is written to and
//! `sinks/<stem>.done` once it is closed. Its **mark** `sinks/<stem>.mark` is the length up to which
//! it is committed, and `sinks/<collector>.born` counts the collector's starts.
#![tactic(auto)]

mod asking;
mod closing;
mod current;
mod fault;
mod names;
mod numbers;
mod settling;
mod sinks;
mod starting;

pub use fault::SinkFault;
pub use sinks::Sinks;
