//! `salvage`: prints what can be read of a SequenceFile, record by record, and which ranges can't be read.
#![tactic(auto)]

mod fault;
mod lines;
mod printing;

pub use fault::SalvageFault;
pub use printing::salvage;
