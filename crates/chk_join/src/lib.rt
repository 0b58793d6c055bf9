//! Two archives of the same logs become one.
#![tactic(auto)]

mod beginning;
mod fault;
mod laws;
mod names;
mod planned;
mod preparing;
mod publishing;
mod report;
mod run;
mod tidying;

pub use fault::JoinFault;
pub use laws::law_join;
pub use report::JoinReport;
pub use run::join;
