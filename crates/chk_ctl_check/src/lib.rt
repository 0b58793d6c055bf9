//! What a start with an initial file would refuse or skip, told line by line before it is made,
//! and which of its collectors don't answer.
#![tactic(auto)]

mod beside;
mod checking;
mod collectors;
mod finding;
mod judging;
mod looking;
mod printing;
mod trouble;

pub use checking::{Checked, check};
pub use finding::{Finding, find_troubles};
pub use judging::{Added, Verdict};
pub use printing::print_findings;
pub use trouble::Trouble;
