//! What an archive run takes of the chunks that it found and what it sets aside, and whether each stream's have one start, by
//! their heads alone.
#![tactic(auto)]

mod laws;
mod spans;
mod starts;

pub use laws::{found_may_go, passes_reach, plans_are_runs, plans_give, plans_may_be_published};
pub use spans::{Known, Span, plan, span_end, taken};
pub use starts::other_start;
