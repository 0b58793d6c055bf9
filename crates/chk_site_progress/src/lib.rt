//! How far a long look at files has come, told on standard error while it runs: a site that is
//! laid over another one, and passes each call on.
#![tactic(auto)]

mod course;
mod progress;
mod sizes;

pub use course::{Course, course_line};
pub use progress::{Progress, Shows};
pub use sizes::bytes_in;
