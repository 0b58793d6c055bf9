//! The heads of what is new in an archive: its segments are read from the newest one back, until
//! for each stream the place is reached from which on its records are new. Older segments aren't
//! read, and of those that are read no head is held but those of what is new.
#![tactic(auto)]

mod backward;
mod forward;
mod looking;
mod reading;

pub use reading::newest_heads;
