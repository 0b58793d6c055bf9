//! A file is replaced whole, and read whole.
#![tactic(auto)]

mod loading;
mod replacing;

pub use loading::load;
pub use replacing::replace;
