//! The adaptors of an agent: for each stream of its checkpoint what its reader has read, and what
//! it does next. An adaptor is one value for all classes.
#![tactic(auto)]

mod adaptor;
mod reader;

pub use adaptor::{Adaptor, Before, Phase};
