//! Why a call on the machine was not done, and the memory that is taken before a call changes
//! anything.
#![tactic(auto)]

mod faults;
mod memory;

pub use faults::SystemFault;
pub use memory::{front_of, make_place, make_room, push, text};
