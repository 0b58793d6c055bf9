//! A reader of a log over its rotated generations and then its base file.
#![tactic(auto)]

mod laws;
mod place;
mod reader;

pub use laws::law_places;
pub use place::Place;
pub use reader::RotTail;
