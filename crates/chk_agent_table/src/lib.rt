//! The adaptors of an agent in order of adding, found by the hash of their streams and of the names
//! of the live ones.
#![tactic(auto)]

mod adaptors;
mod adding;
mod changing;
mod hashing;
mod keys;
mod names;
mod streams;

pub use adaptors::Adaptors;
pub use hashing::Hashing;
pub use keys::Keys;
