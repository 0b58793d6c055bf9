//! The scene of the readers of a log over a site in memory, while writers grow, rotate and delete it.
#![tactic(auto)]

mod readers;
mod scene;

pub use scene::ReaderScene;
