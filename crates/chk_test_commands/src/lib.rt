//! The scene of the commands over a site in memory.
#![tactic(auto)]

mod datagrams;
mod logs;
mod reading;
mod records;
mod replies;
mod rounds;
mod runs;
mod scene;

pub use scene::CommandScene;
