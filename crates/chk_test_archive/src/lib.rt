//! Scenes of archive runs and of joins, over a site in memory.
#![tactic(auto)]

mod archive_scene;
mod calls;
mod files;
mod job;
mod join_scene;
mod segments;
mod telling;
mod turns;

pub use archive_scene::ArchiveScene;
pub use join_scene::JoinScene;
