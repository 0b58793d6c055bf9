//! Plays cases that are written as text on scenes over a site in memory.
#![tactic(auto)]

mod acts;
mod cases;
mod draws;
mod faults;
mod files;
mod harms;
mod outside;
mod parts;
mod play;
mod report;
mod scene;
mod script;
mod texts;

pub use cases::play_file;
pub use outside::Outside;
pub use parts::Parts;
pub use scene::Scene;
pub use script::add_file;
pub use texts::{plain, shown, text_bytes};
