//! Scenes of a collector for cases: its sinks, what it answers, its turns, and the tee.
#![tactic(auto)]

mod answers;
mod collectors;
mod lengths;
mod passing;
mod sinks;
mod tee;
mod turns;

pub use collectors::CollectorScene;
pub use sinks::SinkScene;
pub use tee::TeeScene;
pub use turns::TurnScene;
