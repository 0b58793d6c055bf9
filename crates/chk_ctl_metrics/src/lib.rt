//! What is seen of stores and agents as OpenMetrics has it, for whoever keeps such numbers over
//! time.
#![tactic(auto)]

mod agents;
mod beside;
mod escaping;
mod families;
mod rows;
mod telling;

pub use agents::NamedAgents;
pub use beside::NamedDoor;
pub use families::NamedStore;
pub use telling::{metrics_of, tell_metrics};
