//! What `chukwactl` asks of the machine that it runs on, and the inspections of one folder over it.
#![tactic(auto)]

mod agents;
mod control;
mod ending;
mod extent;
mod locks;
mod machine;
mod store;

pub use agents::see_agents;
pub use control::see_control;
pub use ending::end_with;
pub use extent::{Extent, LongInspection, shows_of};
pub use locks::see_locks;
pub use machine::{FileNumbers, Machine};
pub use store::see_store;
