//! Scenes of agents over a site in memory: their runs, drains, checkpoints and deliveries.
#![tactic(auto)]

mod actors;
mod acts;
mod agents;
mod answers;
mod checkpoints;
mod collectors;
mod deliveries;
mod drains;
mod rehearsals;
mod replies;
mod runs;
mod scene;
mod sinks;
mod starts;
mod words;

pub use actors::Actors;
pub use deliveries::DeliveryScene;
pub use scene::AgentScene;
