//! The state of stores and agents: how far streams are committed, archived and split, and what
//! waits.
#![tactic(auto)]

mod absent;
mod doors;
mod free;
mod lags;
mod locks;
mod store;
mod telling;

pub use absent::{tell_absent, tell_absent_line};
pub use doors::{Door, ask_list, door_of, tell_door, tell_door_line};
pub use free::free_in;
pub use lags::{end_at, lag_in, tell_agents, tell_agents_line};
pub use locks::{Holder, Lock, holder_in, tell_locks, tell_locks_line};
pub use store::{QUIET_SECONDS, StoreSeen, find_store};
pub use telling::{say_bytes, tell_line, tell_store};
