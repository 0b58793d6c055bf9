//! The peers of a listening address: how far each one's message came, who is served next and who is dropped, as data;
//! and their streams, with what was read of each message. Each stream is read without a wait. Opening sockets doesn't
//! belong here.
#![tactic(auto)]

mod callers;
mod deadline;
mod held;
mod leaving;
mod stage_list;
mod stages;

pub use callers::{Caller, STALE_MS, WHOLE_MS, new_caller};
pub use deadline::{Deadline, WAIT_MS, longest_wait};
pub use held::{Held, ROOM};
pub use leaving::{Leaving, MOST_LEAVING};
pub use stage_list::StageList;
pub use stages::{Stage, stage_of, tells_its_end};
