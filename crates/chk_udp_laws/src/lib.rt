//! What holds of the datagrams that a writer took, over all histories in which its steps are runs that use
//! its buffers. It runs nothing.
#![tactic(auto)]

mod laws;

pub use laws::{
    law_commands_are_runs, law_marked_grows, law_marked_saves_all, law_runs_leave, law_saved_grows,
    law_saved_is_marked, law_turns_find_tidy,
};
