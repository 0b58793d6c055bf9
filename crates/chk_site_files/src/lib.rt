//! The files, folders and logs of the machine, by their names.
#![tactic(auto)]

mod folders;
mod host;
mod kept;
mod logs;

pub use folders::{Folders, Unsettled, make_folders, open_made};
pub use host::Host;
