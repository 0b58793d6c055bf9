//! The words of `chukwactl`.
#![tactic(auto)]

mod auditing;
mod checking;
mod commands;
mod controls;
mod holding;
mod names;
mod options;
mod reading;
mod status;
mod usage;

pub use commands::{AuditWords, CatWords, CheckWords, Command, PassedWords, WordsFault};
pub use controls::{ControlWords, control_in};
pub use reading::read_words;
pub use status::{Form, StatusWords, read_status};
pub use usage::{Usage, usage_of};
