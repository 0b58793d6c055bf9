//! What each call on a site in memory is answered, by what the site keeps.
#![tactic(auto)]

mod file_calls;
mod log_calls;
mod mail;
mod message_calls;
mod messages;
mod plain_calls;
mod plan;
mod replies;

pub use file_calls::{Append, Create, Cut, Read, Remove, Rename, Size, Sync};
pub use log_calls::{LogAppend, LogNewest, LogRead};
pub use message_calls::{Answer, Got, More, Send, Take};
pub use plain_calls::{Clock, List, Pause, Say, Start};
pub use plan::{Numbered, Planned, Question};
