//! The words of the commands, and the lines that they print.
#![tactic(auto)]

mod commands;
mod datagrams;
mod endings;
mod joining;
mod lines;
mod load;
mod names;
mod options;
mod reading;
mod subscribing;
mod usage;

pub use commands::{AgentWords, CollectorWords, Command, DrainWords, RoundWords, WordsFault};
pub use datagrams::{UdpWords, put_udp};
pub use endings::Ending;
pub use joining::{JoinWords, put_join};
pub use lines::{put_archive, put_demux, put_end, put_load, put_stream, stream_line};
pub use load::{LoadLines, load_log};
pub use reading::read_words;
pub use subscribing::SubscribeWords;
pub use usage::{Usage, put_usage, usage_of};
