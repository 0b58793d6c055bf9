//! What a site in memory keeps: its acts, and the files and logs that follow from them.
#![tactic(auto)]

mod changes;
mod effects;
mod files;
mod keeper;
mod listing;
mod log_reads;
mod logs;
mod named;
mod repeats;
mod room;
mod slices;
mod stops;
mod words;

pub use changes::{first, second};
pub use effects::answering;
pub use files::MemFile;
pub use keeper::Keeper;
pub use log_reads::{ShownBytes, ended, newest, part_words, read_from};
pub use logs::{MemGeneration, MemLog};
pub use named::Named;
pub use slices::piece;
pub use words::{one, two};
