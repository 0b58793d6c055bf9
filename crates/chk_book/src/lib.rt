//! The book of a folder: which segments hold the folder's records, and where each stream begins and ends.
#![tactic(auto)]

mod book;
mod fields;
mod files;
mod laws;
mod lists;
mod names;
mod noting;
mod paths;
mod reading;
mod segmenter;
mod writing;

pub use book::{Book, load_book};
pub use chk_record_index::JobFault;
pub use laws::books_have_no_damage;
pub use lists::{End, Ends, Segment, Segments};
pub use paths::{names_segment, segment_name, segment_number};
pub use reading::has_number;
pub use segmenter::Segmenter;
pub use writing::begin_at_0;
