//! Reads back the records whose heads are known; joins a stream's records, checks those of all streams, and merges a folder's
//! segments.
#![tactic(auto)]

mod archives;
mod checking;
mod courses;
mod faults;
mod gathering;
mod laws;
mod merging;
mod names;
mod one_pass;
mod parts;
mod places;
mod reader;
mod reading;
mod spans;

pub use archives::archive_of;
pub use checking::check_records;
pub use chk_record_index::JobFault;
pub use courses::is_of;
pub use faults::head_fault;
pub use laws::heads_stand_for_chunks;
pub use merging::{merge, put_in_order};
pub use names::{most_in, segment_names};
pub use reader::RecordReader;
pub use spans::{Ahead, Window};
