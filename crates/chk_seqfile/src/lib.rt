//! Hadoop SequenceFiles of version 6, uncompressed, whose keys and values are of the class
//! `org.apache.hadoop.io.BytesWritable`: how they are written, and how a header is read.
//!
//! A file is a header and then entries. A record is its length, the length of its key part, and the
//! two parts, each of them bytes behind their own length; all lengths have 4 bytes, the high one
//! first. A sync entry is four bytes 255 and the 16 bytes of the file's marker, which stand at the
//! end of its header: by it a reader finds its way again behind damage.
#![tactic(auto)]

mod entries;
mod headers;
mod laws;
mod reading;
mod writer;

pub use entries::Why;
pub use headers::{HeaderFault, HeaderRef, TextsLeft, header, read_header, read_header_on};
pub use laws::{law_cut, law_written_file};
pub use writer::SeqWriter;
