//! What a store holds, as one who only looks sees it: the bytes of one stream's archive, printed as they are read.
#![tactic(auto)]

mod archive;
mod course;
mod fault;
mod laws;
mod loading;
mod recent;
mod saying;
mod segment;
mod stream;

pub use archive::print_archive;
pub use course::Course;
pub use fault::LookFault;
pub use laws::law_wanted;
pub use loading::{find_book, look_of};
pub use segment::print_segment;
pub use stream::{Came, print_stream};
