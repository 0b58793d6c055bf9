//! HTTP messages between agents and collectors, read and written (HTTP/1.1, RFC 9112).
#![tactic(auto)]

mod body;
mod fault;
mod head;
mod header_lines;
mod line_list;
mod reply;
mod request;
mod split;
mod stem_list;
mod writer;

pub use fault::HttpFault;
pub use line_list::LineList;
pub use reply::{ReplyRef, read_reply};
pub use request::{RequestRef, read_request};
pub use stem_list::{MOST_STEMS, StemList};
pub use writer::{write_acks_request, write_post_head, write_post_request, write_reply};
