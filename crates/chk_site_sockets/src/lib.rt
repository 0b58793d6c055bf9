//! Messages: inside the process, on TCP and on UDP, with every wait bounded.
#![tactic(auto)]

mod addresses;
mod datagram_doors;
mod datagrams;
mod door_list;
mod doors;
mod mailbox;
mod messages;
mod sends;
mod stream_door;
mod stream_doors;
mod streams;

pub use chk_site_errors::{SystemFault, make_place, make_room, text};
pub use messages::Messages;
