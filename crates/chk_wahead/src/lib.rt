//! Datagrams through a buffer that is synced before they count.
//!
//! What is put goes into one buffer, `wahead/<name>.buf`. A commit syncs it, and then publishes its length as its mark.
//! A close gives a committed buffer the name `wahead/<name>-<number>`, which is that of a rotated generation of the log
//! `wahead/<name>`. A start closes a buffer that an earlier run left, cut to its mark.
#![tactic(auto)]

mod calls;
mod fault;
mod found;
mod names;
mod starting;
mod wahead;

pub use fault::WaheadFault;
pub use wahead::Wahead;
