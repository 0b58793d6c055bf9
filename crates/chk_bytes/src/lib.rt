//! Byte strings, words, numbers as bytes and as digits, and stems: what every other crate of the
//! log collector stands on.
#![tactic(auto)]

mod breaks;
mod byte_list;
mod decimals;
mod laws;
mod numbers;
mod stem;
mod vints;
mod word;

pub use breaks::{first_space, line_size};
pub use byte_list::Bytes;
pub use decimals::{put_decimal, take_decimal, take_plain_decimal};
pub use laws::{
    decimals_read_back, equal_stems_are_one, numbers_read_back, stems_read_back,
    vints_are_shortest, vints_follow_the_table, vints_read_back, word_is_faultless,
};
pub use numbers::{LAST_NUMBER, put_u16, put_u32, put_u64, take_u16, take_u32, take_u64};
use std::alloc::{AllocError, AllocFailed};
pub use stem::Stem;
pub use vints::{VintFault, put_vint, take_vint};
pub use word::{Word, WordFault, comes_before, word_fault};

/// There was no memory.
#[derive(Clone, Copy, Debug, PartialEq, Eq)]
pub struct NoMemory;

impl From<AllocError> for NoMemory {
    fn from(_: AllocError) -> Self {
        NoMemory
    }
}

impl<T: Drop> From<AllocFailed<T>> for NoMemory {
    fn from(_: AllocFailed<T>) -> Self {
        NoMemory
    }
}
