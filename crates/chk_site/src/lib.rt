//! The outside of the program: its calls, the acts that they leave in the history, and the files.
#![tactic(auto)]

mod acts;
mod laws;
mod limits;
mod lists;
mod scripts;
mod site;
mod suffixes;

pub use acts::{Act, ActAnswer, Call, CallFault, OutsideFault, Role, Who};
pub use laws::law_cut_places;
pub use limits::{LOG_BYTES, LOG_END, PIECE_BYTES};
pub use lists::{Left, Lefts, Words};
pub use scripts::{Other, Script, StopAt};
pub use site::{Site, done, reached, size_of, taken};
pub use suffixes::{Part, Piece, Suffix, Taking, is_suffix};
