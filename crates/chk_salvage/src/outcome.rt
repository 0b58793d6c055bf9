//! What is answered of whole files.

ghost use Rattle.std.specs.Prelude.{◌≡◌};

use crate::lists::{EntryRefs, Spans};
use chk_bytes::NoMemory;
use chk_seqfile::{HeaderFault, Why};

/// The records of the longest sound front of a file, and where it ends.
#[derive(Debug, Drop)]
pub struct Front<'a> {
    pub entries: EntryRefs<'a>,
    pub stop: FrontStop,
}

/// Where the longest sound front of a file ends.
#[derive(Clone, Copy, Debug, PartialEq, Eq)]
pub enum FrontStop {
    /// At the end of the file.
    End,
    /// At a place at which no entry can be read.
    Damaged { at: u64, why: Why },
}

/// What can be read of a file with damage in it.
#[derive(Debug, Drop)]
pub struct Salvaged<'a> {
    pub entries: EntryRefs<'a>,
    /// The ranges in which no entry can be read.
    pub skipped: Spans,
}

/// Why nothing is read of a file.
#[derive(Clone, Copy, Debug, PartialEq, Eq)]
pub enum FrontFault {
    Header(HeaderFault),
    NoMemory,
}

impl From<HeaderFault> for FrontFault {
    ghost use Rattle.chk_salvage.specs.declared.outcome.FrontFault.TheVariants as fault;

    ghost from_gives = { λ header e. e ≡ fault.Header header };

    fn from(fault: HeaderFault) -> Self {
        FrontFault::Header(fault)
    }
}

impl From<NoMemory> for FrontFault {
    ghost use Rattle.chk_salvage.specs.declared.outcome.FrontFault.TheVariants as fault;

    ghost from_gives = { λ _ e. e ≡ fault.NoMemory };

    fn from(_: NoMemory) -> Self {
        FrontFault::NoMemory
    }
}
