//! What is taken of each stream of two archives.

ghost use Rattle.std.specs.Prelude.{◌≡◌, IfOk, OnOk};
ghost use Rattle.chk_book.specs.Views.{end_view};
ghost use Rattle.chk_join_sources.specs.Plans.{TakesNothing, HasTaken};

use crate::Block;
use chk_book::{End, Ends};
use chk_bytes::NoMemory;
use std::alloc::Global;

/// Whose records of a stream are taken, and where their heads stand.
#[derive(Clone, Copy)]
pub struct Choice {
    pub from_right: bool,
    pub block: Block,
}

/// What is taken of all streams, in byte order: of each one the choice, and its end.
#[derive(Drop)]
pub struct Plan {
    pub choices: Vec<Choice>,
    pub ends: Ends,
    /// How many bytes the records' values have.
    pub bytes: u64,
}

impl Plan {
    /// Nothing is taken. It takes no memory.
    pub(crate) fn new(alloc: Global) -> Plan
        ensures { TakesNothing result }
    {
        Plan {
            choices: Vec::new(alloc),
            ends: Ends::new(alloc),
            bytes: 0,
        }
    }

    /// Takes a stream that ends so. More bytes than 64 bits count come as want of memory.
    pub(crate) fn take(&mut self, end: &End, choice: Choice) -> Result<(), NoMemory>
        ensures { OnOk result (HasTaken (end_view end.now) choice self.old self.new) }
    {
        let size = end.end.saturating_sub(end.start);
        let bytes = self.bytes.checked_add(size).ok_or(NoMemory)?;
        self.ends.push(copy_of(end)?)?;
        self.choices.push(choice)?;
        self.bytes = bytes;
        Ok(())
    }
}

/// A second end of the same stream.
fn copy_of(end: &End) -> Result<End, NoMemory>
    ensures { IfOk result (λ copy. end_view copy ≡ end_view end.now) }
{
    Ok(End {
        source: end.source.copy()?,
        kind: end.kind.copy()?,
        name: end.name.copy()?,
        start: end.start,
        end: end.end,
    })
}
