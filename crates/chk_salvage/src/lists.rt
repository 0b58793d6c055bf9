//! Lists of what was read.

ghost use Rattle.std.specs.Prelude.{◌≡◌, [], ◌∷◌, ◌++◌, map, OnOk, OnErr};
ghost use Rattle.chk_salvage.specs.Views.{placed_of};

use crate::entry::EntryRef;
use chk_bytes::NoMemory;
use std::alloc::Global;
use std::marker::Model;

/// Records in the order in which they were read. It keeps its allocator.
#[derive(Debug, Drop)]
pub struct EntryRefs<'a> {
    items: Vec<EntryRef<'a>>,
}

impl<'a> Model for EntryRefs<'a> {
    ghost use Rattle.std.specs.Prelude.{List, map};
    ghost use Rattle.chk_seqfile.specs.Entries.{Placed};
    ghost use Rattle.chk_salvage.specs.Views.{placed_of};

    ghost Value = { List Placed };

    ghost view = { λ e. map placed_of e.items.items };
}

impl<'a> EntryRefs<'a> {
    /// No records. It takes no memory before the first one comes.
    pub fn new(alloc: Global) -> EntryRefs<'a>
        ensures { result ≡ [] }
    {
        EntryRefs {
            items: Vec::new(alloc),
        }
    }

    /// Adds a record at the end, or without memory nothing.
    pub fn push(&mut self, item: EntryRef<'a>) -> Result<(), NoMemory>
        ensures ok { OnOk result (self.new ≡ self.old ++ placed_of item.entry ∷ []) }
        ensures err { OnErr result (self.new ≡ self.old) }
    {
        self.items.push(item)?;
        Ok(())
    }

    /// The records, without a copy.
    pub fn as_slice(&self) -> &[EntryRef<'a>]
        ensures { map placed_of result.now ≡ self.now }
    {
        &self.items
    }
}

/// A range of places: from `begin` up to, not including, `end`.
#[derive(Clone, Copy, Debug, PartialEq, Eq)]
pub struct Span {
    pub begin: u64,
    pub end: u64,
}

/// Ranges in the order of their places. It keeps its allocator.
#[derive(Debug, Drop)]
pub struct Spans {
    items: Vec<Span>,
}

impl Model for Spans {
    ghost use Rattle.std.specs.Prelude.{List};
    ghost use Rattle.chk_salvage.specs.declared.lists.Span.{Span};

    ghost Value = { List Span };

    ghost view = { λ s. s.items.items };
}

impl Spans {
    /// No ranges. It takes no memory before the first one comes.
    pub fn new(alloc: Global) -> Spans
        ensures { result ≡ [] }
    {
        Spans {
            items: Vec::new(alloc),
        }
    }

    /// Adds a range at the end, or without memory nothing.
    pub fn push(&mut self, item: Span) -> Result<(), NoMemory>
        ensures ok { OnOk result (self.new ≡ self.old ++ item ∷ []) }
        ensures err { OnErr result (self.new ≡ self.old) }
    {
        self.items.push(item)?;
        Ok(())
    }

    /// The ranges, without a copy.
    pub fn as_slice(&self) -> &[Span]
        ensures { result.now ≡ self.now }
    {
        &self.items
    }
}
