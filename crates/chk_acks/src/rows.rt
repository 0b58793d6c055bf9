//! The rows of the table, with each of their sinks kept once where rows in turn share it.

ghost use Rattle.std.specs.Prelude.{◌≡◌, ◌<◌, ◌≤◌, ◌^◌, ◌+◌, ◌++◌, ◌∷◌, [], ℕ, All, IfOk, filter, fold, length, map, min, vec_capacity};
ghost use Rattle.std.specs.List.{reduce};
ghost use Rattle.chk_acks.specs.Rows.{expired_adaptors, is_of_other, is_past, marked_at};
ghost use Rattle.chk_acks.specs.Resets.{expired_marked, is_of_kept};
ghost use Rattle.chk_acks.specs.Passes.{moved_end, places_of};
ghost use Rattle.chk_acks.specs.Keeping.{named_at, sink_at};

use crate::kept::{Kept, advance, gather, least_expired, list_unmarked, mark, mark_expired};
use crate::row::Row;
use chk_bytes::{NoMemory, Stem};
use std::alloc::Global;
use std::marker::Model;

/// The rows in use, in order of answers. It takes 48 bytes a row, and 88 for each run of rows of one
/// sink.
#[derive(Drop)]
pub(crate) struct Rows {
    room: u32,
    kept: Vec<Kept>,
    // The sinks that the rows name, in order.
    sinks: Vec<Stem>,
}

impl Model for Rows {
    ghost use Rattle.chk_acks.specs.Keeping.{Answers};

    ghost Value = { Answers };

    ghost use Rattle.chk_acks.specs.Keeping.{IsSoundRows, answers_of};

    ghost view = { answers_of };

    ghost invariant = { IsSoundRows };
}

impl Rows {
    pub(crate) fn new(alloc: Global, room: u32) -> Result<Rows, NoMemory>
        ensures { IfOk result (λ r. r ≡ record { rows = []; room = room }) }
    {
        Ok(Rows {
            room,
            kept: Vec::with_capacity(alloc, room as usize)?,
            sinks: Vec::with_capacity(alloc, room as usize)?,
        })
    }

    /// How many rows there is room for.
    pub(crate) fn room(&self) -> u32
        ensures { result ≡ self.now.room }
    {
        self.room
    }

    /// How many rows there are.
    pub(crate) fn len(&self) -> u32
        ensures len { result ≡ length self.now.rows }
        ensures room { length self.now.rows ≤ self.now.room }
    {
        self.kept.len() as u32
    }

    pub(crate) fn push(&mut self, row: Row)
        requires { length self.old.rows < self.old.room }
        ensures { self.new ≡ record self.old { rows = self.old.rows ++ row ∷ [] } }
    {
        let sink = number_of(&mut self.sinks, row.stem);
        let _ = self.kept.push(Kept {
            adaptor: row.adaptor,
            sink,
            begin: row.begin,
            end: row.end,
            offset: row.offset,
            answered: row.answered,
            marked: row.marked,
        });
    }

    /// Marks the rows of the stem with an offset at or below the length.
    pub(crate) fn mark(&mut self, stem: Stem, length: u64)
        ensures { self.new ≡ record self.old { rows = map (marked_at stem length) self.old.rows } }
    {
        mark(&mut self.kept, &self.sinks, stem, length);
    }

    /// Moves each committed end over the marked rows that follow it.
    pub(crate) fn advance(&self, committed: &mut [u64])
        requires { All (λ r. r.adaptor < length committed.old) self.now.rows }
        ensures { committed.new ≡ fold moved_end committed.old self.now.rows }
    {
        advance(committed, &self.kept);
    }

    /// Drops the rows that end at or below the committed end of their adaptor.
    pub(crate) fn keep_past(&mut self, committed: &[u64])
        ensures { self.new ≡ record self.old { rows = filter (is_past committed.now) self.old.rows } }
    {
        self.kept.retain(|row| row.is_past(committed));
        gather(&mut self.kept, &mut self.sinks);
    }

    /// Drops the rows of an adaptor.
    pub(crate) fn drop_adaptor(&mut self, adaptor: u32)
        ensures { self.new ≡ record self.old { rows = filter (is_of_other adaptor) self.old.rows } }
    {
        self.kept.retain(|row| row.adaptor != adaptor);
        gather(&mut self.kept, &mut self.sinks);
    }

    /// Drops the rows of the marked adaptors.
    pub(crate) fn keep_others(&mut self, gone: &[bool])
        ensures { self.new ≡ record self.old { rows = filter (is_of_kept gone.now) self.old.rows } }
    {
        self.kept.retain(|row| row.is_here(gone));
        gather(&mut self.kept, &mut self.sinks);
    }

    /// Lists the places of the unmarked rows.
    pub(crate) fn list_unmarked(&self, places: &mut Vec<u32>)
        requires { self.now.room ≤ vec_capacity places.old }
        ensures places { places.new.items ≡ places_of 0 self.now.rows }
        ensures capacity { vec_capacity places.old ≤ vec_capacity places.new }
    {
        list_unmarked(places, &self.kept);
    }

    /// Marks the adaptor of each expired row.
    pub(crate) fn mark_expired(&self, now: u64, age: u64, gone: &mut [bool])
        requires { All (λ r. r.adaptor < length gone.old) self.now.rows }
        ensures { gone.new ≡ fold (expired_marked now age) gone.old self.now.rows }
    {
        mark_expired(&self.kept, now, age, gone);
    }

    /// The least adaptor with an expired row.
    pub(crate) fn least_expired(&self, now: u64, age: u64) -> Option<u32>
        ensures { result ≡ reduce min (expired_adaptors now age self.now.rows) }
    {
        least_expired(&self.kept, now, age)
    }

    /// The sink and the offset of the row at a place.
    pub(crate) fn named_at(&self, place: u32) -> (Stem, u64)
        requires { place < length self.now.rows }
        ensures { result ≡ named_at self.now.rows place }
    {
        let row = &self.kept[place as usize];
        (self.sinks[row.sink as usize], row.offset)
    }
}

// The number of the sink, which is put behind the others where it isn't the last one.
fn number_of(sinks: &mut Vec<Stem>, stem: Stem) -> u32
    requires room { length sinks.old.items < vec_capacity sinks.old }
    requires few { length sinks.old.items < 2 ^ 32 }
    ensures named { sink_at sinks.new.items result ≡ stem }
    ensures last { result + 1 ≡ length sinks.new.items }
    ensures on { length sinks.old.items ≤ result + 1 }
    ensures few { result ≤ length sinks.old.items }
    ensures others { (k : ℕ) → k < length sinks.old.items
        → sink_at sinks.new.items k ≡ sink_at sinks.old.items k }
    ensures capacity { vec_capacity sinks.old ≤ vec_capacity sinks.new }
{
    if sinks.last() != Some(&stem) {
        let _ = sinks.push(stem);
    }
    (sinks.len() - 1) as u32
}
