//! The table of answers.

ghost use Rattle.std.specs.Prelude.{◌≡◌, ◌⊎◌, ◌↔◌, ◌+◌, ◌<◌, ◌≤◌, ℕ, [], All, Contains, IfOk, IfSome, IsNone, fold, length, slice_index};
ghost use Rattle.chk_acks.specs.Contiguous.{IsContiguousEnd};
ghost use Rattle.chk_acks.specs.Rows.{IsReached, expired_adaptors, rows_of, waiting_after};
ghost use Rattle.chk_acks.specs.Table.{IsKnown, IsSettled, Sees, added, answer_row, begun, empty_table};
ghost use Rattle.chk_acks.specs.Resets.{ends_back, expired_marked, without_rows};
ghost use Rattle.chk_acks.specs.Sound.{IsSound};

use crate::row::Row;
use crate::rows::Rows;
use chk_bytes::{NoMemory, Stem};
use std::alloc::Global;
use std::marker::Model;

/// The answers to an agent's chunks that don't yet lie below a committed end, and the committed and
/// the last end of each of its adaptors. An adaptor is named by its number, from 0.
///
/// It takes 52 bytes a row, 88 for each run of rows of one sink in order of answers, and 16 an
/// adaptor. So where each row names another sink than the one before it, a row takes 140.
#[derive(Drop)]
pub struct Acks {
    rows: Rows,
    // The places of the unmarked ones.
    unmarked: Vec<u32>,
    committed: Vec<u64>,
    last: Vec<u64>,
}

impl Model for Acks {
    ghost use Rattle.chk_acks.specs.Table.{Table};

    ghost Value = { Table };

    ghost use Rattle.chk_acks.specs.Held.{IsHeld, table_of};

    ghost view = { table_of };

    ghost invariant = { IsHeld };
}

impl Acks {
    /// A table with room for so many rows, and so many adaptors, each at offset 0. No other call
    /// takes memory.
    pub fn new(alloc: Global, rows: u32, adaptors: u32) -> Result<Acks, NoMemory>
        ensures { IfOk result (λ acks. acks ≡ empty_table rows adaptors) }
    {
        Ok(Acks {
            rows: Rows::new(alloc, rows)?,
            unmarked: Vec::with_capacity(alloc, rows as usize)?,
            committed: vec![in alloc; 0u64; adaptors as usize]?,
            last: vec![in alloc; 0u64; adaptors as usize]?,
        })
    }

    /// Drops the adaptor's rows and sets its committed and its last end to an offset. It takes time
    /// linear in the rows in use.
    pub fn begin(&mut self, adaptor: u32, at: u64)
        requires { IsKnown self.old adaptor }
        ensures table { self.new ≡ begun adaptor at self.old }

        // What lies below the offset counts as settled, and nothing else of the adaptor does.
        ensures settled { (offset : ℕ) → IsSettled self.new adaptor offset ↔ (offset < at) }
    {
        self.rows.drop_adaptor(adaptor);
        self.rows.list_unmarked(&mut self.unmarked);
        self.committed[adaptor as usize] = at;
        self.last[adaptor as usize] = at;
    }

    /// Drops the rows of each marked adaptor and sets its last end to its committed one, as `begin`
    /// at that end would for each in turn. It takes time linear in the rows in use and the
    /// adaptors.
    pub fn reset(&mut self, gone: &[bool])
        requires { length gone.now ≡ length self.old.committed }
        ensures { self.new ≡ without_rows gone.now self.old }
    {
        self.rows.keep_others(gone);
        self.rows.list_unmarked(&mut self.unmarked);
        set_back(&mut self.last, &self.committed, gone);
    }

    /// How many adaptors there are.
    pub fn adaptors(&self) -> u32
        ensures { result ≡ length self.now.committed }
    {
        self.committed.len() as u32
    }

    /// How many more rows there is room for.
    pub fn free(&self) -> u32
        ensures free { result + length self.now.rows ≡ self.now.room }
        ensures sound { IsSound self.now }
    {
        self.rows.room() - self.rows.len()
    }

    /// Adds a row for a chunk from `begin` to `end` of the adaptor's stream, answered at `now` with
    /// a sink and the offset at which the chunk's entry ends in it. It takes constant time.
    pub fn answered(
        &mut self,
        adaptor: u32,
        begin: u64,
        end: u64,
        stem: Stem,
        offset: u64,
        now: u64,
    )
        requires known { IsKnown self.old adaptor }
        requires free { length self.old.rows < self.old.room }
        requires next { begin ≡ slice_index self.old.last adaptor }
        requires some { begin < end }
        ensures table { self.new ≡ added (answer_row adaptor begin end stem offset now) self.old }
        ensures settled { (other place : ℕ)
            → IsSettled self.new other place ↔ IsSettled self.old other place }
    {
        let _ = self.unmarked.push(self.rows.len());
        self.rows.push(Row {
            adaptor,
            begin,
            end,
            stem,
            offset,
            answered: now,
            marked: false,
        });
        self.last[adaptor as usize] = end;
    }

    /// Takes note that the sink was seen committed up to a length: marks its rows with an offset at
    /// or below that, moves each committed end over the marked rows that follow it, and gives the
    /// rows below free. It takes time linear in the rows in use.
    pub fn seen(&mut self, stem: Stem, length: u64)
        ensures table { Sees stem length self.old self.new }

        // Just what the sink and the length reach is settled in addition.
        ensures settled { (adaptor offset : ℕ) → IsKnown self.old adaptor
            → IsSettled self.new adaptor offset
            ↔ (IsSettled self.old adaptor offset
            ⊎ IsReached stem length (rows_of adaptor self.old.rows) offset) }
    {
        self.rows.mark(stem, length);
        self.rows.advance(&mut self.committed);
        self.rows.keep_past(&self.committed);
        self.rows.list_unmarked(&mut self.unmarked);
    }

    /// The greatest end up to which each byte is in a marked row, or below the offset of `begin`.
    pub fn committed_end(&self, adaptor: u32) -> u64
        requires { IsKnown self.now adaptor }
        ensures value { result ≡ slice_index self.now.committed adaptor }
        ensures committed_is_contiguous { IsContiguousEnd (IsSettled self.now adaptor) 0 result }
        ensures ordered { result ≤ slice_index self.now.last adaptor }
    {
        self.committed[adaptor as usize]
    }

    /// The end of the adaptor's last row since `begin`, marked or not, and the offset of `begin`
    /// before the first.
    pub fn last_end(&self, adaptor: u32) -> u64
        requires { IsKnown self.now adaptor }
        ensures { result ≡ slice_index self.now.last adaptor }
    {
        self.last[adaptor as usize]
    }

    /// The least adaptor with an unmarked row that was answered at least `age` before `now`, both
    /// in the unit of the moments given to `answered`. A row of a moment after `now`, as where the
    /// clock was set back, isn't expired. It takes time linear in the rows in use.
    pub fn expired(&self, now: u64, age: u64) -> Option<u32>
        ensures none { IsNone result ↔ (expired_adaptors now age self.now.rows ≡ []) }
        ensures some { IfSome result (Contains (expired_adaptors now age self.now.rows)) }
        ensures least { IfSome result
            (λ adaptor. All (λ other. adaptor ≤ other) (expired_adaptors now age self.now.rows)) }
        ensures known { IfSome result (IsKnown self.now) }
    {
        self.rows.least_expired(now, age)
    }

    /// Marks each adaptor with a row that is expired as `expired` says. It takes time linear in the
    /// rows in use.
    pub fn expired_all(&self, now: u64, age: u64, gone: &mut [bool])
        requires { length gone.old ≡ length self.now.committed }
        ensures { gone.new ≡ fold (expired_marked now age) gone.old self.now.rows }
    {
        self.rows.mark_expired(now, age, gone);
    }

    /// The sink and the offset of the unmarked row after so many unmarked ones, in order of
    /// answers. It takes constant time.
    pub fn waiting(&self, skip: u32) -> Option<(Stem, u64)>
        ensures { result ≡ waiting_after skip self.now.rows }
    {
        let place = *self.unmarked.get(skip as usize)?;
        Some(self.rows.named_at(place))
    }
}

// Sets the last ends of the marked adaptors to their committed ones.
fn set_back(last: &mut [u64], committed: &[u64], gone: &[bool])
    requires committed { length committed.now ≡ length last.old }
    requires gone { length gone.now ≡ length last.old }
    ensures { last.new ≡ ends_back gone.now committed.now last.old }
{
    for (adaptor, is_gone) in gone.iter().enumerate() {
        if *is_gone {
            last[adaptor] = committed[adaptor];
        }
    }
}
