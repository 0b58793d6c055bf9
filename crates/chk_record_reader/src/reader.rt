//! Reads records back whose heads are known.

ghost use Rattle.std.specs.Prelude.{◌+◌, ◌≤◌, length};
ghost use Rattle.chk_chunk.specs.Keys.{record_limit};

use crate::reading::read_run;
use crate::spans::{Ahead, Run, Span, run_of, value_span};
use chk_bytes::Bytes;
use chk_record_index::{HeadRef, Heads, JobFault, damaged};
use chk_site::{OutsideFault, Site, Who};
use std::alloc::Global;

/// Reads the values of records whose heads are known. It holds a run of one file's bytes: the last
/// record that was asked for, and those of the next heads where they lie close, in all at most
/// 262,144 bytes, or one larger record; or a whole window of 983,040 bytes, and 65,536 behind it.
#[derive(Debug, Drop)]
pub struct RecordReader {
    file: u32,
    from: u64,
    bytes: Bytes,
    start: usize,
    size: usize,
    ghost within: { start + size ≤ length bytes },
}

impl RecordReader {
    ghost use Rattle.std.specs.Prelude.{◌≡◌, ◌<◌, ℕ, List, Option, IsTrue, MatchBool, OnErr, IfErr, IfSome, IfNone, slice_index_or};
    ghost use Rattle.chk_bytes.specs.Words.{is_word};
    ghost use Rattle.chk_site.specs.Files.{File};
    ghost use Rattle.chk_site.specs.Effect.{IsSmallFile};
    ghost use Rattle.chk_site.specs.History.{Every};
    ghost use Rattle.chk_site.specs.Site.{Adds, LastFailed, OutsideCause};
    ghost use Rattle.chk_site.specs.Runs.{anyhow, Leads};
    ghost use Rattle.chk_replace.specs.Load.{Has};
    ghost use Rattle.chk_world.specs.Sight.{job};
    ghost use Rattle.chk_world.specs.JobSteps.{IsOf, ReadsFile, SparesFile};
    ghost use Rattle.chk_record_index.specs.Faults.{JobCause, FailsLast, IsOfRead};
    ghost use Rattle.chk_record_index.specs.Pieces.{AsksInPieces};
    ghost use Rattle.chk_record_index.specs.Order.{lent_head, no_head};
    ghost use Rattle.chk_record_index.specs.Causes.{Shows};
    ghost use Rattle.chk_record_reader.specs.Spans.{StaysAtOk};
    ghost use Rattle.chk_record_reader.specs.Gone.{ShowsWindow, IsGoneOf};
    ghost use Rattle.chk_record_reader.specs.ReadBack.{value_held, HoldsNothing, CanRead, HasRead, IsDamageOf, IsHeld, NotHeld, StandsAt, StandsNowhere, HasWindow};

    /// A reader that holds nothing. It takes no memory.
    pub fn new(alloc: Global) -> RecordReader
        ensures { HoldsNothing result }
    {
        RecordReader {
            file: 0,
            from: 0,
            bytes: Bytes::new(alloc),
            start: 0,
            size: 0,
        }
    }

    /// Makes the record of the head at `index` the one whose `value` is held. `name` is the head's
    /// file, as it was when the heads were gathered. `Damaged` comes only where that file has
    /// changed since: then the record doesn't stand in its place, or its value has another length.
    /// After a refusal nothing is held.
    ///
    /// Where the window holds the record, no call is made. Else it costs one read of the record,
    /// or of the records of this and the next heads, as long as they follow in the same file with
    /// at most 4,096 bytes between two of them; a record of more than 1,048,576 bytes costs two.
    pub fn fetch<S: Site>(
        &mut self,
        alloc: Global,
        site: &mut S,
        who: &Who,
        name: &str,
        heads: &Heads,
        index: usize,
    ) -> Result<(), JobFault>
        requires name { IsTrue (is_word name.now) }
        requires index { index < length heads.now }
        ensures raw { (most : ℕ) (f : Option File) → most ≤ record_limit → IsSmallFile f → Adds
            (S.told site.old) (S.told site.new)
            (Leads (anyhow (SparesFile name.now)) (CanRead most name.now f
            (slice_index_or heads.now index no_head) self.old)
            (HasRead name.now f (slice_index_or heads.now index no_head) self.new result)) }
        ensures shown { Adds (S.told site.old) (S.told site.new)
            (Shows (IsGoneOf name.now (slice_index_or heads.now index no_head)) result) }
        ensures left { OnErr result (HoldsNothing self.new) }
        ensures place { IfErr result (IsDamageOf name.now
            (slice_index_or heads.now index no_head)) }
        ensures stays { (other : List ℕ) (file : Option File) → Adds (S.told site.old)
            (S.told site.new)
            (Leads (anyhow (SparesFile other)) (Has other file) (StaysAtOk other file result)) }
        ensures own { who.now ≡ job → Adds (S.told site.old) (S.told site.new) (Every
            (IsOf ReadsFile)) }
        ensures pieces { Adds (S.told site.old) (S.told site.new) (Every AsksInPieces) }
        ensures only { IfErr result IsOfRead }
        ensures last { Adds (S.told site.old) (S.told site.new) (FailsLast result) }
        ensures cause { JobCause (S.fault_count site.old) (S.fault_count site.new) result }
    {
        let head = heads.get(index);
        self.fetch_by_head(alloc, site, who, name, heads, index, &head, Ahead::Next)
    }

    /// The same for a caller that has the head at `index` and says how far a read goes on. Of the
    /// heads only the next ones are looked at, and none where what is held has the record. With
    /// `Ahead::Window` a call costs one read, and serves all records of at most 65,536 bytes that
    /// begin in the window.
    pub fn fetch_by_head<S: Site>(
        &mut self,
        alloc: Global,
        site: &mut S,
        who: &Who,
        name: &str,
        heads: &Heads,
        index: usize,
        head: &HeadRef<'_>,
        ahead: Ahead,
    ) -> Result<(), JobFault>
        requires name { IsTrue (is_word name.now) }
        requires index { index < length heads.now }
        requires head { lent_head head.now ≡ slice_index_or heads.now index no_head }
        ensures raw { (most : ℕ) (f : Option File) → most ≤ record_limit → IsSmallFile f → Adds
            (S.told site.old) (S.told site.new)
            (Leads (anyhow (SparesFile name.now)) (CanRead most name.now f
            (slice_index_or heads.now index no_head) self.old)
            (HasRead name.now f (slice_index_or heads.now index no_head) self.new result)) }
        ensures shown { Adds (S.told site.old) (S.told site.new)
            (Shows (IsGoneOf name.now (slice_index_or heads.now index no_head)) result) }
        ensures left { OnErr result (HoldsNothing self.new) }
        ensures place { IfErr result (IsDamageOf name.now
            (slice_index_or heads.now index no_head)) }
        ensures stays { (other : List ℕ) (file : Option File) → Adds (S.told site.old)
            (S.told site.new)
            (Leads (anyhow (SparesFile other)) (Has other file) (StaysAtOk other file result)) }
        ensures own { who.now ≡ job → Adds (S.told site.old) (S.told site.new) (Every
            (IsOf ReadsFile)) }
        ensures pieces { Adds (S.told site.old) (S.told site.new) (Every AsksInPieces) }
        ensures only { IfErr result IsOfRead }
        ensures last { Adds (S.told site.old) (S.told site.new) (FailsLast result) }
        ensures cause { JobCause (S.fault_count site.old) (S.fault_count site.new) result }
    {
        if self.find(head) {
            return Ok(());
        }
        self.refill(alloc, site, who, name, heads, index, ahead)
    }

    /// Reads the record of the head at `index`, and what is read with it, and makes its value the
    /// one that is held. It stands apart, and is lent no head, so that a record that is held
    /// costs no more than its search.
    #[inline(never)]
    fn refill<S: Site>(
        &mut self,
        alloc: Global,
        site: &mut S,
        who: &Who,
        name: &str,
        heads: &Heads,
        index: usize,
        ahead: Ahead,
    ) -> Result<(), JobFault>
        requires name { IsTrue (is_word name.now) }
        requires index { index < length heads.now }
        ensures raw { (most : ℕ) (f : Option File) → most ≤ record_limit → IsSmallFile f → Adds
            (S.told site.old) (S.told site.new)
            (Leads (anyhow (SparesFile name.now)) (CanRead most name.now f
            (slice_index_or heads.now index no_head) self.old)
            (HasRead name.now f (slice_index_or heads.now index no_head) self.new result)) }
        ensures shown { Adds (S.told site.old) (S.told site.new)
            (Shows (IsGoneOf name.now (slice_index_or heads.now index no_head)) result) }
        ensures left { OnErr result (HoldsNothing self.new) }
        ensures place { IfErr result (IsDamageOf name.now
            (slice_index_or heads.now index no_head)) }
        ensures stays { (other : List ℕ) (file : Option File) → Adds (S.told site.old)
            (S.told site.new)
            (Leads (anyhow (SparesFile other)) (Has other file) (StaysAtOk other file result)) }
        ensures own { who.now ≡ job → Adds (S.told site.old) (S.told site.new) (Every
            (IsOf ReadsFile)) }
        ensures pieces { Adds (S.told site.old) (S.told site.new) (Every AsksInPieces) }
        ensures only { IfErr result IsOfRead }
        ensures last { Adds (S.told site.old) (S.told site.new) (FailsLast result) }
        ensures cause { JobCause (S.fault_count site.old) (S.fault_count site.new) result }
    {
        let head = heads.get(index);
        let run = run_of(heads, index, &head, ahead);
        self.load(alloc, site, who, name, head.file, run)?;
        if self.find(&head) {
            return Ok(());
        }
        self.clear(alloc);
        Err(damaged(alloc, name, head.at))
    }

    /// The value of the record that was fetched last, without a copy; none before the first, and
    /// after a refusal.
    pub fn value(&self) -> &[u8]
        ensures { result.now ≡ value_held self.now }
    {
        &self.bytes.as_slice()[self.start..self.start + self.size]
    }

    /// Lets the window go.
    fn clear(&mut self, alloc: Global)
        ensures { HoldsNothing self.new }
    {
        self.bytes = Bytes::new(alloc);
        self.start = 0;
        self.size = 0;
    }

    /// Holds this run of the bytes of the file of this number.
    fn load<S: Site>(
        &mut self,
        alloc: Global,
        site: &mut S,
        who: &Who,
        name: &str,
        file: u32,
        run: Run,
    ) -> Result<(), OutsideFault>
        requires { run.size ≤ 1065001 }
        ensures raw { (f : Option File) → IsSmallFile f → Adds (S.told site.old) (S.told site.new)
            (Leads (anyhow (SparesFile name.now)) (Has name.now f) (HasWindow name.now f
            file run.from run.size self.new result)) }
        ensures shown { Adds (S.told site.old) (S.told site.new)
            (ShowsWindow name.now file run.from run.size self.new result) }
        ensures left { OnErr result (HoldsNothing self.new) }
        ensures stays { (other : List ℕ) (file : Option File) → Adds (S.told site.old)
            (S.told site.new)
            (Leads (anyhow (SparesFile other)) (Has other file) (StaysAtOk other file result)) }
        ensures own { who.now ≡ job → Adds (S.told site.old) (S.told site.new) (Every
            (IsOf ReadsFile)) }
        ensures pieces { Adds (S.told site.old) (S.told site.new) (Every AsksInPieces) }
        ensures last { Adds (S.told site.old) (S.told site.new) (LastFailed result) }
        ensures cause { OutsideCause (S.fault_count site.old) (S.fault_count site.new) result }
    {
        self.clear(alloc);
        self.bytes = read_run(alloc, site, who, name, run.from, run.size)?;
        self.file = file;
        self.from = run.from;
        Ok(())
    }

    /// Whether the window holds the head's record, whose value is then the one that is held.
    fn find(&mut self, head: &HeadRef<'_>) -> bool
        ensures { MatchBool result (IsHeld (lent_head head.now) self.old self.new) (NotHeld
            (lent_head head.now) self.old self.new) }
    {
        match self.span_of(head) {
            Some(span) => {
                self.start = span.start;
                self.size = span.size;
                true
            }
            None => false,
        }
    }

    /// Where the value of the head's record stands in the window.
    fn span_of(&self, head: &HeadRef<'_>) -> Option<Span>
        ensures some { IfSome result (λ span. StandsAt
            (lent_head head.now) self.now span.start span.size) }
        ensures none { IfNone result (StandsNowhere (lent_head head.now) self.now) }
    {
        if head.file != self.file {
            return None;
        }
        let at = head.at.checked_sub(self.from)?;
        let size = head.key.seq.saturating_sub(head.begin);
        value_span(self.bytes.as_slice(), at as usize, size)
    }
}
