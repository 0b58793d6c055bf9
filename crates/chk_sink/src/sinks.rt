//! The sinks of one start of a collector.

ghost use Rattle.std.specs.Prelude.{◌≡◌, ◌+◌, ◌≤◌, ◌<◌, ◌∷◌, [], ℕ, false, List, None, IsTrue, IsFalse, IfOk, IfErr, OnOk, OnErr, is_some, length};
ghost use Rattle.chk_bytes.specs.Stems.{Stem as Parts, is_collector, is_stem};
ghost use Rattle.chk_site.specs.declared.acts.Role.TheVariants.{Collector};
ghost use Rattle.chk_site.specs.History.{History, Every};
ghost use Rattle.chk_site.specs.declared.acts.Call.TheVariants.{Append};
ghost use Rattle.chk_site.specs.Site.{Adds, OutsideCause, asked};
ghost use Rattle.chk_site.specs.Runs.{HasStarted, Leads};
ghost use Rattle.chk_chunk.specs.Keys.{Chunk, IsKey, is_chunk};
ghost use Rattle.chk_chunk.specs.Lent.{lent_chunk};
ghost use Rattle.chk_http_grammar.specs.Messages.{Ack};
ghost use Rattle.chk_seqfile.specs.Headers.{header};
ghost use Rattle.chk_seqfile.specs.Entries.{piece_at};
ghost use Rattle.chk_world.specs.Names.{SinkFile, spell};
ghost use Rattle.chk_world.specs.Collectors.{Handling, IsPosted, marker};
ghost use Rattle.chk_world.specs.Rules.{Legal};
ghost use Rattle.chk_world.specs.Places.{As};
ghost use Rattle.chk_world.specs.Works.{Works, NoneFailed};
ghost use Rattle.chk_sink.specs.Faults.{IsOutside, SinkCause, FailsLast, ended_by, sink_result};
ghost use Rattle.chk_sink.specs.Works.{IsAppendTo, IsMaking, OfPut, OfCommit, OfClose, OfSettling, OfTick, OfStart, OfQuestion, LeavesAfterTick};
ghost use Rattle.chk_sink.specs.Damage.{DamageCause, SpentCause};
ghost use Rattle.chk_sink.specs.States.{IsSameStart, process, last_stem, next_stem, counted, begun, kept_where_done, grown_where_done, let_go, needs_next, last_number, without_full, with_current, committed_state, settled_state, ticked_state};
ghost use Rattle.chk_sink.specs.SinkFields.{IsOfStem, first_of, longer, writing_of};
ghost use Rattle.chk_sink.specs.Creations.{CountedOnce};
ghost use Rattle.chk_sink.specs.Calls.{MadeOnce};
ghost use Rattle.chk_sink.specs.Held.{Matches, Ready};
ghost use Rattle.chk_sink.specs.Puts.{Wrote, IsPlaced, LeavesInSame, LeavesInNext, LeavesAfterPut, SpentExactly, GoesOn, GoesOnInSame, GoesOnInNext};
ghost use Rattle.chk_sink.specs.Closing.{left_where_done};
ghost use Rattle.chk_sink.specs.Closes.{Committed, Closed, IsMarked, Idles, IsIdleAt, Settled, Ticked, IsOfTick, IsNoListing};
ghost use Rattle.chk_sink.specs.Starts.{IsFresh, Started, IsLastStart};
ghost use Rattle.chk_sink.specs.Settling.{kept_stem};
ghost use Rattle.chk_sink.specs.Asked.{Counted, CountedOn, ExactSince, IsToldAt, IsOfQuestion};
ghost use Rattle.chk_sink.specs.Least.{AtLeast};

use crate::asking::{marked, stem_is_good};
use crate::closing::{publish, rename_to_done};
use crate::current::{Current, append_to, first_pieces};
use crate::settling::settle_left;
use crate::starting::{born_name, publish_next};
use crate::{SinkFault, names};
use chk_bytes::{Bytes, LAST_NUMBER, Stem};
use chk_chunk::{ChunkRef, write_key};
use chk_site::{Call, CallFault, OutsideFault, Site, Who, done, size_of};
use std::alloc::Global;
use std::marker::Model;

mod fields;
mod ticking;

/// A sink of more bytes is written to no more.
const FULL: u64 = 1 << 62;

/// The sinks of one start of a collector. One of them at most is written to. It holds no bytes of it.
#[derive(Drop)]
pub struct Sinks {
    who: Who,
    born: u64,
    /// The number of the sink that was created last, 0 before the first one.
    number: u64,
    rotate: u64,
    current: Option<Current>,
    /// A sink of this start that isn't written to may be there, or a mark of one.
    abandoned: bool,
}

impl Model for Sinks {
    ghost use Rattle.chk_sink.specs.States.{State};

    ghost Value = { State };

    ghost use Rattle.chk_sink.specs.SinkFields.{sinks_view, IsSound};

    ghost view = { sinks_view };

    ghost invariant = { IsSound };
}

impl Sinks {
    /// Starts the collector: publishes the next number of starts, and settles each sink that earlier starts left
    /// under writing. A sink with a mark is cut to it and closed, and one without is removed. `rotate` is the time
    /// in milliseconds after which a sink is closed. It costs one read and one replacement, one listing, and four
    /// calls for each sink that was left.
    pub fn start<S: Site>(
        alloc: Global,
        site: &mut S,
        who: &Who,
        rotate: u64,
    ) -> Result<Sinks, SinkFault>
        requires role { who.now.role ≡ Collector }
        requires name { IsTrue (is_collector who.now.name) }
        ensures told { (stamped : List (List ℕ)) → Adds (S.told site.old) (S.told site.new)
            (Leads (As stamped who.now) (Legal stamped) (Started stamped who.now result)) }
        ensures starts { IfOk result (λ _. Adds (S.told site.old) (S.told site.new) (HasStarted who.now)) }
        ensures fresh { IfOk result (IsFresh who.now rotate) }
        ensures spent { IsLastStart result }
        ensures spent_exactly { Adds (S.told site.old) (S.told site.new) (SpentCause result) }
        ensures damaged { Adds (S.told site.old) (S.told site.new) (DamageCause result) }
        ensures own { Works who.now (OfStart who.now) (ended_by result)
            (S.told site.old) (S.told site.new) }
        ensures last { Adds (S.told site.old) (S.told site.new) (FailsLast result) }
        ensures cause { SinkCause (S.fault_count site.old) (S.fault_count site.new) result }
    {
        let own = who.copy()?;
        let name = born_name(alloc, &own.name)?;
        let born = publish_next(alloc, site, who, name)?;
        let mut sinks = Sinks::first(own, born, rotate);
        sinks.settle(alloc, site)?;
        Ok(sinks)
    }

    /// Appends a chunk, and answers the sink and the length of it, in bytes, at which the chunk is committed. It
    /// makes the next sink where none is written to or that has more than 2^62 bytes. Nothing is synced. A chunk's
    /// bytes are moved twice: into its entry, and by the append.
    pub fn put<S: Site>(
        &mut self,
        alloc: Global,
        site: &mut S,
        chunk: &ChunkRef<'_>,
    ) -> Result<(Stem, u64), SinkFault>
        requires { IsTrue (is_chunk (lent_chunk chunk.now)) }
        ensures told { (stamped : List (List ℕ)) (handled : List Handling) → IsPosted handled (lent_chunk chunk.now)
            → Adds (S.told site.old) (S.told site.new) (Leads (As stamped (process self.old))
            (Ready stamped self.old handled) (Wrote stamped self.new handled (lent_chunk chunk.now) result)) }
        ensures same { IsSameStart self.old self.new }
        ensures placed { IfOk result (IsPlaced self.new) }
        ensures goes_on { IfOk result (λ _. GoesOn self.old self.new) }
        ensures refused { IfErr result (LeavesAfterPut self.old self.new) }
        ensures spent { SpentExactly self.old result }
        ensures own { Works (process self.old) (OfPut self.old) (ended_by result)
            (S.told site.old) (S.told site.new) }
        ensures last { Adds (S.told site.old) (S.told site.new) (FailsLast result) }
        ensures cause { SinkCause (S.fault_count site.old) (S.fault_count site.new) result }
    {
        self.let_go_of_full();
        if self.current.is_none() && self.number == LAST_NUMBER {
            return Err(SinkFault::Spent { born: self.born });
        }
        let mut key = Bytes::new(alloc);
        write_key(&mut key, chunk)?;
        if self.current.is_some() {
            self.put_in_current(alloc, site, key.as_slice(), chunk.body)
        } else {
            self.put_in_next(alloc, site, key.as_slice(), chunk.body)
        }
    }

    // A sink that is full is written to no more.
    fn let_go_of_full(&mut self)
        ensures { self.new ≡ without_full self.old }
    {
        match &self.current {
            Some(current) if current.size > FULL => {
                self.current = None;
                self.abandoned = true;
            }
            _ => {}
        }
    }

    // Appends an entry to the sink that is written to.
    fn put_in_current<S: Site>(
        &mut self,
        alloc: Global,
        site: &mut S,
        key: &[u8],
        value: &[u8],
    ) -> Result<(Stem, u64), SinkFault>
        requires there { IsTrue (is_some self.old.current) }
        requires room { IsFalse (needs_next self.old.current) }
        requires small { length key.now + length value.now ≤ 16777216 }
        ensures told { (stamped : List (List ℕ)) (handled : List Handling) (c : Chunk) → IsPosted handled c
            → IsKey c.key key.now → value.now ≡ c.value → Adds (S.told site.old) (S.told site.new)
            (Leads (As stamped (process self.old)) (Ready stamped self.old handled)
            (Wrote stamped self.new handled c result)) }
        ensures same { IsSameStart self.old self.new }
        ensures placed { IfOk result (IsPlaced self.new) }
        ensures goes_on { IfOk result (λ _. GoesOnInSame self.old self.new) }
        ensures refused { IfErr result (LeavesInSame self.old self.new) }
        ensures only { IfErr result IsOutside }
        ensures own { Works (process self.old) (IsAppendTo (last_stem self.old)) (ended_by result)
            (S.told site.old) (S.told site.new) }
        ensures cause { SinkCause (S.fault_count site.old) (S.fault_count site.new) result }
    {
        let Some(current) = &self.current else {
            unreachable!();
        };
        let name = names::sink(alloc, &current.stem)?;
        let (piece, longer) = current.entry(alloc, key, value)?;
        let placed = (longer.stem, longer.size);
        let appended = append_to(alloc, site, &self.who, name.as_str(), piece.as_slice());
        self.grow_where_done(longer, appended)?;
        Ok(placed)
    }

    // The sink that is written to is as it is given where the append was done. One that wanted memory was none, and
    // after a failed one the sink is abandoned.
    fn grow_where_done(
        &mut self,
        next: Current,
        done: Result<(), OutsideFault>,
    ) -> Result<(), SinkFault>
        requires { IsOfStem (last_stem self.old) next }
        ensures new { self.new ≡ grown_where_done self.old (writing_of next) done }
        ensures result { result ≡ sink_result done }
    {
        match done {
            Err(OutsideFault::NoMemory) => Err(SinkFault::NoMemory),
            done => self.keep_where_done(next, done),
        }
    }

    // The sink that is written to is as it is given where the call on it was done. Else it is abandoned.
    fn keep_where_done(
        &mut self,
        next: Current,
        done: Result<(), OutsideFault>,
    ) -> Result<(), SinkFault>
        requires { IsOfStem (last_stem self.old) next }
        ensures new { self.new ≡ kept_where_done self.old (writing_of next) done }
        ensures result { result ≡ sink_result done }
    {
        match done {
            Ok(()) => {
                self.current = Some(next);
                Ok(())
            }
            Err(fault) => {
                self.current = None;
                self.abandoned = true;
                Err(SinkFault::from(fault))
            }
        }
    }

    // Makes the next sink, with this as its first entry.
    fn put_in_next<S: Site>(
        &mut self,
        alloc: Global,
        site: &mut S,
        key: &[u8],
        value: &[u8],
    ) -> Result<(Stem, u64), SinkFault>
        requires none { self.old.current ≡ None }
        requires more { self.old.number < last_number }
        requires small { length key.now + length value.now ≤ 16777216 }
        ensures told { (stamped : List (List ℕ)) (handled : List Handling) (c : Chunk) → IsPosted handled c
            → IsKey c.key key.now → value.now ≡ c.value → Adds (S.told site.old) (S.told site.new)
            (Leads (As stamped (process self.old)) (Ready stamped self.old handled)
            (Wrote stamped self.new handled c result)) }
        ensures same { IsSameStart self.old self.new }
        ensures placed { IfOk result (IsPlaced self.new) }
        ensures goes_on { IfOk result (λ _. GoesOnInNext self.old self.new) }
        ensures refused { IfErr result (LeavesInNext self.old self.new) }
        ensures only { IfErr result IsOutside }
        ensures own { Works (process self.old) (IsMaking (next_stem self.old)) (ended_by result)
            (S.told site.old) (S.told site.new) }
        ensures cause { SinkCause (S.fault_count site.old) (S.fault_count site.new) result }
    {
        let stem = self.next_stem();
        let (name, head, piece, current) = first_pieces(alloc, stem, key, value)?;
        self.make_next(
            alloc,
            site,
            name.as_str(),
            head.as_slice(),
            piece.as_slice(),
            current,
        )
    }

    // Creates the next sink, and appends its header and the piece of its first entry.
    fn make_next<S: Site>(
        &mut self,
        alloc: Global,
        site: &mut S,
        name: &str,
        head: &[u8],
        piece: &[u8],
        current: Current,
    ) -> Result<(Stem, u64), SinkFault>
        requires none { self.old.current ≡ None }
        requires more { self.old.number < last_number }
        requires good { IsTrue (is_stem (next_stem self.old)) }
        requires name { name.now ≡ spell (SinkFile (next_stem self.old)) }
        requires head { head.now ≡ header (marker (next_stem self.old)) }
        requires current { current ≡ longer (first_of (next_stem self.old)) (length piece.now) }
        ensures told { (stamped : List (List ℕ)) (handled : List Handling) (c : Chunk) (key value : List ℕ)
            → IsPosted handled c → IsKey c.key key → value ≡ c.value
            → piece.now ≡ piece_at (marker (next_stem self.old)) 96 96 key value
            → Adds (S.told site.old) (S.told site.new) (Leads (As stamped (process self.old))
            (Ready stamped self.old handled) (Wrote stamped self.new handled c result)) }
        ensures same { IsSameStart self.old self.new }
        ensures placed { IfOk result (IsPlaced self.new) }
        ensures goes_on { IfOk result (λ _. GoesOnInNext self.old self.new) }
        ensures refused { IfErr result (LeavesInNext self.old self.new) }
        ensures only { IfErr result IsOutside }
        ensures own { Works (process self.old) (IsMaking (next_stem self.old)) (ended_by result)
            (S.told site.old) (S.told site.new) }
        ensures cause { SinkCause (S.fault_count site.old) (S.fault_count site.new) result }
    {
        let placed = (current.stem, current.size);
        let abandoned = self.abandoned;
        self.create_next(alloc, site, name)?;
        self.append(alloc, site, name, head)?;
        self.append(alloc, site, name, piece)?;
        self.begin(current, abandoned);
        Ok(placed)
    }

    // Creates the next sink. It is abandoned until it has its first entry.
    fn create_next<S: Site>(
        &mut self,
        alloc: Global,
        site: &mut S,
        name: &str,
    ) -> Result<(), OutsideFault>
        requires none { self.old.current ≡ None }
        requires more { self.old.number < last_number }
        ensures told { CountedOnce self.old self.new name.now result (S.told site.old) (S.told site.new) }
        ensures cause { OutsideCause (S.fault_count site.old) (S.fault_count site.new) result }
    {
        let created = site.create(alloc, &self.who, name);
        self.count(&created);
        done(Call::Create, created)
    }

    // Appends a piece to one of the sinks.
    fn append<S: Site>(
        &self,
        alloc: Global,
        site: &mut S,
        sink: &str,
        piece: &[u8],
    ) -> Result<(), OutsideFault>
        ensures told { MadeOnce (asked (process self.now) Append (sink.now ∷ piece.now ∷ []) 0 0) result
            (S.told site.old) (S.told site.new) }
        ensures cause { OutsideCause (S.fault_count site.old) (S.fault_count site.new) result }
    {
        append_to(alloc, site, &self.who, sink, piece)
    }

    // The stem of the next sink.
    fn next_stem(&self) -> Stem
        requires { self.now.number < last_number }
        ensures next { result ≡ next_stem self.now }
        ensures good { IsTrue (is_stem (next_stem self.now)) }
    {
        match Stem::new(self.who.name.as_str(), self.born, self.number + 1) {
            Some(stem) => stem,
            None => unreachable!(),
        }
    }

    // Counts a creation, unless it was no act for want of memory. The sink is abandoned until it has its first entry.
    fn count(&mut self, created: &Result<(), CallFault>)
        requires none { self.old.current ≡ None }
        requires more { self.old.number < last_number }
        ensures { self.new ≡ counted self.old created.now }
    {
        if !matches!(created, Err(CallFault::NoMemory)) {
            self.number += 1;
            self.abandoned = true;
        }
    }

    // The sink that was created last is the one that is written to.
    fn begin(&mut self, current: Current, abandoned: bool)
        requires { IsOfStem (last_stem self.old) current }
        ensures { self.new ≡ begun self.old (writing_of current) abandoned }
    {
        self.current = Some(current);
        self.abandoned = abandoned;
    }

    /// Commits all of the sink that is written to: one sync, and one replacement of its mark. Where it hasn't grown
    /// since, nothing is called. After a refusal the sink is abandoned.
    pub fn commit<S: Site>(&mut self, alloc: Global, site: &mut S) -> Result<(), SinkFault>
        ensures told { (stamped : List (List ℕ)) → Adds (S.told site.old) (S.told site.new)
            (Leads (As stamped (process self.old)) (Matches stamped self.old)
            (Committed stamped self.new result)) }
        ensures ok { OnOk result (self.new ≡ committed_state self.old) }
        ensures err { OnErr result (self.new ≡ let_go self.old) }
        ensures only { IfErr result IsOutside }
        ensures idle { IsMarked self.old.current → Idles result (S.told site.old) (S.told site.new) }
        ensures lists { Adds (S.told site.old) (S.told site.new) (Every IsNoListing) }
        ensures damaged { Adds (S.told site.old) (S.told site.new) (DamageCause result) }
        ensures own { Works (process self.old) (OfCommit self.old) (ended_by result)
            (S.told site.old) (S.told site.new) }
        ensures last { Adds (S.told site.old) (S.told site.new) (FailsLast result) }
        ensures cause { SinkCause (S.fault_count site.old) (S.fault_count site.new) result }
    {
        let Some(current) = self.current else {
            return Ok(());
        };
        if current.size == current.marked {
            return Ok(());
        }
        let published = publish(alloc, site, &self.who, &current.stem, current.size);
        self.keep_where_done(current.all_marked(), published)
    }

    /// Commits and closes the sink that is written to, where there is one. After a refusal it is abandoned.
    pub fn close<S: Site>(&mut self, alloc: Global, site: &mut S) -> Result<(), SinkFault>
        ensures told { (stamped : List (List ℕ)) → Adds (S.told site.old) (S.told site.new)
            (Leads (As stamped (process self.old)) (Matches stamped self.old)
            (Closed stamped self.old self.new result)) }
        ensures ok { OnOk result (self.new ≡ with_current self.old None) }
        ensures err { OnErr result (self.new ≡ let_go self.old) }
        ensures only { IfErr result IsOutside }
        ensures idle { self.old.current ≡ None → Idles result (S.told site.old) (S.told site.new) }
        ensures lists { Adds (S.told site.old) (S.told site.new) (Every IsNoListing) }
        ensures damaged { Adds (S.told site.old) (S.told site.new) (DamageCause result) }
        ensures own { Works (process self.old) (OfClose self.old) (ended_by result)
            (S.told site.old) (S.told site.new) }
        ensures last { Adds (S.told site.old) (S.told site.new) (FailsLast result) }
        ensures cause { SinkCause (S.fault_count site.old) (S.fault_count site.new) result }
    {
        self.commit(alloc, site)?;
        let Some(current) = self.current else {
            return Ok(());
        };
        let closed = rename_to_done(alloc, site, &self.who, &current.stem);
        self.leave_where_done(closed)
    }

    // Nothing is written to any more. Where the call on the sink wasn't done, it is abandoned.
    fn leave_where_done(&mut self, done: Result<(), OutsideFault>) -> Result<(), SinkFault>
        ensures new { self.new ≡ left_where_done self.old done }
        ensures result { result ≡ sink_result done }
    {
        self.current = None;
        match done {
            Ok(()) => Ok(()),
            Err(fault) => {
                self.abandoned = true;
                Err(SinkFault::from(fault))
            }
        }
    }

    // Settles the sinks of the collector that aren't written to, where some may be there: a sink with a mark is cut to
    // it and closed, one without is removed, and a mark without its sink is removed.
    fn settle<S: Site>(&mut self, alloc: Global, site: &mut S) -> Result<(), SinkFault>
        ensures told { (stamped : List (List ℕ)) → Adds (S.told site.old) (S.told site.new)
            (Leads (As stamped (process self.old)) (Matches stamped self.old)
            (Settled stamped self.new result)) }
        ensures ok { OnOk result (self.new ≡ settled_state self.old) }
        ensures err { OnErr result (self.new ≡ self.old) }
        ensures only { IfErr result IsOfTick }
        ensures lists { self.old.abandoned ≡ false
            → Adds (S.told site.old) (S.told site.new) (Every IsNoListing) }
        ensures damaged { Adds (S.told site.old) (S.told site.new) (DamageCause result) }
        ensures own { Works (process self.old) (OfSettling self.old) (ended_by result)
            (S.told site.old) (S.told site.new) }
        ensures cause { SinkCause (S.fault_count site.old) (S.fault_count site.new) result }
    {
        if !self.abandoned {
            return Ok(());
        }
        let kept = self.kept_stem();
        settle_left(alloc, site, &self.who, &kept)?;
        self.abandoned = false;
        Ok(())
    }

    // The stem of the sink that is written to, where there is one.
    fn kept_stem(&self) -> Option<Stem>
        ensures { result ≡ kept_stem self.now }
    {
        match &self.current {
            Some(current) => Some(current.stem),
            None => None,
        }
    }

    /// Settles the sinks that were abandoned, commits, and closes the sink that is written to where it has at least
    /// 67,108,864 bytes, or where `rotate` milliseconds have passed since the first tick that saw it. `now` is the
    /// moment in milliseconds; a clock that fell closes nothing. Where there is nothing to do, nothing is called. After
    /// a refusal the sink that was worked on is abandoned, or stays so.
    pub fn tick<S: Site>(&mut self, alloc: Global, site: &mut S, now: u64) -> Result<(), SinkFault>
        ensures told { (stamped : List (List ℕ)) → Adds (S.told site.old) (S.told site.new)
            (Leads (As stamped (process self.old)) (Matches stamped self.old)
            (Ticked stamped self.old self.new result)) }
        ensures same { IsSameStart self.old self.new }
        ensures ok { OnOk result (self.new ≡ ticked_state now self.old) }
        ensures refused { IfErr result (λ fault. LeavesAfterTick self.old self.new fault
            (S.told site.old) (S.told site.new)) }
        ensures fine { OnOk result (Adds (S.told site.old) (S.told site.new) NoneFailed) }
        ensures idle { IsIdleAt now self.old → Idles result (S.told site.old) (S.told site.new) }
        ensures only { IfErr result IsOfTick }
        ensures lists { self.old.abandoned ≡ false
            → Adds (S.told site.old) (S.told site.new) (Every IsNoListing) }
        ensures damaged { Adds (S.told site.old) (S.told site.new) (DamageCause result) }
        ensures own { Works (process self.old) (OfTick self.old) (ended_by result)
            (S.told site.old) (S.told site.new) }
        ensures closes { self.old.abandoned ≡ false → Works (process self.old) (OfClose self.old) (ended_by result)
            (S.told site.old) (S.told site.new) }
        ensures last { Adds (S.told site.old) (S.told site.new) (FailsLast result) }
        ensures cause { SinkCause (S.fault_count site.old) (S.fault_count site.new) result }
    {
        if !self.abandoned {
            return self.tick_settled(alloc, site, now);
        }
        self.settle(alloc, site)?;
        self.tick_settled(alloc, site, now)
    }

    /// The length that is committed of a sink, of whichever collector: that of the done sink, else the number in
    /// its mark, else 0. It is at most the length that is committed when the call returns, and just that where nobody
    /// else touched the sink during the call.
    pub fn committed<S: Site>(
        &self,
        alloc: Global,
        site: &mut S,
        stem: Stem,
    ) -> Result<u64, SinkFault>
        ensures told { (stamped : List (List ℕ)) (handled : List Handling) (t : ℕ)
            (stems : List Parts) (acks : List Ack) → Adds (S.told site.old) (S.told site.new) (Leads (As stamped (process self.now))
            (Counted stamped self.now handled t stems acks)
            (CountedOn stamped self.now handled t stems acks stem result)) }
        ensures exact { IfOk result (λ n. (stamped : List (List ℕ)) (earlier : History)
            → Adds (S.told site.old) (S.told site.new) (Leads (As stamped (process self.now))
            (IsToldAt stamped self.now earlier) (ExactSince stamped self.now earlier stem n))) }
        ensures least { IfOk result (λ n. AtLeast (process self.now) stem n (S.told site.old) (S.told site.new)) }
        ensures only { IfErr result IsOfQuestion }
        ensures damaged { Adds (S.told site.old) (S.told site.new) (DamageCause result) }
        ensures own { Works (process self.now) (OfQuestion stem) (ended_by result)
            (S.told site.old) (S.told site.new) }
        ensures last { Adds (S.told site.old) (S.told site.new) (FailsLast result) }
        ensures cause { SinkCause (S.fault_count site.old) (S.fault_count site.new) result }
    {
        stem_is_good(&stem);
        let name = names::closed(alloc, &stem)?;
        let size = size_of(alloc, site, &self.who, name.as_str())?;
        match size {
            Some(size) => Ok(size),
            None => marked(alloc, site, &self.who, &stem),
        }
    }
}
