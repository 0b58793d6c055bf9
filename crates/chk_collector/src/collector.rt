//! A collector and what it answers.

ghost use Rattle.std.specs.Prelude.{◌≡◌, ℕ, false, List, [], IsTrue, IfOk, IfErr, OnOk, length};
ghost use Rattle.chk_bytes.specs.Stems.{Stem as Parts, is_collector};
ghost use Rattle.chk_site.specs.declared.acts.Role.TheVariants.{Collector as collector_role};
ghost use Rattle.chk_site.specs.History.{Every};
ghost use Rattle.chk_site.specs.Site.{Adds};
ghost use Rattle.chk_site.specs.Runs.{HasStarted, Leads};
ghost use Rattle.chk_http_grammar.specs.Messages.{PostRequest};
ghost use Rattle.chk_http.specs.Queries.{IsQuery};
ghost use Rattle.chk_world.specs.Collectors.{Appended, Handling};
ghost use Rattle.chk_world.specs.Rules.{Legal};
ghost use Rattle.chk_world.specs.Places.{As};
ghost use Rattle.chk_sink.specs.Faults.{SinkCause, FailsLast, ended_by};
ghost use Rattle.chk_world.specs.Works.{Works, NoneFailed};
ghost use Rattle.chk_sink.specs.Works.{OfStart, OfClose, OfTick, LeavesAfterTick};
ghost use Rattle.chk_collector.specs.Handled.{Puts, PutsThen, KeepsSeen, OfPosts, OfPoll, Unanswered};
ghost use Rattle.chk_sink.specs.Damage.{DamageCause, SpentCause};
ghost use Rattle.chk_sink.specs.States.{IsSameStart, process, ticked_state};
ghost use Rattle.chk_sink.specs.Held.{Matches, Ready};
ghost use Rattle.chk_sink.specs.Closes.{OnceDone, Idles, IsIdleAt, Ticked, IsOfTick, IsNoListing};
ghost use Rattle.chk_sink.specs.Asked.{IsOfQuestion};
ghost use Rattle.chk_sink.specs.Starts.{IsFresh, Started, IsLastStart};
ghost use Rattle.chk_collector.specs.Outcomes.{Fails, OutcomeSpent, Replied};
ghost use Rattle.chk_collector.specs.Posting.{ArePosted, WroteAll, HasLineEach, IsOfPut};
ghost use Rattle.chk_collector.specs.Passing.{PutsLeaveFull};
ghost use Rattle.chk_collector.specs.Polling.{AsksFor, CountedAll, HasLineOf};
ghost use Rattle.chk_collector.specs.Answering.{Taken, Answered};
ghost use Rattle.chk_collector.specs.Finishing.{finished, Finished, LeavesAfterFinish, IsAtEnd};
ghost use Rattle.chk_collector.specs.Replies.{MayHaveRisen};

use crate::names::chunk_fault_name;
use crate::replies::{put_line, refusal, reply};
use chk_bytes::{Bytes, NoMemory};
use chk_chunk::{PostRef, read_post};
use chk_http::{RequestRef, StemList, read_request};
use chk_sink::{SinkFault, Sinks};
use chk_site::{Site, Who};
use std::alloc::Global;
use std::marker::Model;

/// A collector at work, with the sinks of its start.
#[derive(Drop)]
pub struct Collector {
    sinks: Sinks,
}

impl Model for Collector {
    ghost use Rattle.chk_sink.specs.States.{State};

    ghost Value = { State };

    ghost view = { λ c. c.sinks };
}

impl Collector {
    /// Starts the collector, and settles what earlier starts of it left, as `Sinks::start` does. A sink is closed after
    /// `rotate` milliseconds.
    pub fn start<S: Site>(
        alloc: Global,
        site: &mut S,
        who: &Who,
        rotate: u64,
    ) -> Result<Collector, SinkFault>
        requires role { who.now.role ≡ collector_role }
        requires name { IsTrue (is_collector who.now.name) }
        ensures told { (stamped : List (List ℕ)) → Adds (S.told site.old) (S.told site.new)
            (Leads (As stamped who.now) (Legal stamped) (Started stamped who.now result)) }
        ensures starts { IfOk result (λ _. Adds (S.told site.old) (S.told site.new) (HasStarted who.now)) }
        ensures fresh { IfOk result (IsFresh who.now rotate) }
        ensures spent { IsLastStart result }
        ensures spent_exactly { Adds (S.told site.old) (S.told site.new) (SpentCause result) }
        ensures damaged { Adds (S.told site.old) (S.told site.new) (DamageCause result) }
        ensures own { Works who.now (OfStart who.now) (ended_by result) (S.told site.old) (S.told site.new) }
        ensures last { Adds (S.told site.old) (S.told site.new) (FailsLast result) }
        ensures cause { SinkCause (S.fault_count site.old) (S.fault_count site.new) result }
    {
        let sinks = Sinks::start(alloc, site, who, rotate)?;
        Ok(Collector { sinks })
    }

    /// The reply to a request that was taken whole. The request is read in place; a chunk's bytes are moved into its
    /// entry and by the append. A post costs one append a chunk, a poll one or two calls a stem, and no reply a sync.
    pub fn respond<S: Site>(
        &mut self,
        alloc: Global,
        site: &mut S,
        request: &[u8],
    ) -> Result<Bytes, NoMemory>
        ensures told { (stamped : List (List ℕ)) (t : ℕ) (earlier : List Appended)
            (others : List Handling)
            → Adds (S.told site.old) (S.told site.new) (Leads (As stamped (process self.old))
            (Taken stamped self.old t request.now earlier others)
            (Answered stamped self.new t request.now earlier others result)) }
        ensures replied { IfOk result (Replied request.now self.old self.new (S.fault_count site.old)
            (S.fault_count site.new) (S.told site.old) (S.told site.new)) }
        ensures unanswered { IfErr result (λ _. Unanswered request.now self.old self.new
            (S.told site.old) (S.told site.new)) }
        ensures seen { KeepsSeen self.old self.new }
        ensures same { IsSameStart self.old self.new }
        ensures count { IfErr result (λ _. MayHaveRisen (S.fault_count site.old) (S.fault_count site.new)) }
    {
        match read_request(request) {
            Err(fault) => refusal(alloc, fault.code(), fault.name()),
            Ok(RequestRef::Post { body }) => self.answer_post(alloc, site, body),
            Ok(RequestRef::Acks { query }) => self.answer_poll(alloc, site, query),
        }
    }

    // The reply to a post with this body.
    fn answer_post<S: Site>(
        &mut self,
        alloc: Global,
        site: &mut S,
        body: &[u8],
    ) -> Result<Bytes, NoMemory>
        ensures told { (stamped : List (List ℕ)) (t : ℕ) (request : List ℕ)
            (earlier : List Appended) (others : List Handling)
            → PostRequest body.now request → Adds (S.told site.old) (S.told site.new)
            (Leads (As stamped (process self.old))
            (Taken stamped self.old t request earlier others)
            (Answered stamped self.new t request earlier others result)) }
        ensures replied { (request : List ℕ) → PostRequest body.now request → IfOk result
            (Replied request self.old self.new (S.fault_count site.old) (S.fault_count site.new)
            (S.told site.old) (S.told site.new)) }
        ensures unanswered { (request : List ℕ) → PostRequest body.now request → IfErr result
            (λ _. Unanswered request self.old self.new (S.told site.old) (S.told site.new)) }
        ensures seen { KeepsSeen self.old self.new }
        ensures same { IsSameStart self.old self.new }
        ensures count { IfErr result (λ _. MayHaveRisen (S.fault_count site.old) (S.fault_count site.new)) }
    {
        match read_post(body) {
            Err(fault) => refusal(alloc, 400, chunk_fault_name(fault)),
            Ok(post) => {
                let mut lines = Bytes::new(alloc);
                let done = self.put_all(alloc, site, post, &mut lines);
                reply(alloc, done, lines.as_slice())
            }
        }
    }

    // Puts the chunks in order, and appends a line for each.
    fn put_all<S: Site>(
        &mut self,
        alloc: Global,
        site: &mut S,
        mut post: PostRef<'_>,
        lines: &mut Bytes,
    ) -> Result<(), SinkFault>
        requires { lines.old ≡ [] }
        ensures told { (stamped : List (List ℕ)) (handled : List Handling) → ArePosted handled post.entry.left
            → Adds (S.told site.old) (S.told site.new) (Leads (As stamped (process self.old))
            (Ready stamped self.old handled) (WroteAll stamped self.new handled post.entry.left lines.new result)) }
        ensures lines { OnceDone result (HasLineEach self.new post.entry.left lines.new) }
        ensures puts { OnceDone result (Puts (length post.entry.left) self.old self.new) }
        ensures full { OnceDone result (PutsLeaveFull self.old self.new post.entry.left
            (S.told site.old) (S.told site.new)) }
        ensures leaves { IfErr result (PutsThen (length post.entry.left) self.old self.new) }
        ensures own { Works (process self.old) (OfPosts self.old) (ended_by result)
            (S.told site.old) (S.told site.new) }
        ensures same { IsSameStart self.old self.new }
        ensures only { IfErr result IsOfPut }
        ensures spent { IfErr result (λ fault. OutcomeSpent self.old self.new (Fails fault)) }
        ensures last { Adds (S.told site.old) (S.told site.new) (FailsLast result) }
        ensures cause { SinkCause (S.fault_count site.old) (S.fault_count site.new) result }
    {
        while let Some(chunk) = post.next() {
            let (stem, end) = self.sinks.put(alloc, site, &chunk)?;
            put_line(lines, &stem, end)?;
        }
        Ok(())
    }

    // The reply to a poll for the stems of this query.
    fn answer_poll<S: Site>(
        &self,
        alloc: Global,
        site: &mut S,
        query: &str,
    ) -> Result<Bytes, NoMemory>
        requires asked { (stems : List Parts) × IsQuery stems query.now }
        ensures told { (stamped : List (List ℕ)) (t : ℕ) (request : List ℕ)
            (earlier : List Appended) (others : List Handling)
            → AsksFor query.now request → Adds (S.told site.old) (S.told site.new)
            (Leads (As stamped (process self.now))
            (Taken stamped self.now t request earlier others)
            (Answered stamped self.now t request earlier others result)) }
        ensures replied { (request : List ℕ) → AsksFor query.now request → IfOk result
            (Replied request self.now self.now (S.fault_count site.old) (S.fault_count site.new)
            (S.told site.old) (S.told site.new)) }
        ensures unanswered { (request : List ℕ) → AsksFor query.now request → IfErr result
            (λ _. Unanswered request self.now self.now (S.told site.old) (S.told site.new)) }
        ensures count { IfErr result (λ _. MayHaveRisen (S.fault_count site.old) (S.fault_count site.new)) }
    {
        let Some(stems) = StemList::new(query) else {
            unreachable!();
        };
        let mut lines = Bytes::new(alloc);
        let done = self.count_all(alloc, site, stems, &mut lines);
        reply(alloc, done, lines.as_slice())
    }

    // Appends a line with the committed length of each stem.
    fn count_all<S: Site>(
        &self,
        alloc: Global,
        site: &mut S,
        mut stems: StemList<'_>,
        lines: &mut Bytes,
    ) -> Result<(), SinkFault>
        requires { lines.old ≡ [] }
        ensures told { (stamped : List (List ℕ)) (handled : List Handling) (t : ℕ)
            → Adds (S.told site.old) (S.told site.new) (Leads (As stamped (process self.now))
            (Ready stamped self.now handled) (CountedAll stamped self.now handled t stems.entry lines.new result)) }
        ensures lines { OnceDone result (HasLineOf (process self.now) stems.entry lines.new
            (S.told site.old) (S.told site.new)) }
        ensures own { Works (process self.now) (OfPoll stems.entry) (ended_by result)
            (S.told site.old) (S.told site.new) }
        ensures only { IfErr result IsOfQuestion }
        ensures damaged { Adds (S.told site.old) (S.told site.new) (DamageCause result) }
        ensures last { Adds (S.told site.old) (S.told site.new) (FailsLast result) }
        ensures cause { SinkCause (S.fault_count site.old) (S.fault_count site.new) result }
    {
        while let Some(stem) = stems.next() {
            let length = self.sinks.committed(alloc, site, stem)?;
            put_line(lines, &stem, length)?;
        }
        Ok(())
    }

    /// Settles, commits and closes, as `Sinks::tick` does.
    pub fn tick<S: Site>(&mut self, alloc: Global, site: &mut S, now: u64) -> Result<(), SinkFault>
        ensures told { (stamped : List (List ℕ)) → Adds (S.told site.old) (S.told site.new)
            (Leads (As stamped (process self.old)) (Matches stamped self.old)
            (Ticked stamped self.old self.new result)) }
        ensures same { IsSameStart self.old self.new }
        ensures ok { OnOk result (self.new ≡ ticked_state now self.old) }
        ensures refused { IfErr result (λ fault. LeavesAfterTick self.old self.new fault
            (S.told site.old) (S.told site.new)) }
        ensures own { Works (process self.old) (OfTick self.old) (ended_by result)
            (S.told site.old) (S.told site.new) }
        ensures closes { self.old.abandoned ≡ false → Works (process self.old) (OfClose self.old) (ended_by result)
            (S.told site.old) (S.told site.new) }
        ensures fine { OnOk result (Adds (S.told site.old) (S.told site.new) NoneFailed) }
        ensures idle { IsIdleAt now self.old → Idles result (S.told site.old) (S.told site.new) }
        ensures only { IfErr result IsOfTick }
        ensures lists { self.old.abandoned ≡ false
            → Adds (S.told site.old) (S.told site.new) (Every IsNoListing) }
        ensures damaged { Adds (S.told site.old) (S.told site.new) (DamageCause result) }
        ensures last { Adds (S.told site.old) (S.told site.new) (FailsLast result) }
        ensures cause { SinkCause (S.fault_count site.old) (S.fault_count site.new) result }
    {
        self.sinks.tick(alloc, site, now)
    }

    /// Settles, commits and closes. At Ok no sink of this start is under writing. Where none is, nothing is called.
    pub fn finish<S: Site>(&mut self, alloc: Global, site: &mut S) -> Result<(), SinkFault>
        ensures told { (stamped : List (List ℕ)) → Adds (S.told site.old) (S.told site.new)
            (Leads (As stamped (process self.old)) (Matches stamped self.old)
            (Finished stamped self.old self.new result)) }
        ensures same { IsSameStart self.old self.new }
        ensures ok { OnOk result (self.new ≡ finished self.old) }
        ensures refused { IfErr result (λ fault. LeavesAfterFinish self.old self.new fault
            (S.told site.old) (S.told site.new)) }
        ensures own { Works (process self.old) (OfTick self.old) (ended_by result)
            (S.told site.old) (S.told site.new) }
        ensures closes { self.old.abandoned ≡ false → Works (process self.old) (OfClose self.old) (ended_by result)
            (S.told site.old) (S.told site.new) }
        ensures fine { OnOk result (Adds (S.told site.old) (S.told site.new) NoneFailed) }
        ensures idle { IsAtEnd self.old → Idles result (S.told site.old) (S.told site.new) }
        ensures only { IfErr result IsOfTick }
        ensures lists { self.old.abandoned ≡ false
            → Adds (S.told site.old) (S.told site.new) (Every IsNoListing) }
        ensures damaged { Adds (S.told site.old) (S.told site.new) (DamageCause result) }
        ensures last { Adds (S.told site.old) (S.told site.new) (FailsLast result) }
        ensures cause { SinkCause (S.fault_count site.old) (S.fault_count site.new) result }
    {
        self.sinks.tick(alloc, site, 0)?;
        self.sinks.close(alloc, site)
    }
}
