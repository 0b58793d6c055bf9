//! The queue, the table of answers, the ring of addresses and the messages that are out.

ghost use Rattle.std.specs.Prelude.{◌≡◌, ◌+◌, ◌<◌, ◌≤◌, ◌↔◌, ◌==◌, ℕ, Option, Some, None, List, [], ◌∷◌};
ghost use Rattle.std.specs.Prelude.{IsTrue, IsFalse, IfOk, IfErr, OnOk, OnErr, length, slice_index, is_some, drop, true, false, Ok};
ghost use Rattle.std.specs.Prelude.{option_map, filter, fold, map, not, replicate, if◌then◌else◌, ◌^◌};
ghost use Rattle.std.specs.List.{list_any};
ghost use Rattle.chk_chunk.specs.Keys.{is_chunk};
ghost use Rattle.chk_chunk.specs.Lent.{chunk_of};
ghost use Rattle.chk_queue.specs.Queues.{data_size};
ghost use Rattle.chk_acks.specs.Table.{IsKnown};
ghost use Rattle.chk_acks.specs.Resets.{is_gone};
ghost use Rattle.chk_acks.specs.Sound.{IsSound as IsSoundTable};
ghost use Rattle.chk_site.specs.declared.acts.Call.TheVariants.{Send};
ghost use Rattle.chk_site.specs.Site.{Adds};
ghost use Rattle.chk_site.specs.Runs.{Leads};
ghost use Rattle.chk_world.specs.Names.{is_source};
ghost use Rattle.chk_world.specs.Places.{As, Making};
ghost use Rattle.chk_world.specs.Knowing.{agent};
ghost use Rattle.chk_agent_delivery.specs.Turns.{fresh, begun_at, with_chunk, is_held, is_due, polled_at};
ghost use Rattle.chk_agent_delivery.specs.Turns.{without_adaptors, expired_in, is_long_ago};
ghost use Rattle.chk_agent_delivery.specs.Sound.{IsSound, next_begins};
ghost use Rattle.chk_agent_delivery.specs.Scripts.{IsPosted, IsPostReplied, IsPolled, IsPollReplied};
ghost use Rattle.chk_agent_delivery.specs.Scripts.{CauseBy, post_fails, reply_fails, poll_fails, lengths_fail};
ghost use Rattle.chk_agent_delivery.specs.Scripts.{IsNextPost, IsNoPostReply, IsCode, TakesPostReply};
ghost use Rattle.chk_agent_delivery.specs.Scripts.{TakesPollReply, IsNoPollReply};
ghost use Rattle.chk_agent_delivery.specs.Turns.{SeesAll, below_in, first_named, length_of};
ghost use Rattle.chk_acks.specs.Rows.{is_unmarked};
ghost use Rattle.chk_world.specs.Agents.{AreFor};
ghost use Rattle.chk_agent_delivery.specs.States.{Poll, free_rows};
ghost use Rattle.chk_http_grammar.specs.Messages.{Ack, IsGoodReply};
ghost use Rattle.chk_agent_delivery.specs.Turns.{post_taken, answered_rows, asked_stems};
ghost use Rattle.chk_bytes.specs.Stems.{same_stem};
ghost use Rattle.chk_agent_delivery.specs.Sound.{InTurn};
ghost use Rattle.chk_agent_delivery.specs.Marks.{is_left, marked_from, with_mark};
ghost use Rattle.chk_agent_delivery.specs.Basis.{Basis, Fits};
ghost use Rattle.chk_agent_delivery.specs.Facts.{Matches};

use crate::answers::{Answered, Below, PollAnswer, Polled, Posted};
use crate::waiting::put_behind;
use chk_acks::Acks;
use chk_bytes::{Bytes, NoMemory, Stem};
use chk_chunk::{CHUNK_BYTES, Chunk, POST_BYTES, POST_CHUNKS, post_size, put_post};
use chk_failover::Ring;
use chk_http::{LineList, MOST_STEMS, read_reply, write_acks_request, write_post_head};
use chk_queue::Queue;
use chk_site::{CallFault, Site, Who};
use std::alloc::Global;
use std::collections::VecDeque;
use std::marker::Model;

/// Limits of what an agent holds, and how long it waits.
#[derive(Clone, Copy, Debug, PartialEq, Eq)]
pub struct Rules {
    /// The most rows of the table of answers.
    pub rows: u32,
    /// The most bytes of data that wait.
    pub queue: u64,
    /// How many milliseconds lie at least between two polls of `turn`.
    pub poll: u64,
    /// How many milliseconds a row may stay unmarked before its adaptor goes back.
    pub expire: u64,
}

/// A post that is out.
#[derive(Clone, Copy)]
pub(crate) struct OutPost {
    pub(crate) message: u64,
    pub(crate) count: u32,
}

/// A poll that is out.
#[derive(Drop)]
pub(crate) struct OutPoll {
    pub(crate) message: u64,
    pub(crate) stems: Vec<Stem>,
}

/// The chunks that wait, each with the number of its adaptor, the answers, the addresses, and the
/// messages that are out.
///
/// It holds at most the data of its limit, 52 bytes a row and 88 for each run of rows of one sink,
/// 16 an adaptor, and one message at a time while it is sent.
#[derive(Drop)]
pub struct Delivery {
    rules: Rules,
    queue: Queue,
    owners: VecDeque<u32>,
    acks: Acks,
    ring: Ring,
    post: Option<OutPost>,
    poll: Option<OutPoll>,
    polled: Option<u64>,
}

impl Model for Delivery {
    ghost use Rattle.chk_agent_delivery.specs.States.{State};

    ghost Value = { State };

    ghost use Rattle.chk_agent_delivery.specs.Fields.{delivery_view, IsSoundInside};

    ghost view = { delivery_view };

    ghost invariant = { IsSoundInside };
}

impl Delivery {
    /// Nothing waits and nothing is out; so many adaptors are known, each at offset 0.
    pub fn new(alloc: Global, ring: Ring, rules: Rules, adaptors: u32) -> Result<Delivery, NoMemory>
        ensures { IfOk result (λ d. d ≡ fresh rules ring adaptors) }
    {
        Ok(Delivery {
            rules,
            queue: Queue::new(alloc, rules.queue),
            owners: VecDeque::new(alloc),
            acks: Acks::new(alloc, rules.rows, adaptors)?,
            ring,
            post: None,
            poll: None,
            polled: None,
        })
    }

    /// Sets the committed and the last end of an adaptor of which no chunk waits, and drops its
    /// rows. It takes time linear in the rows in use.
    pub fn begin(&mut self, adaptor: u32, at: u64)
        requires known { IsKnown self.old.table adaptor }
        requires none { IsFalse (list_any (λ i. i == adaptor) self.old.owners) }
        ensures { self.new ≡ begun_at adaptor at self.old }
    {
        self.acks.begin(adaptor, at);
    }

    /// How many bytes of data wait.
    pub fn used(&self) -> u64
        ensures used { result ≡ data_size self.now.queue.chunks }
        ensures sound { IsSound self.now }
        ensures table { IsSoundTable self.now.table }
    {
        let _sound = self.acks.free();
        self.queue.used()
    }

    /// Fewer bytes are free than a chunk may have.
    pub fn is_held(&self) -> bool
        ensures { result ≡ is_held self.now }
    {
        self.rules.queue - self.queue.used() < CHUNK_BYTES
    }

    /// No chunk waits.
    pub fn is_empty(&self) -> bool
        ensures { IsTrue result ↔ (self.now.queue.chunks ≡ []) }
    {
        self.queue.is_empty()
    }

    /// Puts a chunk of the adaptor behind the others. It goes on where the adaptor's last chunk
    /// ended. Without memory for its place it is dropped.
    pub fn put(&mut self, adaptor: u32, chunk: Chunk) -> Result<(), NoMemory>
        requires room { IsFalse (is_held self.old) }
        requires valid { IsTrue (is_chunk (chunk_of chunk)) }
        requires known { adaptor < length (next_begins self.old) }
        requires next { chunk.seq ≡ slice_index (next_begins self.old) adaptor + length chunk.body }
        ensures ok { OnOk result (self.new ≡ with_chunk adaptor chunk self.old) }
        ensures err { OnErr result (self.new ≡ self.old) }
    {
        put_behind(&mut self.owners, &mut self.queue, adaptor, chunk)
    }

    /// The offset up to which the adaptor's stream is committed without a gap.
    pub fn committed_end(&self, adaptor: u32) -> u64
        requires { IsKnown self.now.table adaptor }
        ensures { result ≡ slice_index self.now.table.committed adaptor }
    {
        self.acks.committed_end(adaptor)
    }

    /// Sends the longest front that fits a post and the free rows to the address in use. The post
    /// takes memory for its bytes once; each byte of a chunk is copied into it. A post that was out
    /// is so no more, but where there was no memory.
    pub fn post<S: Site>(
        &mut self,
        alloc: Global,
        site: &mut S,
        who: &Who,
    ) -> Result<Posted, NoMemory>
        ensures state { IsPosted who.now self.old result self.new (S.told site.old) (S.told site.new) }
        ensures told { (stamped : List (List ℕ)) (b : Basis) → who.now ≡ agent b.source
            → IsTrue (is_source b.source) → Fits b self.old → Adds (S.told site.old) (S.told site.new)
            (Leads (Making stamped who.now Send) (Matches stamped b self.old)
            (Matches stamped b self.new)) }
        ensures cause { CauseBy (S.fault_count site.old) (S.fault_count site.new) (post_fails result) }
    {
        if self.queue.is_empty() {
            self.post = None;
            return Ok(Posted::Empty);
        }
        if self.acks.free() == 0 {
            self.post = None;
            return Ok(Posted::NoRows);
        }
        self.send_post(alloc, site, who)
    }

    // Sends the next post.
    fn send_post<S: Site>(
        &mut self,
        alloc: Global,
        site: &mut S,
        who: &Who,
    ) -> Result<Posted, NoMemory>
        requires some { 0 < length self.old.queue.chunks }
        requires free { length self.old.table.rows < self.old.table.room }
        ensures state { IsPosted who.now self.old result self.new (S.told site.old) (S.told site.new) }
        ensures cause { CauseBy (S.fault_count site.old) (S.fault_count site.new) (post_fails result) }
    {
        let (bytes, count) = self.next_post(alloc)?;
        match site.send(alloc, who, self.ring.now().as_str(), bytes.as_slice()) {
            Ok(message) => {
                self.post = Some(OutPost { message, count });
                Ok(Posted::Sent { count })
            }
            Err(CallFault::Failed) => {
                self.post = None;
                self.ring.failed();
                Ok(Posted::Failed)
            }
            Err(CallFault::NoMemory) => Err(NoMemory),
            Err(_) => unreachable!(),
        }
    }

    // The bytes of the next post, and how many chunks it has.
    fn next_post(&self, alloc: Global) -> Result<(Bytes, u32), NoMemory>
        requires some { 0 < length self.now.queue.chunks }
        requires free { length self.now.table.rows < self.now.table.room }
        ensures { IfOk result (λ post. IsNextPost self.now post.0 post.1) }
    {
        let most = self.acks.free().min(POST_CHUNKS);
        let front = self.queue.front(most, POST_BYTES);
        let address = self.ring.now().as_str();
        let mut bytes = write_post_head(alloc, address, post_size(front) as usize)?;
        put_post(&mut bytes, front)?;
        Ok((bytes, front.len() as u32))
    }

    /// Asks for the reply to the post that is out. A good one drops the answered chunks and adds
    /// their rows, which were answered at `now`, in milliseconds. Another one, or none, ends the
    /// post: its chunks stay, and the next address is in use. It takes memory for the reply alone.
    pub fn post_reply<S: Site>(
        &mut self,
        alloc: Global,
        site: &mut S,
        who: &Who,
        now: u64,
    ) -> Result<Answered, NoMemory>
        ensures state { IsPostReplied who.now now self.old result self.new
            (S.told site.old) (S.told site.new) }
        ensures told { (stamped : List (List ℕ)) (b : Basis) → who.now ≡ agent b.source
            → IsTrue (is_source b.source) → Fits b self.old → Adds (S.told site.old) (S.told site.new)
            (Leads (As stamped who.now) (Matches stamped b self.old) (Matches stamped b self.new)) }
        ensures cause { CauseBy (S.fault_count site.old) (S.fault_count site.new) (reply_fails result) }
    {
        let Some(post) = self.post else {
            return Ok(Answered::Nothing);
        };
        match site.got(alloc, who, post.message) {
            Ok(bytes) => Ok(self.take_reply(bytes.as_slice(), post.count, now)),
            Err(CallFault::Failed) => {
                self.post = None;
                self.ring.failed();
                Ok(Answered::Silent)
            }
            Err(CallFault::NoMemory) => Err(NoMemory),
            Err(_) => unreachable!(),
        }
    }

    // Takes what was got for the post that is out, which has so many chunks.
    fn take_reply(&mut self, bytes: &[u8], count: u32, now: u64) -> Answered
        requires out { option_map (λ p. p.count) self.old.post ≡ Some count }
        ensures { TakesPostReply now count bytes.now self.old result self.new }
    {
        match good_lines(bytes, count) {
            Ok(lines) => {
                self.take_lines(lines, count, now);
                Answered::Taken { count }
            }
            Err(code) => {
                self.post = None;
                self.ring.failed();
                Answered::Refused { code }
            }
        }
    }

    // The front of so many chunks leaves the queue, and each has a row by its line.
    fn take_lines(&mut self, lines: LineList<'_>, count: u32, now: u64)
        requires out { option_map (λ p. p.count) self.old.post ≡ Some count }
        requires as_many { length lines ≡ count }
        ensures { self.new ≡ post_taken now count lines.entry self.old }
    {
        let front = self.queue.front(count, POST_BYTES);
        add_rows(&mut self.acks, &self.owners, front, lines, now);
        self.queue.drop_front(count as usize);
        drop_owners(&mut self.owners, count);
        self.ring.good();
        self.post = None;
    }

    /// A poll is due at `now`, in milliseconds: a row is unmarked, and no poll was sent or the last
    /// one at least `poll` before. It takes constant time.
    pub fn is_due(&self, now: u64) -> bool
        ensures { result ≡ is_due now self.now }
    {
        self.acks.waiting(0).is_some() && self.is_long_ago(now)
    }

    /// Asks for the committed lengths of the first 64 different sinks with unmarked rows, at the
    /// address in use. A poll that was out is so no more, but where there was no memory.
    pub fn poll<S: Site>(
        &mut self,
        alloc: Global,
        site: &mut S,
        who: &Who,
    ) -> Result<Polled, NoMemory>
        ensures state { IsPolled who.now self.old result self.new (S.told site.old) (S.told site.new) }
        ensures told { (stamped : List (List ℕ)) (b : Basis) → who.now ≡ agent b.source
            → IsTrue (is_source b.source) → Fits b self.old → Adds (S.told site.old) (S.told site.new)
            (Leads (Making stamped who.now Send) (Matches stamped b self.old)
            (Matches stamped b self.new)) }
        ensures cause { CauseBy (S.fault_count site.old) (S.fault_count site.new) (poll_fails result) }
    {
        let stems = self.asked(alloc)?;
        if stems.as_slice().is_empty() {
            self.poll = None;
            return Ok(Polled::NoneWaiting);
        }
        self.send_poll(alloc, site, who, stems)
    }

    // Sends a poll for these sinks.
    fn send_poll<S: Site>(
        &mut self,
        alloc: Global,
        site: &mut S,
        who: &Who,
        stems: Vec<Stem>,
    ) -> Result<Polled, NoMemory>
        requires asked { stems.items ≡ asked_stems self.old.table }
        requires some { 0 < length stems.items }
        requires few { length stems.items ≤ 64 }
        ensures state { IsPolled who.now self.old result self.new (S.told site.old) (S.told site.new) }
        ensures cause { CauseBy (S.fault_count site.old) (S.fault_count site.new) (poll_fails result) }
    {
        let count = stems.as_slice().len() as u32;
        let address = self.ring.now().as_str();
        let bytes = write_acks_request(alloc, address, stems.as_slice())?;
        match site.send(alloc, who, address, bytes.as_slice()) {
            Ok(message) => {
                self.poll = Some(OutPoll { message, stems });
                Ok(Polled::Sent { count })
            }
            Err(CallFault::Failed) => {
                self.poll = None;
                self.ring.failed();
                Ok(Polled::Failed)
            }
            Err(CallFault::NoMemory) => Err(NoMemory),
            Err(_) => unreachable!(),
        }
    }

    // The sinks that the next poll asks for.
    fn asked(&self, alloc: Global) -> Result<Vec<Stem>, NoMemory>
        ensures stems { IfOk result (λ stems. stems.items ≡ asked_stems self.now.table) }
        ensures few { IfOk result (λ stems. length stems.items ≤ 64) }
    {
        let mut stems = Vec::with_capacity(alloc, MOST_STEMS)?;
        for skip in 0..self.rules.rows - self.acks.free() {
            let Some((stem, _)) = self.acks.waiting(skip) else {
                return Ok(stems);
            };
            if !is_one_of(stems.as_slice(), &stem) {
                if stems.as_slice().len() == MOST_STEMS {
                    return Ok(stems);
                }
                stems.push(stem)?;
            }
        }
        Ok(stems)
    }

    /// Takes note that the last poll was sent at `now`.
    pub fn note_poll(&mut self, now: u64)
        ensures { self.new ≡ polled_at now self.old }
    {
        self.polled = Some(now);
    }

    /// Asks for the reply to the poll that is out. A good one has a line for each sink that was
    /// asked for, in order; the lengths are seen by the table of answers, each in time linear in
    /// its rows. Another one, or none, ends the poll, and the next address is in use. It takes
    /// memory for the reply alone.
    pub fn poll_reply<S: Site>(
        &mut self,
        alloc: Global,
        site: &mut S,
        who: &Who,
    ) -> Result<PollAnswer, NoMemory>
        ensures state { IsPollReplied who.now self.old result self.new
            (S.told site.old) (S.told site.new) }
        ensures told { (stamped : List (List ℕ)) (b : Basis) → who.now ≡ agent b.source
            → IsTrue (is_source b.source) → Fits b self.old → Adds (S.told site.old) (S.told site.new)
            (Leads (As stamped who.now) (Matches stamped b self.old) (Matches stamped b self.new)) }
        ensures cause { CauseBy (S.fault_count site.old) (S.fault_count site.new) (lengths_fail result) }
    {
        let Some(poll) = &self.poll else {
            return Ok(PollAnswer::Nothing);
        };
        match site.got(alloc, who, poll.message) {
            Ok(bytes) => Ok(self.take_lengths(bytes.as_slice())),
            Err(CallFault::Failed) => {
                self.poll = None;
                self.ring.failed();
                Ok(PollAnswer::Silent)
            }
            Err(CallFault::NoMemory) => Err(NoMemory),
            Err(_) => unreachable!(),
        }
    }

    // Takes what was got for the poll that is out.
    fn take_lengths(&mut self, bytes: &[u8]) -> PollAnswer
        requires { is_some self.old.poll ≡ true }
        ensures taken { (p : Poll) → self.old.poll ≡ Some p
            → TakesPollReply p.stems bytes.now self.old result self.new }
        ensures answered { lengths_fail (Ok result) ≡ false }
    {
        let Some(poll) = &self.poll else {
            unreachable!();
        };
        let stems = poll.stems.as_slice();
        let count = stems.len() as u32;
        match lengths_for(bytes, stems) {
            Ok(lines) => {
                see_all(&mut self.acks, lines);
                let rows = self.rules.rows - self.acks.free();
                let below = first_below(&self.acks, rows, stems, bytes);
                self.poll = None;
                self.ring.good();
                PollAnswer::Lengths { count, below }
            }
            Err(code) => {
                self.poll = None;
                self.ring.failed();
                PollAnswer::Refused { code }
            }
        }
    }

    /// Drops the chunks and rows of each adaptor with a row that has stayed unmarked for `expire`
    /// milliseconds at `now`, and answers their numbers, the least first. A post that is out is so
    /// no more where chunks were dropped. Its cost is that of the rows, the queue and the adaptors.
    pub fn expire(&mut self, alloc: Global, now: u64) -> Result<Vec<u32>, NoMemory>
        ensures gone { IfOk result (λ gone. gone.items ≡ expired_in now self.old) }
        ensures ok { OnOk result (self.new ≡ without_adaptors (expired_in now self.old) self.old) }
        ensures err { OnErr result (self.new ≡ self.old) }
    {
        let gone = self.expired(alloc, now)?;
        self.stop(alloc, &gone)?;
        Ok(gone)
    }

    // The adaptors with an expired row.
    fn expired(&self, alloc: Global, now: u64) -> Result<Vec<u32>, NoMemory>
        ensures { IfOk result (λ gone. gone.items ≡ expired_in now self.now) }
    {
        let mut marks = no_marks(alloc, self.acks.adaptors())?;
        self.acks.expired_all(now, self.rules.expire, &mut marks);
        let gone = marked_numbers(alloc, &marks)?;
        Ok(gone)
    }

    /// Drops the chunks and rows of these adaptors. A post that is out is so no more where chunks
    /// were dropped. Its cost is that of the rows, the queue and the adaptors.
    pub fn stop(&mut self, alloc: Global, gone: &[u32]) -> Result<(), NoMemory>
        ensures ok { OnOk result (self.new ≡ without_adaptors gone.now self.old) }
        ensures err { OnErr result (self.new ≡ self.old) }
    {
        let marks = marks_of(alloc, self.acks.adaptors(), gone)?;
        let kept = kept_places(alloc, &self.owners, &marks)?;
        let _sound = self.acks.free();
        self.queue.keep(&kept);
        keep_others(&mut self.owners, &marks);
        self.acks.reset(&marks);
        self.post = still_out(self.post, &kept);
        Ok(())
    }

    /// Back to the first address, with no failure counted.
    pub fn first_address(&mut self)
        ensures { self.new ≡ record self.old { ring = record self.old.ring { place = 0; failures = 0 } } }
    {
        self.ring.first();
    }

    /// How many addresses there are.
    pub fn addresses(&self) -> u32
        ensures count { result ≡ length self.now.ring.addresses }
        ensures some { 0 < result }
    {
        self.ring.size()
    }

    /// How many more rows there is room for.
    pub fn free_rows(&self) -> u32
        ensures free { result ≡ free_rows self.now }
        ensures table { IsSoundTable self.now.table }
    {
        self.acks.free()
    }

    /// How many rows there is room for.
    pub fn most_rows(&self) -> u32
        ensures { result ≡ self.now.table.room }
    {
        self.rules.rows
    }

    // No poll was sent, or the last one long enough before.
    fn is_long_ago(&self, now: u64) -> bool
        ensures { result ≡ is_long_ago now self.now }
    {
        match self.polled {
            None => true,
            Some(before) => now >= before && now - before >= self.rules.poll,
        }
    }
}

// The lines of a good reply to a post of so many chunks, or the status code of another one, 0
// where it can't be read.
fn good_lines(bytes: &[u8], count: u32) -> Result<LineList<'_>, u16>
    ensures good { IfOk result (λ lines. IsGoodReply lines bytes.now × (length lines ≡ count)) }
    ensures refused { IfErr result (λ code. IsNoPostReply count bytes.now × IsCode bytes.now code) }
{
    match read_reply(bytes) {
        Ok(reply) => {
            if reply.code != 200 {
                return Err(reply.code);
            }
            match LineList::new(reply.body, count) {
                Ok(lines) => Ok(lines),
                Err(_) => Err(200),
            }
        }
        Err(_) => Err(0),
    }
}

// Adds a row for each chunk of a front, by its line.
fn add_rows(
    acks: &mut Acks,
    owners: &VecDeque<u32>,
    front: &[Chunk],
    mut lines: LineList<'_>,
    now: u64,
)
    requires as_many { length lines ≡ length front.now }
    requires owned { length front.now ≤ length owners.now.items }
    requires turn { InTurn acks.old.last owners.now.items front.now }
    requires room { length acks.old.rows + length front.now ≤ acks.old.room }
    ensures { acks.new ≡ answered_rows now owners.now.items front.now lines.entry acks.old }
{
    let _sound = acks.free();
    for place in 0..front.len() {
        let Some((stem, number)) = lines.next() else {
            unreachable!();
        };
        let owner = owners[place];
        let chunk = &front[place];
        let begin = chunk.seq - chunk.body.len() as u64;
        acks.answered(owner, begin, chunk.seq, stem, number, now);
    }
}

// So many numbers, of which none is marked.
fn no_marks(alloc: Global, count: u32) -> Result<Vec<bool>, NoMemory>
    ensures { IfOk result (λ marks. marks.items ≡ replicate count false) }
{
    Ok(vec![in alloc; false; count as usize]?)
}

// So many numbers, of which these are marked. Those past the end are left out.
fn marks_of(alloc: Global, count: u32, numbers: &[u32]) -> Result<Vec<bool>, NoMemory>
    ensures { IfOk result (λ marks. marks.items ≡ fold with_mark (replicate count false) numbers.now) }
{
    let mut marks = no_marks(alloc, count)?;
    mark_numbers(&mut marks, numbers);
    Ok(marks)
}

// Marks these numbers, but those past the end.
#[tactic(auto, using(crate::proofs::Marked::mark_past))]
fn mark_numbers(marks: &mut [bool], numbers: &[u32])
    ensures { marks.new ≡ fold with_mark marks.old numbers.now }
{
    for number in numbers {
        if (*number as usize) < marks.len() {
            marks[*number as usize] = true;
        }
    }
}

// The marked numbers, the least first.
fn marked_numbers(alloc: Global, marks: &[bool]) -> Result<Vec<u32>, NoMemory>
    requires { length marks.now ≤ 2 ^ 32 }
    ensures { IfOk result (λ numbers. numbers.items ≡ marked_from 0 marks.now) }
{
    let mut numbers = Vec::new(alloc);
    for (number, mark) in marks.iter().enumerate() {
        if *mark {
            numbers.push(number as u32)?;
        }
    }
    Ok(numbers)
}

// Whether the number is marked.
fn is_marked(marks: &[bool], number: u32) -> bool
    ensures { result ≡ is_gone marks.now number }
{
    marks.get(number as usize).copied().unwrap_or(false)
}

// For each owner whether it isn't marked.
fn kept_places(alloc: Global, owners: &VecDeque<u32>, marks: &[bool]) -> Result<Vec<bool>, NoMemory>
    ensures { IfOk result (λ kept. kept.items ≡ map (is_left marks.now) owners.now.items) }
{
    let mut kept = Vec::with_capacity(alloc, owners.len())?;
    for place in 0..owners.len() {
        kept.push(!is_marked(marks, owners[place]))?;
    }
    Ok(kept)
}

// Drops the owners that are marked.
fn keep_others(owners: &mut VecDeque<u32>, marks: &[bool])
    ensures { owners.new.items ≡ filter (is_left marks.now) owners.old.items }
{
    owners.retain(|owner| !is_marked(marks, *owner));
}

// The post that is out where each chunk is kept.
fn still_out(post: Option<OutPost>, kept: &[bool]) -> Option<OutPost>
    ensures { result ≡ (if list_any not kept.now then None else post) }
{
    if is_any_left_out(kept) { None } else { post }
}

// Whether a place isn't kept.
fn is_any_left_out(kept: &[bool]) -> bool
    ensures { result ≡ list_any not kept.now }
{
    kept.iter().any(|kept| !*kept)
}

// Drops the first numbers.
fn drop_owners(owners: &mut VecDeque<u32>, count: u32)
    ensures { owners.new.items ≡ drop count owners.old.items }
{
    for _dropped in 0..count {
        let _owner = owners.pop_front();
    }
}

// Whether the sink is one of these.
fn is_one_of(stems: &[Stem], stem: &Stem) -> bool
    ensures { result ≡ list_any (same_stem stem.now) stems.now }
{
    stems.iter().any(|other| *stem == *other)
}

// The lines of a good reply to a poll for these sinks, or the status code of another one, 0 where
// it can't be read.
fn lengths_for<'a>(bytes: &'a [u8], stems: &[Stem]) -> Result<LineList<'a>, u16>
    requires { length stems.now ≤ 64 }
    ensures good { IfOk result (λ lines. IsGoodReply lines bytes.now × AreFor stems.now lines) }
    ensures refused { IfErr result (λ code. IsNoPollReply stems.now bytes.now × IsCode bytes.now code) }
{
    let count = stems.len() as u32;
    let lines = good_lines(bytes, count)?;
    if !are_for(stems, lines) {
        return Err(200);
    }
    match good_lines(bytes, count) {
        Ok(again) => Ok(again),
        Err(code) => Err(code),
    }
}

// Whether the lines are of these sinks, in order.
fn are_for(stems: &[Stem], mut lines: LineList<'_>) -> bool
    requires { length lines ≡ length stems.now }
    ensures same { IsTrue result → AreFor stems.now lines.entry }
    ensures other { IsFalse result → AreFor stems.now lines.entry → ⊥ }
{
    for stem in stems {
        match lines.next() {
            Some((named, _)) => {
                if named != *stem {
                    return false;
                }
            }
            None => unreachable!(),
        }
    }
    true
}

// Each length is seen by the table, in turn.
fn see_all(acks: &mut Acks, mut lines: LineList<'_>)
    ensures { SeesAll lines.entry acks.old acks.new }
{
    while let Some((stem, length)) = lines.next() {
        acks.seen(stem, length);
    }
}

// The first of so many unmarked rows, in order of answers, whose sink a good reply to a poll for
// these sinks names, with the length that it gives.
fn first_below(acks: &Acks, rows: u32, stems: &[Stem], bytes: &[u8]) -> Option<Below>
    requires rows { length acks.now.rows ≤ rows }
    requires few { length stems.now ≤ 64 }
    ensures { (lengths : List Ack) → IsGoodReply lengths bytes.now → AreFor stems.now lengths
        → result ≡ below_in lengths acks.now }
{
    let Some((stem, want)) = first_named(acks, rows, stems) else {
        return None;
    };
    let Some(got) = length_of(bytes, stems.len() as u32, &stem) else {
        return None;
    };
    Some(Below { stem, got, want })
}

// The sink and the offset of the first of so many unmarked rows whose sink is one of these.
fn first_named(acks: &Acks, rows: u32, stems: &[Stem]) -> Option<(Stem, u64)>
    requires { length acks.now.rows ≤ rows }
    ensures { result ≡ first_named stems.now (filter is_unmarked acks.now.rows) }
{
    for skip in 0..rows {
        let Some((stem, offset)) = acks.waiting(skip) else {
            return None;
        };
        if is_one_of(stems, &stem) {
            return Some((stem, offset));
        }
    }
    None
}

// The length that a good reply of so many lines gives a sink.
fn length_of(bytes: &[u8], count: u32, stem: &Stem) -> Option<u64>
    ensures { (lengths : List Ack) → IsGoodReply lengths bytes.now → length lengths ≡ count
        → result ≡ length_of stem.now lengths }
{
    match good_lines(bytes, count) {
        Ok(lines) => length_in(lines, stem),
        Err(_) => None,
    }
}

fn length_in(mut lines: LineList<'_>, stem: &Stem) -> Option<u64>
    ensures { result ≡ length_of stem.now lines.entry }
{
    while let Some((named, length)) = lines.next() {
        if named == *stem {
            return Some(length);
        }
    }
    None
}
