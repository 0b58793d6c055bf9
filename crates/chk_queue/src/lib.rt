//! A queue of chunks with a limit on their data, from which the front is lent as one slice.
#![tactic(auto)]

ghost use Rattle.std.specs.Prelude.{◌≡◌, ◌+◌, ◌^◌, ◌<◌, ◌≤◌, ◌↔◌, [], ◌∷◌, ◌++◌, length, take, drop};
ghost use Rattle.std.specs.Prelude.{IsTrue, IfErr, OnOk, OnErr};
ghost use Rattle.std.specs.List.{AllWithin, filter};
ghost use Rattle.chk_queue.specs.Queues.{data_size, HasRoom, marked};
ghost use Rattle.chk_queue.specs.Queues.{IsLongestFront, is_of, is_of_other};
ghost use Rattle.chk_queue.specs.Refusals.{IsRefusal};

use chk_bytes::Bytes;
use chk_chunk::{Chunk, chunk_size};
use std::alloc::Global;
use std::marker::Model;

/// Chunks in the order in which they came, with at most `limit` bytes of data. It keeps its
/// allocator.
///
/// A chunk that is dropped gives up its data at once. What is left of it, its texts, and its place
/// go once half of the places are of dropped chunks, so a drop costs the number of dropped chunks
/// over many drops.
#[derive(Drop)]
pub struct Queue {
    alloc: Global,
    chunks: Vec<Chunk>,
    first: usize,
    used: u64,
    limit: u64,
}

impl Model for Queue {
    ghost use Rattle.chk_queue.specs.Queues.{Waiting};

    ghost Value = { Waiting };

    ghost use Rattle.chk_queue.specs.QueueFields.{queue_view, IsSoundQueue};

    ghost view = { queue_view };

    ghost invariant = { IsSoundQueue };
}

/// Why a chunk wasn't put in. It comes back.
#[derive(Debug, Drop)]
pub enum PutFault {
    /// The `need` bytes of its data, with the `used` bytes that are there, would pass the limit.
    Full { used: u64, need: u64, chunk: Chunk },
    /// There was no memory for its place.
    NoMemory { chunk: Chunk },
}

impl Queue {
    /// The empty queue. It takes no memory before the first chunk comes.
    pub fn new(alloc: Global, limit: u64) -> Queue
        ensures { result ≡ record { limit = limit; chunks = [] } }
    {
        Queue {
            alloc,
            chunks: Vec::new(alloc),
            first: 0,
            used: 0,
            limit,
        }
    }

    /// Puts the chunk behind the others.
    pub fn put(&mut self, chunk: Chunk) -> Result<(), PutFault>
        ensures ok { OnOk result (self.new ≡ record self.old { chunks = self.old.chunks ++ chunk ∷ [] }) }
        ensures room { OnOk result (HasRoom self.old (length chunk.body)) }
        ensures refused { IfErr result (IsRefusal self.old chunk) }
        ensures err { OnErr result (self.new ≡ self.old) }
    {
        let need = chunk.body.len() as u64;
        if need > self.limit - self.used {
            return Err(PutFault::Full {
                used: self.used,
                need,
                chunk,
            });
        }
        match self.chunks.push(chunk) {
            Ok(()) => {
                self.used += need;
                Ok(())
            }
            Err(failed) => Err(PutFault::NoMemory {
                chunk: failed.value,
            }),
        }
    }

    /// How many chunks wait.
    pub fn len(&self) -> usize
        ensures { result ≡ length self.now.chunks }
    {
        self.chunks.len() - self.first
    }

    /// No chunk waits.
    pub fn is_empty(&self) -> bool
        ensures { IsTrue result ↔ (self.now.chunks ≡ []) }
    {
        self.len() == 0
    }

    /// How many bytes of data the waiting chunks have.
    pub fn used(&self) -> u64
        ensures used { result ≡ data_size self.now.chunks }
        ensures room { result ≤ self.now.limit }
    {
        self.used
    }

    /// The longest front of at most so many chunks whose post has at most so many bytes, the 4
    /// bytes of the post's count among them. Its cost is that of the chunks that it lends.
    pub fn front(&self, chunks: u32, bytes: u64) -> &[Chunk]
        ensures { IsLongestFront self.now.chunks result.now chunks bytes }
    {
        let waiting = &self.chunks[self.first..];
        let count = front_count(waiting, chunks as usize, bytes);
        &waiting[..count]
    }

    /// Drops the first `count` chunks.
    pub fn drop_front(&mut self, count: usize)
        requires { count ≤ length self.old.chunks }
        ensures { self.new ≡ record self.old { chunks = drop count self.old.chunks } }
    {
        let end = self.first + count;
        self.used -= data_size(&self.chunks[self.first..end]);
        give_up_data(self.alloc, &mut self.chunks, self.first, end);
        self.first = tidy(&mut self.chunks, end);
    }

    /// Keeps just the chunks whose places are marked, in order. Its cost is that of the queue's
    /// length.
    pub fn keep(&mut self, kept: &[bool])
        requires { length kept.now ≡ length self.old.chunks }
        ensures { self.new ≡ record self.old { chunks = marked kept.now self.old.chunks } }
    {
        drop_first(&mut self.chunks, self.first);
        self.first = 0;
        keep_marked(&mut self.chunks, kept);
        self.used = data_size(&self.chunks);
    }

    /// Drops the chunks of the stream of this type and name, and keeps the others in order. It takes
    /// no memory. Its cost is that of the queue's length.
    pub fn drop_stream(&mut self, kind: &str, name: &str)
        ensures { self.new
            ≡ record self.old { chunks = filter (is_of_other kind.now name.now) self.old.chunks } }
    {
        drop_first(&mut self.chunks, self.first);
        self.first = 0;
        self.chunks.retain(|chunk| !is_of(chunk, kind, name));
        self.used = data_size(&self.chunks);
    }
}

// The chunk is of this stream.
fn is_of(chunk: &Chunk, kind: &str, name: &str) -> bool
    ensures { result ≡ is_of kind.now name.now chunk.now }
{
    chunk.kind.as_str() == kind && chunk.name.as_str() == name
}

// How many chunks the longest front has.
fn front_count(waiting: &[Chunk], most: usize, bytes: u64) -> usize
    ensures within { result ≤ length waiting.now }
    ensures longest { IsLongestFront waiting.now (take result waiting.now) most bytes }
{
    if bytes < 4 {
        return 0;
    }
    let mut left = bytes - 4;
    let end = most.min(waiting.len());
    for count in 0..end {
        let size = chunk_size(&waiting[count]);
        if size > left {
            return count;
        }
        left -= size;
    }
    end
}

fn data_size(chunks: &[Chunk]) -> u64
    requires { data_size chunks.now < 2 ^ 64 }
    ensures { result ≡ data_size chunks.now }
{
    chunks.iter().map(|chunk| chunk.body.len() as u64).sum()
}

// Empties the data of the chunks from one place up to another.
fn give_up_data(alloc: Global, chunks: &mut Vec<Chunk>, from: usize, to: usize)
    requires ordered { from ≤ to }
    requires within { to ≤ length chunks.old.items }
    ensures size { length chunks.new.items ≡ length chunks.old.items }
    ensures gone { AllWithin (λ chunk. chunk.body ≡ []) chunks.new.items from to }
    ensures later { drop to chunks.new.items ≡ drop to chunks.old.items }
{
    for at in from..to {
        let chunk = &mut chunks[at];
        chunk.body = Bytes::new(alloc);
    }
}

// Takes the first `count` chunks out where they are more than half, and answers how many chunks
// still stand before the others.
fn tidy(chunks: &mut Vec<Chunk>, count: usize) -> usize
    requires { count ≤ length chunks.old.items }
    ensures within { result ≤ length chunks.new.items }
    ensures others { drop result chunks.new.items ≡ drop count chunks.old.items }
{
    if count <= chunks.len() - count {
        return count;
    }
    drop_first(chunks, count);
    0
}

// Takes the first `count` chunks out.
fn drop_first(chunks: &mut Vec<Chunk>, count: usize)
    requires { count ≤ length chunks.old.items }
    ensures { chunks.new.items ≡ drop count chunks.old.items }
{
    chunks.rotate_left(count);
    chunks.truncate(chunks.len() - count);
}

// Takes the chunks out whose places aren't marked.
fn keep_marked(chunks: &mut Vec<Chunk>, kept: &[bool])
    requires { length kept.now ≡ length chunks.old.items }
    ensures { chunks.new.items ≡ marked kept.now chunks.old.items }
{
    let mut count = 0;
    for (place, keep) in kept.iter().enumerate() {
        if *keep {
            chunks.swap(count, place);
            count += 1;
        }
    }
    chunks.truncate(count);
}
