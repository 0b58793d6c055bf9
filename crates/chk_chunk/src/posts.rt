//! Posts.

ghost use Rattle.std.specs.Prelude.{◌≡◌, ◌≢◌, ◌<◌, ◌≤◌, ◌^◌, ◌+◌, ◌∷◌, ◌++◌, [], List, length};
ghost use Rattle.std.specs.Prelude.{IsTrue, IfOk, IfErr, OnOk, OnErr, IsOkAnd, IfSome, IfNone, take};
ghost use Rattle.std.specs.Prelude.{MatchOption, Some, None};
ghost use Rattle.chk_bytes.specs.Numbers.{spelled_at};
ghost use Rattle.chk_chunk.specs.Keys.{Chunk as ChunkSpec, is_chunk, is_key};
ghost use Rattle.chk_chunk.specs.Posts.{IsPost, written_part, written_post, post_limit};
ghost use Rattle.chk_chunk.specs.Posts.{most_chunks};
ghost use Rattle.chk_chunk.specs.Faults.{key_field_fault, value_field_fault, chunk_fault};
ghost use Rattle.chk_chunk.specs.Faults.{chunks_fault, post_fault};
ghost use Rattle.chk_chunk.specs.Fields.{IsKeyFieldAt, IsValueAt, IsChunkAt};
ghost use Rattle.chk_chunk.specs.Lent.{lent_key, lent_chunk, chunk_of, chunks_of, AreValid};

use crate::fields::{end_at, u32_at};
use crate::keys::{key_at, key_size, write_key};
use crate::{CHUNK_BYTES, Chunk, ChunkFault, ChunkRef, KeyRef, POST_BYTES, POST_CHUNKS};
use chk_bytes::{Bytes, NoMemory, put_u32};
use std::alloc::Global;
use std::marker::Model;

/// A post that was read. It gives its chunks in order, borrowed from the post's bytes, and takes no
/// memory.
#[derive(Drop)]
pub struct PostRef<'a> {
    body: &'a [u8],
    at: usize,
    left: u32,
    count: u32,
}

impl<'a> Model for PostRef<'a> {
    ghost use Rattle.chk_chunk.specs.ReadPosts.{ReadPost};

    ghost Value = { ReadPost };

    ghost use Rattle.chk_chunk.specs.PostFields.{post_view, IsSoundPost};

    ghost view = { post_view };

    ghost invariant = { IsSoundPost };
}

impl<'a> PostRef<'a> {
    /// How many chunks the post has, those that were given among them: 1 to 1,000.
    pub fn count(&self) -> u32
        ensures { result ≡ self.now.count }
    {
        self.count
    }

    /// The next chunk, `None` after the last.
    pub fn next(&mut self) -> Option<ChunkRef<'a>>
        ensures first { MatchOption result (self.old.left ≡ []) (λ chunk. self.old.left ≡ lent_chunk chunk ∷ self.new.left) }
        ensures valid { IfSome result (λ chunk. IsTrue (is_chunk (lent_chunk chunk))) }
        ensures last { IfNone result (self.new.left ≡ []) }
        ensures count { self.new.count ≡ self.old.count }
    {
        if self.left == 0 {
            return None;
        }
        match chunk_at(self.body, self.at) {
            Ok((chunk, end)) => {
                self.at = end;
                self.left -= 1;
                Some(chunk)
            }
            Err(_) => unreachable!(),
        }
    }
}

/// The chunks of the post that the body is. The whole body is read once, so its chunks are then
/// given without a fault.
pub fn read_post(body: &[u8]) -> Result<PostRef<'_>, ChunkFault>
    ensures post { IfOk result (λ post. IsPost post.left body.now) }
    ensures count { IfOk result (λ post. post.count ≡ length post.left) }
    ensures every_post { (chunks : List ChunkSpec) → IsPost chunks body.now → IsOkAnd result (λ post. post.left ≡ chunks) }
    ensures fault { IfErr result (λ fault. post_fault body.now ≡ Some fault) }
{
    let count = check_post(body)?;
    Ok(PostRef {
        body,
        at: 4,
        left: count,
        count,
    })
}

// How many chunks the body has, where it is a post.
#[tactic(auto, unfolding(crate::specs::Faults::post_fault, crate::specs::Faults::first_fault, crate::specs::Faults::fault_if))]
fn check_post(body: &[u8]) -> Result<u32, ChunkFault>
    ensures fault { IfErr result (λ fault. post_fault body.now ≡ Some fault) }
    ensures fine { IfOk result (λ _. post_fault body.now ≡ None) }
    ensures count { IfOk result (λ count. count ≡ spelled_at 0 4 body.now) }
{
    let len = body.len() as u64;
    if len > POST_BYTES {
        return Err(ChunkFault::TooLong {
            limit: POST_BYTES,
            found: len,
        });
    }
    let count = u32_at(body, 0)?;
    if count == 0 {
        return Err(ChunkFault::Empty { at: 0 });
    }
    if count > POST_CHUNKS {
        return Err(ChunkFault::TooMany { count });
    }
    check_chunks(body, count)?;
    Ok(count)
}

// From place 4 on the body is so many chunks.
#[tactic(auto, unfolding(crate::specs::Faults::first_fault))]
fn check_chunks(body: &[u8], count: u32) -> Result<(), ChunkFault>
    requires { 4 ≤ length body.now }
    ensures fault { IfErr result (λ fault. chunks_fault count 4 body.now ≡ Some fault) }
    ensures fine { IfOk result (λ _. chunks_fault count 4 body.now ≡ None) }
{
    let mut at = 4;
    for _done in 0..count {
        let (_, end) = chunk_at(body, at)?;
        at = end;
    }
    end_at(body, at)
}

// The chunk that stands at `at`, and the place behind it.
#[tactic(auto, unfolding(crate::specs::Faults::chunk_fault, crate::specs::Faults::first_fault, crate::specs::Posts::guessed_chunk))]
fn chunk_at(body: &[u8], at: usize) -> Result<(ChunkRef<'_>, usize), ChunkFault>
    ensures fault { IfErr result (λ fault. chunk_fault at body.now ≡ Some fault) }
    ensures chunk { IfOk result (λ found. IsChunkAt at body.now (lent_chunk found.0) found.1) }
{
    let (key, value_at) = key_field_at(body, at)?;
    let (value, end) = value_field_at(body, value_at, &key)?;
    let chunk = ChunkRef {
        source: key.source,
        kind: key.kind,
        name: key.name,
        start: key.start,
        cluster: key.cluster,
        seq: key.seq,
        body: value,
    };
    Ok((chunk, end))
}

// The key whose length stands at `at`, and the place behind it.
#[tactic(auto, unfolding(crate::specs::Faults::key_field_fault, crate::specs::Faults::first_fault, crate::specs::Faults::fault_if))]
fn key_field_at(body: &[u8], at: usize) -> Result<(KeyRef<'_>, usize), ChunkFault>
    ensures fault { IfErr result (λ fault. key_field_fault at body.now ≡ Some fault) }
    ensures key { IfOk result (λ found. IsKeyFieldAt at body.now (lent_key found.0) found.1) }
{
    let size = u32_at(body, at)? as usize;
    let from = at + 4;
    let end = from + size;
    if body.len() < end {
        return Err(ChunkFault::Short { at: from as u64 });
    }
    let key = key_at(&body[..end], from)?;
    Ok((key, end))
}

// The data whose length stands at `at`, of a chunk with this key, and the place behind it.
#[tactic(auto, unfolding(crate::specs::Faults::value_field_fault, crate::specs::Faults::first_fault, crate::specs::Faults::fault_if))]
fn value_field_at<'a>(
    body: &'a [u8],
    at: usize,
    key: &KeyRef<'_>,
) -> Result<(&'a [u8], usize), ChunkFault>
    requires { key.now.start < 2 ^ 63 }
    ensures fault { IfErr result (λ fault. value_field_fault (lent_key key.now) at body.now ≡ Some fault) }
    ensures value { IfOk result (λ found. IsValueAt (lent_key key.now) at body.now found.0.now found.1) }
{
    let size = u32_at(body, at)?;
    if size == 0 {
        return Err(ChunkFault::Empty { at: at as u64 });
    }
    let len = u64::from(size);
    if len > CHUNK_BYTES {
        return Err(ChunkFault::TooLong {
            limit: CHUNK_BYTES,
            found: len,
        });
    }
    if key.seq < key.start + len {
        return Err(ChunkFault::BeforeStart { seq: key.seq, len });
    }
    let from = at + 4;
    let end = from + size as usize;
    if body.len() < end {
        return Err(ChunkFault::Short { at: from as u64 });
    }
    Ok((&body[from..end], end))
}

/// How many bytes the post of these chunks has, the 4 bytes of their count among them. Its cost
/// is that of the chunks' number.
pub fn post_size(chunks: &[Chunk]) -> u64
    requires few { length chunks.now ≤ most_chunks }
    requires valid { AreValid chunks.now }
    ensures { result ≡ length (written_post (chunks_of chunks.now)) }
{
    let mut size = 4;
    for chunk in chunks {
        size += chunk_size(chunk);
    }
    size
}

/// How many bytes the chunk has in a post: its key and its data, each behind a length of 4 bytes.
pub fn chunk_size(chunk: &Chunk) -> u64
    ensures { result ≡ length (written_part (chunk_of chunk.now)) }
{
    8 + key_size(&chunk.lend()) + chunk.body.len() as u64
}

/// The post of these chunks. Its memory is taken at once.
pub fn write_post(alloc: Global, chunks: &[Chunk]) -> Result<Bytes, NoMemory>
    requires some { 0 < length chunks.now }
    requires few { length chunks.now ≤ most_chunks }
    requires valid { AreValid chunks.now }
    requires fits { length (written_post (chunks_of chunks.now)) ≤ post_limit }
    ensures bytes { IfOk result (λ post. post ≡ written_post (chunks_of chunks.now)) }
    ensures post { IfOk result (λ post. IsPost (chunks_of chunks.now) post) }
{
    let mut post = Bytes::with_capacity(alloc, post_size(chunks) as usize)?;
    put_post(&mut post, chunks)?;
    Ok(post)
}

/// Appends the post of these chunks, or without memory nothing. Each byte of a chunk is copied
/// once where `out` has room for `post_size` more.
pub fn put_post(out: &mut Bytes, chunks: &[Chunk]) -> Result<(), NoMemory>
    requires few { length chunks.now ≤ most_chunks }
    requires valid { AreValid chunks.now }
    ensures ok { OnOk result (out.new ≡ out.old ++ written_post (chunks_of chunks.now)) }
    ensures err { OnErr result (out.new ≡ out.old) }
{
    let before = out.len();
    let put = push_post(out, chunks);
    if put.is_err() {
        out.truncate(before);
    }
    put
}

fn push_post(out: &mut Bytes, chunks: &[Chunk]) -> Result<(), NoMemory>
    requires few { length chunks.now ≤ most_chunks }
    requires valid { AreValid chunks.now }
    ensures ok { OnOk result (out.new ≡ out.old ++ written_post (chunks_of chunks.now)) }
    ensures err { OnErr result (take (length out.old) out.new ≡ out.old) }
{
    put_u32(out, chunks.len() as u32)?;
    for chunk in chunks {
        push_chunk(out, chunk)?;
    }
    Ok(())
}

fn push_chunk(out: &mut Bytes, chunk: &Chunk) -> Result<(), NoMemory>
    requires { IsTrue (is_chunk (chunk_of chunk.now)) }
    ensures ok { OnOk result (out.new ≡ out.old ++ written_part (chunk_of chunk.now)) }
    ensures err { OnErr result (take (length out.old) out.new ≡ out.old) }
{
    let lent = chunk.lend();
    put_u32(out, key_size(&lent) as u32)?;
    write_key(out, &lent)?;
    put_u32(out, lent.body.len() as u32)?;
    out.push_all(lent.body)
}
