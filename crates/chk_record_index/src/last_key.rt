//! The last key, and how the next one is written.

ghost use Rattle.std.specs.Prelude.{◌≡◌, ◌↔◌, ◌≤◌, ◌++◌, [], length, take, drop, IsTrue, IfOk, OnOk, OnErr};
ghost use Rattle.chk_bytes.specs.Numbers.{be64};
ghost use Rattle.chk_chunk.specs.Keys.{is_key, written_key};
ghost use Rattle.chk_chunk.specs.Lent.{lent_chunk};

use crate::tails::{is_tail, version_of};
use chk_bytes::{Bytes, NoMemory};
use chk_chunk::{ChunkRef, write_key};
use std::alloc::Global;
use std::marker::Model;

/// A key has room for this many bytes from its begin, which most keys don't pass.
const KEY_BYTES: usize = 256;

/// How a key was written.
#[derive(Clone, Copy, Debug, PartialEq, Eq)]
pub enum Written {
    /// Over the last one, which it was but for the sequence id.
    Over,
    /// From its first byte on.
    Anew,
}

/// The key of the last record. The next one of the same stream, start and cluster takes it over, but for the sequence id.
#[derive(Drop)]
pub struct LastKey {
    bytes: Vec<u8>,
    /// Where a key is spelled anew.
    spelled: Bytes,
}

impl Model for LastKey {
    ghost use Rattle.std.specs.Prelude.{List, ℕ};

    ghost Value = { List ℕ };

    ghost view = { λ k. k.bytes.items };
}

impl LastKey {
    ghost use Rattle.chk_record_index.specs.LastKeys.{IsButSeq};
    ghost use Rattle.chk_record_index.specs.Telling.{Tells};

    /// No key yet. It takes memory for one of 256 bytes at once, twice.
    pub fn new(alloc: Global) -> Result<LastKey, NoMemory>
        ensures { IfOk result (λ key. key ≡ []) }
    {
        Ok(LastKey {
            bytes: Vec::with_capacity(alloc, KEY_BYTES)?,
            spelled: Bytes::with_capacity(alloc, KEY_BYTES)?,
        })
    }

    /// Its bytes; none where there is no key.
    pub fn as_slice(&self) -> &[u8]
        ensures { result.now ≡ self.now }
    {
        self.bytes.as_slice()
    }

    /// Makes it the chunk's key, and says how: `Over` exactly where it was that key but for the sequence id. Then the chunk's texts
    /// are compared once with the bytes, eight bytes are written, and nothing is allocated. Else the key is spelled anew, and
    /// without memory there is no key then. It costs the length of the key.
    pub fn write(&mut self, chunk: &ChunkRef<'_>) -> Result<Written, NoMemory>
        requires { IsTrue (is_key (lent_chunk chunk.now).key) }
        ensures key { OnOk result (self.new ≡ written_key (lent_chunk chunk.now).key) }
        ensures over { IfOk result (λ how. Tells how (lent_chunk chunk.now).key self.old) }
        ensures err { OnErr result (self.new ≡ []) }
    {
        if self.is_but_seq(chunk) {
            self.set_seq(chunk.seq);
            return Ok(Written::Over);
        }
        self.spell(chunk)?;
        Ok(Written::Anew)
    }

    /// No key any more.
    pub fn clear(&mut self)
        ensures { self.new ≡ [] }
    {
        self.bytes.clear();
    }

    /// It is the chunk's key, but for the sequence id.
    fn is_but_seq(&self, chunk: &ChunkRef<'_>) -> bool
        requires { IsTrue (is_key (lent_chunk chunk.now).key) }
        ensures { IsTrue result ↔ IsButSeq (lent_chunk chunk.now).key self.now }
    {
        let key = self.bytes.as_slice();
        key.len() >= 9 && key[0] == version_of(chunk) && is_tail(&key[9..], chunk)
    }

    /// Writes another sequence id into it.
    fn set_seq(&mut self, seq: u64)
        requires { 9 ≤ length self.old }
        ensures { self.new ≡ take 1 self.old ++ (be64 seq ++ drop 9 self.old) }
    {
        self.bytes[1..9].copy_from_slice(&seq.to_be_bytes());
    }

    /// Spells the chunk's key anew. Without memory there is no key then.
    fn spell(&mut self, chunk: &ChunkRef<'_>) -> Result<(), NoMemory>
        requires { IsTrue (is_key (lent_chunk chunk.now).key) }
        ensures ok { OnOk result (self.new ≡ written_key (lent_chunk chunk.now).key) }
        ensures err { OnErr result (self.new ≡ []) }
    {
        self.bytes.clear();
        self.spelled.truncate(0);
        write_key(&mut self.spelled, chunk)?;
        self.bytes.extend_from_slice(self.spelled.as_slice())?;
        Ok(())
    }
}
