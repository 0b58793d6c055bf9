//! Lists of bytes on the heap.

ghost use Rattle.std.specs.Prelude.{◌≡◌, [], ◌++◌, List, ℕ, OnOk, OnErr, IfOk, length, take};

use crate::NoMemory;
use std::alloc::Global;
use std::marker::Model;

/// A list of bytes that grows at its end, and keeps its allocator.
#[derive(Debug, Drop)]
pub struct Bytes {
    items: Vec<u8>,
}

impl Model for Bytes {
    ghost Value = { List ℕ };

    ghost view = { λ b. b.items.items };
}

impl Bytes {
    /// The empty list. It takes no memory before the first byte comes.
    pub fn new(alloc: Global) -> Bytes
        ensures { result ≡ [] }
    {
        Bytes {
            items: Vec::new(alloc),
        }
    }

    /// The empty list, with room for so many bytes, taken at once.
    pub fn with_capacity(alloc: Global, capacity: usize) -> Result<Bytes, NoMemory>
        ensures { IfOk result (λ b. b ≡ []) }
    {
        let items = Vec::with_capacity(alloc, capacity)?;
        Ok(Bytes { items })
    }

    /// The list of these bytes, without a copy.
    pub fn from_vec(items: Vec<u8>) -> Bytes
        ensures { result ≡ items.items }
    {
        Bytes { items }
    }

    /// Appends all of `more`, or without memory nothing. One append costs its own length, over
    /// many appends.
    pub fn push_all(&mut self, more: &[u8]) -> Result<(), NoMemory>
        ensures ok { OnOk result (self.new ≡ self.old ++ more.now) }
        ensures err { OnErr result (self.new ≡ self.old) }
    {
        self.items.extend_from_slice(more)?;
        Ok(())
    }

    /// A copy of `bytes` on the heap.
    pub fn from_slice(alloc: Global, bytes: &[u8]) -> Result<Bytes, NoMemory>
        ensures { IfOk result (λ b. b ≡ bytes.now) }
    {
        Ok(Bytes {
            items: bytes.to_vec(alloc)?,
        })
    }

    /// The bytes, without a copy.
    pub fn as_slice(&self) -> &[u8]
        ensures { result.now ≡ self.now }
    {
        &self.items
    }

    /// How many bytes there are.
    pub fn len(&self) -> usize
        ensures { result ≡ length self.now }
    {
        self.items.len()
    }

    /// Leaves the first `len` bytes; nothing changes where there are no more.
    pub fn truncate(&mut self, len: usize)
        ensures { self.new ≡ take len self.old }
    {
        self.items.truncate(len);
    }

    /// A second list of the same bytes, from the same allocator.
    pub fn copy(&self) -> Result<Bytes, NoMemory>
        ensures { IfOk result (λ b. b ≡ self.now) }
    {
        let items = self.items.clone()?;
        Ok(Bytes { items })
    }
}
