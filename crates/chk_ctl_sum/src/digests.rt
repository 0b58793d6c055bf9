//! Digests of streams.

ghost use Rattle.std.specs.Prelude.{◌≡◌, ◌++◌, ◌∷◌, [], OnOk};

use chk_bytes::NoMemory;
use std::alloc::Global;
use std::marker::Model;

/// The SHA-256 of each of some streams, in their order. It keeps its allocator.
#[derive(Debug, Drop)]
pub struct Digests {
    items: Vec<[u8; 32]>,
}

impl Model for Digests {
    ghost use Rattle.std.specs.Prelude.{ℕ, List};

    ghost Value = { List (List ℕ) };

    ghost view = { λ s. s.items.items };
}

impl Digests {
    /// No digest. It takes no memory.
    pub(crate) fn new(alloc: Global) -> Digests
        ensures { result ≡ [] }
    {
        Digests {
            items: Vec::new(alloc),
        }
    }

    /// Puts one behind the others.
    pub(crate) fn push(&mut self, digest: [u8; 32]) -> Result<(), NoMemory>
        ensures { OnOk result (self.new ≡ self.old ++ digest ∷ []) }
    {
        self.items.push(digest)?;
        Ok(())
    }

    /// The digests, without a copy.
    pub fn as_slice(&self) -> &[[u8; 32]]
        ensures { result.now ≡ self.now }
    {
        &self.items
    }
}
