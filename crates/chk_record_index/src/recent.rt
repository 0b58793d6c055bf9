//! A key that was read not long ago: the keys of other records of its stream differ from it in the sequence id alone.

ghost use Rattle.std.specs.Prelude.{◌≡◌, [], IsTrue, IfSome, OnOk, OnErr};
ghost use Rattle.chk_record_index.specs.HeadRows.{AreAlike, IsNext};
ghost use Rattle.chk_record_index.specs.Recents.{IsSet};

use chk_bytes::{Bytes, NoMemory, take_u64};
use std::alloc::Global;

/// Where the sequence id of a key ends, which stands behind the version.
pub(crate) const SEQ_END: usize = 9;

/// The bytes of a key that was read not long ago, its start, and the number of its origin. There are no bytes before the first
/// one. By its mark it is looked for.
#[derive(Debug, Drop)]
pub(crate) struct Recent {
    key: Bytes,
    pub mark: u64,
    pub start: u64,
    pub origin: u32,
}

impl Recent {
    /// No key. It takes no memory before the first one comes.
    pub(crate) fn new(alloc: Global) -> Recent
        ensures { result.key ≡ [] }
    {
        Recent {
            key: Bytes::new(alloc),
            mark: 0,
            start: 0,
            origin: 0,
        }
    }

    /// The sequence id of a key that is the recent one but for it. Of the other bytes none is read as a number or a text, since
    /// each is the recent key's.
    pub(crate) fn seq_of(&self, key: &[u8]) -> Option<u64>
        ensures { IfSome result (λ seq. IsNext self.now key.now seq) }
    {
        if !are_alike(self.key.as_slice(), key) {
            return None;
        }
        let seq = take_u64(key, 1)?;
        if seq <= self.start || seq >= 1 << 63 {
            return None;
        }
        Some(seq)
    }

    /// There are no bytes, or they are a key of this origin.
    pub(crate) fn is_for(&self, origin: u32) -> bool {
        self.key.len() == 0 || self.origin == origin
    }

    /// Takes this key for the recent one. Without memory there is none then.
    pub(crate) fn set(
        &mut self,
        mark: u64,
        key: &[u8],
        start: u64,
        origin: u32,
    ) -> Result<(), NoMemory>
        ensures ok { OnOk result (IsSet self.new key.now start origin) }
        ensures err { OnErr result (self.new.key ≡ []) }
    {
        self.key.truncate(0);
        self.key.push_all(key)?;
        self.mark = mark;
        self.start = start;
        self.origin = origin;
        Ok(())
    }
}

/// The two keys are long enough for a sequence id, and are the same but for it.
fn are_alike(a: &[u8], b: &[u8]) -> bool
    ensures { IsTrue result → AreAlike a.now b.now }
{
    if a.len() < SEQ_END || a.len() != b.len() {
        return false;
    }
    a[0] == b[0] && a[SEQ_END..] == b[SEQ_END..]
}
