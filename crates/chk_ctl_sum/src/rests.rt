//! Streams from an offset on.

ghost use Rattle.std.specs.Prelude.{◌≡◌, ℕ, List, [], ◌++◌, drop, map, IfOk};
ghost use Rattle.sha2.specs.Sha256.{sha256};
ghost use Rattle.chk_ctl_sum.specs.Rests.{skip_of, HoldsRest};

use chk_book::End;
use chk_bytes::NoMemory;
use sha2::{Digest, Sha256};
use std::alloc::Global;

/// The archived bytes of a stream from the offset `begin` on; all of them, where its start lies
/// behind that.
#[derive(Clone, Copy)]
pub struct Rest<'a> {
    pub end: &'a End,
    pub begin: u64,
}

impl<'a> Rest<'a> {
    /// How many of the archived bytes are left out.
    pub fn skip(&self) -> u64
        ensures { result ≡ skip_of self.now }
    {
        self.begin.saturating_sub(self.end.start)
    }
}

/// Each stream, from its start on.
pub(crate) fn whole_rests<'a>(alloc: Global, ends: &'a [End]) -> Result<Vec<Rest<'a>>, NoMemory>
    ensures ends { IfOk result (λ rests. map (λ r. r.end.now) rests.items ≡ ends.now) }
    ensures begin { IfOk result (λ rests.
        map (λ r. r.begin) rests.items ≡ map (λ e. e.start) ends.now) }
{
    let mut rests = Vec::new(alloc);
    for end in ends {
        rests.push(Rest {
            end,
            begin: end.start,
        })?;
    }
    Ok(rests)
}

/// A hasher that leaves out so many bytes, and hashes what follows them.
#[derive(Drop)]
pub(crate) struct Skipping {
    hasher: Sha256,
    left: u64,
}

impl Skipping {
    pub(crate) fn new(skip: u64) -> Skipping
        ensures { HoldsRest skip result [] }
    {
        let hasher = Sha256::new();
        Skipping { hasher, left: skip }
    }

    pub(crate) fn update(&mut self, bytes: &[u8])
        ensures { (skip : ℕ) (taken : List ℕ) → HoldsRest skip self.old taken
            → HoldsRest skip self.new (taken ++ bytes.now) }
    {
        self.hasher.update(behind(bytes, self.left));
        self.left = self.left.saturating_sub(bytes.len() as u64);
    }

    /// The digest of the bytes behind those that were left out.
    pub(crate) fn finalize(self) -> [u8; 32]
        ensures { (skip : ℕ) (taken : List ℕ) → HoldsRest skip self taken
            → result ≡ sha256 (drop skip taken) }
    {
        self.hasher.finalize()
    }
}

/// What stands behind so many bytes.
pub fn behind(bytes: &[u8], skip: u64) -> &[u8]
    ensures { result.now ≡ drop skip bytes.now }
{
    if skip < bytes.len() as u64 {
        &bytes[skip as usize..]
    } else {
        &bytes[bytes.len()..]
    }
}
