//! A log that is read on, and what was read of it and isn't compared yet.

ghost use Rattle.std.specs.Prelude.{◌≡◌, ◌<◌, ◌≤◌, ◌-◌, true, false, List, ℕ, drop, get_or};
ghost use Rattle.std.specs.Prelude.{length, take, Option};
ghost use Rattle.chk_site.specs.History.{Every, History};
ghost use Rattle.chk_site.specs.Site.{Adds, OutsideCause};
ghost use Rattle.chk_rotate.specs.Readers.{Reader};
ghost use Rattle.chk_world.specs.JobSteps.{IsOf};
ghost use Rattle.chk_world.specs.Sight.{job};
ghost use Rattle.chk_ctl_audit_log.specs.Placing.{ReadsLogOf};
ghost use Rattle.chk_ctl_audit_log.specs.Ahead.{left_of, place_of, Filled, LogAt, Passed, Takes};

use chk_bytes::Bytes;
use chk_ctl_sum::behind;
use chk_rotate::RotTail;
use chk_site::{OutsideFault, Site, Who};
use chk_tail::Step;
use std::alloc::Global;

/// A log, and a piece of it of which the first bytes are compared.
#[derive(Drop)]
pub(crate) struct Ahead {
    pub reader: RotTail,
    pub bytes: Bytes,
    pub used: usize,
}

/// What a look at the next bytes comes to.
pub(crate) enum Next {
    /// So many are the same.
    Same(usize),
    /// The first one, at this offset, is another one.
    Differs(u64),
    /// The log has no more; this is the offset of the first one that it doesn't have.
    Ends(u64),
}

impl Ahead {
    /// The offset of the next byte that isn't compared.
    pub(crate) fn place(&self) -> u64
        ensures { result ≡ place_of self.now }
    {
        let left = self.left().len() as u64;
        self.reader.read_end().saturating_sub(left)
    }

    /// What was read and isn't compared.
    pub(crate) fn left(&self) -> &[u8]
        ensures { result.now ≡ left_of self.now }
    {
        behind(self.bytes.as_slice(), self.used as u64)
    }

    /// Takes the piece of this step as what is to be compared. Says whether it has one.
    fn take(&mut self, step: Step) -> bool
        ensures { Takes step self.old self.new result }
    {
        match step {
            Step::Bytes { bytes, .. } => {
                self.bytes = bytes;
                self.used = 0;
                true
            }
            _ => false,
        }
    }

    /// Not all that was read is compared.
    fn has_left(&self) -> bool
        ensures some { result ≡ true → self.now.used < length self.now.bytes }
        ensures none { result ≡ false → length self.now.bytes ≤ self.now.used }
    {
        self.used < self.bytes.len()
    }

    /// Compares these bytes with what was read, as far as both go, and passes those that are the
    /// same.
    pub(crate) fn pass(&mut self, rest: &[u8]) -> Next
        requires some { 0 < length rest.now }
        ensures { Passed rest.now self.old self.new result }
    {
        let left = self.left();
        let count = agreed(rest, left);
        if count == 0 {
            return Next::Differs(self.place());
        }
        self.used = self.bytes.len() - (left.len() - count);
        Next::Same(count)
    }

    /// Reads on where all is compared. Says whether there are bytes to be compared.
    pub(crate) fn fill<S: Site>(
        &mut self,
        alloc: Global,
        site: &mut S,
        who: &Who,
    ) -> Result<bool, OutsideFault>
        requires job { who.now ≡ job }
        ensures told { (from : Reader) (passed : List ℕ) (before : Option History)
            → LogAt who.now from passed self.old before (S.told site.old)
            → Filled who.now from passed self.new before result (S.told site.new) }
        ensures own { Adds (S.told site.old) (S.told site.new)
            (Every (IsOf (ReadsLogOf self.old.reader.path))) }
        ensures path { self.new.reader.path ≡ self.old.reader.path }
        ensures cause { OutsideCause (S.fault_count site.old) (S.fault_count site.new) result }
    {
        if self.has_left() {
            return Ok(true);
        }
        match self.reader.step(alloc, site, who) {
            Ok(step) => Ok(self.take(step)),
            Err(fault) => Err(fault),
        }
    }
}

/// How many of the first bytes are the same.
fn agreed(one: &[u8], other: &[u8]) -> usize
    ensures same { take result one.now ≡ take result other.now }
    ensures one { result ≤ length one.now }
    ensures other { result ≤ length other.now }
    ensures differ { result < length one.now → result < length other.now
        → get_or one.now result 0 ≡ get_or other.now result 0 → ⊥ }
{
    let count = one.len().min(other.len());
    for index in 0..count {
        if !are_same(one, other, index) {
            return index;
        }
    }
    count
}

/// Both have the same byte there.
fn are_same(one: &[u8], other: &[u8], index: usize) -> bool
    requires one { index < length one.now }
    requires other { index < length other.now }
    ensures same { result ≡ true → get_or one.now index 0 ≡ get_or other.now index 0 }
    ensures differ { result ≡ false → get_or one.now index 0 ≡ get_or other.now index 0 → ⊥ }
{
    one[index] == other[index]
}
