//! Which chunks weren't seen before.

ghost use Rattle.std.specs.Prelude.{◌≡◌, [], IfOk, OnOk, OnErr, IfSome, IfNone, set};
ghost use Rattle.chk_tee_sender.specs.Sieves.{mark_of, later, greater, is_fresh, asked_for, IsFirst, HasNone};

use chk_bytes::{NoMemory, Stem};
use std::alloc::Global;
use std::marker::Model;

/// The greatest place that it was asked for of each collector. It keeps its allocator, and has one
/// entry a collector.
#[derive(Drop)]
pub struct Sieve {
    marks: Vec<Mark>,
}

/// A place: a sink, and an offset in it.
#[derive(Clone, Copy)]
pub struct Mark {
    pub stem: Stem,
    pub offset: u64,
}

impl Model for Sieve {
    ghost use Rattle.std.specs.Prelude.{List};
    ghost use Rattle.chk_tee_sender.specs.declared.sieve.Mark.{Mark as Place};

    ghost Value = { List Place };

    ghost view = { λ s. s.marks.items };
}

impl Sieve {
    /// The sieve that was asked for nothing yet.
    pub fn new(alloc: Global) -> Sieve
        ensures { result ≡ [] }
    {
        Sieve {
            marks: Vec::new(alloc),
        }
    }

    /// The place is above each one that it was asked for of the same collector, in the order of the
    /// collector's start, the sink's number and the offset. It costs the number of collectors.
    pub fn fresh(&mut self, stem: Stem, offset: u64) -> Result<bool, NoMemory>
        ensures fresh { IfOk result (λ fresh. fresh ≡ is_fresh self.old (mark_of stem offset)) }
        ensures ok { OnOk result (self.new ≡ asked_for self.old (mark_of stem offset)) }
        ensures err { OnErr result (self.new ≡ self.old) }
    {
        match find(&self.marks, &stem, offset) {
            Some(i) => Ok(raise(&mut self.marks[i], stem, offset)),
            None => {
                self.marks.push(Mark { stem, offset })?;
                Ok(true)
            }
        }
    }
}

// The place of the collector's entry.
fn find(marks: &[Mark], stem: &Stem, offset: u64) -> Option<usize>
    ensures some { IfSome result (λ i. IsFirst marks.now (mark_of stem.now offset) i) }
    ensures none { IfNone result (HasNone marks.now (mark_of stem.now offset)) }
{
    let name = stem.name();
    for (i, mark) in marks.iter().enumerate() {
        if mark.stem.name() == name {
            return Some(i);
        }
    }
    None
}

// Makes the entry the place, where that is above it, and says whether it is.
fn raise(mark: &mut Mark, stem: Stem, offset: u64) -> bool
    ensures fresh { result ≡ later mark.old (mark_of stem offset) }
    ensures mark { mark.new ≡ greater mark.old (mark_of stem offset) }
{
    let fresh = is_later(mark, &stem, offset);
    if fresh {
        mark.stem = stem;
        mark.offset = offset;
    }
    fresh
}

// The place is above the entry.
fn is_later(mark: &Mark, stem: &Stem, offset: u64) -> bool
    ensures { result ≡ later mark.now (mark_of stem.now offset) }
{
    let old = &mark.stem;
    old.born() < stem.born()
        || (old.born() == stem.born()
            && (old.number() < stem.number()
                || (old.number() == stem.number() && mark.offset < offset)))
}
