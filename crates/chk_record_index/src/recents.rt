//! The keys that were read not long ago: most records are of the stream of one of them, where one stream goes on and where some
//! take turns.

ghost use Rattle.std.specs.Prelude.{◌≤◌, List, IfSome};
ghost use Rattle.chk_record_index.specs.declared.origins.Origin.{Origin};
ghost use Rattle.chk_record_index.specs.HeadRows.{AreKept, IsKnown};
ghost use Rattle.chk_record_index.specs.Recents.{StayKept, KeepKey};

use crate::recent::{Recent, SEQ_END};
use chk_bytes::NoMemory;
use std::alloc::Global;

/// How many keys are kept at most: four for each of the 16 numbers that the high bits of a mark make.
const PLACES: usize = 64;

/// At how many places a key is looked for.
const WAYS: usize = 4;

/// By how many bits a mark is shifted to be below 16.
const SHIFT: u32 = 60;

/// An odd number without a pattern. A word times it depends on each bit of the word in its high bits.
const SPREAD: u64 = 0x9E37_79B9_7F4A_7C15;

/// By how many bits that number is turned behind each word, so that the order of the words counts.
const TURN: u32 = 7;

/// How many keys are all kept at first.
const FIRST_KEPT: usize = 128;

/// Of how many later keys one is kept.
const TAKES_OVER: usize = 8;

/// Keys that were read not long ago, each at one of the places for its mark. There are no places before the first one.
#[derive(Debug, Drop)]
pub(crate) struct Recents {
    places: Vec<Recent>,
    /// The place where a key was found or kept last.
    last: usize,
    /// How many keys weren't found, as far as a number goes.
    missed: usize,
}

/// What is known of a key by a kept one that it is but for its sequence id: that id, and the start and the number of the
/// origin, which are the kept one's.
#[derive(Clone, Copy, Debug)]
pub(crate) struct Next {
    pub seq: u64,
    pub start: u64,
    pub origin: u32,
}

impl Recents {
    /// No keys. It takes no memory before the first one comes.
    pub(crate) fn new(alloc: Global) -> Recents
        ensures { (origins : List Origin) → AreKept origins result }
    {
        Recents {
            places: Vec::new(alloc),
            last: 0,
            missed: 0,
        }
    }

    /// What is known of this key, where a kept one is the same but for the sequence id. A stream that goes on is found by one
    /// comparison, since the place that was found last is tried first.
    pub(crate) fn next_of(&mut self, key: &[u8]) -> Option<Next>
        ensures next { IfSome result (λ next. (origins : List Origin) → AreKept origins self.old
            → IsKnown origins key.now next) }
        ensures kept { StayKept self.old self.new }
    {
        if let Some(next) = self.next_at(self.last, key) {
            return Some(next);
        }
        let place = self.marked(mark_of(key))?;
        let next = self.next_at(place, key)?;
        self.last = place;
        Some(next)
    }

    /// The same by the key at one place alone.
    #[inline(always)]
    fn next_at(&self, place: usize, key: &[u8]) -> Option<Next>
        ensures { IfSome result (λ next. (origins : List Origin) → AreKept origins self.now
            → IsKnown origins key.now next) }
    {
        let recent = self.places.get(place)?;
        let seq = recent.seq_of(key)?;
        Some(Next {
            seq,
            start: recent.start,
            origin: recent.origin,
        })
    }

    /// The place with this mark.
    fn marked(&self, mark: u64) -> Option<usize> {
        let first = first_place(mark);
        for place in first..first + WAYS {
            if self
                .places
                .get(place)
                .is_some_and(|recent| recent.mark == mark)
            {
                return Some(place);
            }
        }
        None
    }

    /// Keeps a key that wasn't found, where its stream goes on or few came before. Of others one in eight is kept: so few are
    /// copied in vain where very many streams take turns, and yet a stream that has ended leaves its place.
    pub(crate) fn keep(
        &mut self,
        alloc: Global,
        goes_on: bool,
        key: &[u8],
        start: u64,
        origin: u32,
    ) -> Result<(), NoMemory>
        ensures { KeepKey self.old self.new key.now start origin }
    {
        self.missed = self.missed.wrapping_add(1);
        if !goes_on && self.missed > FIRST_KEPT && self.missed % TAKES_OVER != 0 {
            return Ok(());
        }
        self.make_places(alloc)?;
        let mark = mark_of(key);
        let place = self.place_for(mark, origin);
        if let Some(recent) = self.places.get_mut(place) {
            recent.set(mark, key, start, origin)?;
            self.last = place;
        }
        Ok(())
    }

    /// Of the places for a mark the one that is free or has a key of this origin, else each in its turn.
    fn place_for(&self, mark: u64, origin: u32) -> usize {
        let first = first_place(mark);
        for place in first..first + WAYS {
            if self
                .places
                .get(place)
                .is_some_and(|recent| recent.is_for(origin))
            {
                return place;
            }
        }
        first + self.missed / TAKES_OVER % WAYS
    }

    /// Makes the places, where they aren't there.
    fn make_places(&mut self, alloc: Global) -> Result<(), NoMemory>
        ensures { StayKept self.old self.new }
    {
        while self.places.len() < PLACES {
            self.places.push(Recent::new(alloc))?;
        }
        Ok(())
    }
}

/// The first of the places for a mark.
fn first_place(mark: u64) -> usize
    ensures { result ≤ 60 }
{
    (mark >> SHIFT) as usize * WAYS
}

/// The mark of a key: a hash of the bytes behind its sequence id, on which nothing but speed rests. The last eight are a word
/// too, so that those behind the whole words count.
fn mark_of(key: &[u8]) -> u64 {
    let tail = &key[key.len().min(SEQ_END)..];
    let (words, _) = tail.as_chunks::<8>();
    let mut hash = tail
        .last_chunk::<8>()
        .map_or(0, |word| u64::from_le_bytes(*word));
    let mut factor = SPREAD;
    for word in words {
        hash = hash.wrapping_add(u64::from_le_bytes(*word).wrapping_mul(factor));
        factor = factor.rotate_left(TURN);
    }
    (hash ^ hash >> 32).wrapping_mul(SPREAD)
}
