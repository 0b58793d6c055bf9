//! The peers that a door holds: their streams, and how far their messages came.
ghost use Rattle.std.specs.Prelude.{◌≡◌, ◌<◌, ◌≤◌, ◌↔◌, ◌∷◌, ◌++◌, [], length, remove, slice_get, slice_set, slice_index_or, IfNone, IfOk, IfSome, IsSome, IsTrue, OnErr, OnOk};
ghost use Rattle.chk_site_peers.specs.declared.stages.Stage.TheVariants.{Gone};
ghost use Rattle.chk_site_peers.specs.Stages.{leaving};
ghost use Rattle.chk_site_peers.specs.Held.{callers_left, stages_left, without, IsAged};
ghost use Rattle.chk_site_peers.specs.Moments.{IsNear};

use crate::callers::{Caller, STALE_MS};
use crate::{Stage, StageList};
use chk_bytes::NoMemory;
use std::alloc::Global;
use std::net::Net;
use std::time::{Clock, Duration};

/// How many bytes of messages are held before no more is read: 8 of the longest ones.
pub const ROOM: usize = 33_685_504;

/// The peers that came and weren't served yet, the oldest first.
#[derive(Drop)]
pub struct Held<R: Net> {
    /// How far the message of each one came, in the order of the callers.
    pub stages: StageList,
    pub callers: Vec<Caller<R>>,
}

impl<R: Net + Clock> Held<R> {
    pub fn new(alloc: Global) -> Held<R>
        ensures stages { result.stages.held.items ≡ [] }
        ensures callers { result.callers.items ≡ [] }
    {
        Held {
            stages: StageList::new(alloc),
            callers: Vec::new(alloc),
        }
    }

    pub fn len(&self) -> usize
        ensures { result ≡ length self.now.callers.items }
    {
        self.callers.len()
    }

    /// Holds a peer that came to this stage.
    pub fn add(&mut self, stage: Stage, caller: Caller<R>) -> Result<(), NoMemory>
        ensures stages { OnOk result (self.new.stages.held.items ≡ self.old.stages.held.items ++ stage ∷ []) }
        ensures callers { OnOk result (self.new.callers.items ≡ self.old.callers.items ++ caller ∷ []) }
        ensures err { OnErr result (self.new.callers.items ≡ self.old.callers.items) }
    {
        self.callers.reserve(1)?;
        self.stages.add(stage)?;
        self.callers.push(caller)?;
        Ok(())
    }

    /// Takes the peer at this place out.
    pub fn take(&mut self, place: usize) -> Option<Caller<R>>
        ensures there { IfSome result (λ _. place < length self.old.callers.items) }
        ensures stages { self.new.stages.held.items ≡ remove self.old.stages.held.items place }
        ensures callers { place < length self.old.stages.held.items
            → self.new.callers.items ≡ remove self.old.callers.items place }
        ensures none { IfNone result (self.new.callers.items ≡ self.old.callers.items) }
    {
        let _stage = self.stages.take(place)?;
        if place < self.callers.len() {
            return Some(self.callers.remove(place));
        }
        None
    }

    /// The oldest silent one goes, or the oldest one that ended; false where there is neither.
    pub fn let_one_go(&mut self) -> bool
        ensures tells { IsTrue result ↔ IsSome (leaving self.old.stages.held.items) }
        ensures stages { self.new.stages.held.items
            ≡ without (leaving self.old.stages.held.items) self.old.stages.held.items }
        ensures callers { self.new.callers.items
            ≡ without (leaving self.old.stages.held.items) self.old.callers.items }
    {
        match self.stages.leaving() {
            Some(place) => {
                let _gone = self.take(place);
                true
            }
            None => false,
        }
    }

    /// Lets those go that are gone; the others keep their order.
    pub fn sweep(&mut self)
        ensures stages { self.new.stages.held.items ≡ stages_left self.old.stages.held.items }
        ensures callers { self.new.callers.items
            ≡ callers_left self.old.callers.items self.old.stages.held.items }
    {
        while let Some(place) = self.stages.first_gone() {
            let _gone = self.take(place);
        }
    }

    /// Reads once at each peer whose message isn't whole. Where there is no room for more, only the
    /// oldest one that has begun is read. It tells whether bytes came.
    pub fn hear_all(&mut self, rt: &R, buffer: &mut Vec<u8>) -> Result<bool, NoMemory>
        ensures stages { length self.new.stages.held.items ≡ length self.old.stages.held.items }
        ensures callers { length self.new.callers.items ≡ length self.old.callers.items }
    {
        let now = rt.monotonic().ok();
        let mut room = self.room();
        let mut has_begun = false;
        let mut has_moved = false;
        for place in 0..self.callers.len() {
            let is_silent = self.stages.at(place).is_silent();
            if room > 0 || (!is_silent && !has_begun) {
                let count = self.hear(rt, now, place, buffer)?;
                room = room.saturating_sub(count);
                has_moved = has_moved || count > 0;
            }
            has_begun = has_begun || !is_silent;
        }
        Ok(has_moved)
    }

    // Reads once at a peer whose message isn't whole or is stale, and tells how many bytes came.
    fn hear(
        &mut self,
        rt: &R,
        now: Option<Duration>,
        place: usize,
        buffer: &mut Vec<u8>,
    ) -> Result<usize, NoMemory>
        ensures stages { length self.new.stages.held.items ≡ length self.old.stages.held.items }
        ensures callers { length self.new.callers.items ≡ length self.old.callers.items }
    {
        let stage = self.aged(now, place);
        self.stages.set(place, stage);
        if stage.is_open() || stage.is_stale() {
            return self.hear_at(rt, place, buffer);
        }
        Ok(0)
    }

    // The stage that the peer has at this moment.
    fn aged(&self, now: Option<Duration>, place: usize) -> Stage
        ensures { IfSome (slice_get self.now.callers.items place) (λ caller.
            IsAged (slice_index_or self.now.stages.held.items place Gone)
            (IsNear caller.quiet.end now STALE_MS) (IsNear caller.end.end now 0) result) }
    {
        let stage = self.stages.at(place);
        match self.callers.get(place) {
            Some(caller) => caller.aged(now, stage),
            None => stage,
        }
    }

    /// Reads once at the peer at this place, and tells how many bytes came. Where there is no memory for
    /// them, the peer is gone.
    pub fn hear_at(&mut self, rt: &R, place: usize, buffer: &mut Vec<u8>) -> Result<usize, NoMemory>
        ensures stages { length self.new.stages.held.items ≡ length self.old.stages.held.items }
        ensures callers { length self.new.callers.items ≡ length self.old.callers.items }
    {
        let stage = self.stages.at(place);
        let Some(caller) = self.callers.get_mut(place) else {
            return Ok(0);
        };
        let before = caller.bytes.len();
        let heard = caller.hear(rt, stage, buffer);
        let after = caller.bytes.len();
        match heard {
            Ok(stage) => {
                self.stages.set(place, stage);
                Ok(after.saturating_sub(before))
            }
            Err(fault) => {
                self.stages.set(place, Stage::Gone);
                Err(fault)
            }
        }
    }

    // How many bytes more may be held.
    fn room(&self) -> usize {
        let mut room = ROOM;
        for caller in &self.callers {
            room = room.saturating_sub(caller.bytes.len());
        }
        room
    }
}
