//! The stages of the peers that are held, in the order in which they came.
ghost use Rattle.std.specs.Prelude.{◌≡◌, ◌<◌, ◌≤◌, ◌∷◌, ◌++◌, [], length, position, slice_get, slice_index_or, slice_set, IfNone, IfSome, OnErr, OnOk};
ghost use Rattle.chk_site_peers.specs.declared.stages.Stage.TheVariants.{Gone};
ghost use Rattle.chk_site_peers.specs.Stages.{ended_at, first_or, gone_at, leaving, next_of, silent_at, stale_at, whole_at, IsTaken};

use crate::stages::Stage;
use chk_bytes::NoMemory;
use std::alloc::Global;

/// The stages of the peers that are held, the oldest first.
#[derive(Drop)]
pub struct StageList {
    pub held: Vec<Stage>,
}

impl StageList {
    pub fn new(alloc: Global) -> StageList
        ensures { result.held.items ≡ [] }
    {
        StageList {
            held: Vec::new(alloc),
        }
    }

    /// A peer that came. Without memory nothing has changed.
    pub fn add(&mut self, stage: Stage) -> Result<(), NoMemory>
        ensures ok { OnOk result (self.new.held.items ≡ self.old.held.items ++ stage ∷ []) }
        ensures err { OnErr result (self.new.held.items ≡ self.old.held.items) }
    {
        self.held.push(stage)?;
        Ok(())
    }

    /// The stage of the peer at this place; gone where there is none.
    pub fn at(&self, place: usize) -> Stage
        ensures { result ≡ slice_index_or self.now.held.items place Gone }
    {
        if place < self.held.len() {
            return self.held[place];
        }
        Stage::Gone
    }

    /// The peer at this place came to this stage.
    pub fn set(&mut self, place: usize, stage: Stage)
        ensures there { place < length self.old.held.items → self.new.held.items ≡ slice_set self.old.held.items place stage }
        ensures none { length self.old.held.items ≤ place → self.new.held.items ≡ self.old.held.items }
        ensures len { length self.new.held.items ≡ length self.old.held.items }
    {
        if place < self.held.len() {
            self.held[place] = stage;
        }
    }

    /// Takes the peer at this place out; the others keep their order.
    pub fn take(&mut self, place: usize) -> Option<Stage>
        ensures taken { IfSome result (IsTaken self.old.held.items self.new.held.items place) }
        ensures none { IfNone result (self.new.held.items ≡ self.old.held.items) }
        ensures absent { IfNone result (length self.old.held.items ≤ place) }
    {
        if place < self.held.len() {
            return Some(self.held.remove(place));
        }
        None
    }

    /// The place of the peer that is served next: the oldest one whose message is whole; where there is
    /// none the oldest one that is stale, and behind those the oldest one that ended.
    pub fn next(&self) -> Option<usize>
        ensures { result ≡ next_of self.now.held.items }
    {
        match self.first_whole() {
            Some(place) => Some(place),
            None => self.next_late(),
        }
    }

    /// The place of the peer that goes where another one needs its place: the oldest silent one, and
    /// where there is none the oldest one that ended.
    pub fn leaving(&self) -> Option<usize>
        ensures { result ≡ leaving self.now.held.items }
    {
        match self.first_silent() {
            Some(place) => Some(place),
            None => self.first_ended(),
        }
    }

    /// The place of the oldest peer that is gone.
    pub fn first_gone(&self) -> Option<usize>
        ensures { result ≡ position gone_at self.now.held.items }
    {
        self.held.iter().position(|stage| stage.is_gone())
    }

    // Where no message is fresh.
    fn next_late(&self) -> Option<usize>
        ensures { result ≡ first_or (position stale_at self.now.held.items) (position ended_at self.now.held.items) }
    {
        match self.first_stale() {
            Some(place) => Some(place),
            None => self.first_ended(),
        }
    }

    fn first_stale(&self) -> Option<usize>
        ensures { result ≡ position stale_at self.now.held.items }
    {
        self.held.iter().position(|stage| stage.is_stale())
    }

    fn first_whole(&self) -> Option<usize>
        ensures { result ≡ position whole_at self.now.held.items }
    {
        self.held.iter().position(|stage| stage.is_whole())
    }

    fn first_ended(&self) -> Option<usize>
        ensures { result ≡ position ended_at self.now.held.items }
    {
        self.held.iter().position(|stage| stage.is_ended())
    }

    fn first_silent(&self) -> Option<usize>
        ensures { result ≡ position silent_at self.now.held.items }
    {
        self.held.iter().position(|stage| stage.is_silent())
    }
}
