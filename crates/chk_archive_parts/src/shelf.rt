//! Records that are read ahead of their turn.

ghost use Rattle.std.specs.Prelude.{◌≡◌, ◌≤◌, ◌<◌, ◌+◌, length, IfOk};
ghost use Rattle.chk_archive_parts.specs.Cuts.{AreWithin};
ghost use Rattle.chk_archive_parts.specs.Slots.{AreEmpty};

use crate::cuts::{Cut, data_of, follows};
use crate::fetching::{fetch, fetch_by_head};
use chk_bytes::{Bytes, NoMemory, Word};
use chk_record_index::{Heads, JobFault};
use chk_record_reader::{Ahead, RecordReader};
use chk_site::{Site, Who};
use std::alloc::Global;

/// What the cuts of a segment and the records that are read ahead may have together, in bytes.
const ROOM: u64 = 47_185_920;

/// What is held of a cut, in bytes.
const CUT: u64 = 8;

/// What is held of a record that is read ahead besides its data, in bytes: a slot and a place.
const SLOT: u64 = 36;

/// Records of so many bytes of data on average aren't read ahead: a read for each costs as much.
const SHORT: u64 = 1024;

/// The bytes of a part of a file that is read at once.
const WINDOW: u64 = 983_040;

/// From so many records of a window on it is read as a whole: that costs as much as reads of these.
const MANY: usize = 192;

/// Where the data of a record stand; of none where they have no bytes.
#[derive(Clone, Copy, Debug)]
struct Slot {
    index: u32,
    start: u32,
    size: u32,
}

/// Shows the data of records that are written in turn. Where many short records of several streams take turns in their files,
/// those of the cuts that come next are read in the order of the files, as many as there is room for, and held until their turn;
/// any other record is read in its turn.
#[derive(Debug, Drop)]
pub(crate) struct Shelf {
    reader: RecordReader,
    bytes: Bytes,
    slots: Vec<Slot>,
    first: usize,
    end: usize,
    start: usize,
    size: usize,
    is_held: bool,
    ghost within: { start + size ≤ length bytes },
}

impl Shelf {
    ghost use Rattle.std.specs.Prelude.{◌≡◌, ◌≤◌, ◌<◌, ◌+◌, ℕ, List, false, length, slice_index_or, IsTrue, IsFalse, IfErr};
    ghost use Rattle.chk_site.specs.History.{Every};
    ghost use Rattle.chk_site.specs.Site.{Adds};
    ghost use Rattle.chk_site.specs.Runs.{anyhow, Leads};
    ghost use Rattle.chk_chunk.specs.Keys.{Chunk};
    ghost use Rattle.chk_world.specs.Sight.{job, Sight};
    ghost use Rattle.chk_world.specs.JobSteps.{IsOf, ReadsFile};
    ghost use Rattle.chk_record_index.specs.Faults.{JobCause, FailsLast, IsOfRead};
    ghost use Rattle.chk_record_index.specs.Heads.{Head};
    ghost use Rattle.chk_record_index.specs.Pieces.{AsksInPieces};
    ghost use Rattle.chk_record_index.specs.Causes.{Shows};
    ghost use Rattle.chk_record_reader.specs.Gone.{IsGoneIn};
    ghost use Rattle.chk_record_reader.specs.ReadBack.{value_held};
    ghost use Rattle.chk_record_reader.specs.Segments.{SparesFiles};
    ghost use Rattle.chk_archive_parts.specs.Cuts.{AreWithin};
    ghost use Rattle.chk_archive_parts.specs.Kept.{value_in};
    ghost use Rattle.chk_archive_parts.specs.Records.{AreRecords};
    ghost use Rattle.chk_archive_parts.specs.Shelves.{AreKept, value_of, value_kept, CanShelve, ShelvedSo, ShownSo};

    /// A shelf that holds nothing. It takes no memory.
    pub(crate) fn new(alloc: Global) -> Shelf
        ensures { (v : Sight) (files : List (List ℕ)) (heads : List Head) → AreKept v files heads result }
    {
        Shelf {
            reader: RecordReader::new(alloc),
            bytes: Bytes::new(alloc),
            slots: Vec::new(alloc),
            first: 0,
            end: 0,
            start: 0,
            size: 0,
            is_held: false,
        }
    }

    /// The value that is shown, without a copy.
    pub(crate) fn value(&self) -> &[u8]
        ensures { result.now ≡ value_kept self.now }
    {
        if self.is_held {
            &self.bytes.as_slice()[self.start..self.start + self.size]
        } else {
            self.reader.value()
        }
    }

    /// Shows the data of the record of the head at `index` where they are held for the cut at `place`.
    fn find(&mut self, place: usize, index: u32) -> bool
        ensures kept { (v : Sight) (files : List (List ℕ)) (heads : List Head) → AreKept v files heads self.old
            → AreKept v files heads self.new }
        ensures found { IsTrue result → (v : Sight) (files : List (List ℕ)) (heads : List Head)
            → AreKept v files heads self.old → value_kept self.new ≡ value_of v files heads index }
        ensures lost { IsFalse result → self.new.is_held ≡ false }
    {
        self.is_held = false;
        let at = place.wrapping_sub(self.first);
        if at >= self.slots.len() {
            return false;
        }
        let slot = self.slots[at];
        let start = slot.start as usize;
        let size = slot.size as usize;
        if slot.index != index || size == 0 || start + size > self.bytes.as_slice().len() {
            return false;
        }
        self.start = start;
        self.size = size;
        self.is_held = true;
        true
    }

    /// Holds the data that the reader has, of the record of the head at `index`, for the cut at this place of the batch.
    fn put(&mut self, at: usize, index: u32) -> Result<(), NoMemory>
        ensures { (v : Sight) (files : List (List ℕ)) (heads : List Head) → value_held self.old.reader ≡ value_of v files heads index
            → AreKept v files heads self.old → AreKept v files heads self.new }
    {
        let value = self.reader.value();
        let slot = slot_of(index, self.bytes.as_slice(), value)?;
        if at < self.slots.len() {
            self.bytes.push_all(value)?;
            self.slots[at] = slot;
        }
        Ok(())
    }

    /// Lets go what is held, and makes room for so many cuts from this place on, whose data have so many bytes.
    fn open(
        &mut self,
        alloc: Global,
        first: usize,
        count: usize,
        size: usize,
    ) -> Result<(), NoMemory>
        ensures { (v : Sight) (files : List (List ℕ)) (heads : List Head) → AreKept v files heads self.old
            → AreKept v files heads self.new }
    {
        self.is_held = false;
        self.start = 0;
        self.size = 0;
        self.slots = Vec::new(alloc);
        self.bytes = Bytes::new(alloc);
        self.slots = empty_slots(alloc, count)?;
        self.bytes = Bytes::with_capacity(alloc, size)?;
        self.first = first;
        Ok(())
    }

    /// Shows the value of the record of the cut at this place, once those that come with it are read ahead.
    pub(crate) fn fetch<S: Site>(
        &mut self,
        alloc: Global,
        site: &mut S,
        who: &Who,
        files: &[Word],
        heads: &Heads,
        cuts: &[Cut],
        place: usize,
    ) -> Result<(), JobFault>
        requires job { who.now ≡ job }
        requires cuts { AreWithin (length heads.now) cuts.now }
        requires place { place < length cuts.now }
        ensures raw { (v : Sight) (cs : List Chunk) → AreRecords v files.now heads.now cs → Adds (S.told site.old) (S.told site.new)
            (Leads (anyhow (SparesFiles files.now)) (CanShelve v files.now heads.now self.old)
            (ShownSo v files.now heads.now (value_in cs (slice_index_or cuts.now place (record { index = 0; skip = 0 })).index) self.new result)) }
        ensures shown { Adds (S.told site.old) (S.told site.new) (Shows (IsGoneIn files.now heads.now) result) }
        ensures own { Adds (S.told site.old) (S.told site.new) (Every (IsOf ReadsFile)) }
        ensures pieces { Adds (S.told site.old) (S.told site.new) (Every AsksInPieces) }
        ensures only { IfErr result IsOfRead }
        ensures last { Adds (S.told site.old) (S.told site.new) (FailsLast result) }
        ensures cause { JobCause (S.fault_count site.old) (S.fault_count site.new) result }
    {
        self.fill(alloc, site, who, files, heads, cuts, place)?;
        self.show(alloc, site, who, files, heads, place, cuts[place].index)
    }

    /// Shows the value of the record of the head at `index`, which is read where it isn't held for the cut at this place.
    fn show<S: Site>(
        &mut self,
        alloc: Global,
        site: &mut S,
        who: &Who,
        files: &[Word],
        heads: &Heads,
        place: usize,
        index: u32,
    ) -> Result<(), JobFault>
        requires job { who.now ≡ job }
        requires index { index < length heads.now }
        ensures raw { (v : Sight) (cs : List Chunk) → AreRecords v files.now heads.now cs → Adds (S.told site.old) (S.told site.new)
            (Leads (anyhow (SparesFiles files.now)) (CanShelve v files.now heads.now self.old)
            (ShownSo v files.now heads.now (value_in cs index) self.new result)) }
        ensures shown { Adds (S.told site.old) (S.told site.new) (Shows (IsGoneIn files.now heads.now) result) }
        ensures own { Adds (S.told site.old) (S.told site.new) (Every (IsOf ReadsFile)) }
        ensures pieces { Adds (S.told site.old) (S.told site.new) (Every AsksInPieces) }
        ensures only { IfErr result IsOfRead }
        ensures last { Adds (S.told site.old) (S.told site.new) (FailsLast result) }
        ensures cause { JobCause (S.fault_count site.old) (S.fault_count site.new) result }
    {
        if self.find(place, index) {
            return Ok(());
        }
        fetch(
            alloc,
            site,
            who,
            &mut self.reader,
            files,
            heads,
            index as usize,
        )
    }

    /// Reads the records of the cuts ahead that come from this place on, where they weren't, and where that is better than to read each
    /// in its turn.
    fn fill<S: Site>(
        &mut self,
        alloc: Global,
        site: &mut S,
        who: &Who,
        files: &[Word],
        heads: &Heads,
        cuts: &[Cut],
        place: usize,
    ) -> Result<(), JobFault>
        requires job { who.now ≡ job }
        requires cuts { AreWithin (length heads.now) cuts.now }
        requires place { place < length cuts.now }
        ensures raw { (v : Sight) (cs : List Chunk) → AreRecords v files.now heads.now cs → Adds (S.told site.old) (S.told site.new)
            (Leads (anyhow (SparesFiles files.now)) (CanShelve v files.now heads.now self.old)
            (ShelvedSo v files.now heads.now self.new result)) }
        ensures shown { Adds (S.told site.old) (S.told site.new) (Shows (IsGoneIn files.now heads.now) result) }
        ensures own { Adds (S.told site.old) (S.told site.new) (Every (IsOf ReadsFile)) }
        ensures pieces { Adds (S.told site.old) (S.told site.new) (Every AsksInPieces) }
        ensures only { IfErr result IsOfRead }
        ensures last { Adds (S.told site.old) (S.told site.new) (FailsLast result) }
        ensures cause { JobCause (S.fault_count site.old) (S.fault_count site.new) result }
    {
        if place < self.end {
            return Ok(());
        }
        let batch = batch_at(heads, cuts, place);
        self.end = batch.end;
        if !batch.is_ahead {
            return Ok(());
        }
        let cuts = &cuts[place..batch.end];
        self.open(alloc, place, cuts.len(), batch.size as usize)?;
        let places = places_of(alloc, heads, cuts)?;
        self.gather(alloc, site, who, files, heads, cuts, places.as_slice())
    }

    /// Reads the records of these cuts in the order of the places, and holds their data.
    fn gather<S: Site>(
        &mut self,
        alloc: Global,
        site: &mut S,
        who: &Who,
        files: &[Word],
        heads: &Heads,
        cuts: &[Cut],
        places: &[Place],
    ) -> Result<(), JobFault>
        requires job { who.now ≡ job }
        requires cuts { AreWithin (length heads.now) cuts.now }
        ensures raw { (v : Sight) (cs : List Chunk) → AreRecords v files.now heads.now cs → Adds (S.told site.old) (S.told site.new)
            (Leads (anyhow (SparesFiles files.now)) (CanShelve v files.now heads.now self.old)
            (ShelvedSo v files.now heads.now self.new result)) }
        ensures shown { Adds (S.told site.old) (S.told site.new) (Shows (IsGoneIn files.now heads.now) result) }
        ensures own { Adds (S.told site.old) (S.told site.new) (Every (IsOf ReadsFile)) }
        ensures pieces { Adds (S.told site.old) (S.told site.new) (Every AsksInPieces) }
        ensures only { IfErr result IsOfRead }
        ensures last { Adds (S.told site.old) (S.told site.new) (FailsLast result) }
        ensures cause { JobCause (S.fault_count site.old) (S.fault_count site.new) result }
    {
        for number in 0..places.len() {
            let at = places[number].cut as usize;
            let ahead = ahead_at(places, number);
            self.gather_one(alloc, site, who, files, heads, cuts, at, ahead)?;
        }
        Ok(())
    }

    /// Reads the record of the cut at this place of the batch, and holds its data.
    fn gather_one<S: Site>(
        &mut self,
        alloc: Global,
        site: &mut S,
        who: &Who,
        files: &[Word],
        heads: &Heads,
        cuts: &[Cut],
        at: usize,
        ahead: Ahead,
    ) -> Result<(), JobFault>
        requires job { who.now ≡ job }
        requires cuts { AreWithin (length heads.now) cuts.now }
        ensures raw { (v : Sight) (cs : List Chunk) → AreRecords v files.now heads.now cs → Adds (S.told site.old) (S.told site.new)
            (Leads (anyhow (SparesFiles files.now)) (CanShelve v files.now heads.now self.old)
            (ShelvedSo v files.now heads.now self.new result)) }
        ensures shown { Adds (S.told site.old) (S.told site.new) (Shows (IsGoneIn files.now heads.now) result) }
        ensures own { Adds (S.told site.old) (S.told site.new) (Every (IsOf ReadsFile)) }
        ensures pieces { Adds (S.told site.old) (S.told site.new) (Every AsksInPieces) }
        ensures only { IfErr result IsOfRead }
        ensures last { Adds (S.told site.old) (S.told site.new) (FailsLast result) }
        ensures cause { JobCause (S.fault_count site.old) (S.fault_count site.new) result }
    {
        if at >= cuts.len() {
            return Ok(());
        }
        let index = cuts[at].index;
        let head = heads.get(index as usize);
        fetch_by_head(
            alloc,
            site,
            who,
            &mut self.reader,
            files,
            heads,
            index as usize,
            &head,
            ahead,
        )?;
        self.put(at, index)?;
        Ok(())
    }
}

/// The slot of data that are put behind these bytes.
fn slot_of(index: u32, bytes: &[u8], value: &[u8]) -> Result<Slot, NoMemory>
    ensures index { IfOk result (λ slot. slot.index ≡ index) }
    ensures start { IfOk result (λ slot. slot.start ≡ length bytes.now) }
    ensures size { IfOk result (λ slot. slot.size ≡ length value.now) }
{
    let start = u32::try_from(bytes.len()).map_err(|_| NoMemory)?;
    let size = u32::try_from(value.len()).map_err(|_| NoMemory)?;
    Ok(Slot { index, start, size })
}

/// So many slots of no record.
fn empty_slots(alloc: Global, count: usize) -> Result<Vec<Slot>, NoMemory>
    ensures { IfOk result (λ slots. AreEmpty slots.items) }
{
    let mut slots = Vec::with_capacity(alloc, count)?;
    for _ in 0..count {
        slots.push(Slot {
            index: 0,
            start: 0,
            size: 0,
        })?;
    }
    Ok(slots)
}

/// Cuts that are written in turn, from one place on.
#[derive(Clone, Copy, Debug)]
struct Batch {
    /// The place past the last one.
    end: usize,
    /// How many bytes of data their records have.
    size: u64,
    /// Their records are read ahead.
    is_ahead: bool,
}

/// The cuts from this place on that fit into the room. They are read ahead where they are of several streams, have less than `SHORT`
/// bytes of data on average, and half of them or more don't follow the one before them closely.
fn batch_at(heads: &Heads, cuts: &[Cut], place: usize) -> Batch
    requires cuts { AreWithin (length heads.now) cuts.now }
    requires place { place < length cuts.now }
    ensures beyond { place < result.end }
    ensures within { result.end ≤ length cuts.now }
{
    let room = ROOM.saturating_sub((cuts.len() as u64).saturating_mul(CUT));
    let mut last = heads.get(cuts[place].index as usize);
    let mut size = data_of(&last);
    let mut apart: u64 = 0;
    let mut count: u64 = 1;
    let mut end = place + 1;
    for cut in &cuts[place + 1..] {
        let head = heads.get(cut.index as usize);
        let grown = size.saturating_add(data_of(&head));
        if grown.saturating_add(count.saturating_mul(SLOT)) > room {
            break;
        }
        if !follows(&last, &head) {
            apart = apart.saturating_add(1);
        }
        size = grown;
        count = count.saturating_add(1);
        last = head;
        end += 1;
    }
    let is_one = heads.are_of_one(cuts[place].index as usize, cuts[end - 1].index as usize);
    Batch {
        end,
        size,
        is_ahead: !is_one && size / SHORT < count && apart >= count / 2,
    }
}

/// Where a record stands, and for which cut it is read.
#[derive(Clone, Copy, Debug, PartialEq, Eq, PartialOrd, Ord)]
struct Place {
    file: u32,
    at: u64,
    cut: u32,
}

/// Where the records of these cuts stand, in the order of the files. No two of these places are
/// alike, so that a sort that takes no memory has one result.
fn places_of(alloc: Global, heads: &Heads, cuts: &[Cut]) -> Result<Vec<Place>, NoMemory>
    requires { AreWithin (length heads.now) cuts.now }
{
    let mut places = Vec::with_capacity(alloc, cuts.len())?;
    for number in 0..cuts.len() {
        let head = heads.get(cuts[number].index as usize);
        let cut = u32::try_from(number).map_err(|_| NoMemory)?;
        places.push(Place {
            file: head.file,
            at: head.at,
            cut,
        })?;
    }
    places.sort_unstable();
    Ok(places)
}

/// How far a read of the record at this place goes on: over the whole window where many of the places are in it. It costs a look at
/// one place.
fn ahead_at(places: &[Place], number: usize) -> Ahead
    requires { number < length places.now }
{
    let first = places[number];
    match places.get(number.saturating_add(MANY)) {
        Some(last) if last.file == first.file && last.at / WINDOW == first.at / WINDOW => {
            Ahead::Window
        }
        _ => Ahead::Next,
    }
}
