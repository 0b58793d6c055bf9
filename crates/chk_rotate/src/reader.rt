// A reader of a log over its generations.
ghost use Rattle.std.specs.Prelude.{◌≡◌, ◌↔◌, ◌+◌, ◌^◌, ◌<◌, ◌≤◌, IfOk, OnOk, OnErr, IsTrue};
ghost use Rattle.std.specs.Prelude.{is_some, length};
ghost use Rattle.chk_site.specs.Site.{Adds, answered, piece_given, Calls, CauseOf};
ghost use Rattle.chk_site.specs.Site.{LastFailed, MayBeShort, OutsideCause};
ghost use Rattle.chk_tail.specs.Given.{IsGiven, AreGiven};
ghost use Rattle.chk_tail.specs.Taking.{asks_at};
ghost use Rattle.chk_tail.specs.Walks.{reading, in_file, EndsAfter};
ghost use Rattle.chk_rotate.specs.Marks.{place_of, forgotten, BeginsBelow};
ghost use Rattle.chk_rotate.specs.Readers.{spot_of, reader_at, IsRising, way_of};
ghost use Rattle.chk_rotate.specs.Readers.{Stepped, sent_back, rewound};
ghost use Rattle.chk_rotate.specs.ReaderFields.{given_of, mark_spot, past_piece, Walked};

use crate::place::{Mark, Place, drop_first, known_to};
use chk_bytes::{NoMemory, Word};
use chk_site::{Call, CallFault, OutsideFault, Part, Piece, Site, Who};
use chk_tail::{Step, ask, take_of};
use std::alloc::Global;
use std::marker::Model;

/// Reads a log from a place on, a piece at a time: the rotated generations in order of suffixes,
/// then the base file. It holds the path, and for each generation that it passed and that wasn't
/// forgotten a suffix and an offset.
#[derive(Drop)]
pub struct RotTail {
    path: Word,
    lines: bool,
    marks: Vec<Mark>,
    offset: u64,
}

impl Model for RotTail {
    ghost use Rattle.chk_rotate.specs.Readers.{Reader};

    ghost Value = { Reader };

    ghost use Rattle.chk_rotate.specs.ReaderFields.{reader_view, IsSoundReader};

    ghost view = { reader_view };

    ghost invariant = { IsSoundReader };
}

impl RotTail {
    /// A reader of the log at `path` from the place on. With `lines` what a step gives ends behind
    /// a newline or at the end of a rotated generation, but for pieces of `PIECE_BYTES` that have
    /// no newline.
    pub fn new(alloc: Global, path: Word, lines: bool, place: Place) -> Result<RotTail, NoMemory>
        requires begun { place.first ≤ place.offset }
        ensures { IfOk result (λ r. r ≡ reader_at path lines (spot_of place)) }
    {
        let mut marks = Vec::new(alloc);
        marks.push(Mark {
            after: place.after,
            first: place.first,
        })?;
        Ok(RotTail {
            path,
            lines,
            marks,
            offset: place.offset,
        })
    }

    /// Reads at most `PIECE_BYTES` at the place and goes on behind those that it gives. Generations
    /// that end there are passed first; each costs a read, a suffix and an offset. `AtEnd` comes
    /// where the base file gives nothing: it has no byte there, or with `lines` no newline in fewer
    /// than `PIECE_BYTES`. `Outside` comes where a read failed, and `NoMemory` where there was none
    /// for its piece or for a generation that it ended. After a refusal the reader is as it was,
    /// and so it is where the generation is shorter than the place, but for generations that were
    /// passed before.
    pub fn step<S: Site>(
        &mut self,
        alloc: Global,
        site: &mut S,
        who: &Who,
    ) -> Result<Step, OutsideFault>
        ensures told { Stepped who.now self.old result self.new
            (S.told site.old) (S.told site.new) }
        ensures last { Adds (S.told site.old) (S.told site.new) (LastFailed result) }
        ensures rises { IsRising self.new }
        ensures given { IfOk result IsGiven }
        ensures cause { OutsideCause (S.fault_count site.old) (S.fault_count site.new) result }
    {
        let passed = self.marks();
        let result = self.walk(alloc, site, who);
        if result.is_err() {
            self.marks.truncate(passed);
        }
        result
    }

    // Reads on until a read decides what the step gives.
    fn walk<S: Site>(
        &mut self,
        alloc: Global,
        site: &mut S,
        who: &Who,
    ) -> Result<Step, OutsideFault>
        ensures told { Walked who.now self.old result self.new (S.told site.old) (S.told site.new) }
        ensures offset { OnErr result (self.new.read.offset ≡ self.old.read.offset) }
        ensures given { IfOk result IsGiven }
        ensures cause { OutsideCause (S.fault_count site.old) (S.fault_count site.new) result }
    {
        loop {
            match self.read(alloc, site, who) {
                Ok(piece) => {
                    if let Some(step) = self.give(piece)? {
                        return Ok(step);
                    }
                }
                Err(CallFault::Short { size }) => {
                    return Ok(Step::Shrank {
                        had: self.in_file(),
                        is: size,
                    });
                }
                Err(CallFault::Failed) => return Err(OutsideFault::Outside {
                    call: Call::LogRead,
                }),
                Err(CallFault::NoMemory) => return Err(OutsideFault::NoMemory),
                Err(_) => unreachable!(),
            }
        }
    }

    // Reads the generation at the place.
    fn read<S: Site>(&self, alloc: Global, site: &mut S, who: &Who) -> Result<Piece, CallFault>
        ensures told { Adds (S.told site.old) (S.told site.new)
            (Calls (reading (way_of who.now self.now) self.now.read)
            (answered piece_given result)) }
        ensures most { IfOk result (λ piece. length piece.bytes ≤ asks_at self.now.read.offset) }
        ensures past { IfOk result (λ piece.
            EndsAfter (way_of who.now self.now) self.now.read piece.ended) }
        ensures only { MayBeShort result }
        ensures few { length self.now.marks < 2 ^ 64 }
        ensures cause { CauseOf (S.fault_count site.old) (S.fault_count site.new) result }
    {
        let part = Part::After(self.newest().after.as_ref());
        let max = ask(self.offset);
        site.log_read(alloc, who, self.path.as_str(), part, self.in_file(), max)
    }

    // Where the generation read begins.
    fn newest(&self) -> &Mark
        ensures place { self.now.read
            ≡ record (mark_spot result.now) { offset = self.now.read.offset } }
        ensures begun { result.now.first ≤ self.now.read.offset }
        ensures few { length self.now.marks < 2 ^ 64 }
    {
        let marks = self.marks.as_slice();
        &marks[marks.len() - 1]
    }

    // The place read in its generation.
    fn in_file(&self) -> u64
        ensures { result ≡ in_file self.now.read }
    {
        self.offset - self.newest().first
    }

    // Goes on behind what is taken of the piece, and gives it; none where it only ends a
    // generation.
    fn give(&mut self, piece: Piece) -> Result<Option<Step>, NoMemory>
        requires room { length piece.bytes ≤ asks_at self.old.read.offset }
        ensures step { IfOk result (λ step. step ≡ given_of self.old piece) }
        ensures given { IfOk result AreGiven }
        ensures ok { OnOk result (self.new ≡ past_piece piece self.old) }
        ensures err { OnErr result (self.new ≡ self.old) }
        ensures wanted { OnErr result (IsTrue (is_some piece.ended)) }
    {
        let count = take_of(self.lines, &piece);
        let end = self.offset + count as u64;
        let mut bytes = piece.bytes;
        if let Some(suffix) = piece.ended {
            self.marks.push(Mark {
                after: Some(suffix),
                first: end,
            })?;
            if count == 0 {
                return Ok(None);
            }
        } else if count == 0 {
            return Ok(Some(Step::AtEnd));
        }
        self.offset = end;
        bytes.truncate(count);
        Ok(Some(Step::Bytes { bytes, end }))
    }

    /// How many generations it keeps: those that it passed and has not forgotten, and the one that
    /// it reads.
    pub fn marks(&self) -> usize
        ensures count { result ≡ length self.now.marks }
        ensures rises { IsRising self.now }
    {
        self.marks.len()
    }

    /// The offset up to which the log was read.
    pub fn read_end(&self) -> u64
        ensures { result ≡ self.now.read.offset }
    {
        self.offset
    }

    /// Whether the offset lies between the beginning of the oldest generation that it keeps and the
    /// place read, so that `place_of` and `back` may be asked.
    pub fn keeps(&self, committed: u64) -> bool
        ensures { IsTrue result
            ↔ (BeginsBelow committed self.now.marks × (committed ≤ self.now.read.offset)) }
    {
        self.marks[0].first <= committed && committed <= self.offset
    }

    /// The place with the offset `committed` in the newest generation that begins at or below it,
    /// of those that it passed and has not forgotten. It looks at each of them, and copies a
    /// suffix.
    pub fn place_of(&self, committed: u64) -> Result<Place, NoMemory>
        requires from { BeginsBelow committed self.now.marks }
        requires to { committed ≤ self.now.read.offset }
        ensures { IfOk result (λ place. spot_of place ≡ place_of self.now.marks committed) }
    {
        let known = known_to(&self.marks, committed);
        self.marks[known - 1].place(committed)
    }

    /// Drops the generations that lie below the offset `committed`. The newest one that begins at
    /// or below it stays, and so does the last one.
    pub fn forget(&mut self, committed: u64)
        ensures forgotten { self.new
            ≡ record self.old { marks = forgotten committed self.old.marks } }
        ensures rises { IsRising self.new }
    {
        let below = known_to(&self.marks, committed).saturating_sub(1);
        drop_first(&mut self.marks, below);
    }

    /// Goes back to where it stood when it kept so many generations and had read up to the offset,
    /// if it has only gone on since. Where it can't have stood so, the oldest generation stays, and
    /// an offset below the newest one that stays counts as its beginning.
    pub fn rewind(&mut self, marks: usize, offset: u64)
        ensures back { self.new ≡ rewound marks offset self.old }
        ensures rises { IsRising self.new }
    {
        self.marks.truncate(marks.max(1));
        self.offset = offset.max(self.newest().first);
    }

    /// Sets the place read to `place_of` that offset. It takes no memory.
    pub fn back(&mut self, committed: u64)
        requires from { BeginsBelow committed self.old.marks }
        requires to { committed ≤ self.old.read.offset }
        ensures back { self.new ≡ sent_back committed self.old }
        ensures rises { IsRising self.new }
    {
        let known = known_to(&self.marks, committed);
        self.marks.truncate(known);
        self.offset = committed;
    }
}
