// A reader of the base file of a log.
ghost use Rattle.std.specs.Prelude.{◌≡◌, ◌+◌, ◌-◌, ◌≤◌, ◌^◌, [], None, length, min, max, OnErr};
ghost use Rattle.chk_site.specs.declared.limits.TheConstants.{LOG_END};
ghost use Rattle.chk_site.specs.Site.{Adds, LastFailed, OutsideCause};
ghost use Rattle.std.specs.Prelude.{IfOk};
ghost use Rattle.chk_tail.specs.Given.{IsGiven};
ghost use Rattle.chk_tail.specs.Taking.{asks_at, taken_of};
ghost use Rattle.chk_tail.specs.Tails.{base_spot, base_way};
ghost use Rattle.chk_tail.specs.Walks.{Walks, step_of};

use crate::step::Step;
use crate::taking::{ask, take_of};
use chk_bytes::Word;
use chk_site::{Call, CallFault, OutsideFault, Part, Piece, Site, Who};
use std::alloc::Global;
use std::marker::Model;

/// Reads the base file of a log from a place on, a piece at a time. It holds the path, the place,
/// and the offset of the file's first byte in its stream.
#[derive(Drop)]
pub struct Tail {
    path: Word,
    lines: bool,
    start: u64,
    at: u64,
}

impl Model for Tail {
    ghost use Rattle.chk_tail.specs.Tails.{Tailing};

    ghost Value = { Tailing };

    ghost view = { λ t. record {
      path = t.path;
      lines = t.lines;
      start = t.start;
      at = t.at;
    } };
}

impl Tail {
    /// A reader of the log at `path` from the place `at` of its base file on, in bytes. The file's
    /// first byte has the offset `start` in the stream. With `lines` what a step gives ends behind
    /// a newline, but for pieces of `PIECE_BYTES` that have none.
    pub fn new(path: Word, lines: bool, start: u64, at: u64) -> Tail
        ensures { result ≡ record { path = path; lines = lines; start = start; at = at } }
    {
        Tail {
            path,
            lines,
            start,
            at,
        }
    }

    /// The offset of the file's first byte in the stream.
    pub fn start(&self) -> u64
        ensures { result ≡ self.now.start }
    {
        self.start
    }

    /// The place read in the file.
    pub fn at(&self) -> u64
        ensures { result ≡ self.now.at }
    {
        self.at
    }

    // The offset of the place read. No log reaches the greatest number, which stands for those past
    // it.
    fn offset(&self) -> u64
        ensures { result ≡ min (self.now.start + self.now.at) (2 ^ 64 - 1) }
    {
        self.start.saturating_add(self.at)
    }

    /// Reads at most `PIECE_BYTES` at the place and goes on behind those that it gives. It makes
    /// one read, and holds its piece in memory once. Nothing more can be taken where the file has
    /// no byte there, or with `lines` no newline in fewer bytes. `Outside` comes where the read
    /// failed, and `NoMemory` where there was none for its piece. After a refusal, and where the
    /// file is shorter than the place, the place is as before.
    pub fn step<S: Site>(
        &mut self,
        alloc: Global,
        site: &mut S,
        who: &Who,
    ) -> Result<Step, OutsideFault>
        ensures told { Walks (base_way who.now self.old) result
            (base_spot self.new.start self.new.at) (base_spot self.old.start self.old.at) []
            (S.told site.old) (S.told site.new) }
        ensures last { Adds (S.told site.old) (S.told site.new) (LastFailed result) }
        ensures reader { self.new ≡ record self.old { at = self.new.at } }
        ensures within { self.new.start + self.new.at
            ≤ max (self.old.start + self.old.at) LOG_END }
        ensures refused { OnErr result (self.new ≡ self.old) }
        ensures given { IfOk result IsGiven }
        ensures cause { OutsideCause (S.fault_count site.old) (S.fault_count site.new) result }
    {
        let path = self.path.as_str();
        let max = ask(self.offset());
        match site.log_read(alloc, who, path, Part::Base, self.at, max) {
            Ok(piece) => Ok(self.give(piece)),
            Err(CallFault::Short { size }) => Ok(Step::Shrank {
                had: self.at,
                is: size,
            }),
            Err(CallFault::Failed) => Err(OutsideFault::Outside {
                call: Call::LogRead,
            }),
            Err(CallFault::NoMemory) => Err(OutsideFault::NoMemory),
            Err(_) => unreachable!(),
        }
    }

    // Goes on behind what is taken of the piece, and gives it.
    fn give(&mut self, mut piece: Piece) -> Step
        requires base { piece.ended ≡ None }
        requires room { length piece.bytes ≤ asks_at (self.old.start + self.old.at) }
        ensures step { result ≡ step_of self.old.lines (self.old.start + self.old.at) piece }
        ensures place { self.new
            ≡ record self.old { at = self.old.at + taken_of self.old.lines piece } }
        ensures within { self.new.start + self.new.at
            ≤ max (self.old.start + self.old.at) LOG_END }
        ensures given { IsGiven result }
    {
        let count = take_of(self.lines, &piece);
        if count == 0 {
            return Step::AtEnd;
        }
        piece.bytes.truncate(count);
        self.at += count as u64;
        Step::Bytes {
            bytes: piece.bytes,
            end: self.start + self.at,
        }
    }

    /// Sets the place read in the file.
    pub fn back(&mut self, at: u64)
        ensures { self.new ≡ record self.old { at = at } }
    {
        self.at = at;
    }
}
