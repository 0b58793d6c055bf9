//! Reads a file that comes in pieces.

ghost use Rattle.std.specs.Prelude.{◌≡◌, ◌+◌, ◌-◌, ◌<◌, ◌≤◌, ◌^◌, ◌++◌, [], ℕ, List, length, drop, OnOk, OnErr, IfOk, IfErr, IfSome, IfNone, Some, None, Err};
ghost use Rattle.chk_seqfile.specs.Headers.{read_header};
ghost use Rattle.chk_seqfile.specs.HeaderSteps.{HasCome};
ghost use Rattle.chk_seqfile.specs.Entries.{SyncEntry, entry_at};
ghost use Rattle.chk_salvage.specs.Longs.{IsLong, NotLong};
ghost use Rattle.std.proofs.Props.{props};

use crate::entry::{EntryRef, Seen, entry_from, lengths_of};
use crate::fed::{Ahead, Fed, Step};
use crate::scan::behind_syncs;
use chk_bytes::{NoMemory, take_u32};
use chk_seqfile::{HeaderFault, TextsLeft, Why, read_header_on};
use std::alloc::Global;

/// Reads the entries of a file that is fed to it in pieces, however it was cut.
///
/// It keeps the bytes that are not read yet, and makes room for new ones when it is fed. Before the
/// header's end it keeps all bytes that were fed, since the header is read where they are whole;
/// behind it, fewer than `limit` + 8 bytes beside the last piece.
///
/// All calls together cost the bytes fed, and each call a constant beside, whatever the pieces are,
/// but for moving what is left when room is made: that adds to it only where more is fed before
/// `More` was answered.
#[derive(Debug, Drop)]
pub struct Pieces {
    limit: u32,
    marker: Option<[u8; 16]>,
    /// How far the header was read.
    texts: Option<TextsLeft>,
    place: u64,
    /// How many of the bytes are read.
    used: usize,
    bytes: Vec<u8>,
    ghost within: { used ≤ length bytes.items },
    ghost bounded: { 64 ≤ limit },
    ghost come: { marker ≡ None → HasCome texts (drop used bytes.items) } by { Prim.hlevel props },
    ghost fits: { place + (length bytes.items - used) < 2 ^ 63 },
}

impl Pieces {
    ghost use Rattle.std.specs.Prelude.{⊤};
    ghost use Rattle.std.specs.Borrow.{sem};
    ghost use mathlib.Core.Option.{none};
    ghost use denote.Follow.{follows_so};
    ghost use Rattle.chk_salvage.specs.contracts.pieces.Pieces.{the_row};
    ghost use Rattle.chk_salvage.specs.Feeding.{fed_place, fed_rest, fed_limit, fed_marker, IsFed, Answered};
    ghost use Rattle.chk_salvage.specs.Ahead.{IsAhead, OwesValue};
    ghost use Rattle.chk_salvage.specs.declared.fed.Ahead.{Ahead};
    ghost use Rattle.chk_salvage.specs.Steps.{GoesOn, LiesIn, IsShown, Stepped};

    /// A reader that nothing was fed to, which takes records of at most `limit` bytes: that is the
    /// first number of a record, 8 more than the lengths of its key and its value.
    pub fn new(alloc: Global, limit: u32) -> Pieces
        requires { 64 ≤ limit }
        ensures limit { fed_limit result ≡ limit }
        ensures fed { IsFed result [] }
    {
        Pieces {
            limit,
            marker: None,
            texts: None,
            place: 0,
            used: 0,
            bytes: Vec::new(alloc),
        }
    }

    /// Takes the next piece of the file. Without memory it is as before.
    ///
    /// Bytes that were read are let go here, at once. If it is fed where it answered `More`, this
    /// costs the length of what is fed, over all calls.
    pub fn feed(&mut self, piece: &[u8]) -> Result<(), NoMemory>
        requires { fed_place self.old + length (fed_rest self.old) + length piece.now < 2 ^ 63 }
        ensures ok { OnOk result (fed_rest self.new ≡ fed_rest self.old ++ piece.now) }
        ensures err { OnErr result (fed_rest self.new ≡ fed_rest self.old) }
        ensures same { (fed_limit self.new ≡ fed_limit self.old) × (fed_marker self.new ≡ fed_marker self.old)
            × (fed_place self.new ≡ fed_place self.old) }
        ensures fed { OnOk result ((fed : List ℕ) → IsFed self.old fed → IsFed self.new (fed ++ piece.now)) }
        ensures unfed { OnErr result ((fed : List ℕ) → IsFed self.old fed → IsFed self.new fed) }
    {
        let used = self.used;
        make_room(&mut self.bytes, used);
        self.used = 0;
        self.bytes.extend_from_slice(piece)?;
        Ok(())
    }

    /// The next record that is whole in what was fed and within the limit, or why there is none.
    /// After any answer but a record, the same answer comes again until more is fed; after `Header`,
    /// `Damaged` and `Long` it stays.
    pub fn next(&mut self) -> Fed<'_>
        ensures* { sem 𝓛 (follows_so the_row the_row self.entry.ghost_name none (λ _ _. ⊤) (λ after. Answered self.old after result)) }
    {
        let step = self.step();
        self.shown(step)
    }

    /// The answer that a step stands for.
    fn shown(&self, step: Step) -> Fed<'_>
        requires { LiesIn step self.now }
        ensures { IsShown self.now step result }
    {
        match step {
            Step::Entry { start, key, value } => Fed::Entry(EntryRef {
                at: self.place - (16 + key + value) as u64,
                end: self.place,
                key: &self.bytes[start + 12..start + 12 + key],
                value: &self.bytes[start + 16 + key..start + 16 + key + value],
            }),
            Step::More => Fed::More,
            Step::Header(fault) => Fed::Header(fault),
            Step::Damaged(why) => Fed::Damaged {
                at: self.place,
                why,
            },
            Step::Long(need) => Fed::Long {
                at: self.place,
                need: u64::from(need),
            },
        }
    }

    fn step(&mut self) -> Step
        ensures lies { LiesIn result self.new }
        ensures step { Stepped self.old self.new result }
    {
        match self.header() {
            Ok(marker) => {
                self.skip_syncs(&marker);
                self.entry(&marker)
            }
            Err(HeaderFault::Short) => Step::More,
            Err(fault) => Step::Header(fault),
        }
    }

    /// The marker, once the header has ended.
    fn header(&mut self) -> Result<[u8; 16], HeaderFault>
        ensures goes { GoesOn self.old self.new }
        ensures marker { IfOk result (λ marker. fed_marker self.new ≡ Some marker) }
        ensures fault { IfErr result (λ fault. (fed_marker self.new ≡ None)
            × ((fed : List ℕ) → IsFed self.new fed → read_header fed ≡ Err fault)) }
    {
        if let Some(marker) = self.marker {
            return Ok(marker);
        }
        let head = read_header_on(&self.bytes[self.used..], &mut self.texts)?;
        let marker = head.marker;
        self.marker = Some(marker);
        self.place += head.end;
        self.used += head.end as usize;
        Ok(marker)
    }

    /// Goes on behind the sync entries that stand there.
    fn skip_syncs(&mut self, marker: &[u8; 16])
        requires { fed_marker self.old ≡ Some marker.now }
        ensures goes { GoesOn self.old self.new }
        ensures marker { fed_marker self.new ≡ fed_marker self.old }
        ensures last { entry_at marker.now (fed_rest self.new) ≡ SyncEntry → ⊥ }
    {
        let used = behind_syncs(marker, &self.bytes, self.used);
        self.place += (used - self.used) as u64;
        self.used = used;
    }

    /// What stands there, if it is no sync entry.
    fn entry(&mut self, marker: &[u8; 16]) -> Step
        requires marker { fed_marker self.old ≡ Some marker.now }
        requires no_sync { entry_at marker.now (fed_rest self.old) ≡ SyncEntry → ⊥ }
        ensures lies { LiesIn result self.new }
        ensures step { Stepped self.old self.new result }
    {
        if let Some(size) = long_record(self.limit, &self.bytes, self.used) {
            return Step::Long(size);
        }
        let start = self.used;
        match entry_from(marker, &self.bytes, start) {
            Seen::Record { key, value } => {
                let key = key.len();
                let value = value.len();
                self.used += 16 + key + value;
                self.place += (16 + key + value) as u64;
                Step::Entry { start, key, value }
            }
            Seen::Nothing => Step::More,
            Seen::Damaged(why) => match why {
                Why::Torn => Step::More,
                why => Step::Damaged(why),
            },
            Seen::Sync => unreachable!(),
        }
    }

    /// The record that begins at the place, where its key and its lengths have come, but not all of its
    /// value. None is there where `next` would answer anything but `More`.
    pub fn ahead(&self) -> Option<Ahead<'_>>
        ensures some { IfSome result (λ a. IsAhead self.now a) }
        ensures none { IfNone result ((k v : ℕ) → OwesValue self.now k v → ⊥) }
    {
        let Some(_) = self.marker else {
            return None;
        };
        let rest = &self.bytes[self.used..];
        let lengths = lengths_of(rest)?;
        let size = 16 + lengths.key + lengths.value;
        let end = self.place + size as u64;
        if rest.len() >= size || size - 8 > self.limit as usize || end >= 1 << 63 {
            return None;
        }
        Some(Ahead {
            at: self.place,
            end,
            key: &rest[12..12 + lengths.key],
            size: lengths.value as u64,
        })
    }

    /// Goes on behind the record that is ahead, which ends at `end`, as if its other bytes were fed. They
    /// aren't looked at: a SequenceFile asks nothing of a value but its length. What is fed next has to
    /// stand behind the record, and that the file goes on up to there is for the caller to see.
    pub fn pass(&mut self, end: u64)
        requires { (a : Ahead) × IsAhead self.old a × (a.end ≡ end) }
        ensures same { (fed_limit self.new ≡ fed_limit self.old) × (fed_marker self.new ≡ fed_marker self.old) }
        ensures past { (fed_place self.new ≡ end) × (fed_rest self.new ≡ []) }
        ensures fed { (fed missing : List ℕ) → IsFed self.old fed → length fed + length missing ≡ end
            → IsFed self.new (fed ++ missing) }
    {
        self.place = end;
        self.used = self.bytes.len();
    }

    /// The place behind the header, the last record or the last sync entry that was read, counted
    /// from the first byte that was fed; 0 before the header's end.
    pub fn place(&self) -> u64
        ensures { result ≡ fed_place self.now }
    {
        self.place
    }

    /// How many bytes were fed past that place.
    pub fn left(&self) -> u64
        ensures { result ≡ length (fed_rest self.now) }
    {
        (self.bytes.len() - self.used) as u64
    }
}

/// The size of the record that begins at a place, if it is above the limit and can be one.
fn long_record(limit: u32, bytes: &[u8], at: usize) -> Option<u32>
    ensures some { IfSome result (λ size. IsLong limit bytes.now at size) }
    ensures none { IfNone result (NotLong limit bytes.now at) }
{
    match take_u32(bytes, at) {
        Some(size) if size > limit && size < 1 << 31 => Some(size),
        _ => None,
    }
}

/// Lets the first `used` bytes go.
fn make_room(bytes: &mut Vec<u8>, used: usize)
    requires { used ≤ length bytes.old.items }
    ensures { bytes.new.items ≡ drop used bytes.old.items }
{
    if used > 0 {
        let left = bytes.len() - used;
        bytes.copy_within(used.., 0);
        bytes.truncate(left);
    }
}
