//! Reads one entry after the other.

ghost use Rattle.std.specs.Prelude.{◌≡◌, ◌+◌, ◌<◌, ◌≤◌, ◌++◌, [], ◌∷◌, length, drop, MatchResult, IfOk, Ok, Err};
ghost use Rattle.chk_seqfile.specs.Headers.{read_header};
ghost use Rattle.chk_seqfile.specs.Entries.{records_of};
ghost use Rattle.chk_salvage.specs.Front.{IsFront, IsDamaged, Skipped, salvage_of};

use crate::entry::{EntryRef, Seen, entry_from};
use crate::lists::Span;
use crate::scan::{behind_syncs, find_sync};
use chk_seqfile::{HeaderFault, Why, read_header};

/// Reads the entries of a file that lies in memory, in order. It takes no memory and copies nothing;
/// each step costs the lengths of an entry, and not its bytes.
#[derive(Debug, Drop)]
pub struct Reader<'a> {
    bytes: &'a [u8],
    marker: [u8; 16],
    place: usize,
    ghost within: { place ≤ length bytes.now },
}

/// What a reader answers.
#[derive(Clone, Copy, Debug, PartialEq, Eq)]
pub enum Next<'a> {
    /// The next record.
    Entry(EntryRef<'a>),
    /// The bytes have ended behind an entry, or behind the header.
    End,
    /// At this place no entry can be read.
    Damaged { at: u64, why: Why },
}

impl<'a> Reader<'a> {
    ghost use Rattle.chk_salvage.specs.Readers.{bytes_in, place_in, marker_in, HasReadSo, records_left, items_left, record_given, item_given, StandsAt, IsFrom, IsStop, IsSameFile};

    /// A reader behind the header of these bytes. The header is refused just where `read_header`
    /// refuses it, for the same reason.
    pub fn new(bytes: &'a [u8]) -> Result<Reader<'a>, HeaderFault>
        ensures header { MatchResult result
            (λ reader. read_header bytes.now ≡ Ok (record { marker = marker_in reader; end = place_in reader }))
            (λ fault. read_header bytes.now ≡ Err fault) }
        ensures bytes { IfOk result (λ reader. bytes_in reader ≡ bytes.now) }
        ensures records { IfOk result (λ reader. records_left reader ≡ records_of bytes.now) }
        ensures items { IfOk result (λ reader. items_left reader ≡ salvage_of bytes.now) }
        ensures read { IfOk result (λ reader. HasReadSo reader) }
    {
        let head = read_header(bytes)?;
        let marker = head.marker;
        Ok(Reader {
            bytes,
            marker,
            place: head.end as usize,
        })
    }

    /// The next record. At the end of the bytes, and at damage, the answer stays the same until
    /// `skip` is called. A sync entry gives no answer of its own.
    pub fn next(&mut self) -> Next<'a>
        ensures file { IsSameFile self.old self.new }
        ensures records { records_left self.old ≡ record_given result ++ records_left self.new }
        ensures items { items_left self.old ≡ item_given result ++ items_left self.new }
        ensures place { StandsAt result self.new }
        ensures last { IsStop result → records_left self.new ≡ [] }
        ensures onward { IsFrom (place_in self.old) result }
        // Where nothing was skipped, it stops at the end of the longest sound front.
        ensures read { HasReadSo self.old → HasReadSo self.new }
        ensures front { HasReadSo self.old → IsStop result → IsFront (bytes_in self.new) (place_in self.new) }
        ensures stays { (stop : Next) → IsStop stop → StandsAt stop self.old
            → (result ≡ stop) × (place_in self.new ≡ place_in self.old) }
    {
        self.place = behind_syncs(&self.marker, self.bytes, self.place);
        match entry_from(&self.marker, self.bytes, self.place) {
            Seen::Record { key, value } => {
                let at = self.place as u64;
                self.place += 16 + key.len() + value.len();
                Next::Entry(EntryRef {
                    at,
                    end: self.place as u64,
                    key,
                    value,
                })
            }
            Seen::Damaged(why) => Next::Damaged {
                at: self.place as u64,
                why,
            },
            Seen::Nothing => Next::End,
            Seen::Sync => unreachable!(),
        }
    }

    /// Goes on behind damage: to the next place at which a whole sync entry with the file's marker
    /// stands, or to the end of the bytes. The range from the damage up to there is the answer.
    /// Each byte of it is looked at once.
    pub fn skip(&mut self) -> Span
        requires { IsDamaged (marker_in self.old) (bytes_in self.old) (place_in self.old) }
        ensures file { IsSameFile self.old self.new }
        ensures items { items_left self.old ≡ Skipped result.begin result.end ∷ items_left self.new }
        ensures begin { result.begin ≡ place_in self.old }
        ensures end { result.end ≡ place_in self.new }
        ensures onward { place_in self.old < place_in self.new }
    {
        let begin = self.place;
        let found = find_sync(&self.marker, self.bytes, begin + 1);
        self.place = found.unwrap_or(self.bytes.len());
        Span {
            begin: begin as u64,
            end: self.place as u64,
        }
    }
}
