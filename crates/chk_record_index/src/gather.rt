//! Gathers the heads of a file's records, reading it in pieces.

ghost use Rattle.std.specs.Prelude.{◌≡◌, ◌≤◌, ◌<◌, ◌+◌, ◌-◌, ◌^◌, ◌++◌, ◌∷◌, [], ℕ, List, length, take, Option, unwrap_or, IsTrue, IfOk, IfErr, IfSome, OnOk, OnErr};
ghost use Rattle.chk_site.specs.Files.{File};
ghost use Rattle.chk_site.specs.Effect.{IsSmallFile};
ghost use Rattle.chk_site.specs.History.{Every};
ghost use Rattle.chk_site.specs.Site.{Adds};
ghost use Rattle.chk_site.specs.Runs.{anyhow, Leads};
ghost use Rattle.chk_replace.specs.Load.{Has};
ghost use Rattle.chk_chunk.specs.Keys.{Key, IsKey, has_value, record_limit};
ghost use Rattle.chk_chunk.specs.Lent.{lent_key};
ghost use Rattle.chk_seqfile.specs.Entries.{records_of};
ghost use Rattle.chk_salvage.specs.Views.{placed_of};
ghost use Rattle.chk_salvage.specs.Feeding.{IsFed, fed_limit, fed_place, fed_marker, fed_rest, Stands};
ghost use Rattle.chk_salvage.specs.Ahead.{IsAhead};
ghost use Rattle.chk_salvage.specs.declared.fed.Ahead.{Ahead};
ghost use Rattle.chk_salvage.specs.declared.fed.Fed.TheVariants.{More};
ghost use Rattle.chk_bytes.specs.Words.{is_word};
ghost use Rattle.chk_world.specs.Sight.{job};
ghost use Rattle.chk_world.specs.JobSteps.{IsOf, ReadsFile, SparesFile};
ghost use Rattle.chk_record_index.specs.Faults.{JobCause, FailsLast, IsOfRead};
ghost use Rattle.chk_record_index.specs.HeadRows.{row_begin};
ghost use Rattle.chk_record_index.specs.Heads.{head_with, IsTaken, IsTakenIf};
ghost use Rattle.chk_record_index.specs.Pieces.{AsksInPieces};
ghost use Rattle.chk_record_index.specs.Feeding.{AreChunks, HasMore, IsEnd, TookFed, TookAhead, FedFrom};
ghost use Rattle.chk_record_index.specs.Gathered.{EndsSo};
ghost use Rattle.chk_record_index.specs.Gathered.{Gathered, GatheredFile, ShowsGathered};

mod order;

use crate::JobFault;
use crate::fault::damaged;
use crate::origins::{Origin, number_of};
use crate::reading::{PIECE, read_bytes};
use crate::recents::Recents;
use chk_bytes::NoMemory;
use chk_chunk::{KeyRef, read_key};
use chk_salvage::{EntryRef, Fed, Pieces};
use chk_site::{Site, Who};
pub use order::HeadRef;
use std::alloc::Global;
use std::marker::Model;

/// How many bytes that haven't come are passed over: reading so many costs more than another read.
const PASSED: u64 = 65_536;

/// How many bytes a read behind a record that is passed over asks for: the next key comes with it, and it costs one call on
/// the machine.
const LOOK: u32 = 16_384;

/// How much longer than its value a record may say that it is. Its key and their lengths have less than this.
pub const SLACK: u32 = 131_072;

/// One row a record: which origin, which file, how many offsets it has, the end of them, and the place of the record in the
/// file. The turn says nothing of the record: a sort numbers the rows by it.
#[derive(Clone, Copy, Debug, PartialEq, Eq)]
struct Row {
    origin: u32,
    file: u32,
    size: u32,
    turn: u32,
    end: u64,
    at: u64,
}

impl Row {
    /// The first offset.
    fn begin(&self) -> u64
        ensures { result ≡ row_begin self.now }
    {
        self.end.saturating_sub(u64::from(self.size))
    }
}

/// The heads of records, without their data. A row has 32 bytes; the texts of a stream are kept once, with four bytes for their
/// place in the order, and beside them the bytes of at most 64 keys.
#[derive(Debug, Drop)]
pub struct Heads {
    origins: Vec<Origin>,
    /// The numbers of the origins, in the order of their texts.
    order: Vec<u32>,
    rows: Vec<Row>,
    recents: Recents,
}

impl Model for Heads {
    ghost use Rattle.std.specs.Prelude.{List};
    ghost use Rattle.chk_record_index.specs.Heads.{Head};
    ghost use Rattle.chk_record_index.specs.HeadRows.{heads_view, AreSoundRows};

    ghost Value = { List Head };

    ghost view = { heads_view };

    ghost invariant = { AreSoundRows };
}

impl Heads {
    /// No heads. It takes no memory before the first one comes.
    pub fn new(alloc: Global) -> Heads
        ensures { result ≡ [] }
    {
        Heads {
            origins: Vec::new(alloc),
            order: Vec::new(alloc),
            rows: Vec::new(alloc),
            recents: Recents::new(alloc),
        }
    }

    /// Adds the heads of a file's records, of values of at most `most` bytes, in their order, and says how many. A file
    /// that isn't there counts as empty. `Damaged` comes exactly where the file isn't one of chunks, with its name and the
    /// place from which on it isn't. After a refusal the heads are as before.
    ///
    /// The file is read in pieces of at most 1,048,576 bytes. Where 65,536 bytes of a record or more haven't come with its
    /// key, they are passed over: the next read, of at most 16,384 bytes, begins at the record's last byte, so that it is
    /// seen where the file ends before. The first read asks for as few. Of the file's bytes no more are held than one piece,
    /// one record and at most 64 keys. A record whose key is a kept one but for the sequence id costs a comparison of the two
    /// keys' bytes where it is the one of the record before, and else a hash of its bytes and one comparison more; any other
    /// record costs also a test of its texts, and one of another stream a search among the streams that were seen.
    pub fn gather<S: Site>(
        &mut self,
        alloc: Global,
        site: &mut S,
        who: &Who,
        name: &str,
        file: u32,
        most: u32,
    ) -> Result<u64, JobFault>
        requires name { IsTrue (is_word name.now) }
        requires most { most ≤ record_limit }
        ensures raw { (f : Option File) → IsSmallFile f → Adds (S.told site.old) (S.told site.new)
            (Leads (anyhow (SparesFile name.now)) (Has name.now f) (Gathered most name.now f file self.old self.new result)) }
        ensures shown { Adds (S.told site.old) (S.told site.new) (ShowsGathered most name.now file self.old self.new result) }
        ensures same { OnErr result (self.new ≡ self.old) }
        ensures own { who.now ≡ job → Adds (S.told site.old) (S.told site.new) (Every (IsOf ReadsFile)) }
        ensures pieces { Adds (S.told site.old) (S.told site.new) (Every AsksInPieces) }
        ensures only { IfErr result IsOfRead }
        ensures last { Adds (S.told site.old) (S.told site.new) (FailsLast result) }
        ensures cause { JobCause (S.fault_count site.old) (S.fault_count site.new) result }
    {
        let before = self.len();
        match self.gather_file(alloc, site, who, name, file, most) {
            Ok(()) => Ok((self.len() - before) as u64),
            Err(fault) => {
                self.truncate(before);
                Err(fault)
            }
        }
    }

    /// The same without the count. After a refusal some heads may stand behind the others.
    fn gather_file<S: Site>(
        &mut self,
        alloc: Global,
        site: &mut S,
        who: &Who,
        name: &str,
        file: u32,
        most: u32,
    ) -> Result<(), JobFault>
        requires name { IsTrue (is_word name.now) }
        requires most { most ≤ record_limit }
        ensures raw { (f : Option File) → IsSmallFile f → Adds (S.told site.old) (S.told site.new)
            (Leads (anyhow (SparesFile name.now)) (Has name.now f) (GatheredFile most name.now f file self.old self.new result)) }
        ensures shown { Adds (S.told site.old) (S.told site.new) (ShowsGathered most name.now file self.old self.new result) }
        ensures grown { HasMore self.old self.new }
        ensures own { who.now ≡ job → Adds (S.told site.old) (S.told site.new) (Every (IsOf ReadsFile)) }
        ensures pieces { Adds (S.told site.old) (S.told site.new) (Every AsksInPieces) }
        ensures only { IfErr result IsOfRead }
        ensures last { Adds (S.told site.old) (S.told site.new) (FailsLast result) }
        ensures cause { JobCause (S.fault_count site.old) (S.fault_count site.new) result }
    {
        let mut pieces = Pieces::new(alloc, most + SLACK);
        let mut at = 0;
        loop {
            if let Some(place) = self.take_fed(alloc, &mut pieces, file, most)? {
                return Err(damaged(alloc, name, place));
            }
            let last = self.take_ahead(alloc, &pieces, file, most)?;
            let from = last.unwrap_or(at);
            let piece = read_bytes(alloc, site, who, name, from, amount(at, last))?;
            if piece.len() == 0 {
                return ended(alloc, &pieces, name);
            }
            feed_from(&mut pieces, last, piece.as_slice())?;
            at = from + piece.len() as u64;
        }
    }

    /// Leaves the first `len` heads; nothing changes where there are no more.
    pub fn truncate(&mut self, len: usize)
        ensures { self.new ≡ take len self.old }
    {
        self.rows.truncate(len);
    }

    /// How many there are.
    pub fn len(&self) -> usize
        ensures { result ≡ length self.now }
    {
        self.rows.len()
    }

    /// Puts a head behind the others, whose key these bytes are; the key may be kept. Its record has
    /// `size` bytes of data and stands at the place `at` of the file of this number. Without memory the
    /// heads are as before.
    pub fn push(
        &mut self,
        alloc: Global,
        bytes: &[u8],
        key: &KeyRef<'_>,
        size: u32,
        file: u32,
        at: u64,
    ) -> Result<(), NoMemory>
        requires { IsKey (lent_key key.now) bytes.now }
        ensures ok { OnOk result (self.new ≡ self.old ++ head_with (lent_key key.now) (key.now.seq - size) file at ∷ []) }
        ensures err { OnErr result (self.new ≡ self.old) }
    {
        let likely = self.rows.last().map_or(0, |row| row.origin);
        let origin = number_of(alloc, &mut self.origins, &mut self.order, likely, key)?;
        self.recents
            .keep(alloc, origin == likely, bytes, key.start, origin)?;
        self.rows.push(Row {
            origin,
            file,
            size,
            turn: 0,
            end: key.seq,
            at,
        })?;
        Ok(())
    }

    /// Puts a record's head behind the others, where the record is a chunk of at most so many bytes, and says whether it
    /// is one.
    fn take_record(
        &mut self,
        alloc: Global,
        found: &EntryRef<'_>,
        file: u32,
        most: u32,
    ) -> Result<bool, NoMemory>
        ensures ok { IfOk result (λ is. IsTaken is most file (placed_of found.now) self.old self.new) }
        ensures err { OnErr result (self.new ≡ self.old) }
    {
        match self.take_alike(found, file, most)? {
            Some(is) => Ok(is),
            None => self.take_other(alloc, found, file, most),
        }
    }

    /// The same where the record's key is a kept one but for its sequence id; else it answers `None`, and the heads are as
    /// before.
    fn take_alike(
        &mut self,
        found: &EntryRef<'_>,
        file: u32,
        most: u32,
    ) -> Result<Option<bool>, NoMemory>
        ensures ok { IfOk result (λ taken. IsTakenIf taken most file (placed_of found.now) self.old self.new) }
        ensures err { OnErr result (self.new ≡ self.old) }
    {
        let Some(next) = self.recents.next_of(found.key) else {
            return Ok(None);
        };
        let size = found.value.len() as u64;
        if !is_size(next.start, next.seq, size, most) {
            return Ok(Some(false));
        }
        self.rows.push(Row {
            origin: next.origin,
            file,
            size: size as u32,
            turn: 0,
            end: next.seq,
            at: found.at,
        })?;
        Ok(Some(true))
    }

    /// The same of any record: each text of its key is read.
    fn take_other(
        &mut self,
        alloc: Global,
        found: &EntryRef<'_>,
        file: u32,
        most: u32,
    ) -> Result<bool, NoMemory>
        ensures ok { IfOk result (λ is. IsTaken is most file (placed_of found.now) self.old self.new) }
        ensures err { OnErr result (self.new ≡ self.old) }
    {
        let key = match read_key(found.key) {
            Ok(key) => key,
            Err(_) => return Ok(false),
        };
        let size = found.value.len() as u64;
        if !is_size(key.start, key.seq, size, most) {
            return Ok(false);
        }
        self.push(alloc, found.key, &key, size as u32, file, found.at)?;
        Ok(true)
    }

    /// Puts the head of the record that is ahead behind the others, where it is a chunk of at most so many bytes and enough of
    /// them haven't come, and says where its last byte stands.
    fn take_ahead(
        &mut self,
        alloc: Global,
        pieces: &Pieces,
        file: u32,
        most: u32,
    ) -> Result<Option<u64>, NoMemory>
        ensures ok { IfOk result (λ last. TookAhead most file pieces.now self.old self.new last) }
        ensures err { OnErr result (self.new ≡ self.old) }
        ensures grown { HasMore self.old self.new }
    {
        let Some(found) = pieces.ahead() else {
            return Ok(None);
        };
        if found.end - found.at - pieces.left() < PASSED {
            return Ok(None);
        }
        let key = match read_key(found.key) {
            Ok(key) => key,
            Err(_) => return Ok(None),
        };
        if !is_size(key.start, key.seq, found.size, most) {
            return Ok(None);
        }
        self.push(alloc, found.key, &key, found.size as u32, file, found.at)?;
        Ok(Some(found.end - 1))
    }

    /// Takes the heads of all records that are whole in what was fed. It says where the file can't be one of chunks,
    /// whatever follows.
    fn take_fed(
        &mut self,
        alloc: Global,
        pieces: &mut Pieces,
        file: u32,
        most: u32,
    ) -> Result<Option<u64>, NoMemory>
        requires { (fed : List ℕ) × IsFed pieces.old fed }
        ensures limit { fed_limit pieces.new ≡ fed_limit pieces.old }
        ensures grown { HasMore self.old self.new }
        ensures ok { IfOk result (λ stop. (fed : List ℕ) → IsFed pieces.old fed
            → AreChunks most (records_of (take (fed_place pieces.old) fed))
            → TookFed most file pieces.old pieces.new fed self.old self.new stop) }
    {
        let mut place = pieces.place();
        loop {
            match pieces.next() {
                Fed::Entry(found) => {
                    if !self.take_record(alloc, &found, file, most)? {
                        return Ok(Some(found.at));
                    }
                    place = found.end;
                }
                Fed::More => return Ok(None),
                Fed::Header(_) => return Ok(Some(0)),
                Fed::Damaged { at, .. } => return Ok(Some(at)),
                Fed::Long { at, .. } => return Ok(Some(at)),
            }
        }
    }
}

/// Where the file is damaged, if it ends where all was fed: within its header, or within an entry.
pub fn unfinished(pieces: &Pieces) -> Option<u64>
    ensures { (fed : List ℕ) → IsFed pieces.now fed → Stands (fed_limit pieces.now) fed (fed_marker pieces.now) (fed_place pieces.now) More
        → IsEnd fed (fed_place pieces.now) result }
{
    if pieces.place() == 0 || pieces.left() > 0 {
        return Some(pieces.place());
    }
    None
}

/// Whether the file is whole, if it ends where all was fed.
fn ended(alloc: Global, pieces: &Pieces, name: &str) -> Result<(), JobFault>
    requires { IsTrue (is_word name.now) }
    ensures { (fed : List ℕ) → IsFed pieces.now fed → Stands (fed_limit pieces.now) fed (fed_marker pieces.now) (fed_place pieces.now) More
        → EndsSo name.now fed (fed_place pieces.now) result }
{
    match unfinished(pieces) {
        Some(place) => Err(damaged(alloc, name, place)),
        None => Ok(()),
    }
}

/// A value of this size has at least one byte, no more than `most`, and doesn't begin before the stream's start.
fn is_size(start: u64, seq: u64, size: u64, most: u32) -> bool
    ensures is { (k : Key) (value : List ℕ) → k.start ≡ start → k.seq ≡ seq → length value ≡ size
        → result ≡ has_value most k value }
    ensures small { IsTrue result → size ≤ most }
{
    size > 0 && size <= u64::from(most) && start <= seq && size <= seq - start
}

/// How many bytes are asked for: few at the front and behind a record that is passed over, since others may be passed over then.
fn amount(at: u64, last: Option<u64>) -> u32
    ensures some { 0 < result }
    ensures most { result ≤ record_limit }
{
    if at == 0 || last.is_some() {
        LOOK
    } else {
        PIECE as u32
    }
}

/// Feeds what was read where all was fed, or at the last byte of the record that is ahead, which is passed over then.
fn feed_from(pieces: &mut Pieces, last: Option<u64>, piece: &[u8]) -> Result<(), NoMemory>
    requires some { 0 < length piece.now }
    requires ahead { IfSome last (λ last. (a : Ahead) × IsAhead pieces.old a × (a.end ≡ last + 1)) }
    requires room { unwrap_or last (fed_place pieces.old + length (fed_rest pieces.old)) + length piece.now < 2 ^ 63 }
    ensures limit { fed_limit pieces.new ≡ fed_limit pieces.old }
    ensures ok { OnOk result (FedFrom pieces.old pieces.new last piece.now) }
{
    match last {
        Some(last) => {
            pieces.pass(last + 1);
            pieces.feed(&piece[1..])?;
        }
        None => pieces.feed(piece)?,
    }
    Ok(())
}
