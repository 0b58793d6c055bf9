//! A place among the records of a segment.

ghost use Rattle.std.specs.Prelude.{◌≡◌, ◌≤◌, ◌<◌, ◌+◌, ◌-◌, ◌^◌, min, false, [], ℕ, List, length, Contains, IsTrue, IfOk, IfErr, OnOk, IfSome};
ghost use Rattle.chk_site.specs.Files.{Files};
ghost use Rattle.chk_site.specs.Effect.{IsSmallFile};
ghost use Rattle.chk_site.specs.Site.{Adds};
ghost use Rattle.chk_site.specs.Runs.{anyhow, Leads};
ghost use Rattle.chk_chunk.specs.Keys.{Stream, record_limit, has_value, same_stream};
ghost use Rattle.chk_chunk.specs.Lent.{lent_chunk, lent_key};
ghost use Rattle.chk_salvage.specs.Feeding.{IsFed, fed_place, fed_rest};
ghost use Rattle.chk_world.specs.Sight.{job};
ghost use Rattle.chk_world.specs.JobSteps.{ReadsFile};
ghost use Rattle.chk_record_index.specs.Faults.{JobCause, Worked, IsOfWrite};
ghost use Rattle.chk_book.specs.Views.{end_view};
ghost use Rattle.chk_record_reader.specs.Segments.{HasFiles, SparesFiles};
ghost use Rattle.chk_archive_merge.specs.Cursors.{FedMore, Took, Stepped, ReadOn, Advanced, IsNext, GoesOn};

use crate::reading::{PIECE, read_short};
use chk_book::End;
use chk_bytes::{Bytes, NoMemory};
use chk_chunk::{ChunkRef, KeyRef, read_key};
use chk_record_index::{JobFault, SLACK, unfinished};
use chk_salvage::{Fed, Pieces};
use chk_site::{Site, Who};
use std::alloc::Global;

/// A place among the records of a file, which is read in pieces of at most 262,144 bytes. It holds
/// a copy of the record that stands there, if it isn't at the end, and at most one piece and one
/// record of the file's bytes.
#[derive(Drop)]
pub(crate) struct Cursor {
    pieces: Pieces,
    /// All of the file was fed.
    whole: bool,
    held: bool,
    key: Bytes,
    value: Bytes,
}

/// What was fed has, at the place where it is read.
#[derive(Clone, Copy)]
enum Taken {
    /// A record.
    Record,
    /// No whole record; more may be fed.
    More,
    /// No record, whatever follows.
    Wrong,
}

impl Cursor {
    /// A cursor before the first record, of values of at most `most` bytes.
    pub(crate) fn new(alloc: Global, most: u32) -> Cursor
        requires { most ≤ record_limit }
        ensures fed { IsFed result.pieces [] }
        ensures some { result.whole ≡ false }
    {
        Cursor {
            pieces: Pieces::new(alloc, most + SLACK),
            whole: false,
            held: false,
            key: Bytes::new(alloc),
            value: Bytes::new(alloc),
        }
    }

    /// Goes on to the next record of the file, or to its end; `false` where it isn't a
    /// SequenceFile from there on.
    pub(crate) fn advance<S: Site>(
        &mut self,
        alloc: Global,
        site: &mut S,
        who: &Who,
        name: &str,
    ) -> Result<bool, JobFault>
        requires job { who.now ≡ job }
        ensures raw { (names : List (List ℕ)) (held : Files) → Contains names name.now → IsSmallFile (held name.now)
            → Adds (S.told site.old) (S.told site.new) (Leads (anyhow (SparesFiles names)) (HasFiles names held)
            (Advanced names held name.now self.old self.new result)) }
        ensures works { Adds (S.told site.old) (S.told site.new) (Worked ReadsFile result) }
        ensures only { IfErr result IsOfWrite }
        ensures cause { JobCause (S.fault_count site.old) (S.fault_count site.new) result }
    {
        for _turn in 0..u64::MAX {
            if let Some(on) = self.step(alloc, site, who, name)? {
                return Ok(on);
            }
        }
        Ok(false)
    }

    /// Takes the next record of what was fed, as `advance` does; `None` where more was fed first.
    fn step<S: Site>(
        &mut self,
        alloc: Global,
        site: &mut S,
        who: &Who,
        name: &str,
    ) -> Result<Option<bool>, JobFault>
        requires job { who.now ≡ job }
        ensures raw { (names : List (List ℕ)) (held : Files) → Contains names name.now → IsSmallFile (held name.now)
            → Adds (S.told site.old) (S.told site.new) (Leads (anyhow (SparesFiles names)) (HasFiles names held)
            (Stepped names held name.now self.old self.new result)) }
        ensures works { Adds (S.told site.old) (S.told site.new) (Worked ReadsFile result) }
        ensures only { IfErr result IsOfWrite }
        ensures cause { JobCause (S.fault_count site.old) (S.fault_count site.new) result }
    {
        match self.take()? {
            Taken::Record => Ok(Some(true)),
            Taken::Wrong => Ok(Some(false)),
            Taken::More => self.read_on(alloc, site, who, name),
        }
    }

    /// Feeds what the file has next, where no whole record is left of what was fed.
    fn read_on<S: Site>(
        &mut self,
        alloc: Global,
        site: &mut S,
        who: &Who,
        name: &str,
    ) -> Result<Option<bool>, JobFault>
        requires job { who.now ≡ job }
        ensures raw { (names : List (List ℕ)) (held : Files) → Contains names name.now → IsSmallFile (held name.now)
            → Adds (S.told site.old) (S.told site.new) (Leads (anyhow (SparesFiles names)) (HasFiles names held)
            (ReadOn names held name.now self.old self.new result)) }
        ensures works { Adds (S.told site.old) (S.told site.new) (Worked ReadsFile result) }
        ensures only { IfErr result IsOfWrite }
        ensures cause { JobCause (S.fault_count site.old) (S.fault_count site.new) result }
    {
        if self.read(alloc, site, who, name)? {
            return Ok(None);
        }
        Ok(Some(unfinished(&self.pieces).is_none()))
    }

    /// Up to where the file was fed.
    fn end(&self) -> u64
        ensures { result ≡ min (fed_place self.now.pieces + length (fed_rest self.now.pieces))
            (2 ^ 64 - 1) }
    {
        self.pieces.place().saturating_add(self.pieces.left())
    }

    /// Feeds what the file has next; `false` where it has no more. A piece that is shorter than what was
    /// asked for is the last one.
    fn read<S: Site>(
        &mut self,
        alloc: Global,
        site: &mut S,
        who: &Who,
        name: &str,
    ) -> Result<bool, JobFault>
        requires job { who.now ≡ job }
        ensures raw { (names : List (List ℕ)) (held : Files) → Contains names name.now → IsSmallFile (held name.now)
            → Adds (S.told site.old) (S.told site.new) (Leads (anyhow (SparesFiles names)) (HasFiles names held)
            (FedMore names held name.now self.old self.new result)) }
        ensures works { Adds (S.told site.old) (S.told site.new) (Worked ReadsFile result) }
        ensures only { IfErr result IsOfWrite }
        ensures cause { JobCause (S.fault_count site.old) (S.fault_count site.new) result }
    {
        if self.whole {
            return Ok(false);
        }
        let piece = read_short(alloc, site, who, name, self.end())?;
        if piece.len() == 0 {
            return Ok(false);
        }
        self.pieces.feed(piece.as_slice())?;
        self.whole = piece.len() < PIECE;
        Ok(true)
    }

    /// Holds the next record of what was fed, where one is there.
    fn take(&mut self) -> Result<Taken, NoMemory>
        ensures { IfOk result (λ taken. Took taken self.old self.new) }
    {
        self.held = false;
        match self.pieces.next() {
            Fed::Entry(found) => {
                put(&mut self.key, found.key)?;
                put(&mut self.value, found.value)?;
                self.held = true;
                Ok(Taken::Record)
            }
            Fed::More => Ok(Taken::More),
            Fed::Header(_) => Ok(Taken::Wrong),
            Fed::Damaged { .. } => Ok(Taken::Wrong),
            Fed::Long { .. } => Ok(Taken::Wrong),
        }
    }

    /// It holds a record.
    pub(crate) fn holds(&self) -> bool
        ensures { result ≡ self.now.held }
    {
        self.held
    }

    /// It holds a record of the end's stream.
    pub(crate) fn is_of(&self, end: &End) -> bool {
        if !self.held {
            return false;
        }
        match read_key(self.key.as_slice()) {
            Ok(key) => is_key_of(&key, end),
            Err(_) => false,
        }
    }

    /// The chunk that it holds, where it is one of at most `most` bytes that goes on in the end's
    /// stream from `reached`: it has the stream's start, begins there, and doesn't end past the
    /// end.
    pub(crate) fn next_chunk(&self, end: &End, reached: u64, most: u32) -> Option<ChunkRef<'_>>
        ensures { IfSome result (λ chunk. IsNext most (end_view end.now) reached self.now
            (lent_chunk chunk)) }
    {
        if !self.held {
            return None;
        }
        let Ok(key) = read_key(self.key.as_slice()) else {
            return None;
        };
        let body = self.value.as_slice();
        if !is_key_of(&key, end) || !goes_on(&key, body.len() as u64, end, reached, most) {
            return None;
        }
        Some(ChunkRef {
            source: key.source,
            kind: key.kind,
            name: key.name,
            start: key.start,
            cluster: key.cluster,
            seq: key.seq,
            body,
        })
    }

    /// Where that chunk ends.
    pub(crate) fn next_seq(&self, end: &End, reached: u64, most: u32) -> Option<u64> {
        match self.next_chunk(end, reached, most) {
            Some(chunk) => Some(chunk.seq),
            None => None,
        }
    }
}

/// The key is of the end's stream.
fn is_key_of(key: &KeyRef<'_>, end: &End) -> bool
    ensures { result ≡ same_stream (end_view end.now).stream (lent_key key.now).stream }
{
    end.source.as_str() == key.source
        && end.kind.as_str() == key.kind
        && end.name.as_str() == key.name
}

/// A value of this size with this key is a chunk of at most `most` bytes with the end's start,
/// which begins at `reached` and doesn't end past the end.
fn goes_on(key: &KeyRef<'_>, size: u64, end: &End, reached: u64, most: u32) -> bool
    ensures { IsTrue result → GoesOn (lent_key key.now) size (end_view end.now) reached most }
{
    size > 0
        && size <= u64::from(most)
        && key.start == end.start
        && key.start <= key.seq
        && size <= key.seq - key.start
        && key.seq - size == reached
        && key.seq <= end.end
}

/// Makes these the bytes.
fn put(bytes: &mut Bytes, new: &[u8]) -> Result<(), NoMemory>
    ensures { OnOk result (bytes.new ≡ new.now) }
{
    bytes.truncate(0);
    bytes.push_all(new)
}
