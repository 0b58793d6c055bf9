//! A file's records are looked at as they are read, and the heads of those of what is new are held.

ghost use Rattle.std.specs.Prelude.{◌≡◌, ◌≤◌, ◌<◌, ◌-◌, ◌∷◌, [], ℕ, List, length, map, Option, false, IsTrue, IfOk, IfErr, OnOk};
ghost use Rattle.chk_bytes.specs.Words.{is_word};
ghost use Rattle.chk_site.specs.Files.{File};
ghost use Rattle.chk_site.specs.Effect.{IsSmallFile};
ghost use Rattle.chk_site.specs.History.{Every};
ghost use Rattle.chk_site.specs.Site.{Adds, LastFailed, OutsideCause};
ghost use Rattle.chk_site.specs.Runs.{anyhow, Leads};
ghost use Rattle.chk_replace.specs.Load.{Has};
ghost use Rattle.chk_chunk.specs.Keys.{Key, IsKey, has_value, chunk_limit, record_limit};
ghost use Rattle.chk_chunk.specs.Lent.{lent_key};
ghost use Rattle.chk_salvage.specs.Views.{placed_of};
ghost use Rattle.chk_salvage.specs.Feeding.{IsFed, fed_limit};
ghost use Rattle.chk_world.specs.Books.{ends_rise};
ghost use Rattle.chk_world.specs.Sight.{job};
ghost use Rattle.chk_world.specs.JobSteps.{IsOf, ReadsFile, SparesFile};
ghost use Rattle.chk_record_index.specs.Faults.{JobCause, FailsLast, IsOfWrite};
ghost use Rattle.chk_record_index.specs.Order.{lent_head};
ghost use Rattle.chk_record_index.specs.Pieces.{AsksInPieces, asks_for, HasBytes};
ghost use Rattle.chk_record_index.specs.Shown.{ShowsBytes};
ghost use Rattle.chk_book.specs.Views.{end_view};
ghost use Rattle.chk_demux_scan.specs.Forward.{AreSpans};
ghost use Rattle.chk_demux_scan.specs.Looking.{LooksMore, LookedIf, LookedFed, LookedAt, ShowsLooked};

use crate::forward::{Span, no_spans, take_next_head};
use chk_book::End;
use chk_bytes::{Bytes, NoMemory};
use chk_chunk::read_key;
use chk_record_index::{HeadRef, Heads, JobFault, SLACK, read_piece, unfinished};
use chk_salvage::{EntryRef, Fed, Pieces};
use chk_site::{OutsideFault, Site, Who};
use std::alloc::Global;

/// The most bytes of a chunk's data.
const MOST: u32 = 131_072;

/// What the records of a file are like that were looked at.
#[derive(Drop)]
pub(crate) struct Look {
    pub spans: Vec<Span>,
    /// They don't go on from each other as the book says, whatever follows.
    pub broken: bool,
}

impl Look {
    /// Before the first record.
    pub(crate) fn new(alloc: Global, ends: &[End]) -> Result<Look, NoMemory>
        ensures { IfOk result (λ look. (look.broken ≡ false)
            × (length look.spans.items ≡ length ends.now)
            × AreSpans (map end_view ends.now) [] look.spans.items) }
    {
        Ok(Look {
            spans: no_spans(alloc, ends)?,
            broken: false,
        })
    }
}

/// Looks at a file's records, and puts the heads of those that end past the places of their streams
/// behind the others; the answer is `false` where the file isn't one of chunks.
///
/// It is read in pieces of at most 1,048,576 bytes, of which one is held with one record.
pub(crate) fn look_file<S: Site>(
    alloc: Global,
    site: &mut S,
    who: &Who,
    ends: &[End],
    places: &[u64],
    name: &str,
    file: u32,
    look: &mut Look,
    heads: &mut Heads,
) -> Result<bool, JobFault>
    requires job { who.now ≡ job }
    requires word { IsTrue (is_word name.now) }
    requires places { length places.now ≡ length ends.now }
    requires spans { length look.old.spans.items ≡ length ends.now }
    requires first { look.old.broken ≡ false }
    requires none { AreSpans (map end_view ends.now) [] look.old.spans.items }
    ensures raw { (f : Option File) → IsTrue (ends_rise (map end_view ends.now)) → IsSmallFile f
        → Adds (S.told site.old) (S.told site.new)
        (Leads (anyhow (SparesFile name.now)) (Has name.now f)
        (LookedAt (map end_view ends.now) places.now name.now f file heads.old heads.new look.new
        result)) }
    ensures same { length look.new.spans.items ≡ length ends.now }
    ensures shown { IsTrue (ends_rise (map end_view ends.now))
        → Adds (S.told site.old) (S.told site.new)
        (ShowsLooked (map end_view ends.now) places.now name.now file heads.old heads.new look.new
        result) }
    ensures own { Adds (S.told site.old) (S.told site.new) (Every (IsOf ReadsFile)) }
    ensures pieces { Adds (S.told site.old) (S.told site.new) (Every AsksInPieces) }
    ensures only { IfErr result IsOfWrite }
    ensures last { Adds (S.told site.old) (S.told site.new) (FailsLast result) }
    ensures cause { JobCause (S.fault_count site.old) (S.fault_count site.new) result }
{
    let mut pieces = Pieces::new(alloc, MOST + SLACK);
    let mut at = 0;
    loop {
        if !look_fed(alloc, ends, places, &mut pieces, file, look, heads)? {
            return Ok(false);
        }
        let piece = piece_at(alloc, site, who, name, at)?;
        if piece.len() == 0 {
            return Ok(unfinished(&pieces).is_none());
        }
        pieces.feed(piece.as_slice())?;
        at += piece.len() as u64;
    }
}

/// What a file has from a place on, at most 1,048,576 bytes; one that isn't there counts as empty.
fn piece_at<S: Site>(
    alloc: Global,
    site: &mut S,
    who: &Who,
    name: &str,
    at: u64,
) -> Result<Bytes, OutsideFault>
    requires { who.now ≡ job }
    ensures raw { (f : Option File) → Adds (S.told site.old) (S.told site.new)
        (Leads (anyhow (SparesFile name.now)) (Has name.now f)
        (HasBytes name.now at record_limit f result)) }
    ensures shown { Adds (S.told site.old) (S.told site.new)
        (ShowsBytes name.now at (asks_for record_limit at) result) }
    ensures own { Adds (S.told site.old) (S.told site.new) (Every (IsOf ReadsFile)) }
    ensures pieces { Adds (S.told site.old) (S.told site.new) (Every AsksInPieces) }
    ensures few { IfOk result (λ bytes. length bytes ≤ asks_for record_limit at) }
    ensures last { Adds (S.told site.old) (S.told site.new) (LastFailed result) }
    ensures cause { OutsideCause (S.fault_count site.old) (S.fault_count site.new) result }
{
    match read_piece(alloc, site, who, name, at) {
        Ok(Some(bytes)) => Ok(bytes),
        Ok(None) => Ok(Bytes::new(alloc)),
        Err(fault) => Err(fault),
    }
}

/// Looks at all records that are whole in what was fed; the answer is `false` where the file can't
/// be one of chunks, whatever follows.
fn look_fed(
    alloc: Global,
    ends: &[End],
    places: &[u64],
    pieces: &mut Pieces,
    file: u32,
    look: &mut Look,
    heads: &mut Heads,
) -> Result<bool, NoMemory>
    requires fed { (fed : List ℕ) × IsFed pieces.old fed }
    requires places { length places.now ≡ length ends.now }
    requires spans { length look.old.spans.items ≡ length ends.now }
    ensures limit { fed_limit pieces.new ≡ fed_limit pieces.old }
    ensures same { length look.new.spans.items ≡ length ends.now }
    ensures ok { IfOk result (λ on. LookedFed on (map end_view ends.now) places.now file pieces.old
        pieces.new heads.old look.old heads.new look.new) }
{
    let mut place = pieces.place();
    loop {
        match pieces.next() {
            Fed::Entry(found) => {
                if !look_record(alloc, ends, places, &found, file, look, heads)? {
                    return Ok(false);
                }
                place = found.end;
            }
            Fed::More => return Ok(true),
            Fed::Header(_) => return Ok(false),
            Fed::Damaged { .. } => return Ok(false),
            Fed::Long { .. } => return Ok(false),
        }
    }
}

/// Looks at a record; the answer is `false` where it isn't a chunk.
fn look_record(
    alloc: Global,
    ends: &[End],
    places: &[u64],
    found: &EntryRef<'_>,
    file: u32,
    look: &mut Look,
    heads: &mut Heads,
) -> Result<bool, NoMemory>
    requires places { length places.now ≡ length ends.now }
    requires spans { length look.old.spans.items ≡ length ends.now }
    ensures same { length look.new.spans.items ≡ length ends.now }
    ensures ok { IfOk result (λ is. LookedIf is (map end_view ends.now) places.now file
        (placed_of found.now) heads.old look.old heads.new look.new) }
{
    let key = match read_key(found.key) {
        Ok(key) => key,
        Err(_) => return Ok(false),
    };
    let size = found.value.len() as u64;
    if !is_size(key.start, key.seq, size) {
        return Ok(false);
    }
    let head = HeadRef {
        key,
        begin: key.seq - size,
        file,
        at: found.at,
    };
    look_at(
        alloc,
        ends,
        places,
        found.key,
        &head,
        size as u32,
        look,
        heads,
    )?;
    Ok(true)
}

/// Looks at a chunk's head, whose key these bytes are, and holds it where it is of what is new.
fn look_at(
    alloc: Global,
    ends: &[End],
    places: &[u64],
    bytes: &[u8],
    head: &HeadRef<'_>,
    size: u32,
    look: &mut Look,
    heads: &mut Heads,
) -> Result<(), NoMemory>
    requires key { IsKey (lent_key head.now.key) bytes.now }
    requires begin { head.now.begin ≡ head.now.key.seq - size }
    requires some { head.now.begin < head.now.key.seq }
    requires places { length places.now ≡ length ends.now }
    requires spans { length look.old.spans.items ≡ length ends.now }
    ensures same { length look.new.spans.items ≡ length ends.now }
    ensures ok { OnOk result (LooksMore (map end_view ends.now) places.now
        (lent_head head.now ∷ []) heads.old look.old heads.new look.new) }
{
    if look.broken {
        return Ok(());
    }
    let Some(place) = take_next_head(ends, &mut look.spans, head) else {
        look.broken = true;
        return Ok(());
    };
    if head.key.seq <= places[place] {
        return Ok(());
    }
    heads.push(alloc, bytes, &head.key, size, head.file, head.at)
}

/// A value of this size has at least one byte, no more than a chunk may have, and doesn't begin
/// before the stream's start.
fn is_size(start: u64, seq: u64, size: u64) -> bool
    ensures is { (k : Key) (value : List ℕ) → k.start ≡ start → k.seq ≡ seq → length value ≡ size
        → result ≡ has_value chunk_limit k value }
    ensures some { IsTrue result → 0 < size }
    ensures small { IsTrue result → size ≤ chunk_limit }
    ensures fits { IsTrue result → size ≤ seq }
{
    size > 0 && size <= u64::from(MOST) && start <= seq && size <= seq - start
}
