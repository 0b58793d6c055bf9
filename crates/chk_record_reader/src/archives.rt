//! The bytes of one stream in a folder's segments.

ghost use Rattle.std.specs.Prelude.{◌≡◌, ◌<◌, ◌≤◌, ℕ, length, IsTrue, IfErr};
ghost use Rattle.chk_chunk.specs.Keys.{record_limit};
ghost use Rattle.chk_site.specs.Files.{Files};
ghost use Rattle.chk_site.specs.History.{Every};
ghost use Rattle.chk_site.specs.Site.{Adds};
ghost use Rattle.chk_site.specs.Runs.{anyhow, Leads};
ghost use Rattle.chk_world.specs.Sight.{job};
ghost use Rattle.chk_world.specs.JobSteps.{IsOf, ReadsFile};
ghost use Rattle.chk_record_index.specs.Faults.{JobCause, FailsLast, IsOfRead};
ghost use Rattle.chk_record_index.specs.Pieces.{AsksInPieces};
ghost use Rattle.chk_book.specs.Books.{book_view};
ghost use Rattle.chk_book.specs.Folders.{is_folder};
ghost use Rattle.chk_record_reader.specs.Streams.{stream_of};
ghost use Rattle.chk_record_reader.specs.Segments.{names_of, HasFiles, SparesFiles, AreSettled};
ghost use Rattle.chk_record_index.specs.Causes.{Shows};
ghost use Rattle.chk_record_reader.specs.Gone.{IsGoneIn, IsUnreadable};
ghost use Rattle.chk_record_reader.specs.Archives.{CanJoin, HasJoined, HasSoFar, JoinedOne, ReadArchive};

use crate::courses::{StreamRef, stream_break};
use crate::faults::break_fault;
use crate::gathering::{fetch, gather_all};
use crate::names::{most_in, segment_names};
use crate::reader::RecordReader;
use chk_book::Book;
use chk_bytes::{Bytes, Word};
use chk_record_index::{Heads, JobFault};
use chk_site::{Site, Who};
use std::alloc::Global;

/// The bytes of a stream in the segments that the book of a folder names, without its aside
/// segment; none where the book doesn't have the stream. It holds all of them, and a row for each
/// record of these segments.
///
/// `Damaged` comes with the segment's name at the first place from which on it isn't one of
/// chunks; else at the first record of the stream that has another start than in the book, doesn't
/// begin where the ones before it end, or ends past its end in the book; else with the book's name
/// at the stream's end there, where the records don't reach it. `Spent` never comes.
///
/// Each segment is read once, in pieces of at most 1,048,576 bytes, and the stream's records once
/// more.
pub fn archive_of<S: Site>(
    book: &Book,
    alloc: Global,
    site: &mut S,
    who: &Who,
    folder: &str,
    source: &str,
    kind: &str,
    name: &str,
) -> Result<Bytes, JobFault>
    requires { IsTrue (is_folder folder.now) }
    ensures raw { (held : Files) → who.now ≡ job → AreSettled (names_of folder.now
        (book_view book.now)) held
        → Adds (S.told site.old) (S.told site.new)
        (Leads (anyhow (SparesFiles (names_of folder.now (book_view book.now)))) (HasFiles
        (names_of folder.now (book_view book.now)) held)
        (ReadArchive folder.now (book_view book.now) held (record
        { source = source.now; kind = kind.now; name = name.now }) result)) }
    ensures shown { Adds (S.told site.old) (S.told site.new)
        (Shows (IsUnreadable folder.now (book_view book.now)) result) }
    ensures own { who.now ≡ job → Adds (S.told site.old) (S.told site.new) (Every
        (IsOf ReadsFile)) }
    ensures pieces { Adds (S.told site.old) (S.told site.new) (Every AsksInPieces) }
    ensures only { IfErr result IsOfRead }
    ensures last { Adds (S.told site.old) (S.told site.new) (FailsLast result) }
    ensures cause { JobCause (S.fault_count site.old) (S.fault_count site.new) result }
{
    let names = segment_names(alloc, folder, book)?;
    let stream = StreamRef { source, kind, name };
    read_archive(book, alloc, site, who, folder, &names, &stream)
}

/// The bytes of a stream in the segments of these names, which are those of the book.
fn read_archive<S: Site>(
    book: &Book,
    alloc: Global,
    site: &mut S,
    who: &Who,
    folder: &str,
    names: &[Word],
    stream: &StreamRef<'_>,
) -> Result<Bytes, JobFault>
    requires { names.now ≡ names_of folder.now (book_view book.now) }
    ensures raw { (held : Files) → who.now ≡ job → AreSettled (names_of folder.now
        (book_view book.now)) held
        → Adds (S.told site.old) (S.told site.new)
        (Leads (anyhow (SparesFiles (names_of folder.now (book_view book.now)))) (HasFiles
        (names_of folder.now (book_view book.now)) held)
        (ReadArchive folder.now (book_view book.now) held (stream_of stream.now) result)) }
    ensures shown { Adds (S.told site.old) (S.told site.new)
        (Shows (IsUnreadable folder.now (book_view book.now)) result) }
    ensures own { who.now ≡ job → Adds (S.told site.old) (S.told site.new) (Every
        (IsOf ReadsFile)) }
    ensures pieces { Adds (S.told site.old) (S.told site.new) (Every AsksInPieces) }
    ensures only { IfErr result IsOfRead }
    ensures last { Adds (S.told site.old) (S.told site.new) (FailsLast result) }
    ensures cause { JobCause (S.fault_count site.old) (S.fault_count site.new) result }
{
    let heads = gather_all(alloc, site, who, names, most_in(folder))?;
    if let Some(found) = stream_break(book.ends.as_slice(), stream, &heads) {
        return Err(break_fault(alloc, book, folder, names, &heads, stream, found));
    }
    joined(alloc, site, who, names, &heads, stream)
}

/// The values of a stream's records, in the order of the heads.
fn joined<S: Site>(
    alloc: Global,
    site: &mut S,
    who: &Who,
    names: &[Word],
    heads: &Heads,
    stream: &StreamRef<'_>,
) -> Result<Bytes, JobFault>
    ensures raw { (most : ℕ) (held : Files) → most ≤ record_limit → AreSettled names.now held → Adds
        (S.told site.old) (S.told site.new)
        (Leads (anyhow (SparesFiles names.now)) (CanJoin most names.now held heads.now)
        (HasJoined (stream_of stream.now) names.now held heads.now result)) }
    ensures shown { Adds (S.told site.old) (S.told site.new)
        (Shows (IsGoneIn names.now heads.now) result) }
    ensures own { who.now ≡ job → Adds (S.told site.old) (S.told site.new) (Every
        (IsOf ReadsFile)) }
    ensures pieces { Adds (S.told site.old) (S.told site.new) (Every AsksInPieces) }
    ensures only { IfErr result IsOfRead }
    ensures last { Adds (S.told site.old) (S.told site.new) (FailsLast result) }
    ensures cause { JobCause (S.fault_count site.old) (S.fault_count site.new) result }
{
    let mut reader = RecordReader::new(alloc);
    let mut bytes = Bytes::new(alloc);
    for index in 0..heads.len() {
        join_one(
            alloc,
            site,
            who,
            &mut reader,
            &mut bytes,
            names,
            heads,
            index,
            stream,
        )?;
    }
    Ok(bytes)
}

/// Puts the value of a head's record behind the others, where it is one of the stream.
fn join_one<S: Site>(
    alloc: Global,
    site: &mut S,
    who: &Who,
    reader: &mut RecordReader,
    bytes: &mut Bytes,
    names: &[Word],
    heads: &Heads,
    index: usize,
    stream: &StreamRef<'_>,
) -> Result<(), JobFault>
    requires { index < length heads.now }
    ensures raw { (most : ℕ) (held : Files) → most ≤ record_limit → AreSettled names.now held → Adds
        (S.told site.old) (S.told site.new)
        (Leads (anyhow (SparesFiles names.now)) (HasSoFar
        (stream_of stream.now) most names.now held heads.now reader.old bytes.old index)
        (JoinedOne (stream_of stream.now) most names.now held heads.now reader.new bytes.new index
        result)) }
    ensures shown { Adds (S.told site.old) (S.told site.new)
        (Shows (IsGoneIn names.now heads.now) result) }
    ensures own { who.now ≡ job → Adds (S.told site.old) (S.told site.new) (Every
        (IsOf ReadsFile)) }
    ensures pieces { Adds (S.told site.old) (S.told site.new) (Every AsksInPieces) }
    ensures only { IfErr result IsOfRead }
    ensures last { Adds (S.told site.old) (S.told site.new) (FailsLast result) }
    ensures cause { JobCause (S.fault_count site.old) (S.fault_count site.new) result }
{
    if !stream.has(&heads.get(index)) {
        return Ok(());
    }
    fetch(alloc, site, who, reader, names, heads, index)?;
    bytes.push_all(reader.value())?;
    Ok(())
}
