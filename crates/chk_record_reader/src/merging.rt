//! One segment of all records that a book names.

ghost use Rattle.std.specs.Prelude.{◌≡◌, ◌+◌, ◌<◌, ◌≤◌, length, slice_index_or, IfOk, OnOk, OnErr, IfErr, IsTrue};
ghost use Rattle.chk_chunk.specs.Keys.{record_limit};
ghost use Rattle.chk_site.specs.Files.{Files};
ghost use Rattle.chk_site.specs.History.{Every};
ghost use Rattle.chk_site.specs.Site.{Adds};
ghost use Rattle.chk_site.specs.Runs.{anyhow, Leads};
ghost use Rattle.chk_world.specs.Sight.{job};
ghost use Rattle.chk_world.specs.JobSteps.{IsOf, ReadsFile, ReadsOrWrites};
ghost use Rattle.chk_record_index.specs.Faults.{JobCause, FailsLast, IsOfRead};
ghost use Rattle.chk_record_index.specs.Pieces.{AsksInPieces};
ghost use Rattle.chk_record_index.specs.Order.{no_head, in_head_order};
ghost use Rattle.chk_book.specs.Books.{book_view};
ghost use Rattle.chk_book.specs.Folders.{segment_name, most_in, is_folder};
ghost use Rattle.chk_book.specs.Segmenting.{Writing};
ghost use Rattle.chk_book.specs.Written.{IsAt, taken};
ghost use Rattle.chk_record_reader.specs.Segments.{names_of, HasFiles, SparesFiles, AreSettled};
ghost use Rattle.chk_record_index.specs.Causes.{Shows};
ghost use Rattle.chk_record_reader.specs.Checking.{AllGoWell, ToldOfSome};
ghost use Rattle.chk_record_reader.specs.Gone.{IsGoneIn, IsUnsound, ShowsSound};
ghost use Rattle.chk_record_reader.specs.Merging.{SoundHeads, SparesBoth, AreApart, CanWrite, chunk_read, WroteOne, CanBegin, bare_book, WroteMerged, merged_result, HasMerged};
ghost use Rattle.chk_book.specs.Causes.{SpentBook};
ghost use Rattle.chk_book.specs.Loaded.{book_result};

use crate::checking::check_records;
use crate::gathering::{fetch, gather_all};
use crate::names::{most_in, segment_names};
use crate::parts::{chunk_of, is_part};
use crate::reader::RecordReader;
use chk_book::{Book, Ends, Segmenter, Segments};
use chk_bytes::{LAST_NUMBER, Word};
use chk_record_index::{Heads, JobFault};
use chk_site::{Site, Who};
use std::alloc::Global;

/// Writes one segment with all records of those that the book of a folder names, stream after stream in the book's order,
/// and names it alone. The aside segment stays, and the book isn't published. After a refusal the book is as before.
///
/// `Spent` comes exactly where the next number is 2^63 - 1, before any call is made. `Damaged` comes as in `archive_of`, of
/// the first stream in the book's order of which something is wrong, else of the first one that isn't in the book.
///
/// Each segment is read once, and each record once more; it is written once, by appends of about 1,048,576 bytes, and synced
/// at the end. It holds a row for each record and a number for each stream, and its check costs a search among the streams for
/// each record; where `Damaged` comes, or there is no memory for those numbers, the product of the streams and the records.
pub fn merge<S: Site>(
    book: &mut Book,
    alloc: Global,
    site: &mut S,
    who: &Who,
    folder: &str,
) -> Result<(), JobFault>
    requires { IsTrue (is_folder folder.now) }
    ensures raw { (held : Files) → who.now ≡ job → AreSettled (names_of folder.now (book_view book.old)) held
        → AreApart (names_of folder.now (book_view book.old)) (segment_name folder.now (book_view book.old).next)
        → Adds (S.told site.old) (S.told site.new)
        (Leads (anyhow (SparesBoth (names_of folder.now (book_view book.old)) (segment_name folder.now (book_view book.old).next)))
        (HasFiles (names_of folder.now (book_view book.old)) held)
        (HasMerged folder.now (book_view book.old) (book_view book.new) held result)) }
    ensures shown { Adds (S.told site.old) (S.told site.new) (Shows (IsUnsound folder.now (book_view book.old)) result) }
    ensures same { OnErr result (book_view book.new ≡ book_view book.old) }
    ensures kept { ((book_view book.new).ends ≡ (book_view book.old).ends) × ((book_view book.new).aside ≡ (book_view book.old).aside) }
    ensures own { who.now ≡ job → Adds (S.told site.old) (S.told site.new)
        (Every (IsOf (ReadsOrWrites (segment_name folder.now (book_view book.old).next)))) }
    ensures pieces { who.now ≡ job → Adds (S.told site.old) (S.told site.new) (Every AsksInPieces) }
    ensures next { OnOk result ((book_view book.new).next ≡ (book_view book.old).next + 1) }
    ensures spent { SpentBook (book_view book.old) result }
    ensures last { Adds (S.told site.old) (S.told site.new) (FailsLast result) }
    ensures cause { JobCause (S.fault_count site.old) (S.fault_count site.new) result }
{
    if book.next == LAST_NUMBER {
        return Err(JobFault::Spent { number: book.next });
    }
    let names = segment_names(alloc, folder, book)?;
    let heads = sound_heads(book, alloc, site, who, folder, &names)?;
    let merged = write_merged(alloc, site, who, folder, book.next, &names, &heads)?;
    book.next = merged.next;
    book.segments = merged.segments;
    Ok(())
}

/// The heads of all records that the book names, in order, where their streams go on up to their ends.
fn sound_heads<S: Site>(
    book: &Book,
    alloc: Global,
    site: &mut S,
    who: &Who,
    folder: &str,
    names: &[Word],
) -> Result<Heads, JobFault>
    requires { names.now ≡ names_of folder.now (book_view book.now) }
    ensures raw { (held : Files) → who.now ≡ job → AreSettled (names_of folder.now (book_view book.now)) held
        → Adds (S.told site.old) (S.told site.new)
        (Leads (anyhow (SparesFiles (names_of folder.now (book_view book.now)))) (HasFiles (names_of folder.now (book_view book.now)) held)
        (SoundHeads folder.now (book_view book.now) held result)) }
    ensures shown { Adds (S.told site.old) (S.told site.new) (ShowsSound folder.now (book_view book.now) result) }
    ensures own { who.now ≡ job → Adds (S.told site.old) (S.told site.new) (Every (IsOf ReadsFile)) }
    ensures pieces { Adds (S.told site.old) (S.told site.new) (Every AsksInPieces) }
    ensures only { IfErr result IsOfRead }
    ensures last { Adds (S.told site.old) (S.told site.new) (FailsLast result) }
    ensures cause { JobCause (S.fault_count site.old) (S.fault_count site.new) result }
{
    let mut heads = gather_all(alloc, site, who, names, most_in(folder))?;
    put_in_order(&mut heads, alloc, book, folder, names)?;
    Ok(heads)
}

/// Puts the heads of a folder's records in order, where their streams go on up to the ends of its book;
/// else it tells the place at which one doesn't. `names` are those of the book's segments.
pub fn put_in_order(
    heads: &mut Heads,
    alloc: Global,
    book: &Book,
    folder: &str,
    names: &[Word],
) -> Result<(), JobFault>
    ensures well { OnOk result (AllGoWell (book_view book.now).ends heads.old) }
    ensures order { OnOk result (heads.new ≡ in_head_order heads.old) }
    ensures err { IfErr result (ToldOfSome folder.now (book_view book.now) names.now heads.old) }
{
    check_records(alloc, book, folder, names, heads)?;
    heads.sort(alloc)?;
    Ok(())
}

/// Reads the record of a head back, and writes it behind the others.
fn write_one<S: Site>(
    alloc: Global,
    site: &mut S,
    who: &Who,
    segmenter: &mut Segmenter,
    reader: &mut RecordReader,
    names: &[Word],
    heads: &Heads,
    index: usize,
    most: u32,
) -> Result<(), JobFault>
    requires index { index < length heads.now }
    requires most { most ≡ most_in segmenter.old.folder }
    requires few { most ≤ record_limit }
    requires who { segmenter.old.who ≡ who.now }
    ensures raw { (w : Writing) (held : Files) → who.now ≡ job → IsAt segmenter.old w → AreSettled names.now held
        → AreApart names.now (segment_name w.folder w.number) → Adds (S.told site.old) (S.told site.new)
        (Leads (anyhow (SparesBoth names.now (segment_name w.folder w.number))) (CanWrite most names.now held heads.now reader.old w index)
        (WroteOne most names.now held heads.now reader.new
        (taken segmenter.old w (chunk_read (slice_index_or heads.now index no_head) reader.new)) index result)) }
    ensures shown { Adds (S.told site.old) (S.told site.new) (Shows (IsGoneIn names.now heads.now) result) }
    ensures at { (w : Writing) → IsAt segmenter.old w
        → OnOk result (IsAt segmenter.new (taken segmenter.old w (chunk_read (slice_index_or heads.now index no_head) reader.new))) }
    ensures who { segmenter.new.who ≡ segmenter.old.who }
    ensures own { (w : Writing) → IsAt segmenter.old w → who.now ≡ job → Adds (S.told site.old) (S.told site.new)
        (Every (IsOf (ReadsOrWrites (segment_name w.folder w.number)))) }
    ensures pieces { (w : Writing) → IsAt segmenter.old w → who.now ≡ job
        → Adds (S.told site.old) (S.told site.new) (Every AsksInPieces) }
    ensures only { IfErr result IsOfRead }
    ensures last { Adds (S.told site.old) (S.told site.new) (FailsLast result) }
    ensures cause { JobCause (S.fault_count site.old) (S.fault_count site.new) result }
{
    fetch(alloc, site, who, reader, names, heads, index)?;
    let chunk = chunk_of(heads.get(index).key, reader.value());
    if !is_part(&chunk, most) {
        return Err(JobFault::NoMemory);
    }
    segmenter.part(alloc, site, &chunk)
}

/// Writes the records of all heads, in turn, as one segment of this number, and gives a book that names it alone.
fn write_merged<S: Site>(
    alloc: Global,
    site: &mut S,
    who: &Who,
    folder: &str,
    next: u64,
    names: &[Word],
    heads: &Heads,
) -> Result<Book, JobFault>
    requires { IsTrue (is_folder folder.now) }
    ensures raw { (held : Files) → who.now ≡ job → AreSettled names.now held → AreApart names.now (segment_name folder.now next)
        → Adds (S.told site.old) (S.told site.new)
        (Leads (anyhow (SparesBoth names.now (segment_name folder.now next))) (CanBegin (most_in folder.now) names.now held heads.now)
        (WroteMerged folder.now next names.now held heads.now (book_result result))) }
    ensures shown { Adds (S.told site.old) (S.told site.new) (Shows (IsGoneIn names.now heads.now) result) }
    ensures own { who.now ≡ job → Adds (S.told site.old) (S.told site.new) (Every (IsOf (ReadsOrWrites (segment_name folder.now next)))) }
    ensures pieces { who.now ≡ job → Adds (S.told site.old) (S.told site.new) (Every AsksInPieces) }
    ensures next { IfOk result (λ b. (book_view b).next ≡ next + 1) }
    ensures spent { SpentBook (bare_book next) result }
    ensures last { Adds (S.told site.old) (S.told site.new) (FailsLast result) }
    ensures cause { JobCause (S.fault_count site.old) (S.fault_count site.new) result }
{
    let mut merged = Book {
        next,
        segments: Segments::new(alloc),
        ends: Ends::new(alloc),
        aside: None,
    };
    write_segment(&mut merged, alloc, site, who, folder, names, heads)?;
    Ok(merged)
}

/// Writes the records of all heads, in turn, as the next segment of a book that names none, and enters it.
fn write_segment<S: Site>(
    merged: &mut Book,
    alloc: Global,
    site: &mut S,
    who: &Who,
    folder: &str,
    names: &[Word],
    heads: &Heads,
) -> Result<(), JobFault>
    requires folder { IsTrue (is_folder folder.now) }
    requires bare { book_view merged.old ≡ bare_book merged.old.next }
    ensures raw { (held : Files) → who.now ≡ job → AreSettled names.now held → AreApart names.now (segment_name folder.now merged.old.next)
        → Adds (S.told site.old) (S.told site.new)
        (Leads (anyhow (SparesBoth names.now (segment_name folder.now merged.old.next))) (CanBegin (most_in folder.now) names.now held heads.now)
        (WroteMerged folder.now merged.old.next names.now held heads.now (merged_result (book_view merged.new) result))) }
    ensures shown { Adds (S.told site.old) (S.told site.new) (Shows (IsGoneIn names.now heads.now) result) }
    ensures own { who.now ≡ job → Adds (S.told site.old) (S.told site.new)
        (Every (IsOf (ReadsOrWrites (segment_name folder.now merged.old.next)))) }
    ensures pieces { who.now ≡ job → Adds (S.told site.old) (S.told site.new) (Every AsksInPieces) }
    ensures next { OnOk result ((book_view merged.new).next ≡ merged.old.next + 1) }
    ensures spent { SpentBook (bare_book merged.old.next) result }
    ensures last { Adds (S.told site.old) (S.told site.new) (FailsLast result) }
    ensures cause { JobCause (S.fault_count site.old) (S.fault_count site.new) result }
{
    let most = most_in(folder);
    let mut segmenter = merged.begin_segment(alloc, site, who, folder)?;
    let mut reader = RecordReader::new(alloc);
    for index in 0..heads.len() {
        write_one(
            alloc,
            site,
            who,
            &mut segmenter,
            &mut reader,
            names,
            heads,
            index,
            most,
        )?;
    }
    segmenter.finish(alloc, site, merged)?;
    Ok(())
}
