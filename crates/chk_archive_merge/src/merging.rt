//! One segment of all records that a book names, by cursors.

ghost use Rattle.std.specs.Prelude.{◌≡◌, ◌+◌, ◌++◌, ◌∷◌, ◌<◌, ◌≤◌, [], List, ℕ, Contains, Err, length, map, IsTrue, IfOk, IfErr, IfSome, OnOk, OnErr};
ghost use Rattle.chk_bytes.specs.Numbers.{last_number};
ghost use Rattle.chk_chunk.specs.Keys.{record_limit};
ghost use Rattle.chk_site.specs.Files.{Files};
ghost use Rattle.chk_site.specs.History.{Every};
ghost use Rattle.chk_site.specs.Site.{Adds};
ghost use Rattle.chk_site.specs.Runs.{anyhow, Leads};
ghost use Rattle.chk_world.specs.Sight.{job};
ghost use Rattle.chk_world.specs.JobSteps.{IsOf, ReadsFile, ReadsOrWrites, SparesFile, WritesTo};
ghost use Rattle.chk_record_index.specs.Causes.{Shows};
ghost use Rattle.chk_record_index.specs.Faults.{JobCause, FailsLast, IsOfBegin, IsOfWrite, Worked};
ghost use Rattle.chk_record_index.specs.Pieces.{AsksInPieces};
ghost use Rattle.chk_book.specs.Books.{book_view};
ghost use Rattle.chk_book.specs.Causes.{SpentBook};
ghost use Rattle.chk_book.specs.Folders.{segment_name, most_in, is_folder};
ghost use Rattle.chk_book.specs.Segmenting.{Writing, HoldsSegment, begun};
ghost use Rattle.chk_book.specs.Views.{end_view};
ghost use Rattle.chk_book.specs.Written.{IsAt, taken};
ghost use Rattle.chk_record_reader.specs.Gone.{IsUnsound};
ghost use Rattle.chk_record_reader.specs.Merging.{AreApart, HasMerged, SparesBoth, bare_book};
ghost use Rattle.chk_record_reader.specs.Segments.{names_of, AreSettled, HasFiles, SparesFiles};
ghost use Rattle.chk_record_reader.proofs.OnePass.{AreRising};
ghost use Rattle.chk_archive_merge.specs.Merges.{CanPut, PutOne, WasNext, IsPut, IsPutAt, chunk_at, IsMerging, WroteAt, StandOpen, CanTour, whole_result, HasOpened, StillHas, WroteAll, HasTried, HasPut, WroteInTurn, tried};

use crate::cursor::Cursor;
use crate::tour::{Tour, Turn};
use chk_book::{Book, End, Ends, Segmenter, Segments};
use chk_bytes::{LAST_NUMBER, NoMemory, Word};
use chk_record_index::JobFault;
use chk_record_reader::{most_in, segment_names};
use chk_site::{Site, Who};
use std::alloc::Global;

/// Writes one segment with all records of those that the book of a folder names, stream after stream in the book's order,
/// and names it alone, as `chk_record_reader::merge` does. The aside segment stays, and the book isn't published. After a refusal the
/// book is as before.
///
/// Where each segment has its streams in the book's order, and each stream's records in the order of their offsets, the segments
/// are gone through side by side, and no row for a record is held: it takes at most 1 MiB for each segment, whatever the number of
/// records. Each record is read twice, the first time to see that all is so, and written once. Else, and where anything is wrong,
/// `chk_record_reader::merge` is called, which tells what it is.
///
/// `Spent` comes exactly where the next number is 2^63 - 1, and then nothing is written.
pub fn merge<S: Site>(
    book: &mut Book,
    alloc: Global,
    site: &mut S,
    who: &Who,
    folder: &str,
) -> Result<(), JobFault>
    requires folder { IsTrue (is_folder folder.now) }
    requires job { who.now ≡ job }
    ensures raw { (held : Files) → AreSettled (names_of folder.now (book_view book.old)) held
        → AreApart (names_of folder.now (book_view book.old)) (segment_name folder.now (book_view book.old).next)
        → Adds (S.told site.old) (S.told site.new)
        (Leads (anyhow (SparesBoth (names_of folder.now (book_view book.old)) (segment_name folder.now (book_view book.old).next)))
        (HasFiles (names_of folder.now (book_view book.old)) held)
        (HasMerged folder.now (book_view book.old) (book_view book.new) held result)) }
    ensures shown { Adds (S.told site.old) (S.told site.new) (Shows (IsUnsound folder.now (book_view book.old)) result) }
    ensures same { OnErr result (book_view book.new ≡ book_view book.old) }
    ensures kept { ((book_view book.new).ends ≡ (book_view book.old).ends) × ((book_view book.new).aside ≡ (book_view book.old).aside) }
    ensures own { Adds (S.told site.old) (S.told site.new)
        (Every (IsOf (ReadsOrWrites (segment_name folder.now (book_view book.old).next)))) }
    ensures pieces { Adds (S.told site.old) (S.told site.new) (Every AsksInPieces) }
    ensures next { OnOk result ((book_view book.new).next ≡ (book_view book.old).next + 1) }
    ensures spent { SpentBook (book_view book.old) result }
    ensures last { Adds (S.told site.old) (S.told site.new) (FailsLast result) }
    ensures cause { JobCause (S.fault_count site.old) (S.fault_count site.new) result }
{
    if book.next == LAST_NUMBER {
        return Err(JobFault::Spent { number: book.next });
    }
    let names = segment_names(alloc, folder, book)?;
    match merge_by_cursors(book, alloc, site, who, folder, &names)? {
        Some(merged) => {
            book.next = merged.next;
            book.segments = merged.segments;
            Ok(())
        }
        None => chk_record_reader::merge(book, alloc, site, who, folder),
    }
}

/// Merges where the segments are in order; else the answer is `None`, and nothing was written,
/// unless a file has changed meanwhile.
fn merge_by_cursors<S: Site>(
    book: &Book,
    alloc: Global,
    site: &mut S,
    who: &Who,
    folder: &str,
    names: &[Word],
) -> Result<Option<Book>, JobFault>
    requires folder { IsTrue (is_folder folder.now) }
    requires job { who.now ≡ job }
    requires names { names.now ≡ names_of folder.now (book_view book.now) }
    requires next { book.now.next ≡ last_number → ⊥ }
    ensures raw { (held : Files) → AreSettled names.now held → AreApart names.now (segment_name folder.now book.now.next)
        → Adds (S.told site.old) (S.told site.new)
        (Leads (anyhow (SparesBoth names.now (segment_name folder.now book.now.next))) (HasFiles names.now held)
        (HasTried folder.now (book_view book.now) held (tried result))) }
    ensures works { Adds (S.told site.old) (S.told site.new) (Worked (ReadsOrWrites (segment_name folder.now book.now.next)) result) }
    ensures next { IfOk result (λ given. IfSome given (λ b. (book_view b).next ≡ book.now.next + 1)) }
    ensures spent { IfErr result (λ fault. SpentBook {T = Unit {0}} (book_view book.now) (Err fault)) }
    ensures only { IfErr result IsOfBegin }
    ensures cause { JobCause (S.fault_count site.old) (S.fault_count site.new) result }
{
    let ends = book.ends.as_slice();
    if !are_rising(ends) {
        return Ok(None);
    }
    if !are_in_order(alloc, site, who, names, ends, most_in(folder))? {
        return Ok(None);
    }
    write_in_order(alloc, site, who, folder, book.next, names, ends)
}

/// Writes the records of segments that were in order as one of this number, and gives a book that
/// names it alone. The answer is `None` where it can't go on.
fn write_in_order<S: Site>(
    alloc: Global,
    site: &mut S,
    who: &Who,
    folder: &str,
    next: u64,
    names: &[Word],
    ends: &[End],
) -> Result<Option<Book>, JobFault>
    requires folder { IsTrue (is_folder folder.now) }
    requires job { who.now ≡ job }
    requires next { next ≡ last_number → ⊥ }
    ensures raw { (held : Files) → AreSettled names.now held → AreApart names.now (segment_name folder.now next)
        → AreRising (map end_view ends.now) (length ends.now) → Adds (S.told site.old) (S.told site.new)
        (Leads (anyhow (SparesBoth names.now (segment_name folder.now next))) (HasFiles names.now held)
        (WroteInTurn folder.now next names.now held (map end_view ends.now) (tried result))) }
    ensures works { Adds (S.told site.old) (S.told site.new) (Worked (ReadsOrWrites (segment_name folder.now next)) result) }
    ensures next { IfOk result (λ given. IfSome given (λ b. (book_view b).next ≡ next + 1)) }
    ensures spent { IfErr result (λ fault. SpentBook {T = Unit {0}} (bare_book next) (Err fault)) }
    ensures only { IfErr result IsOfBegin }
    ensures cause { JobCause (S.fault_count site.old) (S.fault_count site.new) result }
{
    let mut cursors = Vec::new(alloc);
    if !open_all(alloc, site, who, names, most_in(folder), &mut cursors)? {
        return Ok(None);
    }
    write_merged(alloc, site, who, folder, next, names, ends, &mut cursors)
}

/// Whether the segments are in order, and their records run as the book says. It reads them once.
fn are_in_order<S: Site>(
    alloc: Global,
    site: &mut S,
    who: &Who,
    names: &[Word],
    ends: &[End],
    most: u32,
) -> Result<bool, JobFault>
    requires most { most ≤ record_limit }
    requires job { who.now ≡ job }
    ensures raw { (held : Files) → AreSettled names.now held → Adds (S.told site.old) (S.told site.new)
        (Leads (anyhow (SparesFiles names.now)) (HasFiles names.now held) (StillHas names.now held result)) }
    ensures works { Adds (S.told site.old) (S.told site.new) (Worked ReadsFile result) }
    ensures only { IfErr result IsOfWrite }
    ensures cause { JobCause (S.fault_count site.old) (S.fault_count site.new) result }
{
    let mut cursors = Vec::new(alloc);
    if !open_all(alloc, site, who, names, most, &mut cursors)? {
        return Ok(false);
    }
    pass_all(alloc, site, who, &mut cursors, names, ends, most)
}

/// The streams stand in byte order, each of them once.
fn are_rising(ends: &[End]) -> bool
    ensures { IsTrue result → AreRising (map end_view ends.now) (length ends.now) }
{
    for index in 1..ends.len() {
        if !ends[index - 1].is_before(&ends[index]) {
            return false;
        }
    }
    true
}

/// Puts a cursor at the first record of each file behind the others; `false` where one can't be
/// begun.
fn open_all<S: Site>(
    alloc: Global,
    site: &mut S,
    who: &Who,
    names: &[Word],
    most: u32,
    cursors: &mut Vec<Cursor>,
) -> Result<bool, JobFault>
    requires most { most ≤ record_limit }
    requires job { who.now ≡ job }
    requires none { cursors.old.items ≡ [] }
    ensures raw { (held : Files) → AreSettled names.now held → Adds (S.told site.old) (S.told site.new)
        (Leads (anyhow (SparesFiles names.now)) (HasFiles names.now held)
        (HasOpened most names.now held cursors.new.items result)) }
    ensures count { IfOk result (λ opened. IsTrue opened → length cursors.new.items ≡ length names.now) }
    ensures works { Adds (S.told site.old) (S.told site.new) (Worked ReadsFile result) }
    ensures only { IfErr result IsOfWrite }
    ensures cause { JobCause (S.fault_count site.old) (S.fault_count site.new) result }
{
    for name in names {
        let mut cursor = Cursor::new(alloc, most);
        if !cursor.advance(alloc, site, who, name.as_str())? {
            return Ok(false);
        }
        add(cursors, cursor)?;
    }
    Ok(true)
}

/// Puts a cursor behind the others.
fn add(cursors: &mut Vec<Cursor>, cursor: Cursor) -> Result<(), NoMemory>
    ensures { OnOk result (cursors.new.items ≡ cursors.old.items ++ cursor ∷ []) }
{
    cursors.push(cursor)?;
    Ok(())
}

/// Writes the records at which the cursors stand, and all behind them, as one segment of this
/// number, and gives a book that names it alone. The answer is `None` where it can't go on.
fn write_merged<S: Site>(
    alloc: Global,
    site: &mut S,
    who: &Who,
    folder: &str,
    next: u64,
    names: &[Word],
    ends: &[End],
    cursors: &mut [Cursor],
) -> Result<Option<Book>, JobFault>
    requires folder { IsTrue (is_folder folder.now) }
    requires job { who.now ≡ job }
    requires count { length cursors.old ≡ length names.now }
    ensures raw { (held : Files) → AreSettled names.now held → AreApart names.now (segment_name folder.now next)
        → AreRising (map end_view ends.now) (length ends.now) → Adds (S.told site.old) (S.told site.new)
        (Leads (anyhow (SparesBoth names.now (segment_name folder.now next)))
        (StandOpen (most_in folder.now) names.now held cursors.old)
        (WroteInTurn folder.now next names.now held (map end_view ends.now) (tried result))) }
    ensures works { Adds (S.told site.old) (S.told site.new) (Worked (ReadsOrWrites (segment_name folder.now next)) result) }
    ensures next { IfOk result (λ given. IfSome given (λ b. (book_view b).next ≡ next + 1)) }
    ensures spent { IfErr result (λ fault. SpentBook {T = Unit {0}} (bare_book next) (Err fault)) }
    ensures only { IfErr result IsOfBegin }
    ensures cause { JobCause (S.fault_count site.old) (S.fault_count site.new) result }
{
    let mut merged = Book {
        next,
        segments: Segments::new(alloc),
        ends: Ends::new(alloc),
        aside: None,
    };
    if !write_segment(&mut merged, alloc, site, who, folder, names, ends, cursors)? {
        return Ok(None);
    }
    Ok(Some(merged))
}

/// Writes them as the next segment of a book that names none, and enters it; `false` where it can't
/// go on.
fn write_segment<S: Site>(
    merged: &mut Book,
    alloc: Global,
    site: &mut S,
    who: &Who,
    folder: &str,
    names: &[Word],
    ends: &[End],
    cursors: &mut [Cursor],
) -> Result<bool, JobFault>
    requires folder { IsTrue (is_folder folder.now) }
    requires job { who.now ≡ job }
    requires bare { book_view merged.old ≡ bare_book merged.old.next }
    requires count { length cursors.old ≡ length names.now }
    ensures raw { (held : Files) → AreSettled names.now held → AreApart names.now (segment_name folder.now merged.old.next)
        → AreRising (map end_view ends.now) (length ends.now) → Adds (S.told site.old) (S.told site.new)
        (Leads (anyhow (SparesBoth names.now (segment_name folder.now merged.old.next)))
        (StandOpen (most_in folder.now) names.now held cursors.old)
        (WroteInTurn folder.now merged.old.next names.now held (map end_view ends.now)
        (whole_result (book_view merged.new) result))) }
    ensures works { Adds (S.told site.old) (S.told site.new)
        (Worked (ReadsOrWrites (segment_name folder.now merged.old.next)) result) }
    ensures next { IfOk result (λ whole. IsTrue whole → (book_view merged.new).next ≡ merged.old.next + 1) }
    ensures spent { IfErr result (λ fault. SpentBook {T = Unit {0}} (bare_book merged.old.next) (Err fault)) }
    ensures only { IfErr result IsOfBegin }
    ensures cause { JobCause (S.fault_count site.old) (S.fault_count site.new) result }
{
    let next = merged.next;
    let mut segmenter = merged.begin_segment(alloc, site, who, folder)?;
    if !write_all(
        alloc,
        site,
        who,
        folder,
        next,
        &mut segmenter,
        cursors,
        names,
        ends,
    )? {
        return Ok(false);
    }
    segmenter.finish(alloc, site, merged)?;
    Ok(true)
}

/// Writes all records in turn; `false` where it can't go on.
fn write_all<S: Site>(
    alloc: Global,
    site: &mut S,
    who: &Who,
    folder: &str,
    next: u64,
    segmenter: &mut Segmenter,
    cursors: &mut [Cursor],
    names: &[Word],
    ends: &[End],
) -> Result<bool, JobFault>
    requires job { who.now ≡ job }
    requires who { segmenter.old.who ≡ who.now }
    requires begun { IsAt segmenter.old (begun folder.now next) }
    requires count { length cursors.old ≡ length names.now }
    ensures raw { (held : Files) → AreSettled names.now held → AreApart names.now (segment_name folder.now next)
        → Adds (S.told site.old) (S.told site.new)
        (Leads (anyhow (SparesBoth names.now (segment_name folder.now next)))
        (CanTour (most_in folder.now) names.now held (begun folder.now next) cursors.old)
        (WroteAll (most_in folder.now) names.now held (map end_view ends.now) folder.now next segmenter.new result)) }
    ensures some { IfOk result (λ whole. IsTrue whole
        → (w : Writing) × IsAt segmenter.new w × (w.folder ≡ folder.now) × (w.number ≡ next)) }
    ensures who { segmenter.new.who ≡ segmenter.old.who }
    ensures works { Adds (S.told site.old) (S.told site.new) (Worked (ReadsOrWrites (segment_name folder.now next)) result) }
    ensures only { IfErr result IsOfWrite }
    ensures cause { JobCause (S.fault_count site.old) (S.fault_count site.new) result }
{
    let most = most_in(folder);
    let mut tour = Tour::new(ends);
    for _turn in 0..u64::MAX {
        match tour.seek(ends, cursors) {
            Turn::Write => {}
            Turn::End => return Ok(true),
            Turn::Stop => return Ok(false),
        }
        match write_at(
            alloc, site, who, segmenter, cursors, names, ends, tour, most,
        )? {
            Some(reached) => tour.reached = reached,
            None => return Ok(false),
        }
    }
    Ok(false)
}

/// Writes the record at which the tour stands, as `write_one` does.
fn write_at<S: Site>(
    alloc: Global,
    site: &mut S,
    who: &Who,
    segmenter: &mut Segmenter,
    cursors: &mut [Cursor],
    names: &[Word],
    ends: &[End],
    tour: Tour,
    most: u32,
) -> Result<Option<u64>, JobFault>
    requires job { who.now ≡ job }
    requires who { segmenter.old.who ≡ who.now }
    requires most { most ≡ most_in segmenter.old.folder }
    requires count { length cursors.old ≡ length names.now }
    requires stream { tour.stream < length ends.now }
    requires file { tour.file < length cursors.old }
    ensures raw { (w : Writing) (held : Files) → IsAt segmenter.old w → AreSettled names.now held
        → AreApart names.now (segment_name w.folder w.number) → Adds (S.told site.old) (S.told site.new)
        (Leads (anyhow (SparesBoth names.now (segment_name w.folder w.number)))
        (IsMerging most names.now held (map end_view ends.now) tour cursors.old w)
        (WroteAt most names.now held (map end_view ends.now) tour cursors.new
        (taken segmenter.old w (chunk_at most cursors.old tour.file)) result)) }
    ensures put { IsPutAt segmenter.old segmenter.new (chunk_at most cursors.old tour.file) result }
    ensures count { length cursors.new ≡ length cursors.old }
    ensures who { segmenter.new.who ≡ segmenter.old.who }
    ensures works { (w : Writing) → IsAt segmenter.old w → Adds (S.told site.old) (S.told site.new)
        (Worked (ReadsOrWrites (segment_name w.folder w.number)) result) }
    ensures only { IfErr result IsOfWrite }
    ensures cause { JobCause (S.fault_count site.old) (S.fault_count site.new) result }
{
    let name = names[tour.file].as_str();
    let end = &ends[tour.stream];
    let cursor = &mut cursors[tour.file];
    write_one(
        alloc,
        site,
        who,
        segmenter,
        cursor,
        name,
        end,
        tour.reached,
        most,
    )
}

/// Writes the record that the cursor holds, where it goes on from `reached`, and goes on to the
/// next one. It says where the record ends; `None` where it can't go on.
fn write_one<S: Site>(
    alloc: Global,
    site: &mut S,
    who: &Who,
    segmenter: &mut Segmenter,
    cursor: &mut Cursor,
    name: &str,
    end: &End,
    reached: u64,
    most: u32,
) -> Result<Option<u64>, JobFault>
    requires job { who.now ≡ job }
    requires who { segmenter.old.who ≡ who.now }
    requires most { most ≡ most_in segmenter.old.folder }
    ensures raw { (w : Writing) (names : List (List ℕ)) (held : Files) → IsAt segmenter.old w → AreSettled names held
        → AreApart names (segment_name w.folder w.number) → Contains names name.now → Adds (S.told site.old) (S.told site.new)
        (Leads (anyhow (SparesBoth names (segment_name w.folder w.number))) (CanPut names held w)
        (PutOne most names held name.now segmenter.old w cursor.old cursor.new result)) }
    ensures next { WasNext most (end_view end.now) reached cursor.old result }
    ensures put { IsPut most segmenter.old segmenter.new cursor.old result }
    ensures who { segmenter.new.who ≡ segmenter.old.who }
    ensures works { (w : Writing) → IsAt segmenter.old w → Adds (S.told site.old) (S.told site.new)
        (Worked (ReadsOrWrites (segment_name w.folder w.number)) result) }
    ensures only { IfErr result IsOfWrite }
    ensures cause { JobCause (S.fault_count site.old) (S.fault_count site.new) result }
{
    let Some(next) = put_one(alloc, site, segmenter, cursor, end, reached, most)? else {
        return Ok(None);
    };
    if !cursor.advance(alloc, site, who, name)? {
        return Ok(None);
    }
    Ok(Some(next))
}

/// Writes the record that the cursor holds behind the others, where it goes on from `reached`, and
/// says where it ends.
fn put_one<S: Site>(
    alloc: Global,
    site: &mut S,
    segmenter: &mut Segmenter,
    cursor: &Cursor,
    end: &End,
    reached: u64,
    most: u32,
) -> Result<Option<u64>, JobFault>
    requires job { segmenter.old.who ≡ job }
    requires most { most ≡ most_in segmenter.old.folder }
    ensures raw { (w : Writing) → IsAt segmenter.old w → Adds (S.told site.old) (S.told site.new)
        (Leads (anyhow (SparesFile (segment_name w.folder w.number))) (HoldsSegment w)
        (HasPut most segmenter.old w cursor.now result)) }
    ensures next { WasNext most (end_view end.now) reached cursor.now result }
    ensures put { IsPut most segmenter.old segmenter.new cursor.now result }
    ensures who { segmenter.new.who ≡ segmenter.old.who }
    ensures own { (w : Writing) → IsAt segmenter.old w → Adds (S.told site.old) (S.told site.new)
        (Every (IsOf (WritesTo (segment_name w.folder w.number)))) }
    ensures last { Adds (S.told site.old) (S.told site.new) (FailsLast result) }
    ensures only { IfErr result IsOfWrite }
    ensures cause { JobCause (S.fault_count site.old) (S.fault_count site.new) result }
{
    let Some(chunk) = cursor.next_chunk(end, reached, most) else {
        return Ok(None);
    };
    segmenter.part(alloc, site, &chunk)?;
    Ok(Some(chunk.seq))
}

/// Goes through all records in turn, and writes none; `false` where it can't go on.
fn pass_all<S: Site>(
    alloc: Global,
    site: &mut S,
    who: &Who,
    cursors: &mut [Cursor],
    names: &[Word],
    ends: &[End],
    most: u32,
) -> Result<bool, JobFault>
    requires job { who.now ≡ job }
    requires count { length cursors.old ≡ length names.now }
    ensures raw { (held : Files) → AreSettled names.now held → Adds (S.told site.old) (S.told site.new)
        (Leads (anyhow (SparesFiles names.now)) (HasFiles names.now held) (StillHas names.now held result)) }
    ensures works { Adds (S.told site.old) (S.told site.new) (Worked ReadsFile result) }
    ensures only { IfErr result IsOfWrite }
    ensures cause { JobCause (S.fault_count site.old) (S.fault_count site.new) result }
{
    let mut tour = Tour::new(ends);
    for _turn in 0..u64::MAX {
        match tour.seek(ends, cursors) {
            Turn::Write => {}
            Turn::End => return Ok(true),
            Turn::Stop => return Ok(false),
        }
        match pass_at(alloc, site, who, cursors, names, ends, tour, most)? {
            Some(reached) => tour.reached = reached,
            None => return Ok(false),
        }
    }
    Ok(false)
}

/// Goes on behind the record at which the tour stands, as `pass_one` does.
fn pass_at<S: Site>(
    alloc: Global,
    site: &mut S,
    who: &Who,
    cursors: &mut [Cursor],
    names: &[Word],
    ends: &[End],
    tour: Tour,
    most: u32,
) -> Result<Option<u64>, JobFault>
    requires job { who.now ≡ job }
    requires count { length cursors.old ≡ length names.now }
    requires stream { tour.stream < length ends.now }
    requires file { tour.file < length cursors.old }
    ensures raw { (held : Files) → AreSettled names.now held → Adds (S.told site.old) (S.told site.new)
        (Leads (anyhow (SparesFiles names.now)) (HasFiles names.now held) (StillHas names.now held result)) }
    ensures count { length cursors.new ≡ length cursors.old }
    ensures works { Adds (S.told site.old) (S.told site.new) (Worked ReadsFile result) }
    ensures only { IfErr result IsOfWrite }
    ensures cause { JobCause (S.fault_count site.old) (S.fault_count site.new) result }
{
    let name = names[tour.file].as_str();
    let end = &ends[tour.stream];
    let cursor = &mut cursors[tour.file];
    pass_one(alloc, site, who, cursor, name, end, tour.reached, most)
}

/// Goes on behind the record that the cursor holds, where that goes on from `reached`, and says
/// where it ends; `None` where it can't go on.
fn pass_one<S: Site>(
    alloc: Global,
    site: &mut S,
    who: &Who,
    cursor: &mut Cursor,
    name: &str,
    end: &End,
    reached: u64,
    most: u32,
) -> Result<Option<u64>, JobFault>
    requires job { who.now ≡ job }
    ensures raw { (names : List (List ℕ)) (held : Files) → AreSettled names held → Contains names name.now
        → Adds (S.told site.old) (S.told site.new)
        (Leads (anyhow (SparesFiles names)) (HasFiles names held) (StillHas names held result)) }
    ensures works { Adds (S.told site.old) (S.told site.new) (Worked ReadsFile result) }
    ensures only { IfErr result IsOfWrite }
    ensures cause { JobCause (S.fault_count site.old) (S.fault_count site.new) result }
{
    let Some(next) = cursor.next_seq(end, reached, most) else {
        return Ok(None);
    };
    if !cursor.advance(alloc, site, who, name)? {
        return Ok(None);
    }
    Ok(Some(next))
}
