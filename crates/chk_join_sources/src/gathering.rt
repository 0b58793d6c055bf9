//! The heads of the records in some files, and the records themselves.

ghost use Rattle.std.specs.Prelude.{◌≡◌, ◌+◌, ◌<◌, ◌≤◌, ℕ, List, length, slice_index_or, IfOk, IfErr, OnOk};
ghost use Rattle.chk_chunk.specs.Keys.{record_limit};
ghost use Rattle.chk_site.specs.Files.{Files};
ghost use Rattle.chk_site.specs.History.{Every};
ghost use Rattle.chk_site.specs.Site.{Adds};
ghost use Rattle.chk_site.specs.Runs.{anyhow, Leads};
ghost use Rattle.chk_world.specs.Sight.{job};
ghost use Rattle.chk_world.specs.JobSteps.{IsOf, ReadsFile};
ghost use Rattle.chk_world.proofs.Each.{Each};
ghost use Rattle.chk_record_index.specs.Faults.{JobCause, FailsLast, IsOfRead};
ghost use Rattle.chk_record_index.specs.Order.{no_head};
ghost use Rattle.chk_record_index.specs.Pieces.{AsksInPieces};
ghost use Rattle.chk_record_index.specs.declared.fault.JobFault.TheVariants.{NoMemory};
ghost use Rattle.chk_book.specs.Books.{book_view};
ghost use Rattle.chk_book.specs.Folders.{most_in};
ghost use Rattle.chk_record_reader.specs.Segments.{names_of, HasFiles, SparesFiles, AreSettled, GatheredAll};
ghost use Rattle.chk_record_reader.specs.Archives.{IsKnown, AreWindows};
ghost use Rattle.chk_record_reader.specs.Merging.{SoundHeads};
ghost use Rattle.chk_join_sources.specs.Reading.{AreAmong, Fetched};

use chk_book::Book;
use chk_bytes::Word;
use chk_record_index::{Heads, JobFault};
use chk_record_reader::{RecordReader, most_in, put_in_order};
use chk_site::{Site, Who};
use std::alloc::Global;

/// One of two archives: the files of its segments, and the heads of their records.
#[derive(Clone, Copy)]
pub struct Side<'a> {
    pub names: &'a [Word],
    pub heads: &'a Heads,
}

/// The heads of these files' records, file after file, each with the place of its file's name. A file is read once.
fn gather_all<S: Site>(
    alloc: Global,
    site: &mut S,
    who: &Who,
    names: &[Word],
    most: u32,
) -> Result<Heads, JobFault>
    requires { most ≤ record_limit }
    ensures raw { (held : Files) → who.now ≡ job → AreSettled names.now held → Adds (S.told site.old) (S.told site.new)
        (Leads (anyhow (SparesFiles names.now)) (HasFiles names.now held) (GatheredAll most names.now held result)) }
    ensures own { who.now ≡ job → Adds (S.told site.old) (S.told site.new) (Every (IsOf ReadsFile)) }
    ensures pieces { Adds (S.told site.old) (S.told site.new) (Every AsksInPieces) }
    ensures only { IfErr result IsOfRead }
    ensures last { Adds (S.told site.old) (S.told site.new) (FailsLast result) }
    ensures cause { JobCause (S.fault_count site.old) (S.fault_count site.new) result }
{
    let mut heads = Heads::new(alloc);
    let mut file = 0;
    for name in names {
        heads.gather(alloc, site, who, name.as_str(), file, most)?;
        file = next(file)?;
    }
    Ok(heads)
}

/// The number behind this one.
fn next(file: u32) -> Result<u32, JobFault>
    ensures ok { IfOk result (λ n. n ≡ file + 1) }
    ensures err { IfErr result (λ fault. fault ≡ NoMemory) }
{
    file.checked_add(1).ok_or(JobFault::NoMemory)
}

/// The heads of all records that the book of `folder` names, in order, where their streams go on up to their ends. `names` are
/// those of the book's segments, the aside segment left out.
///
/// `Damaged` comes with a segment's name at the place from which on it isn't one of chunks, else as `check_records` tells it. Each
/// file is read once, in pieces of at most 1,048,576 bytes; 32 bytes are held for a record.
pub fn sound_heads<S: Site>(
    book: &Book,
    alloc: Global,
    site: &mut S,
    who: &Who,
    folder: &str,
    names: &[Word],
) -> Result<Heads, JobFault>
    requires { names.now ≡ names_of folder.now (book_view book.now) }
    ensures raw { (held : Files) → who.now ≡ job → AreSettled (names_of folder.now (book_view book.now)) held
        → Adds (S.told site.old) (S.told site.new)
        (Leads (anyhow (SparesFiles (names_of folder.now (book_view book.now)))) (HasFiles (names_of folder.now (book_view book.now)) held)
        (SoundHeads folder.now (book_view book.now) held result)) }
    ensures own { who.now ≡ job → Adds (S.told site.old) (S.told site.new) (Every (IsOf ReadsFile)) }
    ensures pieces { Adds (S.told site.old) (S.told site.new) (Every AsksInPieces) }
    ensures only { IfErr result IsOfRead }
    ensures last { Adds (S.told site.old) (S.told site.new) (FailsLast result) }
    ensures cause { JobCause (S.fault_count site.old) (S.fault_count site.new) result }
{
    let mut heads = gather_all(alloc, site, who, names, most_in(folder))?;
    put_in_order(&mut heads, alloc, book, folder, names)?;
    Ok(heads)
}

/// Makes the record of the head at `index` the one whose value the reader holds. A head of none of the files counts as want of
/// memory. It costs no call where the reader's window has the record, else a read.
pub fn fetch<S: Site>(
    alloc: Global,
    site: &mut S,
    who: &Who,
    reader: &mut RecordReader,
    side: &Side<'_>,
    index: usize,
) -> Result<(), JobFault>
    requires job { who.now ≡ job }
    requires index { index < length side.now.heads.now }
    ensures raw { (most : ℕ) (all : List (List ℕ)) (held : Files) → most ≤ record_limit → AreSettled all held → AreAmong all side.now.names.now
        → Each (IsKnown most side.now.names.now held) side.now.heads.now → AreWindows side.now.names.now held reader.old
        → Adds (S.told site.old) (S.told site.new)
        (Leads (anyhow (SparesFiles all)) (HasFiles all held)
        (Fetched all side.now.names.now held (slice_index_or side.now.heads.now index no_head) reader.new result)) }
    ensures own { Adds (S.told site.old) (S.told site.new) (Every (IsOf ReadsFile)) }
    ensures pieces { Adds (S.told site.old) (S.told site.new) (Every AsksInPieces) }
    ensures only { IfErr result IsOfRead }
    ensures last { Adds (S.told site.old) (S.told site.new) (FailsLast result) }
    ensures cause { JobCause (S.fault_count site.old) (S.fault_count site.new) result }
{
    match side.names.get(side.heads.get(index).file as usize) {
        Some(name) => reader.fetch(alloc, site, who, name.as_str(), side.heads, index),
        None => Err(JobFault::NoMemory),
    }
}
