//! The demux run.

ghost use Rattle.chk_bytes.specs.Numbers.{last_number};
ghost use Rattle.std.specs.Prelude.{◌≡◌, ◌-◌, ◌^◌, ◌&&◌, ℕ, List, [], drop, nat_eq, nat_lt, IsTrue, IfOk, IfErr, OnOk, codes};
ghost use Rattle.chk_site.specs.Files.{Files};
ghost use Rattle.chk_site.specs.History.{Every};
ghost use Rattle.chk_site.specs.Site.{Adds};
ghost use Rattle.chk_site.specs.Runs.{anyhow, Leads};
ghost use Rattle.chk_chunk.specs.Keys.{Chunk};
ghost use Rattle.chk_world.specs.Books.{book_in, ends_rise};
ghost use Rattle.chk_world.specs.Places.{As};
ghost use Rattle.chk_world.specs.Sight.{job, Sight, AtJob};
ghost use Rattle.chk_world.specs.JobSteps.{IsOf};
ghost use Rattle.chk_record_index.specs.Faults.{JobCause, FailsLast, IsOfRead, IsOfWrite};
ghost use Rattle.chk_record_index.specs.Order.{in_head_order};
ghost use Rattle.chk_record_index.specs.Pieces.{AsksInPieces};
ghost use Rattle.chk_record_index.specs.Causes.{Shows};
ghost use Rattle.chk_record_reader.specs.Gone.{ShowsSound};
ghost use Rattle.chk_demux.specs.Shown.{IsUnsoundFrom, ShowsNewestSound, IsDamage, ShowsPut, SpentBy, ShowsSpent};
ghost use Rattle.chk_archive_parts.specs.Gathering.{AreSound, heads_of};
ghost use Rattle.chk_book.specs.Books.{book_view};
ghost use Rattle.chk_record_reader.specs.Segments.{names_of, HasFiles, SparesFiles, AreSettled};
ghost use Rattle.chk_record_reader.specs.Checking.{AllGoWell};
ghost use Rattle.chk_record_reader.specs.Merging.{SoundHeads};
ghost use Rattle.chk_demux.specs.Damage.{archive_book, demux_name, reads_of, reads_from, HasCounts, NotDamaged, BooksAlone, SplitSoundly, RanSoundly, ReadAll};
ghost use Rattle.chk_demux.specs.Demuxed.{Earlier, Begun, Demuxed, DemuxesBy, NamesStamped, WritesBook};
ghost use Rattle.chk_demux.specs.Entering.{MayEnter, Entered};
ghost use Rattle.chk_demux.specs.Enough.{Enough, SoundNewest, IsEnoughFrom, SoundOlder};
ghost use Rattle.chk_demux.specs.Working.{Worked, EndsSo};
ghost use Rattle.chk_demux.specs.Writes.{IsFree, IsWriter, IsOutput, SoFar};
ghost use Rattle.chk_demux.specs.Splitting.{texts, all_chunks, all_left};
ghost use Rattle.chk_demux.specs.Running.{IsReady, Ran, RunsOn, CanSplit, archive_heads, Reports};

use crate::beginning::begin;
use crate::output::{Output, is_spent};
use crate::publishing::enter;
use crate::report::DemuxReport;
use crate::splitting::{places_of, split_streams};
use chk_archive_parts::gather_found;
use chk_book::Book;
use chk_bytes::Word;
use chk_demux_scan::newest_heads;
use chk_record_index::{Heads, JobFault};
use chk_record_reader::{put_in_order, segment_names};
use chk_site::{Site, Who};
use std::alloc::Global;

/// The heads of the records in these files, in order, where all streams' records run as the archive's book says.
fn heads_in_order<S: Site>(
    alloc: Global,
    site: &mut S,
    who: &Who,
    archive: &Book,
    names: &[Word],
) -> Result<Heads, JobFault>
    requires job { who.now ≡ job }
    requires names { names.now ≡ names_of (codes "archive") (book_view archive.now) }
    ensures told { (stamped : List (List ℕ)) (v : Sight) → AreSound v names.now
        → AllGoWell (book_view archive.now).ends (heads_of v 0 names.now) → Adds (S.told site.old) (S.told site.new)
        (Leads (As stamped job) (AtJob stamped (λ u. u ≡ v))
        (EndsSo stamped (λ heads u. (u ≡ v) × (heads ≡ in_head_order (heads_of v 0 names.now))) result)) }
    ensures raw { (held : Files) → AreSettled (names_of (codes "archive") (book_view archive.now)) held
        → Adds (S.told site.old) (S.told site.new)
        (Leads (anyhow (SparesFiles (names_of (codes "archive") (book_view archive.now))))
        (HasFiles (names_of (codes "archive") (book_view archive.now)) held)
        (SoundHeads (codes "archive") (book_view archive.now) held result)) }
    ensures shown { Adds (S.told site.old) (S.told site.new) (ShowsSound (codes "archive") (book_view archive.now) result) }
    ensures only { IfErr result IsOfRead }
    ensures works { Adds (S.told site.old) (S.told site.new) (Worked RunsOn result) }
    ensures cause { JobCause (S.fault_count site.old) (S.fault_count site.new) result }
{
    let mut heads = gather_found(alloc, site, who, names)?;
    put_in_order(&mut heads, alloc, archive, "archive", names)?;
    Ok(heads)
}

/// The heads of the records that the split needs, in order: of the newest segments that reach back, for each stream, to where its
/// split goes on, those that end past it. Where anything is wrong with these segments, all are read, and it is told as
/// `heads_in_order` has it, which holds the heads of all records.
fn heads_for_split<S: Site>(
    alloc: Global,
    site: &mut S,
    who: &Who,
    archive: &Book,
    book: &Book,
    names: &[Word],
) -> Result<Heads, JobFault>
    requires job { who.now ≡ job }
    requires names { names.now ≡ names_of (codes "archive") (book_view archive.now) }
    ensures told { (stamped : List (List ℕ)) (v : Sight) (cs : List Chunk) → CanSplit (book_view archive.now) (book_view book.now) v cs
        → Adds (S.told site.old) (S.told site.new)
        (Leads (As stamped job) (AtJob stamped (λ u. u ≡ v))
        (EndsSo stamped (λ heads u. (u ≡ v)
        × Enough v (book_view archive.now) (book_view book.now) names.now (archive_heads v (book_view archive.now)) cs heads) result)) }
    ensures raw { (held : Files) → AreSettled (names_of (codes "archive") (book_view archive.now)) held
        → IsTrue (ends_rise (book_view archive.now).ends) → IsTrue (ends_rise (book_view book.now).ends)
        → Adds (S.told site.old) (S.told site.new)
        (Leads (anyhow (SparesFiles (names_of (codes "archive") (book_view archive.now))))
        (HasFiles (names_of (codes "archive") (book_view archive.now)) held)
        (SoundNewest (book_view archive.now) (book_view book.now) held result)) }
    ensures older { (held : Files) (k : ℕ) → IsEnoughFrom (book_view archive.now) (book_view book.now) held k
        → AreSettled (drop k (names_of (codes "archive") (book_view archive.now))) held
        → IsTrue (ends_rise (book_view archive.now).ends) → IsTrue (ends_rise (book_view book.now).ends)
        → Adds (S.told site.old) (S.told site.new)
        (Leads (anyhow (SparesFiles (drop k (names_of (codes "archive") (book_view archive.now)))))
        (HasFiles (drop k (names_of (codes "archive") (book_view archive.now))) held)
        (SoundOlder (book_view archive.now) (book_view book.now) held k result)) }
    ensures shown { IsTrue (ends_rise (book_view archive.now).ends)
        → Adds (S.told site.old) (S.told site.new) (ShowsNewestSound (book_view archive.now) result) }
    ensures only { IfErr result IsOfRead }
    ensures works { Adds (S.told site.old) (S.told site.new) (Worked RunsOn result) }
    ensures cause { JobCause (S.fault_count site.old) (S.fault_count site.new) result }
{
    let places = places_of(alloc, archive, book)?;
    let newest = newest_heads(alloc, site, who, archive, places.as_slice(), names)?;
    match newest {
        Some(heads) => Ok(heads),
        None => heads_in_order(alloc, site, who, archive, names),
    }
}

/// Splits the archive from the last records on into the output, and says how many bytes are of no complete record.
fn split_named<S: Site>(
    alloc: Global,
    site: &mut S,
    who: &Who,
    types: &[&str],
    archive: &Book,
    book: &Book,
    output: &mut Output,
) -> Result<u64, JobFault>
    requires job { who.now ≡ job }
    requires writer { IsWriter (book_view book.now).next output.old.segmenter }
    ensures told { (stamped : List (List ℕ)) (v : Sight) (cs : List Chunk)
        → CanSplit (book_view archive.now) (book_view book.now) v cs → IsOutput v [] output.old v
        → Adds (S.told site.old) (S.told site.new)
        (Leads (As stamped job) (AtJob stamped (λ u. u ≡ v))
        (EndsSo stamped (λ left u. IsOutput v
        (all_chunks (texts types.now) (book_view book.now) (archive_heads v (book_view archive.now)) cs (book_view archive.now).ends) output.new u
        × (left ≡ all_left (texts types.now) (book_view book.now) cs (book_view archive.now).ends)) result)) }
    ensures raw { (held : Files) → AreSettled (names_of (codes "archive") (book_view archive.now)) held
        → HasCounts (book_view archive.now) → IsTrue (ends_rise (book_view archive.now).ends)
        → IsTrue (ends_rise (book_view book.now).ends)
        → Adds (S.told site.old) (S.told site.new)
        (Leads (anyhow (SparesFiles (names_of (codes "archive") (book_view archive.now))))
        (HasFiles (names_of (codes "archive") (book_view archive.now)) held)
        (SplitSoundly (texts types.now) (book_view archive.now) (book_view book.now) held
        output.old.entries output.new.entries result)) }
    ensures older { (held : Files) (k : ℕ) → IsEnoughFrom (book_view archive.now) (book_view book.now) held k
        → AreSettled (drop k (names_of (codes "archive") (book_view archive.now))) held
        → HasCounts (book_view archive.now) → IsTrue (ends_rise (book_view archive.now).ends)
        → IsTrue (ends_rise (book_view book.now).ends)
        → Adds (S.told site.old) (S.told site.new)
        (Leads (anyhow (SparesFiles (drop k (names_of (codes "archive") (book_view archive.now)))))
        (HasFiles (drop k (names_of (codes "archive") (book_view archive.now))) held)
        (NotDamaged (Unit {0}) result)) }
    ensures writer { OnOk result (IsWriter (book_view book.now).next output.new.segmenter) }
    ensures due { IsTrue (ends_rise (book_view archive.now).ends)
        → Adds (S.told site.old) (S.told site.new)
        (ShowsPut (book_view archive.now) (book_view book.now) output.old.entries
        output.new.entries result) }
    ensures shown { IsTrue (ends_rise (book_view archive.now).ends)
        → Adds (S.told site.old) (S.told site.new)
        (Shows (IsUnsoundFrom (book_view archive.now)) result) }
    ensures only { IfErr result IsOfRead }
    ensures works { Adds (S.told site.old) (S.told site.new) (Worked RunsOn result) }
    ensures cause { JobCause (S.fault_count site.old) (S.fault_count site.new) result }
{
    let files = segment_names(alloc, "archive", archive)?;
    let names = files.as_slice();
    let heads = heads_for_split(alloc, site, who, archive, book, names)?;
    split_streams(
        alloc, site, who, types, archive, book, output, names, &heads,
    )
}

/// Publishes the book that has the output's segment, where there is one, and reports what was written.
fn enter_output<S: Site>(
    alloc: Global,
    site: &mut S,
    who: &Who,
    book: &mut Book,
    output: Output,
    left: u64,
) -> Result<DemuxReport, JobFault>
    requires job { who.now ≡ job }
    requires writer { IsWriter (book_view book.old).next output.segmenter }
    ensures told { (stamped : List (List ℕ)) (v : Sight) (outs : List Chunk) → IsFree v (book_view book.old).next
        → MayEnter stamped v (book_view book.old) outs → Adds (S.told site.old) (S.told site.new)
        (Leads (As stamped job) (AtJob stamped (SoFar v outs output.segmenter))
        (EndsSo stamped (λ t u. Entered v (book_view book.old) outs output.segmenter u) result)) }
    ensures only { IfErr result IsOfWrite }
    ensures counts { IfOk result (λ report. Reports output left report) }
    ensures works { Adds (S.told site.old) (S.told site.new) (Worked (WritesBook (book_view book.old).next) result) }
    ensures cause { JobCause (S.fault_count site.old) (S.fault_count site.new) result }
{
    let Output {
        segmenter,
        taken,
        entries,
    } = output;
    enter(alloc, site, who, book, segmenter)?;
    Ok(DemuxReport {
        taken,
        entries,
        left,
    })
}

/// Records were put, and the book has no number left for their segment.
fn lacks_number(book: &Book, output: &Output) -> bool
    ensures { result ≡ (nat_eq (book_view book.now).next last_number && nat_lt 0 output.now.entries) }
{
    is_spent(book) && output.entries > 0
}

/// Splits the archive from the last records on, and publishes the book that has the new ones, where there are any.
fn split_archive<S: Site>(
    alloc: Global,
    site: &mut S,
    who: &Who,
    types: &[&str],
    archive: &Book,
    book: &mut Book,
) -> Result<DemuxReport, JobFault>
    requires { who.now ≡ job }
    ensures told { (stamped : List (List ℕ)) (v : Sight) → NamesStamped stamped (texts types.now)
        → IsReady stamped (book_view archive.now) (book_view book.old) v
        → Adds (S.told site.old) (S.told site.new)
        (Leads (As stamped job) (AtJob stamped (λ u. u ≡ v)) (Ran stamped v result)) }
    ensures raw { (held : Files) → AreSettled (names_of (codes "archive") (book_view archive.now)) held
        → HasCounts (book_view archive.now) → IsTrue (ends_rise (book_view archive.now).ends)
        → IsTrue (ends_rise (book_view book.old).ends)
        → Adds (S.told site.old) (S.told site.new)
        (Leads (anyhow (SparesFiles (names_of (codes "archive") (book_view archive.now))))
        (HasFiles (names_of (codes "archive") (book_view archive.now)) held)
        (RanSoundly (texts types.now) (book_view archive.now) (book_view book.old) held result)) }
    ensures older { (held : Files) (k : ℕ) → IsEnoughFrom (book_view archive.now) (book_view book.old) held k
        → AreSettled (drop k (names_of (codes "archive") (book_view archive.now))) held
        → HasCounts (book_view archive.now) → IsTrue (ends_rise (book_view archive.now).ends)
        → IsTrue (ends_rise (book_view book.old).ends)
        → Adds (S.told site.old) (S.told site.new)
        (Leads (anyhow (SparesFiles (drop k (names_of (codes "archive") (book_view archive.now)))))
        (HasFiles (drop k (names_of (codes "archive") (book_view archive.now))) held)
        (NotDamaged (Unit {0}) result)) }
    ensures shown { IsTrue (ends_rise (book_view archive.now).ends)
        → Adds (S.told site.old) (S.told site.new)
        (Shows (IsUnsoundFrom (book_view archive.now)) result) }
    ensures spent { IsTrue (ends_rise (book_view archive.now).ends)
        → Adds (S.told site.old) (S.told site.new)
        (SpentBy (book_view archive.now) (book_view book.old) result) }
    ensures works { Adds (S.told site.old) (S.told site.new) (Worked RunsOn result) }
    ensures cause { JobCause (S.fault_count site.old) (S.fault_count site.new) result }
{
    let mut output = Output::new();
    let left = split_named(alloc, site, who, types, archive, book, &mut output)?;
    if lacks_number(book, &output) {
        return Err(JobFault::Spent { number: book.next });
    }
    enter_output(alloc, site, who, book, output, left)
}

/// Runs the demux job once: splits each archived stream from its last record on, those of the named types by stamps and all others
/// by lines, writes the complete records as one segment of `demux`, in the order of the archive's book, and publishes the book that
/// names it. Where no record is complete, nothing is written.
///
/// The archive's segments are read from the newest one back, until for each stream the place is reached from which on its split
/// goes on: all bytes of these once, for the heads of their records, and each record that ends past its stream's place once more,
/// in pieces of at most 1,048,576 bytes. Older segments aren't read, and where no stream ends past its place none is. Held are a
/// head of 32 bytes for each record that ends past its stream's place, 32 bytes for each stream, such a piece, one record, and the
/// bytes of the segment that aren't appended yet, at most 1,048,576 and a record. Once the heads stand in order it goes over them
/// once, and over the streams of the archive's book and of the records' book twice, side by side.
///
/// `Damaged` comes where a book isn't in its grammar, with its name and the place of its first wrong field; else where a segment
/// that was read isn't one of chunks, or the records there don't go on from each other up to the ends in the archive's book. All
/// segments are read then, a head of 32 bytes is held for each of their records, so that such a run may end for want of memory,
/// and the first damage is told, as `check_records` has it: where a segment isn't one of chunks, with the
/// segment's name and the place from which on it isn't; at the first record of a stream that has another start than in the book,
/// doesn't begin where the stream's earlier ones end, or ends past its end in the book, with the segment's name; else with the
/// book's name at the stream's end there, where the records don't reach it. Nothing is written then. What isn't read isn't tested.
/// `Spent` comes where a segment is needed and its number is 2^63 - 1: such a run splits all that is new, and writes none. More
/// bytes or records than 64 bits count come as want of memory. After a refusal the old book stands, or the new one; the segment
/// that was begun is replaced by the next run.
pub fn demux<S: Site>(
    alloc: Global,
    site: &mut S,
    who: &Who,
    types: &[&str],
) -> Result<DemuxReport, JobFault>
    requires { who.now ≡ job }
    ensures told { (stamped : List (List ℕ)) (before : Earlier) → NamesStamped stamped (texts types.now)
        → Adds (S.told site.old) (S.told site.new)
        (Leads (As stamped job) (Begun stamped before) (Demuxed stamped before result)) }
    ensures raw { (held : Files) → AreSettled (reads_of held) held → Adds (S.told site.old) (S.told site.new)
        (Leads (anyhow (SparesFiles (reads_of held))) (HasFiles (reads_of held) held)
        (ReadAll (texts types.now) held result)) }
    ensures older { (held : Files) (k : ℕ)
        → IsEnoughFrom (archive_book held) (book_in (held demux_name)) held k
        → AreSettled (reads_from held k) held → Adds (S.told site.old) (S.told site.new)
        (Leads (anyhow (SparesFiles (reads_from held k))) (HasFiles (reads_from held k) held)
        (BooksAlone held result)) }
    ensures shown { Adds (S.told site.old) (S.told site.new) (Shows IsDamage result) }
    ensures spent { Adds (S.told site.old) (S.told site.new) (ShowsSpent result) }
    ensures own { Adds (S.told site.old) (S.told site.new) (Every (IsOf DemuxesBy)) }
    ensures pieces { Adds (S.told site.old) (S.told site.new) (Every AsksInPieces) }
    ensures last { Adds (S.told site.old) (S.told site.new) (FailsLast result) }
    ensures cause { JobCause (S.fault_count site.old) (S.fault_count site.new) result }
{
    let mut books = begin(alloc, site, who)?;
    split_archive(alloc, site, who, types, &books.archive, &mut books.demux)
}
