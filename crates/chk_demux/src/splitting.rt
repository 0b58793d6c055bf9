//! The split of each stream of the archive from its last record on.

ghost use Rattle.std.specs.Prelude.{Bool, ◌≡◌, ◌+◌, ◌-◌, ◌<◌, ◌≤◌, ◌++◌, ◌&&◌, [], ℕ, List, length, map, max, nat_lt, codes, drop, take, bytes_eq, slice_index_or, IsTrue, IfOk, IfErr, OnOk};
ghost use Rattle.std.specs.List.{list_any};
ghost use Rattle.chk_site.specs.History.{Every};
ghost use Rattle.chk_site.specs.Site.{Adds};
ghost use Rattle.chk_site.specs.Runs.{anyhow, Leads};
ghost use Rattle.chk_chunk.specs.Keys.{Chunk};
ghost use Rattle.chk_world.specs.Books.{ends_rise};
ghost use Rattle.chk_world.specs.TrueBooks.{HasBytes};
ghost use Rattle.chk_world.proofs.Each.{Each};
ghost use Rattle.chk_world.specs.Places.{As};
ghost use Rattle.chk_world.specs.Sight.{job, Sight, AtJob};
ghost use Rattle.chk_world.specs.JobSteps.{IsOf, ReadsFile, ReadsOrWrites, SparesFile};
ghost use Rattle.chk_record_index.specs.Faults.{JobCause, IsOfRead};
ghost use Rattle.chk_record_index.specs.declared.fault.JobFault.TheVariants.{NoMemory};
ghost use Rattle.chk_record_index.specs.Order.{lent_head, no_head};
ghost use Rattle.chk_archive_plan.specs.Passes.{head_in};
ghost use Rattle.chk_archive_parts.specs.Records.{AreRecords};
ghost use Rattle.chk_archive_parts.specs.Gathering.{held, AreSound};
ghost use Rattle.chk_record_reader.specs.Segments.{HasFiles, SparesFiles, AreSettled};
ghost use Rattle.chk_record_reader.specs.Merging.{AreApart};
ghost use Rattle.chk_demux.specs.Damage.{AreRead, AreOfNew, ReadsOn, NotDamaged};
ghost use Rattle.chk_demux.specs.Due.{IsFed, StreamHasRecord, HasDue};
ghost use Rattle.chk_archive_parts.specs.Fetching.{head_file, IsRecordAt, CanFetch, Fetched, AreWindows};
ghost use Rattle.chk_book.specs.Folders.{segment_name};
ghost use Rattle.chk_book.specs.Books.{book_view, end_in};
ghost use Rattle.chk_book.specs.Views.{end_view};
ghost use Rattle.chk_demux.specs.Working.{Worked, EndsSo};
ghost use Rattle.chk_record_index.specs.Causes.{Shows};
ghost use Rattle.chk_record_reader.specs.Gone.{IsGoneIn};
ghost use Rattle.chk_demux.specs.Writes.{IsFree, IsWriter, IsOutput};
ghost use Rattle.chk_demux.specs.Shown.{PutsIf, HasPast, HasNew};
ghost use Rattle.chk_demux.specs.Enough.{places_for};
ghost use Rattle.chk_demux.specs.Splitting.{texts, past_in, split_from, ends_past, is_stamped, RunsSo, SplitSoFar, SplitAll, StreamsRise, HoldsStream, stream_chunks, stream_left, all_chunks, all_left};

use crate::blocks::{Block, block_of};
use crate::giving::split_value;
use crate::output::Output;
use crate::recorded::recorded_end;
use chk_archive_parts::fetch;
use chk_book::{Book, End};
use chk_bytes::Word;
use chk_demux_split::Splitter;
use chk_record_index::{HeadRef, Heads, JobFault};
use chk_record_reader::{RecordReader, is_of};
use chk_site::{Site, Who};
use std::alloc::Global;

/// The type is one of those that are split by stamps.
fn is_stamped(kind: &str, types: &[&str]) -> bool
    ensures { result ≡ list_any (bytes_eq kind.now) (texts types.now) }
{
    for name in types {
        if kind == *name {
            return true;
        }
    }
    false
}

/// Where the split of a stream goes on: behind its last record, or at its start. That record's end is looked for as
/// `recorded_end` does from `next` on.
fn split_from(end: &End, book: &Book, next: &mut usize) -> u64
    ensures { IsTrue (ends_rise (book_view book.now).ends) → result ≡ split_from (book_view book.now) (end_view end.now) }
{
    let ended = recorded_end(book.ends.as_slice(), end, next);
    end.start.max(ended)
}

/// Where the split of each stream of the archive goes on, in the order of its book. It costs a pass over the streams of both books.
pub(crate) fn places_of(
    alloc: Global,
    archive: &Book,
    book: &Book,
) -> Result<Vec<u64>, chk_bytes::NoMemory>
    ensures size { IfOk result (λ places. length places.items ≡ length (book_view archive.now).ends) }
    ensures are { IfOk result (λ places. IsTrue (ends_rise (book_view book.now).ends)
        → places.items ≡ places_for (book_view archive.now) (book_view book.now)) }
{
    let mut places = Vec::new(alloc);
    let mut recorded = 0;
    for end in archive.ends.as_slice() {
        places.push(split_from(end, book, &mut recorded))?;
    }
    Ok(places)
}

/// The head is of the end's stream, and its record ends past the offset `from`.
fn ends_past(end: &End, from: u64, head: &HeadRef<'_>) -> bool
    ensures { result ≡ ends_past (end_view end.now) from (lent_head head.now) }
{
    head.key.seq > from && is_of(end, head)
}

/// What of a record's bytes stands from the offset `from` on, of which the first one has the offset `begin`.
fn past(value: &[u8], begin: u64, from: u64) -> &[u8]
    ensures { result.now ≡ drop (from - begin) value.now }
{
    let skip = from.saturating_sub(begin);
    if skip >= value.len() as u64 {
        return &value[value.len()..];
    }
    &value[skip as usize..]
}

/// Splits what the record of the head at `index` has of the end's stream from the offset `from` on.
fn split_record<S: Site>(
    alloc: Global,
    site: &mut S,
    who: &Who,
    book: &Book,
    output: &mut Output,
    reader: &mut RecordReader,
    splitter: &mut Splitter,
    files: &[Word],
    heads: &Heads,
    index: usize,
    end: &End,
    from: u64,
) -> Result<(), JobFault>
    requires job { who.now ≡ job }
    requires writer { IsWriter (book_view book.now).next output.old.segmenter }
    requires index { index < length heads.now }
    ensures told { (stamped : List (List ℕ)) (v : Sight) (cs outs : List Chunk) (by_stamps : Bool)
        → AreRecords v files.now heads.now cs → IsFree v (book_view book.now).next → RunsSo cs (end_view end.now) from
        → Adds (S.told site.old) (S.told site.new)
        (Leads (As stamped job)
        (AtJob stamped (SplitSoFar v files.now heads.now cs outs (end_view end.now) from index by_stamps output.old reader.old splitter.old))
        (EndsSo stamped
        (λ t u. SplitSoFar v files.now heads.now cs outs (end_view end.now) from (index + 1) by_stamps output.new reader.new splitter.new u) result)) }
    ensures raw { (v : Sight) (cs : List Chunk) (new : List (List ℕ)) (by_stamps : Bool) (count : ℕ)
        → AreRecords v files.now heads.now cs → Each HasBytes cs → AreOfNew files.now heads.now new
        → AreSettled new (held v) → AreApart new (segment_name (codes "demux") (book_view book.now).next)
        → Adds (S.told site.old) (S.told site.new)
        (Leads (anyhow (SparesFiles new)) (λ h. AreRead v new files.now reader.old h
        × IsFed cs (end_view end.now) from index by_stamps splitter.old count output.old.entries)
        (ReadsOn v new files.now reader.new
        (IsFed cs (end_view end.now) from (index + 1) by_stamps splitter.new count output.new.entries) result)) }
    ensures writer { OnOk result (IsWriter (book_view book.now).next output.new.segmenter) }
    ensures due { OnOk result
        (PutsIf (IsTrue (ends_past (end_view end.now) from (head_in heads.now index)))
        output.old.entries output.new.entries) }
    ensures shown { Adds (S.told site.old) (S.told site.new) (Shows (IsGoneIn files.now heads.now) result) }
    ensures only { IfErr result IsOfRead }
    ensures works { Adds (S.told site.old) (S.told site.new) (Worked (ReadsOrWrites (segment_name (codes "demux") (book_view book.now).next)) result) }
    ensures cause { JobCause (S.fault_count site.old) (S.fault_count site.new) result }
{
    let head = heads.get(index);
    if !ends_past(end, from, &head) {
        return Ok(());
    }
    fetch(alloc, site, who, reader, files, heads, index)?;
    let value = past(reader.value(), head.begin, from);
    split_value(
        alloc, site, who, book, output, splitter, heads, index, &head, end, value,
    )
}

/// Splits what the archive has of the end's stream from the offset `from` on, where its split goes on, and says how many
/// bytes are of no complete record. The stream's heads stand in the block. Where the stream doesn't end past that offset they
/// aren't looked at.
fn split_stream<S: Site>(
    alloc: Global,
    site: &mut S,
    who: &Who,
    types: &[&str],
    book: &Book,
    output: &mut Output,
    reader: &mut RecordReader,
    files: &[Word],
    heads: &Heads,
    end: &End,
    from: u64,
    block: Block,
) -> Result<u64, JobFault>
    requires job { who.now ≡ job }
    requires writer { IsWriter (book_view book.now).next output.old.segmenter }
    requires block { (block.first ≤ block.end) × (block.end ≤ length heads.now) }
    ensures told { (stamped : List (List ℕ)) (v : Sight) (cs outs : List Chunk) → AreRecords v files.now heads.now cs
        → IsFree v (book_view book.now).next → RunsSo cs (end_view end.now) (split_from (book_view book.now) (end_view end.now))
        → HoldsStream heads.now (end_view end.now).stream block.first block.end
        → (from ≡ split_from (book_view book.now) (end_view end.now))
        → Adds (S.told site.old) (S.told site.new)
        (Leads (As stamped job) (AtJob stamped (λ u. IsOutput v outs output.old u × AreWindows v files.now reader.old))
        (EndsSo stamped (λ left u. IsOutput v
        (outs ++ stream_chunks (texts types.now) (book_view book.now) heads.now cs (end_view end.now)) output.new u
        × AreWindows v files.now reader.new × (left ≡ stream_left (texts types.now) (book_view book.now) cs (end_view end.now))) result)) }
    ensures raw { (v : Sight) (cs : List Chunk) (new : List (List ℕ)) → AreRecords v files.now heads.now cs
        → Each HasBytes cs → AreOfNew files.now heads.now new → AreSettled new (held v)
        → AreApart new (segment_name (codes "demux") (book_view book.now).next)
        → HoldsStream heads.now (end_view end.now).stream block.first block.end → Adds (S.told site.old) (S.told site.new)
        (Leads (anyhow (SparesFiles new)) (AreRead v new files.now reader.old)
        (ReadsOn v new files.now reader.new (PutsIf (StreamHasRecord (texts types.now) cs (end_view end.now) from)
        output.old.entries output.new.entries) result)) }
    ensures writer { OnOk result (IsWriter (book_view book.now).next output.new.segmenter) }
    ensures due { OnOk result (PutsIf (HasPast heads.now (end_view end.now) from)
        output.old.entries output.new.entries) }
    ensures shown { Adds (S.told site.old) (S.told site.new) (Shows (IsGoneIn files.now heads.now) result) }
    ensures only { IfErr result IsOfRead }
    ensures works { Adds (S.told site.old) (S.told site.new) (Worked (ReadsOrWrites (segment_name (codes "demux") (book_view book.now).next)) result) }
    ensures cause { JobCause (S.fault_count site.old) (S.fault_count site.new) result }
{
    if from >= end.end {
        return Ok(0);
    }
    let mut splitter = Splitter::new(alloc, is_stamped(end.kind.as_str(), types));
    for index in block.first..block.end {
        split_record(
            alloc,
            site,
            who,
            book,
            output,
            reader,
            &mut splitter,
            files,
            heads,
            index,
            end,
            from,
        )?;
    }
    Ok(splitter.pending() as u64)
}

/// Splits what the archive has of each stream of its book, in the book's order, each from its last record on, and says how many
/// bytes are of no complete record. The heads stand in order, which is that of both books' streams too, so that it goes over
/// the heads and over both books once, and reads each record once. A stream without news costs a look in the books.
pub(crate) fn split_streams<S: Site>(
    alloc: Global,
    site: &mut S,
    who: &Who,
    types: &[&str],
    archive: &Book,
    book: &Book,
    output: &mut Output,
    files: &[Word],
    heads: &Heads,
) -> Result<u64, JobFault>
    requires job { who.now ≡ job }
    requires writer { IsWriter (book_view book.now).next output.old.segmenter }
    ensures told { (stamped : List (List ℕ)) (v : Sight) (cs : List Chunk) → AreRecords v files.now heads.now cs
        → IsFree v (book_view book.now).next → SplitAll cs (book_view archive.now).ends (book_view book.now)
        → StreamsRise heads.now → IsTrue (ends_rise (book_view book.now).ends) → Adds (S.told site.old) (S.told site.new)
        (Leads (As stamped job) (AtJob stamped (IsOutput v [] output.old))
        (EndsSo stamped (λ left u. IsOutput v
        (all_chunks (texts types.now) (book_view book.now) heads.now cs (book_view archive.now).ends) output.new u
        × (left ≡ all_left (texts types.now) (book_view book.now) cs (book_view archive.now).ends)) result)) }
    ensures raw { (v : Sight) (cs : List Chunk) (new : List (List ℕ)) → AreRecords v files.now heads.now cs
        → Each HasBytes cs → AreOfNew files.now heads.now new → AreSettled new (held v)
        → AreApart new (segment_name (codes "demux") (book_view book.now).next)
        → StreamsRise heads.now → IsTrue (ends_rise (book_view book.now).ends) → Adds (S.told site.old) (S.told site.new)
        (Leads (anyhow (SparesFiles new)) (HasFiles new (held v))
        (NotDamaged (PutsIf (HasDue (texts types.now) (book_view archive.now) (book_view book.now) cs)
        output.old.entries output.new.entries) result)) }
    ensures writer { OnOk result (IsWriter (book_view book.now).next output.new.segmenter) }
    ensures due { IsTrue (ends_rise (book_view book.now).ends)
        → OnOk result (PutsIf (HasNew (book_view archive.now) (book_view book.now) heads.now)
        output.old.entries output.new.entries) }
    ensures shown { Adds (S.told site.old) (S.told site.new) (Shows (IsGoneIn files.now heads.now) result) }
    ensures only { IfErr result IsOfRead }
    ensures works { Adds (S.told site.old) (S.told site.new) (Worked (ReadsOrWrites (segment_name (codes "demux") (book_view book.now).next)) result) }
    ensures cause { JobCause (S.fault_count site.old) (S.fault_count site.new) result }
{
    let mut reader = RecordReader::new(alloc);
    let mut left: u64 = 0;
    let mut next = 0;
    let mut recorded = 0;
    for end in archive.ends.as_slice() {
        let block = block_of(heads, end, &mut next);
        let from = split_from(end, book, &mut recorded);
        let more = split_stream(
            alloc,
            site,
            who,
            types,
            book,
            output,
            &mut reader,
            files,
            heads,
            end,
            from,
            block,
        )?;
        left = sum_of(left, more)?;
    }
    Ok(left)
}

/// The sum. One of more than 64 bits counts as want of memory.
fn sum_of(a: u64, b: u64) -> Result<u64, JobFault>
    ensures sum { IfOk result (λ n. n ≡ a + b) }
    ensures only { IfErr result (λ fault. fault ≡ NoMemory) }
{
    a.checked_add(b).ok_or(JobFault::NoMemory)
}
