//! Which chunks are set aside.

ghost use Rattle.std.specs.Prelude.{◌≡◌, ◌<◌, ◌≤◌, ◌++◌, false, [], ℕ, List, Ok, bytes_eq, length, IfOk, IfErr, OnOk};
ghost use Rattle.chk_site.specs.History.{Every};
ghost use Rattle.chk_site.specs.Site.{Adds};
ghost use Rattle.chk_site.specs.Runs.{anyhow, Leads};
ghost use Rattle.chk_chunk.specs.Keys.{Chunk};
ghost use Rattle.chk_world.specs.ArchiveRuns.{in_order};
ghost use Rattle.chk_world.specs.Places.{As};
ghost use Rattle.chk_world.specs.Sight.{job, Sight, AtJob};
ghost use Rattle.chk_world.specs.JobSteps.{IsOf, ReadsFile};
ghost use Rattle.chk_record_index.specs.Faults.{JobCause, FailsLast, IsOfRead};
ghost use Rattle.chk_record_index.specs.Pieces.{AsksInPieces};
ghost use Rattle.chk_record_index.specs.Causes.{Shows};
ghost use Rattle.chk_record_reader.specs.Gone.{IsGoneIn};
ghost use Rattle.chk_archive_plan.proofs.ChunkOrder.{Ordered};
ghost use Rattle.chk_archive_plan.specs.Passes.{between, head_in, AreSpans};
ghost use Rattle.chk_archive_plan.specs.declared.spans.Known.{Known};
ghost use Rattle.chk_record_reader.specs.Segments.{HasFiles, SparesFiles};
ghost use Rattle.chk_archive_parts.specs.Cuts.{AreWithin, cut_chunks};
ghost use Rattle.chk_archive_parts.specs.Fetching.{CanFetchAll};
ghost use Rattle.chk_archive_parts.specs.Gathering.{held};
ghost use Rattle.chk_archive_parts.specs.Records.{AreRecords};
ghost use Rattle.chk_archive_parts.specs.Kept.{AreSpansWithin, AreWhole, AreKeptOf, KeepsFirsts, repeats, goes_on, NoneRepeats, group_of, new_cut, whole_from, past_cuts, value_in, KeptSo, KeptTold, SiftedSo, CanFind, FoundSo, AmongSo};

use crate::cuts::{Cut, Cuts};
use crate::fetching::fetch;
use chk_archive_plan::Span;
use chk_bytes::{NoMemory, Word};
use chk_record_index::{Heads, JobFault};
use chk_record_reader::RecordReader;
use chk_site::{Site, Who};
use std::alloc::Global;

/// Which records past the gaps are set aside, in order: of those that are equal in stream, sequence id and data the first alone.
///
/// Where no two that follow each other are equal in stream and offsets, no call is made, and it costs the heads past the gaps, and
/// 8 bytes for each. Else each that is equal in both to the one before it is read, with those of the same offsets that are kept,
/// until one of these has its data; and 8 bytes more are held for each that is kept. So `n` records of the same offsets, each with
/// other data than all the others, cost at most `n * (n - 1) / 2` reads of kept ones; where equal offsets mean equal data, as in all
/// that the program itself writes, each record costs at most two reads.
pub fn kept_of<S: Site>(
    alloc: Global,
    site: &mut S,
    who: &Who,
    files: &[Word],
    heads: &Heads,
    spans: &[Span],
) -> Result<Cuts, JobFault>
    requires job { who.now ≡ job }
    requires spans { AreSpansWithin (length heads.now) spans.now }
    ensures raw { (v : Sight) (found : List Chunk) (known : List Known) → AreRecords v files.now heads.now (in_order found)
        → AreSpans known heads.now 0 spans.now (length heads.now) → Adds (S.told site.old) (S.told site.new)
        (Leads (anyhow (SparesFiles files.now)) (HasFiles files.now (held v)) (KeptSo (in_order found) spans.now result)) }
    ensures told { (stamped : List (List ℕ)) (v : Sight) (found : List Chunk) (known : List Known)
        → AreRecords v files.now heads.now (in_order found) → AreSpans known heads.now 0 spans.now (length heads.now)
        → Adds (S.told site.old) (S.told site.new)
        (Leads (As stamped job) (AtJob stamped (λ u. u ≡ v)) (KeptTold stamped v (in_order found) spans.now result)) }
    ensures none { NoneRepeats heads.now (past_cuts heads.now spans.now) → S.told site.new ≡ S.told site.old }
    ensures within { IfOk result (λ cuts. AreWithin (length heads.now) cuts) }
    ensures among { IfOk result (KeepsFirsts heads.now spans.now) }
    ensures shown { Adds (S.told site.old) (S.told site.new) (Shows (IsGoneIn files.now heads.now) result) }
    ensures own { Adds (S.told site.old) (S.told site.new) (Every (IsOf ReadsFile)) }
    ensures pieces { Adds (S.told site.old) (S.told site.new) (Every AsksInPieces) }
    ensures only { IfErr result IsOfRead }
    ensures last { Adds (S.told site.old) (S.told site.new) (FailsLast result) }
    ensures cause { JobCause (S.fault_count site.old) (S.fault_count site.new) result }
{
    let past = past_of(alloc, heads, spans)?;
    if !has_repeats(heads, past.as_slice()) {
        return Ok(past);
    }
    sift(alloc, site, who, files, heads, past.as_slice())
}

/// The records past the gaps, in order.
fn past_of(alloc: Global, heads: &Heads, spans: &[Span]) -> Result<Cuts, NoMemory>
    requires { AreSpansWithin (length heads.now) spans.now }
    ensures past { IfOk result (λ cuts. cuts ≡ past_cuts heads.now spans.now) }
    ensures whole { IfOk result (AreWhole (length heads.now)) }
{
    let mut cuts = Cuts::new(alloc);
    for span in spans {
        push_past(&mut cuts, heads, span)?;
    }
    Ok(cuts)
}

/// Puts the records past a span's gap behind the others.
fn push_past(cuts: &mut Cuts, heads: &Heads, span: &Span) -> Result<(), NoMemory>
    requires whole { AreWhole (length heads.now) cuts.old }
    requires span { (span.now.past ≤ span.now.end) × (span.now.end ≤ length heads.now) }
    ensures past { OnOk result (cuts.new ≡ cuts.old ++ whole_from span.now.past (between span.now.past span.now.end heads.now)) }
    ensures whole { OnOk result (AreWhole (length heads.now) cuts.new) }
{
    for index in span.past..span.end {
        cuts.push(Cut::new(index, 0)?)?;
    }
    Ok(())
}

/// One of these records has the stream and the offsets of the one before it.
fn has_repeats(heads: &Heads, cuts: &[Cut]) -> bool
    requires { AreWithin (length heads.now) cuts.now }
    ensures none { result ≡ false → NoneRepeats heads.now cuts.now }
    ensures some { NoneRepeats heads.now cuts.now → result ≡ false }
{
    for place in 1..cuts.len() {
        if goes_on(heads, cuts, place) {
            return true;
        }
    }
    false
}

/// The record at this place has the stream and the offsets of the one before it.
fn goes_on(heads: &Heads, cuts: &[Cut], place: usize) -> bool
    requires within { AreWithin (length heads.now) cuts.now }
    requires place { place < length cuts.now }
    ensures { result ≡ goes_on heads.now cuts.now place }
{
    place > 0
        && repeats(
            heads,
            cuts[place - 1].index as usize,
            cuts[place].index as usize,
        )
}

/// Both records are of one stream and have the same offsets.
fn repeats(heads: &Heads, first: usize, second: usize) -> bool
    requires first { first < length heads.now }
    requires second { second < length heads.now }
    ensures { result ≡ repeats (head_in heads.now first) (head_in heads.now second) }
{
    let old = heads.get(first);
    let new = heads.get(second);
    heads.are_of_one(first, second) && old.begin == new.begin && old.key.seq == new.key.seq
}

/// Of records that stand in order those that aren't equal to an earlier one in stream, offsets and data.
fn sift<S: Site>(
    alloc: Global,
    site: &mut S,
    who: &Who,
    files: &[Word],
    heads: &Heads,
    past: &[Cut],
) -> Result<Cuts, JobFault>
    requires job { who.now ≡ job }
    requires whole { AreWhole (length heads.now) past.now }
    ensures raw { (v : Sight) (cs : List Chunk) → AreRecords v files.now heads.now cs → Ordered (cut_chunks cs past.now)
        → Adds (S.told site.old) (S.told site.new)
        (Leads (anyhow (SparesFiles files.now)) (HasFiles files.now (held v)) (SiftedSo past.now cs result)) }
    ensures whole { IfOk result (AreWhole (length heads.now)) }
    ensures among { IfOk result (AreKeptOf heads.now past.now (length past.now)) }
    ensures shown { Adds (S.told site.old) (S.told site.new) (Shows (IsGoneIn files.now heads.now) result) }
    ensures own { Adds (S.told site.old) (S.told site.new) (Every (IsOf ReadsFile)) }
    ensures pieces { Adds (S.told site.old) (S.told site.new) (Every AsksInPieces) }
    ensures only { IfErr result IsOfRead }
    ensures last { Adds (S.told site.old) (S.told site.new) (FailsLast result) }
    ensures cause { JobCause (S.fault_count site.old) (S.fault_count site.new) result }
{
    let mut old = RecordReader::new(alloc);
    let mut new = RecordReader::new(alloc);
    let mut cuts = Cuts::new(alloc);
    let mut group = 0;
    for (place, cut) in past.iter().enumerate() {
        group = group_at(heads, past, place, group, cuts.as_slice().len());
        let known = &cuts.as_slice()[group..];
        let index = cut.index as usize;
        let found = is_found(
            alloc, site, who, &mut old, &mut new, files, heads, known, index,
        )?;
        push_new(&mut cuts, cut, found)?;
    }
    Ok(cuts)
}

/// Where those of `count` kept records begin that have the stream and the offsets of the one at this place.
fn group_at(heads: &Heads, past: &[Cut], place: usize, group: usize, count: usize) -> usize
    requires within { AreWithin (length heads.now) past.now }
    requires place { place < length past.now }
    ensures { result ≡ group_of (goes_on heads.now past.now place) group count }
{
    if goes_on(heads, past, place) {
        group
    } else {
        count
    }
}

/// Puts a cut behind the others where it wasn't found.
fn push_new(cuts: &mut Cuts, cut: &Cut, found: bool) -> Result<(), NoMemory>
    ensures { OnOk result (cuts.new ≡ cuts.old ++ new_cut found cut.now) }
{
    if !found {
        cuts.push(*cut)?;
    }
    Ok(())
}

/// Whether one of the known records has the data of the one at `index`, which isn't read where none is known.
fn is_found<S: Site>(
    alloc: Global,
    site: &mut S,
    who: &Who,
    old: &mut RecordReader,
    new: &mut RecordReader,
    files: &[Word],
    heads: &Heads,
    known: &[Cut],
    index: usize,
) -> Result<bool, JobFault>
    requires job { who.now ≡ job }
    requires known { AreWithin (length heads.now) known.now }
    requires index { index < length heads.now }
    ensures raw { (v : Sight) (cs : List Chunk) → AreRecords v files.now heads.now cs → Adds (S.told site.old) (S.told site.new)
        (Leads (anyhow (SparesFiles files.now)) (CanFind v files.now old.old new.old)
        (FoundSo v files.now (value_in cs index) cs known.now old.new new.new result)) }
    ensures none { known.now ≡ [] → result ≡ Ok false }
    ensures shown { Adds (S.told site.old) (S.told site.new) (Shows (IsGoneIn files.now heads.now) result) }
    ensures own { Adds (S.told site.old) (S.told site.new) (Every (IsOf ReadsFile)) }
    ensures pieces { Adds (S.told site.old) (S.told site.new) (Every AsksInPieces) }
    ensures only { IfErr result IsOfRead }
    ensures last { Adds (S.told site.old) (S.told site.new) (FailsLast result) }
    ensures cause { JobCause (S.fault_count site.old) (S.fault_count site.new) result }
{
    if known.is_empty() {
        return Ok(false);
    }
    fetch(alloc, site, who, new, files, heads, index)?;
    is_among(alloc, site, who, old, files, heads, known, new.value())
}

/// Whether one of the known records has these data.
fn is_among<S: Site>(
    alloc: Global,
    site: &mut S,
    who: &Who,
    reader: &mut RecordReader,
    files: &[Word],
    heads: &Heads,
    known: &[Cut],
    value: &[u8],
) -> Result<bool, JobFault>
    requires job { who.now ≡ job }
    requires known { AreWithin (length heads.now) known.now }
    ensures raw { (v : Sight) (cs : List Chunk) → AreRecords v files.now heads.now cs → Adds (S.told site.old) (S.told site.new)
        (Leads (anyhow (SparesFiles files.now)) (CanFetchAll v files.now reader.old)
        (AmongSo v files.now value.now cs known.now reader.new result)) }
    ensures shown { Adds (S.told site.old) (S.told site.new) (Shows (IsGoneIn files.now heads.now) result) }
    ensures own { Adds (S.told site.old) (S.told site.new) (Every (IsOf ReadsFile)) }
    ensures pieces { Adds (S.told site.old) (S.told site.new) (Every AsksInPieces) }
    ensures only { IfErr result IsOfRead }
    ensures last { Adds (S.told site.old) (S.told site.new) (FailsLast result) }
    ensures cause { JobCause (S.fault_count site.old) (S.fault_count site.new) result }
{
    for cut in known {
        fetch(alloc, site, who, reader, files, heads, cut.index as usize)?;
        if are_same(reader.value(), value) {
            return Ok(true);
        }
    }
    Ok(false)
}

/// Both are the same bytes.
fn are_same(value: &[u8], other: &[u8]) -> bool
    ensures { result ≡ bytes_eq value.now other.now }
{
    value == other
}
