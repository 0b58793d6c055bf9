//! Fetches records by the files that their heads name.

ghost use Rattle.std.specs.Prelude.{◌≡◌, ◌<◌, ℕ, List, Option, length, slice_index_or, IfErr};
ghost use Rattle.chk_site.specs.Files.{File};
ghost use Rattle.chk_site.specs.History.{Every};
ghost use Rattle.chk_site.specs.Site.{Adds};
ghost use Rattle.chk_site.specs.Runs.{anyhow, Leads};
ghost use Rattle.chk_replace.specs.Load.{Has};
ghost use Rattle.chk_chunk.specs.Keys.{Chunk};
ghost use Rattle.chk_world.specs.Sight.{job, Sight};
ghost use Rattle.chk_world.specs.JobSteps.{IsOf, ReadsFile, SparesFile};
ghost use Rattle.chk_record_index.specs.Faults.{JobCause, FailsLast, IsOfRead};
ghost use Rattle.chk_record_index.specs.Order.{lent_head, no_head};
ghost use Rattle.chk_record_index.specs.Pieces.{AsksInPieces};
ghost use Rattle.chk_record_index.specs.Causes.{Shows};
ghost use Rattle.chk_record_reader.specs.Gone.{IsGoneIn};
ghost use Rattle.chk_record_reader.specs.Spans.{StaysAtOk};
ghost use Rattle.chk_archive_parts.specs.Gathering.{AreSound};
ghost use Rattle.chk_archive_parts.specs.Fetching.{head_file, CanFetch, Fetched, IsRecordAt};

use chk_bytes::Word;
use chk_record_index::{HeadRef, Heads, JobFault};
use chk_record_reader::{Ahead, RecordReader};
use chk_site::{Site, Who};
use std::alloc::Global;

/// Makes the record of the head at `index` the one whose value the reader holds. A head of none of the files counts as want
/// of memory.
pub fn fetch<S: Site>(
    alloc: Global,
    site: &mut S,
    who: &Who,
    reader: &mut RecordReader,
    files: &[Word],
    heads: &Heads,
    index: usize,
) -> Result<(), JobFault>
    requires job { who.now ≡ job }
    requires index { index < length heads.now }
    ensures raw { (v : Sight) (c : Chunk) → AreSound v files.now → IsRecordAt v files.now heads.now index c
        → Adds (S.told site.old) (S.told site.new)
        (Leads (anyhow (SparesFile (head_file files.now heads.now index))) (CanFetch v files.now heads.now index reader.old)
        (Fetched v files.now heads.now index c reader.new result)) }
    ensures stays { (other : List ℕ) (file : Option File) → Adds (S.told site.old) (S.told site.new)
        (Leads (anyhow (SparesFile other)) (Has other file) (StaysAtOk other file result)) }
    ensures shown { Adds (S.told site.old) (S.told site.new) (Shows (IsGoneIn files.now heads.now) result) }
    ensures own { Adds (S.told site.old) (S.told site.new) (Every (IsOf ReadsFile)) }
    ensures pieces { Adds (S.told site.old) (S.told site.new) (Every AsksInPieces) }
    ensures only { IfErr result IsOfRead }
    ensures last { Adds (S.told site.old) (S.told site.new) (FailsLast result) }
    ensures cause { JobCause (S.fault_count site.old) (S.fault_count site.new) result }
{
    fetch_by_head(
        alloc,
        site,
        who,
        reader,
        files,
        heads,
        index,
        &heads.get(index),
        Ahead::Next,
    )
}

/// The same for a caller that has the head at `index`, and says how far a read goes on.
pub fn fetch_by_head<S: Site>(
    alloc: Global,
    site: &mut S,
    who: &Who,
    reader: &mut RecordReader,
    files: &[Word],
    heads: &Heads,
    index: usize,
    head: &HeadRef<'_>,
    ahead: Ahead,
) -> Result<(), JobFault>
    requires job { who.now ≡ job }
    requires index { index < length heads.now }
    requires head { lent_head head.now ≡ slice_index_or heads.now index no_head }
    ensures raw { (v : Sight) (c : Chunk) → AreSound v files.now → IsRecordAt v files.now heads.now index c
        → Adds (S.told site.old) (S.told site.new)
        (Leads (anyhow (SparesFile (head_file files.now heads.now index))) (CanFetch v files.now heads.now index reader.old)
        (Fetched v files.now heads.now index c reader.new result)) }
    ensures stays { (other : List ℕ) (file : Option File) → Adds (S.told site.old) (S.told site.new)
        (Leads (anyhow (SparesFile other)) (Has other file) (StaysAtOk other file result)) }
    ensures shown { Adds (S.told site.old) (S.told site.new) (Shows (IsGoneIn files.now heads.now) result) }
    ensures own { Adds (S.told site.old) (S.told site.new) (Every (IsOf ReadsFile)) }
    ensures pieces { Adds (S.told site.old) (S.told site.new) (Every AsksInPieces) }
    ensures only { IfErr result IsOfRead }
    ensures last { Adds (S.told site.old) (S.told site.new) (FailsLast result) }
    ensures cause { JobCause (S.fault_count site.old) (S.fault_count site.new) result }
{
    match files.get(head.file as usize) {
        Some(name) => {
            reader.fetch_by_head(alloc, site, who, name.as_str(), heads, index, head, ahead)
        }
        None => Err(JobFault::NoMemory),
    }
}
