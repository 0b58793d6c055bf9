//! The heads of the records in some files, and the records themselves.

ghost use Rattle.std.specs.Prelude.{◌≡◌, ◌+◌, ◌<◌, ◌≤◌, ℕ, List, Option, length, slice_index_or, IfOk, IfErr};
ghost use Rattle.chk_chunk.specs.Keys.{record_limit};
ghost use Rattle.chk_site.specs.Files.{File, Files};
ghost use Rattle.chk_site.specs.History.{Every};
ghost use Rattle.chk_site.specs.Site.{Adds};
ghost use Rattle.chk_site.specs.Runs.{anyhow, Leads};
ghost use Rattle.chk_replace.specs.Load.{Has};
ghost use Rattle.chk_world.specs.Sight.{job};
ghost use Rattle.chk_world.specs.JobSteps.{IsOf, ReadsFile, SparesFile};
ghost use Rattle.chk_record_index.specs.Faults.{JobCause, FailsLast, IsOfRead};
ghost use Rattle.chk_record_index.specs.Order.{no_head};
ghost use Rattle.chk_record_index.specs.Pieces.{AsksInPieces};
ghost use Rattle.chk_record_index.specs.ShownHeads.{ShowsAllGathered};
ghost use Rattle.chk_record_index.specs.declared.fault.JobFault.TheVariants.{NoMemory};
ghost use Rattle.chk_record_index.specs.Causes.{Shows};
ghost use Rattle.chk_record_reader.specs.Spans.{StaysAtOk};
ghost use Rattle.chk_record_reader.specs.Gone.{IsGoneIn};
ghost use Rattle.chk_record_reader.specs.Segments.{HasFiles, SparesFiles, AreSettled, GatheredAll};
ghost use Rattle.chk_record_reader.specs.Archives.{CanReadAll, HasReadAll};

use crate::reader::RecordReader;
use chk_bytes::Word;
use chk_record_index::{Heads, JobFault};
use chk_site::{Site, Who};
use std::alloc::Global;

/// The heads of these files' records, file after file, each with the place of its file's name. A
/// file is read once.
pub(crate) fn gather_all<S: Site>(
    alloc: Global,
    site: &mut S,
    who: &Who,
    names: &[Word],
    most: u32,
) -> Result<Heads, JobFault>
    requires { most ≤ record_limit }
    ensures raw { (held : Files) → who.now ≡ job → AreSettled names.now held → Adds
        (S.told site.old) (S.told site.new)
        (Leads (anyhow (SparesFiles names.now)) (HasFiles names.now held)
        (GatheredAll most names.now held result)) }
    ensures shown { Adds (S.told site.old) (S.told site.new) (ShowsAllGathered most names.now result) }
    ensures own { who.now ≡ job → Adds (S.told site.old) (S.told site.new) (Every
        (IsOf ReadsFile)) }
    ensures pieces { Adds (S.told site.old) (S.told site.new) (Every AsksInPieces) }
    ensures only { IfErr result IsOfRead }
    ensures last { Adds (S.told site.old) (S.told site.new) (FailsLast result) }
    ensures cause { JobCause (S.fault_count site.old) (S.fault_count site.new) result }
{
    let mut heads = Heads::new(alloc);
    let mut file = 0;
    for name in names {
        heads.gather(alloc, site, who, name.as_str(), file, most)?;
        file = next(file)?;
    }
    Ok(heads)
}

/// The number behind this one.
fn next(file: u32) -> Result<u32, JobFault>
    ensures ok { IfOk result (λ n. n ≡ file + 1) }
    ensures err { IfErr result (λ fault. fault ≡ NoMemory) }
{
    file.checked_add(1).ok_or(JobFault::NoMemory)
}

/// Fetches the record of a head by the name of its file. A head of no file counts as want of
/// memory.
pub(crate) fn fetch<S: Site>(
    alloc: Global,
    site: &mut S,
    who: &Who,
    reader: &mut RecordReader,
    names: &[Word],
    heads: &Heads,
    index: usize,
) -> Result<(), JobFault>
    requires { index < length heads.now }
    ensures raw { (most : ℕ) (held : Files) → most ≤ record_limit → AreSettled names.now held → Adds
        (S.told site.old) (S.told site.new)
        (Leads (anyhow (SparesFiles names.now)) (CanReadAll most names.now held heads.now
        reader.old)
        (HasReadAll most names.now held heads.now (slice_index_or heads.now index no_head)
        reader.new result)) }
    ensures shown { Adds (S.told site.old) (S.told site.new) (Shows (IsGoneIn names.now heads.now) result) }
    ensures stays { (other : List ℕ) (file : Option File) → Adds (S.told site.old)
        (S.told site.new)
        (Leads (anyhow (SparesFile other)) (Has other file) (StaysAtOk other file result)) }
    ensures own { who.now ≡ job → Adds (S.told site.old) (S.told site.new) (Every
        (IsOf ReadsFile)) }
    ensures pieces { Adds (S.told site.old) (S.told site.new) (Every AsksInPieces) }
    ensures only { IfErr result IsOfRead }
    ensures last { Adds (S.told site.old) (S.told site.new) (FailsLast result) }
    ensures cause { JobCause (S.fault_count site.old) (S.fault_count site.new) result }
{
    match names.get(heads.get(index).file as usize) {
        Some(name) => reader.fetch(alloc, site, who, name.as_str(), heads, index),
        None => Err(JobFault::NoMemory),
    }
}
