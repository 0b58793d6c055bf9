//! One run of a file's bytes.

ghost use Rattle.std.specs.Prelude.{◌≡◌, ◌≤◌, ℕ, List, Option};
ghost use Rattle.chk_chunk.specs.Keys.{record_limit};
ghost use Rattle.chk_site.specs.Files.{File};
ghost use Rattle.chk_site.specs.Effect.{IsSmallFile};
ghost use Rattle.chk_site.specs.History.{Every};
ghost use Rattle.chk_site.specs.Site.{Adds, LastFailed, OutsideCause};
ghost use Rattle.chk_site.specs.Runs.{anyhow, Leads};
ghost use Rattle.chk_replace.specs.Load.{Has};
ghost use Rattle.chk_world.specs.Sight.{job};
ghost use Rattle.chk_world.specs.JobSteps.{IsOf, ReadsFile, SparesFile};
ghost use Rattle.chk_record_index.specs.Pieces.{AsksInPieces};
ghost use Rattle.chk_record_index.specs.Shown.{ShowsBytes};
ghost use Rattle.chk_record_reader.specs.Gone.{ShowsRun};
ghost use Rattle.chk_record_reader.specs.Spans.{HasRun, StaysAtOk};

use chk_bytes::Bytes;
use chk_record_index::PIECE;
use chk_site::{Call, CallFault, OutsideFault, Site, Who};
use std::alloc::Global;

/// What a file has from a place on, at most `max` bytes: none where it ends there or before, or
/// isn't there. It costs one read.
fn read_once<S: Site>(
    alloc: Global,
    site: &mut S,
    who: &Who,
    name: &str,
    at: u64,
    max: u32,
) -> Result<Bytes, OutsideFault>
    requires { max ≤ record_limit }
    ensures raw { (file : Option File) → Adds (S.told site.old) (S.told site.new)
        (Leads (anyhow (SparesFile name.now)) (Has name.now file)
        (HasRun name.now at max file result)) }
    ensures shown { Adds (S.told site.old) (S.told site.new) (ShowsBytes name.now at max result) }
    ensures stays { (other : List ℕ) (file : Option File) → Adds (S.told site.old)
        (S.told site.new)
        (Leads (anyhow (SparesFile other)) (Has other file) (StaysAtOk other file result)) }
    ensures own { who.now ≡ job → Adds (S.told site.old) (S.told site.new) (Every
        (IsOf ReadsFile)) }
    ensures pieces { Adds (S.told site.old) (S.told site.new) (Every AsksInPieces) }
    ensures last { Adds (S.told site.old) (S.told site.new) (LastFailed result) }
    ensures cause { OutsideCause (S.fault_count site.old) (S.fault_count site.new) result }
{
    match site.read(alloc, who, name, at, max) {
        Ok(bytes) => Ok(bytes),
        Err(CallFault::Missing) => Ok(Bytes::new(alloc)),
        Err(CallFault::Short { .. }) => Ok(Bytes::new(alloc)),
        Err(CallFault::Failed) => Err(OutsideFault::Outside { call: Call::Read }),
        Err(CallFault::NoMemory) => Err(OutsideFault::NoMemory),
        Err(CallFault::Exists) => unreachable!(),
    }
}

/// What a file has from a place on, at most `size` bytes, which are at most 2,097,152. It costs
/// one read, and where more than 1,048,576 bytes are asked for and so many came, another one and a
/// copy.
pub(crate) fn read_run<S: Site>(
    alloc: Global,
    site: &mut S,
    who: &Who,
    name: &str,
    at: u64,
    size: u64,
) -> Result<Bytes, OutsideFault>
    requires { size ≤ 2097152 }
    ensures raw { (file : Option File) → IsSmallFile file → Adds (S.told site.old)
        (S.told site.new)
        (Leads (anyhow (SparesFile name.now)) (Has name.now file)
        (HasRun name.now at size file result)) }
    ensures shown { Adds (S.told site.old) (S.told site.new) (ShowsRun name.now at size result) }
    ensures stays { (other : List ℕ) (file : Option File) → Adds (S.told site.old)
        (S.told site.new)
        (Leads (anyhow (SparesFile other)) (Has other file) (StaysAtOk other file result)) }
    ensures own { who.now ≡ job → Adds (S.told site.old) (S.told site.new) (Every
        (IsOf ReadsFile)) }
    ensures pieces { Adds (S.told site.old) (S.told site.new) (Every AsksInPieces) }
    ensures last { Adds (S.told site.old) (S.told site.new) (LastFailed result) }
    ensures cause { OutsideCause (S.fault_count site.old) (S.fault_count site.new) result }
{
    if size <= PIECE {
        return read_once(alloc, site, who, name, at, size as u32);
    }
    let mut bytes = read_once(alloc, site, who, name, at, PIECE as u32)?;
    if bytes.len() < PIECE as usize {
        return Ok(bytes);
    }
    let behind = at.saturating_add(PIECE);
    let rest = read_once(alloc, site, who, name, behind, (size - PIECE) as u32)?;
    bytes.push_all(rest.as_slice())?;
    Ok(bytes)
}
