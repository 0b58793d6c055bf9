//! Files of chunks.

ghost use Rattle.std.specs.Prelude.{◌≡◌, ◌≤◌, [], List, IfErr, IfOk, IsTrue};
ghost use Rattle.chk_bytes.specs.Words.{is_word};
ghost use Rattle.chk_chunk.specs.Keys.{record_limit};
ghost use Rattle.chk_site.specs.History.{Every};
ghost use Rattle.chk_site.specs.Site.{Adds, OutsideCause};
ghost use Rattle.chk_world.specs.Sight.{job};
ghost use Rattle.chk_record_index.specs.Faults.{IsOfRead, JobCause};
ghost use Rattle.chk_record_index.specs.Gathered.{ShowsGathered};
ghost use Rattle.chk_record_index.specs.Heads.{Head};
ghost use Rattle.chk_ctl_verify.specs.Calls.{Quiet};
ghost use Rattle.chk_ctl_verify.specs.Files.{damage_of, if_there, ChunksSeen, SinkSeen, StillThere};

use crate::calls::length_of;
use chk_record_index::{Heads, JobFault};
use chk_site::{OutsideFault, Site, Who};
use std::alloc::Global;

/// The place from which on the file isn't one of chunks of at most `most` bytes, 0 where it isn't
/// there. It is read once, in pieces of at most 1,048,576 bytes, and 32 bytes are held for each of
/// its records.
pub(crate) fn look_at_chunks<S: Site>(
    alloc: Global,
    site: &mut S,
    who: &Who,
    name: &str,
    most: u32,
) -> Result<Option<u64>, OutsideFault>
    requires job { who.now ≡ job }
    requires name { IsTrue (is_word name.now) }
    requires most { most ≤ record_limit }
    ensures told { IfOk result (λ found. ChunksSeen most name.now found (S.told site.old)
        (S.told site.new)) }
    ensures own { Adds (S.told site.old) (S.told site.new) (Every Quiet) }
    ensures cause { OutsideCause (S.fault_count site.old) (S.fault_count site.new) result }
{
    match gather(alloc, site, who, name, most) {
        Ok(_) => Ok(None),
        Err(fault) => damage_of(fault),
    }
}

/// How many records it has, where it is one of chunks.
fn gather<S: Site>(
    alloc: Global,
    site: &mut S,
    who: &Who,
    name: &str,
    most: u32,
) -> Result<u64, JobFault>
    requires job { who.now ≡ job }
    requires name { IsTrue (is_word name.now) }
    requires most { most ≤ record_limit }
    ensures shown { (heads : List Head) × Adds (S.told site.old) (S.told site.new)
        (ShowsGathered most name.now 0 [] heads result) }
    ensures own { Adds (S.told site.old) (S.told site.new) (Every Quiet) }
    ensures only { IfErr result IsOfRead }
    ensures cause { JobCause (S.fault_count site.old) (S.fault_count site.new) result }
{
    let mut heads = Heads::new(alloc);
    heads.gather(alloc, site, who, name, 0, most)
}

/// The place of damage; else the refusal.
pub(crate) fn damage_of(fault: JobFault) -> Result<Option<u64>, OutsideFault>
    requires { IsOfRead fault }
    ensures { result ≡ damage_of fault }
{
    match fault {
        JobFault::Outside { call } => Err(OutsideFault::Outside { call }),
        JobFault::Damaged { at, .. } => Ok(Some(at)),
        JobFault::Spent { .. } => unreachable!(),
        JobFault::NoMemory => Err(OutsideFault::NoMemory),
    }
}

/// The same of a closed sink, of at most 131,072 bytes a chunk; where it isn't there behind that,
/// it was taken away meanwhile, and no place is told.
pub(crate) fn look_at_sink<S: Site>(
    alloc: Global,
    site: &mut S,
    who: &Who,
    name: &str,
) -> Result<Option<u64>, OutsideFault>
    requires job { who.now ≡ job }
    requires name { IsTrue (is_word name.now) }
    ensures told { IfOk result (λ found. SinkSeen name.now found (S.told site.old)
        (S.told site.new)) }
    ensures own { Adds (S.told site.old) (S.told site.new) (Every Quiet) }
    ensures cause { OutsideCause (S.fault_count site.old) (S.fault_count site.new) result }
{
    match look_at_chunks(alloc, site, who, name, 131_072) {
        Ok(Some(at)) => still_there(alloc, site, who, name, at),
        Ok(None) => Ok(None),
        Err(fault) => Err(fault),
    }
}

/// The place, where the file is still there.
fn still_there<S: Site>(
    alloc: Global,
    site: &mut S,
    who: &Who,
    name: &str,
    at: u64,
) -> Result<Option<u64>, OutsideFault>
    requires job { who.now ≡ job }
    ensures told { IfOk result (λ found. StillThere name.now at found (S.told site.old)
        (S.told site.new)) }
    ensures own { Adds (S.told site.old) (S.told site.new) (Every Quiet) }
    ensures cause { OutsideCause (S.fault_count site.old) (S.fault_count site.new) result }
{
    match length_of(alloc, site, who, name) {
        Ok(size) => Ok(if_there(at, size)),
        Err(fault) => Err(fault),
    }
}

fn if_there(at: u64, size: Option<u64>) -> Option<u64>
    ensures { result ≡ if_there at size }
{
    match size {
        Some(_) => Some(at),
        None => None,
    }
}
