//! A short piece of a file.

ghost use Rattle.std.specs.Prelude.{◌≡◌, ◌≤◌, ℕ, List, length, Contains, IfOk, IfErr};
ghost use Rattle.chk_site.specs.Files.{Files};
ghost use Rattle.chk_site.specs.Site.{Adds};
ghost use Rattle.chk_site.specs.Runs.{anyhow, Leads};
ghost use Rattle.chk_world.specs.Sight.{job};
ghost use Rattle.chk_world.specs.JobSteps.{ReadsFile};
ghost use Rattle.chk_record_index.specs.Faults.{JobCause, Worked, IsOfWrite};
ghost use Rattle.chk_record_index.specs.Pieces.{asks_for};
ghost use Rattle.chk_record_reader.specs.Segments.{HasFiles, SparesFiles};
ghost use Rattle.chk_archive_merge.specs.Cursors.{HasShort};

use chk_bytes::Bytes;
use chk_record_index::JobFault;
use chk_site::{Call, CallFault, Site, Who};
use std::alloc::Global;

/// The most bytes that one read asks for: a merge holds a piece of each segment.
pub(crate) const PIECE: usize = 262_144;

/// The place at which each file counts as ended.
const END: u64 = (1 << 63) - 1;

/// What a file has from a place on, at most 262,144 bytes: none where it ends there or before, or
/// isn't there. It costs one read.
pub(crate) fn read_short<S: Site>(
    alloc: Global,
    site: &mut S,
    who: &Who,
    name: &str,
    at: u64,
) -> Result<Bytes, JobFault>
    requires job { who.now ≡ job }
    ensures raw { (names : List (List ℕ)) (held : Files) → Contains names name.now
        → Adds (S.told site.old) (S.told site.new) (Leads (anyhow (SparesFiles names)) (HasFiles names held)
        (HasShort names held name.now at result)) }
    ensures works { Adds (S.told site.old) (S.told site.new) (Worked ReadsFile result) }
    ensures few { IfOk result (λ bytes. length bytes ≤ asks_for 262144 at) }
    ensures only { IfErr result IsOfWrite }
    ensures cause { JobCause (S.fault_count site.old) (S.fault_count site.new) result }
{
    let max = END.saturating_sub(at).min(PIECE as u64) as u32;
    match site.read(alloc, who, name, at, max) {
        Ok(bytes) => Ok(bytes),
        Err(CallFault::Missing) => Ok(Bytes::new(alloc)),
        Err(CallFault::Short { .. }) => Ok(Bytes::new(alloc)),
        Err(CallFault::Failed) => Err(JobFault::Outside { call: Call::Read }),
        Err(CallFault::NoMemory) => Err(JobFault::NoMemory),
        Err(CallFault::Exists) => unreachable!(),
    }
}
