//! The heads of the records in the files that an archive run reads.

ghost use Rattle.std.specs.Prelude.{◌≡◌, ◌+◌, ℕ, List, IfOk, IfErr};
ghost use Rattle.chk_record_index.specs.declared.fault.JobFault.TheVariants.{NoMemory};
ghost use Rattle.chk_site.specs.Files.{Files};
ghost use Rattle.chk_site.specs.History.{Every};
ghost use Rattle.chk_site.specs.Site.{Adds};
ghost use Rattle.chk_site.specs.Runs.{anyhow, Leads};
ghost use Rattle.chk_chunk.specs.Keys.{chunk_limit};
ghost use Rattle.chk_world.specs.Places.{As};
ghost use Rattle.chk_world.specs.Sight.{job, Sight, AtJob};
ghost use Rattle.chk_world.specs.JobSteps.{IsOf, ReadsFile};
ghost use Rattle.chk_record_index.specs.Faults.{JobCause, FailsLast, IsOfRead};
ghost use Rattle.chk_record_index.specs.Pieces.{AsksInPieces};
ghost use Rattle.chk_record_index.specs.ShownHeads.{ShowsAllGathered};
ghost use Rattle.chk_record_reader.specs.Segments.{HasFiles, SparesFiles, AreSettled, GatheredAll};
ghost use Rattle.chk_archive_parts.specs.Gathering.{AreSound, Found};

use chk_bytes::Word;
use chk_record_index::{Heads, JobFault};
use chk_site::{Site, Who};
use std::alloc::Global;

/// The most bytes of a chunk's data.
const MOST: u32 = 131_072;

/// The heads of these files' records, file after file, each with the place of its file's name. A file is read once, in pieces of
/// at most 1,048,576 bytes. `Damaged` comes exactly where one of the files isn't one of chunks: of the first such one, with its
/// name and the place from which on it isn't.
pub fn gather_found<S: Site>(
    alloc: Global,
    site: &mut S,
    who: &Who,
    names: &[Word],
) -> Result<Heads, JobFault>
    requires { who.now ≡ job }
    ensures told { (stamped : List (List ℕ)) (v : Sight) → AreSound v names.now → Adds (S.told site.old) (S.told site.new)
        (Leads (As stamped job) (AtJob stamped (λ u. u ≡ v)) (Found stamped v names.now result)) }
    ensures raw { (held : Files) → AreSettled names.now held → Adds (S.told site.old) (S.told site.new)
        (Leads (anyhow (SparesFiles names.now)) (HasFiles names.now held) (GatheredAll chunk_limit names.now held result)) }
    ensures shown { Adds (S.told site.old) (S.told site.new) (ShowsAllGathered chunk_limit names.now result) }
    ensures own { Adds (S.told site.old) (S.told site.new) (Every (IsOf ReadsFile)) }
    ensures pieces { Adds (S.told site.old) (S.told site.new) (Every AsksInPieces) }
    ensures only { IfErr result IsOfRead }
    ensures last { Adds (S.told site.old) (S.told site.new) (FailsLast result) }
    ensures cause { JobCause (S.fault_count site.old) (S.fault_count site.new) result }
{
    let mut heads = Heads::new(alloc);
    let mut file = 0;
    for name in names {
        heads.gather(alloc, site, who, name.as_str(), file, MOST)?;
        file = next(file)?;
    }
    Ok(heads)
}

/// The number behind this one.
fn next(file: u32) -> Result<u32, JobFault>
    ensures ok { IfOk result (λ n. n ≡ file + 1) }
    ensures err { IfErr result (λ fault. fault ≡ NoMemory) }
{
    file.checked_add(1).ok_or(JobFault::NoMemory)
}
