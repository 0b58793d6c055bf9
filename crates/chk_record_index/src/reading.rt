//! One piece of a file.

ghost use Rattle.std.specs.Prelude.{◌≡◌, ◌≤◌, length, Option, IfOk, IfSome};
ghost use Rattle.chk_site.specs.Files.{File};
ghost use Rattle.chk_site.specs.Effect.{IsSmallFile};
ghost use Rattle.chk_site.specs.History.{Every};
ghost use Rattle.chk_site.specs.Site.{Adds, LastFailed, OutsideCause};
ghost use Rattle.chk_site.specs.Runs.{anyhow, Leads};
ghost use Rattle.chk_replace.specs.Load.{asks_at, Has, HasPiece, Loaded, piece_limit};
ghost use Rattle.chk_world.specs.Sight.{job};
ghost use Rattle.chk_world.specs.JobSteps.{IsOf, ReadsFile, SparesFile};
ghost use Rattle.chk_record_index.specs.Pieces.{AsksInPieces, asks_for, HasMost, HasBytes};
ghost use Rattle.chk_record_index.specs.Shown.{ShowsPiece, ShowsBytes, ShowsFile};

use chk_bytes::Bytes;
use chk_site::{Call, CallFault, OutsideFault, Site, Who};
use std::alloc::Global;

/// The most bytes that one read asks for.
pub const PIECE: u64 = 1 << 20;

/// The place at which each file counts as ended.
const END: u64 = (1 << 63) - 1;

/// What a file has from a place on, at most 1,048,576 bytes: none where it ends there or before, and `None` where it isn't
/// there. It costs one read.
pub fn read_piece<S: Site>(
    alloc: Global,
    site: &mut S,
    who: &Who,
    name: &str,
    at: u64,
) -> Result<Option<Bytes>, OutsideFault>
    ensures raw { (file : Option File) → Adds (S.told site.old) (S.told site.new)
        (Leads (anyhow (SparesFile name.now)) (Has name.now file) (HasPiece name.now at file result)) }
    ensures shown { Adds (S.told site.old) (S.told site.new) (ShowsPiece name.now at (asks_at at) result) }
    ensures own { who.now ≡ job → Adds (S.told site.old) (S.told site.new) (Every (IsOf ReadsFile)) }
    ensures pieces { Adds (S.told site.old) (S.told site.new) (Every AsksInPieces) }
    ensures few { IfOk result (λ given. IfSome given (λ bytes. length bytes ≤ asks_at at)) }
    ensures last { Adds (S.told site.old) (S.told site.new) (LastFailed result) }
    ensures cause { OutsideCause (S.fault_count site.old) (S.fault_count site.new) result }
{
    read_most(alloc, site, who, name, at, PIECE as u32)
}

/// What a file has from a place on, at most so many bytes.
fn read_most<S: Site>(
    alloc: Global,
    site: &mut S,
    who: &Who,
    name: &str,
    at: u64,
    most: u32,
) -> Result<Option<Bytes>, OutsideFault>
    requires { most ≤ piece_limit }
    ensures raw { (file : Option File) → Adds (S.told site.old) (S.told site.new)
        (Leads (anyhow (SparesFile name.now)) (Has name.now file) (HasMost name.now at most file result)) }
    ensures shown { Adds (S.told site.old) (S.told site.new) (ShowsPiece name.now at (asks_for most at) result) }
    ensures own { who.now ≡ job → Adds (S.told site.old) (S.told site.new) (Every (IsOf ReadsFile)) }
    ensures pieces { Adds (S.told site.old) (S.told site.new) (Every AsksInPieces) }
    ensures few { IfOk result (λ given. IfSome given (λ bytes. length bytes ≤ asks_for most at)) }
    ensures last { Adds (S.told site.old) (S.told site.new) (LastFailed result) }
    ensures cause { OutsideCause (S.fault_count site.old) (S.fault_count site.new) result }
{
    let max = END.saturating_sub(at).min(most as u64) as u32;
    match site.read(alloc, who, name, at, max) {
        Ok(bytes) => Ok(Some(bytes)),
        Err(CallFault::Missing) => Ok(None),
        Err(CallFault::Short { .. }) => Ok(Some(Bytes::new(alloc))),
        Err(CallFault::Failed) => Err(OutsideFault::Outside { call: Call::Read }),
        Err(CallFault::NoMemory) => Err(OutsideFault::NoMemory),
        Err(CallFault::Exists) => unreachable!(),
    }
}

/// The bytes of the file, or `None` where it isn't there. It is read in pieces of at most 1,048,576 bytes up to the first
/// empty one. It holds the whole file in memory.
pub fn read_file<S: Site>(
    alloc: Global,
    site: &mut S,
    who: &Who,
    name: &str,
) -> Result<Option<Bytes>, OutsideFault>
    ensures raw { (file : Option File) → IsSmallFile file → Adds (S.told site.old) (S.told site.new)
        (Leads (anyhow (SparesFile name.now)) (Has name.now file) (Loaded name.now file result)) }
    ensures shown { Adds (S.told site.old) (S.told site.new) (ShowsFile name.now result) }
    ensures own { who.now ≡ job → Adds (S.told site.old) (S.told site.new) (Every (IsOf ReadsFile)) }
    ensures pieces { Adds (S.told site.old) (S.told site.new) (Every AsksInPieces) }
    ensures last { Adds (S.told site.old) (S.told site.new) (LastFailed result) }
    ensures cause { OutsideCause (S.fault_count site.old) (S.fault_count site.new) result }
{
    let mut bytes = Bytes::new(alloc);
    loop {
        let given = read_piece(alloc, site, who, name, bytes.len() as u64)?;
        let Some(piece) = given else {
            return Ok(None);
        };
        if piece.len() == 0 {
            return Ok(Some(bytes));
        }
        bytes.push_all(piece.as_slice())?;
    }
}

/// What a file has from a place on, at most so many bytes, where one that isn't there counts as empty.
pub(crate) fn read_bytes<S: Site>(
    alloc: Global,
    site: &mut S,
    who: &Who,
    name: &str,
    at: u64,
    most: u32,
) -> Result<Bytes, OutsideFault>
    requires { most ≤ piece_limit }
    ensures raw { (file : Option File) → Adds (S.told site.old) (S.told site.new)
        (Leads (anyhow (SparesFile name.now)) (Has name.now file) (HasBytes name.now at most file result)) }
    ensures shown { Adds (S.told site.old) (S.told site.new) (ShowsBytes name.now at (asks_for most at) result) }
    ensures own { who.now ≡ job → Adds (S.told site.old) (S.told site.new) (Every (IsOf ReadsFile)) }
    ensures pieces { Adds (S.told site.old) (S.told site.new) (Every AsksInPieces) }
    ensures few { IfOk result (λ bytes. length bytes ≤ asks_for most at) }
    ensures last { Adds (S.told site.old) (S.told site.new) (LastFailed result) }
    ensures cause { OutsideCause (S.fault_count site.old) (S.fault_count site.new) result }
{
    match read_most(alloc, site, who, name, at, most) {
        Ok(Some(bytes)) => Ok(bytes),
        Ok(None) => Ok(Bytes::new(alloc)),
        Err(fault) => Err(fault),
    }
}
