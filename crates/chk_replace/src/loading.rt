// A file is read whole.
ghost use Rattle.std.specs.Prelude.{◌≡◌, ℕ, [], Option};
ghost use Rattle.chk_site.specs.Files.{File};
ghost use Rattle.chk_site.specs.Effect.{IsSmallFile};
ghost use Rattle.chk_site.specs.History.{History, Every};
ghost use Rattle.chk_site.specs.Site.{Adds, LastFailed, OutsideCause};
ghost use Rattle.chk_site.specs.Runs.{anyhow, Leads};
ghost use Rattle.chk_replace.specs.Replace.{LeavesFile};
ghost use Rattle.chk_replace.specs.Load.{Has, HasPiece, IsGone, IsLook, Loaded, ReadInTurn, ReadOnce};

use chk_bytes::Bytes;
use chk_site::{Call, CallFault, OutsideFault, Site, Who};
use std::alloc::Global;

/// The most bytes that one read asks for.
const PIECE: u64 = 1 << 20;

/// The place at which each file counts as ended.
const END: u64 = (1 << 63) - 1;

/// The bytes of the file, or `None` where it isn't there. It is read in pieces of at most 1,048,576 bytes up to the first
/// empty one; a file that becomes shorter than what was read of it meanwhile ends there. It holds the whole file in memory.
pub fn load<S: Site>(
    alloc: Global,
    site: &mut S,
    who: &Who,
    name: &str,
) -> Result<Option<Bytes>, OutsideFault>
    ensures whole { (file : Option File) → IsSmallFile file → Adds (S.told site.old) (S.told site.new)
        (Leads (anyhow (LeavesFile name.now)) (Has name.now file) (Loaded name.now file result)) }
    ensures script { ReadInTurn who.now name.now [] result (S.told site.old) (S.told site.new) }
    ensures reads { Adds (S.told site.old) (S.told site.new) (Every (IsLook who.now name.now)) }
    ensures none { Adds (S.told site.old) (S.told site.new) (IsGone name.now result) }
    ensures last { Adds (S.told site.old) (S.told site.new) (LastFailed result) }
    ensures cause { OutsideCause (S.fault_count site.old) (S.fault_count site.new) result }
{
    let mut bytes = Bytes::new(alloc);
    loop {
        let given = piece_at(alloc, site, who, name, bytes.len() as u64)?;
        let Some(piece) = given else {
            return Ok(None);
        };
        if piece.len() == 0 {
            return Ok(Some(bytes));
        }
        bytes.push_all(piece.as_slice())?;
    }
}

// What the file has at this place: nothing where it ends before; `None` where it isn't there.
fn piece_at<S: Site>(
    alloc: Global,
    site: &mut S,
    who: &Who,
    name: &str,
    at: u64,
) -> Result<Option<Bytes>, OutsideFault>
    ensures whole { (file : Option File) → Adds (S.told site.old) (S.told site.new)
        (Leads (anyhow (LeavesFile name.now)) (Has name.now file) (HasPiece name.now at file result)) }
    ensures script { ReadOnce who.now name.now at result (S.told site.old) (S.told site.new) }
    ensures reads { Adds (S.told site.old) (S.told site.new) (Every (IsLook who.now name.now)) }
    ensures none { Adds (S.told site.old) (S.told site.new) (IsGone name.now result) }
    ensures last { Adds (S.told site.old) (S.told site.new) (LastFailed result) }
    ensures cause { OutsideCause (S.fault_count site.old) (S.fault_count site.new) result }
{
    let max = END.saturating_sub(at).min(PIECE) as u32;
    match site.read(alloc, who, name, at, max) {
        Ok(bytes) => Ok(Some(bytes)),
        Err(CallFault::Missing) => Ok(None),
        Err(CallFault::Short { .. }) => Ok(Some(Bytes::new(alloc))),
        Err(CallFault::Failed) => Err(OutsideFault::Outside { call: Call::Read }),
        Err(CallFault::NoMemory) => Err(OutsideFault::NoMemory),
        Err(CallFault::Exists) => unreachable!(),
    }
}
