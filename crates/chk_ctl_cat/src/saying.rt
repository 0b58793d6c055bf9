//! One read, and one print.

ghost use Rattle.std.specs.Prelude.{◌≡◌, ◌≤◌, length, IfOk, IsTrue};
ghost use Rattle.chk_bytes.specs.Words.{is_word};
ghost use Rattle.chk_site.specs.Site.{Adds, LastFailed, OutsideCause};
ghost use Rattle.chk_world.specs.Sight.{job};
ghost use Rattle.chk_ctl_cat.specs.Faults.{FailsLast, LookCause};
ghost use Rattle.chk_ctl_cat.specs.Looking.{Sees};
ghost use Rattle.chk_ctl_cat.specs.Segments.{asks_at, Looked, Said};

use crate::fault::{LookFault, gone};
use chk_bytes::Bytes;
use chk_site::{Call, CallFault, OutsideFault, PIECE_BYTES, Site, Who};
use std::alloc::Global;

/// The most bytes that one read asks for: so few that what is read, gone over and printed stays in the processor's cache.
const PIECE: u64 = PIECE_BYTES as u64;

/// The place at which each file counts as ended.
const END: u64 = (1 << 63) - 1;

/// What a file has from a place on, at most 131,072 bytes; `Gone` comes exactly where it isn't there. It costs one read.
pub(crate) fn look<S: Site>(
    alloc: Global,
    site: &mut S,
    who: &Who,
    name: &str,
    at: u64,
) -> Result<Bytes, LookFault>
    requires job { who.now ≡ job }
    requires name { IsTrue (is_word name.now) }
    ensures told { Adds (S.told site.old) (S.told site.new) (Sees (Looked name.now at result)) }
    ensures few { IfOk result (λ bytes. length bytes ≤ asks_at at) }
    ensures last { Adds (S.told site.old) (S.told site.new) (FailsLast result) }
    ensures cause { LookCause (S.fault_count site.old) (S.fault_count site.new) result }
{
    let max = END.saturating_sub(at).min(PIECE) as u32;
    match site.read(alloc, who, name, at, max) {
        Ok(bytes) => Ok(bytes),
        Err(CallFault::Missing) => Err(gone(alloc, name)),
        Err(CallFault::Short { .. }) => Ok(Bytes::new(alloc)),
        Err(CallFault::Failed) => Err(LookFault::Outside { call: Call::Read }),
        Err(CallFault::NoMemory) => Err(LookFault::NoMemory),
        Err(CallFault::Exists) => unreachable!(),
    }
}

/// Prints these bytes, where there are any. It costs one call at most.
pub(crate) fn say<S: Site>(
    alloc: Global,
    site: &mut S,
    who: &Who,
    text: &[u8],
) -> Result<(), OutsideFault>
    requires { who.now ≡ job }
    ensures told { Adds (S.told site.old) (S.told site.new) (Sees (Said text.now result)) }
    ensures last { Adds (S.told site.old) (S.told site.new) (LastFailed result) }
    ensures cause { OutsideCause (S.fault_count site.old) (S.fault_count site.new) result }
{
    if text.len() == 0 {
        return Ok(());
    }
    match site.say(alloc, who, text) {
        Ok(()) => Ok(()),
        Err(CallFault::Failed) => Err(OutsideFault::Outside { call: Call::Say }),
        Err(CallFault::NoMemory) => Err(OutsideFault::NoMemory),
        Err(_) => unreachable!(),
    }
}
