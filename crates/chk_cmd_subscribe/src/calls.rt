//! The calls of a watcher on messages.

ghost use Rattle.std.specs.Prelude.{◌≡◌, [], ◌∷◌};
ghost use Rattle.chk_site.specs.declared.acts.Call.TheVariants.{Take, More};
ghost use Rattle.chk_site.specs.Site.{Adds, asked, answered, bytes_given, taking_given, Calls, CallsSome, OutsideCause};
ghost use Rattle.chk_cmd_subscribe.specs.Watching.{IsEndedBy};

use chk_bytes::{Bytes, Word};
use chk_site::{Call, CallFault, OutsideFault, Site, Taking, Who};
use std::alloc::Global;

// How long a turn waits for a message, in milliseconds.
const WAIT: u64 = 1000;

/// The first piece of a message at the door; none where none came within 1,000 milliseconds.
pub(crate) fn take_one<S: Site>(
    alloc: Global,
    site: &mut S,
    who: &Who,
    door: &Word,
) -> Result<Option<Taking>, OutsideFault>
    ensures call { IsEndedBy Take result (λ given. Adds (S.told site.old) (S.told site.new)
        (CallsSome (λ of. asked who.now Take (door.now ∷ []) 1000 0) (λ of. answered (taking_given of) given))) }
    ensures cause { OutsideCause (S.fault_count site.old) (S.fault_count site.new) result }
{
    match site.take(alloc, who, door.as_str(), WAIT) {
        Ok(taking) => Ok(taking),
        Err(CallFault::NoMemory) => Err(OutsideFault::NoMemory),
        Err(_) => Err(OutsideFault::Outside { call: Call::Take }),
    }
}

/// The next piece of a message, of no byte at its end.
pub(crate) fn next_piece<S: Site>(
    alloc: Global,
    site: &mut S,
    who: &Who,
    taking: u64,
) -> Result<Bytes, OutsideFault>
    ensures call { IsEndedBy More result (λ given. Adds (S.told site.old) (S.told site.new)
        (Calls (asked who.now More [] taking 0) (answered bytes_given given))) }
    ensures cause { OutsideCause (S.fault_count site.old) (S.fault_count site.new) result }
{
    match site.more(alloc, who, taking) {
        Ok(piece) => Ok(piece),
        Err(CallFault::NoMemory) => Err(OutsideFault::NoMemory),
        Err(_) => Err(OutsideFault::Outside { call: Call::More }),
    }
}
