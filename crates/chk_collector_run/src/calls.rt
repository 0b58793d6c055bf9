//! The calls of a turn on the clock and on messages.

ghost use Rattle.std.specs.Prelude.{◌≡◌, List, ℕ, [], ◌∷◌, IfErr, Ok};
ghost use Rattle.chk_site.specs.declared.acts.Call.TheVariants.{Take, More, Answer, Clock};
ghost use Rattle.chk_site.specs.Site.{Adds, asked, answered, plain, sized, bytes_given, taking_given, Calls, CallsSome};
ghost use Rattle.chk_sink.specs.Faults.{SinkCause};
ghost use Rattle.chk_collector.specs.Replies.{MayHaveRisen};
ghost use Rattle.chk_collector_run.specs.Calls.{IsEnded, piece_of, sending_of};

use chk_bytes::{Bytes, NoMemory, Word};
use chk_sink::SinkFault;
use chk_site::{Call, CallFault, Site, Taking, Who};
use std::alloc::Global;

/// The first piece of a message at the door; none where none came within so many milliseconds.
pub(crate) fn take_one<S: Site>(
    alloc: Global,
    site: &mut S,
    who: &Who,
    door: &Word,
    wait: u64,
) -> Result<Option<Taking>, SinkFault>
    ensures call { IsEnded Take result (λ given. Adds (S.told site.old) (S.told site.new)
        (CallsSome (λ of. asked who.now Take (door.now ∷ []) wait 0) (λ of. answered (taking_given of) given))) }
    ensures cause { SinkCause (S.fault_count site.old) (S.fault_count site.new) result }
{
    match site.take(alloc, who, door.as_str(), wait) {
        Ok(taking) => Ok(taking),
        Err(CallFault::NoMemory) => Err(SinkFault::NoMemory),
        Err(_) => Err(SinkFault::Outside { call: Call::Take }),
    }
}

/// The time in milliseconds.
pub(crate) fn clock<S: Site>(alloc: Global, site: &mut S, who: &Who) -> Result<u64, SinkFault>
    ensures call { IsEnded Clock result (λ given. Adds (S.told site.old) (S.told site.new)
        (Calls (asked who.now Clock [] 0 0) (answered sized given))) }
    ensures cause { SinkCause (S.fault_count site.old) (S.fault_count site.new) result }
{
    match site.clock(alloc, who) {
        Ok(now) => Ok(now),
        Err(CallFault::NoMemory) => Err(SinkFault::NoMemory),
        Err(_) => Err(SinkFault::Outside { call: Call::Clock }),
    }
}

/// The next piece of a message, of no byte at its end; none where the call failed.
pub(crate) fn next_piece<S: Site>(
    alloc: Global,
    site: &mut S,
    who: &Who,
    taking: u64,
) -> Result<Option<Bytes>, NoMemory>
    ensures call { Adds (S.told site.old) (S.told site.new)
        (Calls (asked who.now More [] taking 0) (answered bytes_given (piece_of result))) }
    ensures count { MayHaveRisen (S.fault_count site.old) (S.fault_count site.new) }
{
    match site.more(alloc, who, taking) {
        Ok(piece) => Ok(Some(piece)),
        Err(CallFault::NoMemory) => Err(NoMemory),
        Err(_) => Ok(None),
    }
}

/// Answers a message; false where the call failed.
pub(crate) fn send<S: Site>(
    alloc: Global,
    site: &mut S,
    who: &Who,
    taking: u64,
    reply: &[u8],
) -> Result<bool, NoMemory>
    ensures call { Adds (S.told site.old) (S.told site.new)
        (Calls (asked who.now Answer (reply.now ∷ []) taking 0) (answered plain (sending_of result))) }
    ensures count { MayHaveRisen (S.fault_count site.old) (S.fault_count site.new) }
{
    match site.answer(alloc, who, taking, reply) {
        Ok(()) => Ok(true),
        Err(CallFault::NoMemory) => Err(NoMemory),
        Err(_) => Ok(false),
    }
}
