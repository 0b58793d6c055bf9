//! The calls of the collector on messages.

ghost use Rattle.std.specs.Prelude.{◌≡◌, List, ℕ, [], ◌∷◌};
ghost use Rattle.chk_site.specs.declared.acts.Call.TheVariants.{Take, Answer};
ghost use Rattle.chk_exchange.specs.Exchanges.{Takes, Answers};
ghost use Rattle.chk_exchange.specs.Faults.{IsEnded, ExchangeCause};

use crate::fault::ExchangeFault;
use chk_bytes::Bytes;
use chk_site::{Call, CallFault, Site, Taking, Who};
use std::alloc::Global;

/// The message that waits longest in the mailbox of the process; none where none waits.
pub(crate) fn take_waiting<S: Site>(
    alloc: Global,
    site: &mut S,
    who: &Who,
) -> Result<Option<Taking>, ExchangeFault>
    ensures call { IsEnded Take result (λ given. Takes who.now given (S.told site.old) (S.told site.new)) }
    ensures cause { ExchangeCause (S.fault_count site.old) (S.fault_count site.new) result }
{
    match site.take(alloc, who, "self", 0) {
        Ok(taking) => Ok(taking),
        Err(CallFault::NoMemory) => Err(ExchangeFault::NoMemory),
        Err(_) => Err(ExchangeFault::Outside { call: Call::Take }),
    }
}

/// Answers the message of this taking.
pub(crate) fn send_answer<S: Site>(
    alloc: Global,
    site: &mut S,
    who: &Who,
    taking: u64,
    reply: &[u8],
) -> Result<(), ExchangeFault>
    ensures call { IsEnded Answer result
        (λ given. Answers who.now taking reply.now given (S.told site.old) (S.told site.new)) }
    ensures cause { ExchangeCause (S.fault_count site.old) (S.fault_count site.new) result }
{
    match site.answer(alloc, who, taking, reply) {
        Ok(()) => Ok(()),
        Err(CallFault::NoMemory) => Err(ExchangeFault::NoMemory),
        Err(_) => Err(ExchangeFault::Outside { call: Call::Answer }),
    }
}
