//! One subscriber, and the message that it is sent.

ghost use Rattle.chk_tee_sender.specs.Offers.{IsSound, items_of};
ghost use Rattle.chk_tee_sender.specs.Sending.{IsPassedTo, SendCause};

use crate::Subscriber;
use crate::offers::Offer;
use crate::wanted::write_wanted;
use chk_bytes::NoMemory;
use chk_site::{CallFault, Site, Who};
use std::alloc::Global;

// What became of a subscriber.
#[derive(Clone, Copy)]
pub(crate) enum Sending {
    // None of the chunks passes its filter.
    Nothing,
    // It was sent those that pass.
    Sent,
    // The sending failed.
    Lost,
}

// Sends the subscriber the chunks that pass its filter, in one message.
pub(crate) fn send_to<S: Site>(
    alloc: Global,
    site: &mut S,
    who: &Who,
    subscriber: &Subscriber,
    offer: &Offer<'_>,
) -> Result<Sending, NoMemory>
    requires { IsSound offer.now }
    ensures told { IsPassedTo who.now (items_of offer.now) subscriber.now result (S.told site.old) (S.told site.new) }
    ensures cause { SendCause (S.fault_count site.old) (S.fault_count site.new) result }
{
    let tee = match write_wanted(alloc, &subscriber.filter, offer) {
        Ok(Some(tee)) => tee,
        Ok(None) => return Ok(Sending::Nothing),
        Err(fault) => return Err(fault),
    };
    match site.send(alloc, who, subscriber.address.as_str(), tee.as_slice()) {
        Ok(_) => Ok(Sending::Sent),
        Err(CallFault::Failed) => Ok(Sending::Lost),
        Err(CallFault::NoMemory) => Err(NoMemory),
        Err(_) => unreachable!(),
    }
}
