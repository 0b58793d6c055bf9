//! All subscribers, one after the other.

ghost use Rattle.std.specs.Prelude.{◌≤◌, length};
ghost use Rattle.chk_tee_sender.specs.Offers.{IsSound, items_of};
ghost use Rattle.chk_tee_sender.specs.Passing.{Passes, PassCause};
ghost use Rattle.chk_tee_sender.specs.Subscribers.{most_subscribers};

use crate::offers::Offer;
use crate::sending::{Sending, send_to};
use crate::{Passed, Subscriber};
use chk_bytes::NoMemory;
use chk_site::{Site, Who};
use std::alloc::Global;

// Sends each subscriber the chunks that it wants, and drops who couldn't be sent them.
pub(crate) fn pass_on<S: Site>(
    alloc: Global,
    site: &mut S,
    who: &Who,
    standing: &mut Vec<Subscriber>,
    offer: &Offer<'_>,
) -> Result<Passed, NoMemory>
    requires count { length standing.old.items ≤ most_subscribers }
    requires sound { IsSound offer.now }
    ensures told { Passes who.now (items_of offer.now) standing.old.items standing.new.items result (S.told site.old) (S.told site.new) }
    ensures cause { PassCause (S.fault_count site.old) (S.fault_count site.new) result }
    ensures fewer { length standing.new.items ≤ length standing.old.items }
{
    let mut passed = Passed {
        sent: 0,
        dropped: 0,
    };
    let mut at = 0;
    while at < standing.len() {
        match send_to(alloc, site, who, &standing[at], offer) {
            Ok(Sending::Nothing) => at += 1,
            Ok(Sending::Sent) => {
                passed.sent += 1;
                at += 1;
            }
            Ok(Sending::Lost) => {
                passed.dropped += 1;
                let _lost = standing.remove(at);
            }
            Err(fault) => return Err(fault),
        }
    }
    Ok(passed)
}
