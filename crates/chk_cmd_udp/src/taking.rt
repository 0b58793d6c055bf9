//! Datagrams that are taken and put.

ghost use Rattle.std.specs.Prelude.{◌≡◌, ◌<◌, ◌^◌, true, length};
ghost use Rattle.chk_site.specs.Site.{OutsideCause};
ghost use Rattle.chk_wahead.specs.Faults.{WaheadCause};
ghost use Rattle.chk_wahead.specs.Scripts.{Puts};
ghost use Rattle.chk_wahead.specs.States.{length_of};
ghost use Rattle.chk_cmd_udp.specs.Takings.{TakesOnce, counted};

use crate::tally::Tally;
use chk_site::{Call, CallFault, OutsideFault, Site, Taking, Who};
use chk_wahead::{Wahead, WaheadFault};
use std::alloc::Global;

/// The datagram that came at the door within so many milliseconds; none where none came.
pub(crate) fn take_one<S: Site>(
    alloc: Global,
    site: &mut S,
    who: &Who,
    door: &str,
    wait: u64,
) -> Result<Option<Taking>, OutsideFault>
    ensures told { TakesOnce who.now door.now wait result (S.told site.old) (S.told site.new) }
    ensures cause { OutsideCause (S.fault_count site.old) (S.fault_count site.new) result }
{
    match site.take(alloc, who, door, wait) {
        Ok(taking) => Ok(taking),
        Err(CallFault::NoMemory) => Err(OutsideFault::NoMemory),
        Err(_) => Err(OutsideFault::Outside { call: Call::Take }),
    }
}

/// Counts a datagram, and puts it.
pub(crate) fn keep<S: Site>(
    alloc: Global,
    site: &mut S,
    wahead: &mut Wahead,
    tally: &mut Tally,
    taking: &Taking,
) -> Result<(), WaheadFault>
    requires ready { wahead.old.ready ≡ true }
    requires small { length_of wahead.old.held < 2 ^ 63 }
    ensures told { Puts wahead.old taking.now.bytes result wahead.new (S.told site.old) (S.told site.new) }
    ensures counted { tally.new ≡ counted tally.old (length taking.now.bytes) }
    ensures cause { WaheadCause (S.fault_count site.old) (S.fault_count site.new) result }
{
    let payload = taking.bytes.as_slice();
    *tally = tally.counted(payload.len());
    wahead.put(alloc, site, payload)
}
