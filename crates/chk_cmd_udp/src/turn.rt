//! One turn of a writer of datagrams.

ghost use Rattle.std.specs.Prelude.{◌≡◌, ◌≤◌, ◌<◌, ◌-◌, ◌^◌, true, OnOk};
ghost use Rattle.chk_wahead.specs.Faults.{WaheadCause};
ghost use Rattle.chk_wahead.specs.States.{last_number, length_of};
ghost use Rattle.chk_cmd_udp.specs.Takings.{Further, Gathers};
ghost use Rattle.chk_cmd_udp.specs.Turns.{IsTidy, IsTurn, Settles};

use crate::run::Work;
use crate::taking::{keep, take_one};
use crate::tally::Tally;
use chk_site::{Site, Who};
use chk_wahead::{Wahead, WaheadFault};
use std::alloc::Global;

// How long the first taking of a turn waits for a datagram, in milliseconds.
const WAIT: u64 = 1000;

/// One turn: it waits up to 1,000 milliseconds for a datagram, puts it and commits; where the buffer has
/// so many bytes as the work says or more, it closes it. Where no datagram came, it closes the buffer. It
/// takes up to `messages` datagrams before it commits: further ones only while the buffer is shorter than
/// that, and only such as wait at the door already. An empty datagram is counted and makes no other call.
pub fn udp_turn<S: Site>(
    alloc: Global,
    site: &mut S,
    who: &Who,
    wahead: &mut Wahead,
    tally: &mut Tally,
    door: &str,
    work: Work,
) -> Result<(), WaheadFault>
    requires ready { wahead.old.ready ≡ true }
    requires small { length_of wahead.old.held < 2 ^ 63 }
    requires rotate { work.rotate ≤ last_number }
    requires messages { 1 ≤ work.messages }
    ensures turn { IsTurn who.now door.now work.rotate work.messages wahead.old tally.old
        (S.told site.old) result wahead.new tally.new (S.told site.new) }
    ensures ready { OnOk result (wahead.new.ready ≡ true) }
    ensures tidy { OnOk result (IsTidy work.rotate wahead.new.held) }
    ensures cause { WaheadCause (S.fault_count site.old) (S.fault_count site.new) result }
{
    match gather(alloc, site, who, wahead, tally, door, work) {
        Ok(true) => settle(alloc, site, wahead, work.rotate),
        Ok(false) => wahead.close(alloc, site),
        Err(fault) => Err(fault),
    }
}

// Takes what the turn takes, and tells whether a datagram came.
fn gather<S: Site>(
    alloc: Global,
    site: &mut S,
    who: &Who,
    wahead: &mut Wahead,
    tally: &mut Tally,
    door: &str,
    work: Work,
) -> Result<bool, WaheadFault>
    requires ready { wahead.old.ready ≡ true }
    requires small { length_of wahead.old.held < 2 ^ 63 }
    requires rotate { work.rotate ≤ last_number }
    requires messages { 1 ≤ work.messages }
    ensures script { Gathers who.now door.now work.rotate (work.messages - 1) wahead.old
        tally.old (S.told site.old) result wahead.new tally.new (S.told site.new) }
    ensures ready { OnOk result (wahead.new.ready ≡ true) }
    ensures cause { WaheadCause (S.fault_count site.old) (S.fault_count site.new) result }
{
    let taken = take_one(alloc, site, who, door, WAIT)?;
    let Some(taking) = taken else {
        return Ok(false);
    };
    keep(alloc, site, wahead, tally, &taking)?;
    gather_more(alloc, site, who, wahead, tally, door, work)?;
    Ok(true)
}

// Takes the further datagrams of a turn.
fn gather_more<S: Site>(
    alloc: Global,
    site: &mut S,
    who: &Who,
    wahead: &mut Wahead,
    tally: &mut Tally,
    door: &str,
    work: Work,
) -> Result<(), WaheadFault>
    requires ready { wahead.old.ready ≡ true }
    requires rotate { work.rotate ≤ last_number }
    requires messages { 1 ≤ work.messages }
    ensures script { Further who.now door.now work.rotate (work.messages - 1) wahead.old
        tally.old (S.told site.old) result wahead.new tally.new (S.told site.new) }
    ensures ready { OnOk result (wahead.new.ready ≡ true) }
    ensures cause { WaheadCause (S.fault_count site.old) (S.fault_count site.new) result }
{
    for _further in 0..work.messages - 1 {
        if wahead.length() >= work.rotate {
            return Ok(());
        }
        let taken = take_one(alloc, site, who, door, 0)?;
        let Some(taking) = taken else {
            return Ok(());
        };
        keep(alloc, site, wahead, tally, &taking)?;
    }
    Ok(())
}

// Commits, and closes a buffer of so many bytes or more.
fn settle<S: Site>(
    alloc: Global,
    site: &mut S,
    wahead: &mut Wahead,
    rotate: u64,
) -> Result<(), WaheadFault>
    requires ready { wahead.old.ready ≡ true }
    ensures script { Settles rotate wahead.old (S.told site.old) result wahead.new (S.told site.new) }
    ensures cause { WaheadCause (S.fault_count site.old) (S.fault_count site.new) result }
{
    wahead.commit(alloc, site)?;
    if wahead.length() < rotate {
        return Ok(());
    }
    wahead.close(alloc, site)
}
