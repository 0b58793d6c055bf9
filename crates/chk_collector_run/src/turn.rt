//! One turn of a collector.

ghost use Rattle.std.specs.Prelude.{◌≡◌, ℕ, List, IsTrue, IfErr, OnOk};
ghost use Rattle.chk_bytes.specs.Stems.{is_collector};
ghost use Rattle.chk_site.specs.Site.{Adds};
ghost use Rattle.chk_site.specs.Runs.{Leads};
ghost use Rattle.chk_world.specs.Places.{Foreign, Talking};
ghost use Rattle.chk_sink.specs.Closes.{IsOfTick};
ghost use Rattle.chk_sink.specs.Faults.{FailsLast, IsOutside};
ghost use Rattle.chk_sink.specs.Held.{Matches};
ghost use Rattle.chk_sink.specs.States.{IsSameStart, process};
ghost use Rattle.chk_collector_run.specs.Messages.{IsTakenUpTo, wait_behind};
ghost use Rattle.chk_collector_run.specs.Turns.{IsCollectorTurn, IsCutTurn};
ghost use Rattle.chk_collector_run.specs.Legality.{IsSettled, TurnEnds, Finds, TurnCause};

use crate::calls::{clock, take_one};
use crate::message::handle;
use chk_bytes::Word;
use chk_collector::Collector;
use chk_sink::SinkFault;
use chk_site::{Site, Who};
use chk_tee_sender::Tees;
use std::alloc::Global;

/// A message of so many bytes is a long one: its sender has more to send. A post has at most
/// 4,194,304 bytes, and one that has a next one behind it is full but for less than two chunks.
pub const LONG: usize = 3_932_160;

/// How long a further message is waited for behind a long one, in milliseconds.
pub const FURTHER_WAIT: u64 = 20;

// How long the first taking of a turn waits for a message, in milliseconds.
const WAIT: u64 = 1000;

/// One turn at that door: it takes at most `most` messages, one after another and none where `most`
/// is 0, asks the clock and ticks. It waits up to 1,000 milliseconds for the first message. For a
/// further one it waits up to 20 where the one before it had 3,932,160 bytes or more, and else it
/// takes only what waits at the door already. The first taking that gives none ends the takings.
/// Each message is read on while it isn't whole and has fewer than 4,210,688 bytes, and is answered
/// before the next one is taken. Behind an answer that was done the subscribers are sent what was
/// written. A further message is taken before what the earlier ones appended is
/// committed: the tick commits all of it. A call that fails while a message is read, handled or
/// answered ends that message alone: `Outside` names the taking, the clock or a call of the tick.
/// After a refusal the finished parts stand.
pub fn collector_turn<S: Site>(
    alloc: Global,
    site: &mut S,
    who: &Who,
    collector: &mut Collector,
    door: &Word,
    most: u64,
    tees: &mut Tees,
) -> Result<(), SinkFault>
    requires started { who.now ≡ process collector.old }
    requires named { IsTrue (is_collector who.now.name) }
    ensures turn { OnOk result (IsCollectorTurn who.now door.now most 1000 collector.old tees.old
        (S.told site.old) collector.new tees.new (S.told site.new)) }
    ensures refused { IfErr result (λ fault. IsCutTurn who.now door.now most 1000 fault collector.old
        tees.old (S.told site.old) collector.new tees.new (S.told site.new)) }
    ensures told { (stamped : List (List ℕ)) → Adds (S.told site.old) (S.told site.new)
        (Leads (Talking stamped who.now) (Matches stamped collector.old)
        (TurnEnds stamped collector.new result)) }
    ensures finds { (stamped : List (List ℕ)) → IsSettled collector.old
        → Adds (S.told site.old) (S.told site.new)
        (Finds (Foreign stamped who.now) who.now.name (Matches stamped collector.old)) }
    ensures settled { OnOk result (IsSettled collector.new) }
    ensures same { IsSameStart collector.old collector.new }
    ensures only { IfErr result IsOfTick }
    ensures last { Adds (S.told site.old) (S.told site.new) (FailsLast result) }
    ensures cause { TurnCause (S.fault_count site.old) (S.fault_count site.new) result }
{
    serve(alloc, site, who, collector, door, most, tees)?;
    let now = clock(alloc, site, who)?;
    collector.tick(alloc, site, now)
}

// Takes at most so many messages and answers each before it takes the next.
fn serve<S: Site>(
    alloc: Global,
    site: &mut S,
    who: &Who,
    collector: &mut Collector,
    door: &Word,
    most: u64,
    tees: &mut Tees,
) -> Result<(), SinkFault>
    requires started { who.now ≡ process collector.old }
    requires named { IsTrue (is_collector who.now.name) }
    ensures script { IsTakenUpTo who.now door.now most 1000 collector.old tees.old (S.told site.old)
        result collector.new tees.new (S.told site.new) }
    ensures told { (stamped : List (List ℕ)) → Adds (S.told site.old) (S.told site.new)
        (Leads (Talking stamped (process collector.old)) (Matches stamped collector.old)
        (Matches stamped collector.new)) }
    ensures same { IsSameStart collector.old collector.new }
    ensures only { IfErr result IsOutside }
    ensures last { Adds (S.told site.old) (S.told site.new) (FailsLast result) }
    ensures cause { TurnCause (S.fault_count site.old) (S.fault_count site.new) result }
{
    let mut wait = WAIT;
    for _message in 0..most {
        let taken = take_one(alloc, site, who, door, wait)?;
        let Some(taking) = taken else {
            return Ok(());
        };
        let size = handle(alloc, site, who, collector, taking, tees)?;
        wait = wait_behind(size);
    }
    Ok(())
}

// How long a further message is waited for behind one of so many bytes, in milliseconds.
fn wait_behind(size: usize) -> u64
    ensures { result ≡ wait_behind size }
{
    if size < LONG { 0 } else { FURTHER_WAIT }
}
