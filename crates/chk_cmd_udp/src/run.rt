//! The run of a writer of datagrams.

ghost use Rattle.std.specs.Prelude.{◌≡◌, ◌≤◌, ◌<◌, ◌^◌, true, OnOk};
ghost use Rattle.chk_site.specs.declared.acts.Role.TheVariants.{Writer as writer_role};
ghost use Rattle.chk_site.specs.Site.{Adds};
ghost use Rattle.chk_wahead.specs.Faults.{WaheadCause, FailsLast};
ghost use Rattle.chk_wahead.specs.Names.{writer as writer_named};
ghost use Rattle.chk_wahead.specs.States.{last_number, length_of};
ghost use Rattle.chk_cmd_udp.specs.Legality.{GoesOnLegal};
ghost use Rattle.chk_cmd_udp.specs.Runs.{AreTurned, Finishes, GoesOn, HasRun, IsLastNumber};

use crate::tally::Tally;
use crate::telling::tell;
use crate::turn::udp_turn;
use chk_site::{Site, Who};
use chk_wahead::{Wahead, WaheadFault};
use std::alloc::Global;

/// What a run does.
#[derive(Clone, Copy, Debug)]
pub struct Work {
    /// How many turns are run.
    pub turns: u64,
    /// The length in bytes at which a buffer is closed.
    pub rotate: u64,
    /// How many datagrams a turn takes at most before it commits.
    pub messages: u64,
}

/// The command: starts the writer `who`, runs so many turns at the door, closes the buffer, and prints
/// `udp taken <datagrams> bytes <bytes>` as `writer`. A call that fails ends the run. What was committed
/// stays: the next start closes it.
pub fn run_udp<S: Site>(
    alloc: Global,
    site: &mut S,
    who: &Who,
    writer: &Who,
    door: &str,
    work: Work,
) -> Result<(), WaheadFault>
    requires who { who.now ≡ writer_named who.now.name }
    requires writer { writer.now.role ≡ writer_role }
    requires rotate { work.rotate ≤ last_number }
    requires messages { 1 ≤ work.messages }
    ensures ran { HasRun who.now writer.now door.now work.turns work.rotate work.messages
        result (S.told site.old) (S.told site.new) }
    ensures legal { GoesOnLegal who.now writer.now (S.told site.old) (S.told site.new) }
    ensures spent { IsLastNumber result }
    ensures last { Adds (S.told site.old) (S.told site.new) (FailsLast result) }
    ensures cause { WaheadCause (S.fault_count site.old) (S.fault_count site.new) result }
{
    match Wahead::start(alloc, site, who, &who.name) {
        Ok(wahead) => run_begun(alloc, site, who, writer, wahead, door, work),
        Err(fault) => Err(fault),
    }
}

// The turns and the end of a run that has begun.
fn run_begun<S: Site>(
    alloc: Global,
    site: &mut S,
    who: &Who,
    writer: &Who,
    wahead: Wahead,
    door: &str,
    work: Work,
) -> Result<(), WaheadFault>
    requires ready { wahead.ready ≡ true }
    requires small { length_of wahead.held < 2 ^ 63 }
    requires rotate { work.rotate ≤ last_number }
    requires messages { 1 ≤ work.messages }
    ensures ran { GoesOn who.now writer.now door.now work.turns work.rotate work.messages
        wahead result (S.told site.old) (S.told site.new) }
    ensures cause { WaheadCause (S.fault_count site.old) (S.fault_count site.new) result }
{
    let mut wahead = wahead;
    let mut tally = Tally::new();
    run_turns(alloc, site, who, &mut wahead, &mut tally, door, work)?;
    finish(alloc, site, writer, &mut wahead, tally)
}

// So many turns.
fn run_turns<S: Site>(
    alloc: Global,
    site: &mut S,
    who: &Who,
    wahead: &mut Wahead,
    tally: &mut Tally,
    door: &str,
    work: Work,
) -> Result<(), WaheadFault>
    requires ready { wahead.old.ready ≡ true }
    requires small { length_of wahead.old.held < 2 ^ 63 }
    requires rotate { work.rotate ≤ last_number }
    requires messages { 1 ≤ work.messages }
    ensures script { AreTurned who.now door.now work.rotate work.messages work.turns
        wahead.old tally.old (S.told site.old) result wahead.new tally.new (S.told site.new) }
    ensures ready { OnOk result (wahead.new.ready ≡ true) }
    ensures cause { WaheadCause (S.fault_count site.old) (S.fault_count site.new) result }
{
    for _turn in 0..work.turns {
        udp_turn(alloc, site, who, wahead, tally, door, work)?;
    }
    Ok(())
}

// Closes the buffer, and prints the line of the run.
fn finish<S: Site>(
    alloc: Global,
    site: &mut S,
    writer: &Who,
    wahead: &mut Wahead,
    tally: Tally,
) -> Result<(), WaheadFault>
    requires ready { wahead.old.ready ≡ true }
    ensures script { Finishes writer.now wahead.old tally result (S.told site.old) (S.told site.new) }
    ensures cause { WaheadCause (S.fault_count site.old) (S.fault_count site.new) result }
{
    wahead.close(alloc, site)?;
    match tell(alloc, site, writer, tally) {
        Ok(()) => Ok(()),
        Err(fault) => Err(WaheadFault::from(fault)),
    }
}
