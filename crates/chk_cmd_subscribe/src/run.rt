//! The run of a watcher.

ghost use Rattle.std.specs.Prelude.{◌≡◌, [], ◌∷◌};
ghost use Rattle.chk_site.specs.declared.acts.Role.TheVariants.{Writer as writer_role};
ghost use Rattle.chk_site.specs.Site.{Adds, LastFailed, OutsideCause};
ghost use Rattle.chk_cmd_output.specs.Printing.{PrintsInTurn};
ghost use Rattle.chk_cmd_subscribe.specs.Lines.{end_line};
ghost use Rattle.chk_cmd_subscribe.specs.Legality.{StaysLegal};
ghost use Rattle.chk_cmd_subscribe.specs.Runs.{HasSubscribed, AreTurns, IsTurn};
ghost use Rattle.chk_cmd_subscribe.specs.Told.{PrintsOnce};

use crate::Watch;
use crate::calls::take_one;
use crate::lines::end_line;
use crate::message::{print_message, read_on};
use chk_bytes::Word;
use chk_cmd_output::print_line;
use chk_site::{OutsideFault, Site, Who};
use chk_tee_sender::Sieve;
use std::alloc::Global;

/// Makes so many turns at the door, and prints what was printed and refused. A turn takes at most
/// one message, for which it waits up to 1,000 milliseconds, and reads it on while its bytes end
/// before it does, until a piece has no byte. Each chunk of a message that lies above those that
/// were printed of its collector is printed as one line; bytes that aren't a message count as
/// refused. It costs a call a piece and a call a line. The first call that fails ends it.
pub fn subscribe<S: Site>(
    alloc: Global,
    site: &mut S,
    who: &Who,
    door: &Word,
    turns: u64,
) -> Result<(), OutsideFault>
    requires writer { who.now.role ≡ writer_role }
    ensures ran { HasSubscribed who.now door.now turns result (S.told site.old) (S.told site.new) }
    ensures legal { StaysLegal who.now (S.told site.old) (S.told site.new) }
    ensures once { Adds (S.told site.old) (S.told site.new) (PrintsOnce who.now result) }
    ensures last { Adds (S.told site.old) (S.told site.new) (LastFailed result) }
    ensures cause { OutsideCause (S.fault_count site.old) (S.fault_count site.new) result }
{
    let mut watch = Watch {
        sieve: Sieve::new(alloc),
        printed: 0,
        refused: 0,
    };
    match run_turns(alloc, site, who, door, turns, &mut watch) {
        Ok(()) => print_end(alloc, site, who, &watch),
        Err(fault) => Err(fault),
    }
}

// Prints the last line.
fn print_end<S: Site>(
    alloc: Global,
    site: &mut S,
    who: &Who,
    watch: &Watch,
) -> Result<(), OutsideFault>
    ensures told { PrintsInTurn who.now (end_line watch.now.printed watch.now.refused ∷ []) result (S.told site.old) (S.told site.new) }
    ensures cause { OutsideCause (S.fault_count site.old) (S.fault_count site.new) result }
{
    let Ok(line) = end_line(alloc, watch.printed, watch.refused) else {
        return Err(OutsideFault::NoMemory);
    };
    print_line(alloc, site, who, line.as_slice())
}

// So many turns.
fn run_turns<S: Site>(
    alloc: Global,
    site: &mut S,
    who: &Who,
    door: &Word,
    turns: u64,
    watch: &mut Watch,
) -> Result<(), OutsideFault>
    ensures script { AreTurns who.now door.now turns watch.old result watch.new (S.told site.old) (S.told site.new) }
    ensures cause { OutsideCause (S.fault_count site.old) (S.fault_count site.new) result }
{
    for _turn in 0..turns {
        match turn(alloc, site, who, door, watch) {
            Ok(()) => {}
            Err(fault) => return Err(fault),
        }
    }
    Ok(())
}

// At most one message.
fn turn<S: Site>(
    alloc: Global,
    site: &mut S,
    who: &Who,
    door: &Word,
    watch: &mut Watch,
) -> Result<(), OutsideFault>
    ensures script { IsTurn who.now door.now watch.old result watch.new (S.told site.old) (S.told site.new) }
    ensures cause { OutsideCause (S.fault_count site.old) (S.fault_count site.new) result }
{
    match take_one(alloc, site, who, door) {
        Ok(Some(taking)) => match read_on(alloc, site, who, taking.number, taking.bytes) {
            Ok(bytes) => print_message(alloc, site, who, watch, bytes.as_slice()),
            Err(fault) => Err(fault),
        },
        Ok(None) => Ok(()),
        Err(fault) => Err(fault),
    }
}
