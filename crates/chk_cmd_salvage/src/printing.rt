//! Reads a file and prints what it holds.

ghost use Rattle.std.specs.Prelude.{◌≤◌, [], length, OnOk};
ghost use Rattle.chk_site.specs.History.{Every};
ghost use Rattle.chk_site.specs.Site.{Adds, OutsideCause};
ghost use Rattle.chk_salvage.specs.Readers.{items_left};
ghost use Rattle.chk_cmd_salvage.specs.Printing.{PrintsFile, LooksOrPrints, FailsLast, CauseOf, GoesOnRunning, EndsRunning};
ghost use Rattle.chk_cmd_salvage.specs.Steps.{PrintsItems, Prints};
ghost use Rattle.chk_cmd_salvage.specs.Printing.{print_limit};

use crate::fault::SalvageFault;
use crate::lines::put_next;
use chk_bytes::Bytes;
use chk_replace::load;
use chk_salvage::Reader;
use chk_site::{Call, OutsideFault, Site, Who, done};
use std::alloc::Global;

/// A buffer with more bytes than this is printed before the next line, which has at most 12,360: no print has more
/// than 65,536.
const FULL: usize = 65536 - 12360;

/// Prints what can be read of the SequenceFile `name`, in order of place: a line
/// `entry <at> <end> <source> <type> <name> <seq>` for a record whose key is a chunk's, `other <at> <end>` for any
/// other record, and `skipped <begin> <end>` for a range in which no entry can be read. Where the header is refused
/// it prints nothing and answers `Damaged`; a file that isn't there counts as empty, and so it is refused. `Outside`
/// names the read or the print that failed, after which nothing more is done. What was printed before stays printed.
///
/// The file is read in pieces of at most 1,048,576 bytes and held in memory; a buffer of 65,536 bytes holds the lines
/// until they are printed. No table of the entries is kept. Each byte is looked at twice at most.
pub fn salvage<S: Site>(
    alloc: Global,
    site: &mut S,
    who: &Who,
    name: &str,
) -> Result<(), SalvageFault>
    ensures prints { Adds (S.told site.old) (S.told site.new) (PrintsFile name.now result) }
    ensures acts { Adds (S.told site.old) (S.told site.new) (Every (LooksOrPrints who.now name.now)) }
    ensures last { Adds (S.told site.old) (S.told site.new) (FailsLast result) }
    ensures runs { Adds (S.told site.old) (S.told site.new) (EndsRunning result) }
    ensures cause { CauseOf (S.fault_count site.old) (S.fault_count site.new) result }
{
    let given = load(alloc, site, who, name)?;
    let bytes = given.unwrap_or(Bytes::new(alloc));
    let Ok(reader) = Reader::new(bytes.as_slice()) else {
        return Err(SalvageFault::Damaged);
    };
    print_items(alloc, site, who, reader)?;
    Ok(())
}

// Prints the lines of all that the reader gives and of what it skips.
fn print_items<S: Site>(
    alloc: Global,
    site: &mut S,
    who: &Who,
    reader: Reader<'_>,
) -> Result<(), OutsideFault>
    ensures told { Adds (S.told site.old) (S.told site.new) (PrintsItems who.now (items_left reader.entry) result) }
    ensures runs { OnOk result (Adds (S.told site.old) (S.told site.new) GoesOnRunning) }
    ensures cause { OutsideCause (S.fault_count site.old) (S.fault_count site.new) result }
{
    let mut reader = reader;
    let mut buffer = Bytes::new(alloc);
    while put_next(&mut buffer, &mut reader)? {
        make_room(alloc, site, who, &mut buffer)?;
    }
    print_rest(alloc, site, who, &buffer)
}

// Prints the buffer where the next line might not fit, and begins it anew.
fn make_room<S: Site>(
    alloc: Global,
    site: &mut S,
    who: &Who,
    buffer: &mut Bytes,
) -> Result<(), OutsideFault>
    requires few { length buffer.old ≤ print_limit }
    ensures told { Adds (S.told site.old) (S.told site.new) (Prints who.now buffer.old buffer.new result) }
    ensures room { OnOk result (length buffer.new ≤ 53176) }
    ensures runs { OnOk result (Adds (S.told site.old) (S.told site.new) GoesOnRunning) }
    ensures cause { OutsideCause (S.fault_count site.old) (S.fault_count site.new) result }
{
    if buffer.len() <= FULL {
        return Ok(());
    }
    print(alloc, site, who, buffer.as_slice())?;
    buffer.truncate(0);
    Ok(())
}

// Prints what is left in the buffer.
fn print_rest<S: Site>(
    alloc: Global,
    site: &mut S,
    who: &Who,
    buffer: &Bytes,
) -> Result<(), OutsideFault>
    requires few { length buffer.now ≤ print_limit }
    ensures told { Adds (S.told site.old) (S.told site.new) (Prints who.now buffer.now [] result) }
    ensures runs { OnOk result (Adds (S.told site.old) (S.told site.new) GoesOnRunning) }
    ensures cause { OutsideCause (S.fault_count site.old) (S.fault_count site.new) result }
{
    if buffer.len() == 0 {
        return Ok(());
    }
    print(alloc, site, who, buffer.as_slice())
}

fn print<S: Site>(alloc: Global, site: &mut S, who: &Who, text: &[u8]) -> Result<(), OutsideFault>
    requires few { length text.now ≤ print_limit }
    ensures told { Adds (S.told site.old) (S.told site.new) (Prints who.now text.now [] result) }
    ensures runs { OnOk result (Adds (S.told site.old) (S.told site.new) GoesOnRunning) }
    ensures cause { OutsideCause (S.fault_count site.old) (S.fault_count site.new) result }
{
    let said = site.say(alloc, who, text);
    done(Call::Say, said)
}
