//! The line of a run.

ghost use Rattle.std.specs.Prelude.{◌≡◌, [], ◌∷◌, IfOk, IsTrue};
ghost use Rattle.chk_site.specs.Site.{OutsideCause};
ghost use Rattle.chk_world.specs.ArchiveRuns.{is_one_line};
ghost use Rattle.chk_cmd_line.specs.Datagrams.{udp_line};
ghost use Rattle.chk_cmd_output.specs.Printing.{PrintsInTurn};

use crate::tally::Tally;
use chk_bytes::{Bytes, NoMemory};
use chk_cmd_line::put_udp;
use chk_cmd_output::print_line;
use chk_site::{OutsideFault, Site, Who};
use std::alloc::Global;

/// Prints the line of the run. It costs one call.
pub(crate) fn tell<S: Site>(
    alloc: Global,
    site: &mut S,
    writer: &Who,
    tally: Tally,
) -> Result<(), OutsideFault>
    ensures told { PrintsInTurn writer.now (udp_line tally.taken tally.bytes ∷ []) result
        (S.told site.old) (S.told site.new) }
    ensures cause { OutsideCause (S.fault_count site.old) (S.fault_count site.new) result }
{
    let line = line_of(alloc, tally.taken, tally.bytes)?;
    print_line(alloc, site, writer, line.as_slice())
}

fn line_of(alloc: Global, taken: u64, bytes: u64) -> Result<Bytes, NoMemory>
    ensures line { IfOk result (λ line. line ≡ udp_line taken bytes) }
    ensures one { IsTrue (is_one_line (udp_line taken bytes)) }
{
    let mut line = Bytes::new(alloc);
    put_udp(&mut line, taken, bytes)?;
    Ok(line)
}
