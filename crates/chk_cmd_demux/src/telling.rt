//! The line of a report.

ghost use Rattle.std.specs.Prelude.{◌≡◌, [], ◌∷◌, IfOk, IsTrue};
ghost use Rattle.chk_site.specs.Site.{OutsideCause};
ghost use Rattle.chk_world.specs.ArchiveRuns.{is_one_line};
ghost use Rattle.chk_cmd_line.specs.Lines.{demux_line};
ghost use Rattle.chk_cmd_output.specs.Printing.{PrintsInTurn};
ghost use Rattle.chk_cmd_demux.specs.Telling.{run_line};

use chk_bytes::{Bytes, NoMemory};
use chk_cmd_line::put_demux;
use chk_cmd_output::print_line;
use chk_demux::DemuxReport;
use chk_site::{OutsideFault, Site, Who};
use std::alloc::Global;

/// Prints the line of the run. It costs one call.
pub(crate) fn tell<S: Site>(
    alloc: Global,
    site: &mut S,
    who: &Who,
    report: &DemuxReport,
) -> Result<(), OutsideFault>
    ensures told { PrintsInTurn who.now (run_line report.now ∷ []) result (S.told site.old) (S.told site.new) }
    ensures cause { OutsideCause (S.fault_count site.old) (S.fault_count site.new) result }
{
    let line = line_of(alloc, report.taken, report.entries, report.left)?;
    print_line(alloc, site, who, line.as_slice())
}

fn line_of(alloc: Global, taken: u64, entries: u64, left: u64) -> Result<Bytes, NoMemory>
    ensures line { IfOk result (λ line. line ≡ demux_line taken entries left) }
    ensures one { IsTrue (is_one_line (demux_line taken entries left)) }
{
    let mut line = Bytes::new(alloc);
    put_demux(&mut line, taken, entries, left)?;
    Ok(line)
}
