//! The line of a report.

ghost use Rattle.std.specs.Prelude.{◌≡◌, [], ◌∷◌, IfOk, IsTrue};
ghost use Rattle.chk_site.specs.Site.{OutsideCause};
ghost use Rattle.chk_world.specs.ArchiveRuns.{is_one_line};
ghost use Rattle.chk_cmd_line.specs.Joining.{join_line};
ghost use Rattle.chk_cmd_output.specs.Printing.{PrintsInTurn};
ghost use Rattle.chk_join.specs.Faults.{JoinCause};
ghost use Rattle.chk_cmd_join.specs.Telling.{run_line, tell_fault, PrintsReport};

use chk_bytes::{Bytes, NoMemory};
use chk_cmd_line::put_join;
use chk_cmd_output::print_line;
use chk_join::{JoinFault, JoinReport};
use chk_record_index::JobFault;
use chk_site::{OutsideFault, Site, Who};
use std::alloc::Global;

/// Prints the report, and gives it. It costs one call.
pub(crate) fn print_report<S: Site>(
    alloc: Global,
    site: &mut S,
    who: &Who,
    report: JoinReport,
) -> Result<JoinReport, JoinFault>
    ensures told { PrintsReport who.now report result (S.told site.old) (S.told site.new) }
    ensures cause { JoinCause (S.fault_count site.old) (S.fault_count site.new) result }
{
    match tell(alloc, site, who, &report) {
        Ok(()) => Ok(report),
        Err(fault) => Err(tell_fault(fault)),
    }
}

/// The fault of a print as that of a join.
fn tell_fault(fault: OutsideFault) -> JoinFault
    ensures { result ≡ tell_fault fault }
{
    match fault {
        OutsideFault::Outside { call } => JoinFault::Job {
            fault: JobFault::Outside { call },
        },
        OutsideFault::NoMemory => JoinFault::NoMemory,
    }
}

fn tell<S: Site>(
    alloc: Global,
    site: &mut S,
    who: &Who,
    report: &JoinReport,
) -> Result<(), OutsideFault>
    ensures told { PrintsInTurn who.now (run_line report.now ∷ []) result (S.told site.old)
        (S.told site.new) }
    ensures cause { OutsideCause (S.fault_count site.old) (S.fault_count site.new) result }
{
    let line = line_of(alloc, report.streams, report.bytes)?;
    print_line(alloc, site, who, line.as_slice())
}

fn line_of(alloc: Global, streams: u32, bytes: u64) -> Result<Bytes, NoMemory>
    ensures line { IfOk result (λ line. line ≡ join_line streams bytes) }
    ensures one { IsTrue (is_one_line (join_line streams bytes)) }
{
    let mut line = Bytes::new(alloc);
    put_join(&mut line, streams, bytes)?;
    Ok(line)
}
