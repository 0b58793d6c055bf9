//! A load.

ghost use Rattle.std.specs.Prelude.{◌≡◌, ◌≤◌, ◌<◌, ℕ, List, IfOk};
ghost use Rattle.chk_site.specs.declared.acts.Who.{Who as Person};
ghost use Rattle.chk_site.specs.Site.{Adds, OutsideCause};
ghost use Rattle.chk_site.specs.Runs.{Owns};
ghost use Rattle.chk_cmd_line.specs.Lines.{load_line};
ghost use Rattle.chk_cmd_load.specs.Loads.{AppendedSo, EndsRunning, LoadCause, LoadFailsLast};
ghost use Rattle.chk_cmd_load.specs.Loads.{LoadTo, LoadsBy, PrintedSo, RoundEndsSo, SaysLine};
ghost use Rattle.chk_cmd_load.specs.Loads.{SummedUp, summary_line};
ghost use Rattle.chk_cmd_load.specs.Processes.{IsLoadRun};

use crate::archived::archived_ends;
use crate::ends::{LoadEnd, LoadReport};
use crate::pieces::append_lines;
use crate::words::{round_words, writer};
use chk_archive::Report;
use chk_bytes::{Bytes, NoMemory};
use chk_cmd_line::put_load;
use chk_round::{Rounded, round};
use chk_site::{Call, OutsideFault, Site, Who, reached};
use std::alloc::Global;

/// Appends so many generated lines, 200,000 at most, to the logs `load.0.log`, `load.1.log` and
/// `load.2.log` as the writer `chukwa`, in pieces of at most 65,536 bytes that end after a line.
/// Then the round of the source `load` takes the three logs to the archive with the type `Load`,
/// and the writer prints the summary.
pub fn run_load<S: Site>(alloc: Global, site: &mut S, lines: u64) -> Result<LoadReport, LoadEnd>
    requires few { lines ≤ 200000 }
    ensures told { (stamped : List (List ℕ)) (started acting : List Person)
        → IsLoadRun started acting → Adds (S.told site.old) (S.told site.new) (LoadTo stamped started acting lines result) }
    ensures appends { Adds (S.told site.old) (S.told site.new) (AppendedSo lines result) }
    ensures own { Adds (S.told site.old) (S.told site.new) (Owns LoadsBy) }
    ensures prints { Adds (S.told site.old) (S.told site.new) (PrintedSo result) }
    ensures runs { Adds (S.told site.old) (S.told site.new) (EndsRunning result) }
    ensures last { Adds (S.told site.old) (S.told site.new) (LoadFailsLast result) }
    ensures round { RoundEndsSo lines result (S.told site.old) (S.told site.new) }
    ensures cause { LoadCause (S.fault_count site.old) (S.fault_count site.new) result }
{
    let writer = writer(alloc)?;
    let words = round_words(alloc)?;
    let bytes = append_lines(alloc, site, &writer, lines)?;
    let rounded = round(alloc, site, &words)?;
    let report = summed_up(rounded, lines, bytes)?;
    tell(alloc, site, &writer, report)?;
    Ok(report)
}

// What the load came to, where the archive run of its round listed no sink under writing.
fn summed_up(rounded: Rounded, lines: u64, bytes: u64) -> Result<LoadReport, LoadEnd>
    ensures { SummedUp rounded lines bytes result }
{
    let Rounded { agent: _, report } = rounded;
    let Report {
        first_unclosed,
        ends,
        ..
    } = report;
    match first_unclosed {
        Some(name) => Err(LoadEnd::Unclosed { name }),
        None => Ok(LoadReport {
            lines,
            bytes,
            archived: archived_ends(ends.as_slice()),
        }),
    }
}

// Prints the summary. It costs one call.
fn tell<S: Site>(
    alloc: Global,
    site: &mut S,
    writer: &Who,
    report: LoadReport,
) -> Result<(), OutsideFault>
    ensures says { SaysLine writer.now (summary_line report) result
        (S.told site.old) (S.told site.new) }
    ensures cause { OutsideCause (S.fault_count site.old) (S.fault_count site.new) result }
{
    let line = line_of(alloc, report)?;
    let given = site.say(alloc, writer, line.as_slice());
    reached(Call::Say, given)
}

fn line_of(alloc: Global, report: LoadReport) -> Result<Bytes, NoMemory>
    ensures { IfOk result (λ line. line ≡ summary_line report) }
{
    let mut line = Bytes::new(alloc);
    put_load(&mut line, report.lines, report.bytes, report.archived)?;
    Ok(line)
}
