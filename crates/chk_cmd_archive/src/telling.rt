//! The lines of a report.

ghost use Rattle.std.specs.Prelude.{◌≡◌, [], ◌∷◌, map, IfOk, IsTrue};
ghost use Rattle.chk_site.specs.Site.{OutsideCause};
ghost use Rattle.chk_world.specs.ArchiveRuns.{is_one_line};
ghost use Rattle.chk_bytes.specs.Words.{is_word};
ghost use Rattle.chk_cmd_line.specs.Lines.{archive_line, end_line};
ghost use Rattle.chk_book.specs.Views.{end_view};
ghost use Rattle.chk_archive.specs.Reporting.{report_view};
ghost use Rattle.chk_cmd_output.specs.Printing.{PrintsInTurn};
ghost use Rattle.chk_cmd_archive.specs.Telling.{run_line, stream_line, report_lines};

use chk_archive::Report;
use chk_book::End;
use chk_bytes::{Bytes, NoMemory};
use chk_cmd_line::{put_archive, put_end};
use chk_cmd_output::print_line;
use chk_site::{OutsideFault, Site, Who};
use std::alloc::Global;

/// Prints the line of the run, and then one for each stream. It costs a call a line.
pub(crate) fn tell<S: Site>(
    alloc: Global,
    site: &mut S,
    who: &Who,
    report: &Report,
) -> Result<(), OutsideFault>
    ensures told { PrintsInTurn who.now (report_lines (report_view report.now)) result
        (S.told site.old) (S.told site.new) }
    ensures cause { OutsideCause (S.fault_count site.old) (S.fault_count site.new) result }
{
    tell_run(alloc, site, who, report)?;
    tell_ends(alloc, site, who, report.ends.as_slice())
}

/// Prints the line of the run. It costs one call.
pub fn tell_run<S: Site>(
    alloc: Global,
    site: &mut S,
    who: &Who,
    report: &Report,
) -> Result<(), OutsideFault>
    ensures told { PrintsInTurn who.now (run_line (report_view report.now) ∷ []) result
        (S.told site.old) (S.told site.new) }
    ensures cause { OutsideCause (S.fault_count site.old) (S.fault_count site.new) result }
{
    let line = run_line(
        alloc,
        report.unclosed,
        report.taken,
        report.held,
        report.removed,
    )?;
    print_line(alloc, site, who, line.as_slice())
}

/// Prints a line for each stream.
fn tell_ends<S: Site>(
    alloc: Global,
    site: &mut S,
    who: &Who,
    ends: &[End],
) -> Result<(), OutsideFault>
    ensures told { PrintsInTurn who.now (map (λ e. stream_line (end_view e)) ends.now) result
        (S.told site.old) (S.told site.new) }
    ensures cause { OutsideCause (S.fault_count site.old) (S.fault_count site.new) result }
{
    for end in ends {
        tell_end(alloc, site, who, end)?;
    }
    Ok(())
}

fn tell_end<S: Site>(alloc: Global, site: &mut S, who: &Who, end: &End) -> Result<(), OutsideFault>
    ensures told { PrintsInTurn who.now (stream_line (end_view end.now) ∷ []) result
        (S.told site.old) (S.told site.new) }
    ensures cause { OutsideCause (S.fault_count site.old) (S.fault_count site.new) result }
{
    let line = end_line(
        alloc,
        end.source.as_str(),
        end.kind.as_str(),
        end.name.as_str(),
        end.end,
    )?;
    print_line(alloc, site, who, line.as_slice())
}

fn run_line(
    alloc: Global,
    unclosed: u32,
    taken: u64,
    held: u32,
    removed: u32,
) -> Result<Bytes, NoMemory>
    ensures line { IfOk result (λ line. line ≡ archive_line unclosed taken held removed) }
    ensures one { IsTrue (is_one_line (archive_line unclosed taken held removed)) }
{
    let mut line = Bytes::new(alloc);
    put_archive(&mut line, unclosed, taken, held, removed)?;
    Ok(line)
}

fn end_line(
    alloc: Global,
    source: &str,
    kind: &str,
    name: &str,
    end: u64,
) -> Result<Bytes, NoMemory>
    requires source { IsTrue (is_word source.now) }
    requires kind { IsTrue (is_word kind.now) }
    requires name { IsTrue (is_word name.now) }
    ensures line { IfOk result (λ line. line ≡ end_line source.now kind.now name.now end) }
    ensures one { IsTrue (is_one_line (end_line source.now kind.now name.now end)) }
{
    let mut line = Bytes::new(alloc);
    put_end(&mut line, source, kind, name, end)?;
    Ok(line)
}
