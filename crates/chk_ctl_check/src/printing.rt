//! The lines of what was found.

ghost use Rattle.std.specs.Prelude.{◌≡◌, [], ◌∷◌, string_bytes, IfOk, IsTrue};
ghost use Rattle.chk_site.specs.Site.{OutsideCause};
ghost use Rattle.chk_world.specs.ArchiveRuns.{is_one_line};
ghost use Rattle.chk_cmd_output.specs.Printing.{PrintsInTurn};
ghost use Rattle.chk_ctl_check.specs.Lines.{finding_line, finding_lines, trouble_line};

use crate::finding::Finding;
use crate::trouble::Trouble;
use chk_bytes::NoMemory;
use chk_cmd_output::print_line;
use chk_site::{OutsideFault, Site, Who};
use std::alloc::Global;

/// Prints `line <number> <name>` for each finding, in their order. It costs a call a line.
pub fn print_findings<S: Site>(
    alloc: Global,
    site: &mut S,
    who: &Who,
    findings: &[Finding],
) -> Result<(), OutsideFault>
    ensures told { PrintsInTurn who.now (finding_lines findings.now) result
        (S.told site.old) (S.told site.new) }
    ensures cause { OutsideCause (S.fault_count site.old) (S.fault_count site.new) result }
{
    for finding in findings {
        print_finding(alloc, site, who, finding)?;
    }
    Ok(())
}

/// Prints the line of a finding.
fn print_finding<S: Site>(
    alloc: Global,
    site: &mut S,
    who: &Who,
    finding: &Finding,
) -> Result<(), OutsideFault>
    ensures told { PrintsInTurn who.now (finding_line finding.now ∷ []) result
        (S.told site.old) (S.told site.new) }
    ensures cause { OutsideCause (S.fault_count site.old) (S.fault_count site.new) result }
{
    let line = finding_line(alloc, finding)?;
    print_line(alloc, site, who, line.as_bytes())
}

/// The line of a finding.
fn finding_line(alloc: Global, finding: &Finding) -> Result<String, NoMemory>
    ensures line { IfOk result (λ line. string_bytes line ≡ finding_line finding.now) }
    ensures one { IsTrue (is_one_line (finding_line finding.now)) }
{
    line_with(alloc, finding.line, finding.trouble)
}

/// The line, of its number and what is wrong.
fn line_with(alloc: Global, line: u64, trouble: Trouble) -> Result<String, NoMemory>
    ensures line { IfOk result (λ text. string_bytes text ≡ trouble_line line trouble) }
    ensures one { IsTrue (is_one_line (trouble_line line trouble)) }
{
    let name = trouble.name();
    let text = format!(in alloc; "line {line} {name}\n")?;
    Ok(text)
}
