//! What is wrong with the lines of a file.

ghost use Rattle.std.specs.Prelude.{◌≡◌, ◌≤◌, ◌+◌, ◌<◌, ◌++◌, [], drop, length, map};
ghost use Rattle.std.specs.Prelude.{List, IfOk, OnOk};
ghost use Rattle.chk_ctl_check.specs.declared.finding.Finding.{Finding};
ghost use Rattle.chk_bytes.specs.Words.{parts_at};
ghost use Rattle.chk_control.specs.Lines.{meaning_of};
ghost use Rattle.chk_site.specs.History.{Every};
ghost use Rattle.chk_site.specs.Site.{Adds};
ghost use Rattle.chk_world.specs.JobSteps.{IsOf};
ghost use Rattle.chk_world.specs.Sight.{job};
ghost use Rattle.chk_ctl_check.specs.Judging.{added_after, verdict_of};
ghost use Rattle.chk_ctl_check.specs.Looking.{finding, AsksOfLogs, LinesSeen, VerdictSeen};

use crate::judging::{Added, Verdict, judge};
use crate::looking::see_log;
use crate::trouble::Trouble;
use chk_bytes::{NoMemory, line_size};
use chk_site::{Site, Who};
use std::alloc::Global;

/// What was found in a line.
#[derive(Clone, Copy, Debug, PartialEq, Eq)]
pub struct Finding {
    /// The number of the line, from 1 on.
    pub line: u64,
    pub trouble: Trouble,
}

/// What is wrong with the lines of an initial file, in their order: of each line the one thing for
/// which a start refuses or skips it, or what is wrong with the log that it adds. A start that has
/// a checkpoint may refuse or skip further ones.
///
/// A call on a log that fails is found too, and ends nothing. It costs a comparison with each
/// stream before for each stream, a list of the folder for each log, and a read of a byte.
pub fn find_troubles<S: Site>(
    alloc: Global,
    site: &mut S,
    who: &Who,
    text: &[u8],
) -> Result<Vec<Finding>, NoMemory>
    requires job { who.now ≡ job }
    ensures told { IfOk result (λ found. LinesSeen 1 [] (parts_at 10 text.now) found.items
        (S.told site.old) (S.told site.new)) }
    ensures own { Adds (S.told site.old) (S.told site.new) (Every (IsOf AsksOfLogs)) }
    ensures count { S.fault_count site.old ≤ S.fault_count site.new }
{
    let mut findings = Vec::new(alloc);
    let mut added = Vec::new(alloc);
    let mut rest = text;
    let mut line = 1;
    while let Some(size) = line_size(rest) {
        find_in(
            alloc,
            site,
            who,
            &mut added,
            &mut findings,
            line,
            &rest[..size],
        )?;
        rest = behind(rest, size);
        line = next(line)?;
    }
    find_in(alloc, site, who, &mut added, &mut findings, line, rest)?;
    Ok(findings)
}

/// What stands behind the byte at this place.
fn behind(text: &[u8], at: usize) -> &[u8]
    requires { at < length text.now }
    ensures { result.now ≡ drop (at + 1) text.now }
{
    &text[at..][1..]
}

/// The number behind this one.
fn next(line: u64) -> Result<u64, NoMemory>
    ensures { IfOk result (λ n. n ≡ line + 1) }
{
    line.checked_add(1).ok_or(NoMemory)
}

/// Puts what is wrong with the line behind what was found.
fn find_in<S: Site>(
    alloc: Global,
    site: &mut S,
    who: &Who,
    added: &mut Vec<Added>,
    findings: &mut Vec<Finding>,
    line: u64,
    text: &[u8],
) -> Result<(), NoMemory>
    requires job { who.now ≡ job }
    ensures told { OnOk result ((more : List Finding)
        × (findings.new.items ≡ findings.old.items ++ more)
        × VerdictSeen line (verdict_of added.old.items (meaning_of text.now)) more
        (S.told site.old) (S.told site.new)) }
    ensures added { OnOk result (added.new.items
        ≡ added_after added.old.items (meaning_of text.now)) }
    ensures own { Adds (S.told site.old) (S.told site.new) (Every (IsOf AsksOfLogs)) }
    ensures count { S.fault_count site.old ≤ S.fault_count site.new }
{
    let verdict = judge(alloc, added, text)?;
    see_verdict(alloc, site, who, findings, line, &verdict)
}

/// The same of a line of which this came.
fn see_verdict<S: Site>(
    alloc: Global,
    site: &mut S,
    who: &Who,
    findings: &mut Vec<Finding>,
    line: u64,
    verdict: &Verdict,
) -> Result<(), NoMemory>
    requires job { who.now ≡ job }
    ensures told { OnOk result ((more : List Finding)
        × (findings.new.items ≡ findings.old.items ++ more)
        × VerdictSeen line verdict.now more (S.told site.old) (S.told site.new)) }
    ensures own { Adds (S.told site.old) (S.told site.new) (Every (IsOf AsksOfLogs)) }
    ensures count { S.fault_count site.old ≤ S.fault_count site.new }
{
    match verdict {
        Verdict::Blank => Ok(()),
        Verdict::Wrong(trouble) => {
            findings.push(Finding {
                line,
                trouble: *trouble,
            })?;
            Ok(())
        }
        Verdict::Reads { class, path } => {
            let troubles = see_log(alloc, site, who, *class, path.as_str())?;
            add_all(findings, line, &troubles)
        }
    }
}

/// Puts these, found in the line, behind the others.
fn add_all(findings: &mut Vec<Finding>, line: u64, troubles: &[Trouble]) -> Result<(), NoMemory>
    ensures { OnOk result (findings.new.items
        ≡ findings.old.items ++ map (finding line) troubles.now) }
{
    for trouble in troubles {
        findings.push(Finding {
            line,
            trouble: *trouble,
        })?;
    }
    Ok(())
}
