//! An initial file and the collectors of a start, before it is made.

ghost use Rattle.std.specs.Prelude.{◌≡◌, map, IsTrue};
ghost use Rattle.std.specs.List.{list_all};
ghost use Rattle.chk_bytes.specs.Words.{is_word};
ghost use Rattle.chk_site.specs.History.{Every};
ghost use Rattle.chk_site.specs.Site.{Adds};
ghost use Rattle.chk_world.specs.JobSteps.{IsOf};
ghost use Rattle.chk_world.specs.Sight.{job};
ghost use Rattle.chk_ctl_check.specs.Checking.{found_by, CheckCause, ChecksBy, FileChecked};
ghost use Rattle.chk_ctl_check.specs.Checking.{CollectorsAsked, FindingsTold, TextChecked};
ghost use Rattle.chk_ctl_check.specs.Collectors.{SendsOrSays};

use crate::collectors::check_collectors;
use crate::finding::{Finding, find_troubles};
use crate::printing::print_findings;
use chk_bytes::NoMemory;
use chk_replace::load;
use chk_site::{OutsideFault, Site, Who};
use std::alloc::Global;

/// What a check came to.
#[derive(Clone, Copy, Debug, PartialEq, Eq)]
pub enum Checked {
    /// There is no such file.
    NoFile,
    /// Nothing was found.
    Fine,
    /// Something was found, and each thing has its line.
    Found,
}

/// Prints `line <number> <name>` for each thing that is wrong with a line of the initial file, in
/// the order of the lines, and then `collector <address> NoAnswer` for each address at which
/// nobody answers. The file is held in memory, with its streams.
pub fn check<S: Site>(
    alloc: Global,
    site: &mut S,
    who: &Who,
    file: &str,
    collectors: &[&str],
) -> Result<Checked, OutsideFault>
    requires job { who.now ≡ job }
    requires words { IsTrue (list_all is_word (map (λ a. a.now) collectors.now)) }
    ensures told { FileChecked file.now (map (λ a. a.now) collectors.now) result
        (S.told site.old) (S.told site.new) }
    ensures own { Adds (S.told site.old) (S.told site.new) (Every (IsOf ChecksBy)) }
    ensures cause { CheckCause (S.fault_count site.old) (S.fault_count site.new) result }
{
    match load(alloc, site, who, file) {
        Ok(Some(text)) => check_text(alloc, site, who, text.as_slice(), collectors),
        Ok(None) => Ok(Checked::NoFile),
        Err(fault) => Err(fault),
    }
}

/// The same of the bytes of the file.
fn check_text<S: Site>(
    alloc: Global,
    site: &mut S,
    who: &Who,
    text: &[u8],
    collectors: &[&str],
) -> Result<Checked, OutsideFault>
    requires job { who.now ≡ job }
    requires words { IsTrue (list_all is_word (map (λ a. a.now) collectors.now)) }
    ensures told { TextChecked text.now (map (λ a. a.now) collectors.now) result
        (S.told site.old) (S.told site.new) }
    ensures own { Adds (S.told site.old) (S.told site.new) (Every (IsOf ChecksBy)) }
    ensures cause { CheckCause (S.fault_count site.old) (S.fault_count site.new) result }
{
    match find_troubles(alloc, site, who, text) {
        Ok(findings) => tell_findings(alloc, site, who, &findings, collectors),
        Err(NoMemory) => Err(OutsideFault::NoMemory),
    }
}

/// Prints what was found, and asks the collectors.
fn tell_findings<S: Site>(
    alloc: Global,
    site: &mut S,
    who: &Who,
    findings: &[Finding],
    collectors: &[&str],
) -> Result<Checked, OutsideFault>
    requires job { who.now ≡ job }
    requires words { IsTrue (list_all is_word (map (λ a. a.now) collectors.now)) }
    ensures told { FindingsTold findings.now (map (λ a. a.now) collectors.now) result
        (S.told site.old) (S.told site.new) }
    ensures own { Adds (S.told site.old) (S.told site.new) (Every (IsOf SendsOrSays)) }
    ensures cause { CheckCause (S.fault_count site.old) (S.fault_count site.new) result }
{
    match print_findings(alloc, site, who, findings) {
        Ok(()) => ask_collectors(alloc, site, who, findings, collectors),
        Err(fault) => Err(fault),
    }
}

/// Asks the collectors, behind what was found.
fn ask_collectors<S: Site>(
    alloc: Global,
    site: &mut S,
    who: &Who,
    findings: &[Finding],
    collectors: &[&str],
) -> Result<Checked, OutsideFault>
    requires job { who.now ≡ job }
    requires words { IsTrue (list_all is_word (map (λ a. a.now) collectors.now)) }
    ensures told { CollectorsAsked findings.now (map (λ a. a.now) collectors.now) result
        (S.told site.old) (S.told site.new) }
    ensures own { Adds (S.told site.old) (S.told site.new) (Every (IsOf SendsOrSays)) }
    ensures cause { CheckCause (S.fault_count site.old) (S.fault_count site.new) result }
{
    match check_collectors(alloc, site, who, collectors) {
        Ok(is_silent) => Ok(found_by(findings, is_silent)),
        Err(fault) => Err(fault),
    }
}

fn found_by(findings: &[Finding], is_silent: bool) -> Checked
    ensures { result ≡ found_by findings.now is_silent }
{
    match findings {
        [] if !is_silent => Checked::Fine,
        _ => Checked::Found,
    }
}
