//! Whether collectors answer at their addresses.

ghost use Rattle.std.specs.Prelude.{◌≡◌, ◌≤◌, ◌∷◌, [], ◌||◌, string_bytes, map, IfOk, IsTrue};
ghost use Rattle.std.specs.List.{list_all};
ghost use Rattle.chk_bytes.specs.Words.{is_word};
ghost use Rattle.chk_cmd_output.specs.Printing.{PrintsInTurn};
ghost use Rattle.chk_site.specs.History.{Every};
ghost use Rattle.chk_site.specs.Site.{Adds, OutsideCause};
ghost use Rattle.chk_world.specs.ArchiveRuns.{is_one_line};
ghost use Rattle.chk_world.specs.JobSteps.{IsOf};
ghost use Rattle.chk_world.specs.Sight.{job};
ghost use Rattle.chk_ctl_check.specs.Checking.{CheckCause};
ghost use Rattle.chk_ctl_check.specs.Collectors.{is_refused, is_self, silent_by, silent_line};
ghost use Rattle.chk_ctl_check.specs.Collectors.{AddressAsked, CollectorChecked};
ghost use Rattle.chk_ctl_check.specs.Collectors.{CollectorsChecked};
ghost use Rattle.chk_ctl_check.specs.Collectors.{SendsNothing, SendsOrSays};

use chk_bytes::NoMemory;
use chk_cmd_output::print_line;
use chk_site::{CallFault, OutsideFault, Site, Who};
use std::alloc::Global;

/// Prints `collector <address> NoAnswer` for each address at which nobody answers, and says
/// whether there was one. An address costs a message without a byte: a connection that is closed at once,
/// which a collector doesn't take for a message.
pub(crate) fn check_collectors<S: Site>(
    alloc: Global,
    site: &mut S,
    who: &Who,
    addresses: &[&str],
) -> Result<bool, OutsideFault>
    requires job { who.now ≡ job }
    requires words { IsTrue (list_all is_word (map (λ a. a.now) addresses.now)) }
    ensures told { CollectorsChecked (map (λ a. a.now) addresses.now) result
        (S.told site.old) (S.told site.new) }
    ensures own { Adds (S.told site.old) (S.told site.new) (Every (IsOf SendsOrSays)) }
    ensures cause { CheckCause (S.fault_count site.old) (S.fault_count site.new) result }
{
    let mut found = false;
    for address in addresses {
        let is_silent = check_collector(alloc, site, who, address)?;
        found = either(found, is_silent);
    }
    Ok(found)
}

fn either(found: bool, is_silent: bool) -> bool
    ensures { result ≡ (found || is_silent) }
{
    found || is_silent
}

/// The same of one address.
fn check_collector<S: Site>(
    alloc: Global,
    site: &mut S,
    who: &Who,
    address: &str,
) -> Result<bool, OutsideFault>
    requires job { who.now ≡ job }
    requires word { IsTrue (is_word address.now) }
    ensures told { CollectorChecked address.now result (S.told site.old) (S.told site.new) }
    ensures own { Adds (S.told site.old) (S.told site.new) (Every (IsOf SendsOrSays)) }
    ensures cause { CheckCause (S.fault_count site.old) (S.fault_count site.new) result }
{
    match is_silent(alloc, site, who, address) {
        Ok(true) => silent_by(print_silent(alloc, site, who, address)),
        Ok(false) => Ok(false),
        Err(NoMemory) => Err(OutsideFault::NoMemory),
    }
}

/// Whether nobody answers at the address.
fn is_silent<S: Site>(
    alloc: Global,
    site: &mut S,
    who: &Who,
    address: &str,
) -> Result<bool, NoMemory>
    requires job { who.now ≡ job }
    ensures told { IfOk result (λ is.
        AddressAsked address.now is (S.told site.old) (S.told site.new)) }
    ensures own { Adds (S.told site.old) (S.told site.new) (Every (IsOf SendsNothing)) }
    ensures count { S.fault_count site.old ≤ S.fault_count site.new }
{
    if is_self(address) {
        return Ok(true);
    }
    let given = site.send(alloc, who, address, b"");
    is_refused(given)
}

/// Whether this answer says that the message wasn't sent.
fn is_refused(given: Result<u64, CallFault>) -> Result<bool, NoMemory>
    ensures { IfOk result (λ is. is ≡ is_refused given) }
{
    match given {
        Ok(_) => Ok(false),
        Err(CallFault::Failed) => Ok(true),
        Err(_) => Err(NoMemory),
    }
}

fn is_self(address: &str) -> bool
    ensures { result ≡ is_self address.now }
{
    address == "self"
}

/// Prints the line of an address at which nobody answers.
fn print_silent<S: Site>(
    alloc: Global,
    site: &mut S,
    who: &Who,
    address: &str,
) -> Result<(), OutsideFault>
    requires word { IsTrue (is_word address.now) }
    ensures told { PrintsInTurn who.now (silent_line address.now ∷ []) result
        (S.told site.old) (S.told site.new) }
    ensures cause { OutsideCause (S.fault_count site.old) (S.fault_count site.new) result }
{
    let line = silent_line(alloc, address)?;
    print_line(alloc, site, who, line.as_bytes())
}

/// One was silent, where its line was printed.
fn silent_by(given: Result<(), OutsideFault>) -> Result<bool, OutsideFault>
    ensures { result ≡ silent_by given }
{
    match given {
        Ok(()) => Ok(true),
        Err(fault) => Err(fault),
    }
}

/// The line of such an address.
fn silent_line(alloc: Global, address: &str) -> Result<String, NoMemory>
    requires word { IsTrue (is_word address.now) }
    ensures line { IfOk result (λ line. string_bytes line ≡ silent_line address.now) }
    ensures one { IsTrue (is_one_line (silent_line address.now)) }
{
    let text = format!(in alloc; "collector {address} NoAnswer\n")?;
    Ok(text)
}
