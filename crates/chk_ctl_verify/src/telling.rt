//! The line of a file that is damaged.

ghost use Rattle.std.specs.Prelude.{◌≡◌, string_bytes, IfOk, IsTrue};
ghost use Rattle.chk_bytes.specs.Words.{is_word};
ghost use Rattle.chk_site.specs.History.{Every};
ghost use Rattle.chk_site.specs.Site.{Adds, OutsideCause};
ghost use Rattle.chk_world.specs.ArchiveRuns.{is_one_line};
ghost use Rattle.chk_world.specs.Sight.{job};
ghost use Rattle.chk_ctl_verify.specs.Calls.{Looks};
ghost use Rattle.chk_ctl_verify.specs.Telling.{damage_line, IsSaid, ToldIf};

use chk_bytes::NoMemory;
use chk_cmd_output::print_line;
use chk_site::{OutsideFault, Site, Who};
use std::alloc::Global;

/// Prints `damaged <name> <at>` where damage was found, and says whether it was.
pub(crate) fn tell_found<S: Site>(
    alloc: Global,
    site: &mut S,
    who: &Who,
    name: &str,
    found: Option<u64>,
) -> Result<bool, OutsideFault>
    requires job { who.now ≡ job }
    requires name { IsTrue (is_word name.now) }
    ensures told { ToldIf name.now found result (S.told site.old) (S.told site.new) }
    ensures own { Adds (S.told site.old) (S.told site.new) (Every Looks) }
    ensures cause { OutsideCause (S.fault_count site.old) (S.fault_count site.new) result }
{
    match found {
        Some(at) => tell_damage(alloc, site, who, name, at),
        None => Ok(false),
    }
}

/// Prints `damaged <name> <at>`; its answer is true.
pub(crate) fn tell_damage<S: Site>(
    alloc: Global,
    site: &mut S,
    who: &Who,
    name: &str,
    at: u64,
) -> Result<bool, OutsideFault>
    requires job { who.now ≡ job }
    requires name { IsTrue (is_word name.now) }
    ensures told { ToldIf name.now (Some at) result (S.told site.old) (S.told site.new) }
    ensures own { Adds (S.told site.old) (S.told site.new) (Every Looks) }
    ensures cause { OutsideCause (S.fault_count site.old) (S.fault_count site.new) result }
{
    match damage_line(alloc, name, at) {
        Ok(line) => say_line(alloc, site, who, line.as_str()),
        Err(NoMemory) => Err(OutsideFault::NoMemory),
    }
}

/// Prints this line; its answer is true.
fn say_line<S: Site>(
    alloc: Global,
    site: &mut S,
    who: &Who,
    line: &str,
) -> Result<bool, OutsideFault>
    requires job { who.now ≡ job }
    requires line { IsTrue (is_one_line line.now) }
    ensures told { IsSaid line.now result (S.told site.old) (S.told site.new) }
    ensures own { Adds (S.told site.old) (S.told site.new) (Every Looks) }
    ensures cause { OutsideCause (S.fault_count site.old) (S.fault_count site.new) result }
{
    match print_line(alloc, site, who, line.as_bytes()) {
        Ok(()) => Ok(true),
        Err(fault) => Err(fault),
    }
}

/// The line.
fn damage_line(alloc: Global, name: &str, at: u64) -> Result<String, NoMemory>
    requires name { IsTrue (is_word name.now) }
    ensures line { IfOk result (λ line. string_bytes line ≡ damage_line name.now at) }
    ensures one { IsTrue (is_one_line (damage_line name.now at)) }
{
    let text = format!(in alloc; "damaged {name} {at}\n")?;
    Ok(text)
}
