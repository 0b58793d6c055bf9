//! What a log is seen to be.

ghost use Rattle.std.specs.Prelude.{◌≡◌, ◌≤◌, ◌++◌, true, List, IfOk, IfNone, IfSome, OnOk};
ghost use Rattle.chk_site.specs.History.{Every};
ghost use Rattle.chk_site.specs.Site.{Adds};
ghost use Rattle.chk_world.specs.JobSteps.{IsOf};
ghost use Rattle.chk_world.specs.Sight.{job};
ghost use Rattle.chk_ctl_check.specs.Logs.{is_plain, is_there, trouble_if, trouble_read};
ghost use Rattle.chk_ctl_check.specs.Logs.{troubles_beside, LacksSlash, LogAsked, LogSeen};
ghost use Rattle.chk_ctl_check.specs.Logs.{StandsIn};
ghost use Rattle.chk_ctl_check.specs.Looking.{AsksOfLogs};
ghost use Rattle.chk_ctl_check.specs.declared.trouble.Trouble.{Trouble};

use crate::beside::{Beside, has_beside};
use crate::trouble::Trouble;
use chk_bytes::{NoMemory, Word};
use chk_control::Class;
use chk_site::{CallFault, Part, Piece, Site, Who};
use std::alloc::Global;

/// What is wrong with the log of this path. It costs a list of its folder, and a read of its first
/// byte where it is there.
pub(crate) fn see_log<S: Site>(
    alloc: Global,
    site: &mut S,
    who: &Who,
    class: Class,
    path: &str,
) -> Result<Vec<Trouble>, NoMemory>
    requires job { who.now ≡ job }
    ensures told { IfOk result (λ troubles.
        LogSeen class path.now troubles.items (S.told site.old) (S.told site.new)) }
    ensures own { Adds (S.told site.old) (S.told site.new) (Every (IsOf AsksOfLogs)) }
    ensures count { S.fault_count site.old ≤ S.fault_count site.new }
{
    match parted(path) {
        Some((folder, base)) => see_in(alloc, site, who, class, path, folder, base),
        None => Ok(Vec::new(alloc)),
    }
}

/// What stands before and behind the last slash.
fn parted(path: &str) -> Option<(&str, &str)>
    ensures some { IfSome result (λ parts. StandsIn path.now parts.0.now parts.1.now) }
    ensures none { IfNone result (LacksSlash path.now) }
{
    match path.rsplit_once('/') {
        Some((folder, base)) => Some((folder, base)),
        None => None,
    }
}

/// The same of a log that stands in this folder.
fn see_in<S: Site>(
    alloc: Global,
    site: &mut S,
    who: &Who,
    class: Class,
    path: &str,
    folder: &str,
    base: &str,
) -> Result<Vec<Trouble>, NoMemory>
    requires job { who.now ≡ job }
    requires stands { StandsIn path.now folder.now base.now }
    ensures told { IfOk result (λ troubles.
        LogSeen class path.now troubles.items (S.told site.old) (S.told site.new)) }
    ensures own { Adds (S.told site.old) (S.told site.new) (Every (IsOf AsksOfLogs)) }
    ensures count { S.fault_count site.old ≤ S.fault_count site.new }
{
    match site.list(alloc, who, folder) {
        Ok(names) => see_names(alloc, site, who, class, path, base, &names),
        Err(CallFault::Failed) => one(alloc, Trouble::Unreadable),
        Err(_) => Err(NoMemory),
    }
}

/// The same of a log whose folder has these names.
fn see_names<S: Site>(
    alloc: Global,
    site: &mut S,
    who: &Who,
    class: Class,
    path: &str,
    base: &str,
    names: &[Word],
) -> Result<Vec<Trouble>, NoMemory>
    requires job { who.now ≡ job }
    ensures told { IfOk result (λ troubles. (read : List Trouble)
        × LogAsked path.now (is_there base.now names.now) read (S.told site.old) (S.told site.new)
        × (troubles.items ≡ read ++ troubles_beside class base.now names.now)) }
    ensures own { Adds (S.told site.old) (S.told site.new) (Every (IsOf AsksOfLogs)) }
    ensures count { S.fault_count site.old ≤ S.fault_count site.new }
{
    let is_there = is_there(base, names);
    let mut troubles = ask_log(alloc, site, who, path, is_there)?;
    add_beside(&mut troubles, class, base, names)?;
    Ok(troubles)
}

fn is_there(base: &str, names: &[Word]) -> bool
    ensures { result ≡ is_there base.now names.now }
{
    names.iter().any(|name| base == name.as_str())
}

/// Reads the first byte of a log that is there.
fn ask_log<S: Site>(
    alloc: Global,
    site: &mut S,
    who: &Who,
    path: &str,
    is_there: bool,
) -> Result<Vec<Trouble>, NoMemory>
    requires job { who.now ≡ job }
    ensures told { IfOk result (λ troubles.
        LogAsked path.now is_there troubles.items (S.told site.old) (S.told site.new)) }
    ensures own { Adds (S.told site.old) (S.told site.new) (Every (IsOf AsksOfLogs)) }
    ensures count { S.fault_count site.old ≤ S.fault_count site.new }
{
    if !is_there {
        return one(alloc, Trouble::NoLog);
    }
    let given = site.log_read(alloc, who, path, Part::Base, 0, 1);
    troubles_read(alloc, given)
}

/// What is wrong with a log, by this answer of its read.
fn troubles_read(alloc: Global, given: Result<Piece, CallFault>) -> Result<Vec<Trouble>, NoMemory>
    ensures { IfOk result (λ troubles. troubles.items ≡ trouble_read given) }
{
    match given {
        Ok(_) => Ok(Vec::new(alloc)),
        Err(CallFault::Failed) => one(alloc, Trouble::Unreadable),
        Err(_) => Err(NoMemory),
    }
}

fn one(alloc: Global, trouble: Trouble) -> Result<Vec<Trouble>, NoMemory>
    ensures { IfOk result (λ troubles. troubles.items ≡ trouble_if true trouble) }
{
    let mut troubles = Vec::new(alloc);
    troubles.push(trouble)?;
    Ok(troubles)
}

/// Puts what is wrong with the files beside the log behind the rest.
fn add_beside(
    troubles: &mut Vec<Trouble>,
    class: Class,
    base: &str,
    names: &[Word],
) -> Result<(), NoMemory>
    ensures { OnOk result (troubles.new.items
        ≡ troubles.old.items ++ troubles_beside class base.now names.now) }
{
    let is_dated = has_beside(names, base, Beside::Dated);
    let is_numbered = has_beside(names, base, Beside::Numbered);
    let is_compressed = has_beside(names, base, Beside::Compressed);
    let is_rotated = is_dated || (is_numbered || is_compressed);
    add_if(
        troubles,
        is_plain(class) && is_rotated,
        Trouble::RotatedName,
    )?;
    add_if(troubles, is_numbered, Trouble::NumberedName)?;
    add_if(troubles, is_compressed, Trouble::CompressedName)
}

fn is_plain(class: Class) -> bool
    ensures { result ≡ is_plain class }
{
    class == Class::Plain
}

fn add_if(troubles: &mut Vec<Trouble>, is: bool, trouble: Trouble) -> Result<(), NoMemory>
    ensures { OnOk result (troubles.new.items ≡ troubles.old.items ++ trouble_if is trouble) }
{
    if is {
        troubles.push(trouble)?;
    }
    Ok(())
}
