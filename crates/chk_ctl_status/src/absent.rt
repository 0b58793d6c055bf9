//! What is told of a folder that is no store.

ghost use Rattle.std.specs.Prelude.{◌≡◌, string_bytes, IfOk};
ghost use Rattle.chk_site.specs.Site.{OutsideCause};
ghost use Rattle.chk_ctl_status.specs.Absent.{absent_line, absent_text};
ghost use Rattle.chk_ctl_status.specs.Telling.{Tells};

use crate::telling::say_text;
use chk_bytes::NoMemory;
use chk_site::{OutsideFault, Site, Who};
use std::alloc::Global;

/// Prints that the folder is no store, below a line with its name. It costs one call.
pub fn tell_absent<S: Site>(
    alloc: Global,
    site: &mut S,
    who: &Who,
    folder: &str,
) -> Result<(), OutsideFault>
    ensures told { Tells who.now (absent_text folder.now) result (S.told site.old)
        (S.told site.new) }
    ensures cause { OutsideCause (S.fault_count site.old) (S.fault_count site.new) result }
{
    match absent_text(alloc, folder) {
        Ok(text) => say_text(alloc, site, who, text.as_str()),
        Err(NoMemory) => Err(OutsideFault::NoMemory),
    }
}

/// Prints it as one line, as Nagios reads it: `WARNING - <folder>: no store`. It costs one call.
pub fn tell_absent_line<S: Site>(
    alloc: Global,
    site: &mut S,
    who: &Who,
    folder: &str,
) -> Result<(), OutsideFault>
    ensures told { Tells who.now (absent_line folder.now) result (S.told site.old)
        (S.told site.new) }
    ensures cause { OutsideCause (S.fault_count site.old) (S.fault_count site.new) result }
{
    match absent_line(alloc, folder) {
        Ok(text) => say_text(alloc, site, who, text.as_str()),
        Err(NoMemory) => Err(OutsideFault::NoMemory),
    }
}

fn absent_text(alloc: Global, folder: &str) -> Result<String, NoMemory>
    ensures { IfOk result (λ text. string_bytes text ≡ absent_text folder.now) }
{
    let text = format!(in alloc; "store {folder}\n  no store: it has no folder sinks\n")?;
    Ok(text)
}

fn absent_line(alloc: Global, folder: &str) -> Result<String, NoMemory>
    ensures { IfOk result (λ text. string_bytes text ≡ absent_line folder.now) }
{
    let text = format!(in alloc; "WARNING - {folder}: no store\n")?;
    Ok(text)
}
