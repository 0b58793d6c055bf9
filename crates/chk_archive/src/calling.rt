//! Calls on the outside that an archive run makes of its own.

ghost use Rattle.std.specs.Prelude.{IfOk, IfErr, Ok, Err};
ghost use Rattle.chk_site.specs.Site.{OutsideCause};
ghost use Rattle.chk_site.specs.Runs.{MadeInTurn};
ghost use Rattle.chk_archive.specs.Calling.{removals, Listed};

use chk_bytes::Word;
use chk_site::{Call, CallFault, OutsideFault, Site, Who, done};
use std::alloc::Global;

/// Removes these files, in turn, whether or not they are there. It costs a call for each.
pub(crate) fn remove_all<S: Site>(
    alloc: Global,
    site: &mut S,
    who: &Who,
    names: &[Word],
) -> Result<(), OutsideFault>
    ensures told { MadeInTurn (removals who.now names.now) result (S.told site.old) (S.told site.new) }
    ensures cause { OutsideCause (S.fault_count site.old) (S.fault_count site.new) result }
{
    for name in names {
        done(Call::Remove, site.remove(alloc, who, name.as_str()))?;
    }
    Ok(())
}

/// The names of a folder's files. It costs one call.
pub(crate) fn list_folder<S: Site>(
    alloc: Global,
    site: &mut S,
    who: &Who,
    folder: &str,
) -> Result<Vec<Word>, OutsideFault>
    ensures ok { IfOk result (λ names. Listed who.now folder.now (Ok names.items) (S.told site.old) (S.told site.new)) }
    ensures err { IfErr result (λ fault. Listed who.now folder.now (Err fault) (S.told site.old) (S.told site.new)) }
    ensures cause { OutsideCause (S.fault_count site.old) (S.fault_count site.new) result }
{
    match site.list(alloc, who, folder) {
        Ok(names) => Ok(names),
        Err(CallFault::Failed) => Err(OutsideFault::Outside { call: Call::List }),
        Err(CallFault::NoMemory) => Err(OutsideFault::NoMemory),
        Err(_) => unreachable!(),
    }
}
