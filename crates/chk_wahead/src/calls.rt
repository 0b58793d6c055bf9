//! The calls on the outside, in turn, by the names of the files.

ghost use Rattle.std.specs.Prelude.{◌≡◌, [], ◌∷◌, ◌++◌};
ghost use Rattle.chk_site.specs.declared.acts.Call.TheVariants.{Remove, Cut};
ghost use Rattle.chk_site.specs.Site.{OutsideCause, asked};
ghost use Rattle.chk_site.specs.Runs.{MadeInTurn};
ghost use Rattle.chk_wahead.specs.Scripts.{adding, beginning, marking, shutting};

use chk_replace::replace;
use chk_site::{Call, OutsideFault, Site, Who, done};
use std::alloc::Global;

/// Publishes the number of the next buffer, and makes that.
pub(crate) fn begin<S: Site>(
    alloc: Global,
    site: &mut S,
    who: &Who,
    next: &str,
    buffer: &str,
    number: u64,
) -> Result<(), OutsideFault>
    ensures told { MadeInTurn (beginning who.now next.now buffer.now number) result (S.told site.old) (S.told site.new) }
    ensures cause { OutsideCause (S.fault_count site.old) (S.fault_count site.new) result }
{
    replace(alloc, site, who, next, &number.to_be_bytes())?;
    let created = site.create(alloc, who, buffer);
    done(Call::Create, created)
}

/// Adds bytes to the buffer.
pub(crate) fn add<S: Site>(
    alloc: Global,
    site: &mut S,
    who: &Who,
    buffer: &str,
    bytes: &[u8],
) -> Result<(), OutsideFault>
    ensures told { MadeInTurn (adding who.now buffer.now bytes.now ∷ []) result (S.told site.old) (S.told site.new) }
    ensures cause { OutsideCause (S.fault_count site.old) (S.fault_count site.new) result }
{
    let appended = site.append(alloc, who, buffer, bytes);
    done(Call::Append, appended)
}

/// Syncs the buffer, and then publishes this length as its mark.
pub(crate) fn publish<S: Site>(
    alloc: Global,
    site: &mut S,
    who: &Who,
    buffer: &str,
    mark: &str,
    length: u64,
) -> Result<(), OutsideFault>
    ensures told { MadeInTurn (marking who.now buffer.now mark.now length) result (S.told site.old) (S.told site.new) }
    ensures cause { OutsideCause (S.fault_count site.old) (S.fault_count site.new) result }
{
    let synced = site.sync(alloc, who, buffer);
    done(Call::Sync, synced)?;
    replace(alloc, site, who, mark, &length.to_be_bytes())
}

/// Gives the buffer its closed name, and then removes its mark.
pub(crate) fn shut<S: Site>(
    alloc: Global,
    site: &mut S,
    who: &Who,
    buffer: &str,
    closed: &str,
    mark: &str,
) -> Result<(), OutsideFault>
    ensures told { MadeInTurn (shutting who.now buffer.now closed.now mark.now) result (S.told site.old) (S.told site.new) }
    ensures cause { OutsideCause (S.fault_count site.old) (S.fault_count site.new) result }
{
    let renamed = site.rename(alloc, who, buffer, closed);
    done(Call::Rename, renamed)?;
    remove(alloc, site, who, mark)
}

/// Cuts the buffer to this length.
pub(crate) fn cut<S: Site>(
    alloc: Global,
    site: &mut S,
    who: &Who,
    buffer: &str,
    length: u64,
) -> Result<(), OutsideFault>
    ensures told { MadeInTurn (asked who.now Cut (buffer.now ∷ []) length 0 ∷ []) result (S.told site.old) (S.told site.new) }
    ensures cause { OutsideCause (S.fault_count site.old) (S.fault_count site.new) result }
{
    let given = site.cut(alloc, who, buffer, length);
    done(Call::Cut, given)
}

/// Removes a file.
pub(crate) fn remove<S: Site>(
    alloc: Global,
    site: &mut S,
    who: &Who,
    name: &str,
) -> Result<(), OutsideFault>
    ensures told { MadeInTurn (asked who.now Remove (name.now ∷ []) 0 0 ∷ []) result (S.told site.old) (S.told site.new) }
    ensures cause { OutsideCause (S.fault_count site.old) (S.fault_count site.new) result }
{
    let removed = site.remove(alloc, who, name);
    done(Call::Remove, removed)
}
