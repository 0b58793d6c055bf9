//! The commit of a sink, and its close.

ghost use Rattle.std.specs.Prelude.{◌≡◌};
ghost use Rattle.chk_site.specs.Site.{OutsideCause};
ghost use Rattle.chk_site.specs.Runs.{MadeInTurn};
ghost use Rattle.chk_sink.specs.Closing.{publishing, closing};

use crate::names;
use chk_bytes::{Bytes, Stem, put_u64};
use chk_replace::replace;
use chk_site::{Call, OutsideFault, Site, Who, done};
use std::alloc::Global;

/// Syncs a sink, and then publishes its length as its mark.
pub(crate) fn publish<S: Site>(
    alloc: Global,
    site: &mut S,
    who: &Who,
    stem: &Stem,
    size: u64,
) -> Result<(), OutsideFault>
    ensures told { MadeInTurn (publishing who.now stem.now size) result (S.told site.old) (S.told site.new) }
    ensures cause { OutsideCause (S.fault_count site.old) (S.fault_count site.new) result }
{
    let sink = names::sink(alloc, stem)?;
    let mark = names::mark(alloc, stem)?;
    let mut number = Bytes::new(alloc);
    put_u64(&mut number, size)?;
    let synced = site.sync(alloc, who, sink.as_str());
    done(Call::Sync, synced)?;
    replace(alloc, site, who, mark.as_str(), number.as_slice())
}

/// Renames a sink to its done sink, and then removes its mark.
pub(crate) fn rename_to_done<S: Site>(
    alloc: Global,
    site: &mut S,
    who: &Who,
    stem: &Stem,
) -> Result<(), OutsideFault>
    ensures told { MadeInTurn (closing who.now stem.now) result (S.told site.old) (S.told site.new) }
    ensures cause { OutsideCause (S.fault_count site.old) (S.fault_count site.new) result }
{
    let sink = names::sink(alloc, stem)?;
    let closed = names::closed(alloc, stem)?;
    let mark = names::mark(alloc, stem)?;
    let renamed = site.rename(alloc, who, sink.as_str(), closed.as_str());
    done(Call::Rename, renamed)?;
    let removed = site.remove(alloc, who, mark.as_str());
    done(Call::Remove, removed)
}
