//! Two calls: a listing, and the question for a length.

ghost use Rattle.std.specs.Prelude.{◌≡◌, IfOk};
ghost use Rattle.chk_site.specs.History.{Every};
ghost use Rattle.chk_site.specs.Site.{Adds, OutsideCause};
ghost use Rattle.chk_world.specs.Sight.{job};
ghost use Rattle.chk_ctl_verify.specs.Calls.{HasNames, HasSize, Quiet};

use chk_bytes::Word;
use chk_site::{Call, OutsideFault, Site, Who, reached, size_of};
use std::alloc::Global;

/// The names of a folder's files, in byte order; none where there is no such folder.
pub(crate) fn names_in<S: Site>(
    alloc: Global,
    site: &mut S,
    who: &Who,
    folder: &str,
) -> Result<Vec<Word>, OutsideFault>
    requires job { who.now ≡ job }
    ensures told { IfOk result (λ names. HasNames folder.now names.items (S.told site.old)
        (S.told site.new)) }
    ensures own { Adds (S.told site.old) (S.told site.new) (Every Quiet) }
    ensures cause { OutsideCause (S.fault_count site.old) (S.fault_count site.new) result }
{
    let given = site.list(alloc, who, folder);
    reached(Call::List, given)
}

/// The length of a file, where it is there.
pub(crate) fn length_of<S: Site>(
    alloc: Global,
    site: &mut S,
    who: &Who,
    name: &str,
) -> Result<Option<u64>, OutsideFault>
    requires job { who.now ≡ job }
    ensures told { IfOk result (λ size. HasSize name.now size (S.told site.old)
        (S.told site.new)) }
    ensures own { Adds (S.told site.old) (S.told site.new) (Every Quiet) }
    ensures cause { OutsideCause (S.fault_count site.old) (S.fault_count site.new) result }
{
    size_of(alloc, site, who, name)
}
