//! Whether the store has an archive.

ghost use Rattle.std.specs.Prelude.{◌≡◌};
ghost use Rattle.chk_site.specs.Site.{OutsideCause};
ghost use Rattle.chk_world.specs.Sight.{job};
ghost use Rattle.chk_ctl_run.specs.Finding.{found_as, FindsArchive, FindsFile, FoundCause};

use crate::outcome::{Outcome, told_as};
use chk_record_index::read_piece;
use chk_site::{OutsideFault, Site, Who};
use std::alloc::Global;

/// Whether the file is there. It costs one read.
pub(crate) fn find_file<S: Site>(
    alloc: Global,
    site: &mut S,
    who: &Who,
    name: &str,
) -> Result<bool, OutsideFault>
    requires job { who.now ≡ job }
    ensures told { FindsFile name.now result (S.told site.old) (S.told site.new) }
    ensures cause { OutsideCause (S.fault_count site.old) (S.fault_count site.new) result }
{
    match read_piece(alloc, site, who, name, 0) {
        Ok(given) => Ok(given.is_some()),
        Err(fault) => Err(fault),
    }
}

/// The store has an archive; else how the look ends.
pub(crate) fn find_archive<S: Site>(alloc: Global, site: &mut S, who: &Who) -> Result<(), Outcome>
    requires job { who.now ≡ job }
    ensures told { FindsArchive result (S.told site.old) (S.told site.new) }
    ensures cause { FoundCause (S.fault_count site.old) (S.fault_count site.new) result }
{
    let given = find_file(alloc, site, who, "archive/book");
    found_as(given)
}

/// What comes of a store whose archive's book was looked for.
fn found_as(given: Result<bool, OutsideFault>) -> Result<(), Outcome>
    ensures { result ≡ found_as given }
{
    match given {
        Ok(true) => Ok(()),
        Ok(false) => Err(Outcome::NoArchive),
        Err(fault) => Err(told_as(Err(fault))),
    }
}
