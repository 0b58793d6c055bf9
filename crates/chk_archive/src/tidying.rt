//! The tidying of the archive's folder.

ghost use Rattle.std.specs.Prelude.{◌≡◌, ℕ, List};
ghost use Rattle.chk_site.specs.History.{Every};
ghost use Rattle.chk_site.specs.Site.{Adds, LastFailed, OutsideCause};
ghost use Rattle.chk_site.specs.Runs.{Leads};
ghost use Rattle.chk_world.specs.Places.{As};
ghost use Rattle.chk_world.specs.Sight.{job, AtJob};
ghost use Rattle.chk_world.specs.JobSteps.{IsOf};
ghost use Rattle.chk_book.specs.Books.{book_view};
ghost use Rattle.chk_archive.specs.Tidying.{HasBook, Tidied, TidiesBy};

use crate::calling::{list_folder, remove_all};
use crate::folder_names::strays;
use chk_book::Book;
use chk_site::{OutsideFault, Site, Who};
use std::alloc::Global;

/// Removes each segment of the archive that the book doesn't name. It costs a call, and one for each of these segments.
pub(crate) fn tidy<S: Site>(
    alloc: Global,
    site: &mut S,
    who: &Who,
    book: &Book,
) -> Result<(), OutsideFault>
    requires { who.now ≡ job }
    ensures told { (stamped : List (List ℕ)) → Adds (S.told site.old) (S.told site.new)
        (Leads (As stamped job) (AtJob stamped (HasBook (book_view book.now))) (Tidied stamped (book_view book.now) result)) }
    ensures own { Adds (S.told site.old) (S.told site.new) (Every (IsOf (TidiesBy (book_view book.now)))) }
    ensures last { Adds (S.told site.old) (S.told site.new) (LastFailed result) }
    ensures cause { OutsideCause (S.fault_count site.old) (S.fault_count site.new) result }
{
    let names = list_folder(alloc, site, who, "archive")?;
    let strays = strays(alloc, book, names.as_slice())?;
    remove_all(alloc, site, who, strays.as_slice())
}
