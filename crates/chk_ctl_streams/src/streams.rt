//! All streams of a store.

ghost use Rattle.std.specs.Prelude.{◌≡◌, IsTrue};
ghost use Rattle.chk_site.specs.History.{Every};
ghost use Rattle.chk_site.specs.Site.{Adds};
ghost use Rattle.chk_world.specs.Sight.{job};
ghost use Rattle.chk_world.specs.JobSteps.{IsOf};
ghost use Rattle.chk_book.specs.Books.{book_view};
ghost use Rattle.chk_book.specs.Folders.{is_folder};
ghost use Rattle.chk_ctl_cat.specs.Faults.{FailsLast, LookCause};
ghost use Rattle.chk_ctl_cat.specs.Looking.{LooksOrSays};
ghost use Rattle.chk_ctl_streams.specs.Listing.{Listed, ListedBeside};

use crate::fault::look_result;
use crate::lines::print_lines;
use chk_book::Book;
use chk_ctl_cat::{LookFault, find_book, look_of};
use chk_site::{Site, Who};
use std::alloc::Global;

/// Prints a line for each stream of a store, in the order of the archive's book:
/// `stream <source> <type> <name> start <offset> end <offset> demuxed <offset>`.
///
/// `start` and `end` are the stream's in the archive, and `demuxed` is the offset up to which its
/// records go, at least its start. The archive's book is read first, so a stream may have more
/// records by then than its line has archived bytes.
///
/// It costs the reads of both books, a call a line, and one pass over the streams of both; both
/// books are held. A folder without a book has no stream. After a refusal in
/// mid-stream the lines before it stay printed. `Gone` never comes.
pub fn print_streams<S: Site>(
    alloc: Global,
    site: &mut S,
    who: &Who,
    archive: &str,
    records: &str,
) -> Result<(), LookFault>
    requires job { who.now ≡ job }
    requires archive { IsTrue (is_folder archive.now) }
    requires records { IsTrue (is_folder records.now) }
    ensures told { Listed who.now archive.now records.now result (S.told site.old)
        (S.told site.new) }
    ensures own { Adds (S.told site.old) (S.told site.new) (Every (IsOf LooksOrSays)) }
    ensures last { Adds (S.told site.old) (S.told site.new) (FailsLast result) }
    ensures cause { LookCause (S.fault_count site.old) (S.fault_count site.new) result }
{
    match find_book(alloc, site, who, archive) {
        Ok(book) => print_beside(alloc, site, who, &book, records),
        Err(fault) => Err(look_of(fault)),
    }
}

/// Prints the lines of this book of the archive, beside the book of the records.
fn print_beside<S: Site>(
    alloc: Global,
    site: &mut S,
    who: &Who,
    archive: &Book,
    records: &str,
) -> Result<(), LookFault>
    requires job { who.now ≡ job }
    requires records { IsTrue (is_folder records.now) }
    ensures told { ListedBeside who.now (book_view archive.now) records.now result
        (S.told site.old) (S.told site.new) }
    ensures own { Adds (S.told site.old) (S.told site.new) (Every (IsOf LooksOrSays)) }
    ensures last { Adds (S.told site.old) (S.told site.new) (FailsLast result) }
    ensures cause { LookCause (S.fault_count site.old) (S.fault_count site.new) result }
{
    match find_book(alloc, site, who, records) {
        Ok(split) => look_result(print_lines(alloc, site, who, archive, &split)),
        Err(fault) => Err(look_of(fault)),
    }
}
