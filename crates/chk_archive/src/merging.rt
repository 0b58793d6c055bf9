//! Many segments of the archive are merged into one.

ghost use Rattle.std.specs.Prelude.{◌≡◌, ◌+◌, ℕ, List, length, ◌<◌, ◌≤◌, codes, IfErr, OnOk};
ghost use Rattle.chk_site.specs.History.{Every};
ghost use Rattle.chk_site.specs.Site.{Adds};
ghost use Rattle.chk_site.specs.Runs.{Leads};
ghost use Rattle.chk_world.specs.Places.{As};
ghost use Rattle.chk_world.specs.Sight.{job, AtJob};
ghost use Rattle.chk_world.specs.JobSteps.{IsOf};
ghost use Rattle.chk_record_index.specs.Faults.{JobCause, FailsLast};
ghost use Rattle.chk_record_index.specs.Pieces.{AsksInPieces};
ghost use Rattle.chk_record_index.specs.Causes.{Shows};
ghost use Rattle.chk_record_reader.specs.Gone.{IsUnsound};
ghost use Rattle.chk_book.specs.Books.{book_view};
ghost use Rattle.chk_archive.specs.Shown.{IfSpent, IsAtLast};
ghost use Rattle.chk_archive.specs.Tidying.{IsTidy};
ghost use Rattle.chk_archive.specs.Archived.{MergesBy};
ghost use Rattle.chk_archive.specs.Merged.{Merged};

use chk_archive_merge::merge;
use chk_archive_parts::publish_next;
use chk_book::Book;
use chk_record_index::JobFault;
use chk_site::{Site, Who};
use std::alloc::Global;

/// From this many segments on they are merged.
const MANY: usize = 16;

/// Where the archive's book names 16 or more segments, merges them into one and publishes the book. The aside segment isn't counted,
/// and stays. After a refusal nothing is said of `book`. It reads each record twice and writes it once.
pub(crate) fn merge_many<S: Site>(
    alloc: Global,
    site: &mut S,
    who: &Who,
    book: &mut Book,
) -> Result<(), JobFault>
    requires { who.now ≡ job }
    ensures told { (stamped : List (List ℕ)) → Adds (S.told site.old) (S.told site.new)
        (Leads (As stamped job) (AtJob stamped (IsTidy (book_view book.old)))
        (Merged stamped (book_view book.old) (book_view book.new) result)) }
    ensures few { length (book_view book.old).segments < 16
        → (S.told site.new ≡ S.told site.old) × (book_view book.new ≡ book_view book.old) }
    ensures many { OnOk result (16 ≤ length (book_view book.old).segments
        → (book_view book.new).next ≡ (book_view book.old).next + 1) }
    ensures spent { IfErr result (IfSpent ((16 ≤ length (book_view book.old).segments)
        × IsAtLast (book_view book.old))) }
    ensures shown { Adds (S.told site.old) (S.told site.new) (Shows (IsUnsound (codes "archive") (book_view book.old)) result) }
    ensures kept { ((book_view book.new).ends ≡ (book_view book.old).ends) × ((book_view book.new).aside ≡ (book_view book.old).aside) }
    ensures own { Adds (S.told site.old) (S.told site.new) (Every (IsOf MergesBy)) }
    ensures pieces { Adds (S.told site.old) (S.told site.new) (Every AsksInPieces) }
    ensures last { Adds (S.told site.old) (S.told site.new) (FailsLast result) }
    ensures cause { JobCause (S.fault_count site.old) (S.fault_count site.new) result }
{
    if book.segments.as_slice().len() < MANY {
        return Ok(());
    }
    merge(book, alloc, site, who, "archive")?;
    publish_next(alloc, site, who, book, "archive")?;
    Ok(())
}
