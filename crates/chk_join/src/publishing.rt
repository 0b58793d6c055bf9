//! The joined archive's book is published.

ghost use Rattle.std.specs.Prelude.{◌≡◌, ℕ, List, Option, IfErr, codes};
ghost use Rattle.chk_site.specs.Files.{File, IsSettled};
ghost use Rattle.chk_site.specs.Site.{Adds};
ghost use Rattle.chk_site.specs.Runs.{anyhow, Leads};
ghost use Rattle.chk_replace.specs.Load.{Has};
ghost use Rattle.chk_replace.specs.Replace.{LeavesBoth};
ghost use Rattle.chk_world.specs.Places.{As};
ghost use Rattle.chk_world.specs.Sight.{job, AtJob};
ghost use Rattle.chk_record_index.specs.Faults.{JobCause, IsOfWrite};
ghost use Rattle.chk_book.specs.Books.{book_view};
ghost use Rattle.chk_book.specs.Folders.{book_name};
ghost use Rattle.chk_archive_parts.specs.Publishing.{ReplacesBookOf};
ghost use Rattle.chk_join.specs.Working.{Worked};
ghost use Rattle.chk_join.specs.Publishing.{HoldsBook, EndsLegally, PublishedSo};

use chk_archive_parts::can_be_spelled;
use chk_book::Book;
use chk_record_index::JobFault;
use chk_site::{Site, Who};
use std::alloc::Global;

/// Publishes the joined archive's book, which is the old one or this one at every moment. One that can't be spelled, as with 2^32
/// streams, counts as want of memory. It costs five calls.
pub(crate) fn publish<S: Site>(
    alloc: Global,
    site: &mut S,
    who: &Who,
    book: &Book,
) -> Result<(), JobFault>
    requires job { who.now ≡ job }
    ensures told { (stamped : List (List ℕ)) → Adds (S.told site.old) (S.told site.new)
        (Leads (As stamped job) (AtJob stamped (HoldsBook (book_view book.now))) (EndsLegally stamped result)) }
    ensures raw { (f : Option File) → IsSettled f → Adds (S.told site.old) (S.told site.new)
        (Leads (anyhow (LeavesBoth (book_name (codes "joined")))) (Has (book_name (codes "joined")) f)
        (PublishedSo f (book_view book.now) result)) }
    ensures only { IfErr result IsOfWrite }
    ensures works { Adds (S.told site.old) (S.told site.new) (Worked (ReplacesBookOf (codes "joined")) result) }
    ensures cause { JobCause (S.fault_count site.old) (S.fault_count site.new) result }
{
    if !can_be_spelled(book) {
        return Err(JobFault::NoMemory);
    }
    book.publish(alloc, site, who, "joined")
}
