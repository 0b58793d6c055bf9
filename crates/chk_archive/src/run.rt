//! The end of an archive run: what follows its listing of the sinks.

ghost use Rattle.std.specs.Prelude.{◌≡◌, ℕ, List};
ghost use Rattle.chk_site.specs.History.{Every};
ghost use Rattle.chk_site.specs.Site.{Adds};
ghost use Rattle.chk_site.specs.Runs.{anyhow, Leads};
ghost use Rattle.chk_world.specs.Books.{Book as Parts};
ghost use Rattle.chk_world.specs.Places.{As};
ghost use Rattle.chk_world.specs.Sight.{job, Sight, AtJob};
ghost use Rattle.chk_world.specs.JobSteps.{IsOf};
ghost use Rattle.chk_record_index.specs.Faults.{JobCause, FailsLast};
ghost use Rattle.chk_record_index.specs.Pieces.{AsksInPieces};
ghost use Rattle.chk_archive.specs.Listed.{sources_in};
ghost use Rattle.chk_archive.specs.Shown.{ShowsTaken};
ghost use Rattle.chk_book.specs.Books.{book_view};
ghost use Rattle.chk_archive.specs.Archived.{Archived, NoStray};
ghost use Rattle.chk_archive.specs.Listed.{IsListed};
ghost use Rattle.chk_archive.specs.Merged.{IsMergeOf};
ghost use Rattle.chk_archive.specs.Reporting.{report_result};
ghost use Rattle.chk_archive.specs.Running.{FinishesBy};
ghost use Rattle.chk_archive.specs.Holding.{ReportsHeld};
ghost use Rattle.chk_record_reader.specs.Segments.{HasFiles, SparesFiles, AreSettled};
ghost use Rattle.chk_archive_parts.specs.Gathering.{held, AreSound};

use crate::counting::count_names;
use crate::report::Report;
use crate::sinks::remove_sinks;
use crate::taking::take_in;
use chk_book::Book;
use chk_bytes::Word;
use chk_record_index::JobFault;
use chk_site::{Site, Who};
use std::alloc::Global;

/// Takes what is new, publishes the book that says so, and removes each done sink that the listing showed.
pub(crate) fn finish<S: Site>(
    alloc: Global,
    site: &mut S,
    who: &Who,
    mut book: Book,
    names: &[Word],
) -> Result<Report, JobFault>
    requires { who.now ≡ job }
    ensures told { (stamped : List (List ℕ)) (loaded : Parts) (v : Sight)
        (at : IsListed stamped names.now (book_view book) v) → NoStray loaded at.shows.listing.upto
        → IsMergeOf loaded (book_view book) v
        → Adds (S.told site.old) (S.told site.new)
        (Leads (As stamped job) (AtJob stamped (λ u. u ≡ v)) (Archived stamped loaded (report_result result))) }
    ensures holds { (v : Sight) → AreSound v (sources_in (book_view book) names.now)
        → AreSettled (sources_in (book_view book) names.now) (held v) → Adds (S.told site.old) (S.told site.new)
        (Leads (anyhow (SparesFiles (sources_in (book_view book) names.now)))
        (HasFiles (sources_in (book_view book) names.now) (held v))
        (ReportsHeld (book_view book) v (sources_in (book_view book) names.now) result)) }
    ensures shown { Adds (S.told site.old) (S.told site.new)
        (ShowsTaken (book_view book) (sources_in (book_view book) names.now) result) }
    ensures own { Adds (S.told site.old) (S.told site.new) (Every (IsOf FinishesBy)) }
    ensures pieces { Adds (S.told site.old) (S.told site.new) (Every AsksInPieces) }
    ensures last { Adds (S.told site.old) (S.told site.new) (FailsLast result) }
    ensures cause { JobCause (S.fault_count site.old) (S.fault_count site.new) result }
{
    let counted = count_names(names)?;
    let took = take_in(alloc, site, who, &mut book, names)?;
    remove_sinks(alloc, site, who, names)?;
    Ok(Report {
        unclosed: counted.unclosed,
        first_unclosed: counted.first_unclosed,
        taken: took.taken,
        held: took.held,
        removed: counted.closed,
        ends: book.ends,
    })
}
