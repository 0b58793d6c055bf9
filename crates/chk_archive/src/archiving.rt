//! The archive run.

ghost use Rattle.std.specs.Prelude.{◌≡◌, ℕ, List, OnOk};
ghost use Rattle.chk_site.specs.History.{Every};
ghost use Rattle.chk_site.specs.Site.{Adds};
ghost use Rattle.chk_site.specs.Runs.{Leads};
ghost use Rattle.chk_world.specs.Books.{Book as Parts};
ghost use Rattle.chk_world.specs.Places.{As};
ghost use Rattle.chk_world.specs.Sight.{job};
ghost use Rattle.chk_world.specs.JobSteps.{IsOf};
ghost use Rattle.chk_record_index.specs.Faults.{JobCause, FailsLast};
ghost use Rattle.chk_record_index.specs.Pieces.{AsksInPieces};
ghost use Rattle.chk_archive.specs.Shown.{ShowsArchived, ShowsSettled};
ghost use Rattle.chk_archive.specs.Holding.{ShowsHeld};
ghost use Rattle.chk_book.specs.Loaded.{book_result};
ghost use Rattle.chk_archive.specs.Archived.{Archived, ArchivesBy, Begun, GivenOnce, ListedOnce, ListsNoSinks};
ghost use Rattle.chk_archive.specs.Reporting.{report_result};
ghost use Rattle.chk_archive.specs.Running.{Settled};

use crate::beginning::begin;
use crate::merging::merge_many;
use crate::report::Report;
use crate::run::finish;
use crate::sinks::list_sinks;
use crate::tidying::tidy;
use chk_book::Book;
use chk_record_index::JobFault;
use chk_site::{Site, Who};
use std::alloc::Global;

/// Archives what the done sinks hold: takes each stream's bytes as far as they go on without a gap, sets aside what lies past one, and
/// removes the done sinks that its listing showed. After a refusal or a stop, wherever it came, the next run goes on from there.
/// `Damaged` comes only where something else wrote into the folders, and `Spent` only where the archive has fewer numbers left than the
/// run needs, two at most. Each file is read in pieces of at most 1,048,576 bytes, once for its heads and once more for what is written.
/// It holds 32 bytes for each chunk that it finds, 8 for each that it writes, and the window that it reads through.
pub fn archive<S: Site>(alloc: Global, site: &mut S, who: &Who) -> Result<Report, JobFault>
    requires { who.now ≡ job }
    ensures told { (stamped : List (List ℕ)) (loaded : Parts) → Adds (S.told site.old) (S.told site.new)
        (Leads (As stamped job) (Begun stamped loaded) (Archived stamped loaded (report_result result))) }
    ensures shown { Adds (S.told site.old) (S.told site.new) (ShowsArchived result) }
    ensures holds { Adds (S.told site.old) (S.told site.new) (ShowsHeld result) }
    ensures own { Adds (S.told site.old) (S.told site.new) (Every (IsOf ArchivesBy)) }
    ensures once { Adds (S.told site.old) (S.told site.new) (ListedOnce result) }
    ensures given { OnOk result (Adds (S.told site.old) (S.told site.new) GivenOnce) }
    ensures pieces { Adds (S.told site.old) (S.told site.new) (Every AsksInPieces) }
    ensures last { Adds (S.told site.old) (S.told site.new) (FailsLast result) }
    ensures cause { JobCause (S.fault_count site.old) (S.fault_count site.new) result }
{
    let book = settle(alloc, site, who)?;
    let names = list_sinks(alloc, site, who)?;
    finish(alloc, site, who, book, names.as_slice())
}

/// The archive's book, once no other segment is there than those that it names, and those that were merged.
fn settle<S: Site>(alloc: Global, site: &mut S, who: &Who) -> Result<Book, JobFault>
    requires { who.now ≡ job }
    ensures told { (stamped : List (List ℕ)) (loaded : Parts) → Adds (S.told site.old) (S.told site.new)
        (Leads (As stamped job) (Begun stamped loaded) (Settled stamped loaded (book_result result))) }
    ensures shown { Adds (S.told site.old) (S.told site.new) (ShowsSettled (book_result result)) }
    ensures own { Adds (S.told site.old) (S.told site.new) (Every (IsOf ArchivesBy)) }
    ensures none { Adds (S.told site.old) (S.told site.new) ListsNoSinks }
    ensures pieces { Adds (S.told site.old) (S.told site.new) (Every AsksInPieces) }
    ensures last { Adds (S.told site.old) (S.told site.new) (FailsLast result) }
    ensures cause { JobCause (S.fault_count site.old) (S.fault_count site.new) result }
{
    let mut book = begin(alloc, site, who)?;
    tidy(alloc, site, who, &book)?;
    merge_many(alloc, site, who, &mut book)?;
    Ok(book)
}
