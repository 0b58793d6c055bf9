//! The beginning of an archive run.

ghost use Rattle.std.specs.Prelude.{◌≡◌, ℕ, List, IfErr};
ghost use Rattle.chk_site.specs.History.{Every};
ghost use Rattle.chk_site.specs.Site.{Adds, LastFailed, OutsideCause};
ghost use Rattle.chk_site.specs.Runs.{Leads};
ghost use Rattle.chk_world.specs.Books.{Book as Parts};
ghost use Rattle.chk_world.specs.Places.{As};
ghost use Rattle.chk_world.specs.Sight.{job};
ghost use Rattle.chk_world.specs.JobSteps.{IsOf};
ghost use Rattle.chk_record_index.specs.Faults.{JobCause, FailsLast, IsOfRead};
ghost use Rattle.chk_record_index.specs.Pieces.{AsksInPieces};
ghost use Rattle.chk_archive.specs.Shown.{ShowsBegun};
ghost use Rattle.chk_book.specs.Loaded.{book_result};
ghost use Rattle.chk_archive.specs.Archived.{Begun};
ghost use Rattle.chk_archive.specs.Beginning.{HasStartedSo, HasBegun, Begins};

use chk_book::{Book, load_book};
use chk_record_index::JobFault;
use chk_site::{Call, OutsideFault, Site, Who, done};
use std::alloc::Global;

/// Starts the job, and loads the archive's book. It costs one call and the reads of the book.
pub(crate) fn begin<S: Site>(alloc: Global, site: &mut S, who: &Who) -> Result<Book, JobFault>
    requires { who.now ≡ job }
    ensures told { (stamped : List (List ℕ)) (loaded : Parts) → Adds (S.told site.old) (S.told site.new)
        (Leads (As stamped job) (Begun stamped loaded) (HasBegun stamped loaded (book_result result))) }
    ensures shown { Adds (S.told site.old) (S.told site.new) (ShowsBegun (book_result result)) }
    ensures own { Adds (S.told site.old) (S.told site.new) (Every (IsOf Begins)) }
    ensures pieces { Adds (S.told site.old) (S.told site.new) (Every AsksInPieces) }
    ensures only { IfErr result IsOfRead }
    ensures last { Adds (S.told site.old) (S.told site.new) (FailsLast result) }
    ensures cause { JobCause (S.fault_count site.old) (S.fault_count site.new) result }
{
    start(alloc, site, who)?;
    load_book(alloc, site, who, "archive")
}

/// The job acts from here on.
fn start<S: Site>(alloc: Global, site: &mut S, who: &Who) -> Result<(), OutsideFault>
    requires { who.now ≡ job }
    ensures told { (stamped : List (List ℕ)) (loaded : Parts) → Adds (S.told site.old) (S.told site.new)
        (Leads (As stamped job) (Begun stamped loaded) (HasStartedSo stamped loaded result)) }
    ensures own { Adds (S.told site.old) (S.told site.new) (Every (IsOf Begins)) }
    ensures pieces { Adds (S.told site.old) (S.told site.new) (Every AsksInPieces) }
    ensures last { Adds (S.told site.old) (S.told site.new) (LastFailed result) }
    ensures cause { OutsideCause (S.fault_count site.old) (S.fault_count site.new) result }
{
    done(Call::Start, site.start(alloc, who))
}
