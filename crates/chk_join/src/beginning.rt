//! The beginning of a join.

ghost use Rattle.std.specs.Prelude.{◌≡◌, ℕ, List, Option, IfErr, codes};
ghost use Rattle.chk_site.specs.Files.{File, IsSettled};
ghost use Rattle.chk_site.specs.Effect.{IsSmallFile};
ghost use Rattle.chk_site.specs.Site.{Adds, OutsideCause};
ghost use Rattle.chk_site.specs.Runs.{anyhow, Leads};
ghost use Rattle.chk_replace.specs.Load.{Has};
ghost use Rattle.chk_world.specs.Places.{As};
ghost use Rattle.chk_world.specs.Rules.{Legal};
ghost use Rattle.chk_world.specs.Sight.{job};
ghost use Rattle.chk_world.specs.JobSteps.{SparesFile};
ghost use Rattle.chk_record_index.specs.Faults.{JobCause, IsOfRead};
ghost use Rattle.chk_book.specs.Folders.{book_name};
ghost use Rattle.chk_book.specs.Loaded.{LoadedBook, book_result};
ghost use Rattle.chk_join.specs.Working.{Worked, Starting, job_result};
ghost use Rattle.chk_join.specs.Beginning.{HasStarted, HasBegun, Begins};

use chk_book::{Book, load_book};
use chk_record_index::JobFault;
use chk_site::{Call, OutsideFault, Site, Who, done};
use std::alloc::Global;

/// Starts the job, and loads the book of `joined`. It costs one call and the reads of the book.
pub(crate) fn begin<S: Site>(alloc: Global, site: &mut S, who: &Who) -> Result<Book, JobFault>
    requires { who.now ≡ job }
    ensures told { (stamped : List (List ℕ)) → Adds (S.told site.old) (S.told site.new)
        (Leads (As stamped job) (Legal stamped) (HasBegun stamped (book_result result))) }
    ensures raw { (file : Option File) → IsSettled file → IsSmallFile file → Adds (S.told site.old) (S.told site.new)
        (Leads (anyhow (SparesFile (book_name (codes "joined")))) (Has (book_name (codes "joined")) file)
        (LoadedBook (codes "joined") file (book_result result))) }
    ensures works { Adds (S.told site.old) (S.told site.new) (Worked Begins result) }
    ensures only { IfErr result IsOfRead }
    ensures cause { JobCause (S.fault_count site.old) (S.fault_count site.new) result }
{
    start(alloc, site, who)?;
    load_book(alloc, site, who, "joined")
}

/// The job acts from here on.
fn start<S: Site>(alloc: Global, site: &mut S, who: &Who) -> Result<(), OutsideFault>
    requires { who.now ≡ job }
    ensures told { (stamped : List (List ℕ)) → Adds (S.told site.old) (S.told site.new)
        (Leads (As stamped job) (Legal stamped) (HasStarted stamped result)) }
    ensures works { Adds (S.told site.old) (S.told site.new) (Worked Starting (job_result result)) }
    ensures cause { OutsideCause (S.fault_count site.old) (S.fault_count site.new) result }
{
    done(Call::Start, site.start(alloc, who))
}
