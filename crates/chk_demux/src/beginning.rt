//! The beginning of a demux run.

ghost use Rattle.std.specs.Prelude.{◌≡◌, ℕ, List, IfErr};
ghost use Rattle.chk_site.specs.Site.{Adds, OutsideCause};
ghost use Rattle.chk_site.specs.Files.{Files};
ghost use Rattle.chk_site.specs.Runs.{anyhow, Leads};
ghost use Rattle.chk_world.specs.Places.{As};
ghost use Rattle.chk_world.specs.Sight.{job};
ghost use Rattle.chk_record_index.specs.Faults.{JobCause, IsOfRead};
ghost use Rattle.chk_record_reader.specs.Segments.{HasFiles, SparesFiles, AreSettled};
ghost use Rattle.chk_demux.specs.Damage.{with_books, LoadedBooks};
ghost use Rattle.chk_demux.specs.Demuxed.{Earlier, Begun};
ghost use Rattle.chk_demux.specs.Working.{Worked, job_result};
ghost use Rattle.chk_demux.specs.Beginning.{Begins, HasStarted, HasBegun};
ghost use Rattle.chk_demux.specs.Shown.{ShowsBegun};

use chk_book::{Book, load_book};
use chk_record_index::JobFault;
use chk_site::{Call, OutsideFault, Site, Who, done};
use std::alloc::Global;

/// The books of the two folders.
#[derive(Drop)]
pub(crate) struct Books {
    pub(crate) archive: Book,
    pub(crate) demux: Book,
}

/// Starts the job, and loads the book of the archive and that of the records. It costs one call and the reads of the books.
pub(crate) fn begin<S: Site>(alloc: Global, site: &mut S, who: &Who) -> Result<Books, JobFault>
    requires { who.now ≡ job }
    ensures told { (stamped : List (List ℕ)) (before : Earlier) → Adds (S.told site.old) (S.told site.new)
        (Leads (As stamped job) (Begun stamped before) (HasBegun stamped before result)) }
    ensures raw { (held : Files) (names : List (List ℕ)) → AreSettled (with_books names) held
        → Adds (S.told site.old) (S.told site.new) (Leads (anyhow (SparesFiles (with_books names)))
        (HasFiles (with_books names) held) (LoadedBooks names held result)) }
    ensures shown { Adds (S.told site.old) (S.told site.new) (ShowsBegun result) }
    ensures works { Adds (S.told site.old) (S.told site.new) (Worked Begins result) }
    ensures only { IfErr result IsOfRead }
    ensures cause { JobCause (S.fault_count site.old) (S.fault_count site.new) result }
{
    start(alloc, site, who)?;
    let archive = load_book(alloc, site, who, "archive")?;
    let demux = load_book(alloc, site, who, "demux")?;
    Ok(Books { archive, demux })
}

/// The job acts from here on.
fn start<S: Site>(alloc: Global, site: &mut S, who: &Who) -> Result<(), OutsideFault>
    requires { who.now ≡ job }
    ensures told { (stamped : List (List ℕ)) (before : Earlier) → Adds (S.told site.old) (S.told site.new)
        (Leads (As stamped job) (Begun stamped before) (HasStarted stamped before result)) }
    ensures works { Adds (S.told site.old) (S.told site.new) (Worked Begins (job_result result)) }
    ensures cause { OutsideCause (S.fault_count site.old) (S.fault_count site.new) result }
{
    done(Call::Start, site.start(alloc, who))
}
