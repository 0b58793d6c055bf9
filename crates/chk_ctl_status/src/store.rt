//! What is seen of a store.

ghost use Rattle.std.specs.List.{list_any};
ghost use Rattle.std.specs.Prelude.{◌≡◌, IfErr};
ghost use Rattle.chk_site.specs.History.{Every};
ghost use Rattle.chk_site.specs.Site.{Adds};
ghost use Rattle.chk_world.specs.JobSteps.{IsOf};
ghost use Rattle.chk_world.specs.Sight.{job};
ghost use Rattle.chk_record_index.specs.Faults.{IsOfRead, JobCause};
ghost use Rattle.chk_ctl_status_rows.specs.Sinks.{LooksAround};
ghost use Rattle.chk_ctl_status.specs.Stores.{has_trouble, is_quiet, job_of};
ghost use Rattle.chk_ctl_status.specs.Stores.{FoundBeside, FoundRest, FoundStore};

use chk_book::Book;
use chk_ctl_cat::find_book;
use chk_ctl_held::{Waiting, find_waiting};
use chk_ctl_status_rows::{OpenSink, Sinks, find_sinks};
use chk_record_index::JobFault;
use chk_site::{OutsideFault, Site, Who};
use std::alloc::Global;

/// So many seconds a sink under writing may be quiet. A collector closes a sink some time after it
/// was first seen, 300 s without its option `--rotate`.
pub const QUIET_SECONDS: u64 = 600;

/// What is seen of a store.
#[derive(Debug, Drop)]
pub struct StoreSeen {
    /// The archive's book, and the chunks that it sets aside.
    pub waiting: Waiting,
    /// The book of the records.
    pub split: Book,
    pub sinks: Sinks,
    /// How many bytes are free where the store is, where that is known.
    pub free: Option<u64>,
}

impl StoreSeen {
    /// Chunks are set aside, or a sink under writing is quiet for too long.
    pub fn has_trouble(&self) -> bool
        ensures { result ≡ has_trouble self.now }
    {
        self.waiting.heads.len() > 0 || one_is_quiet(self.sinks.unclosed.as_slice())
    }
}

/// One of the sinks is quiet for too long.
fn one_is_quiet(sinks: &[OpenSink]) -> bool
    ensures { result ≡ list_any (λ s. is_quiet s.quiet) sinks.now }
{
    sinks.iter().any(|sink| is_quiet(sink.quiet))
}

/// So many seconds are too many.
fn is_quiet(quiet: Option<u64>) -> bool
    ensures { result ≡ is_quiet quiet }
{
    match quiet {
        Some(seconds) => seconds >= QUIET_SECONDS,
        None => false,
    }
}

/// The books of the store in the site's folder, the chunks that are set aside, and the sinks. A
/// folder without a book has no stream. How long sinks are quiet, and what is free, isn't known.
///
/// It costs the reads of both books and of the aside segment, as `find_waiting` has them, one
/// listing, and two calls a sink under writing.
pub fn find_store<S: Site>(alloc: Global, site: &mut S, who: &Who) -> Result<StoreSeen, JobFault>
    requires job { who.now ≡ job }
    ensures told { FoundStore result (S.told site.old) (S.told site.new) }
    ensures own { Adds (S.told site.old) (S.told site.new) (Every (IsOf LooksAround)) }
    ensures only { IfErr result IsOfRead }
    ensures cause { JobCause (S.fault_count site.old) (S.fault_count site.new) result }
{
    match find_waiting(alloc, site, who, "archive") {
        Ok(waiting) => find_beside(alloc, site, who, waiting),
        Err(fault) => Err(fault),
    }
}

/// The rest, beside the archive.
fn find_beside<S: Site>(
    alloc: Global,
    site: &mut S,
    who: &Who,
    waiting: Waiting,
) -> Result<StoreSeen, JobFault>
    requires job { who.now ≡ job }
    ensures told { FoundBeside waiting result (S.told site.old) (S.told site.new) }
    ensures own { Adds (S.told site.old) (S.told site.new) (Every (IsOf LooksAround)) }
    ensures only { IfErr result IsOfRead }
    ensures cause { JobCause (S.fault_count site.old) (S.fault_count site.new) result }
{
    match find_book(alloc, site, who, "demux") {
        Ok(split) => find_rest(alloc, site, who, waiting, split),
        Err(fault) => Err(fault),
    }
}

/// The rest, beside both books.
fn find_rest<S: Site>(
    alloc: Global,
    site: &mut S,
    who: &Who,
    waiting: Waiting,
    split: Book,
) -> Result<StoreSeen, JobFault>
    requires job { who.now ≡ job }
    ensures told { FoundRest waiting split result (S.told site.old) (S.told site.new) }
    ensures own { Adds (S.told site.old) (S.told site.new) (Every (IsOf LooksAround)) }
    ensures only { IfErr result IsOfRead }
    ensures cause { JobCause (S.fault_count site.old) (S.fault_count site.new) result }
{
    match find_sinks(alloc, site, who) {
        Ok(sinks) => Ok(StoreSeen {
            waiting,
            split,
            sinks,
            free: None,
        }),
        Err(fault) => Err(job_of(fault)),
    }
}

/// A refusal of the site as one of the job's.
fn job_of(fault: OutsideFault) -> JobFault
    ensures { result ≡ job_of fault }
{
    match fault {
        OutsideFault::Outside { call } => JobFault::Outside { call },
        OutsideFault::NoMemory => JobFault::NoMemory,
    }
}
