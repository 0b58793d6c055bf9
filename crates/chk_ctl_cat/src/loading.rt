//! The book of a folder, as one who only looks reads it.

ghost use Rattle.std.specs.Prelude.{◌≡◌, IsTrue, IfErr};
ghost use Rattle.chk_site.specs.History.{Every};
ghost use Rattle.chk_site.specs.Site.{Adds};
ghost use Rattle.chk_world.specs.JobSteps.{IsOf, ReadsFile};
ghost use Rattle.chk_world.specs.Sight.{job};
ghost use Rattle.chk_record_index.specs.Faults.{FailsLast, JobCause, IsOfRead};
ghost use Rattle.chk_book.specs.Folders.{is_folder};
ghost use Rattle.chk_book.specs.Loaded.{book_result};
ghost use Rattle.chk_ctl_cat.specs.Loading.{BookFound, HasDamage};
ghost use Rattle.chk_ctl_cat.specs.Streams.{look_of};

use crate::fault::LookFault;
use chk_book::{Book, load_book};
use chk_record_index::JobFault;
use chk_site::{Site, Who};
use std::alloc::Global;

/// The book of a folder, the empty one where there is none. Where a job publishes a book while the old one is read, the
/// pieces that are read may be of both: so a book that is damaged is read once more, and that is told.
///
/// `Damaged` comes with the book's name and the place of its first wrong field. `Spent` never comes. It costs the book's
/// length, and holds all of it meanwhile.
pub fn find_book<S: Site>(
    alloc: Global,
    site: &mut S,
    who: &Who,
    folder: &str,
) -> Result<Book, JobFault>
    requires job { who.now ≡ job }
    requires folder { IsTrue (is_folder folder.now) }
    ensures told { BookFound folder.now (book_result result) (S.told site.old) (S.told site.new) }
    ensures own { Adds (S.told site.old) (S.told site.new) (Every (IsOf ReadsFile)) }
    ensures only { IfErr result IsOfRead }
    ensures last { Adds (S.told site.old) (S.told site.new) (FailsLast result) }
    ensures cause { JobCause (S.fault_count site.old) (S.fault_count site.new) result }
{
    let given = load_book(alloc, site, who, folder);
    if !is_damaged(&given) {
        return given;
    }
    load_book(alloc, site, who, folder)
}

/// Damage was found.
fn is_damaged(given: &Result<Book, JobFault>) -> bool
    ensures { HasDamage result (book_result given.now) }
{
    matches!(given, Err(JobFault::Damaged { .. }))
}

/// A refusal of a read of the job's as one of a look.
pub fn look_of(fault: JobFault) -> LookFault
    requires { IsOfRead fault }
    ensures { result ≡ look_of fault }
{
    match fault {
        JobFault::Outside { call } => LookFault::Outside { call },
        JobFault::Damaged { name, at } => LookFault::Damaged { name, at },
        JobFault::Spent { .. } => unreachable!(),
        JobFault::NoMemory => LookFault::NoMemory,
    }
}
