//! The join.

ghost use Rattle.std.specs.Prelude.{◌≡◌, ℕ, List, IsTrue, IfErr, Option};
ghost use Rattle.chk_site.specs.Files.{File, Files, IsSettled};
ghost use Rattle.chk_site.specs.History.{Every};
ghost use Rattle.chk_site.specs.Site.{Adds};
ghost use Rattle.chk_site.specs.Runs.{anyhow, Leads};
ghost use Rattle.chk_replace.specs.Load.{Has};
ghost use Rattle.chk_replace.specs.Replace.{LeavesBoth};
ghost use Rattle.chk_world.specs.Places.{As};
ghost use Rattle.chk_world.specs.Rules.{Legal};
ghost use Rattle.chk_world.specs.Sight.{job, AtJob};
ghost use Rattle.chk_world.specs.JobSteps.{IsOf};
ghost use Rattle.chk_record_index.specs.Pieces.{AsksInPieces};
ghost use Rattle.chk_book.specs.Books.{book_view};
ghost use Rattle.chk_book.specs.Folders.{book_name};
ghost use Rattle.chk_archive_parts.specs.Publishing.{ReplacesBookOf};
ghost use Rattle.chk_record_reader.specs.Segments.{HasFiles, AreSettled};
ghost use Rattle.chk_join.specs.Joined.{can_join, reads_of, joined_folder, folder_book};
ghost use Rattle.chk_join.specs.Joined.{LeavesFolders, Joined, Kept};
ghost use Rattle.chk_join.specs.Publishing.{HoldsBook, EndsLegally, FinishedSo, WorkedSo};
ghost use Rattle.chk_join.specs.Publishing.{IsFinishFault, differ_fault};
ghost use Rattle.chk_join.specs.Cleaned.{IsCleaned};
ghost use Rattle.chk_join.specs.Names.{IsStrayNumber};
ghost use Rattle.chk_join.specs.Faults.{IsJoinFault, JoinsBy, JoinFailsLast, JoinCause};

use crate::fault::JoinFault;
use crate::preparing::{Prepared, prepare};
use crate::publishing::publish;
use crate::report::JoinReport;
use chk_book::Book;
use chk_join_sources::Difference;
use chk_site::{Site, Who};
use std::alloc::Global;

/// Joins the archives in the folders `left` and `right` into `joined`: of each stream the records of the one that has more bytes,
/// those of `left` where both have as many, unchanged and in byte order of the streams, as one segment that the new book names
/// alone; none where there are no streams. Aside segments aren't read.
///
/// Segments of `joined` that its book doesn't name are removed first, and of the old ones that it names only the book is read; they
/// go in the next run. `Damaged` comes where one of the three books isn't in its grammar, in the order `joined`, `left`, `right`;
/// else where a segment of `left`, and then one of `right`, isn't of chunks, or a stream's records don't run as the book says.
/// `Differ` comes for the first stream in byte order that both have and of which the starts or the bytes differ. `Spent` comes
/// where there are streams and the next number is 2^63 - 1. Nothing is written before that.
///
/// Each segment is read once for its heads, and each record once more for each reading that wants it: where both archives have its
/// stream, to be compared, and where it is copied. Held are 32 bytes a record, a window of each side, and what the segment's writer
/// holds.
pub fn join<S: Site>(
    alloc: Global,
    site: &mut S,
    who: &Who,
    left: &str,
    right: &str,
) -> Result<JoinReport, JoinFault>
    requires job { who.now ≡ job }
    requires left { IsTrue (can_join left.now) }
    requires right { IsTrue (can_join right.now) }
    ensures raw { (held : Files) → AreSettled (reads_of held left.now right.now) held → Adds (S.told site.old) (S.told site.new)
        (Leads (anyhow (LeavesFolders left.now right.now)) (HasFiles (reads_of held left.now right.now) held)
        (Joined held left.now right.now result)) }
    ensures kept { (held : Files) → AreSettled (reads_of held left.now right.now) held → Adds (S.told site.old) (S.told site.new)
        (Leads (anyhow (LeavesFolders left.now right.now)) (HasFiles (reads_of held left.now right.now) held)
        (Kept held left.now right.now result)) }
    ensures told { (stamped : List (List ℕ)) → Adds (S.told site.old) (S.told site.new)
        (Leads (As stamped job) (Legal stamped) (EndsLegally stamped result)) }
    ensures strays { (held : Files) (k : ℕ) → AreSettled (reads_of held left.now right.now) held
        → IsStrayNumber (folder_book held joined_folder) k → (k ≡ (folder_book held joined_folder).next → ⊥)
        → Adds (S.told site.old) (S.told site.new) (Leads (anyhow (LeavesFolders left.now right.now))
        (HasFiles (reads_of held left.now right.now) held) (IsCleaned k result)) }
    ensures own { Adds (S.told site.old) (S.told site.new) (Every (IsOf JoinsBy)) }
    ensures pieces { Adds (S.told site.old) (S.told site.new) (Every AsksInPieces) }
    ensures only { IfErr result IsJoinFault }
    ensures last { Adds (S.told site.old) (S.told site.new) (JoinFailsLast result) }
    ensures cause { JoinCause (S.fault_count site.old) (S.fault_count site.new) result }
{
    match prepare(alloc, site, who, left, right) {
        Ok(Prepared::Ready { book, report }) => finish(alloc, site, who, &book, report),
        Ok(Prepared::Differs { found }) => Err(differing(found)),
        Err(fault) => Err(JoinFault::from(fault)),
    }
}

/// Publishes the book, and reports what was written.
fn finish<S: Site>(
    alloc: Global,
    site: &mut S,
    who: &Who,
    book: &Book,
    report: JoinReport,
) -> Result<JoinReport, JoinFault>
    requires job { who.now ≡ job }
    ensures told { (stamped : List (List ℕ)) → Adds (S.told site.old) (S.told site.new)
        (Leads (As stamped job) (AtJob stamped (HoldsBook (book_view book.now))) (EndsLegally stamped result)) }
    ensures raw { (f : Option File) → IsSettled f → Adds (S.told site.old) (S.told site.new)
        (Leads (anyhow (LeavesBoth (book_name joined_folder))) (Has (book_name joined_folder) f)
        (FinishedSo f (book_view book.now) report result)) }
    ensures works { Adds (S.told site.old) (S.told site.new) (WorkedSo (ReplacesBookOf joined_folder) result) }
    ensures only { IfErr result IsFinishFault }
    ensures cause { JoinCause (S.fault_count site.old) (S.fault_count site.new) result }
{
    match publish(alloc, site, who, book) {
        Ok(()) => Ok(report),
        Err(fault) => Err(JoinFault::from(fault)),
    }
}

/// The fault of this difference.
fn differing(found: Difference) -> JoinFault
    ensures { result ≡ differ_fault found }
{
    let Difference {
        source,
        kind,
        name,
        at,
    } = found;
    JoinFault::Differ {
        source,
        kind,
        name,
        at,
    }
}
