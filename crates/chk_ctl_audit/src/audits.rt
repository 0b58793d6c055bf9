//! The streams of a store that agents of a folder have.

ghost use Rattle.std.specs.Prelude.{◌≡◌, length, IfErr, IsTrue, Ok};
ghost use Rattle.chk_site.specs.History.{Every};
ghost use Rattle.chk_site.specs.Site.{Adds};
ghost use Rattle.chk_world.specs.Sight.{job};
ghost use Rattle.chk_record_index.specs.Faults.{IsOfRead, JobCause};
ghost use Rattle.chk_book.specs.Books.{book_view};
ghost use Rattle.chk_book.specs.Folders.{is_folder};
ghost use Rattle.chk_record_reader.specs.Segments.{names_of};
ghost use Rattle.chk_ctl_audit.specs.Audits.{Audited, AuditedAgain, AuditedBook, ComparedBy};
ghost use Rattle.chk_ctl_audit.specs.Audits.{compared_of, AuditedRests, HasDamage, LooksAtAudit};

use crate::agents::find_rests;
use crate::streams::audit_each;
use chk_book::{Book, load_book};
use chk_bytes::{NoMemory, Word};
use chk_ctl_sum::{Digests, Rest, sum_streams};
use chk_join_sources::{Side, sound_heads};
use chk_record_index::JobFault;
use chk_record_reader::segment_names;
use chk_site::{Site, Who};
use std::alloc::Global;

/// What an audit comes to.
#[derive(Clone, Copy, Debug, PartialEq, Eq)]
pub enum Compared {
    /// No stream of the book is in a checkpoint of these agents.
    Nothing,
    /// The log of each that is has all that its archive has, to the byte.
    Same,
    /// A log has other bytes, or doesn't have all of them, or no more.
    Differs,
}

/// Compares the archive of each stream that the folder's book names, and that the checkpoint of an
/// agent in the folder `agents` has, with its log, and prints a line for each. Says what
/// they come to.
///
/// Where the log begins that is there follows from the checkpoint's line and the sizes of the
/// generations up to its place. From there on, or from the stream's start, the SHA-256 of the
/// archived bytes is compared with that of the log's at the same offsets, generation by generation.
/// The lines are `same <source> <type> <name> start <offset> end <offset> sha256 <digest>`, with
/// `PART` and `log begins at <offset>` behind the offsets where the log has the first bytes no
/// more, and `DIFFERS at <offset>`, with `log begins at <offset>` too, and `archive <digest> log
/// <digest>`, or `log ends at <offset>`. The offset behind `at` is that of the first byte of the
/// archive that the log doesn't have: it has another one there, or ends. It is found by a second
/// reading of both, side by side. Where that finds none, since one of them was changed meanwhile,
/// the line is without it.
///
/// Damage is told before the first line, where a second look at once finds some too. It costs what
/// `sum` does, and the reads of each checkpoint and of each log, in pieces of 131,072 bytes, and
/// for each stream that differs once more those of its records and of its log, up to where they
/// part. A stream is looked for in all lines of its checkpoint.
pub fn audit<S: Site>(
    alloc: Global,
    site: &mut S,
    who: &Who,
    folder: &str,
) -> Result<Compared, JobFault>
    requires job { who.now ≡ job }
    requires folder { IsTrue (is_folder folder.now) }
    ensures told { AuditedAgain folder.now result (S.told site.old) (S.told site.new) }
    ensures own { Adds (S.told site.old) (S.told site.new) (Every LooksAtAudit) }
    ensures only { IfErr result IsOfRead }
    ensures cause { JobCause (S.fault_count site.old) (S.fault_count site.new) result }
{
    let given = audit_folder(alloc, site, who, folder);
    if !is_damaged(&given) {
        return given;
    }
    audit_folder(alloc, site, who, folder)
}

/// Damage was found.
fn is_damaged(given: &Result<Compared, JobFault>) -> bool
    ensures { HasDamage result given.now }
{
    matches!(given, Err(JobFault::Damaged { .. }))
}

/// One look.
fn audit_folder<S: Site>(
    alloc: Global,
    site: &mut S,
    who: &Who,
    folder: &str,
) -> Result<Compared, JobFault>
    requires job { who.now ≡ job }
    requires folder { IsTrue (is_folder folder.now) }
    ensures told { Audited folder.now result (S.told site.old) (S.told site.new) }
    ensures only { IfErr result IsOfRead }
    ensures cause { JobCause (S.fault_count site.old) (S.fault_count site.new) result }
{
    match load_book(alloc, site, who, folder) {
        Ok(book) => audit_book(alloc, site, who, folder, &book),
        Err(fault) => Err(fault),
    }
}

/// The same of the streams of this book of the folder.
fn audit_book<S: Site>(
    alloc: Global,
    site: &mut S,
    who: &Who,
    folder: &str,
    book: &Book,
) -> Result<Compared, JobFault>
    requires job { who.now ≡ job }
    ensures told { AuditedBook folder.now (book_view book.now) result (S.told site.old)
        (S.told site.new) }
    ensures only { IfErr result IsOfRead }
    ensures cause { JobCause (S.fault_count site.old) (S.fault_count site.new) result }
{
    let mut rests = Vec::new(alloc);
    let ends = book.ends.as_slice();
    find_rests(alloc, site, who, ends, &mut rests)?;
    audit_rests(alloc, site, who, folder, book, rests.as_slice())
}

/// The same of the streams that were found.
fn audit_rests<S: Site>(
    alloc: Global,
    site: &mut S,
    who: &Who,
    folder: &str,
    book: &Book,
    rests: &[Rest<'_>],
) -> Result<Compared, JobFault>
    requires job { who.now ≡ job }
    ensures told { AuditedRests folder.now (book_view book.now) rests.now result
        (S.told site.old) (S.told site.new) }
    ensures only { IfErr result IsOfRead }
    ensures cause { JobCause (S.fault_count site.old) (S.fault_count site.new) result }
{
    match segment_names(alloc, folder, book) {
        Ok(names) => audit_segments(alloc, site, who, folder, book, names.as_slice(), rests),
        Err(NoMemory) => Err(JobFault::NoMemory),
    }
}

/// The same, of the segments of these names.
fn audit_segments<S: Site>(
    alloc: Global,
    site: &mut S,
    who: &Who,
    folder: &str,
    book: &Book,
    names: &[Word],
    rests: &[Rest<'_>],
) -> Result<Compared, JobFault>
    requires job { who.now ≡ job }
    requires names { names.now ≡ names_of folder.now (book_view book.now) }
    ensures told { AuditedRests folder.now (book_view book.now) rests.now result
        (S.told site.old) (S.told site.new) }
    ensures only { IfErr result IsOfRead }
    ensures cause { JobCause (S.fault_count site.old) (S.fault_count site.new) result }
{
    match sound_heads(book, alloc, site, who, folder, names) {
        Ok(heads) => {
            let side = Side {
                names,
                heads: &heads,
            };
            match sum_streams(alloc, site, who, &side, rests) {
                Ok(digests) => compare(alloc, site, who, &side, rests, &digests),
                Err(fault) => Err(fault),
            }
        }
        Err(fault) => Err(fault),
    }
}

/// The same, whose archives have these digests.
fn compare<S: Site>(
    alloc: Global,
    site: &mut S,
    who: &Who,
    side: &Side<'_>,
    rests: &[Rest<'_>],
    digests: &Digests,
) -> Result<Compared, JobFault>
    requires job { who.now ≡ job }
    requires count { length digests.now ≡ length rests.now }
    ensures told { ComparedBy side.now rests.now digests.now result (S.told site.old)
        (S.told site.new) }
    ensures only { IfErr result IsOfRead }
    ensures cause { JobCause (S.fault_count site.old) (S.fault_count site.new) result }
{
    match audit_each(alloc, site, who, side, rests, digests.as_slice()) {
        Ok(same) => Ok(compared_of(rests, same)),
        Err(fault) => Err(fault),
    }
}

/// What all of these streams come to.
fn compared_of(rests: &[Rest<'_>], same: bool) -> Compared
    ensures { result ≡ compared_of rests.now same }
{
    match rests {
        [] => Compared::Nothing,
        [_, ..] if same => Compared::Same,
        _ => Compared::Differs,
    }
}
