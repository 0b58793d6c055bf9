//! The digests of a folder's streams.

ghost use Rattle.std.specs.Prelude.{◌≡◌, length, IsTrue, IfErr, IfOk};
ghost use Rattle.chk_site.specs.History.{Every};
ghost use Rattle.chk_site.specs.Site.{Adds};
ghost use Rattle.chk_world.specs.Sight.{job};
ghost use Rattle.chk_world.specs.JobSteps.{IsOf, ReadsFile};
ghost use Rattle.chk_record_index.specs.Faults.{JobCause, FailsLast, IsOfRead};
ghost use Rattle.chk_book.specs.Books.{book_view};
ghost use Rattle.chk_book.specs.Folders.{is_folder};
ghost use Rattle.chk_record_reader.specs.Segments.{names_of};
ghost use Rattle.chk_ctl_sum.specs.Sums.{HasDamage, SummedBook, SummedFolder, SummedAgain};
ghost use Rattle.chk_ctl_sum.specs.Sums.{SummedRests};

use crate::digests::Digests;
use crate::rests::{Rest, whole_rests};
use crate::summing::sum_streams;
use chk_book::{Book, Ends, load_book};
use chk_bytes::{NoMemory, Word};
use chk_join_sources::{Side, sound_heads};
use chk_record_index::JobFault;
use chk_record_reader::segment_names;
use chk_site::{Site, Who};
use std::alloc::Global;

/// The streams of a book, and the digest of each one's archive, at the same place.
#[derive(Debug, Drop)]
pub struct Sums {
    pub ends: Ends,
    pub digests: Digests,
}

/// The SHA-256 of the archive of each stream that the folder's book names, in its order: of the
/// bytes of its records in the named segments, from its start to its end in the book. The aside
/// segment isn't read, and a folder without a book has no streams.
///
/// `Damaged` comes with the name and the place of what was found first: of the book's first wrong
/// field; of a segment's place from which on it isn't one of chunks, which is 0 where it isn't
/// there; of a record that doesn't go on; or of the stream's end in the book, which its records
/// don't reach. Where a job replaces segments meanwhile a look may miss one, so damage counts only
/// where a second look at once finds some, and that is told. `Spent` never comes.
///
/// A look costs the reads of the book and of each segment, in pieces of at most 1,048,576 bytes,
/// and those of the records, once more, in reads as large. Held are the book, 32 bytes for a
/// record and for a stream, and one piece.
pub fn sum<S: Site>(alloc: Global, site: &mut S, who: &Who, folder: &str) -> Result<Sums, JobFault>
    requires job { who.now ≡ job }
    requires folder { IsTrue (is_folder folder.now) }
    ensures told { SummedAgain folder.now result (S.told site.old) (S.told site.new) }
    ensures own { Adds (S.told site.old) (S.told site.new) (Every (IsOf ReadsFile)) }
    ensures only { IfErr result IsOfRead }
    ensures last { Adds (S.told site.old) (S.told site.new) (FailsLast result) }
    ensures cause { JobCause (S.fault_count site.old) (S.fault_count site.new) result }
{
    let given = sum_folder(alloc, site, who, folder);
    if !is_damaged(&given) {
        return given;
    }
    sum_folder(alloc, site, who, folder)
}

/// Damage was found.
fn is_damaged(given: &Result<Sums, JobFault>) -> bool
    ensures { HasDamage result given.now }
{
    matches!(given, Err(JobFault::Damaged { .. }))
}

/// One look at the folder.
fn sum_folder<S: Site>(
    alloc: Global,
    site: &mut S,
    who: &Who,
    folder: &str,
) -> Result<Sums, JobFault>
    requires job { who.now ≡ job }
    requires folder { IsTrue (is_folder folder.now) }
    ensures told { SummedFolder folder.now result (S.told site.old) (S.told site.new) }
    ensures own { Adds (S.told site.old) (S.told site.new) (Every (IsOf ReadsFile)) }
    ensures only { IfErr result IsOfRead }
    ensures last { Adds (S.told site.old) (S.told site.new) (FailsLast result) }
    ensures cause { JobCause (S.fault_count site.old) (S.fault_count site.new) result }
{
    match load_book(alloc, site, who, folder) {
        Ok(book) => match sum_book(alloc, site, who, folder, &book) {
            Ok(digests) => Ok(Sums {
                ends: book.ends,
                digests,
            }),
            Err(fault) => Err(fault),
        },
        Err(fault) => Err(fault),
    }
}

/// The digests of the streams of this book of the folder.
fn sum_book<S: Site>(
    alloc: Global,
    site: &mut S,
    who: &Who,
    folder: &str,
    book: &Book,
) -> Result<Digests, JobFault>
    requires job { who.now ≡ job }
    ensures raw { SummedBook folder.now (book_view book.now) result (S.told site.old)
        (S.told site.new) }
    ensures count { IfOk result (λ digests. length digests ≡ length (book_view book.now).ends) }
    ensures own { Adds (S.told site.old) (S.told site.new) (Every (IsOf ReadsFile)) }
    ensures only { IfErr result IsOfRead }
    ensures last { Adds (S.told site.old) (S.told site.new) (FailsLast result) }
    ensures cause { JobCause (S.fault_count site.old) (S.fault_count site.new) result }
{
    let ends = book.ends.as_slice();
    match whole_rests(alloc, ends) {
        Ok(rests) => sum_rests(alloc, site, who, folder, book, rests.as_slice()),
        Err(NoMemory) => Err(JobFault::NoMemory),
    }
}

/// The SHA-256 of the archived bytes of each of these streams from its offset on, in their order.
/// The streams are those of a book of the folder; what it says of damage is what `sum` does, but
/// that the first look decides.
///
/// It costs the reads of each segment, and those of the records once more, also of those in front
/// of an offset; for streams in the book's order one pass over the heads.
pub fn sum_rests<S: Site>(
    alloc: Global,
    site: &mut S,
    who: &Who,
    folder: &str,
    book: &Book,
    rests: &[Rest<'_>],
) -> Result<Digests, JobFault>
    requires job { who.now ≡ job }
    ensures raw { SummedRests folder.now (book_view book.now) rests.now result (S.told site.old)
        (S.told site.new) }
    ensures count { IfOk result (λ digests. length digests ≡ length rests.now) }
    ensures own { Adds (S.told site.old) (S.told site.new) (Every (IsOf ReadsFile)) }
    ensures only { IfErr result IsOfRead }
    ensures last { Adds (S.told site.old) (S.told site.new) (FailsLast result) }
    ensures cause { JobCause (S.fault_count site.old) (S.fault_count site.new) result }
{
    match segment_names(alloc, folder, book) {
        Ok(names) => sum_segments(alloc, site, who, folder, book, names.as_slice(), rests),
        Err(NoMemory) => Err(JobFault::NoMemory),
    }
}

/// The same, of the segments of these names.
fn sum_segments<S: Site>(
    alloc: Global,
    site: &mut S,
    who: &Who,
    folder: &str,
    book: &Book,
    names: &[Word],
    rests: &[Rest<'_>],
) -> Result<Digests, JobFault>
    requires job { who.now ≡ job }
    requires names { names.now ≡ names_of folder.now (book_view book.now) }
    ensures raw { SummedRests folder.now (book_view book.now) rests.now result (S.told site.old)
        (S.told site.new) }
    ensures count { IfOk result (λ digests. length digests ≡ length rests.now) }
    ensures own { Adds (S.told site.old) (S.told site.new) (Every (IsOf ReadsFile)) }
    ensures only { IfErr result IsOfRead }
    ensures last { Adds (S.told site.old) (S.told site.new) (FailsLast result) }
    ensures cause { JobCause (S.fault_count site.old) (S.fault_count site.new) result }
{
    match sound_heads(book, alloc, site, who, folder, names) {
        Ok(heads) => {
            let side = Side {
                names,
                heads: &heads,
            };
            sum_streams(alloc, site, who, &side, rests)
        }
        Err(fault) => Err(fault),
    }
}
