//! One folder of a store.

ghost use Rattle.std.specs.Prelude.{◌≡◌, true, IsTrue, IfErr};
ghost use Rattle.chk_site.specs.History.{Every};
ghost use Rattle.chk_site.specs.Site.{Adds};
ghost use Rattle.chk_world.specs.JobSteps.{IsOf, ReadsFile};
ghost use Rattle.chk_world.specs.Sight.{job};
ghost use Rattle.chk_record_index.specs.Faults.{JobCause, FailsLast, IsOfRead};
ghost use Rattle.chk_book.specs.Books.{book_view};
ghost use Rattle.chk_book.specs.Folders.{is_folder};
ghost use Rattle.chk_ctl_cat.specs.Loading.{HasDamage};
ghost use Rattle.chk_record_reader.specs.Segments.{names_of};
ghost use Rattle.chk_ctl_verify_archive.specs.Verifying.{IsSame, SoundBook, Verified, VerifiedBy};

use chk_book::Book;
use chk_bytes::{NoMemory, Word};
use chk_ctl_cat::find_book;
use chk_join_sources::sound_heads;
use chk_record_index::JobFault;
use chk_record_reader::segment_names;
use chk_site::{Site, Who};
use std::alloc::Global;

/// How many looks may follow the first one.
const LOOKS: u64 = 64;

/// How many records the segments have that the folder's book names, where all of them are as they
/// have to be: the book is one, each segment is of chunks, and each stream's records go on from
/// its start to its end in the book. The aside segment isn't read, and a folder without a book
/// has no records.
///
/// `Damaged` comes with the name and the place of what was found first: of the book's first wrong
/// field; of a segment's place from which on it isn't one of chunks, which is 0 where it isn't
/// there; of a record that doesn't go on; or of the stream's end in the book, which its records
/// don't reach. Where a job replaces segments meanwhile a look may miss one, so damage is told
/// only where two looks in turn find the same, or where 64 looks behind the first one each found
/// another one.
///
/// A look costs the reads of the book and of each segment, in pieces of at most 1,048,576 bytes;
/// 32 bytes are held for a record. `Spent` never comes.
pub fn verify<S: Site>(
    alloc: Global,
    site: &mut S,
    who: &Who,
    folder: &str,
) -> Result<u64, JobFault>
    requires job { who.now ≡ job }
    requires folder { IsTrue (is_folder folder.now) }
    ensures told { VerifiedBy folder.now 64 result (S.told site.old) (S.told site.new) }
    ensures own { Adds (S.told site.old) (S.told site.new) (Every (IsOf ReadsFile)) }
    ensures only { IfErr result IsOfRead }
    ensures last { Adds (S.told site.old) (S.told site.new) (FailsLast result) }
    ensures cause { JobCause (S.fault_count site.old) (S.fault_count site.new) result }
{
    let mut given = verify_folder(alloc, site, who, folder);
    let mut left = LOOKS;
    while left > 0 {
        left -= 1;
        if !is_damaged(&given) {
            return given;
        }
        let again = verify_folder(alloc, site, who, folder);
        if is_same(&given, &again) {
            return again;
        }
        given = again;
    }
    given
}

/// Damage was found.
fn is_damaged(given: &Result<u64, JobFault>) -> bool
    ensures { HasDamage result given.now }
{
    matches!(given, Err(JobFault::Damaged { .. }))
}

/// The damage that was found before was found again.
fn is_same(before: &Result<u64, JobFault>, given: &Result<u64, JobFault>) -> bool
    requires { HasDamage true before.now }
    ensures { IsSame result before.now given.now }
{
    match (before, given) {
        (
            Err(JobFault::Damaged { name, at }),
            Err(
                JobFault::Damaged {
                    name: which,
                    at: place,
                },
            ),
        ) => which.as_str() == name.as_str() && place == at,
        _ => false,
    }
}

/// One look at the folder.
fn verify_folder<S: Site>(
    alloc: Global,
    site: &mut S,
    who: &Who,
    folder: &str,
) -> Result<u64, JobFault>
    requires job { who.now ≡ job }
    requires folder { IsTrue (is_folder folder.now) }
    ensures told { Verified folder.now result (S.told site.old) (S.told site.new) }
    ensures own { Adds (S.told site.old) (S.told site.new) (Every (IsOf ReadsFile)) }
    ensures only { IfErr result IsOfRead }
    ensures last { Adds (S.told site.old) (S.told site.new) (FailsLast result) }
    ensures cause { JobCause (S.fault_count site.old) (S.fault_count site.new) result }
{
    match find_book(alloc, site, who, folder) {
        Ok(book) => verify_book(alloc, site, who, folder, &book),
        Err(fault) => Err(fault),
    }
}

/// The segments that this book of the folder names.
fn verify_book<S: Site>(
    alloc: Global,
    site: &mut S,
    who: &Who,
    folder: &str,
    book: &Book,
) -> Result<u64, JobFault>
    requires job { who.now ≡ job }
    ensures raw { SoundBook folder.now (book_view book.now) result (S.told site.old)
        (S.told site.new) }
    ensures own { Adds (S.told site.old) (S.told site.new) (Every (IsOf ReadsFile)) }
    ensures only { IfErr result IsOfRead }
    ensures last { Adds (S.told site.old) (S.told site.new) (FailsLast result) }
    ensures cause { JobCause (S.fault_count site.old) (S.fault_count site.new) result }
{
    match segment_names(alloc, folder, book) {
        Ok(names) => verify_segments(alloc, site, who, folder, book, names.as_slice()),
        Err(NoMemory) => Err(JobFault::NoMemory),
    }
}

/// The segments of these names.
fn verify_segments<S: Site>(
    alloc: Global,
    site: &mut S,
    who: &Who,
    folder: &str,
    book: &Book,
    names: &[Word],
) -> Result<u64, JobFault>
    requires job { who.now ≡ job }
    requires names { names.now ≡ names_of folder.now (book_view book.now) }
    ensures raw { SoundBook folder.now (book_view book.now) result (S.told site.old)
        (S.told site.new) }
    ensures own { Adds (S.told site.old) (S.told site.new) (Every (IsOf ReadsFile)) }
    ensures only { IfErr result IsOfRead }
    ensures last { Adds (S.told site.old) (S.told site.new) (FailsLast result) }
    ensures cause { JobCause (S.fault_count site.old) (S.fault_count site.new) result }
{
    match sound_heads(book, alloc, site, who, folder, names) {
        Ok(heads) => Ok(heads.len() as u64),
        Err(fault) => Err(fault),
    }
}
