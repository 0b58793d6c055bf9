//! The books of folders, and their segments.

ghost use Rattle.std.specs.Prelude.{◌≡◌, map, take, Some, IfOk, IsTrue, Ok, Err};
ghost use Rattle.chk_bytes.specs.Words.{is_word};
ghost use Rattle.chk_site.specs.History.{Every};
ghost use Rattle.chk_site.specs.Site.{Adds, OutsideCause};
ghost use Rattle.chk_world.specs.Sight.{job};
ghost use Rattle.chk_book.specs.Books.{book_view};
ghost use Rattle.chk_book.specs.Folders.{is_folder, most_in, segment_name};
ghost use Rattle.chk_book.specs.Views.{segment_view};
ghost use Rattle.chk_ctl_verify.specs.Calls.{Looks, Quiet};
ghost use Rattle.chk_ctl_verify.specs.Files.{ChunksSeen};
ghost use Rattle.chk_ctl_verify.specs.Names.{FoundBy};
ghost use Rattle.chk_ctl_verify.specs.Telling.{ToldIf};
ghost use Rattle.chk_ctl_verify.specs.Books.{
  numbers_of,
  BookChecked,
  DamageChecked,
  LeftChecked,
  NamedSeen,
  SegmentChecked,
  SegmentSeen,
  ToldUnless,
};
ghost use Rattle.chk_ctl_verify.specs.Walks.{EachChecked};

use crate::chunks::look_at_chunks;
use crate::folders::either;
use crate::telling::{tell_damage, tell_found};
use chk_book::{Book, Segment, names_segment, segment_name};
use chk_bytes::NoMemory;
use chk_ctl_cat::find_book;
use chk_ctl_verify_archive::verify;
use chk_record_index::JobFault;
use chk_record_reader::most_in;
use chk_site::{OutsideFault, Site, Who};
use std::alloc::Global;

/// What was found of a folder that has a book.
#[derive(Clone, Copy)]
pub struct Folder {
    /// How many records its segments have; 0 where damage was told.
    pub records: u64,
    /// Damage was told.
    pub damaged: bool,
}

/// Looks at the book of a folder, at its segments and at their records, as `verify` does, and at
/// the aside segment. Where `verify` finds damage, each other segment is looked at too.
pub(crate) fn check_book<S: Site>(
    alloc: Global,
    site: &mut S,
    who: &Who,
    folder: &str,
) -> Result<Folder, OutsideFault>
    requires job { who.now ≡ job }
    requires folder { IsTrue (is_folder folder.now) }
    ensures told { BookChecked folder.now result (S.told site.old) (S.told site.new) }
    ensures own { Adds (S.told site.old) (S.told site.new) (Every Looks) }
    ensures cause { OutsideCause (S.fault_count site.old) (S.fault_count site.new) result }
{
    match verify(alloc, site, who, folder) {
        Ok(records) => match check_left(alloc, site, who, folder, "", false) {
            Ok(damaged) => Ok(Folder { records, damaged }),
            Err(fault) => Err(fault),
        },
        Err(JobFault::Damaged { name, at }) => {
            check_damaged(alloc, site, who, folder, name.as_str(), at)
        }
        Err(JobFault::Outside { call }) => Err(OutsideFault::Outside { call }),
        Err(JobFault::Spent { .. }) => Err(OutsideFault::NoMemory),
        Err(JobFault::NoMemory) => Err(OutsideFault::NoMemory),
    }
}

/// Tells this damage, and looks at each other segment.
fn check_damaged<S: Site>(
    alloc: Global,
    site: &mut S,
    who: &Who,
    folder: &str,
    name: &str,
    at: u64,
) -> Result<Folder, OutsideFault>
    requires job { who.now ≡ job }
    requires folder { IsTrue (is_folder folder.now) }
    requires name { IsTrue (is_word name.now) }
    ensures told { DamageChecked folder.now name.now at result (S.told site.old)
        (S.told site.new) }
    ensures own { Adds (S.told site.old) (S.told site.new) (Every Looks) }
    ensures cause { OutsideCause (S.fault_count site.old) (S.fault_count site.new) result }
{
    match tell_damage(alloc, site, who, name, at) {
        Ok(damaged) => match check_left(alloc, site, who, folder, name, true) {
            Ok(_) => Ok(Folder {
                records: 0,
                damaged,
            }),
            Err(fault) => Err(fault),
        },
        Err(fault) => Err(fault),
    }
}

/// Looks at all segments of the folder's book, or at its aside segment alone, but at the one of the
/// name `told`.
fn check_left<S: Site>(
    alloc: Global,
    site: &mut S,
    who: &Who,
    folder: &str,
    told: &str,
    all: bool,
) -> Result<bool, OutsideFault>
    requires job { who.now ≡ job }
    requires folder { IsTrue (is_folder folder.now) }
    ensures told { LeftChecked folder.now told.now all result (S.told site.old)
        (S.told site.new) }
    ensures own { Adds (S.told site.old) (S.told site.new) (Every Looks) }
    ensures cause { OutsideCause (S.fault_count site.old) (S.fault_count site.new) result }
{
    match find_book(alloc, site, who, folder) {
        Ok(book) => check_named(alloc, site, who, folder, told, all, &book),
        Err(JobFault::Damaged { name, at }) => {
            tell_unless(alloc, site, who, told, name.as_str(), at)
        }
        Err(JobFault::Outside { call }) => Err(OutsideFault::Outside { call }),
        Err(JobFault::Spent { .. }) => Err(OutsideFault::NoMemory),
        Err(JobFault::NoMemory) => Err(OutsideFault::NoMemory),
    }
}

/// Tells the damage of a book, but where it was told before.
fn tell_unless<S: Site>(
    alloc: Global,
    site: &mut S,
    who: &Who,
    told: &str,
    name: &str,
    at: u64,
) -> Result<bool, OutsideFault>
    requires job { who.now ≡ job }
    requires name { IsTrue (is_word name.now) }
    ensures told { ToldUnless told.now name.now at result (S.told site.old) (S.told site.new) }
    ensures own { Adds (S.told site.old) (S.told site.new) (Every Looks) }
    ensures cause { OutsideCause (S.fault_count site.old) (S.fault_count site.new) result }
{
    if name == told {
        return Ok(false);
    }
    tell_damage(alloc, site, who, name, at)
}

/// Those of this book.
fn check_named<S: Site>(
    alloc: Global,
    site: &mut S,
    who: &Who,
    folder: &str,
    told: &str,
    all: bool,
    book: &Book,
) -> Result<bool, OutsideFault>
    requires job { who.now ≡ job }
    requires folder { IsTrue (is_folder folder.now) }
    ensures told { EachChecked (SegmentChecked folder.now told.now)
        (numbers_of all (book_view book.now)) result (S.told site.old) (S.told site.new) }
    ensures own { Adds (S.told site.old) (S.told site.new) (Every Looks) }
    ensures cause { OutsideCause (S.fault_count site.old) (S.fault_count site.new) result }
{
    match numbers_of(alloc, book, all) {
        Ok(numbers) => check_numbers(alloc, site, who, folder, told, numbers.as_slice()),
        Err(NoMemory) => Err(OutsideFault::NoMemory),
    }
}

/// The numbers of the book's segments.
fn numbers_of(alloc: Global, book: &Book, all: bool) -> Result<Vec<u64>, NoMemory>
    ensures { IfOk result (λ numbers. numbers.items ≡ numbers_of all (book_view book.now)) }
{
    let mut numbers = if all {
        named_numbers(alloc, book.segments.as_slice())?
    } else {
        Vec::new(alloc)
    };
    if let Some(segment) = &book.aside {
        numbers.push(segment.number)?;
    }
    Ok(numbers)
}

fn named_numbers(alloc: Global, segments: &[Segment]) -> Result<Vec<u64>, NoMemory>
    ensures { IfOk result (λ numbers. numbers.items
        ≡ map (λ g. g.number) (map segment_view segments.now)) }
{
    let mut numbers = Vec::new(alloc);
    for segment in segments {
        numbers.push(segment.number)?;
    }
    Ok(numbers)
}

/// Looks at the segments of these numbers.
fn check_numbers<S: Site>(
    alloc: Global,
    site: &mut S,
    who: &Who,
    folder: &str,
    told: &str,
    numbers: &[u64],
) -> Result<bool, OutsideFault>
    requires job { who.now ≡ job }
    requires folder { IsTrue (is_folder folder.now) }
    ensures told { EachChecked (SegmentChecked folder.now told.now) numbers.now result
        (S.told site.old) (S.told site.new) }
    ensures own { Adds (S.told site.old) (S.told site.new) (Every Looks) }
    ensures cause { OutsideCause (S.fault_count site.old) (S.fault_count site.new) result }
{
    let mut damaged = false;
    for number in numbers {
        match check_segment(alloc, site, who, folder, told, *number) {
            Ok(wrong) => damaged = either(damaged, wrong),
            Err(fault) => return Err(fault),
        }
    }
    Ok(damaged)
}

/// Looks at the segment of this number, and tells its damage.
fn check_segment<S: Site>(
    alloc: Global,
    site: &mut S,
    who: &Who,
    folder: &str,
    told: &str,
    number: u64,
) -> Result<bool, OutsideFault>
    requires job { who.now ≡ job }
    requires folder { IsTrue (is_folder folder.now) }
    ensures told { SegmentChecked folder.now told.now number result (S.told site.old)
        (S.told site.new) }
    ensures own { Adds (S.told site.old) (S.told site.new) (Every Looks) }
    ensures cause { OutsideCause (S.fault_count site.old) (S.fault_count site.new) result }
{
    match segment_name(alloc, folder, number) {
        Ok(name) => check_unless(alloc, site, who, folder, told, number, name.as_str()),
        Err(NoMemory) => Err(OutsideFault::NoMemory),
    }
}

/// The same by its name, but where its damage was told before.
fn check_unless<S: Site>(
    alloc: Global,
    site: &mut S,
    who: &Who,
    folder: &str,
    told: &str,
    number: u64,
    name: &str,
) -> Result<bool, OutsideFault>
    requires job { who.now ≡ job }
    requires folder { IsTrue (is_folder folder.now) }
    requires name { name.now ≡ segment_name folder.now number }
    requires word { IsTrue (is_word name.now) }
    ensures told { SegmentChecked folder.now told.now number result (S.told site.old)
        (S.told site.new) }
    ensures own { Adds (S.told site.old) (S.told site.new) (Every Looks) }
    ensures cause { OutsideCause (S.fault_count site.old) (S.fault_count site.new) result }
{
    if name == told {
        return Ok(false);
    }
    match find_segment(alloc, site, who, folder, number) {
        Ok(found) => tell_found(alloc, site, who, name, found),
        Err(fault) => Err(fault),
    }
}

/// The damage of a segment by one look, or by a second one where the first one found some.
fn find_segment<S: Site>(
    alloc: Global,
    site: &mut S,
    who: &Who,
    folder: &str,
    number: u64,
) -> Result<Option<u64>, OutsideFault>
    requires job { who.now ≡ job }
    requires folder { IsTrue (is_folder folder.now) }
    ensures told { IfOk result (λ found. FoundBy (SegmentSeen folder.now number) found
        (S.told site.old) (S.told site.new)) }
    ensures own { Adds (S.told site.old) (S.told site.new) (Every Quiet) }
    ensures cause { OutsideCause (S.fault_count site.old) (S.fault_count site.new) result }
{
    match look_at_segment(alloc, site, who, folder, number) {
        Ok(Some(_)) => look_again(alloc, site, who, folder, number),
        Ok(None) => Ok(None),
        Err(fault) => Err(fault),
    }
}

fn look_again<S: Site>(
    alloc: Global,
    site: &mut S,
    who: &Who,
    folder: &str,
    number: u64,
) -> Result<Option<u64>, OutsideFault>
    requires job { who.now ≡ job }
    requires folder { IsTrue (is_folder folder.now) }
    ensures told { IfOk result (λ found. SegmentSeen folder.now number found (S.told site.old)
        (S.told site.new)) }
    ensures own { Adds (S.told site.old) (S.told site.new) (Every Quiet) }
    ensures cause { OutsideCause (S.fault_count site.old) (S.fault_count site.new) result }
{
    look_at_segment(alloc, site, who, folder, number)
}

/// The place from which on the segment isn't one of chunks, 0 where it isn't there; none where the
/// folder's book doesn't name it (any more).
fn look_at_segment<S: Site>(
    alloc: Global,
    site: &mut S,
    who: &Who,
    folder: &str,
    number: u64,
) -> Result<Option<u64>, OutsideFault>
    requires job { who.now ≡ job }
    requires folder { IsTrue (is_folder folder.now) }
    ensures told { IfOk result (λ found. SegmentSeen folder.now number found (S.told site.old)
        (S.told site.new)) }
    ensures own { Adds (S.told site.old) (S.told site.new) (Every Quiet) }
    ensures cause { OutsideCause (S.fault_count site.old) (S.fault_count site.new) result }
{
    match find_book(alloc, site, who, folder) {
        Ok(book) => look_if_named(alloc, site, who, folder, &book, number),
        Err(JobFault::Damaged { .. }) => Ok(None),
        Err(JobFault::Outside { call }) => Err(OutsideFault::Outside { call }),
        Err(JobFault::Spent { .. }) => Err(OutsideFault::NoMemory),
        Err(JobFault::NoMemory) => Err(OutsideFault::NoMemory),
    }
}

/// The same of a segment that this book may name.
fn look_if_named<S: Site>(
    alloc: Global,
    site: &mut S,
    who: &Who,
    folder: &str,
    book: &Book,
    number: u64,
) -> Result<Option<u64>, OutsideFault>
    requires job { who.now ≡ job }
    ensures told { IfOk result (λ found. NamedSeen folder.now (book_view book.now) number found
        (S.told site.old) (S.told site.new)) }
    ensures own { Adds (S.told site.old) (S.told site.new) (Every Quiet) }
    ensures cause { OutsideCause (S.fault_count site.old) (S.fault_count site.new) result }
{
    if !names_segment(book, number) {
        return Ok(None);
    }
    look_at_named(alloc, site, who, folder, number)
}

/// The same of one that a book names.
fn look_at_named<S: Site>(
    alloc: Global,
    site: &mut S,
    who: &Who,
    folder: &str,
    number: u64,
) -> Result<Option<u64>, OutsideFault>
    requires job { who.now ≡ job }
    ensures told { IfOk result (λ found. ChunksSeen (most_in folder.now)
        (segment_name folder.now number) found (S.told site.old) (S.told site.new)) }
    ensures own { Adds (S.told site.old) (S.told site.new) (Every Quiet) }
    ensures cause { OutsideCause (S.fault_count site.old) (S.fault_count site.new) result }
{
    match segment_name(alloc, folder, number) {
        Ok(name) => look_at_chunks(alloc, site, who, name.as_str(), most_in(folder)),
        Err(NoMemory) => Err(OutsideFault::NoMemory),
    }
}
