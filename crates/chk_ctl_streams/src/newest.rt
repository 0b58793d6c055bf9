//! A stream that is printed on from the segments that are new in its book.

ghost use Rattle.std.specs.Prelude.{◌≡◌, ◌≤◌, length, drop, map, IfOk, IsTrue};
ghost use Rattle.chk_site.specs.History.{Every};
ghost use Rattle.chk_site.specs.Site.{Adds};
ghost use Rattle.chk_chunk.specs.Keys.{record_limit};
ghost use Rattle.chk_world.specs.Sight.{job};
ghost use Rattle.chk_world.specs.JobSteps.{IsOf};
ghost use Rattle.chk_book.specs.Books.{book_view, end_in};
ghost use Rattle.chk_book.specs.Folders.{is_folder};
ghost use Rattle.chk_ctl_cat.specs.Courses.{stream_of};
ghost use Rattle.chk_ctl_cat.specs.Faults.{FailsLast, LookCause};
ghost use Rattle.chk_ctl_cat.specs.Looking.{LooksOrSays};
ghost use Rattle.chk_ctl_streams.specs.Newest.{course_at, newest_result, PrintsNewest, PrintsNews};
ghost use Rattle.chk_ctl_streams.specs.Newest.{PrintsRest};
ghost use Rattle.chk_ctl_streams.specs.Going.{going_on, GoesOn};

use crate::going::{go_on, print_on};
use chk_book::{Book, Segment, Segments};
use chk_bytes::NoMemory;
use chk_ctl_cat::{Came, Course, LookFault, print_archive};
use chk_site::{Site, Who};
use std::alloc::Global;

/// What a look has seen of a book: the segments up to the number `last` have nothing of the stream
/// from the offset `end` on. A segment's number never stands for another one.
#[derive(Clone, Copy)]
pub(crate) struct Passed {
    last: u64,
    end: u64,
}

impl Passed {
    /// No book was seen.
    pub(crate) fn nothing() -> Passed {
        Passed { last: 0, end: 0 }
    }

    /// What is seen of this book.
    pub(crate) fn of(book: &Book, course: &Course<'_>) -> Passed {
        let last = match book.segments.as_slice().last() {
            Some(segment) => segment.number,
            None => 0,
        };
        let end = book.archived_end(course.source, course.kind, course.name);
        Passed { last, end }
    }

    /// How many of these segments, from the oldest one on, were seen before.
    fn count_in(&self, segments: &[Segment]) -> usize
        ensures { result ≤ length segments.now }
    {
        segments.partition_point(|segment| segment.number <= self.last)
    }
}

/// Prints what this book has more of the stream: of the segments that are new in it, where it names
/// some that were seen before, and else of all.
pub(crate) fn print_news<S: Site>(
    alloc: Global,
    site: &mut S,
    who: &Who,
    folder: &str,
    most: u32,
    books: u32,
    book: Book,
    passed: Passed,
    course: &mut Course<'_>,
) -> Result<Came, LookFault>
    requires job { who.now ≡ job }
    requires folder { IsTrue (is_folder folder.now) }
    requires most { most ≤ record_limit }
    ensures told { PrintsNews folder.now most books (book_view book) course.old course.new result
        (S.told site.old) (S.told site.new) }
    ensures own { Adds (S.told site.old) (S.told site.new) (Every (IsOf LooksOrSays)) }
    ensures last { Adds (S.told site.old) (S.told site.new) (FailsLast result) }
    ensures cause { LookCause (S.fault_count site.old) (S.fault_count site.new) result }
{
    let oldest = passed.count_in(book.segments.as_slice());
    if oldest == 0 || passed.end > course.begin {
        return print_on(alloc, site, who, folder, most, books, course);
    }
    match without_oldest(alloc, book, oldest) {
        Ok(newest) => print_rest(
            alloc, site, who, folder, most, books, &newest, passed.end, course,
        ),
        Err(_) => Err(LookFault::NoMemory),
    }
}

/// The book without so many of its oldest segments.
fn without_oldest(alloc: Global, book: Book, oldest: usize) -> Result<Book, NoMemory>
    requires { oldest ≤ length book.segments }
    ensures segments { IfOk result (λ b. (book_view b).segments
        ≡ drop oldest (book_view book).segments) }
    ensures ends { IfOk result (λ b. (book_view b).ends ≡ (book_view book).ends) }
{
    let mut book = book;
    book.segments = copy_of(alloc, &book.segments.as_slice()[oldest..])?;
    Ok(book)
}

/// A list of these segments.
fn copy_of(alloc: Global, segments: &[Segment]) -> Result<Segments, NoMemory>
    ensures { IfOk result (λ copy. copy ≡ segments.now) }
{
    let mut copy = Segments::new(alloc);
    for segment in segments {
        copy.push(*segment)?;
    }
    Ok(copy)
}

/// Prints what these segments have of the stream, whose records go on in them from the offset
/// `from`; and where they don't lead to its end, what the whole archive has from there on.
fn print_rest<S: Site>(
    alloc: Global,
    site: &mut S,
    who: &Who,
    folder: &str,
    most: u32,
    books: u32,
    newest: &Book,
    from: u64,
    course: &mut Course<'_>,
) -> Result<Came, LookFault>
    requires job { who.now ≡ job }
    requires folder { IsTrue (is_folder folder.now) }
    requires most { most ≤ record_limit }
    ensures told { PrintsRest folder.now most books (book_view newest.now).segments
        (end_in 0 (book_view newest.now).ends (stream_of course.old)) from course.old course.new
        result (S.told site.old) (S.told site.new) }
    ensures own { Adds (S.told site.old) (S.told site.new) (Every (IsOf LooksOrSays)) }
    ensures last { Adds (S.told site.old) (S.told site.new) (FailsLast result) }
    ensures cause { LookCause (S.fault_count site.old) (S.fault_count site.new) result }
{
    match print_newest(alloc, site, who, folder, most, newest, from, course) {
        Ok(true) => Ok(Came::Whole),
        Ok(false) => print_further(alloc, site, who, folder, most, books, course),
        Err(fault) => Err(fault),
    }
}

/// Prints what these segments have of the stream, whose records go on in them from the offset
/// `from`. It says whether they lead to its end in the book.
fn print_newest<S: Site>(
    alloc: Global,
    site: &mut S,
    who: &Who,
    folder: &str,
    most: u32,
    newest: &Book,
    from: u64,
    course: &mut Course<'_>,
) -> Result<bool, LookFault>
    requires job { who.now ≡ job }
    requires folder { IsTrue (is_folder folder.now) }
    requires most { most ≤ record_limit }
    ensures told { PrintsNewest folder.now most (book_view newest.now).segments
        (end_in 0 (book_view newest.now).ends (stream_of course.old)) from course.old course.new
        result (S.told site.old) (S.told site.new) }
    ensures own { Adds (S.told site.old) (S.told site.new) (Every (IsOf LooksOrSays)) }
    ensures last { Adds (S.told site.old) (S.told site.new) (FailsLast result) }
    ensures cause { LookCause (S.fault_count site.old) (S.fault_count site.new) result }
{
    begin_at(course, from, newest);
    let given = print_archive(alloc, site, who, folder, most, newest, course);
    newest_result(given, course)
}

/// The course came to this offset of its stream, which ends where the book says.
fn begin_at(course: &mut Course<'_>, from: u64, book: &Book)
    ensures { course.new ≡ course_at course.old from (end_in 0 (book_view book.now).ends
        (stream_of course.old)) }
{
    course.end = book.archived_end(course.source, course.kind, course.name);
    course.reached = from;
}

/// Whether all was printed up to the stream's end.
fn newest_result(given: Result<(), LookFault>, course: &Course<'_>) -> Result<bool, LookFault>
    ensures { result ≡ newest_result course.now given }
{
    match given {
        Ok(()) => Ok(course.reached == course.end),
        Err(LookFault::Damaged { .. }) => Ok(false),
        Err(LookFault::Gone { .. }) => Ok(false),
        Err(fault) => Err(fault),
    }
}

/// Prints what the whole archive has from the offset on that was come to.
fn print_further<S: Site>(
    alloc: Global,
    site: &mut S,
    who: &Who,
    folder: &str,
    most: u32,
    books: u32,
    course: &mut Course<'_>,
) -> Result<Came, LookFault>
    requires job { who.now ≡ job }
    requires folder { IsTrue (is_folder folder.now) }
    requires most { most ≤ record_limit }
    ensures told { GoesOn folder.now most books (going_on course.old) course.new result
        (S.told site.old) (S.told site.new) }
    ensures own { Adds (S.told site.old) (S.told site.new) (Every (IsOf LooksOrSays)) }
    ensures last { Adds (S.told site.old) (S.told site.new) (FailsLast result) }
    ensures cause { LookCause (S.fault_count site.old) (S.fault_count site.new) result }
{
    go_on(course);
    print_on(alloc, site, who, folder, most, books, course)
}
