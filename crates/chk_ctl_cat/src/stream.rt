//! One stream's archive, as the book that is read names it.

ghost use Rattle.std.specs.Prelude.{◌≡◌, ◌≤◌, map, IsTrue, IfSome, IfNone, Some, None};
ghost use Rattle.chk_chunk.specs.Keys.{same_stream, record_limit};
ghost use Rattle.chk_site.specs.History.{Every};
ghost use Rattle.chk_site.specs.Site.{Adds};
ghost use Rattle.chk_world.specs.JobSteps.{IsOf};
ghost use Rattle.chk_world.specs.Sight.{job};
ghost use Rattle.chk_book.specs.Books.{book_view};
ghost use Rattle.chk_book.specs.Folders.{is_folder};
ghost use Rattle.chk_book.specs.Views.{end_view};
ghost use Rattle.chk_ctl_cat.specs.Archives.{names_of};
ghost use Rattle.chk_ctl_cat.specs.Courses.{stream_of};
ghost use Rattle.chk_ctl_cat.specs.Faults.{FailsLast, LookCause};
ghost use Rattle.chk_ctl_cat.specs.Looking.{LooksOrSays, Sees};
ghost use Rattle.chk_ctl_cat.specs.Streams.{course_from, end_of, IsCame, PrintedBy, Stage, Stays};

use crate::archive::print_archive;
use crate::course::Course;
use crate::fault::LookFault;
use crate::loading::{find_book, look_of};
use chk_book::{Book, End};
use chk_site::{Site, Who};
use std::alloc::Global;

/// What the archive of a stream came to.
#[derive(Clone, Copy, Debug, PartialEq, Eq)]
pub enum Came {
    /// It was printed up to the stream's end in the book.
    Whole,
    /// It was printed, and ends before the stream's end in the book.
    Short,
    /// The book has no such stream, and nothing was printed.
    Unknown,
}

/// Reads the book of a folder, and prints the archive of the stream that it names, from the offset `begin` of the course on.
/// The course is then where the printing came to; its start and its end are those in the book, and `begin` is kept.
///
/// After `Gone` the same call again reads the new book, and goes on where `begin` is raised to `reached`. It costs a read of
/// the book, as `find_book` does, and of each segment that it names; see `print_segment`.
pub fn print_stream<S: Site>(
    alloc: Global,
    site: &mut S,
    who: &Who,
    folder: &str,
    most: u32,
    course: &mut Course<'_>,
) -> Result<Came, LookFault>
    requires job { who.now ≡ job }
    requires folder { IsTrue (is_folder folder.now) }
    requires most { most ≤ record_limit }
    ensures told { Stage folder.now most course.old course.new result (S.told site.old) (S.told site.new) }
    ensures own { Adds (S.told site.old) (S.told site.new) (Every (IsOf LooksOrSays)) }
    ensures last { Adds (S.told site.old) (S.told site.new) (FailsLast result) }
    ensures cause { LookCause (S.fault_count site.old) (S.fault_count site.new) result }
{
    match find_book(alloc, site, who, folder) {
        Ok(book) => print_booked(alloc, site, who, folder, most, &book, course),
        Err(fault) => Err(look_of(fault)),
    }
}

/// Prints the archive of the stream that this book of the folder names.
fn print_booked<S: Site>(
    alloc: Global,
    site: &mut S,
    who: &Who,
    folder: &str,
    most: u32,
    book: &Book,
    course: &mut Course<'_>,
) -> Result<Came, LookFault>
    requires job { who.now ≡ job }
    requires folder { IsTrue (is_folder folder.now) }
    requires most { most ≤ record_limit }
    ensures told { Adds (S.told site.old) (S.told site.new)
        (Sees (PrintedBy most (names_of folder.now (book_view book.now).segments)
        (end_of (stream_of course.old) (book_view book.now).ends) course.old course.new result)) }
    ensures stays { Stays (end_of (stream_of course.old) (book_view book.now).ends) course.old course.new }
    ensures last { Adds (S.told site.old) (S.told site.new) (FailsLast result) }
    ensures cause { LookCause (S.fault_count site.old) (S.fault_count site.new) result }
{
    let Some(end) = end_of(book.ends.as_slice(), course) else {
        return Ok(Came::Unknown);
    };
    begin_at(course, end);
    print_archive(alloc, site, who, folder, most, book, course)?;
    Ok(outcome_of(course))
}

/// The course stands at the stream's start, of which this is the end in a book.
fn begin_at(course: &mut Course<'_>, end: &End)
    ensures { course.new ≡ course_from course.old (end_view end.now) }
{
    course.start = end.start;
    course.end = end.end;
    course.reached = end.start;
}

/// What the course came to.
fn outcome_of(course: &Course<'_>) -> Came
    ensures { IsCame course.now result }
{
    if course.reached == course.end {
        Came::Whole
    } else {
        Came::Short
    }
}

/// The end is that of the course's stream.
fn is_end(course: &Course<'_>, end: &End) -> bool
    ensures { result ≡ same_stream (stream_of course.now) (end_view end.now).stream }
{
    course.source == end.source.as_str()
        && course.kind == end.kind.as_str()
        && course.name == end.name.as_str()
}

/// The first end of the course's stream, if there is one.
fn end_of<'a>(ends: &'a [End], course: &Course<'_>) -> Option<&'a End>
    ensures some { IfSome result (λ end. end_of (stream_of course.now) (map end_view ends.now) ≡ Some (end_view end.now)) }
    ensures none { IfNone result (end_of (stream_of course.now) (map end_view ends.now) ≡ None) }
{
    for end in ends {
        if is_end(course, end) {
            return Some(end);
        }
    }
    None
}
