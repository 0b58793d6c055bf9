//! What of one stream stands in a folder's segments.

ghost use Rattle.std.specs.Prelude.{◌≡◌, ◌≤◌, IsTrue, IfOk};
ghost use Rattle.chk_chunk.specs.Keys.{record_limit};
ghost use Rattle.chk_site.specs.Site.{Adds};
ghost use Rattle.chk_world.specs.Sight.{job};
ghost use Rattle.chk_book.specs.Books.{book_view};
ghost use Rattle.chk_book.specs.Folders.{is_folder, segment_name};
ghost use Rattle.chk_ctl_cat.specs.Archives.{names_of, PrintedAll};
ghost use Rattle.chk_ctl_cat.specs.Courses.{KeepsCourse};
ghost use Rattle.chk_ctl_cat.specs.Faults.{FailsLast, LookCause};
ghost use Rattle.chk_ctl_cat.specs.Looking.{Sees};
ghost use Rattle.chk_ctl_cat.specs.Segments.{Printed};

use crate::course::Course;
use crate::fault::LookFault;
use crate::segment::print_segment;
use chk_book::{Book, Segment, segment_name};
use chk_site::{Site, Who};
use std::alloc::Global;

/// Prints what the segments that the book of a folder names have of the stream, from the offset on that is wanted, and
/// goes on over its records. The aside segment isn't one of them.
///
/// Where a segment is damaged or isn't there, what stands in front of it was printed, and the course has come so far. Each
/// segment is read once; see `print_segment`.
pub fn print_archive<S: Site>(
    alloc: Global,
    site: &mut S,
    who: &Who,
    folder: &str,
    most: u32,
    book: &Book,
    course: &mut Course<'_>,
) -> Result<(), LookFault>
    requires job { who.now ≡ job }
    requires folder { IsTrue (is_folder folder.now) }
    requires most { most ≤ record_limit }
    ensures told { Adds (S.told site.old) (S.told site.new)
        (Sees (PrintedAll most (names_of folder.now (book_view book.now).segments) course.old course.new result)) }
    ensures keeps { KeepsCourse course.old course.new }
    ensures last { Adds (S.told site.old) (S.told site.new) (FailsLast result) }
    ensures cause { LookCause (S.fault_count site.old) (S.fault_count site.new) result }
{
    for segment in book.segments.as_slice() {
        print_numbered(alloc, site, who, folder, most, segment, course)?;
    }
    Ok(())
}

/// Prints what this segment of the folder has.
fn print_numbered<S: Site>(
    alloc: Global,
    site: &mut S,
    who: &Who,
    folder: &str,
    most: u32,
    segment: &Segment,
    course: &mut Course<'_>,
) -> Result<(), LookFault>
    requires job { who.now ≡ job }
    requires folder { IsTrue (is_folder folder.now) }
    requires most { most ≤ record_limit }
    ensures told { Adds (S.told site.old) (S.told site.new)
        (Sees (Printed most (segment_name folder.now segment.now.number) course.old course.new result)) }
    ensures keeps { KeepsCourse course.old course.new }
    ensures last { Adds (S.told site.old) (S.told site.new) (FailsLast result) }
    ensures cause { LookCause (S.fault_count site.old) (S.fault_count site.new) result }
{
    let name = segment_name(alloc, folder, segment.number)?;
    print_segment(alloc, site, who, name.as_str(), course, most)
}
