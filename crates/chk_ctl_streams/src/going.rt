//! A stream that is printed on from book to book.

ghost use Rattle.std.specs.Prelude.{◌≡◌, ◌≤◌, true, IsTrue};
ghost use Rattle.chk_site.specs.History.{Every};
ghost use Rattle.chk_site.specs.Site.{Adds};
ghost use Rattle.chk_chunk.specs.Keys.{record_limit};
ghost use Rattle.chk_world.specs.Sight.{job};
ghost use Rattle.chk_world.specs.JobSteps.{IsOf};
ghost use Rattle.chk_book.specs.Folders.{is_folder};
ghost use Rattle.chk_ctl_cat.specs.Faults.{FailsLast, LookCause};
ghost use Rattle.chk_ctl_cat.specs.Looking.{LooksOrSays};
ghost use Rattle.chk_ctl_streams.specs.Going.{going_on, GoesOn, HasGone, IsSameLoss};

use chk_ctl_cat::{Came, Course, LookFault, print_stream};
use chk_site::{Site, Who};
use std::alloc::Global;

/// Prints the archive of a stream from the offset `begin` of the course on, as the folder's book
/// names it. Where a segment isn't there any more, since a job put another one in its place, the
/// new book is read, and what it names is printed from the offset on that was come to. That the
/// new book has the same bytes below it is the job's rule.
///
/// `Gone` comes where two books in turn name the same segment that isn't there, and where no more
/// than `books` further ones are to be read. It costs what `print_stream` does, for each book
/// that is read.
pub fn print_on<S: Site>(
    alloc: Global,
    site: &mut S,
    who: &Who,
    folder: &str,
    most: u32,
    books: u32,
    course: &mut Course<'_>,
) -> Result<Came, LookFault>
    requires job { who.now ≡ job }
    requires folder { IsTrue (is_folder folder.now) }
    requires most { most ≤ record_limit }
    ensures told { GoesOn folder.now most books course.old course.new result (S.told site.old)
        (S.told site.new) }
    ensures own { Adds (S.told site.old) (S.told site.new) (Every (IsOf LooksOrSays)) }
    ensures last { Adds (S.told site.old) (S.told site.new) (FailsLast result) }
    ensures cause { LookCause (S.fault_count site.old) (S.fault_count site.new) result }
{
    let mut given = print_stream(alloc, site, who, folder, most, course);
    let mut left = books;
    while left > 0 {
        left -= 1;
        if !is_gone(&given) {
            return given;
        }
        go_on(course);
        let again = print_stream(alloc, site, who, folder, most, course);
        if is_same_loss(&given, &again) {
            return again;
        }
        given = again;
    }
    given
}

/// A segment that the book named isn't there.
fn is_gone(given: &Result<Came, LookFault>) -> bool
    ensures { HasGone result given.now }
{
    matches!(given, Err(LookFault::Gone { .. }))
}

/// It is the same one as before, of which this was told.
fn is_same_loss(before: &Result<Came, LookFault>, given: &Result<Came, LookFault>) -> bool
    requires { HasGone true before.now }
    ensures { IsSameLoss result before.now given.now }
{
    match (before, given) {
        (Err(LookFault::Gone { name }), Err(LookFault::Gone { name: again })) => {
            again.as_str() == name.as_str()
        }
        _ => false,
    }
}

/// The course wants what it hasn't come to.
pub(crate) fn go_on(course: &mut Course<'_>)
    ensures { course.new ≡ going_on course.old }
{
    course.begin = course.begin.max(course.reached);
}
