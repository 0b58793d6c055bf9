//! A stream that is looked at again and again.

ghost use Rattle.std.specs.Prelude.{◌≡◌, ◌≤◌, nat_lt, IsTrue};
ghost use Rattle.chk_site.specs.History.{Every};
ghost use Rattle.chk_site.specs.Runs.{MadeInTurn};
ghost use Rattle.chk_site.specs.Site.{Adds, OutsideCause};
ghost use Rattle.chk_chunk.specs.Keys.{record_limit};
ghost use Rattle.chk_world.specs.Sight.{job};
ghost use Rattle.chk_world.specs.JobSteps.{IsOf};
ghost use Rattle.chk_book.specs.Books.{book_view, end_in};
ghost use Rattle.chk_book.specs.Folders.{is_folder};
ghost use Rattle.chk_ctl_cat.specs.Courses.{stream_of};
ghost use Rattle.chk_ctl_cat.specs.Faults.{FailsLast, LookCause};
ghost use Rattle.chk_ctl_cat.specs.Looking.{LooksOrSays};
ghost use Rattle.chk_ctl_streams.specs.Following.{after_wait, Follows, HasShort, Looks, LooksAgain};
ghost use Rattle.chk_ctl_streams.specs.Following.{GoesPast, Turns, Waits, waiting};

use crate::going::go_on;
use crate::newest::{Passed, print_news};
use chk_book::Book;
use chk_ctl_cat::{Came, Course, LookFault, find_book, look_of};
use chk_site::{Call, OutsideFault, Site, Who, done};
use std::alloc::Global;

/// Milliseconds between two looks.
const PAUSE: u64 = 5_000;

/// Prints the archive of a stream from the offset `begin` of the course on, and looks for more
/// every 5,000 ms, so many times. A stream that the book doesn't have yet is looked for again.
///
/// It ends early where the records of the stream end before its end in the book, as `Short`, and
/// at the first refusal. A look that finds nothing new costs a read of the book. One that does
/// costs a read of each segment besides that the book of the look before didn't name; the first
/// one, and one by a book that names none of those segments, costs what `print_on` does, and so
/// does one more where the stream's records don't go on in the new segments.
pub fn follow<S: Site>(
    alloc: Global,
    site: &mut S,
    who: &Who,
    folder: &str,
    most: u32,
    books: u32,
    looks: u64,
    course: &mut Course<'_>,
) -> Result<Came, LookFault>
    requires job { who.now ≡ job }
    requires folder { IsTrue (is_folder folder.now) }
    requires most { most ≤ record_limit }
    ensures told { Follows folder.now most books looks course.old course.new result
        (S.told site.old) (S.told site.new) }
    ensures own { Adds (S.told site.old) (S.told site.new) (Every (IsOf LooksAgain)) }
    ensures last { Adds (S.told site.old) (S.told site.new) (FailsLast result) }
    ensures cause { LookCause (S.fault_count site.old) (S.fault_count site.new) result }
{
    let mut passed = Passed::nothing();
    let mut left = looks;
    while left > 0 {
        left -= 1;
        let came = turn(alloc, site, who, folder, most, books, &mut passed, course)?;
        if is_short(came) {
            return Ok(came);
        }
    }
    Ok(Came::Whole)
}

/// One look, and where it isn't refused or short the wait for the next one.
fn turn<S: Site>(
    alloc: Global,
    site: &mut S,
    who: &Who,
    folder: &str,
    most: u32,
    books: u32,
    passed: &mut Passed,
    course: &mut Course<'_>,
) -> Result<Came, LookFault>
    requires job { who.now ≡ job }
    requires folder { IsTrue (is_folder folder.now) }
    requires most { most ≤ record_limit }
    ensures told { Turns folder.now most books course.old course.new result (S.told site.old)
        (S.told site.new) }
    ensures own { Adds (S.told site.old) (S.told site.new) (Every (IsOf LooksAgain)) }
    ensures last { Adds (S.told site.old) (S.told site.new) (FailsLast result) }
    ensures cause { LookCause (S.fault_count site.old) (S.fault_count site.new) result }
{
    match look_on(alloc, site, who, folder, most, books, passed, course) {
        Ok(came) => wait_after(alloc, site, who, came),
        Err(fault) => Err(fault),
    }
}

/// Reads the book, and prints the stream on, where that has more of it than was come to.
fn look_on<S: Site>(
    alloc: Global,
    site: &mut S,
    who: &Who,
    folder: &str,
    most: u32,
    books: u32,
    passed: &mut Passed,
    course: &mut Course<'_>,
) -> Result<Came, LookFault>
    requires job { who.now ≡ job }
    requires folder { IsTrue (is_folder folder.now) }
    requires most { most ≤ record_limit }
    ensures told { Looks folder.now most books course.old course.new result (S.told site.old)
        (S.told site.new) }
    ensures own { Adds (S.told site.old) (S.told site.new) (Every (IsOf LooksOrSays)) }
    ensures last { Adds (S.told site.old) (S.told site.new) (FailsLast result) }
    ensures cause { LookCause (S.fault_count site.old) (S.fault_count site.new) result }
{
    match find_book(alloc, site, who, folder) {
        Ok(book) => print_past(alloc, site, who, folder, most, books, book, passed, course),
        Err(fault) => Err(look_of(fault)),
    }
}

/// Prints the stream on, where this book has more of it than was come to.
fn print_past<S: Site>(
    alloc: Global,
    site: &mut S,
    who: &Who,
    folder: &str,
    most: u32,
    books: u32,
    book: Book,
    passed: &mut Passed,
    course: &mut Course<'_>,
) -> Result<Came, LookFault>
    requires job { who.now ≡ job }
    requires folder { IsTrue (is_folder folder.now) }
    requires most { most ≤ record_limit }
    ensures told { GoesPast folder.now most books (book_view book) course.old course.new result
        (S.told site.old) (S.told site.new) }
    ensures own { Adds (S.told site.old) (S.told site.new) (Every (IsOf LooksOrSays)) }
    ensures last { Adds (S.told site.old) (S.told site.new) (FailsLast result) }
    ensures cause { LookCause (S.fault_count site.old) (S.fault_count site.new) result }
{
    let before = *passed;
    *passed = Passed::of(&book, course);
    if !is_past(&book, course) {
        return Ok(Came::Whole);
    }
    let given = print_news(alloc, site, who, folder, most, books, book, before, course);
    go_on(course);
    given
}

/// The stream's end in the book lies past the offset that is wanted.
fn is_past(book: &Book, course: &Course<'_>) -> bool
    ensures { result ≡ nat_lt course.now.begin (end_in 0 (book_view book.now).ends (stream_of
        course.now)) }
{
    course.begin < book.archived_end(course.source, course.kind, course.name)
}

/// Waits for the next look, but after one that is short.
fn wait_after<S: Site>(
    alloc: Global,
    site: &mut S,
    who: &Who,
    came: Came,
) -> Result<Came, LookFault>
    requires job { who.now ≡ job }
    ensures told { Waits came result (S.told site.old) (S.told site.new) }
    ensures own { Adds (S.told site.old) (S.told site.new) (Every (IsOf LooksAgain)) }
    ensures last { Adds (S.told site.old) (S.told site.new) (FailsLast result) }
    ensures cause { LookCause (S.fault_count site.old) (S.fault_count site.new) result }
{
    if is_short(came) {
        return Ok(came);
    }
    let waited = wait(alloc, site, who);
    after_wait(came, waited)
}

/// What came of a look, where a wait followed.
fn after_wait(came: Came, waited: Result<(), OutsideFault>) -> Result<Came, LookFault>
    ensures { result ≡ after_wait came waited }
{
    match waited {
        Ok(()) => Ok(came),
        Err(fault) => Err(LookFault::from(fault)),
    }
}

/// The records end before the end in the book.
fn is_short(came: Came) -> bool
    ensures { HasShort result came }
{
    matches!(came, Came::Short)
}

/// Waits until the next look.
fn wait<S: Site>(alloc: Global, site: &mut S, who: &Who) -> Result<(), OutsideFault>
    requires job { who.now ≡ job }
    ensures told { MadeInTurn waiting result (S.told site.old) (S.told site.new) }
    ensures cause { OutsideCause (S.fault_count site.old) (S.fault_count site.new) result }
{
    let waited = site.pause(alloc, who, PAUSE);
    done(Call::Pause, waited)
}
