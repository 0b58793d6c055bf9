//! Streams of a store.

ghost use Rattle.std.specs.Prelude.{◌≡◌, ◌≤◌, IsTrue};
ghost use Rattle.chk_site.specs.History.{Every};
ghost use Rattle.chk_site.specs.Site.{Adds};
ghost use Rattle.chk_chunk.specs.Keys.{record_limit};
ghost use Rattle.chk_world.specs.JobSteps.{IsOf};
ghost use Rattle.chk_world.specs.Sight.{job};
ghost use Rattle.chk_book.specs.Folders.{is_folder};
ghost use Rattle.chk_ctl_cat.specs.Faults.{LookCause};
ghost use Rattle.chk_ctl_streams.specs.Following.{LooksAgain};
ghost use Rattle.chk_ctl_line.specs.Commands.{cat_of};
ghost use Rattle.chk_ctl_run.specs.Outcomes.{OutcomeCause};
ghost use Rattle.chk_ctl_run.specs.Finding.{InStore};
ghost use Rattle.chk_ctl_run.specs.Runs.{folder_of, most_of, IsCourseOf, PrintsBy, ShowsFrom};
ghost use Rattle.chk_ctl_run.specs.Runs.{ShowsStream, ShowsStreams};

use crate::finding::find_archive;
use crate::outcome::{Outcome, listed_as, shown_as};
use chk_ctl_cat::{Came, Course, LookFault};
use chk_ctl_line::CatWords;
use chk_ctl_streams::{follow, print_on, print_streams};
use chk_site::{Site, Who};
use std::alloc::Global;

/// The folder of the archive, and that of the records.
pub(crate) const ARCHIVE: &str = "archive";

pub(crate) const RECORDS: &str = "demux";

/// The most bytes of an archived chunk.
const CHUNK: u32 = 131_072;

/// The most bytes of a record.
const RECORD: u32 = 1_048_576;

/// So many books more are read at most, where each names a segment that isn't there, and each
/// another one.
const BOOKS: u32 = 64;

/// How often a stream that is followed is looked at.
const LOOKS: u64 = (1 << 63) - 1;

/// Prints a line for each stream of the store.
pub(crate) fn show_streams<S: Site>(alloc: Global, site: &mut S, who: &Who) -> Outcome
    requires job { who.now ≡ job }
    ensures told { InStore ShowsStreams result (S.told site.old) (S.told site.new) }
    ensures own { Adds (S.told site.old) (S.told site.new) (Every (IsOf LooksAgain)) }
    ensures cause { OutcomeCause (S.fault_count site.old) (S.fault_count site.new) result }
{
    match find_archive(alloc, site, who) {
        Ok(()) => list_streams(alloc, site, who),
        Err(outcome) => outcome,
    }
}

/// The same of a store that has an archive.
fn list_streams<S: Site>(alloc: Global, site: &mut S, who: &Who) -> Outcome
    requires job { who.now ≡ job }
    ensures told { ShowsStreams result (S.told site.old) (S.told site.new) }
    ensures own { Adds (S.told site.old) (S.told site.new) (Every (IsOf LooksAgain)) }
    ensures cause { OutcomeCause (S.fault_count site.old) (S.fault_count site.new) result }
{
    let given = print_streams(alloc, site, who, ARCHIVE, RECORDS);
    listed_as(given)
}

/// Prints what the store has of a stream, from an offset on.
pub(crate) fn show_stream<S: Site>(
    alloc: Global,
    site: &mut S,
    who: &Who,
    words: &CatWords<'_>,
) -> Outcome
    requires job { who.now ≡ job }
    ensures told { InStore (ShowsStream (cat_of words.now)) result (S.told site.old)
        (S.told site.new) }
    ensures own { Adds (S.told site.old) (S.told site.new) (Every (IsOf LooksAgain)) }
    ensures cause { OutcomeCause (S.fault_count site.old) (S.fault_count site.new) result }
{
    match find_archive(alloc, site, who) {
        Ok(()) => print_asked(alloc, site, who, words),
        Err(outcome) => outcome,
    }
}

/// The same of a store that has an archive.
fn print_asked<S: Site>(alloc: Global, site: &mut S, who: &Who, words: &CatWords<'_>) -> Outcome
    requires job { who.now ≡ job }
    ensures told { ShowsStream (cat_of words.now) result (S.told site.old) (S.told site.new) }
    ensures own { Adds (S.told site.old) (S.told site.new) (Every (IsOf LooksAgain)) }
    ensures cause { OutcomeCause (S.fault_count site.old) (S.fault_count site.new) result }
{
    let given = show_from(alloc, site, who, words);
    shown_as(given)
}

/// Prints what the folder has of the stream.
fn show_from<S: Site>(
    alloc: Global,
    site: &mut S,
    who: &Who,
    words: &CatWords<'_>,
) -> Result<Came, LookFault>
    requires job { who.now ≡ job }
    ensures told { ShowsFrom (cat_of words.now) result (S.told site.old) (S.told site.new) }
    ensures own { Adds (S.told site.old) (S.told site.new) (Every (IsOf LooksAgain)) }
    ensures cause { LookCause (S.fault_count site.old) (S.fault_count site.new) result }
{
    let folder = folder_of(words);
    let most = most_of(words);
    let mut course = course_of(words);
    print_by(words.follow, alloc, site, who, folder, most, &mut course)
}

/// The stream is printed on, or looked at again and again.
fn print_by<S: Site>(
    again: bool,
    alloc: Global,
    site: &mut S,
    who: &Who,
    folder: &str,
    most: u32,
    course: &mut Course<'_>,
) -> Result<Came, LookFault>
    requires job { who.now ≡ job }
    requires folder { IsTrue (is_folder folder.now) }
    requires most { most ≤ record_limit }
    ensures told { PrintsBy again folder.now most course.old course.new result (S.told site.old)
        (S.told site.new) }
    ensures own { Adds (S.told site.old) (S.told site.new) (Every (IsOf LooksAgain)) }
    ensures cause { LookCause (S.fault_count site.old) (S.fault_count site.new) result }
{
    if again {
        return follow(alloc, site, who, folder, most, BOOKS, LOOKS, course);
    }
    print_on(alloc, site, who, folder, most, BOOKS, course)
}

/// The course at the offset that is asked for, in the stream that is.
fn course_of<'a>(words: &CatWords<'a>) -> Course<'a>
    ensures { IsCourseOf (cat_of words.now) result }
{
    Course {
        source: words.source,
        kind: words.kind,
        name: words.name,
        start: 0,
        end: 0,
        begin: words.begin,
        reached: 0,
    }
}

/// The folder of what is wanted of the stream.
fn folder_of<'a>(words: &CatWords<'_>) -> &'a str
    ensures text { result.now ≡ folder_of (cat_of words.now) }
    ensures folder { IsTrue (is_folder result.now) }
{
    if words.records { RECORDS } else { ARCHIVE }
}

/// The most bytes of a record there.
fn most_of(words: &CatWords<'_>) -> u32
    ensures is { result ≡ most_of (cat_of words.now) }
    ensures few { result ≤ record_limit }
{
    if words.records { RECORD } else { CHUNK }
}
