//! A folder's next book is published.

ghost use Rattle.std.specs.Prelude.{◌≡◌, ◌+◌, ◌<◌, ℕ, true, List, length, map, option_map, slice_index_or, IsTrue};
ghost use Rattle.std.specs.List.{list_all};
ghost use Rattle.chk_bytes.specs.Stems.{is_count};
ghost use Rattle.chk_chunk.specs.Keys.{stream_lt};
ghost use Rattle.chk_site.specs.History.{Every};
ghost use Rattle.chk_site.specs.Site.{Adds, LastFailed, OutsideCause};
ghost use Rattle.chk_site.specs.Runs.{Leads};
ghost use Rattle.chk_world.specs.Names.{Folder, folder_text};
ghost use Rattle.chk_world.specs.Books.{is_book, is_segment, is_end, is_aside, written_version};
ghost use Rattle.chk_world.specs.Places.{As};
ghost use Rattle.chk_world.specs.Sight.{job, Sight, AtJob};
ghost use Rattle.chk_world.specs.JobSteps.{IsOf};
ghost use Rattle.chk_book.specs.Folders.{is_folder};
ghost use Rattle.chk_book.specs.Books.{book_view};
ghost use Rattle.chk_book.specs.Views.{segment_view, end_view};
ghost use Rattle.chk_archive_parts.specs.Publishing.{MayFollow, Published, ReplacesBookOf, NumbersRise, StreamsRise};

use chk_book::{Book, End, Segment, has_number};
use chk_site::{OutsideFault, Site, Who};
use std::alloc::Global;

/// A book has fewer segments, and fewer streams.
const MANY: usize = 1 << 32;

/// Publishes the folder's next book, which is the old one or this one at every moment. One that can't be spelled, as with 2^32
/// streams, counts as want of memory. It costs five calls.
pub fn publish_next<S: Site>(
    alloc: Global,
    site: &mut S,
    who: &Who,
    book: &Book,
    folder: &str,
) -> Result<(), OutsideFault>
    requires job { who.now ≡ job }
    requires folder { IsTrue (is_folder folder.now) }
    ensures told { (stamped : List (List ℕ)) (f : Folder) (v : Sight) → (folder.now ≡ folder_text f)
        → MayFollow stamped f v (book_view book.now) → Adds (S.told site.old) (S.told site.new)
        (Leads (As stamped job) (AtJob stamped (λ u. u ≡ v)) (Published stamped f v (book_view book.now) result)) }
    ensures own { Adds (S.told site.old) (S.told site.new) (Every (IsOf (ReplacesBookOf folder.now))) }
    ensures last { Adds (S.told site.old) (S.told site.new) (LastFailed result) }
    ensures cause { OutsideCause (S.fault_count site.old) (S.fault_count site.new) result }
{
    if !can_be_spelled(book) {
        return Err(OutsideFault::NoMemory);
    }
    book.write(alloc, site, who, folder)
}

/// The book can be spelled: its numbers are in their ranges, and its segments and streams rise. It goes
/// over both once.
pub fn can_be_spelled(book: &Book) -> bool
    ensures { result ≡ true → IsTrue (is_book (written_version (book_view book.now)) (book_view book.now)) }
{
    let segments = book.segments.as_slice();
    let ends = book.ends.as_slice();
    if !is_number(book.next) || segments.len() >= MANY || ends.len() >= MANY {
        return false;
    }
    if !are_segments(book.next, segments) || !segments_rise(segments) {
        return false;
    }
    if !are_ends(ends) || !ends_rise(ends) {
        return false;
    }
    is_aside(book.next, segments, &book.aside)
}

/// It can be a segment's number.
fn is_number(number: u64) -> bool
    ensures { result ≡ is_count number }
{
    number > 0 && number < 1 << 63
}

/// The book whose next number is `next` can name the segment.
fn is_segment(next: u64, segment: &Segment) -> bool
    ensures { result ≡ is_segment next (segment_view segment.now) }
{
    is_number(segment.number)
        && segment.number < next
        && segment.length >= 96
        && segment.length < 1 << 63
}

fn are_segments(next: u64, segments: &[Segment]) -> bool
    ensures { result ≡ list_all (λ g. is_segment next (segment_view g)) segments.now }
{
    segments.iter().all(|segment| is_segment(next, segment))
}

/// The numbers rise.
fn segments_rise(segments: &[Segment]) -> bool
    ensures { result ≡ true → NumbersRise segments.now }
{
    for i in 1..segments.len() {
        if segments[i - 1].number >= segments[i].number {
            return false;
        }
    }
    true
}

/// The offsets are ones that a book can have.
fn is_end(end: &End) -> bool
    ensures { result ≡ is_end (end_view end.now) }
{
    let _sound_source = end.source.as_str();
    let _sound_kind = end.kind.as_str();
    let _sound_name = end.name.as_str();
    end.start < 1 << 62 && end.start <= end.end && end.end < 1 << 63
}

fn are_ends(ends: &[End]) -> bool
    ensures { result ≡ list_all (λ e. is_end (end_view e)) ends.now }
{
    ends.iter().all(|end| is_end(end))
}

/// The streams rise.
fn ends_rise(ends: &[End]) -> bool
    ensures { result ≡ true → StreamsRise ends.now }
{
    for i in 1..ends.len() {
        if !ends[i - 1].is_before(&ends[i]) {
            return false;
        }
    }
    true
}

/// There is no aside segment, or it can be named, and is none of the others.
fn is_aside(next: u64, segments: &[Segment], aside: &Option<Segment>) -> bool
    ensures { result ≡ is_aside next (map segment_view segments.now) (option_map segment_view aside.now) }
{
    match aside {
        Some(segment) => is_segment(next, segment) && !has_number(segments, segment.number),
        None => true,
    }
}
