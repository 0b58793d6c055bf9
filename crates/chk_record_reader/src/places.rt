//! Where a stream's end stands in the bytes of a book.

ghost use Rattle.std.specs.Prelude.{◌≡◌, ◌+◌, map, length, IfSome};
ghost use Rattle.chk_world.specs.Books.{end_bytes, has_starts, written_version};
ghost use Rattle.chk_book.specs.Books.{book_view};
ghost use Rattle.chk_book.specs.Views.{end_view};
ghost use Rattle.chk_record_reader.specs.Streams.{stream_of};
ghost use Rattle.chk_record_reader.specs.Archives.{end_place, place_in_book};

use crate::courses::StreamRef;
use chk_book::{Book, End, begin_at_0};

/// The place of a stream's end in the book's bytes, as they are written; `None` where 64 bits
/// don't hold it.
pub(crate) fn end_place(book: &Book, stream: &StreamRef<'_>) -> Option<u64>
    ensures { IfSome result (λ place. place ≡ place_in_book (book_view book.now)
        (stream_of stream.now)) }
{
    let starts = has_starts(book);
    let count = book.segments.as_slice().len() as u64;
    let first = count.checked_mul(16)?.checked_add(21)?;
    place_from(book.ends.as_slice(), stream, starts, first)
}

/// The place of a stream's end, where the streams begin at `first`.
fn place_from(ends: &[End], stream: &StreamRef<'_>, starts: bool, first: u64) -> Option<u64>
    ensures { IfSome result (λ place. place ≡ end_place starts (stream_of stream.now) first
        (map end_view ends.now)) }
{
    let mut place = first;
    for end in ends {
        if stream.ends_in(end) {
            return if starts {
                place.checked_add(8)
            } else {
                Some(place)
            };
        }
        place = place.checked_add(size_of(end, starts))?;
    }
    Some(place)
}

/// Whether the book's bytes have a start for each stream.
fn has_starts(book: &Book) -> bool
    ensures { result ≡ has_starts (written_version (book_view book.now)) }
{
    book.aside.is_some() || !begin_at_0(book.ends.as_slice())
}

/// How many bytes a stream has in a book.
fn size_of(end: &End, starts: bool) -> u64
    ensures { result ≡ length (end_bytes starts (end_view end.now)) }
{
    let texts = counted(end.source.as_str())
        + counted(end.kind.as_str())
        + counted(end.name.as_str());
    if starts { 16 + texts } else { 8 + texts }
}

/// How many bytes a word has behind its length.
fn counted(word: &str) -> u64
    ensures { result ≡ 2 + length word.now }
{
    2 + word.len() as u64
}
