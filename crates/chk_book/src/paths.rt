//! The names of a folder's segments, and their numbers.

ghost use Rattle.std.specs.Prelude.{◌≡◌, IfOk, IfSome, IsTrue};
ghost use Rattle.chk_bytes.specs.Stems.{is_count};
ghost use Rattle.chk_book.specs.Books.{book_view};
ghost use Rattle.chk_book.specs.Folders.{segment_name};
ghost use Rattle.chk_book.specs.SegmentNames.{segment_number, names_segment};

use crate::book::Book;
use chk_bytes::{NoMemory, Word, take_plain_decimal};
use std::alloc::Global;

/// The name of a folder's segment. One that no call can name counts as want of memory.
pub fn segment_name(alloc: Global, folder: &str, number: u64) -> Result<Word, NoMemory>
    ensures { IfOk result (λ name. name ≡ segment_name folder.now number) }
{
    let text = format!(in alloc; "{folder}/seg.{number}")?;
    Word::new(alloc, text.as_bytes()).map_err(|_| NoMemory)
}

/// The number of the segment that has this name in its folder.
pub fn segment_number(name: &str) -> Option<u64>
    ensures is { result ≡ segment_number name.now }
    ensures count { IfSome result (λ n. IsTrue (is_count n)) }
{
    let digits = name.as_bytes().strip_prefix(b"seg.")?;
    let number = take_plain_decimal(digits)?;
    if number > 0 && number < 1 << 63 {
        Some(number)
    } else {
        None
    }
}

/// The book names the segment of this number, maybe as its aside segment.
pub fn names_segment(book: &Book, number: u64) -> bool
    ensures { result ≡ names_segment (book_view book.now) number }
{
    for segment in book.segments.as_slice() {
        if segment.number == number {
            return true;
        }
    }
    match &book.aside {
        Some(segment) => segment.number == number,
        None => false,
    }
}
