//! The names of a folder's files, and what its segments may hold.

ghost use Rattle.std.specs.Prelude.{◌≡◌, ◌≤◌, IfOk};
ghost use Rattle.chk_chunk.specs.Keys.{record_limit};
ghost use Rattle.chk_book.specs.Books.{book_view};
ghost use Rattle.chk_book.specs.Folders.{book_name, segment_name, most_in};
ghost use Rattle.chk_record_reader.specs.Segments.{names_of};

use chk_book::{Book, segment_name};
use chk_bytes::{NoMemory, Word};
use std::alloc::Global;

/// The names of the segments that a book of the folder names, in its order; its aside segment
/// isn't one of them. A name that no call can take counts as want of memory.
pub fn segment_names(alloc: Global, folder: &str, book: &Book) -> Result<Vec<Word>, NoMemory>
    ensures { IfOk result (λ names. names.items ≡ names_of folder.now (book_view book.now)) }
{
    let mut names = Vec::new(alloc);
    for segment in book.segments.as_slice() {
        names.push(segment_name(alloc, folder, segment.number)?)?;
    }
    Ok(names)
}

/// The name of a folder's book.
pub(crate) fn book_name(alloc: Global, folder: &str) -> Result<Word, NoMemory>
    ensures { IfOk result (λ name. name ≡ book_name folder.now) }
{
    let text = format!(in alloc; "{folder}/book")?;
    Word::new(alloc, text.as_bytes()).map_err(|_| NoMemory)
}

/// The most bytes of a value in a segment of the folder.
pub fn most_in(folder: &str) -> u32
    ensures most { result ≡ most_in folder.now }
    ensures few { result ≤ record_limit }
{
    if folder == "demux" {
        1_048_576
    } else {
        131_072
    }
}
