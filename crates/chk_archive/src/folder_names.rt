//! What the names that a listing shows are to an archive run.

ghost use Rattle.std.specs.Prelude.{◌≡◌, map, IfOk, codes};
ghost use Rattle.chk_site.specs.Honest.{in_folder};
ghost use Rattle.chk_world.specs.ArchiveRuns.{is_closed};
ghost use Rattle.chk_book.specs.Books.{book_view};
ghost use Rattle.chk_archive.specs.FolderNames.{segment_number, names_segment, is_stray, strays_in, closed_in};

use chk_book::{Book, names_segment, segment_number};
use chk_bytes::{NoMemory, Word};
use std::alloc::Global;

/// The files of the segments that a listing of the archive shows and the book doesn't name.
pub(crate) fn strays(alloc: Global, book: &Book, names: &[Word]) -> Result<Vec<Word>, NoMemory>
    ensures { IfOk result (λ strays. strays.items ≡ strays_in (book_view book.now) names.now) }
{
    let mut strays = Vec::new(alloc);
    for name in names {
        if is_stray(book, name.as_str()) {
            strays.push(path(alloc, "archive", name.as_str())?)?;
        }
    }
    Ok(strays)
}

/// The files of the done sinks that a listing of the sinks shows, in its order.
pub(crate) fn closed(alloc: Global, names: &[Word]) -> Result<Vec<Word>, NoMemory>
    ensures { IfOk result (λ closed. closed.items ≡ closed_in names.now) }
{
    let mut closed = Vec::new(alloc);
    for name in names {
        if is_closed(name.as_str()) {
            closed.push(path(alloc, "sinks", name.as_str())?)?;
        }
    }
    Ok(closed)
}

/// The file of this name in the folder. One that no call can name counts as want of memory.
pub(crate) fn path(alloc: Global, folder: &str, name: &str) -> Result<Word, NoMemory>
    ensures { IfOk result (λ path. path ≡ in_folder folder.now name.now) }
{
    let text = format!(in alloc; "{folder}/{name}")?;
    Word::new(alloc, text.as_bytes()).map_err(|_| NoMemory)
}

/// The name is that of a done sink.
pub(crate) fn is_closed(name: &str) -> bool
    ensures { result ≡ is_closed name.now }
{
    name.as_bytes().strip_suffix(b".done").is_some()
}

/// The name is that of a segment that the book doesn't name.
fn is_stray(book: &Book, name: &str) -> bool
    ensures { result ≡ is_stray (book_view book.now) name.now }
{
    match segment_number(name) {
        Some(number) => !names_segment(book, number),
        None => false,
    }
}
