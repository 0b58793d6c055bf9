//! The files that an archive run reads.

ghost use Rattle.std.specs.Prelude.{◌≡◌, codes, IfOk};
ghost use Rattle.chk_book.specs.Books.{book_view};
ghost use Rattle.chk_book.specs.Folders.{segment_name};
ghost use Rattle.chk_archive.specs.Listed.{aside_files, sources_in};

use crate::folder_names::{is_closed, path};
use chk_book::{Book, segment_name};
use chk_bytes::{NoMemory, Word};
use std::alloc::Global;

/// The aside segment, where the book has one, and then the done sinks that a listing shows, in its order.
pub(crate) fn sources(alloc: Global, book: &Book, names: &[Word]) -> Result<Vec<Word>, NoMemory>
    ensures { IfOk result (λ files. files.items ≡ sources_in (book_view book.now) names.now) }
{
    let mut files = asides(alloc, book)?;
    for name in names {
        if is_closed(name.as_str()) {
            files.push(path(alloc, "sinks", name.as_str())?)?;
        }
    }
    Ok(files)
}

/// The file of the aside segment, where the book has one.
fn asides(alloc: Global, book: &Book) -> Result<Vec<Word>, NoMemory>
    ensures { IfOk result (λ files. files.items ≡ aside_files (book_view book.now)) }
{
    let mut files = Vec::new(alloc);
    if let Some(segment) = &book.aside {
        files.push(segment_name(alloc, "archive", segment.number)?)?;
    }
    Ok(files)
}
