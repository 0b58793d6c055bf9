//! The names of a folder's files.

ghost use Rattle.std.specs.Prelude.{◌≡◌, ℕ, Contains, IfOk, IfSome, IsTrue, OnOk};
ghost use Rattle.chk_world.proofs.Each.{Each};
ghost use Rattle.chk_book.specs.Books.{book_view};
ghost use Rattle.chk_book.specs.Folders.{segment_name, segment_stem};
ghost use Rattle.chk_join_sources.specs.Copying.{joined_segment};
ghost use Rattle.chk_join.specs.Names.{names_segment, segment_number, unnamed_only, AddsStray};
ghost use Rattle.chk_join.specs.Names.{IsStrayNumber, IsStray};

use chk_book::{Book, names_segment, segment_name, segment_number};
use chk_bytes::{NoMemory, Word};
use std::alloc::Global;

/// The files of the segments that a listing of `joined` shows and the book doesn't name.
pub(crate) fn strays(alloc: Global, book: &Book, names: &[Word]) -> Result<Vec<Word>, NoMemory>
    ensures each { IfOk result (λ strays. Each (IsStray (book_view book.now)) strays.items) }
    ensures all { IfOk result (λ strays. (k : ℕ) → IsStrayNumber (book_view book.now) k
        → Contains names.now (segment_stem k) → Contains strays.items (joined_segment k)) }
{
    let mut strays = Vec::new(alloc);
    for name in names {
        add_stray(alloc, book, name.as_str(), &mut strays)?;
    }
    Ok(strays)
}

/// Adds the file of this name in `joined`, where it is of a segment that the book doesn't name.
fn add_stray(alloc: Global, book: &Book, name: &str, strays: &mut Vec<Word>) -> Result<(), NoMemory>
    ensures { OnOk result (AddsStray (book_view book.now)
        (unnamed_only (book_view book.now) (segment_number name.now)) strays.old.items strays.new.items) }
{
    if let Some(number) = stray_number(book, name) {
        strays.push(segment_name(alloc, "joined", number)?)?;
    }
    Ok(())
}

/// The number of a segment that has this name, where the book doesn't name it.
fn stray_number(book: &Book, name: &str) -> Option<u64>
    ensures is { result ≡ unnamed_only (book_view book.now) (segment_number name.now) }
    ensures stray { IfSome result (IsStrayNumber (book_view book.now)) }
{
    let number = segment_number(name)?;
    if names_segment(book, number) {
        None
    } else {
        Some(number)
    }
}
