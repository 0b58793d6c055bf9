//! The names of a folder's files.

ghost use Rattle.std.specs.Prelude.{◌≡◌, ◌<◌, ◌^◌, IsTrue, IfOk, string_bytes};
ghost use Rattle.chk_book.specs.Folders.{is_folder, book_name, segment_stem, segment_name};

use chk_bytes::{NoMemory, Word};
use std::alloc::Global;

/// The name of a folder's book.
pub(crate) fn book_name(alloc: Global, folder: &str) -> Result<Word, NoMemory>
    requires { IsTrue (is_folder folder.now) }
    ensures name { IfOk result (λ name. name ≡ book_name folder.now) }
{
    let text = format!(in alloc; "{folder}/book")?;
    Word::from_text(alloc, text.as_str())
}

/// The stem of a segment's file, at most 23 bytes.
pub(crate) fn segment_stem(alloc: Global, number: u64) -> Result<String, NoMemory>
    ensures stem { IfOk result (λ text. string_bytes text ≡ segment_stem number) }
{
    Ok(format!(in alloc; "seg.{number}")?)
}

/// The name of a folder's segment.
pub(crate) fn segment_name(alloc: Global, folder: &str, number: u64) -> Result<String, NoMemory>
    ensures name { IfOk result (λ text. string_bytes text ≡ segment_name folder.now number) }
{
    Ok(format!(in alloc; "{folder}/seg.{number}")?)
}
