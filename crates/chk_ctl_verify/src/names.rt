//! The names of files.

ghost use Rattle.std.specs.Prelude.{◌≡◌, ◌++◌, IfOk, MatchOption, Some, None, codes};
ghost use Rattle.chk_bytes.specs.Words.{before_end};

use chk_bytes::{Bytes, NoMemory, Word};
use std::alloc::Global;

/// What stands before this ending.
pub(crate) fn without_end<'a>(text: &'a [u8], ending: &[u8]) -> Option<&'a [u8]>
    ensures { MatchOption result (before_end ending.now text.now ≡ None)
        (λ front. before_end ending.now text.now ≡ Some front.now) }
{
    text.strip_suffix(ending)
}

/// The name of a file, of its three parts. One that no call can name counts as want of memory.
pub(crate) fn name_of(
    alloc: Global,
    folder: &[u8],
    front: &[u8],
    ending: &[u8],
) -> Result<Word, NoMemory>
    ensures { IfOk result (λ name. name ≡ (folder.now ++ front.now) ++ ending.now) }
{
    match joined(alloc, folder, front, ending) {
        Ok(bytes) => match Word::new(alloc, bytes.as_slice()) {
            Ok(name) => Ok(name),
            Err(_) => Err(NoMemory),
        },
        Err(NoMemory) => Err(NoMemory),
    }
}

/// The parts, one behind the other.
fn joined(alloc: Global, folder: &[u8], front: &[u8], ending: &[u8]) -> Result<Bytes, NoMemory>
    ensures { IfOk result (λ bytes. bytes ≡ (folder.now ++ front.now) ++ ending.now) }
{
    let mut bytes = Bytes::from_slice(alloc, folder)?;
    bytes.push_all(front)?;
    bytes.push_all(ending)?;
    Ok(bytes)
}

/// The name of the mark of a folder's file.
pub(crate) fn mark_name(alloc: Global, folder: &[u8], front: &[u8]) -> Result<Word, NoMemory>
    ensures { IfOk result (λ name. name ≡ (folder.now ++ front.now) ++ codes ".mark") }
{
    name_of(alloc, folder, front, b".mark")
}
