//! The names of a store's files.

ghost use Rattle.std.specs.Prelude.{◌≡◌, IfOk, IsTrue};
ghost use Rattle.chk_book.specs.Folders.{is_folder};
ghost use Rattle.chk_ctl_line.specs.Names.{is_path};
ghost use Rattle.chk_ctl_run.specs.Several.{archive_of, book_of};

use chk_bytes::{NoMemory, Word};
use std::alloc::Global;

/// The path of a store, the folder of its archive, and the book there.
#[derive(Drop)]
pub(crate) struct Names {
    pub store: Word,
    pub folder: Word,
    pub book: Word,
}

/// Those of the store with this path.
pub(crate) fn names_of(alloc: Global, store: &str) -> Result<Names, NoMemory>
    requires { IsTrue (is_path store.now) }
    ensures store { IfOk result (λ names. names.store ≡ store.now) }
    ensures folder { IfOk result (λ names. names.folder ≡ archive_of store.now) }
    ensures can { IfOk result (λ names. IsTrue (is_folder names.folder)) }
    ensures book { IfOk result (λ names. names.book ≡ book_of store.now) }
{
    let folder = format!(in alloc; "{store}/archive")?;
    let book = format!(in alloc; "{folder}/book")?;
    let store = Word::from_text(alloc, store)?;
    let folder = Word::from_text(alloc, folder.as_str())?;
    let book = Word::from_text(alloc, book.as_str())?;
    Ok(Names {
        store,
        folder,
        book,
    })
}
