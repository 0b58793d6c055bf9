//! Laws of books.

ghost use Rattle.chk_book.specs.Laws.{BooksHaveNoDamage};

/// A law: bytes that are a book, in any version, have no wrong field. So a load answers `Damaged` for no book.
pub fn books_have_no_damage()
    ensures { BooksHaveNoDamage }
{}
