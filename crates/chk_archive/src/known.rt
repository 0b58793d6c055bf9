//! Where the archives of a book's streams start and end.

ghost use Rattle.std.specs.Prelude.{◌≡◌, ℕ, IfOk};
ghost use Rattle.chk_chunk.specs.Keys.{Stream};
ghost use Rattle.chk_record_index.specs.Heads.{Head};
ghost use Rattle.chk_archive_plan.specs.Passes.{begins_at};
ghost use Rattle.chk_archive_plan.specs.Starts.{start_known};
ghost use Rattle.chk_book.specs.Books.{book_view, end_in};
ghost use Rattle.chk_archive.specs.Starts.{start_in};

use chk_archive_plan::Known;
use chk_book::Book;
use chk_bytes::NoMemory;
use std::alloc::Global;

/// The starts and ends of a book's streams, in its order. It costs the number of streams.
pub(crate) fn known_ends(alloc: Global, book: &Book) -> Result<Vec<Known<'_>>, NoMemory>
    ensures ends { IfOk result (λ known. (h : Head) → begins_at known.items h ≡ end_in h.key.start (book_view book.now).ends h.key.stream) }
    ensures starts { IfOk result (λ known. (n : ℕ) (s : Stream) → start_known n known.items s ≡ start_in n (book_view book.now).ends s) }
{
    let mut known = Vec::new(alloc);
    for end in book.ends.as_slice() {
        known.push(Known {
            source: end.source.as_str(),
            kind: end.kind.as_str(),
            name: end.name.as_str(),
            start: end.start,
            end: end.end,
        })?;
    }
    Ok(known)
}
