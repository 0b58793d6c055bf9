//! Whether all records have the starts of their streams.

ghost use Rattle.std.specs.Prelude.{◌≡◌, List, OnOk, IfErr};
ghost use Rattle.chk_record_index.specs.Heads.{Head};
ghost use Rattle.chk_record_index.specs.Order.{in_head_order};
ghost use Rattle.chk_book.specs.Books.{book_view};
ghost use Rattle.chk_archive.specs.Starts.{HaveStartsIn, ToldOtherStart};

use crate::known::known_ends;
use chk_archive_plan::other_start;
use chk_book::Book;
use chk_bytes::Word;
use chk_record_index::{Heads, JobFault};
use chk_record_reader::head_fault;
use std::alloc::Global;

/// Whether each record, of which heads are given in order, has its stream's start: the one in the book or, where the book hasn't
/// the stream, that of the stream's first head. `Damaged` comes exactly where one hasn't, with the name of the first such head's
/// file and its record's place. A head of none of the files counts as want of memory. It costs a pass over the heads, a search
/// among the book's streams for each stream, and a row for each of the book's streams.
pub(crate) fn check_starts(
    alloc: Global,
    book: &Book,
    files: &[Word],
    heads: &Heads,
) -> Result<(), JobFault>
    requires order { (found : List Head) × (heads.now ≡ in_head_order found) }
    ensures ok { OnOk result (HaveStartsIn (book_view book.now).ends heads.now) }
    ensures err { IfErr result (ToldOtherStart files.now (book_view book.now).ends heads.now) }
{
    let known = known_ends(alloc, book)?;
    let ends = known.as_slice();
    match other_start(heads, ends) {
        Some(index) => Err(head_fault(alloc, files, heads, index)),
        None => Ok(()),
    }
}
