//! The faults of files that are damaged.

ghost use Rattle.std.specs.Prelude.{◌<◌, length, slice_index_or, IsTrue, Some};
ghost use Rattle.chk_bytes.specs.Words.{is_word};
ghost use Rattle.chk_record_index.specs.Order.{no_head};
ghost use Rattle.chk_book.specs.Books.{book_view};
ghost use Rattle.chk_record_reader.specs.Streams.{stream_of};
ghost use Rattle.chk_record_reader.specs.Courses.{end_of, IsBreakBy};
ghost use Rattle.chk_record_reader.specs.Archives.{ToldBreak, IsHeadFault, IsEndFault};

use crate::courses::{Break, StreamRef};
use crate::names::book_name;
use crate::places::end_place;
use chk_book::Book;
use chk_bytes::Word;
use chk_record_index::{Heads, JobFault, damaged};
use std::alloc::Global;

/// The fault of what is wrong with a stream's records. A head of no file, and a place that 64 bits
/// don't hold, count as want of memory.
pub(crate) fn break_fault(
    alloc: Global,
    book: &Book,
    folder: &str,
    names: &[Word],
    heads: &Heads,
    stream: &StreamRef<'_>,
    found: Break,
) -> JobFault
    requires { IsBreakBy (stream_of stream.now) (end_of (stream_of stream.now)
        (book_view book.now).ends) heads.now (Some found) }
    ensures { ToldBreak folder.now (book_view book.now) names.now
        (stream_of stream.now) heads.now result }
{
    match found {
        Break::Head(index) => head_fault(alloc, names, heads, index),
        Break::End => end_fault(alloc, book, folder, stream),
    }
}

/// The fault of a record that isn't as it has to be, of the head at `index`: `Damaged` with the name of its file and the record's
/// place. A head of no file counts as want of memory, as does want of memory for the name.
pub fn head_fault(alloc: Global, names: &[Word], heads: &Heads, index: usize) -> JobFault
    requires { index < length heads.now }
    ensures { IsHeadFault names.now (slice_index_or heads.now index no_head) result }
{
    let head = heads.get(index);
    match names.get(head.file as usize) {
        Some(name) => damaged(alloc, name.as_str(), head.at),
        None => JobFault::NoMemory,
    }
}

/// The fault of an end that the records don't reach.
fn end_fault(alloc: Global, book: &Book, folder: &str, stream: &StreamRef<'_>) -> JobFault
    ensures { IsEndFault folder.now (book_view book.now) (stream_of stream.now) result }
{
    let Some(at) = end_place(book, stream) else {
        return JobFault::NoMemory;
    };
    match book_name(alloc, folder) {
        Ok(name) => JobFault::Damaged { name, at },
        Err(_) => JobFault::NoMemory,
    }
}
