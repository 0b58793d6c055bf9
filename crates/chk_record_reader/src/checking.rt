//! The check of all streams' records before they are merged.

ghost use Rattle.std.specs.Prelude.{◌≡◌, ◌<◌, length, slice_index_or, OnOk, IfErr, None};
ghost use Rattle.chk_world.proofs.Each.{Each};
ghost use Rattle.chk_record_index.specs.Order.{no_head};
ghost use Rattle.chk_book.specs.Books.{book_view};
ghost use Rattle.chk_book.specs.Views.{end_view};
ghost use Rattle.chk_record_reader.specs.Streams.{stream_of};
ghost use Rattle.chk_record_reader.specs.Courses.{end_of, IsBreakBy};
ghost use Rattle.chk_record_reader.specs.Archives.{ToldBreak};
ghost use Rattle.chk_record_reader.specs.Checking.{GoesWell, EndGoesWell, HeadGoesWell, ToldOfSome, AllGoWell};

use crate::courses::{StreamRef, is_listed, stream_break};
use crate::faults::break_fault;
use crate::one_pass::all_go_well;
use chk_book::{Book, End};
use chk_bytes::Word;
use chk_record_index::{Heads, JobFault};
use std::alloc::Global;

/// Whether the records of all streams run as the book of `folder` says, of which heads are given in the order of their reading: file
/// after file, each file's as they stand. The records of a stream have its start in the book, the first one begins there, each
/// other one begins where the one before it ends, none ends past the stream's end in the book, and the last one reaches it. A
/// stream that isn't in the book has no records.
///
/// `Damaged` comes exactly where one doesn't run so: with the name of the head's file at the first record of the stream that isn't
/// so; where each one is and they don't reach the stream's end, with the book's name at that end. It is of the first stream in the
/// book's order of which something is wrong, else of the first one that isn't in the book. A head of none of the files, and a
/// place in the book that 64 bits don't hold, count as want of memory.
///
/// It holds eight bytes for each stream, and costs a search among the streams for each head; where `Damaged` comes, or there is no
/// memory for these numbers, or the streams don't stand in byte order, the product of the streams and the heads.
pub fn check_records(
    alloc: Global,
    book: &Book,
    folder: &str,
    names: &[Word],
    heads: &Heads,
) -> Result<(), JobFault>
    ensures ok { OnOk result (AllGoWell (book_view book.now).ends heads.now) }
    ensures err { IfErr result (ToldOfSome folder.now (book_view book.now) names.now heads.now) }
{
    if let Ok(true) = all_go_well(alloc, book.ends.as_slice(), heads) {
        return Ok(());
    }
    check_ends(alloc, book, folder, names, heads)?;
    check_heads(alloc, book, folder, names, heads)?;
    Ok(())
}

/// Whether the records of each stream in the book run as it says.
fn check_ends(
    alloc: Global,
    book: &Book,
    folder: &str,
    names: &[Word],
    heads: &Heads,
) -> Result<(), JobFault>
    ensures ok { OnOk result (Each (EndGoesWell (book_view book.now).ends heads.now) (book_view book.now).ends) }
    ensures err { IfErr result (ToldOfSome folder.now (book_view book.now) names.now heads.now) }
{
    for end in book.ends.as_slice() {
        check_end(alloc, book, folder, names, heads, end)?;
    }
    Ok(())
}

/// Whether the records of a stream in the book run as it says.
fn check_end(
    alloc: Global,
    book: &Book,
    folder: &str,
    names: &[Word],
    heads: &Heads,
    end: &End,
) -> Result<(), JobFault>
    ensures ok { OnOk result (EndGoesWell (book_view book.now).ends heads.now (end_view end.now)) }
    ensures err { IfErr result (ToldOfSome folder.now (book_view book.now) names.now heads.now) }
{
    let stream = StreamRef {
        source: end.source.as_str(),
        kind: end.kind.as_str(),
        name: end.name.as_str(),
    };
    check_stream(alloc, book, folder, names, heads, &stream)
}

/// Whether no head is of a stream that isn't in the book.
fn check_heads(
    alloc: Global,
    book: &Book,
    folder: &str,
    names: &[Word],
    heads: &Heads,
) -> Result<(), JobFault>
    ensures ok { OnOk result (Each (HeadGoesWell (book_view book.now).ends heads.now) heads.now) }
    ensures err { IfErr result (ToldOfSome folder.now (book_view book.now) names.now heads.now) }
{
    for index in 0..heads.len() {
        check_head(alloc, book, folder, names, heads, index)?;
    }
    Ok(())
}

/// Whether a head is of a stream in the book.
fn check_head(
    alloc: Global,
    book: &Book,
    folder: &str,
    names: &[Word],
    heads: &Heads,
    index: usize,
) -> Result<(), JobFault>
    requires { index < length heads.now }
    ensures ok { OnOk result (HeadGoesWell (book_view book.now).ends heads.now (slice_index_or heads.now index no_head)) }
    ensures err { IfErr result (ToldOfSome folder.now (book_view book.now) names.now heads.now) }
{
    let head = heads.get(index);
    let stream = StreamRef {
        source: head.key.source,
        kind: head.key.kind,
        name: head.key.name,
    };
    if is_listed(book.ends.as_slice(), &stream) {
        return Ok(());
    }
    check_stream(alloc, book, folder, names, heads, &stream)
}

/// Whether a stream's records run as the book says.
fn check_stream(
    alloc: Global,
    book: &Book,
    folder: &str,
    names: &[Word],
    heads: &Heads,
    stream: &StreamRef<'_>,
) -> Result<(), JobFault>
    ensures ok { OnOk result (GoesWell (book_view book.now).ends heads.now (stream_of stream.now)) }
    ensures err { IfErr result (ToldBreak folder.now (book_view book.now) names.now (stream_of stream.now) heads.now) }
{
    match stream_break(book.ends.as_slice(), stream, heads) {
        Some(found) => Err(break_fault(alloc, book, folder, names, heads, stream, found)),
        None => Ok(()),
    }
}
