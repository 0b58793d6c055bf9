//! A book is written as its bytes.

ghost use Rattle.std.specs.Prelude.{◌≡◌, ◌++◌, ◌<◌, ◌^◌, length, map, option_map, OnOk, IfOk, IsTrue};
ghost use Rattle.std.specs.List.{list_all};
ghost use Rattle.chk_bytes.specs.Numbers.{be32};
ghost use Rattle.chk_bytes.specs.Words.{joined};
ghost use Rattle.chk_chunk.specs.Keys.{counted};
ghost use Rattle.chk_world.specs.Books.{segment_bytes, end_bytes, aside_bytes, book_bytes, written_version, version_byte, has_starts, begins_at_0, is_book};
ghost use Rattle.chk_book.specs.Views.{segment_view, end_view};
ghost use Rattle.chk_book.specs.Books.{book_view};

use crate::book::Book;
use crate::lists::{End, Segment};
use chk_bytes::{Bytes, NoMemory, Word, put_u16, put_u32, put_u64};
use std::alloc::Global;

/// The bytes of a book, in the least version that says all of it. It costs their length.
pub(crate) fn bytes_of(alloc: Global, book: &Book) -> Result<Bytes, NoMemory>
    requires { IsTrue (is_book (written_version (book_view book.now)) (book_view book.now)) }
    ensures { IfOk result (λ bytes. bytes ≡ book_bytes (written_version (book_view book.now)) (book_view book.now)) }
{
    let mut out = Bytes::new(alloc);
    push_book(&mut out, book)?;
    Ok(out)
}

/// Appends the book. Without memory some of it may be there.
fn push_book(out: &mut Bytes, book: &Book) -> Result<(), NoMemory>
    requires { IsTrue (is_book (written_version (book_view book.now)) (book_view book.now)) }
    ensures { OnOk result (out.new ≡ out.old ++ book_bytes (written_version (book_view book.now)) (book_view book.now)) }
{
    let version = version_of(book);
    out.push_all(b"CHKB")?;
    out.push_all(&[version])?;
    put_u64(out, book.next)?;
    push_segments(out, book.segments.as_slice())?;
    push_ends(out, book.ends.as_slice(), version >= 2)?;
    push_aside(out, &book.aside)
}

/// The least version that says all of the book.
fn version_of(book: &Book) -> u8
    ensures { result ≡ version_byte (written_version (book_view book.now)) }
{
    if book.aside.is_some() {
        3
    } else if begin_at_0(book.ends.as_slice()) {
        1
    } else {
        2
    }
}

/// Each stream begins at 0.
pub fn begin_at_0(ends: &[End]) -> bool
    ensures { result ≡ list_all (λ e. begins_at_0 (end_view e)) ends.now }
{
    ends.iter().all(|end| end.start == 0)
}

/// Appends the count of segments, and the segments. Without memory some of it may be there.
fn push_segments(out: &mut Bytes, segments: &[Segment]) -> Result<(), NoMemory>
    requires { length segments.now < 2 ^ 32 }
    ensures { OnOk result (out.new ≡ out.old ++ (be32 (length segments.now) ++ joined (map segment_bytes (map segment_view segments.now)))) }
{
    put_u32(out, segments.len() as u32)?;
    for segment in segments {
        push_segment(out, segment)?;
    }
    Ok(())
}

fn push_segment(out: &mut Bytes, segment: &Segment) -> Result<(), NoMemory>
    ensures { OnOk result (out.new ≡ out.old ++ segment_bytes (segment_view segment.now)) }
{
    put_u64(out, segment.number)?;
    put_u64(out, segment.length)?;
    Ok(())
}

/// Appends the count of streams, and the streams, with their starts or without. Without memory some of it may be there.
fn push_ends(out: &mut Bytes, ends: &[End], starts: bool) -> Result<(), NoMemory>
    requires { length ends.now < 2 ^ 32 }
    ensures { OnOk result (out.new ≡ out.old ++ (be32 (length ends.now) ++ joined (map (end_bytes starts) (map end_view ends.now)))) }
{
    put_u32(out, ends.len() as u32)?;
    for end in ends {
        push_end(out, end, starts)?;
    }
    Ok(())
}

fn push_end(out: &mut Bytes, end: &End, starts: bool) -> Result<(), NoMemory>
    ensures { OnOk result (out.new ≡ out.old ++ end_bytes starts (end_view end.now)) }
{
    if starts {
        put_u64(out, end.start)?;
    }
    put_u64(out, end.end)?;
    push_text(out, &end.source)?;
    push_text(out, &end.kind)?;
    push_text(out, &end.name)
}

/// Appends a word behind its length.
fn push_text(out: &mut Bytes, text: &Word) -> Result<(), NoMemory>
    ensures { OnOk result (out.new ≡ out.old ++ counted text.now) }
{
    let text = text.as_str();
    put_u16(out, text.len() as u16)?;
    out.push_all(text.as_bytes())
}

fn push_aside(out: &mut Bytes, aside: &Option<Segment>) -> Result<(), NoMemory>
    ensures { OnOk result (out.new ≡ out.old ++ aside_bytes (option_map segment_view aside.now)) }
{
    match aside {
        Some(segment) => push_segment(out, segment),
        None => Ok(()),
    }
}
