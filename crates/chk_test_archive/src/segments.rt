//! Segments and books that are written.
ghost use Rattle.std.specs.Prelude.{IfOk, IsTrue};
ghost use Rattle.chk_chunk.specs.Keys.{is_chunk};
ghost use Rattle.chk_chunk.specs.Lent.{chunk_of};

use crate::job::archive_folder;
use crate::telling::book_text;
use chk_book::{Book, JobFault};
use chk_bytes::{Bytes, NoMemory, Word};
use chk_chunk::Chunk;
use chk_site::Who;
use chk_site_mem::SiteMem;
use std::alloc::Global;
use std::slice;

fn word(alloc: Global, text: &str) -> Result<Word, NoMemory> {
    Word::new(alloc, text.as_bytes()).map_err(|_| NoMemory)
}

// The first six bytes of a log of h1.
fn hello(alloc: Global, name: &str, start: u32) -> Result<Chunk, NoMemory>
    ensures { IfOk result (λ chunk. IsTrue (is_chunk (chunk_of chunk))) }
{
    let start = u64::from(start);
    Ok(Chunk {
        source: word(alloc, "h1")?,
        kind: word(alloc, "Log")?,
        name: word(alloc, name)?,
        start,
        cluster: word(alloc, "none")?,
        seq: start + 6,
        body: Bytes::from_slice(alloc, b"hello\n")?,
    })
}

// The book of a segment in which these bytes are a part of their stream.
pub(crate) fn adds(
    alloc: Global,
    site: &mut SiteMem,
    who: &Who,
    name: &str,
    start: u32,
) -> Result<String, JobFault> {
    let mut book = Book::new(alloc);
    let chunk = hello(alloc, name, start)?;
    let parts = slice::from_ref(&chunk);
    book.add_segment(alloc, site, who, archive_folder(), parts)?;
    Ok(book_text(alloc, &book)?)
}

// The book of a segment in which these bytes are held back.
pub(crate) fn holds_back(
    alloc: Global,
    site: &mut SiteMem,
    who: &Who,
    name: &str,
    start: u32,
) -> Result<String, JobFault> {
    let mut book = Book::new(alloc);
    let chunk = hello(alloc, name, start)?;
    let mut segmenter = book.begin_segment(alloc, site, who, archive_folder())?;
    segmenter.aside(alloc, site, &chunk.lend())?;
    segmenter.finish_aside(alloc, site, &mut book)?;
    Ok(book_text(alloc, &book)?)
}

// A book that has begun a segment.
pub(crate) fn begins(
    alloc: Global,
    site: &mut SiteMem,
    who: &Who,
    next: u64,
) -> Result<String, JobFault> {
    let mut book = Book::new(alloc);
    book.next = next;
    let _segmenter = book.begin_segment(alloc, site, who, archive_folder())?;
    Ok(book_text(alloc, &book)?)
}

// A book without segments that is published.
pub(crate) fn publishes(alloc: Global, site: &mut SiteMem, who: &Who) -> Result<String, JobFault> {
    let book = Book::new(alloc);
    book.publish(alloc, site, who, archive_folder())?;
    Ok(book_text(alloc, &book)?)
}
