//! What the segments of a book hold, by the bytes of the files alone: no call is made.
use chk_bytes::{Bytes, take_u32, take_u64};
use chk_chunk::read_key;
use chk_salvage::{EntryRef, FrontStop, front};
use chk_site::{Act, ActAnswer, Call, CallFault};
use chk_site_mem::SiteMem;
use std::alloc::Global;
use std::test::Fail;

// A stream's source, type and name.
#[derive(Clone, Copy)]
pub(crate) struct Stream<'a> {
    pub(crate) source: &'a str,
    pub(crate) kind: &'a str,
    pub(crate) name: &'a str,
}

// The bytes of a stream's records, joined, and how many each of them has.
#[derive(Drop)]
pub(crate) struct Records {
    pub(crate) bytes: Bytes,
    pub(crate) sizes: Vec<usize>,
}

impl Records {
    fn new(alloc: Global) -> Records {
        Records {
            bytes: Bytes::new(alloc),
            sizes: Vec::new(alloc),
        }
    }

    // A record of the stream goes on where the ones before it end; or else it is false.
    fn adds(&mut self, stream: Stream<'_>, entry: &EntryRef<'_>) -> Result<bool, Fail> {
        let Ok(key) = read_key(entry.key) else {
            return Ok(false);
        };
        if key.source != stream.source || key.kind != stream.kind || key.name != stream.name {
            return Ok(true);
        }
        let end = self.bytes.len().saturating_add(entry.value.len());
        self.bytes.push_all(entry.value)?;
        self.sizes.push(entry.value.len())?;
        Ok(key.seq == key.start.saturating_add(end as u64))
    }

    // The records of a segment, which is in its grammar to its end; or else it is false.
    fn adds_all(&mut self, alloc: Global, stream: Stream<'_>, bytes: &[u8]) -> Result<bool, Fail> {
        let Ok(held) = front(alloc, bytes) else {
            return Ok(false);
        };
        for entry in held.entries.as_slice() {
            if !self.adds(stream, entry)? {
                return Ok(false);
            }
        }
        Ok(held.stop == FrontStop::End)
    }
}

// The number and the length of the segment that stands at this place of the book.
fn segment_at(book: &[u8], at: usize) -> Option<(u64, u64)> {
    Some((take_u64(book, at)?, take_u64(book, at.saturating_add(8))?))
}

// The first bytes of that segment: as many as the book says.
fn segment<'a>(
    alloc: Global,
    site: &'a SiteMem,
    folder: &str,
    book: &[u8],
    at: usize,
) -> Result<Option<&'a [u8]>, Fail> {
    let Some((number, length)) = segment_at(book, at) else {
        return Ok(None);
    };
    let name = format!(in alloc; "{folder}/seg.{number}")?;
    match site.file(name.as_str()) {
        Some(bytes) => Ok(bytes.get(..length as usize)),
        None => Ok(None),
    }
}

// The records of a stream in the segments that the folder's book names, in their order. None: a
// segment isn't there or is damaged, or there is a gap between records.
pub(crate) fn records_of(
    alloc: Global,
    site: &SiteMem,
    folder: &str,
    stream: Stream<'_>,
) -> Result<Option<Records>, Fail> {
    let name = format!(in alloc; "{folder}/book")?;
    let Some(book) = site.file(name.as_str()) else {
        return Ok(Some(Records::new(alloc)));
    };
    let Some(count) = take_u32(book, 13) else {
        return Ok(None);
    };
    let mut records = Records::new(alloc);
    let mut at: usize = 17;
    for _segment in 0..count {
        let Some(bytes) = segment(alloc, site, folder, book, at)? else {
            return Ok(None);
        };
        if !records.adds_all(alloc, stream, bytes)? {
            return Ok(None);
        }
        at = at.saturating_add(16);
    }
    Ok(Some(records))
}

// Of an append that failed at most 20 bytes stand in the log, and of one that was stopped none.
fn reached<'a>(answer: &ActAnswer, piece: &'a [u8]) -> &'a [u8] {
    match answer {
        ActAnswer::Done { .. } => piece,
        ActAnswer::Refused {
            fault: CallFault::Failed,
        } => piece.get(..20).unwrap_or(piece),
        _ => &[],
    }
}

fn appended<'a>(act: &'a Act, path: &str) -> &'a [u8] {
    if act.call != Call::LogAppend {
        return &[];
    }
    match act.words.as_slice() {
        [log, piece] if log.as_slice() == path.as_bytes() => {
            reached(&act.answer, piece.as_slice())
        }
        _ => &[],
    }
}

// The bytes that were appended to a log.
pub(crate) fn log_of(alloc: Global, acts: &[Act], path: &str) -> Result<Bytes, Fail> {
    let mut log = Bytes::new(alloc);
    for act in acts {
        log.push_all(appended(act, path))?;
    }
    Ok(log)
}
