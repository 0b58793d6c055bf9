//! SequenceFiles read in pieces and behind damage, as text.
ghost use Rattle.std.specs.Prelude.{◌≤◌};

use crate::texts::bytes_of;
use chk_salvage::{EntryRef, Fed, Next, Pieces, Reader, Salvaged, salvage};
use std::alloc::Global;
use std::test::Fail;

// A header, a sync entry, the record of `hello\n` and a sync entry.
const BEFORE: &str =
    "SEQ%06%CL%CL%ZZ%MK%FF%FF%FF%FF%MK%00%00%00%28%00%00%00%1E%00%00%00%1A%01%ZZ%00%06%00%02h1%00%03Log%00%06/a.log%00%00%00%06hello%0A%FF%FF%FF%FF%MK";

// Where the record begins and ends, and how long its key and its value are.
fn entry_text(alloc: Global, entry: &EntryRef<'_>) -> Result<String, Fail> {
    let (at, end) = (entry.at, entry.end);
    let (key, value) = (entry.key.len(), entry.value.len());
    Ok(format!(in alloc; "{at} {end} {key} {value}")?)
}

fn next_text(alloc: Global, next: Next<'_>) -> Result<String, Fail> {
    match next {
        Next::Entry(entry) => entry_text(alloc, &entry),
        other => Ok(format!(in alloc; "{other:?}")?),
    }
}

// What a reader gives of the file, and gives again.
fn given_thrice(alloc: Global, reader: &mut Reader<'_>) -> Result<String, Fail> {
    let first = next_text(alloc, reader.next())?;
    let then = next_text(alloc, reader.next())?;
    let again = next_text(alloc, reader.next())?;
    let same = if then.as_str() == again.as_str() {
        "twice"
    } else {
        "once"
    };
    Ok(format!(in alloc; "{first}, {same} {then}")?)
}

// What is read of these bytes behind a record and a sync entry.
pub(crate) fn damage(alloc: Global, bytes: &[u8]) -> Result<String, Fail> {
    let mut file = bytes_of(alloc, BEFORE)?;
    file.push_all(bytes)?;
    match Reader::new(file.as_slice()) {
        Ok(mut reader) => given_thrice(alloc, &mut reader),
        Err(fault) => Ok(format!(in alloc; "{fault:?}")?),
    }
}

fn fed_text(alloc: Global, fed: Fed<'_>) -> Result<String, Fail> {
    match fed {
        Fed::Entry(entry) => entry_text(alloc, &entry),
        other => Ok(format!(in alloc; "{other:?}")?),
    }
}

// What is given of these bytes, fed at once.
pub(crate) fn fed(alloc: Global, limit: u32, bytes: &[u8]) -> Result<String, Fail>
    requires { 64 ≤ limit }
{
    let mut pieces = Pieces::new(alloc, limit);
    if bytes.len() > 1000 {
        return Err(Fail::from("too many bytes"));
    }
    pieces.feed(bytes)?;
    fed_text(alloc, pieces.next())
}

fn feed_next(pieces: &mut Pieces, byte: u8) -> Result<(), Fail> {
    if pieces.next() != Fed::More {
        return Err(Fail::from("an early answer"));
    }
    if pieces.place() > 1000 || pieces.left() > 1000 {
        return Err(Fail::from("too many bytes"));
    }
    Ok(pieces.feed(&[byte])?)
}

fn feed_each(pieces: &mut Pieces, bytes: &[u8]) -> Result<(), Fail> {
    for byte in bytes {
        feed_next(pieces, *byte)?;
    }
    Ok(())
}

fn given_twice(alloc: Global, pieces: &mut Pieces) -> Result<String, Fail> {
    let first = fed_text(alloc, pieces.next())?;
    let then = fed_text(alloc, pieces.next())?;
    let (place, left) = (pieces.place(), pieces.left());
    Ok(format!(in alloc; "{first}, {then}, {place} {left}")?)
}

// Fed byte by byte, nothing is given before the last byte; then the two next answers, the place and
// how many bytes are left.
pub(crate) fn fed_slowly(alloc: Global, bytes: &[u8]) -> Result<String, Fail> {
    let mut pieces = Pieces::new(alloc, 64);
    feed_each(&mut pieces, bytes)?;
    given_twice(alloc, &mut pieces)
}

// The record that is ahead, and where the reader stands when it has passed over it.
fn passed_text(alloc: Global, pieces: &mut Pieces) -> Result<String, Fail> {
    let Some(found) = pieces.ahead() else {
        return Ok(String::from_str(alloc, "none")?);
    };
    let (at, end) = (found.at, found.end);
    let (key, size) = (found.key.len(), found.size);
    pieces.pass(end);
    let (place, left) = (pieces.place(), pieces.left());
    Ok(format!(in alloc; "{at} {end} {key} {size}, {place} {left}")?)
}

// What is ahead behind the answer to these bytes, with a limit of 64 bytes.
pub(crate) fn passed(alloc: Global, bytes: &[u8]) -> Result<String, Fail> {
    let mut pieces = Pieces::new(alloc, 64);
    if bytes.len() > 1000 {
        return Err(Fail::from("too many bytes"));
    }
    pieces.feed(bytes)?;
    let _ = pieces.next();
    passed_text(alloc, &mut pieces)
}

fn add_entries(text: &mut String, entries: &[EntryRef<'_>]) -> Result<(), Fail> {
    for entry in entries {
        let (at, end) = (entry.at, entry.end);
        write!(text, "entry {at} {end} ")?;
    }
    Ok(())
}

fn add_skipped(text: &mut String, found: &Salvaged<'_>) -> Result<(), Fail> {
    for span in found.skipped.as_slice() {
        let (begin, end) = (span.begin, span.end);
        write!(text, "skipped {begin} {end} ")?;
    }
    Ok(())
}

fn salvaged_text(alloc: Global, found: &Salvaged<'_>) -> Result<String, Fail> {
    let mut text = String::new(alloc);
    add_entries(&mut text, found.entries.as_slice())?;
    add_skipped(&mut text, found)?;
    Ok(String::from_str(alloc, text.as_str().trim_end())?)
}

// The records, and what is skipped.
pub(crate) fn salvaged(alloc: Global, bytes: &[u8]) -> Result<String, Fail> {
    match salvage(alloc, bytes) {
        Ok(found) => salvaged_text(alloc, &found),
        Err(fault) => Ok(format!(in alloc; "{fault:?}")?),
    }
}
