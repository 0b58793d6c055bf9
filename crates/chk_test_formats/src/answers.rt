//! What each reader answers to bytes, as text.
use crate::control::line;
use crate::salvage::{damage, fed, fed_slowly, passed, salvaged};
use crate::texts::bytes_of;
use chk_bytes::{
    Bytes, Stem, Word, take_decimal, take_plain_decimal, take_u16, take_u32, take_u64, take_vint,
    word_fault,
};
use chk_chunk::{PostRef, read_key, read_post};
use chk_http::{LineList, RequestRef, read_reply, read_request};
use chk_salvage::front;
use chk_seqfile::read_header;
use std::alloc::Global;
use std::test::Fail;

pub(crate) fn plain(alloc: Global, text: &str) -> Result<String, Fail> {
    Ok(String::from_str(alloc, text)?)
}

// The number and the place behind it.
fn vint(alloc: Global, bytes: &[u8]) -> Result<String, Fail> {
    match take_vint(bytes, 0) {
        Ok((number, end)) => Ok(format!(in alloc; "{number} {end}")?),
        Err(fault) => Ok(format!(in alloc; "{fault:?}")?),
    }
}

fn is_word(alloc: Global, bytes: &[u8]) -> Result<bool, Fail> {
    let word = Word::new(alloc, bytes)?;
    Ok(word.copy()?.as_str().as_bytes() == bytes)
}

fn word(alloc: Global, bytes: &[u8]) -> Result<String, Fail> {
    match word_fault(bytes) {
        None => plain(
            alloc,
            if is_word(alloc, bytes)? {
                "word"
            } else {
                "another word"
            },
        ),
        Some(fault) => Ok(format!(in alloc; "{fault:?}")?),
    }
}

// As a number of digits, and without leading zeros.
fn decimal(alloc: Global, bytes: &[u8]) -> Result<String, Fail> {
    let (any, plain) = (take_decimal(bytes), take_plain_decimal(bytes));
    Ok(format!(in alloc; "{any:?} {plain:?}")?)
}

// The stem's parts, and what it is written as.
fn stem_text(alloc: Global, stem: Stem) -> Result<String, Fail> {
    let mut out = Bytes::new(alloc);
    stem.write(&mut out)?;
    let written = std::str::from_utf8(out.as_slice())?;
    let (name, born, number) = (stem.name(), stem.born(), stem.number());
    Ok(format!(in alloc; "{name} {born} {number} {written}")?)
}

fn stem(alloc: Global, bytes: &[u8]) -> Result<String, Fail> {
    match Stem::read(bytes) {
        Some(stem) => stem_text(alloc, stem),
        None => plain(alloc, "none"),
    }
}

fn collector(alloc: Global, bytes: &[u8]) -> Result<String, Fail> {
    let name = std::str::from_utf8(bytes)?;
    let fits = Stem::new(name, 1, 1).is_some();
    plain(alloc, if fits { "fits" } else { "none" })
}

// Of two, four and eight bytes.
fn number(alloc: Global, bytes: &[u8]) -> Result<String, Fail> {
    let (short, middle, long) = (take_u16(bytes, 0), take_u32(bytes, 0), take_u64(bytes, 0));
    Ok(format!(in alloc; "{short:?} {middle:?} {long:?}")?)
}

fn key(alloc: Global, bytes: &[u8]) -> Result<String, Fail> {
    match read_key(bytes) {
        Ok(key) => {
            let (source, kind, name, cluster) = (key.source, key.kind, key.name, key.cluster);
            let (start, end) = (key.start, key.seq);
            Ok(format!(in alloc; "{source} {kind} {name} {cluster} {start} {end}")?)
        }
        Err(fault) => Ok(format!(in alloc; "{fault:?}")?),
    }
}

// How many chunks there are; the first one's cluster, its start, its end and how long it is.
fn post_text(alloc: Global, post: &mut PostRef<'_>) -> Result<String, Fail> {
    let count = post.count();
    let first = post.next().ok_or("no chunk")?;
    let (cluster, start, end, size) = (first.cluster, first.start, first.seq, first.body.len());
    Ok(format!(in alloc; "{count} {cluster} {start} {end} {size}")?)
}

fn post(alloc: Global, bytes: &[u8]) -> Result<String, Fail> {
    match read_post(bytes) {
        Ok(mut post) => post_text(alloc, &mut post),
        Err(fault) => Ok(format!(in alloc; "{fault:?}")?),
    }
}

// The place behind the header.
fn header(alloc: Global, bytes: &[u8]) -> Result<String, Fail> {
    match read_header(bytes) {
        Ok(head) => {
            let end = head.end;
            Ok(format!(in alloc; "{end}")?)
        }
        Err(fault) => Ok(format!(in alloc; "{fault:?}")?),
    }
}

// How many records there are, and where they stop.
fn records(alloc: Global, bytes: &[u8]) -> Result<String, Fail> {
    match front(alloc, bytes) {
        Ok(front) => {
            let (count, stop) = (front.entries.as_slice().len(), front.stop);
            Ok(format!(in alloc; "{count} {stop:?}")?)
        }
        Err(fault) => Ok(format!(in alloc; "{fault:?}")?),
    }
}

// The status code and the name of the answer to a request.
pub(crate) fn request_answer(bytes: &[u8]) -> (u16, &'static str) {
    match read_request(bytes) {
        Ok(RequestRef::Post { .. }) => (200, "Post"),
        Ok(RequestRef::Acks { .. }) => (200, "Acks"),
        Err(fault) => (fault.code(), fault.name()),
    }
}

fn request(alloc: Global, bytes: &[u8]) -> Result<String, Fail> {
    let (code, name) = request_answer(bytes);
    Ok(format!(in alloc; "{code} {name}")?)
}

// The code of a reply.
fn reply(alloc: Global, bytes: &[u8]) -> Result<String, Fail> {
    match read_reply(bytes) {
        Ok(reply) => {
            let code = reply.code;
            Ok(format!(in alloc; "{code}")?)
        }
        Err(fault) => Ok(format!(in alloc; "{fault:?}")?),
    }
}

fn lines(alloc: Global, bytes: &[u8], count: u32) -> Result<String, Fail> {
    let are_lines = LineList::new(bytes, count).is_ok();
    plain(alloc, if are_lines { "lines" } else { "none" })
}

fn answer_of_message(alloc: Global, kind: &str, bytes: &[u8]) -> Result<String, Fail> {
    match kind {
        "request" => request(alloc, bytes),
        "reply" => reply(alloc, bytes),
        "no lines" => lines(alloc, bytes, 0),
        "one line" => lines(alloc, bytes, 1),
        "two lines" => lines(alloc, bytes, 2),
        _ => Err(Fail::from("no such reader")),
    }
}

fn answer_of_file(alloc: Global, kind: &str, bytes: &[u8]) -> Result<String, Fail> {
    match kind {
        "key" => key(alloc, bytes),
        "post" => post(alloc, bytes),
        "header" => header(alloc, bytes),
        "records" => records(alloc, bytes),
        "line" => line(alloc, bytes),
        _ => answer_of_pieces(alloc, kind, bytes),
    }
}

fn answer_of_pieces(alloc: Global, kind: &str, bytes: &[u8]) -> Result<String, Fail> {
    match kind {
        "damage" => damage(alloc, bytes),
        "fed 64" => fed(alloc, 64, bytes),
        "fed 65" => fed(alloc, 65, bytes),
        "fed slowly" => fed_slowly(alloc, bytes),
        "passed" => passed(alloc, bytes),
        "salvaged" => salvaged(alloc, bytes),
        _ => answer_of_message(alloc, kind, bytes),
    }
}

fn answer_of(alloc: Global, kind: &str, bytes: &[u8]) -> Result<String, Fail> {
    match kind {
        "vint" => vint(alloc, bytes),
        "word" => word(alloc, bytes),
        "decimal" => decimal(alloc, bytes),
        "number" => number(alloc, bytes),
        "stem" => stem(alloc, bytes),
        "collector" => collector(alloc, bytes),
        _ => answer_of_file(alloc, kind, bytes),
    }
}

pub(crate) fn same(alloc: Global, row: &str, given: &str, wanted: &str) -> Result<(), Fail> {
    if given == wanted {
        return Ok(());
    }
    let text = format!(in alloc; "{given} of {row}")?;
    Err(Fail::new(text.as_str()))
}

// The reader of this kind answers this to the bytes.
pub(crate) fn answers(alloc: Global, kind: &str, bytes: &[u8], wanted: &str) -> Result<(), Fail> {
    let given = answer_of(alloc, kind, bytes)?;
    same(alloc, kind, given.as_str(), wanted)
}

fn answers_row(alloc: Global, kind: &str, row: &str) -> Result<(), Fail> {
    let (text, wanted) = row.split_once(" => ").ok_or("no answer")?;
    let bytes = bytes_of(alloc, text)?;
    let given = answer_of(alloc, kind, bytes.as_slice())?;
    same(alloc, row, given.as_str(), wanted)
}

// Each line is `BYTES => ANSWER`.
pub(crate) fn answers_each(alloc: Global, kind: &str, table: &str) -> Result<(), Fail> {
    for row in table.lines() {
        answers_row(alloc, kind, row)?;
    }
    Ok(())
}
