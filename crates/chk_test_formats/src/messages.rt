//! Requests and replies as they are written.
ghost use Rattle.std.specs.Prelude.{◌<◌, ◌≤◌, length};

use crate::answers::request_answer as answer;
use chk_bytes::{Bytes, Stem, Word};
use chk_http::{
    HttpFault, LineList, ReplyRef, RequestRef, StemList, read_reply, read_request,
    write_acks_request, write_post_request, write_reply,
};
use std::alloc::Global;
use std::test::Fail;

/// The post of the chunk `hello\n` of the stream h1, Log, /a.log.
const POST: &[u8; 44] =
    b"\0\0\0\x01\0\0\0\x1A\x01\0\0\0\0\0\0\0\x06\0\x02h1\0\x03Log\0\x06/a.log\0\0\0\x06hello\n";

#[test]
fn faults_by_number(rt: HostRuntime) {
    for (fault, number) in [
        (HttpFault::BadHead, 1),
        (HttpFault::NoLength, 2),
        (HttpFault::TooLarge, 3),
        (HttpFault::NotYet, 4),
        (HttpFault::BadPath, 5),
        (HttpFault::BadMethod, 6),
        (HttpFault::BadLine, 7),
    ] {
        assert!(rt; fault as u8 == number);
    }
}

// Where the answer to a front isn't the expected one, the front's size says which one it is.
fn waits(alloc: Global, is_so: bool, size: usize) -> Result<(), Fail> {
    if is_so {
        return Ok(());
    }
    let text = format!(in alloc; "{size}")?;
    Err(Fail::new(text.as_str()))
}

// No front of a written request is a request.
fn request_waits(alloc: Global, written: &[u8]) -> Result<(), Fail> {
    for size in 0..written.len() {
        waits(alloc, answer(&written[..size]) == (400, "NotYet"), size)?;
    }
    Ok(())
}

// No front of a written reply is a reply.
fn reply_waits(alloc: Global, written: &[u8]) -> Result<(), Fail> {
    for size in 0..written.len() {
        let is_so = read_reply(&written[..size]) == Err(HttpFault::NotYet);
        waits(alloc, is_so, size)?;
    }
    Ok(())
}

const POST_HEAD: &[u8] =
    b"POST /chukwa HTTP/1.1\r\nHost: self\r\nContent-Type: application/octet-stream\r\nContent-Length: 44\r\nConnection: close\r\n\r\n";

fn post(alloc: Global) -> Result<Bytes, Fail> {
    let address = Word::new(alloc, b"self")?;
    Ok(write_post_request(alloc, address.as_str(), POST)?)
}

fn is_post(written: &[u8]) -> bool {
    written.len() == 160 && written.starts_with(POST_HEAD)
}

// What follows a post isn't looked at.
fn is_read_as_post(request: &mut Bytes) -> Result<bool, Fail> {
    request.push_all(b"GET / HTTP/1.1\r\n\r\n")?;
    Ok(read_request(request.as_slice()) == Ok(RequestRef::Post { body: POST }))
}

#[test]
fn written_post_is_read(rt: HostRuntime) -> Result<(), Fail> {
    let mut request = post(rt.alloc())?;
    assert!(rt; is_post(request.as_slice()));
    request_waits(rt.alloc(), request.as_slice())?;
    assert!(rt; is_read_as_post(&mut request)?);
    Ok(())
}

const POLL: &[u8] = b"GET /acks?c1.1.1 HTTP/1.1\r\nHost: self\r\nConnection: close\r\n\r\n";

fn poll(alloc: Global, stems: &[Stem]) -> Result<Bytes, Fail>
    requires some { 0 < length stems.now }
    requires few { length stems.now ≤ 64 }
{
    let address = Word::new(alloc, b"self")?;
    Ok(write_acks_request(alloc, address.as_str(), stems)?)
}

// The written poll for one sink, of which no front is a poll.
fn is_poll(alloc: Global, first: Stem) -> Result<bool, Fail> {
    let request = poll(alloc, &[first])?;
    request_waits(alloc, request.as_slice())?;
    Ok(request.as_slice() == POLL)
}

// The query lists just these two stems.
fn lists(query: &str, first: Stem, other: Stem) -> bool {
    let Some(mut stems) = StemList::new(query) else {
        return false;
    };
    stems.next() == Some(first) && stems.next() == Some(other) && stems.next() == None
}

// The written poll for two sinks is read as both.
fn polls_both(alloc: Global, first: Stem, other: Stem) -> Result<bool, Fail> {
    let request = poll(alloc, &[first, other])?;
    match read_request(request.as_slice()) {
        Ok(RequestRef::Acks { query }) => {
            Ok(query == "c1.1.1&c9.1.1" && lists(query, first, other))
        }
        _ => Err(Fail::from("no poll")),
    }
}

#[test]
fn written_poll_is_read(rt: HostRuntime) -> Result<(), Fail> {
    let first = Stem::new("c1", 1, 1).ok_or("stem")?;
    let other = Stem::new("c9", 1, 1).ok_or("stem")?;
    assert!(rt; is_poll(rt.alloc(), first)? && polls_both(rt.alloc(), first, other)?);
    Ok(())
}

const REPLY: &[u8] =
    b"HTTP/1.1 200 OK\r\nContent-Type: text/plain\r\nContent-Length: 11\r\nConnection: close\r\n\r\nc1.1.1 144\n";

// What follows a reply isn't looked at.
fn is_read_as_reply(reply: &mut Bytes) -> Result<bool, Fail> {
    reply.push_all(b"x")?;
    let body = b"c1.1.1 144\n".as_slice();
    Ok(read_reply(reply.as_slice()) == Ok(ReplyRef { code: 200, body }))
}

#[test]
fn written_reply_is_read(rt: HostRuntime) -> Result<(), Fail> {
    let mut reply = write_reply(rt.alloc(), 200, b"c1.1.1 144\n")?;
    assert!(rt; reply.len() == 95 && reply.as_slice() == REPLY);
    reply_waits(rt.alloc(), reply.as_slice())?;
    assert!(rt; is_read_as_reply(&mut reply)?);
    Ok(())
}

// The phrases of the `http` crate.
const PHRASES: &str = "\
200 OK
400 Bad Request
404 Not Found
405 Method Not Allowed
411 Length Required
413 Payload Too Large
503 Service Unavailable
";

fn begins(alloc: Global, code: u16, row: &str) -> Result<(), Fail> {
    if !matches!(code, 200 | 400 | 404 | 405 | 411 | 413 | 503) {
        return Err(Fail::new(row));
    }
    let reply = write_reply(alloc, code, b"")?;
    let line = format!(in alloc; "HTTP/1.1 {row}\r\n")?;
    if reply.as_slice().starts_with(line.as_bytes()) {
        Ok(())
    } else {
        Err(Fail::new(row))
    }
}

#[test]
fn phrases(rt: HostRuntime) -> Result<(), Fail> {
    for row in PHRASES.lines() {
        let (code, _) = row.split_once(' ').ok_or("no phrase")?;
        begins(rt.alloc(), code.parse()?, row)?;
    }
    Ok(())
}

#[test]
fn a_line_of_a_reply(rt: HostRuntime) -> Result<(), Fail> {
    let first = Stem::new("c1", 1, 1).ok_or("stem")?;
    let mut lines = LineList::new(b"c1.1.1 144\n", 1).ok().ok_or("lines")?;
    assert!(rt; lines.next() == Some((first, 144)));
    assert!(rt; lines.next() == None);
    Ok(())
}
