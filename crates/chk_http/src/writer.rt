//! Requests and replies, written.

ghost use Rattle.std.specs.Prelude.{List, ℕ, ◌≡◌, ◌≤◌, ◌<◌, ◌++◌, ◌∷◌, [], IsTrue, IfOk, OnOk, length};
ghost use Rattle.std.specs.Prelude.{codes, decimal};
ghost use Rattle.std.specs.List.{list_all};
ghost use Rattle.http.specs.StatusCode.{code_digits};
ghost use Rattle.chk_bytes.specs.Words.{is_word};
ghost use Rattle.chk_bytes.specs.Stems.{is_stem};
ghost use Rattle.chk_chunk.specs.Posts.{post_limit};
ghost use Rattle.chk_http_grammar.specs.Messages.{head_line, query_text, written_post_request};
ghost use Rattle.chk_http_grammar.specs.Messages.{written_reply, WrittenPoll, WrittenReply};
ghost use Rattle.chk_http_grammar.specs.Messages.{PostRequest, PollRequest, IsReply};
ghost use Rattle.chk_http.specs.Written.{is_answer_code, phrase_of, separator_at};

use chk_bytes::{Bytes, NoMemory, Stem, put_decimal};
use http::StatusCode;
use std::alloc::Global;

/// The most bytes of a post's head beside the address.
const HEAD_BYTES: usize = 130;

/// A request to post `body` to the collector at `address`, which is a word.
pub fn write_post_request(alloc: Global, address: &str, body: &[u8]) -> Result<Bytes, NoMemory>
    requires word { IsTrue (is_word address.now) }
    ensures written { IfOk result (λ bytes. bytes ≡ written_post_request address.now body.now) }
    ensures accepted { IfOk result (λ bytes. length body.now ≤ post_limit
        → PostRequest body.now bytes) }
{
    let mut out = write_post_head(alloc, address, body.len())?;
    out.push_all(body)?;
    Ok(out)
}

/// The head of a request to post a body of so many bytes to the collector at `address`, which is a
/// word. The body is to be appended: its memory is taken with the head's, so it is copied once.
pub fn write_post_head(alloc: Global, address: &str, size: usize) -> Result<Bytes, NoMemory>
    requires word { IsTrue (is_word address.now) }
    ensures written { IfOk result (λ head. (body : List ℕ) → length body ≡ size
        → head ++ body ≡ written_post_request address.now body) }
    ensures accepted { IfOk result (λ head. (body : List ℕ) → length body ≡ size
        → size ≤ post_limit → PostRequest body (head ++ body)) }
{
    let head = address.len().saturating_add(HEAD_BYTES);
    let mut out = Bytes::with_capacity(alloc, head.saturating_add(size))?;
    out.push_all(b"POST /chukwa HTTP/1.1\r\n")?;
    put_line(&mut out, b"Host: ", address.as_bytes())?;
    out.push_all(b"Content-Type: application/octet-stream\r\n")?;
    put_length(&mut out, size)?;
    out.push_all(b"Connection: close\r\n\r\n")?;
    Ok(out)
}

/// A poll for the committed lengths of the sinks with these stems.
pub fn write_acks_request(alloc: Global, address: &str, stems: &[Stem]) -> Result<Bytes, NoMemory>
    requires word { IsTrue (is_word address.now) }
    requires some { 0 < length stems.now }
    requires few { length stems.now ≤ 64 }
    ensures written { IfOk result (λ bytes. WrittenPoll address.now stems.now bytes) }
    ensures accepted { IfOk result (λ bytes. PollRequest stems.now bytes) }
{
    let mut out = Bytes::new(alloc);
    out.push_all(b"GET /acks?")?;
    put_stems(&mut out, stems)?;
    out.push_all(b" HTTP/1.1\r\n")?;
    put_line(&mut out, b"Host: ", address.as_bytes())?;
    out.push_all(b"Connection: close\r\n\r\n")?;
    Ok(out)
}

/// A reply of this code, one of 200, 400, 404, 405, 411, 413 and 503, with the phrase that the
/// `http` crate gives it.
pub fn write_reply(alloc: Global, code: u16, body: &[u8]) -> Result<Bytes, NoMemory>
    requires answered { IsTrue (is_answer_code code) }
    ensures written { IfOk result (λ bytes. bytes ≡ written_reply code (phrase_of code) body.now) }
    ensures reply { IfOk result (λ bytes. length body.now ≤ post_limit
        → WrittenReply code (phrase_of code) body.now bytes) }
    ensures accepted { IfOk result (λ bytes. length body.now ≤ post_limit
        → IsReply code body.now bytes) }
{
    let mut out = Bytes::new(alloc);
    put_status_line(&mut out, code)?;
    out.push_all(b"Content-Type: text/plain\r\n")?;
    put_length(&mut out, body.len())?;
    out.push_all(b"Connection: close\r\n\r\n")?;
    out.push_all(body)?;
    Ok(out)
}

fn put_status_line(out: &mut Bytes, code: u16) -> Result<(), NoMemory>
    requires { IsTrue (is_answer_code code) }
    ensures { OnOk result (out.new
        ≡ out.old ++ head_line (codes "HTTP/1.1 " ++ (decimal code ++ 32 ∷ phrase_of code))) }
{
    match StatusCode::from_u16(code) {
        Ok(status) => {
            out.push_all(b"HTTP/1.1 ")?;
            out.push_all(status.as_str().as_bytes())?;
            out.push_all(b" ")?;
            out.push_all(status.canonical_reason().unwrap_or("").as_bytes())?;
            out.push_all(b"\r\n")
        }
        Err(_) => unreachable!(),
    }
}

#[tactic(auto, using(std::proofs::lemmas::List::append_assoc))]
fn put_line(out: &mut Bytes, name: &[u8], value: &[u8]) -> Result<(), NoMemory>
    ensures { OnOk result (out.new ≡ out.old ++ head_line (name.now ++ value.now)) }
{
    out.push_all(name)?;
    out.push_all(value)?;
    out.push_all(b"\r\n")
}

#[tactic(auto, using(std::proofs::lemmas::List::append_assoc))]
fn put_length(out: &mut Bytes, length: usize) -> Result<(), NoMemory>
    ensures { OnOk result (out.new
        ≡ out.old ++ head_line (codes "Content-Length: " ++ decimal length)) }
{
    out.push_all(b"Content-Length: ")?;
    put_decimal(out, length as u64)?;
    out.push_all(b"\r\n")
}

// The stems with `&` between each two. That each is one is known by its number.
fn put_stems(out: &mut Bytes, stems: &[Stem]) -> Result<(), NoMemory>
    ensures written { OnOk result (out.new ≡ out.old ++ query_text stems.now) }
    ensures valid { OnOk result (IsTrue (list_all is_stem stems.now)) }
{
    for (place, stem) in stems.iter().enumerate() {
        put_separator(out, place)?;
        let _sound = stem.number();
        stem.write(out)?;
    }
    Ok(())
}

// An `&` before each stem but the first.
fn put_separator(out: &mut Bytes, place: usize) -> Result<(), NoMemory>
    ensures { OnOk result (out.new ≡ out.old ++ separator_at place) }
{
    if place == 0 {
        return Ok(());
    }
    out.push_all(b"&")
}
