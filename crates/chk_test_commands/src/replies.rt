//! Replies of the collector c1 to an agent that drains.
use chk_bytes::{Bytes, Word};
use chk_site::{ActAnswer, Call, Role, Script, Who, Words};
use chk_test_calls::written;
use chk_test_engine::text_bytes;
use std::alloc::Global;
use std::test::Fail;

// An act of c1 before the call of this number.
fn act(
    alloc: Global,
    script: &mut Script,
    before: u64,
    call: Call,
    text: &[u8],
    number: u64,
    answer: ActAnswer,
) -> Result<(), Fail> {
    let mut other = written(alloc, call, &[text])?;
    other.before = before;
    other.act.who = Who {
        role: Role::Collector,
        name: Word::new(alloc, b"c1")?,
    };
    other.act.number = number;
    other.act.answer = answer;
    Ok(script.others.push(other)?)
}

// What is taken of the message of this number: its first byte. The first message is a post, and each
// later one a poll.
fn taken(alloc: Global, message: u64) -> Result<ActAnswer, Fail> {
    let first = if message == 1 { b"P" } else { b"G" };
    let mut words = Words::new(alloc);
    words.push(Bytes::from_slice(alloc, first.as_slice())?)?;
    Ok(ActAnswer::Done {
        words,
        number: message,
        of: message,
    })
}

fn reply_of(alloc: Global, code: &str, body: &str) -> Result<Bytes, Fail> {
    let body = text_bytes(alloc, body)?;
    let size = body.len();
    let head = format!(in alloc; "HTTP/1.1 {code} -\r\nContent-Length: {size}\r\n\r\n")?;
    let mut reply = Bytes::from_slice(alloc, head.as_bytes())?;
    reply.push_all(body.as_slice())?;
    Ok(reply)
}

// `CALL MESSAGE CODE BODY`: before the call of this number c1 takes the message and answers it.
pub(crate) fn add_reply(alloc: Global, script: &mut Script, text: &str) -> Result<(), Fail> {
    let mut words = text.splitn(4, ' ');
    let call: u64 = words.next().ok_or("no call")?.parse()?;
    let message: u64 = words.next().ok_or("no message")?.parse()?;
    let code = words.next().ok_or("no code")?;
    let reply = reply_of(alloc, code, words.next().unwrap_or(""))?;
    act(
        alloc,
        script,
        call,
        Call::Take,
        b"A",
        0,
        taken(alloc, message)?,
    )?;
    let done = ActAnswer::Done {
        words: Words::new(alloc),
        number: 0,
        of: 0,
    };
    act(
        alloc,
        script,
        call,
        Call::Answer,
        reply.as_slice(),
        message,
        done,
    )
}
