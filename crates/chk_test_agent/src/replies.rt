//! Replies of a collector as text.

use crate::words::told;
use chk_bytes::Bytes;
use chk_http::read_reply;
use chk_test_engine::{shown, text_bytes};
use std::alloc::Global;
use std::test::Fail;

// The code and the body.
pub(crate) fn reply_text(alloc: Global, reply: &[u8]) -> Result<String, Fail> {
    let Ok(read) = read_reply(reply) else {
        return told(alloc, "no reply", &[]);
    };
    let body = shown(alloc, read.body)?;
    let code = read.code;
    Ok(format!(in alloc; "{code} {body}")?)
}

// `CODE BODY` as the bytes of a reply.
pub(crate) fn spelled_reply(alloc: Global, text: &str) -> Result<Bytes, Fail> {
    let (code, body) = text.split_once(' ').ok_or("no body")?;
    let body = text_bytes(alloc, body)?;
    let length = body.as_slice().len();
    let head = format!(in alloc;
        "HTTP/1.1 {code} Said\r\nContent-Length: {length}\r\nConnection: close\r\n\r\n"
    )?;
    let mut reply = Bytes::from_slice(alloc, head.as_str().as_bytes())?;
    reply.push_all(body.as_slice())?;
    Ok(reply)
}
