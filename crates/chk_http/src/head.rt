//! Heads of at most 32 header lines and 16,384 bytes, read in place.

ghost use Rattle.std.specs.Prelude.{◌≡◌, ◌≤◌, ℕ, List, length, drop, IfOk, IfErr, IsOk, IsOkAnd};
ghost use Rattle.httparse.specs.Spans.{IsRequestWithin, IsRequestAt, IsResponseWithin};
ghost use Rattle.httparse.specs.Spans.{IsResponseAt};
ghost use Rattle.httparse.specs.Grammar.{RequestHead, ReadsRequest, ResponseHead, ReadsResponse};
ghost use Rattle.chk_http_grammar.specs.Heads.{HasRequestHead, HasReplyHead};
ghost use Rattle.chk_http.specs.Heads.{IsEndlessRequest, IsRequestHeadFault, IsRequestFrontFault};
ghost use Rattle.chk_http.specs.Heads.{IsEndlessReply, IsReplyHeadFault, IsReplyFrontFault};

use crate::HttpFault;
use httparse::spans::{
    EMPTY_HEADER_SPAN, HeaderSpan, RequestSpans, ResponseSpans, parse_request, parse_response,
};
use httparse::{Error, Status};

/// The most bytes of a head.
const HEAD_BYTES: usize = 16_384;

/// Where the parts of a request's head are.
#[derive(Drop)]
pub struct RequestPlaces {
    pub spans: RequestSpans,
    pub headers: [HeaderSpan; 32],
}

/// Where the parts of a reply's head are.
#[derive(Drop)]
pub struct ReplyPlaces {
    pub spans: ResponseSpans,
    pub headers: [HeaderSpan; 32],
}

/// Reads the head of a request at the front of the bytes.
pub fn read_request_head(bytes: &[u8]) -> Result<RequestPlaces, HttpFault>
    ensures within { IfOk result (λ head. IsRequestWithin bytes.now head.headers head.spans) }
    ensures head { IfOk result (λ head. (h : RequestHead)
        × IsRequestAt bytes.now head.headers head.spans h
        × HasRequestHead bytes.now h (drop head.spans.len bytes.now)) }
    ensures found { (h : RequestHead) (behind : List ℕ) → HasRequestHead bytes.now h behind
        → IsOk result }
    ensures endless { IsEndlessRequest bytes.now → result ≡ Err HttpFault.TooLarge }
    ensures refused { IfErr result (IsRequestHeadFault bytes.now) }
{
    if bytes.len() < HEAD_BYTES {
        return read_request_front(bytes);
    }
    match read_request_front(&bytes[..HEAD_BYTES]) {
        Ok(head) => Ok(head),
        Err(_) => Err(HttpFault::TooLarge),
    }
}

// The head of a request at the front of the bytes, whatever its size.
fn read_request_front(bytes: &[u8]) -> Result<RequestPlaces, HttpFault>
    ensures within { IfOk result (λ head. IsRequestWithin bytes.now head.headers head.spans) }
    ensures head { IfOk result (λ head. (h : RequestHead)
        × IsRequestAt bytes.now head.headers head.spans h × (length h.fields ≤ 32)) }
    ensures found { (h : RequestHead) (rest : List ℕ) → ReadsRequest bytes.now h rest
        → length h.fields ≤ 32
        → IsOkAnd result (λ head. IsRequestAt bytes.now head.headers head.spans h) }
    ensures refused { IfErr result (IsRequestFrontFault bytes.now) }
{
    let mut headers = [EMPTY_HEADER_SPAN; 32];
    match parse_request(bytes, &mut headers) {
        Ok(Status::Complete(spans)) => Ok(RequestPlaces { spans, headers }),
        Ok(Status::Partial) => Err(HttpFault::NotYet),
        Err(Error::TooManyHeaders) => Err(HttpFault::TooLarge),
        Err(_) => Err(HttpFault::BadHead),
    }
}

/// Reads the head of a reply at the front of the bytes.
pub fn read_reply_head(bytes: &[u8]) -> Result<ReplyPlaces, HttpFault>
    ensures within { IfOk result (λ head. IsResponseWithin bytes.now head.headers head.spans) }
    ensures head { IfOk result (λ head. (h : ResponseHead)
        × IsResponseAt bytes.now head.headers head.spans h
        × HasReplyHead bytes.now h (drop head.spans.len bytes.now)) }
    ensures found { (h : ResponseHead) (behind : List ℕ) → HasReplyHead bytes.now h behind
        → IsOk result }
    ensures endless { IsEndlessReply bytes.now → result ≡ Err HttpFault.TooLarge }
    ensures refused { IfErr result (IsReplyHeadFault bytes.now) }
{
    if bytes.len() < HEAD_BYTES {
        return read_reply_front(bytes);
    }
    match read_reply_front(&bytes[..HEAD_BYTES]) {
        Ok(head) => Ok(head),
        Err(_) => Err(HttpFault::TooLarge),
    }
}

// The head of a reply at the front of the bytes, whatever its size.
fn read_reply_front(bytes: &[u8]) -> Result<ReplyPlaces, HttpFault>
    ensures within { IfOk result (λ head. IsResponseWithin bytes.now head.headers head.spans) }
    ensures head { IfOk result (λ head. (h : ResponseHead)
        × IsResponseAt bytes.now head.headers head.spans h × (length h.fields ≤ 32)) }
    ensures found { (h : ResponseHead) (rest : List ℕ) → ReadsResponse bytes.now h rest
        → length h.fields ≤ 32
        → IsOkAnd result (λ head. IsResponseAt bytes.now head.headers head.spans h) }
    ensures refused { IfErr result (IsReplyFrontFault bytes.now) }
{
    let mut headers = [EMPTY_HEADER_SPAN; 32];
    match parse_response(bytes, &mut headers) {
        Ok(Status::Complete(spans)) => Ok(ReplyPlaces { spans, headers }),
        Ok(Status::Partial) => Err(HttpFault::NotYet),
        Err(Error::TooManyHeaders) => Err(HttpFault::TooLarge),
        Err(_) => Err(HttpFault::BadHead),
    }
}
