//! Requests, read in place.

ghost use Rattle.std.specs.Prelude.{◌≡◌, ◌≤◌, ◌↔◌, IsTrue, ℕ, List, length, take, drop, codes, All};
ghost use Rattle.httparse.specs.Spans.{IsHeaderWithin, IsRequestWithin};
ghost use Rattle.chk_bytes.specs.Stems.{Stem};
ghost use Rattle.chk_http_grammar.specs.Messages.{PostRequest, PollRequest};
ghost use Rattle.chk_http.specs.HeaderLines.{values_at};
ghost use Rattle.chk_http.specs.Heads.{IsEndlessRequest};
ghost use Rattle.chk_http.specs.Queries.{IsQuery};
ghost use Rattle.chk_http.specs.Requests.{IsTarget, AnswersPost, AnswersQuery, AnswersAsked};
ghost use Rattle.chk_http.specs.Requests.{asked_at, IsBadPath, IsBadMethod, IsBadQuery};
ghost use Rattle.chk_http.specs.Requests.{IsWithoutLength, HasBadLength, HasLongBody, HasCutBody};
ghost use Rattle.chk_http.specs.Requests.{IsBadHead, IsTooLarge, IsNotYet, GivesPost, GivesPoll};
ghost use Rattle.chk_http.specs.Requests.{IfPoll};

use crate::HttpFault;
use crate::body::read_body;
use crate::head::{RequestPlaces, read_request_head};
use crate::header_lines::{Named, value_named};
use crate::stem_list::is_query;
use httparse::spans::HeaderSpan;

/// What a request asks for, borrowed from its bytes.
#[derive(Clone, Copy, Debug, PartialEq, Eq)]
pub enum RequestRef<'a> {
    /// To take this post.
    Post { body: &'a [u8] },
    /// To tell the committed lengths of the sinks with these stems, which `StemList` reads.
    Acks { query: &'a str },
}

// What a target names.
#[derive(Clone, Copy)]
pub enum Target<'a> {
    Posts,
    Polls(&'a [u8]),
    Other,
}

/// Reads the request at the front of the bytes, in one pass and without a copy. Bytes behind the
/// body, or behind the head of a poll, aren't looked at. Versions 1.0 and 1.1 are accepted, names
/// of header lines in any case; of the header lines only the length and the coding count.
///
/// Too many header lines are told as `httparse` tells them, and bytes that end inside the target
/// may be told as `NotYet` though no head continues them; else each answer comes exactly in its
/// case, the first of the table that fits.
pub fn read_request(bytes: &[u8]) -> Result<RequestRef<'_>, HttpFault>
    ensures post { (body : List ℕ) → GivesPost result body ↔ PostRequest body bytes.now }
    ensures poll { (stems : List Stem) → GivesPoll result stems ↔ PollRequest stems bytes.now }
    ensures asked { IfPoll result (λ query. (stems : List Stem) × IsQuery stems query) }

    ensures bad_path { (result ≡ Err HttpFault.BadPath) ↔ IsBadPath bytes.now }
    ensures bad_method { (result ≡ Err HttpFault.BadMethod) ↔ IsBadMethod bytes.now }
    ensures bad_line { (result ≡ Err HttpFault.BadLine) ↔ IsBadQuery bytes.now }
    ensures no_length { (result ≡ Err HttpFault.NoLength) ↔ IsWithoutLength bytes.now }

    // These three also tell that there is no head.
    ensures bad_head { result ≡ Err HttpFault.BadHead → IsBadHead bytes.now }
    ensures bad_length { HasBadLength bytes.now → result ≡ Err HttpFault.BadHead }
    ensures too_large { result ≡ Err HttpFault.TooLarge → IsTooLarge bytes.now }
    ensures endless { IsEndlessRequest bytes.now → result ≡ Err HttpFault.TooLarge }
    ensures long_body { HasLongBody bytes.now → result ≡ Err HttpFault.TooLarge }
    ensures not_yet { result ≡ Err HttpFault.NotYet → IsNotYet bytes.now }
    ensures cut_body { HasCutBody bytes.now → result ≡ Err HttpFault.NotYet }
{
    let head = read_request_head(bytes)?;
    read_asked(bytes, &head)
}

// What is asked behind a head.
fn read_asked<'a>(bytes: &'a [u8], head: &RequestPlaces) -> Result<RequestRef<'a>, HttpFault>
    requires within { IsRequestWithin bytes.now head.now.headers head.now.spans }
    ensures { AnswersAsked (asked_at bytes.now head.now) result }
{
    let method = head.spans.method.of(bytes);
    match target_of(head.spans.path.of(bytes)) {
        Target::Posts => {
            if method != b"POST".as_slice() {
                return Err(HttpFault::BadMethod);
            }
            let body = read_post(bytes, &head.headers[..head.spans.headers], head.spans.len)?;
            Ok(RequestRef::Post { body })
        }
        Target::Polls(query) => {
            if method != b"GET".as_slice() {
                return Err(HttpFault::BadMethod);
            }
            let query = read_query(query)?;
            Ok(RequestRef::Acks { query })
        }
        Target::Other => Err(HttpFault::BadPath),
    }
}

// What a target is. A poll without a query has an empty one here.
fn target_of(target: &[u8]) -> Target<'_>
    ensures { IsTarget target.now result }
{
    if target == b"/chukwa".as_slice() {
        return Target::Posts;
    }
    if target == b"/acks".as_slice() {
        return Target::Polls(&target[5..]);
    }
    match target.strip_prefix(b"/acks?".as_slice()) {
        Some(query) if !query.is_empty() => Target::Polls(query),
        _ => Target::Other,
    }
}

// The body of a post.
fn read_post<'a>(
    bytes: &'a [u8],
    headers: &[HeaderSpan],
    start: usize,
) -> Result<&'a [u8], HttpFault>
    requires start_fits { start ≤ length bytes.now }
    requires within { All (IsHeaderWithin start) headers.now }
    ensures { AnswersPost (values_at (codes "transfer-encoding") bytes.now headers.now)
        (values_at (codes "content-length") bytes.now headers.now) (drop start bytes.now) result }
{
    match value_named(bytes, headers, b"transfer-encoding") {
        Named::Nothing => read_body(bytes, headers, start),
        Named::One(_) | Named::Several => Err(HttpFault::NoLength),
    }
}

// The query of a poll, as a text.
fn read_query(query: &[u8]) -> Result<&str, HttpFault>
    ensures { AnswersQuery query.now result }
{
    if !is_query(query) {
        return Err(HttpFault::BadLine);
    }
    match str::from_utf8(query) {
        Ok(text) => Ok(text),
        Err(_) => unreachable!(),
    }
}
