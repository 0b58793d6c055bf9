//! The chunks of an answered post, each with the line that answered it.

ghost use Rattle.std.specs.Prelude.{◌≡◌, length, IsTrue, IfSome, IfNone, List, ℕ};
ghost use Rattle.std.specs.List.{list_all};
ghost use Rattle.chk_chunk.specs.Keys.{Chunk};
ghost use Rattle.chk_chunk.specs.Posts.{IsPost};
ghost use Rattle.chk_http_grammar.specs.Messages.{Ack, PostRequest};
ghost use Rattle.chk_http.specs.Lines.{IsLines};
ghost use Rattle.chk_tee_sender.specs.Offers.{IsSound, IsOfferOf, HasNoOffer, ArePlaced, AreLinesOf, HasNoLines, is_placed};
ghost use Rattle.chk_tee_sender.specs.Offers.{chunks_in, chunks_of, acks_of};

use chk_chunk::{PostRef, read_post};
use chk_http::{LineList, RequestRef, read_reply, read_request};

/// A post that was answered well: its body, and the lines of the reply, one for each chunk.
#[derive(Clone, Copy)]
pub(crate) struct Offer<'a> {
    pub post: &'a [u8],
    pub lines: &'a [u8],
    pub count: u32,
}

/// What a request and its reply offer. It is nothing where the request isn't a post, the reply is no
/// good one to it, or a line has the number 0.
pub(crate) fn offered<'a>(request: &'a [u8], reply: &'a [u8]) -> Option<Offer<'a>>
    ensures some { IfSome result (IsOfferOf request.now reply.now) }
    ensures none { IfNone result (HasNoOffer request.now reply.now) }
{
    let Some(post) = post_of(request) else {
        return None;
    };
    let Some(count) = count_of(post) else {
        return None;
    };
    match lines_of(reply, count) {
        Some(lines) => Some(Offer { post, lines, count }),
        None => None,
    }
}

/// The chunks of an offer, from the first one on.
pub(crate) fn chunks<'a>(offer: &Offer<'a>) -> PostRef<'a>
    requires { IsSound offer.now }
    ensures { result.left ≡ chunks_of offer.now }
{
    match read_post(offer.post) {
        Ok(post) => post,
        Err(_) => unreachable!(),
    }
}

/// The lines of an offer, from the first one on.
pub(crate) fn lines<'a>(offer: &Offer<'a>) -> LineList<'a>
    requires { IsSound offer.now }
    ensures { result ≡ acks_of offer.now }
{
    match LineList::new(offer.lines, offer.count) {
        Ok(lines) => lines,
        Err(_) => unreachable!(),
    }
}

// The body of the post that the request is.
fn post_of(request: &[u8]) -> Option<&[u8]>
    ensures some { IfSome result (λ body. PostRequest body.now request.now) }
    ensures none { IfNone result ((body : List ℕ) → ¬ (PostRequest body request.now)) }
{
    match read_request(request) {
        Ok(RequestRef::Post { body }) => Some(body),
        Ok(RequestRef::Acks { .. }) => None,
        Err(_) => None,
    }
}

// How many chunks the body has, where it is a post.
fn count_of(body: &[u8]) -> Option<u32>
    ensures some { IfSome result (λ count. IsPost (chunks_in body.now) body.now × (count ≡ length (chunks_in body.now))) }
    ensures none { IfNone result ((chunks : List Chunk) → ¬ (IsPost chunks body.now)) }
{
    match read_post(body) {
        Ok(post) => Some(post.count()),
        Err(_) => None,
    }
}

// The lines of the reply, where it is a good one of so many lines and none has the number 0.
fn lines_of(reply: &[u8], count: u32) -> Option<&[u8]>
    ensures some { IfSome result (λ body. AreLinesOf reply.now count body.now) }
    ensures none { IfNone result (HasNoLines reply.now count) }
{
    match read_reply(reply) {
        Ok(reply) => {
            if reply.code != 200 {
                return None;
            }
            if are_placed(reply.body, count) {
                Some(reply.body)
            } else {
                None
            }
        }
        Err(_) => None,
    }
}

// The body is so many lines, none of which has the number 0.
fn are_placed(body: &[u8], count: u32) -> bool
    ensures yes { IsTrue result → ArePlaced count body.now }
    ensures all { (acks : List Ack) → IsLines count acks body.now → IsTrue (list_all is_placed acks) → IsTrue result }
{
    match LineList::new(body, count) {
        Ok(lines) => have_numbers(lines),
        Err(_) => false,
    }
}

// No line has the number 0.
fn have_numbers(mut lines: LineList<'_>) -> bool
    ensures { result ≡ list_all is_placed lines.entry }
{
    while let Some((_, number)) = lines.next() {
        if number == 0 {
            return false;
        }
    }
    true
}
