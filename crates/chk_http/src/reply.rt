//! Replies, read in place.

ghost use Rattle.std.specs.Prelude.{◌≡◌, ◌↔◌, ℕ, List, IfErr};
ghost use Rattle.httparse.specs.Spans.{IsResponseWithin};
ghost use Rattle.chk_http_grammar.specs.Messages.{IsReply};
ghost use Rattle.chk_http.specs.Heads.{IsEndlessReply};
ghost use Rattle.chk_http.specs.Replies.{AnswersReplied, replied_at, GivesReply, IsReplyFault};
ghost use Rattle.chk_http.specs.Replies.{IsReplyWithoutLength, HasBadReplyLength};
ghost use Rattle.chk_http.specs.Replies.{HasLongReplyBody, HasCutReplyBody, IsBadReplyHead};
ghost use Rattle.chk_http.specs.Replies.{IsTooLargeReply, IsNotYetReply};

use crate::HttpFault;
use crate::body::read_body;
use crate::head::{ReplyPlaces, read_reply_head};

/// A reply, borrowed from its bytes.
#[derive(Clone, Copy, Debug, PartialEq, Eq)]
pub struct ReplyRef<'a> {
    /// The status code, three digits.
    pub code: u16,
    /// As many bytes as the head states.
    pub body: &'a [u8],
}

/// Reads the reply at the front of the bytes, in one pass and without a copy. Bytes behind the body
/// aren't looked at, nor is the phrase. Too many header lines are told as `httparse` tells them;
/// else each answer comes exactly in its case.
pub fn read_reply(bytes: &[u8]) -> Result<ReplyRef<'_>, HttpFault>
    ensures reply { (code : ℕ) (body : List ℕ)
        → GivesReply result code body ↔ IsReply code body bytes.now }
    ensures faults { IfErr result IsReplyFault }

    ensures no_length { (result ≡ Err HttpFault.NoLength) ↔ IsReplyWithoutLength bytes.now }

    // These three also tell that there is no head.
    ensures bad_head { result ≡ Err HttpFault.BadHead → IsBadReplyHead bytes.now }
    ensures bad_length { HasBadReplyLength bytes.now → result ≡ Err HttpFault.BadHead }
    ensures too_large { result ≡ Err HttpFault.TooLarge → IsTooLargeReply bytes.now }
    ensures endless { IsEndlessReply bytes.now → result ≡ Err HttpFault.TooLarge }
    ensures long_body { HasLongReplyBody bytes.now → result ≡ Err HttpFault.TooLarge }
    ensures not_yet { result ≡ Err HttpFault.NotYet → IsNotYetReply bytes.now }
    ensures cut_body { HasCutReplyBody bytes.now → result ≡ Err HttpFault.NotYet }
{
    let head = read_reply_head(bytes)?;
    read_replied(bytes, &head)
}

// The reply behind a head.
fn read_replied<'a>(bytes: &'a [u8], head: &ReplyPlaces) -> Result<ReplyRef<'a>, HttpFault>
    requires within { IsResponseWithin bytes.now head.now.headers head.now.spans }
    ensures { AnswersReplied (replied_at bytes.now head.now) result }
{
    let body = read_body(bytes, &head.headers[..head.spans.headers], head.spans.len)?;
    Ok(ReplyRef {
        code: head.spans.code,
        body,
    })
}
