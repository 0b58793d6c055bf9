//! How far the message of a peer came.
ghost use Rattle.std.specs.Prelude.{◌≡◌, ◌⊎◌, ℕ, List, [], IsTrue};
ghost use Rattle.chk_bytes.specs.Stems.{Stem};
ghost use Rattle.chk_http_grammar.specs.Messages.{PostRequest, PollRequest};
ghost use Rattle.chk_http.specs.Requests.{HasCutBody};
ghost use Rattle.chk_site_peers.specs.Stages.{ended_at, gone_at, open_at, silent_at, stale_at, there_at, whole_at, IsStageOf};

use chk_http::{HttpFault, read_request};

/// How far the message of a peer came.
#[derive(Clone, Copy, Debug, PartialEq, Eq)]
pub enum Stage {
    /// No byte came yet.
    Silent,
    /// A request that isn't whole yet, and more may come.
    Begun,
    /// A whole request, or bytes that are no request; the peer is there.
    Whole,
    /// The same, and its sender waits no longer soon: the last byte came long ago.
    Stale,
    /// Bytes came, and nothing more comes: the peer ended its side, or sent nothing for too long.
    Ended,
    /// The peer is gone, and there is nothing to serve.
    Gone,
}

impl Stage {
    pub fn is_silent(self) -> bool
        ensures { result ≡ silent_at self }
    {
        match self {
            Stage::Silent => true,
            Stage::Begun | Stage::Whole | Stage::Stale | Stage::Ended | Stage::Gone => false,
        }
    }

    pub fn is_whole(self) -> bool
        ensures { result ≡ whole_at self }
    {
        match self {
            Stage::Whole => true,
            Stage::Silent | Stage::Begun | Stage::Stale | Stage::Ended | Stage::Gone => false,
        }
    }

    pub fn is_stale(self) -> bool
        ensures { result ≡ stale_at self }
    {
        match self {
            Stage::Stale => true,
            Stage::Silent | Stage::Begun | Stage::Whole | Stage::Ended | Stage::Gone => false,
        }
    }

    /// The message is whole and the peer is there: it can be served.
    pub fn is_there(self) -> bool
        ensures { result ≡ there_at self }
    {
        match self {
            Stage::Whole | Stage::Stale => true,
            Stage::Silent | Stage::Begun | Stage::Ended | Stage::Gone => false,
        }
    }

    pub fn is_ended(self) -> bool
        ensures { result ≡ ended_at self }
    {
        match self {
            Stage::Ended => true,
            Stage::Silent | Stage::Begun | Stage::Whole | Stage::Stale | Stage::Gone => false,
        }
    }

    /// More of the message is wanted.
    pub fn is_open(self) -> bool
        ensures { result ≡ open_at self }
    {
        match self {
            Stage::Silent | Stage::Begun => true,
            Stage::Whole | Stage::Stale | Stage::Ended | Stage::Gone => false,
        }
    }

    pub fn is_gone(self) -> bool
        ensures { result ≡ gone_at self }
    {
        match self {
            Stage::Gone => true,
            Stage::Silent | Stage::Begun | Stage::Whole | Stage::Stale | Stage::Ended => false,
        }
    }
}

/// The stage of a peer that is there, by what it sent so far. It costs one reading of a head.
pub fn stage_of(bytes: &[u8]) -> Stage
    ensures stage { IsStageOf bytes.now result }
    ensures cut { HasCutBody bytes.now → (bytes.now ≡ []) ⊎ (result ≡ Stage.Begun) }
    ensures post { (body : List ℕ) → PostRequest body bytes.now → (bytes.now ≡ []) ⊎ (result ≡ Stage.Whole) }
    ensures poll { (stems : List Stem) → PollRequest stems bytes.now → (bytes.now ≡ []) ⊎ (result ≡ Stage.Whole) }
{
    if bytes.is_empty() {
        return Stage::Silent;
    }
    match read_request(bytes) {
        Err(HttpFault::NotYet) => Stage::Begun,
        _ => Stage::Whole,
    }
}

/// Whether these bytes are a whole request, whose length tells its end: the sender of any other
/// message tells the end by ending its side.
pub fn tells_its_end(bytes: &[u8]) -> bool
    ensures post { (body : List ℕ) → PostRequest body bytes.now → IsTrue result }
    ensures poll { (stems : List Stem) → PollRequest stems bytes.now → IsTrue result }
    ensures only { IsTrue result
        → ((body : List ℕ) × PostRequest body bytes.now) ⊎ ((stems : List Stem) × PollRequest stems bytes.now) }
{
    match read_request(bytes) {
        Ok(_) => true,
        Err(_) => false,
    }
}
