//! What posts, polls and their replies answer.

use chk_bytes::Stem;

/// What the sending of a post answers.
#[derive(Clone, Copy, Debug, PartialEq, Eq)]
pub enum Posted {
    /// A post of so many chunks is out.
    Sent { count: u32 },
    /// No chunk waits.
    Empty,
    /// Chunks wait, but the table of answers has no room for a row.
    NoRows,
    /// The sending failed; the next address is in use.
    Failed,
}

/// What the reply to a post answers.
#[derive(Clone, Copy, Debug, PartialEq, Eq)]
pub enum Answered {
    /// So many chunks were answered: they left the queue, and the table has their rows.
    Taken { count: u32 },
    /// The reply isn't a good one. `code` is its status code, 0 where the reply can't be read.
    Refused { code: u16 },
    /// The question for the reply failed.
    Silent,
    /// No post is out.
    Nothing,
}

/// What the sending of a poll answers.
#[derive(Clone, Copy, Debug, PartialEq, Eq)]
pub enum Polled {
    /// A poll for so many sinks is out.
    Sent { count: u32 },
    /// No row is unmarked.
    NoneWaiting,
    /// The sending failed; the next address is in use.
    Failed,
}

/// A row that a reply named with too small a length.
#[derive(Clone, Copy)]
pub struct Below {
    /// The row's sink.
    pub stem: Stem,
    /// The length of the reply, in bytes.
    pub got: u64,
    /// The length at which the row's chunk is committed, in bytes.
    pub want: u64,
}

/// What the reply to a poll answers.
#[derive(Clone, Copy)]
pub enum PollAnswer {
    /// So many lengths came. `below` is the first unmarked row, in order of answers, whose sink
    /// they name with a length below the row's offset.
    Lengths { count: u32, below: Option<Below> },
    /// The reply isn't a good one. `code` is its status code, 0 where the reply can't be read.
    Refused { code: u16 },
    /// The question for the reply failed.
    Silent,
    /// No poll is out.
    Nothing,
}
