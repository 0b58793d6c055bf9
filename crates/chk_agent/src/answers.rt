//! What the calls of an agent answer.

use chk_bytes::Bytes;
use chk_site::Call;
use thiserror::Error;

/// Why a call of an agent didn't finish.
#[derive(Clone, Copy, Debug, Error)]
pub enum AgentFault {
    /// The checkpoint isn't in its grammar from this byte on. A start alone answers it.
    #[error("the checkpoint is damaged at {at}")]
    Damaged { at: u64 },
    /// This call of the outside failed.
    #[error("the call {call:?} failed")]
    Outside { call: Call },
    /// There was no memory.
    #[error("out of memory")]
    NoMemory,
}

/// What `add` answers.
#[derive(Clone, Copy)]
pub enum Added {
    /// The stream is read by this adaptor from now on.
    New { adaptor: u32 },
    /// A live adaptor reads it already.
    Live { adaptor: u32 },
    /// The checkpoint has 10,000 lines, none of them of this stream.
    TooMany,
}

/// What a step of one adaptor answers.
#[derive(Clone, Copy)]
pub enum Stepped {
    /// So many bytes were queued.
    Read { bytes: u64 },
    /// The log has no more.
    AtEnd,
    /// Fewer bytes of the queue are free than a step may give; `used` are in use.
    Held { used: u64 },
    /// The log is shorter than what was read of it: the place in its generation, and its size.
    Shrank { had: u64, is: u64 },
}

/// What a fill answers.
#[derive(Clone, Copy)]
pub enum Filled {
    /// So many bytes were queued in all.
    Read { bytes: u64 },
    /// Each adaptor that is still read was stepped, and none gave bytes.
    AtEnds,
    /// Fewer bytes of the queue are free than a step may give; `used` are in use.
    Held { used: u64 },
    /// The log of this adaptor is shorter than what was read of it.
    Shrank { adaptor: u32, had: u64, is: u64 },
}

/// What a settle answers.
#[derive(Clone, Copy)]
pub struct Settled {
    /// How many adaptors went back.
    pub reset: u32,
    /// Whether the checkpoint was written.
    pub written: bool,
}

/// What goes on after a control line.
#[derive(Clone, Copy, Debug, PartialEq, Eq)]
pub enum Then {
    /// The next line.
    Go,
    /// The message ends.
    Close,
    /// The message and the agent end.
    End,
}

/// The answer to a control line.
#[derive(Drop)]
pub struct Reply {
    /// Whole lines.
    pub text: Bytes,
    pub then: Then,
}
