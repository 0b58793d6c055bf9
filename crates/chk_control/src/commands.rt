//! What lines ask for, and why they are refused.

ghost use Rattle.std.specs.Prelude.{◌≡◌, ◌≢◌, ◌≤◌};
ghost use Rattle.chk_control.specs.Answers.{fault_number};

use crate::Class;
use chk_bytes::{Word, WordFault};

/// What a line asks for.
#[derive(Debug, Drop)]
pub enum Command {
    /// A line without words. It asks for nothing and gets no answer.
    Blank,
    /// Read a log from `offset`, which is the offset of the first byte that the log gives. A
    /// stream is named by the type, `kind`, and the path. Without a name the agent finds one.
    Add {
        name: Option<Word>,
        class: Class,
        kind: Word,
        path: Word,
        offset: u64,
    },
    /// End this message.
    Close,
    /// Tell the commands.
    Help,
    /// Tell the adaptors.
    List,
    /// Begin again with the first collector.
    ReloadCollectors,
    /// Stop the adaptor of this name at once.
    Stop {
        name: Word,
    },
    /// Stop all adaptors at once.
    StopAll,
    /// Stop the adaptor of this name once its log is sent.
    Shutdown {
        name: Word,
    },
    /// End the agent.
    StopAgent,
}

/// Why a line is refused. They are tried in this order: `LongLine`, `NotUtf8`, `Unknown`,
/// `MissingWord`, `ExtraWord`, `BadWord`, `BadClass`, `BadOffset`, and last want of memory.
#[derive(Clone, Copy, Debug, PartialEq, Eq)]
pub enum LineFault {
    /// The first word is no command.
    Unknown,
    /// There are fewer words than the command has.
    MissingWord,
    /// The offset isn't a number below 2^62 without leading zeros.
    BadOffset,
    /// There is no such class.
    BadClass,
    /// The line isn't UTF-8.
    NotUtf8,
    /// The line has more than 16,384 bytes.
    LongLine,
    /// There are more words than the command has.
    ExtraWord,
    /// A word has more than 4,096 bytes or a control byte or the byte 127 (DEL), or a name has
    /// more than 64 bytes or is `=`.
    BadWord,
    /// There was no memory for the words of a good line.
    NoMemory,
}

impl LineFault {
    /// The number that stands in an answer, 1 to 8. Want of memory has none: the line wasn't
    /// refused, and may be read again.
    pub fn number(&self) -> u8
        requires { self.now ≢ LineFault.NoMemory }
        ensures number { result ≡ fault_number self.now }
        ensures some { 1 ≤ result }
        ensures few { result ≤ 8 }
    {
        match self {
            LineFault::Unknown => 1,
            LineFault::MissingWord => 2,
            LineFault::BadOffset => 3,
            LineFault::BadClass => 4,
            LineFault::NotUtf8 => 5,
            LineFault::LongLine => 6,
            LineFault::ExtraWord => 7,
            LineFault::BadWord => 8,
            LineFault::NoMemory => unreachable!(),
        }
    }
}
