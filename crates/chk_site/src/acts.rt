// The acts of processes, as data.
ghost use Rattle.std.specs.Prelude.{◌≡◌, IfOk};
ghost use Rattle.chk_site.specs.CallNames.{call_name};

use crate::lists::{Lefts, Words};
use chk_bytes::{Bytes, NoMemory, Word};

/// What a process is to the others.
#[derive(Clone, Copy, Debug, PartialEq, Eq)]
pub enum Role {
    /// Reads logs and posts them.
    Agent,
    /// Takes posts and writes sinks.
    Collector,
    /// Archives closed sinks, and splits the archive.
    Job,
    /// Writes logs, and prints.
    Writer,
}

/// A process, or a writer of logs.
#[derive(Drop)]
pub struct Who {
    pub role: Role,
    pub name: Word,
}

impl Who {
    pub fn copy(&self) -> Result<Who, NoMemory>
        ensures { IfOk result (λ who. who ≡ self.now) }
    {
        Ok(Who {
            role: self.role,
            name: self.name.copy()?,
        })
    }
}

/// The calls on the outside.
#[derive(Clone, Copy, Debug, PartialEq, Eq)]
pub enum Call {
    Start,
    LogRead,
    LogNewest,
    LogAppend,
    Create,
    Append,
    Sync,
    Rename,
    Remove,
    Cut,
    Size,
    Read,
    List,
    Clock,
    Pause,
    Send,
    Got,
    Take,
    More,
    Answer,
    Say,
}

impl Call {
    /// The call's name in lower-case letters, as a line about a fault prints it.
    pub fn name(self) -> &'static str
        ensures { result.now ≡ call_name self }
    {
        match self {
            Call::Start => "start",
            Call::LogRead => "logread",
            Call::LogNewest => "lognewest",
            Call::LogAppend => "logappend",
            Call::Create => "create",
            Call::Append => "append",
            Call::Sync => "sync",
            Call::Rename => "rename",
            Call::Remove => "remove",
            Call::Cut => "cut",
            Call::Size => "size",
            Call::Read => "read",
            Call::List => "list",
            Call::Clock => "clock",
            Call::Pause => "pause",
            Call::Send => "send",
            Call::Got => "got",
            Call::Take => "take",
            Call::More => "more",
            Call::Answer => "answer",
            Call::Say => "say",
        }
    }
}

/// Why a call wasn't done. Each call's row in the trait says which of these it may answer.
#[derive(Clone, Copy, Debug, PartialEq, Eq)]
pub enum CallFault {
    /// The outside failed; the count of faults has risen.
    Failed,
    /// There is no such file.
    Missing,
    /// The file is there already.
    Exists,
    /// The file or log is shorter than the place; `size` is its length in bytes.
    Short { size: u64 },
    /// There was no memory; the outside is as it was.
    NoMemory,
}

/// Why a library's call on the outside gave up.
#[derive(Clone, Copy, Debug, PartialEq, Eq)]
pub enum OutsideFault {
    /// This call on the outside failed.
    Outside { call: Call },
    /// There was no memory.
    NoMemory,
}

impl From<NoMemory> for OutsideFault {
    ghost use Rattle.std.specs.Prelude.{◌≡◌};
    ghost use Rattle.chk_site.specs.declared.acts.OutsideFault.TheVariants.{NoMemory};

    ghost from_gives = { λ _ e. e ≡ NoMemory };

    fn from(_: NoMemory) -> Self {
        OutsideFault::NoMemory
    }
}

impl From<NoMemory> for CallFault {
    ghost use Rattle.std.specs.Prelude.{◌≡◌};
    ghost use Rattle.chk_site.specs.declared.acts.CallFault.TheVariants.{NoMemory};

    ghost from_gives = { λ _ e. e ≡ NoMemory };

    fn from(_: NoMemory) -> Self {
        CallFault::NoMemory
    }
}

/// How an act came out.
#[derive(Drop)]
pub enum ActAnswer {
    /// It was done. `words` are the bytes, names or suffixes that it gave, in order; `number` is the size, the
    /// clock's answer, or the number of the message or taking; `of` is the message that a taking gave, or 0.
    Done { words: Words, number: u64, of: u64 },
    /// It was refused.
    Refused { fault: CallFault },
    /// The process was stopped in it.
    Stopped { left: Lefts },
    /// A writer made the base file of a log a generation with this suffix.
    Rotated { suffix: Bytes },
    /// A writer deleted the generation with this suffix.
    Deleted { suffix: Bytes },
}

/// An act of a process on the outside. `words` are the call's texts and bytes in order; a part of a log stands there as
/// `base`, as `-` for all generations, or as the suffix that they come after. `number` is the call's place, length,
/// time in milliseconds, message or taking, and for a message that is sent its number; `max` is the most bytes asked
/// for. Each is 0 where the call has none.
#[derive(Drop)]
pub struct Act {
    pub who: Who,
    pub call: Call,
    pub words: Words,
    pub number: u64,
    pub max: u32,
    pub answer: ActAnswer,
}
