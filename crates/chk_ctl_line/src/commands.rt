//! What words ask for.

use crate::usage::Usage;
use chk_bytes::NoMemory;
use std::alloc::AllocError;

/// What a look is asked for. The texts are borrowed from the words.
#[derive(Debug, Drop)]
pub enum Command<'a> {
    /// Whether a store has what the logs of its agents have.
    Audit(AuditWords<'a>),
    /// What a store has of a stream.
    Cat(CatWords<'a>),
    /// What a start with an initial file would refuse or skip.
    Check(CheckWords<'a>),
    /// A line for each stream of the store in this folder.
    Streams(&'a str),
    /// Whether the files of the store in this folder are what they have to be.
    Verify(&'a str),
    /// The folder of the store.
    Sum(&'a str),
    /// The folder of the store of which the streams are shown that have chunks set aside.
    Held(&'a str),
    /// The folders of the stores, 2 to 64 words, among which missing bytes are looked for.
    HeldIn(Vec<&'a str>),
    /// Whether an agent has read what a rotation would remove of a log.
    Passed(PassedWords<'a>),
    /// How this command is used.
    Help(Usage),
    /// Which version the program is.
    Version,
}

/// The words of `audit`.
#[derive(Clone, Copy, Debug)]
pub struct AuditWords<'a> {
    /// The folder in which the agents work.
    pub agent: &'a str,
    /// The path of the store, a word of at most 4,064 bytes.
    pub store: &'a str,
}

/// The words of `cat`.
#[derive(Clone, Copy, Debug)]
pub struct CatWords<'a> {
    /// The first offset that is wanted.
    pub begin: u64,
    /// It looks again, every 5,000 ms.
    pub follow: bool,
    /// The records, and not the archived bytes.
    pub records: bool,
    /// The folder of the store.
    pub store: &'a str,
    /// The source of the stream, a word.
    pub source: &'a str,
    /// Its type, a word.
    pub kind: &'a str,
    /// Its name, a word: as a rule the path of its log.
    pub name: &'a str,
}

/// The words of `passed`.
#[derive(Clone, Copy, Debug)]
pub struct PassedWords<'a> {
    /// The folder in which the agent works.
    pub agent: &'a str,
    /// The log's path, a word, as the agent names it.
    pub log: &'a str,
}

/// The words of `check`.
#[derive(Debug, Drop)]
pub struct CheckWords<'a> {
    /// The initial file, a word.
    pub file: &'a str,
    /// The addresses of the collectors, 1 to 64 words.
    pub collectors: Vec<&'a str>,
}

/// Why there is no command.
#[derive(Clone, Copy, Debug, PartialEq, Eq)]
pub enum WordsFault {
    /// The words aren't a command.
    Usage,
    /// There was no memory to read them.
    NoMemory,
}

impl From<NoMemory> for WordsFault {
    ghost use Rattle.std.specs.Prelude.{◌≡◌};
    ghost use Rattle.chk_ctl_line.specs.declared.commands.WordsFault.TheVariants.{NoMemory as no_memory};

    ghost from_gives = { λ _ fault. fault ≡ no_memory };

    fn from(_: NoMemory) -> Self {
        WordsFault::NoMemory
    }
}

impl From<AllocError> for WordsFault {
    ghost use Rattle.std.specs.Prelude.{◌≡◌};
    ghost use Rattle.chk_ctl_line.specs.declared.commands.WordsFault.TheVariants.{NoMemory as no_memory};

    ghost from_gives = { λ _ fault. fault ≡ no_memory };

    fn from(_: AllocError) -> Self {
        WordsFault::NoMemory
    }
}
