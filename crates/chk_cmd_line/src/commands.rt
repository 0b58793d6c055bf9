//! What words ask for.

use crate::datagrams::UdpWords;
use crate::joining::JoinWords;
use crate::subscribing::SubscribeWords;
use chk_bytes::NoMemory;
use chk_control::Class;
use std::alloc::AllocError;

/// What a run is asked for. The texts are borrowed from the words.
#[derive(Debug, Drop)]
pub enum Command<'a> {
    Round(RoundWords<'a>),
    Agent(AgentWords<'a>),
    Collector(CollectorWords<'a>),
    Drain(DrainWords<'a>),
    Archive,
    /// The types that are split by time stamps.
    Demux(Vec<&'a str>),
    /// The file.
    Salvage(&'a str),
    /// How many lines, from 1 to 200,000.
    Load(u64),
    Udp(UdpWords<'a>),
    Subscribe(SubscribeWords<'a>),
    Join(JoinWords<'a>),
}

/// The words of `round`.
#[derive(Debug, Drop)]
pub struct RoundWords<'a> {
    /// How a log that isn't live yet is read.
    pub class: Class,
    /// After so many reads that gave bytes a log counts as still growing; from 1.
    pub reads: u64,
    /// The cluster of all chunks.
    pub cluster: &'a str,
    /// The agent's source, of 1 to 64 bytes.
    pub source: &'a str,
    /// The data type of each log.
    pub kind: &'a str,
    /// The paths of the logs, at least one.
    pub logs: Vec<&'a str>,
}

/// The words of `agent`.
#[derive(Debug, Drop)]
pub struct AgentWords<'a> {
    /// A file of `add` lines.
    pub initial: Option<&'a str>,
    /// The address of the control door.
    pub control: Option<&'a str>,
    /// How many turns it runs, from 1.
    pub turns: u64,
    /// Milliseconds between two polls.
    pub poll: u64,
    /// Milliseconds after which a chunk that isn't committed is sent again.
    pub expire: u64,
    /// Milliseconds that a turn waits behind a full piece of a log, at most 200.
    pub pause: u64,
    /// The cluster of all chunks.
    pub cluster: &'a str,
    /// The agent's source, of 1 to 64 bytes.
    pub source: &'a str,
    /// The addresses of the collectors, 1 to 64.
    pub collectors: Vec<&'a str>,
}

/// The words of `collector`.
#[derive(Clone, Copy, Debug)]
pub struct CollectorWords<'a> {
    /// Milliseconds after which a sink is closed.
    pub rotate: u64,
    /// How many turns it runs, from 1.
    pub turns: u64,
    /// How many messages it takes at most between two commits, from 1 to 64.
    pub messages: u64,
    /// The file that names the subscribers.
    pub tee: Option<&'a str>,
    /// The collector's name, of 1 to 64 bytes.
    pub name: &'a str,
    /// The address at which it takes messages.
    pub address: &'a str,
}

/// The words of `drain`.
#[derive(Debug, Drop)]
pub struct DrainWords<'a> {
    /// A file of `add` lines.
    pub initial: Option<&'a str>,
    /// After so many reads that gave bytes a log counts as still growing; from 1.
    pub reads: u64,
    /// After so many polls it gives up waiting for commits; 1 to 1,000,000.
    pub polls: u64,
    /// The cluster of all chunks.
    pub cluster: &'a str,
    /// The agent's source, of 1 to 64 bytes.
    pub source: &'a str,
    /// The addresses of the collectors, 1 to 64.
    pub collectors: Vec<&'a str>,
}

/// Why there is no command.
#[derive(Clone, Copy, Debug, PartialEq, Eq)]
pub enum WordsFault {
    /// The words aren't a command.
    Usage,
    /// There was no memory to read them.
    NoMemory,
}

impl From<NoMemory> for WordsFault {
    ghost use Rattle.std.specs.Prelude.{◌≡◌};
    ghost use Rattle.chk_cmd_line.specs.declared.commands.WordsFault.TheVariants.{NoMemory as no_memory};

    ghost from_gives = { λ _ fault. fault ≡ no_memory };

    fn from(_: NoMemory) -> Self {
        WordsFault::NoMemory
    }
}

impl From<AllocError> for WordsFault {
    ghost use Rattle.std.specs.Prelude.{◌≡◌};
    ghost use Rattle.chk_cmd_line.specs.declared.commands.WordsFault.TheVariants.{NoMemory as no_memory};

    ghost from_gives = { λ _ fault. fault ≡ no_memory };

    fn from(_: AllocError) -> Self {
        WordsFault::NoMemory
    }
}
