//! The calls of an agent.

ghost use Rattle.std.specs.Prelude.{◌≡◌, ◌<◌, Some, length, slice_get};
ghost use Rattle.chk_agent_adaptor.specs.Adaptors.{Adaptor as Reading};
ghost use Rattle.chk_agent.specs.States.{committed_at};
ghost use Rattle.chk_agent.specs.Fits.{IsSound};
ghost use Rattle.chk_agent.specs.Commands.{state_of};

use chk_agent_adaptor::Phase;
use chk_agent_delivery::Delivery;
use chk_agent_table::Adaptors;
use chk_bytes::Word;
use chk_checkpoint::CheckLine;
use chk_control::State;
use chk_site::Who;
use std::marker::Model;

/// Limits of what an agent holds, how long it waits, and the cluster of its chunks.
#[derive(Drop)]
pub struct Rules {
    /// The most rows of answers, at least 1.
    pub rows: u32,
    /// The most bytes of data that wait, at least 131,072.
    pub queue: u64,
    /// How many milliseconds lie at least between two polls of `turn`.
    pub poll: u64,
    /// How many milliseconds an answer may stay without a commit before its adaptor goes back.
    pub expire: u64,
    /// The cluster tag of each chunk.
    pub cluster: Word,
}

/// An agent at work.
///
/// It holds the data of its queue, 52 bytes a row and 88 for each run of rows of one sink, 160 KB for
/// 10,000 adaptors, the words of each adaptor's line twice, and one message at a time while it is
/// sent.
pub struct Agent {
    pub(crate) who: Who,
    pub(crate) cluster: Word,
    pub(crate) adaptors: Adaptors,
    pub(crate) last: Option<u32>,
    pub(crate) delivery: Delivery,
    pub(crate) saved: Vec<CheckLine>,
    pub(crate) ready: bool,
}

// Written out, so that who lets an agent go doesn't prove it again, field by field.
impl Drop for Agent {
    fn drop(self) {
        let Agent {
            who: _who,
            cluster: _cluster,
            adaptors: _adaptors,
            last: _last,
            delivery: _delivery,
            saved: _saved,
            ready: _ready,
        } = self;
    }
}

impl Model for Agent {
    ghost use Rattle.chk_agent.specs.States.{State};

    ghost Value = { State };

    ghost use Rattle.chk_agent.specs.Fields.{agent_view, IsSoundInside};

    ghost view = { agent_view };

    ghost invariant = { IsSoundInside };
}

impl Agent {
    /// False exactly after a call that answered `Outside` while it wrote the checkpoint: the file may
    /// then be the old one or the new one, and only a new start tells. Without memory it is the old
    /// one, so the agent stays ready.
    pub fn ready(&self) -> bool
        ensures ready { result ≡ self.now.ready }
        ensures sound { IsSound self.now }
    {
        self.ready
    }

    /// How many adaptors there are, past ones included. They are numbered from 0 in order of
    /// adding.
    pub fn adaptors(&self) -> u32
        ensures { result ≡ length self.now.adaptors }
    {
        self.adaptors.len()
    }

    /// The offset up to which the adaptor's log was read.
    pub fn read_end(&self, adaptor: u32) -> u64
        requires { adaptor < length self.now.adaptors }
        ensures { (a : Reading) → slice_get self.now.adaptors adaptor ≡ Some a → result ≡ a.read.offset }
    {
        self.adaptors.at(adaptor).read_end()
    }

    /// The offset up to which the adaptor's stream is committed.
    pub fn committed_end(&self, adaptor: u32) -> u64
        requires { adaptor < length self.now.adaptors }
        ensures { result ≡ committed_at self.now adaptor }
    {
        self.delivery.committed_end(adaptor)
    }

    /// The adaptor's data type.
    pub fn kind(&self, adaptor: u32) -> &str
        requires { adaptor < length self.now.adaptors }
        ensures { (a : Reading) → slice_get self.now.adaptors adaptor ≡ Some a → result.now ≡ a.kind }
    {
        self.adaptors.at(adaptor).kind().as_str()
    }

    /// The path of the adaptor's log.
    pub fn path(&self, adaptor: u32) -> &str
        requires { adaptor < length self.now.adaptors }
        ensures { (a : Reading) → slice_get self.now.adaptors adaptor ≡ Some a → result.now ≡ a.path }
    {
        self.adaptors.at(adaptor).path().as_str()
    }

    /// How the adaptor stands; none for a past one.
    pub fn state(&self, adaptor: u32) -> Option<State>
        requires { adaptor < length self.now.adaptors }
        ensures { (a : Reading) → slice_get self.now.adaptors adaptor ≡ Some a → result ≡ state_of a.phase }
    {
        match self.adaptors.at(adaptor).phase() {
            Phase::Live => Some(State::Live),
            Phase::Stopping { .. } => Some(State::Stopping),
            Phase::Shrank => Some(State::Shrank),
            Phase::Past => None,
        }
    }
}
