//! Why a call of the sinks is refused.

use chk_bytes::{NoMemory, Word};
use chk_site::{Call, OutsideFault};
use thiserror::Error;

/// Why a call of the sinks is refused.
#[derive(Debug, Drop, Error)]
pub enum SinkFault {
    /// This call on the outside failed.
    #[error("the call {call:?} failed")]
    Outside { call: Call },
    /// The file `name` isn't what it has to be, from its byte `at` on.
    #[error("{name} is damaged at {at}")]
    Damaged { name: Word, at: u64 },
    /// The last number was used: of starts `born`, which was read, or of sinks in the start `born`.
    #[error("no number follows, at the start {born}")]
    Spent { born: u64 },
    /// There was no memory.
    #[error("out of memory")]
    NoMemory,
}

impl From<NoMemory> for SinkFault {
    ghost use Rattle.std.specs.Prelude.{◌≡◌};
    ghost use Rattle.chk_sink.specs.declared.fault.SinkFault.TheVariants.{NoMemory};

    ghost from_gives = { λ _ e. e ≡ NoMemory };

    fn from(_: NoMemory) -> Self {
        SinkFault::NoMemory
    }
}

impl From<OutsideFault> for SinkFault {
    ghost use Rattle.std.specs.Prelude.{◌≡◌};
    ghost use Rattle.chk_sink.specs.Faults.{sink_fault};

    ghost from_gives = { λ fault e. e ≡ sink_fault fault };

    fn from(fault: OutsideFault) -> Self {
        match fault {
            OutsideFault::Outside { call } => SinkFault::Outside { call },
            OutsideFault::NoMemory => SinkFault::NoMemory,
        }
    }
}
