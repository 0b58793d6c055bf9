//! Why a run of an agent ended early.

ghost use Rattle.std.specs.Prelude.{◌≡◌};
ghost use Rattle.chk_agent_run.specs.Faults.{status_of};

use chk_agent::AgentFault;
use chk_site::{Call, OutsideFault};

/// Why a run of an agent ended early.
#[derive(Clone, Copy, Debug, PartialEq, Eq)]
pub enum RunFault {
    /// A line of the initial file isn't blank, an accepted `add` or one of a stream that is read.
    /// It begins at this byte.
    Initial { at: u64 },
    /// The checkpoint isn't in its grammar from this byte on.
    Checkpoint { at: u64 },
    /// This call of the outside failed.
    Outside { call: Call },
    /// There was no memory.
    NoMemory,
}

impl RunFault {
    /// The status of a command that ends so: 5 for damage, 3 for the outside, 4 for memory.
    pub fn status(self) -> u8
        ensures { result ≡ status_of self }
    {
        match self {
            RunFault::Initial { .. } | RunFault::Checkpoint { .. } => 5,
            RunFault::Outside { .. } => 3,
            RunFault::NoMemory => 4,
        }
    }
}

impl From<OutsideFault> for RunFault {
    ghost use Rattle.std.specs.Prelude.{◌≡◌};
    ghost use Rattle.chk_agent_run.specs.Faults.{outside_fault};

    ghost from_gives = { λ fault e. e ≡ outside_fault fault };

    fn from(fault: OutsideFault) -> Self {
        match fault {
            OutsideFault::Outside { call } => RunFault::Outside { call },
            OutsideFault::NoMemory => RunFault::NoMemory,
        }
    }
}

impl From<AgentFault> for RunFault {
    ghost use Rattle.std.specs.Prelude.{◌≡◌};
    ghost use Rattle.chk_agent_run.specs.Faults.{fault_of};

    ghost from_gives = { λ fault e. e ≡ fault_of fault };

    fn from(fault: AgentFault) -> Self {
        match fault {
            AgentFault::Damaged { at } => RunFault::Checkpoint { at },
            AgentFault::Outside { call } => RunFault::Outside { call },
            AgentFault::NoMemory => RunFault::NoMemory,
        }
    }
}
