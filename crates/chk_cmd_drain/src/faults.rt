//! Why a drain ended early.

use chk_agent::AgentFault;
use chk_agent_run::RunFault;
use chk_bytes::{Stem, Word};

/// Why a drain ended early.
#[derive(Debug, Drop)]
pub enum DrainFault {
    /// As a run of an agent ends early.
    Run(RunFault),
    /// The last poll that was waited for gave this sink a length below an answered offset.
    Pending { stem: Stem, got: u64, want: u64 },
    /// So many reads of this log gave bytes, and none came to its end.
    Growing { path: Word, reads: u64 },
    /// This log is shorter than what was read of it: the place in its generation, and its size.
    Shrank { path: Word, had: u64, is: u64 },
    /// No address gave a good reply, and no call failed. The last reply had this code, 0 where it
    /// can't be read.
    Refused { code: u16 },
}

impl From<AgentFault> for DrainFault {
    ghost use Rattle.std.specs.Prelude.{◌≡◌};
    ghost use Rattle.chk_agent_run.specs.Faults.{fault_of};
    ghost use Rattle.chk_cmd_drain.specs.declared.faults.DrainFault.TheVariants.{Run};

    ghost from_gives = { λ fault e. e ≡ Run (fault_of fault) };

    fn from(fault: AgentFault) -> Self {
        DrainFault::Run(RunFault::from(fault))
    }
}
