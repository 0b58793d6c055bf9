//! Why a checkpoint isn't loaded.

use chk_bytes::NoMemory;
use chk_site::{Call, OutsideFault};
use thiserror::Error;

/// Why a checkpoint isn't loaded.
#[derive(Debug, Drop, Error)]
pub enum CheckFault {
    /// The line that begins at the byte `at` is the first that may not stand there. A last line without its newline is
    /// one, and so is a line whose stream or live name stands before, or the 10,001st stream. It is 0 for an empty file.
    #[error("the checkpoint is damaged at {at}")]
    Damaged { at: u64 },
    /// This call on the outside failed.
    #[error("the call {call:?} failed")]
    Outside { call: Call },
    /// There was no memory.
    #[error("out of memory")]
    NoMemory,
}

impl From<NoMemory> for CheckFault {
    ghost use Rattle.std.specs.Prelude.{◌≡◌};
    ghost use Rattle.chk_checkpoint.specs.declared.fault.CheckFault.TheVariants.{NoMemory};

    ghost from_gives = { λ _ e. e ≡ NoMemory };

    fn from(_: NoMemory) -> Self {
        CheckFault::NoMemory
    }
}

impl From<OutsideFault> for CheckFault {
    ghost use Rattle.std.specs.Prelude.{◌≡◌};
    ghost use Rattle.chk_checkpoint.specs.Faults.{check_fault};

    ghost from_gives = { λ fault e. e ≡ check_fault fault };

    fn from(fault: OutsideFault) -> Self {
        match fault {
            OutsideFault::Outside { call } => CheckFault::Outside { call },
            OutsideFault::NoMemory => CheckFault::NoMemory,
        }
    }
}
