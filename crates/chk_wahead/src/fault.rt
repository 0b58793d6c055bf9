//! Why a call of the buffers is refused.

use chk_bytes::{NoMemory, Word};
use chk_site::{Call, OutsideFault};
use thiserror::Error;

/// Why a call of the buffers is refused.
#[derive(Debug, Drop, Error)]
pub enum WaheadFault {
    /// This call on the outside failed.
    #[error("the call {call:?} failed")]
    Outside { call: Call },
    /// The file `name` isn't what it has to be, from its byte `at` on.
    #[error("{name} is damaged at {at}")]
    Damaged { name: Word, at: u64 },
    /// A buffer is needed, and `number` was the last one.
    #[error("no number follows {number}")]
    Spent { number: u64 },
    /// There was no memory.
    #[error("out of memory")]
    NoMemory,
}

impl From<NoMemory> for WaheadFault {
    ghost use Rattle.std.specs.Prelude.{◌≡◌};
    ghost use Rattle.chk_wahead.specs.declared.fault.WaheadFault.TheVariants.{NoMemory};

    ghost from_gives = { λ _ e. e ≡ NoMemory };

    fn from(_: NoMemory) -> Self {
        WaheadFault::NoMemory
    }
}

impl From<OutsideFault> for WaheadFault {
    ghost use Rattle.std.specs.Prelude.{◌≡◌};
    ghost use Rattle.chk_wahead.specs.Faults.{wahead_fault};

    ghost from_gives = { λ fault e. e ≡ wahead_fault fault };

    fn from(fault: OutsideFault) -> Self {
        match fault {
            OutsideFault::Outside { call } => WaheadFault::Outside { call },
            OutsideFault::NoMemory => WaheadFault::NoMemory,
        }
    }
}
