//! Why not all of a file was printed.

use chk_site::{Call, OutsideFault};

/// Why not all of a file was printed.
#[derive(Clone, Copy, Debug, PartialEq, Eq)]
pub enum SalvageFault {
    /// This call on the outside failed.
    Outside { call: Call },
    /// There was no memory.
    NoMemory,
    /// The file's header is refused.
    Damaged,
}

impl From<OutsideFault> for SalvageFault {
    ghost use Rattle.std.specs.Prelude.{◌≡◌};
    ghost use Rattle.chk_cmd_salvage.specs.Printing.{salvage_fault};

    ghost from_gives = { λ fault e. e ≡ salvage_fault fault };

    fn from(fault: OutsideFault) -> Self {
        match fault {
            OutsideFault::Outside { call } => SalvageFault::Outside { call },
            OutsideFault::NoMemory => SalvageFault::NoMemory,
        }
    }
}
