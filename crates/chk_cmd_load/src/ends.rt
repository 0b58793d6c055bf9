//! How a load ends.

use chk_bytes::{NoMemory, Word};
use chk_round::RoundFault;
use chk_site::{Call, OutsideFault};

/// What a load came to.
#[derive(Clone, Copy, Debug, PartialEq, Eq)]
pub struct LoadReport {
    /// How many lines were appended.
    pub lines: u64,
    /// How many bytes they have.
    pub bytes: u64,
    /// The sum of the archived ends of the three streams.
    pub archived: u64,
}

/// Why a load isn't done.
#[derive(Drop)]
pub enum LoadEnd {
    /// An append to a log or the printing of the summary failed.
    Outside { call: Call },
    /// There was no memory outside the round.
    NoMemory,
    /// All lines were appended, and the round behind them ended so.
    Round { fault: RoundFault },
    /// The round is done, and its archive run listed this sink of another collector under writing.
    Unclosed { name: Word },
}

impl From<NoMemory> for LoadEnd {
    ghost use Rattle.std.specs.Prelude.{◌≡◌};
    ghost use Rattle.chk_cmd_load.specs.declared.ends.LoadEnd.TheVariants.{NoMemory as wanting};

    ghost from_gives = { λ _ e. e ≡ wanting };

    fn from(_: NoMemory) -> Self {
        LoadEnd::NoMemory
    }
}

impl From<OutsideFault> for LoadEnd {
    ghost use Rattle.std.specs.Prelude.{◌≡◌};
    ghost use Rattle.chk_cmd_load.specs.Ends.{of_outside};

    ghost from_gives = { λ fault e. e ≡ of_outside fault };

    fn from(fault: OutsideFault) -> Self {
        match fault {
            OutsideFault::Outside { call } => LoadEnd::Outside { call },
            OutsideFault::NoMemory => LoadEnd::NoMemory,
        }
    }
}

impl From<RoundFault> for LoadEnd {
    ghost use Rattle.std.specs.Prelude.{◌≡◌};
    ghost use Rattle.chk_cmd_load.specs.declared.ends.LoadEnd.TheVariants.{Round};

    ghost from_gives = { λ fault e. e ≡ Round fault };

    fn from(fault: RoundFault) -> Self {
        LoadEnd::Round { fault }
    }
}
