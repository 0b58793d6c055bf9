//! How a round as a run ends otherwise than well.

use chk_bytes::Word;
use chk_round::RoundFault;
use chk_site::OutsideFault;

/// How a round as a run ends otherwise than well.
#[derive(Drop)]
pub enum RoundEnd {
    /// The round isn't done, or one of its lines wasn't printed.
    Fault(RoundFault),
    /// All was done and printed, but the listing of the archive run showed this sink of another
    /// collector under writing.
    Unclosed { name: Word },
}

impl From<RoundFault> for RoundEnd {
    ghost use Rattle.std.specs.Prelude.{◌≡◌};
    ghost use Rattle.chk_cmd_round.specs.declared.ends.RoundEnd.TheVariants.{Fault};

    ghost from_gives = { λ fault e. e ≡ Fault fault };

    fn from(fault: RoundFault) -> Self {
        RoundEnd::Fault(fault)
    }
}

impl From<OutsideFault> for RoundEnd {
    ghost use Rattle.std.specs.Prelude.{◌≡◌};
    ghost use Rattle.chk_cmd_round.specs.Telling.{print_end};

    ghost from_gives = { λ fault e. e ≡ print_end fault };

    fn from(fault: OutsideFault) -> Self {
        match fault {
            OutsideFault::Outside { call } => RoundEnd::Fault(RoundFault::Outside { call }),
            OutsideFault::NoMemory => RoundEnd::Fault(RoundFault::NoMemory),
        }
    }
}

impl From<chk_bytes::NoMemory> for RoundEnd {
    ghost use Rattle.std.specs.Prelude.{◌≡◌};
    ghost use Rattle.chk_cmd_round.specs.Telling.{wanting};

    ghost from_gives = { λ _ e. e ≡ wanting };

    fn from(_: chk_bytes::NoMemory) -> Self {
        RoundEnd::Fault(RoundFault::NoMemory)
    }
}
