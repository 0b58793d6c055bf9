//! The faults of the crates below as an agent's.

use crate::answers::AgentFault;
use chk_bytes::NoMemory;
use chk_checkpoint::CheckFault;
use chk_site::OutsideFault;

impl From<NoMemory> for AgentFault {
    ghost use Rattle.std.specs.Prelude.{◌≡◌};
    ghost use Rattle.chk_agent.specs.declared.answers.AgentFault.TheVariants.{NoMemory};

    ghost from_gives = { λ _ e. e ≡ NoMemory };

    fn from(_: NoMemory) -> Self {
        AgentFault::NoMemory
    }
}

impl From<OutsideFault> for AgentFault {
    ghost use Rattle.std.specs.Prelude.{◌≡◌};
    ghost use Rattle.chk_agent.specs.Faults.{fault_of};

    ghost from_gives = { λ fault e. e ≡ fault_of fault };

    fn from(fault: OutsideFault) -> Self {
        match fault {
            OutsideFault::Outside { call } => AgentFault::Outside { call },
            OutsideFault::NoMemory => AgentFault::NoMemory,
        }
    }
}

impl From<CheckFault> for AgentFault {
    ghost use Rattle.std.specs.Prelude.{◌≡◌};
    ghost use Rattle.chk_agent.specs.Faults.{loaded_fault};

    ghost from_gives = { λ fault e. e ≡ loaded_fault fault };

    fn from(fault: CheckFault) -> Self {
        match fault {
            CheckFault::Damaged { at } => AgentFault::Damaged { at },
            CheckFault::Outside { call } => AgentFault::Outside { call },
            CheckFault::NoMemory => AgentFault::NoMemory,
        }
    }
}
