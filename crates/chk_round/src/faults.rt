//! Why a round isn't done.

use chk_agent::AgentFault;
use chk_bytes::{NoMemory, Stem, Word};
use chk_exchange::ExchangeFault;
use chk_record_index::JobFault;
use chk_sink::SinkFault;
use chk_site::Call;

/// Why a round isn't done.
#[derive(Drop)]
pub enum RoundFault {
    /// This call of the outside failed.
    Outside { call: Call },
    /// There was no memory.
    NoMemory,
    /// The file `name` isn't in its grammar from its byte `at` on.
    Damaged { name: Word, at: u64 },
    /// The agent's checkpoint isn't in its grammar from this byte on.
    Checkpoint { at: u64 },
    /// The poll behind a commit gave this sink the length `got`, below the answered offset `want`.
    Length { stem: Stem, got: u64, want: u64 },
    /// So many reads of this log gave bytes, and none came to its end.
    Growing { path: Word, reads: u64 },
    /// This log has `is` bytes in its generation, fewer than the place `had` to be read.
    Shrank { path: Word, had: u64, is: u64 },
    /// No number is left for a start of the collector, for a sink of its start, or for a segment.
    /// It is the last number, and for a sink that of the start.
    Spent { number: u64 },
    /// The reply that the agent got has this code, 0 where it can't be read, and isn't the one that
    /// was made for it.
    Refused { code: u16 },
}

impl From<NoMemory> for RoundFault {
    ghost use Rattle.std.specs.Prelude.{◌≡◌};
    ghost use Rattle.chk_round.specs.declared.faults.RoundFault.TheVariants.{NoMemory as wanting};

    ghost from_gives = { λ _ e. e ≡ wanting };

    fn from(_: NoMemory) -> Self {
        RoundFault::NoMemory
    }
}

impl From<SinkFault> for RoundFault {
    ghost use Rattle.std.specs.Prelude.{◌≡◌};
    ghost use Rattle.chk_round.specs.Faults.{of_sinks};

    ghost from_gives = { λ fault e. e ≡ of_sinks fault };

    fn from(fault: SinkFault) -> Self {
        match fault {
            SinkFault::Outside { call } => RoundFault::Outside { call },
            SinkFault::Damaged { name, at } => RoundFault::Damaged { name, at },
            SinkFault::Spent { born } => RoundFault::Spent { number: born },
            SinkFault::NoMemory => RoundFault::NoMemory,
        }
    }
}

impl From<JobFault> for RoundFault {
    ghost use Rattle.std.specs.Prelude.{◌≡◌};
    ghost use Rattle.chk_round.specs.Faults.{of_job};

    ghost from_gives = { λ fault e. e ≡ of_job fault };

    fn from(fault: JobFault) -> Self {
        match fault {
            JobFault::Outside { call } => RoundFault::Outside { call },
            JobFault::Damaged { name, at } => RoundFault::Damaged { name, at },
            JobFault::Spent { number } => RoundFault::Spent { number },
            JobFault::NoMemory => RoundFault::NoMemory,
        }
    }
}

impl From<ExchangeFault> for RoundFault {
    ghost use Rattle.std.specs.Prelude.{◌≡◌};
    ghost use Rattle.chk_round.specs.Faults.{of_exchange};

    ghost from_gives = { λ fault e. e ≡ of_exchange fault };

    fn from(fault: ExchangeFault) -> Self {
        match fault {
            ExchangeFault::Outside { call } => RoundFault::Outside { call },
            ExchangeFault::Damaged { name, at } => RoundFault::Damaged { name, at },
            ExchangeFault::Spent { number } => RoundFault::Spent { number },
            ExchangeFault::NoMemory => RoundFault::NoMemory,
            ExchangeFault::Refused { code } => RoundFault::Refused { code },
        }
    }
}

impl From<AgentFault> for RoundFault {
    ghost use Rattle.std.specs.Prelude.{◌≡◌};
    ghost use Rattle.chk_round.specs.Faults.{of_agent};

    ghost from_gives = { λ fault e. e ≡ of_agent fault };

    fn from(fault: AgentFault) -> Self {
        match fault {
            AgentFault::Damaged { at } => RoundFault::Checkpoint { at },
            AgentFault::Outside { call } => RoundFault::Outside { call },
            AgentFault::NoMemory => RoundFault::NoMemory,
        }
    }
}
