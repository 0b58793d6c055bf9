//! Why a call of the job is refused.

ghost use Rattle.std.specs.Prelude.{IsTrue};
ghost use Rattle.chk_bytes.specs.Words.{is_word};
ghost use Rattle.chk_record_index.specs.Faults.{IsDamage};

use chk_bytes::{NoMemory, Word};
use chk_site::{Call, OutsideFault};
use std::alloc::Global;
use thiserror::Error;

/// Why a call of the job is refused.
#[derive(Debug, Drop, Error)]
pub enum JobFault {
    /// This call on the outside failed.
    #[error("the call {call:?} failed")]
    Outside { call: Call },
    /// The file `name` isn't what it has to be, from its byte `at` on.
    #[error("{name} is damaged at {at}")]
    Damaged { name: Word, at: u64 },
    /// The segment number `number` is the last one.
    #[error("no segment number follows {number}")]
    Spent { number: u64 },
    /// There was no memory.
    #[error("out of memory")]
    NoMemory,
}

impl From<NoMemory> for JobFault {
    ghost use Rattle.std.specs.Prelude.{◌≡◌};
    ghost use Rattle.chk_record_index.specs.declared.fault.JobFault.TheVariants.{NoMemory};

    ghost from_gives = { λ _ e. e ≡ NoMemory };

    fn from(_: NoMemory) -> Self {
        JobFault::NoMemory
    }
}

impl From<OutsideFault> for JobFault {
    ghost use Rattle.std.specs.Prelude.{◌≡◌};
    ghost use Rattle.chk_record_index.specs.Faults.{job_fault};

    ghost from_gives = { λ fault e. e ≡ job_fault fault };

    fn from(fault: OutsideFault) -> Self {
        match fault {
            OutsideFault::Outside { call } => JobFault::Outside { call },
            OutsideFault::NoMemory => JobFault::NoMemory,
        }
    }
}

/// The fault of the file `name` that is damaged at `at`, or want of memory for its name.
pub fn damaged(alloc: Global, name: &str, at: u64) -> JobFault
    requires { IsTrue (is_word name.now) }
    ensures { IsDamage name.now at result }
{
    match Word::from_text(alloc, name) {
        Ok(name) => JobFault::Damaged { name, at },
        Err(_) => JobFault::NoMemory,
    }
}
