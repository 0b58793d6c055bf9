//! Why a join is refused.

use chk_bytes::Word;
use chk_record_index::JobFault;
use thiserror::Error;

/// Why a join is refused.
#[derive(Debug, Drop, Error)]
pub enum JoinFault {
    /// The job is refused, for another reason than want of memory.
    #[error("{fault}")]
    Job {
        fault: JobFault,
    },
    /// Both archives have the stream, and differ: at the lesser start where the starts are not the same, else at the first offset
    /// at which the bytes are not the same.
    #[error("{source} {kind} {name} differs at {at}")]
    Differ {
        source: Word,
        kind: Word,
        name: Word,
        at: u64,
    },
    /// There was no memory.
    #[error("out of memory")]
    NoMemory,
}

impl From<JobFault> for JoinFault {
    ghost use Rattle.std.specs.Prelude.{◌≡◌};
    ghost use Rattle.chk_join.specs.Faults.{join_fault};

    ghost from_gives = { λ fault e. e ≡ join_fault fault };

    fn from(fault: JobFault) -> Self {
        match fault {
            JobFault::NoMemory => JoinFault::NoMemory,
            fault => JoinFault::Job { fault },
        }
    }
}
