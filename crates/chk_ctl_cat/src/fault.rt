//! Why a look wasn't finished.

ghost use Rattle.std.specs.Prelude.{IsTrue};
ghost use Rattle.chk_bytes.specs.Words.{is_word};
ghost use Rattle.chk_ctl_cat.specs.Faults.{IsDamage, IsLoss};

use chk_bytes::{NoMemory, Word};
use chk_site::{Call, OutsideFault};
use std::alloc::Global;

/// Why a look wasn't finished.
#[derive(Debug, Drop)]
pub enum LookFault {
    /// This call on the outside failed.
    Outside { call: Call },
    /// The file `name` isn't what it has to be, from its byte `at` on.
    Damaged { name: Word, at: u64 },
    /// The file `name` isn't there: a job has put another one in its place, or it was lost.
    Gone { name: Word },
    /// There was no memory.
    NoMemory,
}

impl From<NoMemory> for LookFault {
    ghost use Rattle.std.specs.Prelude.{◌≡◌};
    ghost use Rattle.chk_ctl_cat.specs.declared.fault.LookFault.TheVariants.{NoMemory};

    ghost from_gives = { λ _ e. e ≡ NoMemory };

    fn from(_: NoMemory) -> Self {
        LookFault::NoMemory
    }
}

impl From<OutsideFault> for LookFault {
    ghost use Rattle.std.specs.Prelude.{◌≡◌};
    ghost use Rattle.chk_ctl_cat.specs.Faults.{look_fault};

    ghost from_gives = { λ fault e. e ≡ look_fault fault };

    fn from(fault: OutsideFault) -> Self {
        match fault {
            OutsideFault::Outside { call } => LookFault::Outside { call },
            OutsideFault::NoMemory => LookFault::NoMemory,
        }
    }
}

/// The fault of the file `name` that is damaged at `at`, or want of memory for its name.
pub(crate) fn damaged(alloc: Global, name: &str, at: u64) -> LookFault
    requires { IsTrue (is_word name.now) }
    ensures { IsDamage name.now at result }
{
    match Word::from_text(alloc, name) {
        Ok(name) => LookFault::Damaged { name, at },
        Err(_) => LookFault::NoMemory,
    }
}

/// The fault of the file `name` that isn't there, or want of memory for its name.
pub(crate) fn gone(alloc: Global, name: &str) -> LookFault
    requires { IsTrue (is_word name.now) }
    ensures { IsLoss name.now result }
{
    match Word::from_text(alloc, name) {
        Ok(name) => LookFault::Gone { name },
        Err(_) => LookFault::NoMemory,
    }
}
