//! Why a call failed, with the system's error.
ghost use Rattle.std.specs.Prelude.{◌≡◌};
ghost use Rattle.chk_site_errors.specs.Faults.{call_fault};

use chk_bytes::NoMemory;
use chk_site::CallFault;
use std::io;

/// Why a call on the machine was not done: what a site answers, with the error of a failed one.
#[derive(Clone, Copy, Drop)]
pub enum SystemFault {
    /// The call failed. Whatever the system's error is, also its own want of memory, which may come
    /// when something has changed already.
    Failed(io::Error),
    /// There is no such file.
    Missing,
    /// The file is there already.
    Exists,
    /// The file or log is shorter than the place; `size` is its length in bytes.
    Short { size: u64 },
    /// There was no memory; nothing has changed.
    NoMemory,
}

impl SystemFault {
    /// A failure that is none of the system's. A text of more than 80 bytes is cut.
    pub fn failed(kind: io::ErrorKind, text: &str) -> SystemFault
        ensures { call_fault result ≡ CallFault.Failed }
    {
        SystemFault::Failed(io::Error::new(kind, text))
    }

    /// The fault as a site answers it.
    pub fn call_fault(self) -> CallFault
        ensures { result ≡ call_fault self }
    {
        match self {
            SystemFault::Failed(_) => CallFault::Failed,
            SystemFault::Missing => CallFault::Missing,
            SystemFault::Exists => CallFault::Exists,
            SystemFault::Short { size } => CallFault::Short { size },
            SystemFault::NoMemory => CallFault::NoMemory,
        }
    }
}

impl From<io::Error> for SystemFault {
    ghost use Rattle.std.specs.Prelude.{◌≡◌};
    ghost use Rattle.chk_site_errors.specs.declared.faults.SystemFault.TheVariants.{Failed};

    ghost from_gives = { λ error e. e ≡ Failed error };

    fn from(error: io::Error) -> Self {
        SystemFault::Failed(error)
    }
}

impl From<NoMemory> for SystemFault {
    ghost use Rattle.std.specs.Prelude.{◌≡◌};
    ghost use Rattle.chk_site_errors.specs.declared.faults.SystemFault.TheVariants.{NoMemory};

    ghost from_gives = { λ _ e. e ≡ NoMemory };

    fn from(_: NoMemory) -> Self {
        SystemFault::NoMemory
    }
}
