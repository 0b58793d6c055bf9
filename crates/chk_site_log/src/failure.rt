//! The last call that failed, as it is told to people.

ghost use Rattle.std.specs.Prelude.{◌≡◌, string_bytes, IfOk};
ghost use Rattle.chk_site_log.specs.Notices.{place_of};

use crate::notices::place;
use chk_bytes::NoMemory;
use chk_site::Call;
use std::alloc::Global;
use std::fmt::{Display, Formatter};
use std::{fmt, io};

/// A call that failed. It is printed as `logread ./x.log: Permission denied (os error 13)`.
#[derive(Drop)]
pub struct Failure {
    call: Call,
    /// The file, log, folder, lock, address or door; empty for a call that has none.
    name: String,
    error: io::Error,
}

impl Failure {
    pub fn new(call: Call, name: String, error: io::Error) -> Failure
        ensures call { result.call ≡ call }
        ensures name { result.name ≡ name }
        ensures error { result.error ≡ error }
    {
        Failure { call, name, error }
    }

    /// The call and what it was asked of, as `logread ./x.log`.
    pub fn place(&self, alloc: Global) -> Result<String, NoMemory>
        ensures { IfOk result (λ place. string_bytes place ≡ place_of self.now.call (string_bytes self.now.name)) }
    {
        place(alloc, self.call, self.name.as_str())
    }
}

impl Display for Failure {
    fn fmt<W: fmt::Write>(&self, f: &mut Formatter<W>) -> fmt::Result {
        let gap = if self.name.is_empty() { "" } else { " " };
        write!(
            f,
            "{}{gap}{}: {}",
            self.call.name(),
            self.name.as_str(),
            self.error
        )
    }
}
