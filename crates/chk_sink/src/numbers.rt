//! The numbers of 8 bytes that small files hold: a mark's length, and a collector's number of starts.

ghost use Rattle.std.specs.Prelude.{◌≡◌};
ghost use Rattle.chk_sink.specs.Damage.{number_from, IsInLimit, IsDamageOf};

use crate::SinkFault;
use chk_bytes::{Word, take_u64};
use std::alloc::Global;

/// The least number of a mark: it is behind the header.
pub(crate) const LEAST_MARK: u64 = 96;

/// Numbers in files are below this.
const LIMIT: u64 = 1 << 63;

/// The number that these bytes are; `None` where they aren't 8 bytes of one from `least`, below the limit.
pub(crate) fn number_from(bytes: &[u8], least: u64) -> Option<u64>
    ensures is { result ≡ number_from least bytes.now }
    ensures small { IsInLimit result }
{
    if bytes.len() != 8 {
        return None;
    }
    let number = take_u64(bytes, 0)?;
    if number >= least && number < LIMIT {
        Some(number)
    } else {
        None
    }
}

/// The file of this name is damaged.
pub(crate) fn damaged(alloc: Global, name: &str) -> SinkFault
    ensures { IsDamageOf name.now result }
{
    match Word::new(alloc, name.as_bytes()) {
        Ok(name) => SinkFault::Damaged { name, at: 0 },
        Err(_) => SinkFault::NoMemory,
    }
}
