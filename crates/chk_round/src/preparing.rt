//! What a round takes memory for before its first call.

ghost use Rattle.std.specs.Prelude.{◌≡◌, IfOk};
ghost use Rattle.chk_round.specs.Prepared.{prepared_of};

use crate::starting::{ring_inside, rules_of};
use crate::whos::{Processes, processes_of};
use crate::words::{Limits, RoundWords};
use chk_agent::Rules;
use chk_bytes::NoMemory;
use chk_failover::Ring;
use std::alloc::Global;

/// The processes of a round, and the ring and the rules of its agent.
#[derive(Drop)]
pub(crate) struct Prepared {
    pub(crate) processes: Processes,
    pub(crate) ring: Ring,
    pub(crate) rules: Rules,
}

/// All that a round with these words and limits wants before its first call.
pub(crate) fn prepare(
    alloc: Global,
    given: &RoundWords,
    limits: Limits,
) -> Result<Prepared, NoMemory>
    ensures { IfOk result (λ prepared. prepared ≡ prepared_of given.now limits) }
{
    Ok(Prepared {
        processes: processes_of(alloc, &given.source)?,
        ring: ring_inside(alloc)?,
        rules: rules_of(given, limits)?,
    })
}
