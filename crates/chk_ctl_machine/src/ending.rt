//! How an inspection ends.

ghost use Rattle.std.specs.Prelude.{◌≡◌};
ghost use Rattle.chk_ctl_run.specs.Outcomes.{outcome_status};
ghost use Rattle.chk_ctl_machine.specs.Deeds.{ended};

use crate::machine::Machine;
use chk_ctl_run::Outcome;

/// Reports the outcome on standard error, if it isn't `Done`; the status that the program ends with.
pub fn end_with<M: Machine>(machine: &mut M, outcome: &Outcome) -> u8
    ensures told { M.told machine.new ≡ ended outcome.now (M.told machine.old) }
    ensures status { result ≡ outcome_status outcome.now }
{
    match outcome {
        Outcome::Done => {}
        Outcome::Usage(usage) => machine.tell_usage(*usage),
        _ => machine.tell(outcome),
    }
    outcome.status()
}
