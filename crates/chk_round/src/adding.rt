//! The logs of a round are added.

ghost use Rattle.std.specs.Prelude.{◌≡◌, ℕ, List, true, IfErr, OnOk};
ghost use Rattle.chk_site.specs.Site.{Adds};
ghost use Rattle.chk_site.specs.Runs.{Leads};
ghost use Rattle.chk_world.specs.Places.{As};
ghost use Rattle.chk_agent.specs.Facts.{Matches};
ghost use Rattle.chk_agent.specs.States.{process};
ghost use Rattle.chk_round.specs.Adding.{AddsLogs};
ghost use Rattle.chk_round.specs.Faults.{FailsLast, IsOfCall, RoundCause};

use crate::faults::RoundFault;
use chk_agent::Agent;
use chk_bytes::Word;
use chk_control::Class;
use chk_site::Site;
use std::alloc::Global;

/// Adds each log that no live adaptor reads; one for which there is no room isn't added.
pub(crate) fn add_logs<S: Site>(
    alloc: Global,
    site: &mut S,
    agent: &mut Agent,
    class: Class,
    kind: &Word,
    logs: &[Word],
) -> Result<(), RoundFault>
    requires ready { agent.old.ready ≡ true }
    ensures script { AddsLogs class kind.now logs.now agent.old result agent.new
        (S.told site.old) (S.told site.new) }
    ensures told { (stamped : List (List ℕ)) → Adds (S.told site.old) (S.told site.new)
        (Leads (As stamped (process agent.old)) (Matches stamped agent.old) (Matches stamped agent.new)) }
    ensures source { agent.new.source ≡ agent.old.source }
    ensures ready { OnOk result (agent.new.ready ≡ true) }
    ensures only { IfErr result IsOfCall }
    ensures last { Adds (S.told site.old) (S.told site.new) (FailsLast result) }
    ensures cause { RoundCause (S.fault_count site.old) (S.fault_count site.new) result }
{
    for log in logs {
        let _added = agent.add(alloc, site, class, kind, log)?;
    }
    Ok(())
}
