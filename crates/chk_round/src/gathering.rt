//! Collector and agent start, and the logs of the words are added.

ghost use Rattle.std.specs.Prelude.{◌≡◌, IfErr, ◌≤◌, ℕ, List, Contains, IsTrue, IfOk};
ghost use Rattle.chk_chunk.specs.Keys.{chunk_limit};
ghost use Rattle.chk_site.specs.declared.acts.Who.{Who as Person};
ghost use Rattle.chk_site.specs.Site.{Adds};
ghost use Rattle.chk_site.specs.Runs.{Leads};
ghost use Rattle.chk_world.specs.Names.{is_source};
ghost use Rattle.chk_world.specs.Knowing.{agent};
ghost use Rattle.chk_world.specs.Rules.{Legal};
ghost use Rattle.chk_world.specs.Together.{Together};
ghost use Rattle.chk_round.specs.Begun.{BeginsSo};
ghost use Rattle.chk_round.specs.Faults.{FailsInside, RoundCause};
ghost use Rattle.chk_round.specs.Following.{Follows};
ghost use Rattle.chk_round.specs.Processes.{AreBoth, c1};
ghost use Rattle.chk_round.specs.Lengths.{EndShown, IsPlain};
ghost use Rattle.chk_round.specs.Rounds.{IsGathered};
ghost use Rattle.chk_round.specs.Starts.{Met, inside};
ghost use Rattle.chk_round.specs.Calls.{BegunActs, TimedActs};

use crate::adding::add_logs;
use crate::faults::RoundFault;
use crate::starting::{Pair, start_pair};
use crate::words::RoundWords;
use chk_agent::Rules;
use chk_failover::Ring;
use chk_site::{Site, Who};
use std::alloc::Global;

/// Collector and agent start, and each log that no live adaptor reads is added.
pub(crate) fn gather<S: Site>(
    alloc: Global,
    site: &mut S,
    collecting: &Who,
    reading: &Who,
    ring: Ring,
    rules: Rules,
    given: &RoundWords,
) -> Result<Pair, RoundFault>
    requires collector { collecting.now ≡ c1 }
    requires agent_is { reading.now ≡ agent reading.now.name }
    requires name { IsTrue (is_source reading.now.name) }
    requires ring { ring ≡ inside }
    requires some_rows { 1 ≤ rules.rows }
    requires a_piece { chunk_limit ≤ rules.queue }
    ensures gathered { IfOk result (λ pair. IsGathered reading.now.name pair.collector pair.agent) }
    ensures live { IfOk result (λ pair. (log : List ℕ) → Contains given.now.logs.items log
        → Follows given.now.kind log pair.agent) }
    ensures begins { IfOk result (λ pair. BeginsSo reading.now.name given.now.kind given.now.class
        rules.cluster given.now.logs.items pair.agent (S.told site.old) (S.told site.new)) }
    ensures told { (stamped : List (List ℕ)) (started acting : List Person)
        → AreBoth reading.now.name started acting → Adds (S.told site.old) (S.told site.new)
        (Leads (Together stamped started acting) (Legal stamped) (Met stamped result)) }
    ensures acts { Adds (S.told site.old) (S.told site.new) (BegunActs reading.now.name) }
    ensures timed { IfOk result (λ _. Adds (S.told site.old) (S.told site.new) (TimedActs reading.now.name)) }
    ensures last { Adds (S.told site.old) (S.told site.new) (FailsInside result) }
    ensures only { IfErr result IsPlain }
    ensures shown { EndShown reading.now.name result (S.told site.old) (S.told site.new) }
    ensures cause { RoundCause (S.fault_count site.old) (S.fault_count site.new) result }
{
    let logs = given.logs.as_slice();
    let mut pair = start_pair(alloc, site, collecting, reading, ring, rules)?;
    match add_logs(alloc, site, &mut pair.agent, given.class, &given.kind, logs) {
        Ok(()) => Ok(pair),
        Err(fault) => Err(fault),
    }
}
