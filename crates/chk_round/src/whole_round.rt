//! A round.

ghost use Rattle.std.specs.Prelude.{◌≡◌, ◌≤◌, ℕ, List, IfOk, IsTrue};
ghost use Rattle.chk_chunk.specs.Keys.{chunk_limit};
ghost use Rattle.chk_site.specs.declared.acts.Who.{Who as Person};
ghost use Rattle.chk_site.specs.Site.{Adds};
ghost use Rattle.chk_world.specs.Names.{is_source};
ghost use Rattle.chk_agent.specs.States.{lines_of};
ghost use Rattle.chk_round.specs.Faults.{FailsInside, RoundCause};
ghost use Rattle.chk_round.specs.Following.{HaveLines};
ghost use Rattle.chk_round.specs.Prepared.{processes_of};
ghost use Rattle.chk_round.specs.Processes.{IsRunOf};
ghost use Rattle.chk_round.specs.Lengths.{EndShown};
ghost use Rattle.chk_round.specs.Scripts.{ReadsLogs, RoundReads};
ghost use Rattle.chk_round.specs.Rounded.{RoundTo};
ghost use Rattle.chk_round.specs.Starts.{inside};
ghost use Rattle.chk_round.specs.Staying.{StaysTo};
ghost use Rattle.chk_round.specs.Calls.{RoundActs};

use crate::faults::RoundFault;
use crate::gathering::gather;
use crate::preparing::{Prepared, prepare};
use crate::running::run_pair;
use crate::whos::Processes;
use crate::words::{Limits, RoundWords};
use chk_agent::{Agent, Rules};
use chk_archive::Report;
use chk_failover::Ring;
use chk_site::Site;
use std::alloc::Global;

/// What a round came to.
#[derive(Drop)]
pub struct Rounded {
    /// The agent at rest: its live streams and their committed ends are those of the checkpoint.
    pub agent: Agent,
    /// What the run of the archive job did.
    pub report: Report,
}

/// Runs the agent of the given source, the collector `c1` and the archive job once, with 65,536
/// rows of answers and 10,485,760 bytes of data that may wait. Each log that no live adaptor reads
/// is added first, each live log is read until it gives nothing, and what they gave is sent through
/// the mailbox of the process, committed and archived.
pub fn round<S: Site>(
    alloc: Global,
    site: &mut S,
    given: &RoundWords,
) -> Result<Rounded, RoundFault>
    requires name { IsTrue (is_source given.now.source) }
    requires a_read { 1 ≤ given.now.reads }
    ensures told { (stamped : List (List ℕ)) (started acting : List Person)
        → IsRunOf given.now.source started acting → Adds (S.told site.old) (S.told site.new)
        (RoundTo stamped started acting given.now.source result) }
    ensures script { RoundReads given.now.source given.now.reads result (S.told site.old) (S.told site.new) }
    ensures reads { IfOk result (λ r. ReadsLogs given.now.source given.now.kind given.now.class
        given.now.cluster given.now.logs.items given.now.reads r.agent
        (S.told site.old) (S.told site.new)) }
    ensures cluster { IfOk result (λ r. r.agent.cluster ≡ given.now.cluster) }
    ensures stays { IfOk result (λ _. (stamped : List (List ℕ)) (started acting : List Person)
        → IsRunOf given.now.source started acting → Adds (S.told site.old) (S.told site.new)
        (StaysTo stamped started given.now.source given.now.kind given.now.logs.items)) }
    ensures live { IfOk result (λ r. HaveLines given.now.kind given.now.logs.items
        (lines_of r.agent)) }
    ensures shown { EndShown given.now.source result (S.told site.old) (S.told site.new) }
    ensures acts { Adds (S.told site.old) (S.told site.new) (RoundActs given.now.source) }
    ensures last { Adds (S.told site.old) (S.told site.new) (FailsInside result) }
    ensures cause { RoundCause (S.fault_count site.old) (S.fault_count site.new) result }
{
    let limits = Limits {
        rows: 65_536,
        queue: 10_485_760,
    };
    round_within(alloc, site, given, limits)
}

/// The same within other limits.
pub fn round_within<S: Site>(
    alloc: Global,
    site: &mut S,
    given: &RoundWords,
    limits: Limits,
) -> Result<Rounded, RoundFault>
    requires name { IsTrue (is_source given.now.source) }
    requires a_read { 1 ≤ given.now.reads }
    requires some_rows { 1 ≤ limits.rows }
    requires a_piece { chunk_limit ≤ limits.queue }
    ensures told { (stamped : List (List ℕ)) (started acting : List Person)
        → IsRunOf given.now.source started acting → Adds (S.told site.old) (S.told site.new)
        (RoundTo stamped started acting given.now.source result) }
    ensures script { RoundReads given.now.source given.now.reads result (S.told site.old) (S.told site.new) }
    ensures reads { IfOk result (λ r. ReadsLogs given.now.source given.now.kind given.now.class
        given.now.cluster given.now.logs.items given.now.reads r.agent
        (S.told site.old) (S.told site.new)) }
    ensures cluster { IfOk result (λ r. r.agent.cluster ≡ given.now.cluster) }
    ensures stays { IfOk result (λ _. (stamped : List (List ℕ)) (started acting : List Person)
        → IsRunOf given.now.source started acting → Adds (S.told site.old) (S.told site.new)
        (StaysTo stamped started given.now.source given.now.kind given.now.logs.items)) }
    ensures live { IfOk result (λ r. HaveLines given.now.kind given.now.logs.items
        (lines_of r.agent)) }
    ensures shown { EndShown given.now.source result (S.told site.old) (S.told site.new) }
    ensures acts { Adds (S.told site.old) (S.told site.new) (RoundActs given.now.source) }
    ensures last { Adds (S.told site.old) (S.told site.new) (FailsInside result) }
    ensures cause { RoundCause (S.fault_count site.old) (S.fault_count site.new) result }
{
    let Prepared {
        processes,
        ring,
        rules,
    } = prepare(alloc, given, limits)?;
    run_prepared(alloc, site, &processes, ring, rules, given)
}

// Runs a round with what was prepared for it.
fn run_prepared<S: Site>(
    alloc: Global,
    site: &mut S,
    processes: &Processes,
    ring: Ring,
    rules: Rules,
    given: &RoundWords,
) -> Result<Rounded, RoundFault>
    requires processes { processes.now ≡ processes_of given.now.source }
    requires ring { ring ≡ inside }
    requires some_rows { 1 ≤ rules.rows }
    requires a_piece { chunk_limit ≤ rules.queue }
    requires cluster { rules.cluster ≡ given.now.cluster }
    requires name { IsTrue (is_source given.now.source) }
    requires a_read { 1 ≤ given.now.reads }
    ensures told { (stamped : List (List ℕ)) (started acting : List Person)
        → IsRunOf given.now.source started acting → Adds (S.told site.old) (S.told site.new)
        (RoundTo stamped started acting given.now.source result) }
    ensures script { RoundReads given.now.source given.now.reads result (S.told site.old) (S.told site.new) }
    ensures reads { IfOk result (λ r. ReadsLogs given.now.source given.now.kind given.now.class
        given.now.cluster given.now.logs.items given.now.reads r.agent
        (S.told site.old) (S.told site.new)) }
    ensures cluster { IfOk result (λ r. r.agent.cluster ≡ given.now.cluster) }
    ensures stays { IfOk result (λ _. (stamped : List (List ℕ)) (started acting : List Person)
        → IsRunOf given.now.source started acting → Adds (S.told site.old) (S.told site.new)
        (StaysTo stamped started given.now.source given.now.kind given.now.logs.items)) }
    ensures live { IfOk result (λ r. HaveLines given.now.kind given.now.logs.items
        (lines_of r.agent)) }
    ensures shown { EndShown given.now.source result (S.told site.old) (S.told site.new) }
    ensures acts { Adds (S.told site.old) (S.told site.new) (RoundActs given.now.source) }
    ensures last { Adds (S.told site.old) (S.told site.new) (FailsInside result) }
    ensures cause { RoundCause (S.fault_count site.old) (S.fault_count site.new) result }
{
    let mut pair = gather(
        alloc,
        site,
        &processes.collecting,
        &processes.reading,
        ring,
        rules,
        given,
    )?;
    match run_pair(
        alloc,
        site,
        &mut pair.agent,
        &mut pair.collector,
        &processes.collecting,
        &processes.archiving,
        pair.now,
        given.reads,
    ) {
        Ok(report) => Ok(Rounded {
            agent: pair.agent,
            report,
        }),
        Err(fault) => Err(fault),
    }
}
