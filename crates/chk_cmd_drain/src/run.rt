//! The run of a drain.

ghost use Rattle.std.specs.Prelude.{◌≡◌, ◌≤◌, ℕ, List, IsTrue};
ghost use Rattle.chk_chunk.specs.Keys.{chunk_limit};
ghost use Rattle.chk_site.specs.declared.acts.Role.TheVariants.{Agent as agent_role, Writer as writer_role};
ghost use Rattle.chk_site.specs.Site.{Adds};
ghost use Rattle.chk_site.specs.Runs.{Leads};
ghost use Rattle.chk_world.specs.Names.{is_source};
ghost use Rattle.chk_world.specs.Rules.{Legal};
ghost use Rattle.chk_agent_run.specs.Runs.{InRun};
ghost use Rattle.chk_cmd_drain.specs.Drains.{HasDrained, DrainEnds, LastOfDrain, DrainCause};
ghost use Rattle.chk_cmd_drain.specs.Done.{DoneSo};

use crate::begin::begin;
use crate::ending::finish;
use crate::faults::DrainFault;
use chk_agent::Rules;
use chk_bytes::Word;
use chk_failover::Ring;
use chk_site::{Site, Who};
use std::alloc::Global;

/// What a drain does besides its agent's own rules.
#[derive(Drop)]
pub struct Work {
    /// The file whose lines add streams.
    pub initial: Option<Word>,
    /// After so many reads that gave bytes a log counts as still growing.
    pub reads: u64,
    /// So many polls with a good reply since the last post are waited for.
    pub polls: u32,
}

/// Reads the initial file, starts the agent, adds the streams of the file, reads each log to its
/// end, sends what they gave and waits until all of it is committed; then it prints the line of
/// each stream. The writer makes the reads of the file, and the agent all other calls. Where no
/// stream is live nothing is read, sent or printed. Where it is done, the checkpoint has a live
/// line for each stream that had one behind the start and for each stream of the file, and for no
/// other; the offset of each was the end of its whole log at a moment of the drain.
pub fn run_drain<S: Site>(
    alloc: Global,
    site: &mut S,
    who: &Who,
    writer: &Who,
    ring: Ring,
    rules: Rules,
    work: &Work,
) -> Result<(), DrainFault>
    requires role { who.now.role ≡ agent_role }
    requires name { IsTrue (is_source who.now.name) }
    requires writer { writer.now.role ≡ writer_role }
    requires some_rows { 1 ≤ rules.rows }
    requires a_piece { chunk_limit ≤ rules.queue }
    requires a_read { 1 ≤ work.now.reads }
    requires a_poll { 1 ≤ work.now.polls }
    ensures ran { HasDrained who.now writer.now ring rules work.now result (S.told site.old)
        (S.told site.new) }
    ensures told { (stamped : List (List ℕ)) → Adds (S.told site.old) (S.told site.new)
        (Leads (InRun stamped who.now writer.now) (Legal stamped)
        (DrainEnds stamped who.now result)) }
    ensures done { (stamped : List (List ℕ)) → Adds (S.told site.old) (S.told site.new)
        (DoneSo stamped who.now writer.now work.now.initial result) }
    ensures last { Adds (S.told site.old) (S.told site.new) (LastOfDrain result) }
    ensures cause { DrainCause (S.fault_count site.old) (S.fault_count site.new) result }
{
    match begin(alloc, site, who, writer, ring, rules, &work.initial) {
        Ok(begun) => {
            let mut agent = begun.agent;
            finish(
                alloc, site, who, &mut agent, begun.now, work.reads, work.polls,
            )
        }
        Err(fault) => Err(DrainFault::Run(fault)),
    }
}
