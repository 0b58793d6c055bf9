//! The run of an agent.

ghost use Rattle.std.specs.Prelude.{◌≡◌, ◌≤◌, ℕ, List, IsTrue};
ghost use Rattle.chk_chunk.specs.Keys.{chunk_limit};
ghost use Rattle.chk_site.specs.declared.acts.Role.TheVariants.{Agent as agent_role, Writer as writer_role};
ghost use Rattle.chk_site.specs.Site.{Adds};
ghost use Rattle.chk_site.specs.Runs.{Leads};
ghost use Rattle.chk_world.specs.Names.{is_source};
ghost use Rattle.chk_world.specs.Rules.{Legal};
ghost use Rattle.chk_agent_run.specs.Faults.{RunCause, LastOfRun};
ghost use Rattle.chk_agent_run.specs.Runs.{HasRun, InRun, RunEnds};

use crate::faults::RunFault;
use crate::initial::{add_lines, read_initial};
use crate::turn::{Ended, run_turns};
use chk_agent::{Agent, Hashing, Rules};
use chk_bytes::Word;
use chk_failover::Ring;
use chk_site::{Site, Who};
use std::alloc::Global;

/// The rows of answers of an agent that a command runs.
pub const ROWS: u32 = 65_536;

/// The bytes of data that may wait in an agent that a command runs.
pub const QUEUE: u64 = 10_485_760;

/// What a run of an agent does besides its agent's own rules.
#[derive(Drop)]
pub struct Work {
    /// The file whose lines add streams.
    pub initial: Option<Word>,
    /// The address of the control door.
    pub control: Option<Word>,
    /// How many turns there are at most.
    pub turns: u64,
    /// How many milliseconds a turn waits behind a step that gave 131,072 bytes; else it is 200.
    pub pause: u64,
}

/// Reads the initial file, starts the agent, adds the stream of each line of the file, and makes
/// the turns. Blank lines of the file and those whose stream is read already are skipped; any
/// other line that isn't an accepted `add` is `Initial` at its first byte. The writer makes the
/// reads of the file, and the agent all other calls. The file is held whole in memory. Streams and
/// names, which anybody at the control door chooses, are found by this hashing.
pub fn run_agent<S: Site>(
    alloc: Global,
    site: &mut S,
    who: &Who,
    writer: &Who,
    ring: Ring,
    rules: Rules,
    work: &Work,
    hashing: Hashing,
) -> Result<Ended, RunFault>
    requires role { who.now.role ≡ agent_role }
    requires name { IsTrue (is_source who.now.name) }
    requires writer { writer.now.role ≡ writer_role }
    requires some_rows { 1 ≤ rules.rows }
    requires a_piece { chunk_limit ≤ rules.queue }
    ensures ran { HasRun who.now writer.now ring rules work.now result (S.told site.old) (S.told site.new) }
    ensures told { (stamped : List (List ℕ)) → Adds (S.told site.old) (S.told site.new)
        (Leads (InRun stamped who.now writer.now) (Legal stamped) (RunEnds stamped who.now result)) }
    ensures last { Adds (S.told site.old) (S.told site.new) (LastOfRun result) }
    ensures cause { RunCause (S.fault_count site.old) (S.fault_count site.new) result }
{
    let text = read_initial(alloc, site, writer, work.initial.as_ref())?;
    let mut agent = Agent::start_with_hasher(alloc, site, who, ring, rules, hashing)?;
    add_lines(alloc, site, &mut agent, text.as_slice())?;
    let door = work.control.as_ref();
    let ended = run_turns(alloc, site, who, &mut agent, door, work.pause, work.turns)?;
    Ok(ended)
}
