//! The beginning of a drain.

ghost use Rattle.std.specs.Prelude.{◌≡◌, ◌≤◌, ℕ, List, IsTrue, IfOk, true};
ghost use Rattle.chk_chunk.specs.Keys.{chunk_limit};
ghost use Rattle.chk_site.specs.declared.acts.Role.TheVariants.{Agent as agent_role, Writer as writer_role};
ghost use Rattle.chk_site.specs.Site.{Adds};
ghost use Rattle.chk_site.specs.Runs.{Leads};
ghost use Rattle.chk_world.specs.Names.{is_source};
ghost use Rattle.chk_world.specs.Rules.{Legal};
ghost use Rattle.chk_agent.specs.States.{process};
ghost use Rattle.chk_agent_run.specs.Faults.{RunCause, LastOfRun};
ghost use Rattle.chk_agent_run.specs.Runs.{InRun};
ghost use Rattle.chk_cmd_drain.specs.Begins.{Begins, BeginsWith};
ghost use Rattle.chk_cmd_drain.specs.Parts.{BeginsSo};

use chk_agent::{Agent, Rules};
use chk_agent_run::{RunFault, add_lines, clock, read_initial};
use chk_bytes::Word;
use chk_failover::Ring;
use chk_site::{Site, Who};
use std::alloc::Global;

/// An agent that has begun, and the moment of its drain.
#[derive(Drop)]
pub(crate) struct Begun {
    pub agent: Agent,
    pub now: u64,
}

/// Reads the initial file, starts the agent, asks for the time, and adds the streams of the file.
pub(crate) fn begin<S: Site>(
    alloc: Global,
    site: &mut S,
    who: &Who,
    writer: &Who,
    ring: Ring,
    rules: Rules,
    initial: &Option<Word>,
) -> Result<Begun, RunFault>
    requires role { who.now.role ≡ agent_role }
    requires name { IsTrue (is_source who.now.name) }
    requires writer { writer.now.role ≡ writer_role }
    requires some_rows { 1 ≤ rules.rows }
    requires a_piece { chunk_limit ≤ rules.queue }
    ensures ran { Begins who.now writer.now ring rules initial.now result (S.told site.old)
        (S.told site.new) }
    ensures told { (stamped : List (List ℕ)) → Adds (S.told site.old) (S.told site.new)
        (Leads (InRun stamped who.now writer.now) (Legal stamped)
        (BeginsWith stamped who.now result)) }
    ensures done { (stamped : List (List ℕ)) → Adds (S.told site.old) (S.told site.new)
        (BeginsSo stamped who.now writer.now initial.now result) }
    ensures ready { IfOk result (λ begun. begun.agent.ready ≡ true) }
    ensures me { IfOk result (λ begun. who.now ≡ process begun.agent) }
    ensures last { Adds (S.told site.old) (S.told site.new) (LastOfRun result) }
    ensures cause { RunCause (S.fault_count site.old) (S.fault_count site.new) result }
{
    let text = read_initial(alloc, site, writer, initial.as_ref())?;
    let mut agent = Agent::start(alloc, site, who, ring, rules)?;
    let now = clock(alloc, site, who, &agent)?;
    add_lines(alloc, site, &mut agent, text.as_slice())?;
    Ok(Begun { agent, now })
}
