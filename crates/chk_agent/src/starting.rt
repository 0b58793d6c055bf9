//! The start of an agent.

ghost use Rattle.std.specs.Prelude.{◌≡◌, ◌≤◌, ℕ, List, [], IsTrue, IfOk, map, length};
ghost use Rattle.chk_chunk.specs.Keys.{chunk_limit};
ghost use Rattle.chk_site.specs.declared.acts.Role.TheVariants.{Agent as agent_role};
ghost use Rattle.chk_site.specs.declared.acts.Call.TheVariants.{Start};
ghost use Rattle.chk_site.specs.Site.{Adds, asked, LastFailed, OutsideCause};
ghost use Rattle.chk_site.specs.Runs.{HasStarted, Leads};
ghost use Rattle.chk_world.specs.Names.{is_source};
ghost use Rattle.chk_world.specs.Checkpoints.{Two, are_lines, most_lines};
ghost use Rattle.chk_world.specs.Rules.{Legal};
ghost use Rattle.chk_world.specs.Places.{As};
ghost use Rattle.chk_checkpoint.specs.Lines.{shown, lines_of};
ghost use Rattle.chk_agent_adaptor.specs.Adaptors.{adaptor_of};
ghost use Rattle.chk_agent_delivery.specs.States.{State as Delivery};
ghost use Rattle.chk_agent.specs.Faults.{AgentCause, FailsLast};
ghost use Rattle.chk_agent.specs.Loading.{MadeOnce, Loaded, IsEmptyFor, IsBegun, AreLines};
ghost use Rattle.chk_agent.specs.Fits.{IsSound};
ghost use Rattle.chk_agent.specs.Starts.{IsFresh, Started, StartsAndReads, FindsCheckpoint};
ghost use Rattle.chk_agent.specs.Starts.{begun_state};

use crate::agent::{Agent, Rules};
use crate::answers::AgentFault;
use crate::lines::lines_now;
use chk_agent_adaptor::Adaptor;
use chk_agent_delivery::Delivery;
use chk_agent_table::{Adaptors, Hashing};
use chk_bytes::{NoMemory, Word};
use chk_checkpoint::{CheckLine, Checkpoint, MOST_LINES, load_checkpoint};
use chk_failover::Ring;
use chk_site::{Call, OutsideFault, Site, Who, done};
use std::alloc::Global;

impl Agent {
    /// Starts the agent: starts the process, loads its checkpoint, and takes the tables for 10,000
    /// adaptors. It makes no other calls. Each live line is read on from its place. `Damaged` comes
    /// at the first byte of the checkpoint that isn't in its grammar.
    ///
    /// It finds streams and names by `Hashing::Fixed`.
    pub fn start<S: Site>(
        alloc: Global,
        site: &mut S,
        who: &Who,
        ring: Ring,
        rules: Rules,
    ) -> Result<Agent, AgentFault>
        requires role { who.now.role ≡ agent_role }
        requires name { IsTrue (is_source who.now.name) }
        requires some_rows { 1 ≤ rules.rows }
        requires a_piece { chunk_limit ≤ rules.queue }
        ensures fresh { IfOk result (IsFresh who.now ring rules) }
        ensures starts { IfOk result (λ _. Adds (S.told site.old) (S.told site.new) (HasStarted who.now)) }
        ensures told { (stamped : List (List ℕ)) → Adds (S.told site.old) (S.told site.new)
            (Leads (As stamped who.now) (Legal stamped) (Started stamped who.now result)) }
        ensures acts { StartsAndReads who.now result (S.told site.old) (S.told site.new) }
        ensures whole { FindsCheckpoint (λ agent. agent.saved) who.now result
            (S.told site.old) (S.told site.new) }
        ensures last { Adds (S.told site.old) (S.told site.new) (FailsLast result) }
        ensures cause { AgentCause (S.fault_count site.old) (S.fault_count site.new) result }
    {
        Agent::start_with_hasher(alloc, site, who, ring, rules, Hashing::Fixed)
    }

    /// Starts the agent as `start` does, and finds streams and names by this hashing: by
    /// `Hashing::Random` where a stranger chooses their words.
    pub fn start_with_hasher<S: Site>(
        alloc: Global,
        site: &mut S,
        who: &Who,
        ring: Ring,
        rules: Rules,
        hashing: Hashing,
    ) -> Result<Agent, AgentFault>
        requires role { who.now.role ≡ agent_role }
        requires name { IsTrue (is_source who.now.name) }
        requires some_rows { 1 ≤ rules.rows }
        requires a_piece { chunk_limit ≤ rules.queue }
        ensures fresh { IfOk result (IsFresh who.now ring rules) }
        ensures starts { IfOk result (λ _. Adds (S.told site.old) (S.told site.new) (HasStarted who.now)) }
        ensures told { (stamped : List (List ℕ)) → Adds (S.told site.old) (S.told site.new)
            (Leads (As stamped who.now) (Legal stamped) (Started stamped who.now result)) }
        ensures acts { StartsAndReads who.now result (S.told site.old) (S.told site.new) }
        ensures whole { FindsCheckpoint (λ agent. agent.saved) who.now result
            (S.told site.old) (S.told site.new) }
        ensures last { Adds (S.told site.old) (S.told site.new) (FailsLast result) }
        ensures cause { AgentCause (S.fault_count site.old) (S.fault_count site.new) result }
    {
        let check = begin_and_load(alloc, site, who)?;
        let agent = new_agent(alloc, who, ring, rules, hashing, check)?;
        Ok(agent)
    }
}

// Starts the process, and loads its checkpoint.
fn begin_and_load<S: Site>(alloc: Global, site: &mut S, who: &Who) -> Result<Checkpoint, AgentFault>
    requires role { who.now.role ≡ agent_role }
    requires name { IsTrue (is_source who.now.name) }
    ensures lines { IfOk result (λ check. IsTrue (are_lines Two (lines_of check))) }
    ensures starts { IfOk result (λ _. Adds (S.told site.old) (S.told site.new) (HasStarted who.now)) }
    ensures told { (stamped : List (List ℕ)) (cluster : List ℕ) → Adds (S.told site.old) (S.told site.new)
        (Leads (As stamped who.now) (Legal stamped) (Loaded stamped cluster who.now result)) }
    ensures acts { StartsAndReads who.now result (S.told site.old) (S.told site.new) }
    ensures whole { FindsCheckpoint (λ check. lines_of check) who.now result
        (S.told site.old) (S.told site.new) }
    ensures last { Adds (S.told site.old) (S.told site.new) (FailsLast result) }
    ensures cause { AgentCause (S.fault_count site.old) (S.fault_count site.new) result }
{
    begin(alloc, site, who)?;
    let check = load_checkpoint(alloc, site, who)?;
    Ok(check)
}

// Starts the process.
fn begin<S: Site>(alloc: Global, site: &mut S, who: &Who) -> Result<(), OutsideFault>
    ensures told { MadeOnce (asked who.now Start [] 0 0) result (S.told site.old) (S.told site.new) }
    ensures last { Adds (S.told site.old) (S.told site.new) (LastFailed result) }
    ensures cause { OutsideCause (S.fault_count site.old) (S.fault_count site.new) result }
{
    let started = site.start(alloc, who);
    done(Call::Start, started)
}

// The agent of these lines. It makes no call on the outside.
fn new_agent(
    alloc: Global,
    who: &Who,
    ring: Ring,
    rules: Rules,
    hashing: Hashing,
    check: Checkpoint,
) -> Result<Agent, NoMemory>
    requires role { who.now.role ≡ agent_role }
    requires name { IsTrue (is_source who.now.name) }
    requires some_rows { 1 ≤ rules.rows }
    requires a_piece { chunk_limit ≤ rules.queue }
    requires lines { IsTrue (are_lines Two (lines_of check)) }
    ensures fresh { IfOk result (IsFresh who.now ring rules) }
    ensures saved { IfOk result (λ agent. agent.saved ≡ lines_of check) }
{
    let limits = chk_agent_delivery::Rules {
        rows: rules.rows,
        queue: rules.queue,
        poll: rules.poll,
        expire: rules.expire,
    };
    let delivery = begun_delivery(alloc, ring, limits, &check.lines)?;
    let adaptors = adaptors_of(alloc, hashing, check.lines)?;
    agent_with(alloc, who, rules.cluster, adaptors, delivery)
}

// The agent of these adaptors, whose lines are saved.
fn agent_with(
    alloc: Global,
    who: &Who,
    cluster: Word,
    adaptors: Adaptors,
    delivery: Delivery,
) -> Result<Agent, NoMemory>
    requires role { who.now.role ≡ agent_role }
    requires sound { IsSound (begun_state who.now.name cluster adaptors.items delivery) }
    ensures { IfOk result (λ agent. agent ≡ begun_state who.now.name cluster adaptors.items delivery) }
{
    let saved = lines_now(alloc, adaptors.as_slice(), &delivery)?;
    Ok(Agent {
        who: who.copy()?,
        cluster,
        adaptors,
        last: None,
        delivery,
        saved: saved.lines,
        ready: true,
    })
}

// Nothing waits, and the adaptor of each line begins at the line's offset.
fn begun_delivery(
    alloc: Global,
    ring: Ring,
    rules: chk_agent_delivery::Rules,
    lines: &[CheckLine],
) -> Result<Delivery, NoMemory>
    requires few { length lines.now ≤ most_lines }
    ensures { IfOk result (λ new. (old : Delivery) × IsEmptyFor ring rules most_lines old × IsBegun (map shown lines.now) old new) }
{
    let mut delivery = new_delivery(alloc, ring, rules, MOST_LINES as u32)?;
    begin_all(&mut delivery, lines);
    Ok(delivery)
}

// Nothing waits, and so many adaptors are known.
fn new_delivery(
    alloc: Global,
    ring: Ring,
    rules: chk_agent_delivery::Rules,
    adaptors: u32,
) -> Result<Delivery, NoMemory>
    ensures { IfOk result (IsEmptyFor ring rules adaptors) }
{
    Delivery::new(alloc, ring, rules, adaptors)
}

// The adaptor of each line begins at the line's offset.
fn begin_all(delivery: &mut Delivery, lines: &[CheckLine])
    requires none { delivery.old.owners ≡ [] }
    requires no_rows { delivery.old.table.rows ≡ [] }
    requires known { length lines.now ≤ length delivery.old.table.committed }
    requires last { length delivery.old.table.last ≡ length delivery.old.table.committed }
    requires few { length lines.now ≤ most_lines }
    ensures { IsBegun (map shown lines.now) delivery.old delivery.new }
{
    for (i, line) in lines.iter().enumerate() {
        delivery.begin(i as u32, line.place.offset);
    }
}

// The adaptors of the lines, in their order.
fn adaptors_of(alloc: Global, hashing: Hashing, lines: Vec<CheckLine>) -> Result<Adaptors, NoMemory>
    requires lines { AreLines (map shown lines.items) }
    requires good { IsTrue (are_lines Two (map shown lines.items)) }
    ensures { IfOk result (λ adaptors. adaptors.items ≡ map adaptor_of (map shown lines.items)) }
{
    let mut adaptors = Adaptors::new(alloc, hashing);
    for line in lines {
        adaptors.push(Adaptor::new(alloc, line)?)?;
    }
    Ok(adaptors)
}
