//! The start of a round: collector and agent start, and the agent asks for the time.

ghost use Rattle.std.specs.Prelude.{◌≡◌, IfErr, ◌≤◌, ℕ, List, IsTrue, IfOk};
ghost use Rattle.chk_chunk.specs.Keys.{chunk_limit};
ghost use Rattle.chk_site.specs.declared.acts.Who.{Who as Person};
ghost use Rattle.chk_site.specs.Site.{Adds};
ghost use Rattle.chk_site.specs.Runs.{Leads, Owns};
ghost use Rattle.chk_world.specs.Names.{is_source};
ghost use Rattle.chk_world.specs.Knowing.{agent};
ghost use Rattle.chk_world.specs.Rules.{Legal};
ghost use Rattle.chk_world.specs.Together.{Together};
ghost use Rattle.chk_round.specs.Begun.{AgentBegan};
ghost use Rattle.chk_round.specs.Faults.{FailsLast, IsOfCall, RoundCause};
ghost use Rattle.chk_round.specs.Processes.{AreBoth, c1};
ghost use Rattle.chk_round.specs.Lengths.{EndShown, IsPlain};
ghost use Rattle.chk_round.specs.Calls.{IsStarting};
ghost use Rattle.chk_round.specs.Starts.{AreFresh, ClockGave, EndsWithClock, Met, inside, rules_of};
ghost use Rattle.chk_round.specs.Timed.{moment_of, pair_at};

use crate::faults::RoundFault;
use crate::words::{Limits, RoundWords};
use chk_agent::{Agent, Rules};
use chk_bytes::{NoMemory, Word};
use chk_collector::Collector;
use chk_failover::Ring;
use chk_site::{Call, CallFault, Site, Who};
use std::alloc::Global;

/// After so many milliseconds the collector closes a sink.
const ROTATE: u64 = 300_000;

/// How many milliseconds lie between two polls of a turn; a round makes no turn.
const POLL: u64 = 10_000;

/// After so many milliseconds a chunk that isn't committed would be sent again.
const EXPIRE: u64 = 300_000;

/// The collector and the agent of a round, and the one moment of its calls in milliseconds.
#[derive(Drop)]
pub(crate) struct Pair {
    pub(crate) collector: Collector,
    pub(crate) agent: Agent,
    pub(crate) now: u64,
}

/// The collector starts, then the agent, from its checkpoint, which asks for the time.
pub(crate) fn start_pair<S: Site>(
    alloc: Global,
    site: &mut S,
    collecting: &Who,
    reading: &Who,
    ring: Ring,
    rules: Rules,
) -> Result<Pair, RoundFault>
    requires collector { collecting.now ≡ c1 }
    requires agent_is { reading.now ≡ agent reading.now.name }
    requires name { IsTrue (is_source reading.now.name) }
    requires some_rows { 1 ≤ rules.rows }
    requires a_piece { chunk_limit ≤ rules.queue }
    ensures fresh { IfOk result (λ pair. AreFresh reading.now.name ring rules pair.collector pair.agent) }
    ensures told { (stamped : List (List ℕ)) (started acting : List Person)
        → AreBoth reading.now.name started acting → Adds (S.told site.old) (S.told site.new)
        (Leads (Together stamped started acting) (Legal stamped) (Met stamped result)) }
    ensures began { IfOk result (λ pair. AgentBegan reading.now ring rules pair.agent
        (S.told site.old) (S.told site.new)) }
    ensures clock { IfOk result (λ pair. Adds (S.told site.old) (S.told site.new)
        (EndsWithClock reading.now pair.now)) }
    ensures acts { Adds (S.told site.old) (S.told site.new) (Owns (IsStarting reading.now.name)) }
    ensures last { Adds (S.told site.old) (S.told site.new) (FailsLast result) }
    ensures only { IfErr result IsPlain }
    ensures shown { EndShown reading.now.name result (S.told site.old) (S.told site.new) }
    ensures cause { RoundCause (S.fault_count site.old) (S.fault_count site.new) result }
{
    let collector = Collector::start(alloc, site, collecting, ROTATE)?;
    let agent = Agent::start(alloc, site, reading, ring, rules)?;
    let _sound = agent.ready();
    timed(alloc, site, reading, collector, agent)
}

// The agent asks for the time.
fn timed<S: Site>(
    alloc: Global,
    site: &mut S,
    reading: &Who,
    collector: Collector,
    agent: Agent,
) -> Result<Pair, RoundFault>
    ensures same { IfOk result (λ pair. pair ≡ pair_at collector agent pair.now) }
    ensures gave { ClockGave reading.now (moment_of result) (S.told site.old) (S.told site.new) }
    ensures last { Adds (S.told site.old) (S.told site.new) (FailsLast result) }
    ensures only { IfErr result IsOfCall }
    ensures cause { RoundCause (S.fault_count site.old) (S.fault_count site.new) result }
{
    match clock(alloc, site, reading) {
        Ok(now) => Ok(Pair {
            collector,
            agent,
            now,
        }),
        Err(fault) => Err(fault),
    }
}

/// The ring of the one address inside the process.
pub(crate) fn ring_inside(alloc: Global) -> Result<Ring, NoMemory>
    ensures { IfOk result (λ ring. ring ≡ inside) }
{
    let address = Word::from_text(alloc, "self")?;
    let mut addresses = Vec::new(alloc);
    addresses.push(address)?;
    Ok(Ring::new(addresses, 0))
}

/// The rules of the agent of a round.
pub(crate) fn rules_of(given: &RoundWords, limits: Limits) -> Result<Rules, NoMemory>
    ensures { IfOk result (λ rules. rules ≡ rules_of given.now limits) }
{
    Ok(Rules {
        rows: limits.rows,
        queue: limits.queue,
        poll: POLL,
        expire: EXPIRE,
        cluster: given.cluster.copy()?,
    })
}

// The time in milliseconds.
fn clock<S: Site>(alloc: Global, site: &mut S, reading: &Who) -> Result<u64, RoundFault>
    ensures gave { ClockGave reading.now result (S.told site.old) (S.told site.new) }
    ensures last { Adds (S.told site.old) (S.told site.new) (FailsLast result) }
    ensures only { IfErr result IsOfCall }
    ensures cause { RoundCause (S.fault_count site.old) (S.fault_count site.new) result }
{
    match site.clock(alloc, reading) {
        Ok(now) => Ok(now),
        Err(CallFault::Failed) => Err(RoundFault::Outside { call: Call::Clock }),
        Err(CallFault::NoMemory) => Err(RoundFault::NoMemory),
        Err(_) => unreachable!(),
    }
}
