//! The reads of a round.

ghost use Rattle.std.specs.Prelude.{◌≡◌, ◌<◌, ◌≤◌, ◌∷◌, ℕ, List, [], IfOk, IsTrue, OnOk, Some, length, slice_get, true};
ghost use Rattle.chk_bytes.specs.Stems.{is_collector};
ghost use Rattle.chk_site.specs.declared.acts.Who.{Who as Person};
ghost use Rattle.chk_site.specs.Messages.{self_address};
ghost use Rattle.chk_site.specs.Site.{Adds};
ghost use Rattle.chk_site.specs.Runs.{Leads};
ghost use Rattle.chk_world.specs.Together.{Together};
ghost use Rattle.chk_sink.specs.States.{IsSameStart, process};
ghost use Rattle.chk_agent_adaptor.specs.Adaptors.{Adaptor as Reading, is_stepped};
ghost use Rattle.chk_round.specs.Faults.{FailsInside, RoundCause};
ghost use Rattle.chk_round.specs.Following.{KeepsLogs};
ghost use Rattle.chk_round.specs.Joint.{AreIn, BothAt};
ghost use Rattle.chk_round.specs.Reading.{AfterReadOut, IsGrowing, IsShrank, ReadOn, ReadsAll, ReadsOn};
ghost use Rattle.chk_round.specs.Lengths.{WorkShown};
ghost use Rattle.chk_round.specs.OwnRows.{OwnTo};
ghost use Rattle.chk_round.specs.Scripts.{ReadsEach, ReadsOut};
ghost use Rattle.chk_round.specs.Sending.{SendsOthers};
ghost use Rattle.chk_round.specs.Calls.{RoundCalls};

use crate::faults::RoundFault;
use crate::posting::post_next;
use chk_agent::{Agent, Stepped};
use chk_bytes::{NoMemory, Word};
use chk_collector::Collector;
use chk_site::{Site, Who};
use std::alloc::Global;

/// Reads each log that is still read to its end.
pub(crate) fn read_all<S: Site>(
    alloc: Global,
    site: &mut S,
    agent: &mut Agent,
    collector: &mut Collector,
    collecting: &Who,
    now: u64,
    reads: u64,
) -> Result<(), RoundFault>
    requires started { collecting.now ≡ process collector.old }
    requires named { IsTrue (is_collector collecting.now.name) }
    requires ready { agent.old.ready ≡ true }
    requires address { agent.old.delivery.ring.addresses ≡ self_address ∷ [] }
    requires some { 1 ≤ reads }
    ensures read { (stamped : List (List ℕ)) (started acting : List Person) → AreIn started acting collector.old agent.old
        → Adds (S.told site.old) (S.told site.new)
        (ReadsAll stamped started acting collector.old agent.old collector.new agent.new result) }
    ensures rows { OwnTo collector.old agent.old collector.new agent.new result (S.told site.old) (S.told site.new) }
    ensures script { ReadsEach reads 0 agent.old result agent.new
        (S.told site.old) (S.told site.new) }
    ensures on { OnOk result (ReadsOn agent.old agent.new) }
    ensures live { OnOk result (KeepsLogs agent.old agent.new) }
    ensures same { IsSameStart collector.old collector.new }
    ensures shown { WorkShown result (S.told site.old) (S.told site.new) }
    ensures acts { Adds (S.told site.old) (S.told site.new) RoundCalls }
    ensures last { Adds (S.told site.old) (S.told site.new) (FailsInside result) }
    ensures cause { RoundCause (S.fault_count site.old) (S.fault_count site.new) result }
{
    let count = agent.adaptors();
    for adaptor in 0..count {
        if agent.is_read_on(adaptor) {
            read_out(
                alloc, site, agent, collector, collecting, adaptor, now, reads,
            )?;
        }
    }
    Ok(())
}

// Reads the adaptor's log to its end, by fewer than so many reads that give bytes. Where the queue
// has no room for a read, posts go first.
fn read_out<S: Site>(
    alloc: Global,
    site: &mut S,
    agent: &mut Agent,
    collector: &mut Collector,
    collecting: &Who,
    adaptor: u32,
    now: u64,
    reads: u64,
) -> Result<(), RoundFault>
    requires started { collecting.now ≡ process collector.old }
    requires named { IsTrue (is_collector collecting.now.name) }
    requires ready { agent.old.ready ≡ true }
    requires address { agent.old.delivery.ring.addresses ≡ self_address ∷ [] }
    requires some { 1 ≤ reads }
    requires read_on { (a : Reading) × (slice_get agent.old.adaptors adaptor ≡ Some a) × IsTrue (is_stepped a.phase) }
    ensures read { (stamped : List (List ℕ)) (started acting : List Person) → AreIn started acting collector.old agent.old
        → Adds (S.told site.old) (S.told site.new) (Leads (Together stamped started acting)
        (BothAt stamped collector.old agent.old) (AfterReadOut stamped adaptor collector.new agent.new result)) }
    ensures rows { OwnTo collector.old agent.old collector.new agent.new result (S.told site.old) (S.told site.new) }
    ensures script { ReadsOut adaptor reads 0 agent.old result agent.new
        (S.told site.old) (S.told site.new) }
    ensures on { OnOk result (ReadOn adaptor agent.old agent.new) }
    ensures live { OnOk result (KeepsLogs agent.old agent.new) }
    ensures sends { OnOk result (SendsOthers adaptor agent.old
        (S.told site.old) (S.told site.new)) }
    ensures same { IsSameStart collector.old collector.new }
    ensures shown { WorkShown result (S.told site.old) (S.told site.new) }
    ensures acts { Adds (S.told site.old) (S.told site.new) RoundCalls }
    ensures last { Adds (S.told site.old) (S.told site.new) (FailsInside result) }
    ensures cause { RoundCause (S.fault_count site.old) (S.fault_count site.new) result }
{
    let mut count = 0;
    'reads: loop {
        let step = agent.step(alloc, site, adaptor)?;
        let _sound = agent.free_rows();
        match step {
            Stepped::AtEnd => return Ok(()),
            Stepped::Held { .. } => {
                post_next(alloc, site, agent, collector, collecting, now)?;
            }
            Stepped::Read { .. } => {
                count += 1;
                if count >= reads {
                    return Err(growing(alloc, agent, adaptor, reads));
                }
            }
            Stepped::Shrank { had, is } => return Err(shrank(alloc, agent, adaptor, had, is)),
        }
    }
}

// The log of this adaptor still grows, unless there was no memory for its path.
fn growing(alloc: Global, agent: &Agent, adaptor: u32, reads: u64) -> RoundFault
    requires { adaptor < length agent.now.adaptors }
    ensures which { (a : Reading) → slice_get agent.now.adaptors adaptor ≡ Some a → IsGrowing a.path reads result }
    ensures kind { (path : List ℕ) × IsGrowing path reads result }
{
    match path_of(alloc, agent, adaptor) {
        Ok(path) => RoundFault::Growing { path, reads },
        Err(_) => RoundFault::NoMemory,
    }
}

// The log of this adaptor is shorter than what was read, unless there was no memory for its path.
fn shrank(alloc: Global, agent: &Agent, adaptor: u32, had: u64, is: u64) -> RoundFault
    requires { adaptor < length agent.now.adaptors }
    ensures which { (a : Reading) → slice_get agent.now.adaptors adaptor ≡ Some a → IsShrank a.path had is result }
    ensures kind { (path : List ℕ) × IsShrank path had is result }
{
    match path_of(alloc, agent, adaptor) {
        Ok(path) => RoundFault::Shrank { path, had, is },
        Err(_) => RoundFault::NoMemory,
    }
}

// The path of the adaptor's log.
fn path_of(alloc: Global, agent: &Agent, adaptor: u32) -> Result<Word, NoMemory>
    requires { adaptor < length agent.now.adaptors }
    ensures { (a : Reading) → slice_get agent.now.adaptors adaptor ≡ Some a → IfOk result (λ path. path ≡ a.path) }
{
    match Word::new(alloc, agent.path(adaptor).as_bytes()) {
        Ok(path) => Ok(path),
        Err(_) => Err(NoMemory),
    }
}
