//! A step of one adaptor.

ghost use Rattle.std.specs.Prelude.{◌≡◌, ◌+◌, ◌<◌, ℕ, List, Some, IsTrue, IsFalse, IfOk, OnOk};
ghost use Rattle.std.specs.Prelude.{OnErr, length};
ghost use Rattle.std.specs.Prelude.{slice_get, slice_index};
ghost use Rattle.chk_site.specs.Site.{Adds};
ghost use Rattle.chk_site.specs.Runs.{Leads};
ghost use Rattle.chk_chunk.specs.Keys.{is_chunk};
ghost use Rattle.chk_chunk.specs.Lent.{chunk_of};
ghost use Rattle.chk_world.specs.Places.{As};
ghost use Rattle.chk_agent_adaptor.specs.Adaptors.{Adaptor as Reading, is_stepped};
ghost use Rattle.chk_agent_delivery.specs.Sound.{next_begins};
ghost use Rattle.chk_agent_delivery.specs.Turns.{is_held, with_chunk};
ghost use Rattle.chk_agent.specs.States.{process};
ghost use Rattle.chk_agent.specs.Facts.{Matches, AfterStep};
ghost use Rattle.chk_agent.specs.Faults.{AgentCause, FailsLast, IsUndamaged};
ghost use Rattle.chk_agent.specs.Fills.{IsOneStepped};
ghost use Rattle.chk_agent.specs.Within.{chunk_made};
ghost use Rattle.std.specs.Prelude.{true, is_ok};

use crate::agent::Agent;
use crate::answers::{AgentFault, Stepped};
use chk_agent_adaptor::Adaptor;
use chk_agent_delivery::Delivery;
use chk_bytes::{Bytes, NoMemory, Word};
use chk_chunk::Chunk;
use chk_site::{Site, Who};
use chk_tail::Step;
use std::alloc::Global;

impl Agent {
    /// Steps this adaptor alone, once, as `fill` does. The next `fill` begins behind it.
    pub fn step<S: Site>(
        &mut self,
        alloc: Global,
        site: &mut S,
        adaptor: u32,
    ) -> Result<Stepped, AgentFault>
        requires ready { self.old.ready ≡ true }
        requires read_on { (a : Reading) × (slice_get self.old.adaptors adaptor ≡ Some a) × IsTrue (is_stepped a.phase) }
        ensures state { (a : Reading) → slice_get self.old.adaptors adaptor ≡ Some a
            → IsOneStepped adaptor a self.old result self.new (S.told site.old) (S.told site.new) }
        ensures told { (stamped : List (List ℕ)) → Adds (S.told site.old) (S.told site.new)
            (Leads (As stamped (process self.old)) (Matches stamped self.old)
            (AfterStep stamped adaptor self.new result)) }
        ensures undamaged { IsUndamaged result }
        ensures last { Adds (S.told site.old) (S.told site.new) (FailsLast result) }
        ensures cause { AgentCause (S.fault_count site.old) (S.fault_count site.new) result }
    {
        if self.delivery.is_held() {
            let used = self.delivery.used();
            return Ok(Stepped::Held { used });
        }
        let _sound = self.delivery.used();
        let _sound_word = self.cluster.as_str();
        let _sound_name = self.who.name.as_str();
        let before = self.adaptors.at(adaptor).before();
        let step = self.adaptors.step(alloc, site, &self.who, adaptor)?;
        match step {
            Step::Bytes { bytes, end } => {
                let size = bytes.as_slice().len() as u64;
                let chunk = chunk_of(
                    alloc,
                    &self.who,
                    &self.cluster,
                    self.adaptors.at(adaptor),
                    bytes,
                    end,
                );
                if keep(&mut self.delivery, adaptor, chunk).is_err() {
                    self.adaptors.undo(adaptor, before);
                    return Err(AgentFault::NoMemory);
                }
                let _sound_still = self.delivery.used();
                self.last = Some(adaptor);
                Ok(Stepped::Read { bytes: size })
            }
            Step::AtEnd => {
                self.last = Some(adaptor);
                Ok(Stepped::AtEnd)
            }
            Step::Shrank { had, is } => {
                self.last = Some(adaptor);
                Ok(Stepped::Shrank { had, is })
            }
        }
    }
}

// The chunk of some bytes of an adaptor's log, which end at an offset. It copies the words.
fn chunk_of(
    alloc: Global,
    who: &Who,
    cluster: &Word,
    adaptor: &Adaptor,
    bytes: Bytes,
    end: u64,
) -> Result<Chunk, NoMemory>
    ensures { IfOk result (λ chunk. chunk ≡ chunk_made who.now.name cluster.now adaptor.now bytes end) }
{
    Ok(Chunk {
        source: who.name.copy()?,
        kind: adaptor.kind().copy()?,
        name: adaptor.path().copy()?,
        start: adaptor.start(),
        cluster: cluster.copy()?,
        seq: end,
        body: bytes,
    })
}

// Puts a chunk of the adaptor behind the others, where there was memory for it.
fn keep(
    delivery: &mut Delivery,
    adaptor: u32,
    chunk: Result<Chunk, NoMemory>,
) -> Result<(), NoMemory>
    requires room { IsFalse (is_held delivery.old) }
    requires valid { IfOk chunk (λ c. IsTrue (is_chunk (chunk_of c))) }
    requires known { adaptor < length (next_begins delivery.old) }
    requires next { IfOk chunk (λ c. c.seq ≡ slice_index (next_begins delivery.old) adaptor + length c.body) }
    ensures ok { OnOk result (IfOk chunk (λ c. delivery.new ≡ with_chunk adaptor c delivery.old)) }
    ensures made { OnOk result (is_ok chunk ≡ true) }
    ensures err { OnErr result (delivery.new ≡ delivery.old) }
{
    delivery.put(adaptor, chunk?)
}
