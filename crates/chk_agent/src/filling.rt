//! A fill: each adaptor that is still read is stepped once.

ghost use Rattle.std.specs.Prelude.{◌≡◌, ◌≤◌, ◌<◌, ◌==◌, ◌||◌, ℕ, List, IfOk, length, slice_get};
ghost use Rattle.chk_chunk.specs.Keys.{chunk_limit};
ghost use Rattle.std.specs.Prelude.{true};
ghost use Rattle.chk_site.specs.Site.{Adds};
ghost use Rattle.chk_site.specs.Runs.{Leads};
ghost use Rattle.chk_world.specs.Places.{As};
ghost use Rattle.chk_agent.specs.States.{process, to_step, is_read_on};
ghost use Rattle.chk_agent.specs.Facts.{Matches};
ghost use Rattle.chk_agent.specs.Faults.{AgentCause, FailsLast, IsUndamaged};
ghost use Rattle.chk_agent.specs.Fills.{IsFilled, filled_by};
ghost use Rattle.chk_agent.specs.Pieces.{gave_piece};
ghost use Rattle.chk_agent.specs.Within.{first_of, number_at, held_by};

use crate::agent::Agent;
use crate::answers::{AgentFault, Filled, Stepped};
use chk_agent_adaptor::Phase;
use chk_site::Site;
use std::alloc::Global;

// The most bytes that a step gives.
const PIECE: u64 = 131_072;

impl Agent {
    /// Steps each adaptor that is still read at most once, in order of adding, beginning behind the
    /// one that was stepped last and going round, while 131,072 bytes of the queue are free. It
    /// ends at a log that is shorter than what was read of it.
    pub fn fill<S: Site>(&mut self, alloc: Global, site: &mut S) -> Result<Filled, AgentFault>
        requires ready { self.old.ready ≡ true }
        ensures state { IsFilled (to_step self.old) 0 self.old result self.new
            (S.told site.old) (S.told site.new) }
        ensures told { (stamped : List (List ℕ)) → Adds (S.told site.old) (S.told site.new)
            (Leads (As stamped (process self.old)) (Matches stamped self.old) (Matches stamped self.new)) }
        ensures undamaged { IsUndamaged result }
        ensures last { Adds (S.told site.old) (S.told site.new) (FailsLast result) }
        ensures cause { AgentCause (S.fault_count site.old) (S.fault_count site.new) result }
    {
        let mut full = false;
        self.fill_noting(alloc, site, &mut full)
    }

    /// The same. `full` becomes true where a step gives 131,072 bytes, the most that one may.
    pub(crate) fn fill_noting<S: Site>(
        &mut self,
        alloc: Global,
        site: &mut S,
        full: &mut bool,
    ) -> Result<Filled, AgentFault>
        requires ready { self.old.ready ≡ true }
        ensures state { IsFilled (to_step self.old) 0 self.old result self.new
            (S.told site.old) (S.told site.new) }
        ensures full { IfOk result (λ _. full.new ≡ (full.old || gave_piece self.old self.new)) }
        ensures told { (stamped : List (List ℕ)) → Adds (S.told site.old) (S.told site.new)
            (Leads (As stamped (process self.old)) (Matches stamped self.old) (Matches stamped self.new)) }
        ensures undamaged { IsUndamaged result }
        ensures last { Adds (S.told site.old) (S.told site.new) (FailsLast result) }
        ensures cause { AgentCause (S.fault_count site.old) (S.fault_count site.new) result }
    {
        let before = self.delivery.used();
        let count = self.adaptors.as_slice().len() as u32;
        let first = first_of(self.last, count);
        for place in 0..count {
            let adaptor = number_at(count, first, place);
            if self.is_read_on(adaptor) {
                match self.step(alloc, site, adaptor)? {
                    Stepped::Read { bytes } => note(full, bytes),
                    Stepped::AtEnd => {}
                    Stepped::Held { used } => return Ok(held(used, used - before)),
                    Stepped::Shrank { had, is } => {
                        return Ok(Filled::Shrank { adaptor, had, is });
                    }
                }
            }
        }
        Ok(filled(self.delivery.used() - before))
    }

    /// Whether the adaptor's log is still read: it is live, or is to end and hasn't come to its end.
    pub fn is_read_on(&self, adaptor: u32) -> bool
        requires { adaptor < length self.now.adaptors }
        ensures { result ≡ is_read_on (slice_get self.now.adaptors adaptor) }
    {
        matches!(
            self.adaptors.at(adaptor).phase(),
            Phase::Live | Phase::Stopping { end: None }
        )
    }
}

// A step gave so many bytes.
fn note(full: &mut bool, bytes: u64)
    ensures { full.new ≡ (full.old || bytes == chunk_limit) }
{
    if bytes == PIECE {
        *full = true;
    }
}

// Where a fill of so many adaptors begins.
fn first_of(last: Option<u32>, count: u32) -> u32
    ensures first { result ≡ first_of count last }
    ensures within { result ≤ count }
{
    match last {
        Some(last) if last < count => last + 1,
        _ => 0,
    }
}

// The adaptor at a place of the order, which goes round.
fn number_at(count: u32, first: u32, place: u32) -> u32
    requires within { first ≤ count }
    requires there { place < count }
    ensures number { result ≡ number_at count first place }
    ensures there { result < count }
{
    if place < count - first {
        first + place
    } else {
        place - (count - first)
    }
}

// What a fill answers that gave so many bytes, and found the queue full.
fn held(used: u64, sum: u64) -> Filled
    ensures { result ≡ held_by used sum }
{
    if sum == 0 {
        Filled::Held { used }
    } else {
        Filled::Read { bytes: sum }
    }
}

// What a fill answers that gave so many bytes.
fn filled(sum: u64) -> Filled
    ensures { result ≡ filled_by sum }
{
    if sum == 0 {
        Filled::AtEnds
    } else {
        Filled::Read { bytes: sum }
    }
}
