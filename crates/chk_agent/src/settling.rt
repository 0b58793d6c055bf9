//! Adaptors whose answers have expired go back, and the checkpoint goes on over what is committed.

ghost use Rattle.std.specs.Prelude.{◌≡◌, ◌≤◌, ℕ, List, Some, IsTrue, IsFalse, length, map, not};
ghost use Rattle.std.specs.Prelude.{true};
ghost use Rattle.std.specs.Prelude.{slice_get, slice_index};
ghost use Rattle.chk_site.specs.Site.{Adds};
ghost use Rattle.chk_site.specs.Runs.{Leads};
ghost use Rattle.chk_world.specs.Places.{As};
ghost use Rattle.chk_world.specs.Checkpoints.{most_lines};
ghost use Rattle.chk_checkpoint.specs.Lines.{shown, lines_of};
ghost use Rattle.chk_agent_adaptor.specs.Adaptors.{Adaptor as Reading, is_past, phase_at};
ghost use Rattle.chk_rotate.specs.Marks.{BeginsBelow};
ghost use Rattle.chk_rotate.specs.Readers.{spot_of};
ghost use Rattle.chk_agent.specs.States.{State, process, lines_at, lines_of as lines_held};
ghost use Rattle.chk_agent.specs.Facts.{Matches};
ghost use Rattle.chk_agent.specs.Faults.{AgentCause, FailsLast, IsUndamaged};
ghost use Rattle.chk_agent.specs.Settles.{IsSettled, all_back, gone_at, reset, settled};
ghost use Rattle.chk_agent.specs.Settles.{settled_all};
ghost use Rattle.chk_agent.specs.Within.{Rising, same_line, same_place, same_suffix, same_kind};
ghost use Rattle.chk_agent.specs.Within.{same_words};

use crate::agent::Agent;
use crate::answers::{AgentFault, Settled};
use crate::lines::lines_now;
use chk_agent_adaptor::{Adaptor, Phase};
use chk_agent_delivery::Delivery;
use chk_agent_table::Adaptors;
use chk_checkpoint::{CheckLine, Checkpoint, write_checkpoint};
use chk_rotate::Place;
use chk_site::{OutsideFault, Site, Suffix};
use std::alloc::Global;

impl Agent {
    /// Sends each adaptor with an expired answer back to its committed end. Where a line is then
    /// another one than that of the checkpoint, the checkpoint is written. Its cost is that of the
    /// rows, the queue and the lines, for all of which it takes memory first.
    pub fn settle<S: Site>(
        &mut self,
        alloc: Global,
        site: &mut S,
        now: u64,
    ) -> Result<Settled, AgentFault>
        requires ready { self.old.ready ≡ true }
        ensures state { IsSettled now self.old result self.new (S.told site.old) (S.told site.new) }
        ensures told { (stamped : List (List ℕ)) → Adds (S.told site.old) (S.told site.new)
            (Leads (As stamped (process self.old)) (Matches stamped self.old) (Matches stamped self.new)) }
        ensures undamaged { IsUndamaged result }
        ensures last { Adds (S.told site.old) (S.told site.new) (FailsLast result) }
        ensures cause { AgentCause (S.fault_count site.old) (S.fault_count site.new) result }
    {
        let mut check = lines_now(alloc, self.adaptors.as_slice(), &self.delivery)?;
        let gone = self.delivery.expire(alloc, now)?;
        let _sound = self.delivery.used();
        let reset = gone.as_slice().len() as u32;
        send_back(&mut self.adaptors, &self.delivery, gone.as_slice());
        note_ended(
            check.lines.as_mut_slice(),
            self.adaptors.as_slice(),
            &self.delivery,
        );
        self.write_changed(alloc, site, check, reset)
    }

    // Settles the adaptors, of which so many went back, and writes the checkpoint where their lines
    // then are other ones than those of it.
    fn write_changed<S: Site>(
        &mut self,
        alloc: Global,
        site: &mut S,
        check: Checkpoint,
        back: u32,
    ) -> Result<Settled, AgentFault>
        requires ready { self.old.ready ≡ true }
        requires lines { lines_of check ≡ lines_held (settled self.old) }
        ensures state { (now : ℕ) (s : State) → self.old ≡ reset (gone_at now s) s → back ≡ length (gone_at now s)
            → IsSettled now s result self.new (S.told site.old) (S.told site.new) }
        ensures told { (stamped : List (List ℕ)) → Adds (S.told site.old) (S.told site.new)
            (Leads (As stamped (process self.old)) (Matches stamped self.old) (Matches stamped self.new)) }
        ensures undamaged { IsUndamaged result }
        ensures last { Adds (S.told site.old) (S.told site.new) (FailsLast result) }
        ensures cause { AgentCause (S.fault_count site.old) (S.fault_count site.new) result }
    {
        if are_same(check.lines.as_slice(), self.saved.as_slice()) {
            settle_all(&mut self.adaptors, &self.delivery);
            return Ok(Settled {
                reset: back,
                written: false,
            });
        }
        match write_checkpoint(alloc, site, &self.who, &check) {
            Ok(()) => {
                settle_all(&mut self.adaptors, &self.delivery);
                self.saved = check.lines;
                Ok(Settled {
                    reset: back,
                    written: true,
                })
            }
            Err(OutsideFault::NoMemory) => Err(AgentFault::NoMemory),
            Err(OutsideFault::Outside { call }) => {
                self.ready = false;
                Err(AgentFault::Outside { call })
            }
        }
    }
}

// These adaptors go back to their committed ends.
fn send_back(adaptors: &mut Adaptors, delivery: &Delivery, gone: &[u32])
    requires known { length adaptors.old.items ≤ length delivery.now.table.committed }
    requires from { (i : ℕ) (a : Reading) → slice_get adaptors.old.items i ≡ Some a
        → BeginsBelow (slice_index delivery.now.table.committed i) a.marks }
    requires to { (i : ℕ) (a : Reading) → slice_get adaptors.old.items i ≡ Some a
        → slice_index delivery.now.table.committed i ≤ a.read.offset }
    requires rising { Rising 0 gone.now }
    ensures { adaptors.new.items
        ≡ all_back gone.now delivery.now.table.committed 0 adaptors.old.items }
{
    for place in 0..gone.len() {
        let adaptor = gone[place];
        if adaptor < adaptors.len() {
            let committed = delivery.committed_end(adaptor);
            adaptors.back(adaptor, committed);
        }
    }
}

// The lines of the adaptors that have come to their ends are past.
fn note_ended(lines: &mut [CheckLine], adaptors: &[Adaptor], delivery: &Delivery)
    requires few { length adaptors.now ≤ most_lines }
    requires known { length adaptors.now ≤ length delivery.now.table.committed }
    requires lines { map shown lines.old ≡ lines_at adaptors.now delivery.now.table.committed }
    ensures { map shown lines.new
        ≡ lines_at (settled_all adaptors.now delivery.now.table.committed) delivery.now.table.committed }
{
    for place in 0..adaptors.len() {
        let committed = delivery.committed_end(place as u32);
        lines[place].live = stays_live(&adaptors[place], committed);
    }
}

// The adaptor is there, and hasn't come to its end at this offset.
fn stays_live(adaptor: &Adaptor, committed: u64) -> bool
    ensures { result ≡ not (is_past (phase_at committed adaptor.now.phase)) }
{
    match adaptor.phase() {
        Phase::Past => false,
        Phase::Stopping { end: Some(end) } => end != committed,
        _ => true,
    }
}

// What lies below the committed ends is forgotten, and who has come to its end is past.
fn settle_all(adaptors: &mut Adaptors, delivery: &Delivery)
    requires known { length adaptors.old.items ≤ length delivery.now.table.committed }
    ensures { adaptors.new.items ≡ settled_all adaptors.old.items delivery.now.table.committed }
{
    for place in 0..adaptors.len() {
        let committed = delivery.committed_end(place);
        adaptors.settle(place, committed);
    }
}

// Both lists have the same lines.
fn are_same(lines: &[CheckLine], others: &[CheckLine]) -> bool
    ensures same { IsTrue result → map shown lines.now ≡ map shown others.now }
    ensures other { IsFalse result → map shown lines.now ≡ map shown others.now → ⊥ }
{
    if lines.len() != others.len() {
        return false;
    }
    for place in 0..lines.len() {
        if !is_same(&lines[place], &others[place]) {
            return false;
        }
    }
    true
}

// Both lines are the same. What changes most often is compared first.
fn is_same(line: &CheckLine, other: &CheckLine) -> bool
    ensures { result ≡ same_line (shown line.now) (shown other.now) }
{
    is_same_place(&line.place, &other.place)
        && is_same_kind(line, other)
        && has_same_words(line, other)
}

fn is_same_place(place: &Place, other: &Place) -> bool
    ensures { result ≡ same_place (spot_of place.now) (spot_of other.now) }
{
    place.offset == other.offset
        && place.first == other.first
        && is_same_suffix(&place.after, &other.after)
}

fn is_same_suffix(suffix: &Option<Suffix>, other: &Option<Suffix>) -> bool
    ensures { result ≡ same_suffix suffix.now other.now }
{
    match (suffix, other) {
        (None, None) => true,
        (Some(suffix), Some(other)) => suffix.as_str() == other.as_str(),
        _ => false,
    }
}

fn is_same_kind(line: &CheckLine, other: &CheckLine) -> bool
    ensures { result ≡ same_kind (shown line.now) (shown other.now) }
{
    line.live == other.live && line.start == other.start && line.class == other.class
}

fn has_same_words(line: &CheckLine, other: &CheckLine) -> bool
    ensures { result ≡ same_words (shown line.now) (shown other.now) }
{
    line.name.as_str() == other.name.as_str()
        && line.kind.as_str() == other.kind.as_str()
        && line.path.as_str() == other.path.as_str()
}
