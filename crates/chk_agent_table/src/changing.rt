//! What changes one adaptor.

ghost use Rattle.std.specs.Prelude.{◌≡◌, ◌≤◌, ◌<◌, ◌+◌, ℕ, List, Some, None, Ok, IsTrue, IfOk};
ghost use Rattle.std.specs.Prelude.{find, length, position, slice_get, slice_set};
ghost use Rattle.std.specs.String.{string_bytes};
ghost use Rattle.chk_site.specs.Site.{Adds, LastFailed, OutsideCause};
ghost use Rattle.chk_site.specs.Runs.{Leads};
ghost use Rattle.chk_tail.specs.Walks.{Spot};
ghost use Rattle.chk_tail.specs.Given.{IsGiven};
ghost use Rattle.chk_tail.specs.declared.step.Step.{Step as Stepping};
ghost use Rattle.chk_rotate.specs.Marks.{BeginsBelow};
ghost use Rattle.chk_world.specs.Names.{is_source};
ghost use Rattle.chk_world.specs.Checkpoints.{Line, is_after_text, is_line_of};
ghost use Rattle.chk_world.specs.Places.{As};
ghost use Rattle.chk_world.specs.Knowing.{agent, Told};
ghost use Rattle.chk_agent_adaptor.specs.Adaptors.{Adaptor as Reading, IsPastLine, IsPlaced, before_of};
ghost use Rattle.chk_agent_adaptor.specs.Adaptors.{is_stepped, read_line, revived, sent_back};
ghost use Rattle.chk_agent_adaptor.specs.Adaptors.{settled_one, shut_down, stopped, stream_at};
ghost use Rattle.chk_agent_adaptor.specs.Facts.{ReaderStands, StepStands};
ghost use Rattle.chk_agent_adaptor.specs.Steps.{stepped};
ghost use Rattle.chk_agent_table.specs.Adaptors.{StepsAt, WasStepped, is_named, with_at};

use crate::adaptors::Adaptors;
use crate::names::{forget, note};
use chk_agent_adaptor::Before;
use chk_bytes::Word;
use chk_site::{OutsideFault, Site, Who};
use chk_tail::Step;
use std::alloc::Global;

impl Adaptors {
    /// Steps the adaptor as `Adaptor::step` does. After a refusal it is as it was.
    pub fn step<S: Site>(
        &mut self,
        alloc: Global,
        site: &mut S,
        who: &Who,
        number: u32,
    ) -> Result<Step, OutsideFault>
        requires read_on { (a : Reading) × (slice_get self.old.items number ≡ Some a)
            × IsTrue (is_stepped a.phase) }
        ensures state { (a : Reading) → slice_get self.old.items number ≡ Some a
            → StepsAt number who.now a self.old result self.new (S.told site.old)
            (S.told site.new) }
        ensures told { (a b : Reading) → slice_get self.old.items number ≡ Some a
            → slice_get self.new.items number ≡ Some b
            → (stamped : List (List ℕ)) (source cluster : List ℕ) (lines : List Line) (saved : Line)
            → who.now ≡ agent source → IsTrue (is_source source)
            → find (is_line_of (stream_at source a)) lines ≡ Some saved
            → IsPastLine saved (read_line a)
            → Adds (S.told site.old) (S.told site.new) (Leads (As stamped who.now)
            (Told stamped source cluster lines (ReaderStands source a))
            (Told stamped source cluster lines (StepStands source a result b))) }
        ensures placed { (b : Reading) → slice_get self.new.items number ≡ Some b → IsPlaced b }
        ensures named { (a : Reading) → slice_get self.old.items number ≡ Some a
            → IsTrue (is_after_text a.read.after) }
        ensures given { IfOk result IsGiven }
        ensures last { Adds (S.told site.old) (S.told site.new) (LastFailed result) }
        ensures cause { OutsideCause (S.fault_count site.old) (S.fault_count site.new) result }
    {
        self.streams[number as usize].step(alloc, site, who)
    }

    /// Back to where it stood before its last step.
    pub fn undo(&mut self, number: u32, before: Before)
        requires { (now : Reading) × (slice_get self.old.items number ≡ Some now)
            × WasStepped before now }
        ensures { (now was : Reading) (marks : List Spot) (next : Spot) (step : Stepping)
            → slice_get self.old.items number ≡ Some now → IsPlaced was → before ≡ before_of was
            → now ≡ stepped marks next (Ok step) was → self.new ≡ with_at number was self.old }
    {
        self.streams[number as usize].undo(before);
    }

    /// Goes back to the committed offset. One that had come to its end reads on to the next end.
    pub fn back(&mut self, number: u32, committed: u64)
        requires there { number < length self.old.items }
        requires from { (a : Reading) → slice_get self.old.items number ≡ Some a
            → BeginsBelow committed a.marks }
        requires to { (a : Reading) → slice_get self.old.items number ≡ Some a
            → committed ≤ a.read.offset }
        ensures { (a : Reading) → slice_get self.old.items number ≡ Some a
            → self.new ≡ with_at number (sent_back committed a) self.old }
    {
        self.streams[number as usize].back(committed);
    }

    /// Forgets what lies below the committed offset. One that had come to its end there is past.
    pub fn settle(&mut self, number: u32, committed: u64)
        requires there { number < length self.old.items }
        ensures { (a : Reading) → slice_get self.old.items number ≡ Some a
            → self.new ≡ with_at number (settled_one committed a) self.old }
    {
        self.streams[number as usize].settle(committed);
    }

    /// It is to end at the next end of its log.
    pub fn shut_down(&mut self, number: u32)
        requires there { number < length self.old.items }
        ensures { (a : Reading) → slice_get self.old.items number ≡ Some a
            → self.new ≡ with_at number (shut_down a) self.old }
    {
        self.streams[number as usize].shut_down();
    }

    /// It is past, at the committed offset. Its name is free.
    pub fn stop(&mut self, number: u32, committed: u64)
        requires there { number < length self.old.items }
        requires from { (a : Reading) → slice_get self.old.items number ≡ Some a
            → BeginsBelow committed a.marks }
        requires to { (a : Reading) → slice_get self.old.items number ≡ Some a
            → committed ≤ a.read.offset }
        ensures { (a : Reading) → slice_get self.old.items number ≡ Some a
            → self.new ≡ with_at number (stopped committed a) self.old }
    {
        self.streams[number as usize].stop(committed);
    }

    /// It lives at its place, under a name that no live one has. `key` is what `room_for_name`
    /// made of the name; there is room for it.
    pub fn revive(&mut self, number: u32, name: Word, key: String)
        requires room { 0 < self.old.spare }
        requires there { number < length self.old.items }
        requires key { string_bytes key ≡ name }
        requires free { position (is_named name) self.old.items ≡ None }
        ensures items { (a : Reading) → slice_get self.old.items number ≡ Some a
            → self.new.items ≡ slice_set self.old.items number (revived name a) }
        ensures spare { self.old.spare ≤ self.new.spare + 1 }
    {
        let place = number as usize;
        forget(&mut self.names, self.streams[place].name().as_str(), number);
        note(&mut self.names, true, key, number);
        self.streams[place].revive(name);
    }
}
