//! One adaptor.

ghost use Rattle.std.specs.Prelude.{◌≡◌, ◌≤◌, Some, List, ℕ, IsTrue, IfOk, Ok, find, not};
ghost use Rattle.chk_site.specs.Site.{Adds, LastFailed, OutsideCause};
ghost use Rattle.chk_site.specs.Runs.{Leads};
ghost use Rattle.chk_tail.specs.Walks.{Spot};
ghost use Rattle.chk_tail.specs.Given.{IsGiven};
ghost use Rattle.chk_tail.specs.declared.step.Step.{Step as Stepping};
ghost use Rattle.chk_rotate.specs.Marks.{BeginsBelow};
ghost use Rattle.chk_checkpoint.specs.Lines.{shown};
ghost use Rattle.chk_world.specs.Names.{is_source};
ghost use Rattle.chk_world.specs.Checkpoints.{Line, is_after_text, is_line, is_line_of};
ghost use Rattle.chk_world.specs.Places.{As};
ghost use Rattle.chk_world.specs.Knowing.{agent, Told};
ghost use Rattle.chk_agent_adaptor.specs.Adaptors.{Adaptor as Reading, adaptor_of, line_at};
ghost use Rattle.chk_agent_adaptor.specs.Adaptors.{is_past, is_stepped, phase_at, sent_back, settled_one};
ghost use Rattle.chk_agent_adaptor.specs.Adaptors.{shut_down, stopped, revived, IsPlaced};
ghost use Rattle.chk_agent_adaptor.specs.Adaptors.{stream_at, read_line, IsPastLine, before_of};
ghost use Rattle.chk_agent_adaptor.specs.Steps.{IsStepped, phase_after, stepped};
ghost use Rattle.chk_agent_adaptor.specs.Facts.{ReaderStands, StepStands};

use crate::reader::Reader;
use chk_bytes::{NoMemory, Word};
use chk_checkpoint::CheckLine;
use chk_control::Class;
use chk_site::{OutsideFault, Site, Who};
use chk_tail::Step;
use std::alloc::Global;
use std::marker::Model;

/// What an adaptor does.
#[derive(Clone, Copy, Debug, PartialEq, Eq)]
pub enum Phase {
    /// Its log is read.
    Live,
    /// It is to end. `end` is the offset at which it last came to the end of its log; before that
    /// its log is read.
    Stopping { end: Option<u64> },
    /// Its log is shorter than what was read of it, and isn't read any more.
    Shrank,
    /// It was stopped, or has come to its end. Its stream may be added again.
    Past,
}

/// Where an adaptor stood before a step.
#[derive(Clone, Copy)]
pub struct Before {
    marks: usize,
    offset: u64,
    phase: Phase,
}

/// A stream of the checkpoint, with its reader. It holds the path twice, and for each generation
/// that was passed and isn't yet committed a suffix and an offset.
#[derive(Drop)]
pub struct Adaptor {
    name: Word,
    class: Class,
    kind: Word,
    path: Word,
    start: u64,
    phase: Phase,
    reader: Reader,
}

impl Model for Adaptor {
    ghost use Rattle.chk_agent_adaptor.specs.Adaptors.{Adaptor as Reading};

    ghost Value = { Reading };

    ghost use Rattle.chk_agent_adaptor.specs.Fields.{adaptor_view, IsSoundInside};

    ghost view = { adaptor_view };

    ghost invariant = { IsSoundInside };
}

impl Adaptor {
    /// The adaptor of a line of a checkpoint, which reads on from its place.
    pub fn new(alloc: Global, line: CheckLine) -> Result<Adaptor, NoMemory>
        requires { IsTrue (is_line (shown line)) }
        ensures { IfOk result (λ a. a ≡ adaptor_of (shown line)) }
    {
        let path = line.path.copy()?;
        let reader = Reader::new(alloc, line.class, path, line.start, line.place)?;
        Ok(Adaptor {
            name: line.name,
            class: line.class,
            kind: line.kind,
            path: line.path,
            start: line.start,
            phase: if line.live { Phase::Live } else { Phase::Past },
            reader,
        })
    }

    /// Its line, where its stream is committed up to an offset. It copies its words.
    pub fn line(&self, alloc: Global, committed: u64) -> Result<CheckLine, NoMemory>
        requires from { BeginsBelow committed self.now.marks }
        requires to { committed ≤ self.now.read.offset }
        ensures { IfOk result (λ l. shown l ≡ line_at committed self.now) }
    {
        Ok(CheckLine {
            name: self.name.copy()?,
            live: is_live(self.phase),
            class: self.class,
            kind: self.kind.copy()?,
            path: self.path.copy()?,
            place: self.reader.place_of(committed)?,
            start: self.start,
        })
    }

    /// Reads at most a piece at its place, as the reader of its class does, and goes on behind what
    /// it gives. At the end of its log one that is to end has come to its end; where the log is
    /// shorter than its place it isn't read any more. After a refusal it is as it was.
    pub fn step<S: Site>(
        &mut self,
        alloc: Global,
        site: &mut S,
        who: &Who,
    ) -> Result<Step, OutsideFault>
        requires read_on { IsTrue (is_stepped self.old.phase) }
        ensures state { IsStepped who.now self.old result self.new
            (S.told site.old) (S.told site.new) }
        ensures told { (stamped : List (List ℕ)) (source cluster : List ℕ) (lines : List Line)
            (saved : Line)
            → who.now ≡ agent source → IsTrue (is_source source)
            → find (is_line_of (stream_at source self.old)) lines ≡ Some saved
            → IsPastLine saved (read_line self.old) → Adds (S.told site.old) (S.told site.new)
            (Leads (As stamped who.now)
            (Told stamped source cluster lines (ReaderStands source self.old))
            (Told stamped source cluster lines (StepStands source self.old result self.new))) }
        ensures placed { IsPlaced self.new }
        ensures named { IsTrue (is_after_text self.old.read.after) }
        ensures given { IfOk result IsGiven }
        ensures last { Adds (S.told site.old) (S.told site.new) (LastFailed result) }
        ensures cause { OutsideCause (S.fault_count site.old) (S.fault_count site.new) result }
    {
        let step = self.reader.step(alloc, site, who)?;
        self.phase = phase_after(&step, self.reader.read_end(), self.phase);
        Ok(step)
    }

    /// Where it stands, to be given to `undo`.
    pub fn before(&self) -> Before
        ensures { result ≡ before_of self.now }
    {
        Before {
            marks: self.marks(),
            offset: self.read_end(),
            phase: self.phase,
        }
    }

    /// Back to where it stood before its last step.
    pub fn undo(&mut self, before: Before)
        ensures { (a : Reading) (marks : List Spot) (next : Spot) (step : Stepping) → IsPlaced a
            → before ≡ before_of a → self.old ≡ stepped marks next (Ok step) a → self.new ≡ a }
    {
        self.reader.rewind(before.marks, before.offset);
        self.phase = before.phase;
    }

    /// Goes back to the committed offset. One that had come to its end reads on to the next end.
    pub fn back(&mut self, committed: u64)
        requires from { BeginsBelow committed self.old.marks }
        requires to { committed ≤ self.old.read.offset }
        ensures { self.new ≡ sent_back committed self.old }
    {
        self.reader.back(committed);
        if let Phase::Stopping { .. } = self.phase {
            self.phase = Phase::Stopping { end: None };
        }
    }

    /// Forgets what lies below the committed offset. One that had come to its end there is past.
    pub fn settle(&mut self, committed: u64)
        ensures { self.new ≡ settled_one committed self.old }
    {
        self.reader.forget(committed);
        self.phase = phase_at(committed, self.phase);
    }

    /// It is to end at the next end of its log.
    pub fn shut_down(&mut self)
        ensures { self.new ≡ shut_down self.old }
    {
        if self.phase == Phase::Live {
            self.phase = Phase::Stopping { end: None };
        }
    }

    /// It is past, at the committed offset.
    pub fn stop(&mut self, committed: u64)
        requires from { BeginsBelow committed self.old.marks }
        requires to { committed ≤ self.old.read.offset }
        ensures { self.new ≡ stopped committed self.old }
    {
        self.back(committed);
        self.phase = Phase::Past;
    }

    /// A past one lives again, under a new name, at its place.
    pub fn revive(&mut self, name: Word)
        ensures { self.new ≡ revived name self.old }
    {
        self.name = name;
        self.phase = Phase::Live;
    }

    /// The name, which no other live adaptor has.
    pub fn name(&self) -> &Word
        ensures { result.now ≡ self.now.name }
    {
        &self.name
    }

    /// How its log is read.
    pub fn class(&self) -> Class
        ensures { result ≡ self.now.class }
    {
        self.class
    }

    /// The data type.
    pub fn kind(&self) -> &Word
        ensures { result.now ≡ self.now.kind }
    {
        &self.kind
    }

    /// The path of the log.
    pub fn path(&self) -> &Word
        ensures { result.now ≡ self.now.path }
    {
        &self.path
    }

    /// The offset of the first byte of its stream.
    pub fn start(&self) -> u64
        ensures { result ≡ self.now.start }
    {
        self.start
    }

    /// What it does.
    pub fn phase(&self) -> Phase
        ensures phase { result ≡ self.now.phase }
        ensures placed { IsPlaced self.now }
    {
        self.phase
    }

    /// The offset up to which its log was read.
    pub fn read_end(&self) -> u64
        ensures { result ≡ self.now.read.offset }
    {
        self.reader.read_end()
    }

    // How many generations it may still need.
    fn marks(&self) -> usize
        ensures { result ≡ (before_of self.now).marks }
    {
        self.reader.marks()
    }
}

// What an adaptor does once its stream is committed up to this offset.
fn phase_at(committed: u64, phase: Phase) -> Phase
    ensures { result ≡ phase_at committed phase }
{
    match phase {
        Phase::Stopping { end: Some(end) } if end == committed => Phase::Past,
        _ => phase,
    }
}

// Whether a line with this phase is live.
fn is_live(phase: Phase) -> bool
    ensures { result ≡ not (is_past phase) }
{
    !matches!(phase, Phase::Past)
}

// What an adaptor does after a step that left it at this offset.
fn phase_after(step: &Step, end: u64, phase: Phase) -> Phase
    ensures { (next : Spot) → next.offset ≡ end → result ≡ phase_after step.now next phase }
{
    match (step, phase) {
        (Step::AtEnd, Phase::Stopping { .. }) => Phase::Stopping { end: Some(end) },
        (Step::Shrank { .. }, _) => Phase::Shrank,
        _ => phase,
    }
}
