// The reader of a class.
ghost use Rattle.std.specs.Prelude.{◌≡◌, ◌≤◌, IfOk, IsTrue, None, length, not, true};
ghost use Rattle.chk_control.specs.Classes.{breaks_lines, is_plain};
ghost use Rattle.chk_site.specs.Site.{Adds, LastFailed, OutsideCause};
ghost use Rattle.chk_tail.specs.Given.{IsGiven};
ghost use Rattle.chk_rotate.specs.Marks.{BeginsBelow, forgotten, place_of};
ghost use Rattle.chk_rotate.specs.Readers.{reader_at, rewound, sent_back, spot_of};
ghost use Rattle.chk_world.specs.Checkpoints.{is_after_text};
ghost use Rattle.chk_agent_adaptor.specs.Fields.{seen, is_over, IsSoundReader, Walked};

use chk_bytes::{NoMemory, Word};
use chk_control::Class;
use chk_rotate::{Place, RotTail};
use chk_site::{OutsideFault, Site, Who};
use chk_tail::{Step, Tail};
use std::alloc::Global;

#[derive(Drop)]
pub(crate) enum Reader {
    Base { tail: Tail },
    Over { rotated: RotTail },
}

impl Reader {
    // A reader of the log at `path` from the place on, whose stream begins at `start`.
    pub(crate) fn new(
        alloc: Global,
        class: Class,
        path: Word,
        start: u64,
        place: Place,
    ) -> Result<Reader, NoMemory>
        requires begun { place.first ≤ place.offset }
        requires named { IsTrue (is_after_text place.after) }
        requires behind_none { is_plain class ≡ true → place.after ≡ None }
        requires first { is_plain class ≡ true → place.first ≡ start }
        ensures made { IfOk result (λ r.
            seen r ≡ reader_at path (breaks_lines class) (spot_of place)) }
        ensures over { IfOk result (λ r. is_over r ≡ not (is_plain class)) }
        ensures sound { IfOk result IsSoundReader }
    {
        match class {
            Class::Plain => Ok(Reader::Base {
                tail: Tail::new(path, false, start, place.offset - start),
            }),
            Class::Rotating => over(alloc, path, false, place),
            Class::Lines => over(alloc, path, true, place),
        }
    }

    // Reads at most a piece at its place.
    pub(crate) fn step<S: Site>(
        &mut self,
        alloc: Global,
        site: &mut S,
        who: &Who,
    ) -> Result<Step, OutsideFault>
        requires sound { IsSoundReader self.old }
        ensures told { Walked who.now self.old result self.new (S.told site.old) (S.told site.new) }
        ensures over { is_over self.new ≡ is_over self.old }
        ensures sound { IsSoundReader self.new }
        ensures given { IfOk result IsGiven }
        ensures last { Adds (S.told site.old) (S.told site.new) (LastFailed result) }
        ensures cause { OutsideCause (S.fault_count site.old) (S.fault_count site.new) result }
    {
        match self {
            Reader::Base { tail } => tail.step(alloc, site, who),
            Reader::Over { rotated } => rotated.step(alloc, site, who),
        }
    }

    // The offset up to which its log was read.
    pub(crate) fn read_end(&self) -> u64
        requires sound { IsSoundReader self.now }
        ensures { result ≡ (seen self.now).read.offset }
    {
        match self {
            Reader::Base { tail } => tail.start() + tail.at(),
            Reader::Over { rotated } => rotated.read_end(),
        }
    }

    // How many generations it keeps.
    pub(crate) fn marks(&self) -> usize
        ensures { result ≡ length (seen self.now).marks }
    {
        match self {
            Reader::Base { .. } => 1,
            Reader::Over { rotated } => rotated.marks(),
        }
    }

    // The place of an offset in the newest generation that begins at or below it.
    pub(crate) fn place_of(&self, committed: u64) -> Result<Place, NoMemory>
        requires from { BeginsBelow committed (seen self.now).marks }
        requires to { committed ≤ (seen self.now).read.offset }
        ensures { IfOk result (λ place. spot_of place ≡ place_of (seen self.now).marks committed) }
    {
        match self {
            Reader::Base { tail } => Ok(Place {
                after: None,
                first: tail.start(),
                offset: committed,
            }),
            Reader::Over { rotated } => rotated.place_of(committed),
        }
    }

    // Sets the place read to that of an offset.
    pub(crate) fn back(&mut self, committed: u64)
        requires sound { IsSoundReader self.old }
        requires from { BeginsBelow committed (seen self.old).marks }
        requires to { committed ≤ (seen self.old).read.offset }
        ensures back { seen self.new ≡ sent_back committed (seen self.old) }
        ensures over { is_over self.new ≡ is_over self.old }
        ensures sound { IsSoundReader self.new }
    {
        match self {
            Reader::Base { tail } => tail.back(committed - tail.start()),
            Reader::Over { rotated } => rotated.back(committed),
        }
    }

    // Goes back to where it kept so many generations and had read up to the offset.
    pub(crate) fn rewind(&mut self, marks: usize, offset: u64)
        requires sound { IsSoundReader self.old }
        ensures back { seen self.new ≡ rewound marks offset (seen self.old) }
        ensures over { is_over self.new ≡ is_over self.old }
        ensures sound { IsSoundReader self.new }
    {
        match self {
            Reader::Base { tail } => tail.back(offset.saturating_sub(tail.start())),
            Reader::Over { rotated } => rotated.rewind(marks, offset),
        }
    }

    // Drops the generations that lie below the offset.
    pub(crate) fn forget(&mut self, committed: u64)
        requires sound { IsSoundReader self.old }
        ensures forgotten { seen self.new
            ≡ record (seen self.old) { marks = forgotten committed (seen self.old).marks } }
        ensures over { is_over self.new ≡ is_over self.old }
        ensures sound { IsSoundReader self.new }
    {
        match self {
            Reader::Base { .. } => {}
            Reader::Over { rotated } => rotated.forget(committed),
        }
    }
}

// The reader over generations.
fn over(alloc: Global, path: Word, lines: bool, place: Place) -> Result<Reader, NoMemory>
    requires begun { place.first ≤ place.offset }
    requires named { IsTrue (is_after_text place.after) }
    ensures made { IfOk result (λ r. seen r ≡ reader_at path lines (spot_of place)) }
    ensures over { IfOk result (λ r. is_over r ≡ true) }
    ensures sound { IfOk result IsSoundReader }
{
    let rotated = RotTail::new(alloc, path, lines, place)?;
    Ok(Reader::Over { rotated })
}
