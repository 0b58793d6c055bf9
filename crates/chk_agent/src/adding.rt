//! How a stream is added.

ghost use Rattle.std.specs.Prelude.{◌≡◌, ◌&&◌, bytes_eq, ◌<◌, ◌^◌, ℕ, List, IsTrue, IfOk, None};
ghost use Rattle.std.specs.Prelude.{true, length, option_map, position};
ghost use Rattle.std.specs.Prelude.{◌≤◌, ◌++◌, ◌∷◌, [], Some, Ok, not, slice_get};
ghost use Rattle.chk_bytes.specs.Words.{is_word};
ghost use Rattle.chk_control.specs.Classes.{is_plain};
ghost use Rattle.chk_control.specs.Lines.{is_name};
ghost use Rattle.chk_rotate.specs.Marks.{BeginsBelow};
ghost use Rattle.chk_checkpoint.specs.Lines.{shown, lines_of, written_text};
ghost use Rattle.chk_world.specs.Checkpoints.{Line, Two, are_lines, is_after_text, read_checkpoint};
ghost use Rattle.chk_agent.specs.Settles.{Writes};
ghost use Rattle.chk_agent.specs.Takes.{Asks, IsMore, IsNewLine, Keeps, MatchesNewest, TakesNamed};
ghost use Rattle.chk_site.specs.History.{Every};
ghost use Rattle.chk_site.specs.Site.{Adds, LastFailed, OutsideCause};
ghost use Rattle.chk_replace.specs.Replace.{SparesOld};
ghost use Rattle.chk_world.specs.Names.{CheckFile, spell};
ghost use Rattle.chk_site.specs.Runs.{Leads};
ghost use Rattle.chk_world.specs.Places.{As};
ghost use Rattle.chk_world.specs.Checkpoints.{most_lines};
ghost use Rattle.chk_agent_adaptor.specs.Adaptors.{Adaptor as Reading, is_past, line_at};
ghost use Rattle.chk_agent.specs.States.{process, lines_of as lines_now};
ghost use Rattle.chk_agent.specs.Facts.{Matches};
ghost use Rattle.chk_agent.specs.Faults.{AgentCause, FailsLast, IsUndamaged};
ghost use Rattle.chk_agent.specs.Adds.{Found, IsAdded, IsNameFor, MayTake, TakesStream, named_in};
ghost use Rattle.chk_agent.specs.Adds.{stream_in, revived_at, with_added};

use crate::agent::Agent;
use crate::answers::{Added, AgentFault};
use crate::commanding::is_past;
use crate::lines::lines_now;
use crate::naming::{least_free, name_of};
use chk_agent_adaptor::{Adaptor, Phase};
use chk_bytes::{NoMemory, Word};
use chk_checkpoint::{CheckLine, Checkpoint, MOST_LINES, write_checkpoint};
use chk_control::Class;
use chk_rotate::Place;
use chk_site::{Call, CallFault, OutsideFault, Site, Suffix};
use std::alloc::Global;

impl Agent {
    /// Reads the stream of this type and path from now on: a new one from offset 0, behind the
    /// newest rotated generation, a past one at its kept place, with its kept class. It gets the
    /// least default name that no live adaptor has. The checkpoint is written first.
    pub fn add<S: Site>(
        &mut self,
        alloc: Global,
        site: &mut S,
        class: Class,
        kind: &Word,
        path: &Word,
    ) -> Result<Added, AgentFault>
        requires ready { self.old.ready ≡ true }
        ensures state { IsAdded class kind.now path.now self.old result self.new
            (S.told site.old) (S.told site.new) }
        ensures told { (stamped : List (List ℕ)) → Adds (S.told site.old) (S.told site.new)
            (Leads (As stamped (process self.old)) (Matches stamped self.old) (Matches stamped self.new)) }
        ensures undamaged { IsUndamaged result }
        ensures last { Adds (S.told site.old) (S.told site.new) (FailsLast result) }
        ensures cause { AgentCause (S.fault_count site.old) (S.fault_count site.new) result }
    {
        let found = self.find_stream(kind, path);
        match found {
            Some(place) => {
                let adaptor = self.adaptors.at(place);
                if !is_past(adaptor.phase()) {
                    return Ok(Added::Live { adaptor: place });
                }
                let class = adaptor.class();
                self.take_named(alloc, site, class, kind, path, found)?;
                Ok(Added::New { adaptor: place })
            }
            None => {
                let count = self.adaptors.len();
                if count as usize == MOST_LINES {
                    return Ok(Added::TooMany);
                }
                self.take_named(alloc, site, class, kind, path, found)?;
                Ok(Added::New { adaptor: count })
            }
        }
    }

    // Takes the stream under the least default name that no live adaptor has.
    fn take_named<S: Site>(
        &mut self,
        alloc: Global,
        site: &mut S,
        class: Class,
        kind: &Word,
        path: &Word,
        found: Option<u32>,
    ) -> Result<(), AgentFault>
        requires ready { self.old.ready ≡ true }
        requires found { found ≡ option_map (λ (f : Found). f.number) (stream_in kind.now path.now 0 self.old.adaptors) }
        requires may { MayTake (stream_in kind.now path.now 0 self.old.adaptors) (length self.old.adaptors) }
        ensures state { TakesNamed self.old class kind.now path.now (stream_in kind.now path.now 0 self.old.adaptors)
            result self.new (S.told site.old) (S.told site.new) }
        ensures told { (stamped : List (List ℕ)) → Adds (S.told site.old) (S.told site.new)
            (Leads (As stamped (process self.old)) (Matches stamped self.old) (Matches stamped self.new)) }
        ensures undamaged { IsUndamaged result }
        ensures last { Adds (S.told site.old) (S.told site.new) (FailsLast result) }
        ensures cause { AgentCause (S.fault_count site.old) (S.fault_count site.new) result }
    {
        let name = self.default_name(alloc)?;
        self.take_stream(alloc, site, name, class, kind, path, 0, found)
    }

    /// The number of the adaptor of this type and path, a past one too. It is found by its hash;
    /// where there is no memory for the words that are hashed, it is one pass.
    pub fn find_stream(&self, kind: &Word, path: &Word) -> Option<u32>
        ensures { result ≡ option_map (λ (f : Found). f.number) (stream_in kind.now path.now 0 self.now.adaptors) }
    {
        self.adaptors.find(kind, path)
    }

    /// The least default name that no live adaptor has. It is one pass over the adaptors, and takes
    /// a byte for each.
    pub(crate) fn default_name(&self, alloc: Global) -> Result<Word, NoMemory>
        ensures name { IfOk result (IsNameFor self.now None) }
        ensures good { IfOk result (λ name. IsTrue (is_name name)) }
    {
        let number = least_free(alloc, self.adaptors.as_slice())?;
        name_of(alloc, number)
    }

    /// Takes a new stream, from its start on, or a past one, at its kept place, under a name that no
    /// live adaptor has. `found` is what `find_stream` answers of it.
    pub(crate) fn take_stream<S: Site>(
        &mut self,
        alloc: Global,
        site: &mut S,
        name: Word,
        class: Class,
        kind: &Word,
        path: &Word,
        start: u64,
        found: Option<u32>,
    ) -> Result<(), AgentFault>
        requires ready { self.old.ready ≡ true }
        requires name { IsTrue (is_name name) }
        requires free { named_in name 0 self.old.adaptors ≡ None }
        requires start { start < 2 ^ 62 }
        requires found { found ≡ option_map (λ (f : Found). f.number) (stream_in kind.now path.now 0 self.old.adaptors) }
        requires may { MayTake (stream_in kind.now path.now 0 self.old.adaptors) (length self.old.adaptors) }
        ensures state { TakesStream self.old name class kind.now path.now start
            (stream_in kind.now path.now 0 self.old.adaptors) result self.new (S.told site.old) (S.told site.new) }
        ensures told { (stamped : List (List ℕ)) → Adds (S.told site.old) (S.told site.new)
            (Leads (As stamped (process self.old)) (Matches stamped self.old) (Matches stamped self.new)) }
        ensures undamaged { IsUndamaged result }
        ensures last { Adds (S.told site.old) (S.told site.new) (FailsLast result) }
        ensures cause { AgentCause (S.fault_count site.old) (S.fault_count site.new) result }
    {
        match found {
            Some(place) => self.take_past(alloc, site, name, place),
            None => self.take_new(alloc, site, name, class, kind, path, start),
        }
    }

    // A past one lives again at its kept place.
    fn take_past<S: Site>(
        &mut self,
        alloc: Global,
        site: &mut S,
        name: Word,
        place: u32,
    ) -> Result<(), AgentFault>
        requires ready { self.old.ready ≡ true }
        requires name { IsTrue (is_name name) }
        requires free { named_in name 0 self.old.adaptors ≡ None }
        requires there { (a : Reading) × (slice_get self.old.adaptors place ≡ Some a) × (is_past a.phase ≡ true) }
        ensures state { (a : Reading) → slice_get self.old.adaptors place ≡ Some a
            → Keeps self.old (revived_at self.old place name a) result self.new (S.told site.old) (S.told site.new) }
        ensures told { (stamped : List (List ℕ)) → Adds (S.told site.old) (S.told site.new)
            (Leads (As stamped (process self.old)) (Matches stamped self.old) (Matches stamped self.new)) }
        ensures undamaged { IsUndamaged result }
        ensures last { Adds (S.told site.old) (S.told site.new) (FailsLast result) }
        ensures cause { AgentCause (S.fault_count site.old) (S.fault_count site.new) result }
    {
        let check = self.lines_revived(alloc, place, &name)?;
        let key = self.adaptors.room_for_name(&name)?;
        match self.write_lines(alloc, site, &check) {
            Ok(()) => {
                self.adaptors.revive(place, name, key);
                self.saved = check.lines;
                Ok(())
            }
            Err(OutsideFault::NoMemory) => Err(AgentFault::NoMemory),
            Err(OutsideFault::Outside { call }) => {
                self.ready = false;
                Err(AgentFault::Outside { call })
            }
        }
    }

    // Replaces the checkpoint by one of these lines.
    fn write_lines<S: Site>(
        &self,
        alloc: Global,
        site: &mut S,
        check: &Checkpoint,
    ) -> Result<(), OutsideFault>
        requires { IsTrue (are_lines Two (lines_of check.now)) }
        ensures told { Writes self.now (lines_of check.now) result (S.told site.old) (S.told site.new) }
        ensures read { read_checkpoint (written_text (lines_of check.now)) ≡ Some (lines_of check.now) }
        ensures unmade { Adds (S.told site.old) (S.told site.new)
            (Every (SparesOld result (spell (CheckFile self.now.source)))) }
        ensures last { Adds (S.told site.old) (S.told site.new) (LastFailed result) }
        ensures cause { OutsideCause (S.fault_count site.old) (S.fault_count site.new) result }
    {
        write_checkpoint(alloc, site, &self.who, check)
    }

    // The lines once this adaptor lives again under this name.
    fn lines_revived(&self, alloc: Global, place: u32, name: &Word) -> Result<Checkpoint, NoMemory>
        requires { place < length self.now.adaptors }
        ensures { IfOk result (λ check. (a : Reading) → slice_get self.now.adaptors place ≡ Some a
            → lines_of check ≡ lines_now (revived_at self.now place name.now a)) }
    {
        let name = name.copy()?;
        let mut check = lines_now(alloc, self.adaptors.as_slice(), &self.delivery)?;
        let line = &mut check.lines[place as usize];
        line.name = name;
        line.live = true;
        Ok(check)
    }

    // A new stream, from its start on.
    fn take_new<S: Site>(
        &mut self,
        alloc: Global,
        site: &mut S,
        name: Word,
        class: Class,
        kind: &Word,
        path: &Word,
        start: u64,
    ) -> Result<(), AgentFault>
        requires ready { self.old.ready ≡ true }
        requires name { IsTrue (is_name name) }
        requires free { named_in name 0 self.old.adaptors ≡ None }
        requires start { start < 2 ^ 62 }
        requires stream { stream_in kind.now path.now 0 self.old.adaptors ≡ None }
        requires room { length self.old.adaptors < most_lines }
        ensures state { TakesStream self.old name class kind.now path.now start None result self.new
            (S.told site.old) (S.told site.new) }
        ensures told { (stamped : List (List ℕ)) → Adds (S.told site.old) (S.told site.new)
            (Leads (As stamped (process self.old)) (Matches stamped self.old) (Matches stamped self.new)) }
        ensures undamaged { IsUndamaged result }
        ensures last { Adds (S.told site.old) (S.told site.new) (FailsLast result) }
        ensures cause { AgentCause (S.fault_count site.old) (S.fault_count site.new) result }
    {
        let _sound = self.ready();
        let words = copies(kind, path)?;
        let after = self.newest(alloc, site, class, path)?;
        let place = Place {
            after,
            first: start,
            offset: start,
        };
        let line = CheckLine {
            name,
            live: true,
            class,
            kind: words.kind,
            path: words.path,
            place,
            start,
        };
        self.keep_new(alloc, site, line)
    }

    // Asks for the newest suffix of the path, where the class reads generations.
    fn newest<S: Site>(
        &self,
        alloc: Global,
        site: &mut S,
        class: Class,
        path: &Word,
    ) -> Result<Option<Suffix>, OutsideFault>
        ensures told { Asks self.now path.now (not (is_plain class)) result (S.told site.old) (S.told site.new) }
        ensures suffix { IfOk result (λ after. IsTrue (is_after_text after)) }
        ensures plain { is_plain class ≡ true → result ≡ Ok None }
        ensures last { Adds (S.told site.old) (S.told site.new) (LastFailed result) }
        ensures cause { OutsideCause (S.fault_count site.old) (S.fault_count site.new) result }
    {
        match class {
            Class::Plain => Ok(None),
            Class::Rotating | Class::Lines => self.ask_newest(alloc, site, path),
        }
    }

    // Asks for the newest suffix of the path.
    fn ask_newest<S: Site>(
        &self,
        alloc: Global,
        site: &mut S,
        path: &Word,
    ) -> Result<Option<Suffix>, OutsideFault>
        ensures told { Asks self.now path.now true result (S.told site.old) (S.told site.new) }
        ensures suffix { IfOk result (λ after. IsTrue (is_after_text after)) }
        ensures last { Adds (S.told site.old) (S.told site.new) (LastFailed result) }
        ensures cause { OutsideCause (S.fault_count site.old) (S.fault_count site.new) result }
    {
        match site.log_newest(alloc, &self.who, path.as_str()) {
            Ok(after) => Ok(after),
            Err(CallFault::Failed) => Err(OutsideFault::Outside {
                call: Call::LogNewest,
            }),
            Err(CallFault::NoMemory) => Err(OutsideFault::NoMemory),
            Err(_) => unreachable!(),
        }
    }

    // The checkpoint is written with this line more, and its adaptor comes behind the others.
    fn keep_new<S: Site>(
        &mut self,
        alloc: Global,
        site: &mut S,
        line: CheckLine,
    ) -> Result<(), AgentFault>
        requires ready { self.old.ready ≡ true }
        requires line { IsNewLine self.old (shown line) }
        ensures state { Keeps self.old (with_added self.old None (shown line)) result self.new
            (S.told site.old) (S.told site.new) }
        ensures told { (stamped : List (List ℕ)) → Adds (S.told site.old) (S.told site.new)
            (Leads (As stamped (process self.old)) (MatchesNewest stamped self.old (shown line))
            (Matches stamped self.new)) }
        ensures undamaged { IsUndamaged result }
        ensures last { Adds (S.told site.old) (S.told site.new) (FailsLast result) }
        ensures cause { AgentCause (S.fault_count site.old) (S.fault_count site.new) result }
    {
        let start = line.start;
        let adaptor = Adaptor::new(alloc, line)?;
        let check = self.lines_more(alloc, &adaptor, start)?;
        self.write_more(alloc, site, adaptor, start, check)
    }

    // The checkpoint is written with this adaptor's line more, and the adaptor comes behind the
    // others.
    fn write_more<S: Site>(
        &mut self,
        alloc: Global,
        site: &mut S,
        adaptor: Adaptor,
        start: u64,
        check: Checkpoint,
    ) -> Result<(), AgentFault>
        requires ready { self.old.ready ≡ true }
        requires more { (l : Line) × IsMore self.old l start adaptor (lines_of check) }
        ensures state { (l : Line) → IsMore self.old l start adaptor (lines_of check)
            → Keeps self.old (with_added self.old None l) result self.new
            (S.told site.old) (S.told site.new) }
        ensures told { (stamped : List (List ℕ)) (l : Line) → IsMore self.old l start adaptor (lines_of check)
            → Adds (S.told site.old) (S.told site.new)
            (Leads (As stamped (process self.old)) (MatchesNewest stamped self.old l)
            (Matches stamped self.new)) }
        ensures undamaged { IsUndamaged result }
        ensures last { Adds (S.told site.old) (S.told site.new) (FailsLast result) }
        ensures cause { AgentCause (S.fault_count site.old) (S.fault_count site.new) result }
    {
        let _sound = self.delivery.used();
        let number = self.adaptors.len();
        let keys = self.adaptors.room_for(&adaptor)?;
        match self.write_lines(alloc, site, &check) {
            Ok(()) => {}
            Err(OutsideFault::NoMemory) => return Err(AgentFault::NoMemory),
            Err(OutsideFault::Outside { call }) => {
                self.ready = false;
                return Err(AgentFault::Outside { call });
            }
        }
        self.delivery.begin(number, start);
        let _sound_begun = self.delivery.used();
        self.adaptors.add(keys, adaptor);
        self.saved = check.lines;
        Ok(())
    }

    // The lines with that of one more adaptor, at this offset.
    fn lines_more(
        &self,
        alloc: Global,
        adaptor: &Adaptor,
        start: u64,
    ) -> Result<Checkpoint, NoMemory>
        requires from { BeginsBelow start adaptor.now.marks }
        requires to { start ≤ adaptor.now.read.offset }
        ensures { IfOk result (λ check. lines_of check ≡ lines_now self.now ++ line_at start adaptor.now ∷ []) }
    {
        let mut check = lines_now(alloc, self.adaptors.as_slice(), &self.delivery)?;
        check.lines.push(adaptor.line(alloc, start)?)?;
        Ok(check)
    }
}

// The words of a stream.
#[derive(Drop)]
struct StreamWords {
    kind: Word,
    path: Word,
}

// Copies of a stream's words.
fn copies(kind: &Word, path: &Word) -> Result<StreamWords, NoMemory>
    ensures { IfOk result (λ words. (words.kind ≡ kind.now) × (words.path ≡ path.now)
        × IsTrue (is_word kind.now) × IsTrue (is_word path.now)) }
{
    let _sound_kind = kind.as_str();
    let _sound_path = path.as_str();
    Ok(StreamWords {
        kind: kind.copy()?,
        path: path.copy()?,
    })
}
