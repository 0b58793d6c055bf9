//! The buffers of one run of a writer.

ghost use Rattle.std.specs.Prelude.{◌≡◌, ◌<◌, ◌≤◌, ◌+◌, ◌==◌, ◌^◌, true, IfOk, MatchBool, [], ◌∷◌, Some, None, option_map, length, string_bytes};
ghost use Rattle.chk_site.specs.Site.{Adds, OutsideCause};
ghost use Rattle.chk_site.specs.Runs.{MadeInTurn};
ghost use Rattle.chk_wahead.specs.declared.found.Plan.TheVariants.{Close};
ghost use Rattle.chk_wahead.specs.Names.{writer, next_name, buffer_name, mark_name};
ghost use Rattle.chk_wahead.specs.Faults.{WaheadCause, FailsLast, IsDamageOf, wahead_result};
ghost use Rattle.chk_wahead.specs.States.{length_of, left, last_number, longer, all_marked};
ghost use Rattle.chk_wahead.specs.Fields.{held_of};
ghost use Rattle.chk_wahead.specs.Scripts.{Did, IsSpent, Puts, adding, first_calls, commit_of, close_of};
ghost use Rattle.chk_wahead.specs.Starting.{number_in, settling};
ghost use Rattle.chk_wahead.specs.Legality.{StaysLegal};
ghost use Rattle.chk_wahead.specs.Telling.{Starts, IsSettled, Opens, started};

use crate::calls::{add, begin, cut, publish, remove, shut};
use crate::found::Plan;
use crate::starting::look;
use crate::{WaheadFault, names};
use chk_bytes::{LAST_NUMBER, NoMemory, Word};
use chk_site::{OutsideFault, Site, Who};
use std::alloc::Global;
use std::marker::Model;

/// The buffer that is written to: its length, and how much of it its mark says.
#[derive(Clone, Copy)]
struct Buffer {
    length: u64,
    marked: u64,
}

/// The buffers of one run of a writer. One of them at most is written to. It holds no bytes of it.
#[derive(Drop)]
pub struct Wahead {
    who: Who,
    next: String,
    buffer: String,
    mark: String,
    /// The number of the last buffer, 0 before the first one.
    number: u64,
    held: Option<Buffer>,
    ready: bool,
}

impl Model for Wahead {
    ghost use Rattle.chk_wahead.specs.States.{State};

    ghost Value = { State };

    ghost use Rattle.chk_wahead.specs.Fields.{wahead_view, IsSound};

    ghost view = { wahead_view };

    ghost invariant = { IsSound };
}

impl Wahead {
    /// Starts the writer. A buffer with a mark is cut to it, closed under the number that was published last, and its mark
    /// removed. A buffer without a mark is removed, and so is a mark without a buffer. It costs four calls, and up to three
    /// for what was left. Where a file is damaged nothing is changed.
    pub fn start<S: Site>(
        alloc: Global,
        site: &mut S,
        who: &Who,
        name: &Word,
    ) -> Result<Wahead, WaheadFault>
        requires who { who.now ≡ writer name.now }
        ensures told { Starts who.now result (S.told site.old) (S.told site.new) }
        ensures legal { StaysLegal who.now (S.told site.old) (S.told site.new) }
        ensures last { Adds (S.told site.old) (S.told site.new) (FailsLast result) }
        ensures cause { WaheadCause (S.fault_count site.old) (S.fault_count site.new) result }
    {
        let mut wahead = Wahead::named(alloc, who, name)?;
        wahead.open(alloc, site)?;
        Ok(wahead)
    }

    // The buffers of a run that is to begin.
    fn named(alloc: Global, who: &Who, name: &Word) -> Result<Wahead, NoMemory>
        requires who { who.now ≡ writer name.now }
        ensures { IfOk result (λ wahead. wahead ≡ started who.now 0) }
    {
        let own = who.copy()?;
        let next = names::file_of(alloc, name.as_str(), ".next")?;
        let mark = names::file_of(alloc, name.as_str(), ".mark")?;
        let buffer = names::file_of(alloc, name.as_str(), ".buf")?;
        Ok(Wahead::first(own, next, buffer, mark))
    }

    // Looks at what an earlier run left, and makes of it what is to be made.
    fn open<S: Site>(&mut self, alloc: Global, site: &mut S) -> Result<(), WaheadFault>
        requires first { self.old ≡ started self.old.who 0 }
        ensures told { Opens self.old.who self.new result (S.told site.old) (S.told site.new) }
        ensures cause { WaheadCause (S.fault_count site.old) (S.fault_count site.new) result }
    {
        let found = look(
            alloc,
            site,
            &self.who,
            self.next.as_str(),
            self.mark.as_str(),
            self.buffer.as_str(),
        )?;
        self.settle(alloc, site, found.plan())
    }

    // The buffers of a run that has begun, before any number.
    fn first(who: Who, next: String, buffer: String, mark: String) -> Wahead
        requires next { string_bytes next ≡ next_name who.name }
        requires buffer { string_bytes buffer ≡ buffer_name who.name }
        requires mark { string_bytes mark ≡ mark_name who.name }
        ensures { result ≡ started who 0 }
    {
        Wahead {
            who,
            next,
            buffer,
            mark,
            number: 0,
            held: None,
            ready: true,
        }
    }

    // Makes of what was found what is to be made of it.
    fn settle<S: Site>(
        &mut self,
        alloc: Global,
        site: &mut S,
        plan: Plan,
    ) -> Result<(), WaheadFault>
        requires first { self.old ≡ started self.old.who 0 }
        requires number { number_in plan ≤ last_number }
        ensures told { IsSettled plan self.old result self.new (S.told site.old) (S.told site.new) }
        ensures cause { WaheadCause (S.fault_count site.old) (S.fault_count site.new) result }
    {
        match plan {
            Plan::DamagedNext => Err(damaged(alloc, self.next.as_str())),
            Plan::DamagedMark => Err(damaged(alloc, self.mark.as_str())),
            Plan::Close(number, length) => {
                let done = self.close_left(alloc, site, number, length);
                self.finish(number, None, done)
            }
            Plan::DropBuffer(number) => {
                let done = remove(alloc, site, &self.who, self.buffer.as_str());
                self.finish(number, None, done)
            }
            Plan::DropMark(number) => {
                let done = remove(alloc, site, &self.who, self.mark.as_str());
                self.finish(number, None, done)
            }
            Plan::Rest(number) => self.finish(number, None, Ok(())),
        }
    }

    // Cuts the buffer that was left to its mark, and closes it.
    fn close_left<S: Site>(
        &self,
        alloc: Global,
        site: &mut S,
        number: u64,
        length: u64,
    ) -> Result<(), OutsideFault>
        ensures told { MadeInTurn (settling self.now.who (Close number length)) result (S.told site.old) (S.told site.new) }
        ensures cause { OutsideCause (S.fault_count site.old) (S.fault_count site.new) result }
    {
        let closed = names::closed(alloc, self.who.name.as_str(), number)?;
        cut(alloc, site, &self.who, self.buffer.as_str(), length)?;
        shut(
            alloc,
            site,
            &self.who,
            self.buffer.as_str(),
            closed.as_str(),
            self.mark.as_str(),
        )
    }

    // Keeps this number and this buffer where the calls were done. After a refusal nothing more may be put.
    fn finish(
        &mut self,
        number: u64,
        held: Option<Buffer>,
        done: Result<(), OutsideFault>,
    ) -> Result<(), WaheadFault>
        requires number { number ≤ last_number }
        ensures new { self.new ≡ left self.old number (option_map held_of held) done }
        ensures result { result ≡ wahead_result done }
    {
        match done {
            Ok(()) => {
                self.number = number;
                self.held = held;
                Ok(())
            }
            Err(fault) => {
                self.ready = false;
                Err(WaheadFault::from(fault))
            }
        }
    }

    /// Adds a payload to the buffer, which is made where there is none. It is not synced. An empty payload makes no call.
    /// `Spent` comes exactly where a buffer is needed and no number is left; then nothing has changed. It costs one call,
    /// and six more where a buffer is made.
    pub fn put<S: Site>(
        &mut self,
        alloc: Global,
        site: &mut S,
        payload: &[u8],
    ) -> Result<(), WaheadFault>
        requires ready { self.old.ready ≡ true }
        requires small { length_of self.old.held < 2 ^ 63 }
        ensures told { Puts self.old payload.now result self.new (S.told site.old) (S.told site.new) }
        ensures legal { StaysLegal self.old.who (S.told site.old) (S.told site.new) }
        ensures last { Adds (S.told site.old) (S.told site.new) (FailsLast result) }
        ensures cause { WaheadCause (S.fault_count site.old) (S.fault_count site.new) result }
    {
        if payload.is_empty() {
            return Ok(());
        }
        match self.held {
            Some(buffer) => self.put_in(alloc, site, buffer, payload),
            None => self.put_first(alloc, site, payload),
        }
    }

    // Adds a payload to the buffer that is written to.
    fn put_in<S: Site>(
        &mut self,
        alloc: Global,
        site: &mut S,
        buffer: Buffer,
        payload: &[u8],
    ) -> Result<(), WaheadFault>
        requires held { self.old.held ≡ Some (held_of buffer) }
        requires small { buffer.length < 2 ^ 63 }
        ensures told { Did (adding self.old.who (buffer_name self.old.who.name) payload.now ∷ []) self.old
            self.old.number (Some (longer (length payload.now) (Some (held_of buffer)))) result self.new
            (S.told site.old) (S.told site.new) }
        ensures cause { WaheadCause (S.fault_count site.old) (S.fault_count site.new) result }
    {
        let longer = Buffer {
            length: buffer.length + payload.len() as u64,
            marked: buffer.marked,
        };
        let done = add(alloc, site, &self.who, self.buffer.as_str(), payload);
        self.finish(self.number, Some(longer), done)
    }

    // Makes the next buffer, with this payload.
    fn put_first<S: Site>(
        &mut self,
        alloc: Global,
        site: &mut S,
        payload: &[u8],
    ) -> Result<(), WaheadFault>
        requires none { self.old.held ≡ None }
        ensures told { MatchBool (self.old.number == last_number)
            (IsSpent self.old result self.new (S.told site.old) (S.told site.new))
            (Did (first_calls self.old.who (self.old.number + 1) payload.now) self.old
            (self.old.number + 1) (Some (longer (length payload.now) None)) result self.new
            (S.told site.old) (S.told site.new)) }
        ensures cause { WaheadCause (S.fault_count site.old) (S.fault_count site.new) result }
    {
        if self.number == LAST_NUMBER {
            return Err(WaheadFault::Spent {
                number: self.number,
            });
        }
        let number = self.number + 1;
        let first = Buffer {
            length: payload.len() as u64,
            marked: 0,
        };
        let done = self.begin_with(alloc, site, number, payload);
        self.finish(number, Some(first), done)
    }

    // Makes the buffer of this number, and adds a payload to it.
    fn begin_with<S: Site>(
        &self,
        alloc: Global,
        site: &mut S,
        number: u64,
        payload: &[u8],
    ) -> Result<(), OutsideFault>
        ensures told { MadeInTurn (first_calls self.now.who number payload.now) result (S.told site.old) (S.told site.new) }
        ensures cause { OutsideCause (S.fault_count site.old) (S.fault_count site.new) result }
    {
        begin(
            alloc,
            site,
            &self.who,
            self.next.as_str(),
            self.buffer.as_str(),
            number,
        )?;
        add(alloc, site, &self.who, self.buffer.as_str(), payload)
    }

    /// Syncs the buffer, and then publishes its length as its mark, where it has grown since the last commit. It costs six
    /// calls, or none.
    pub fn commit<S: Site>(&mut self, alloc: Global, site: &mut S) -> Result<(), WaheadFault>
        requires ready { self.old.ready ≡ true }
        ensures told { Did (commit_of self.old.who self.old.held) self.old self.old.number (all_marked self.old.held)
            result self.new (S.told site.old) (S.told site.new) }
        ensures legal { StaysLegal self.old.who (S.told site.old) (S.told site.new) }
        ensures last { Adds (S.told site.old) (S.told site.new) (FailsLast result) }
        ensures cause { WaheadCause (S.fault_count site.old) (S.fault_count site.new) result }
    {
        match self.held {
            Some(buffer) => self.commit_held(alloc, site, buffer),
            None => Ok(()),
        }
    }

    // Commits this buffer.
    fn commit_held<S: Site>(
        &mut self,
        alloc: Global,
        site: &mut S,
        buffer: Buffer,
    ) -> Result<(), WaheadFault>
        ensures told { Did (commit_of self.old.who (Some (held_of buffer))) self.old self.old.number
            (all_marked (Some (held_of buffer))) result self.new (S.told site.old) (S.told site.new) }
        ensures cause { WaheadCause (S.fault_count site.old) (S.fault_count site.new) result }
    {
        let marked = Buffer {
            length: buffer.length,
            marked: buffer.length,
        };
        let done = self.mark_all(alloc, site, buffer);
        self.finish(self.number, Some(marked), done)
    }

    // Syncs this buffer and publishes its mark, where it has grown.
    fn mark_all<S: Site>(
        &self,
        alloc: Global,
        site: &mut S,
        buffer: Buffer,
    ) -> Result<(), OutsideFault>
        ensures told { MadeInTurn (commit_of self.now.who (Some (held_of buffer))) result (S.told site.old) (S.told site.new) }
        ensures cause { OutsideCause (S.fault_count site.old) (S.fault_count site.new) result }
    {
        if buffer.marked == buffer.length {
            return Ok(());
        }
        publish(
            alloc,
            site,
            &self.who,
            self.buffer.as_str(),
            self.mark.as_str(),
            buffer.length,
        )
    }

    /// Commits the buffer, gives it the closed name of its number, and removes its mark. Without a buffer it does nothing.
    /// It costs eight calls, or two where the mark says the whole buffer.
    pub fn close<S: Site>(&mut self, alloc: Global, site: &mut S) -> Result<(), WaheadFault>
        requires ready { self.old.ready ≡ true }
        ensures told { Did (close_of self.old.who self.old.number self.old.held) self.old self.old.number None
            result self.new (S.told site.old) (S.told site.new) }
        ensures legal { StaysLegal self.old.who (S.told site.old) (S.told site.new) }
        ensures last { Adds (S.told site.old) (S.told site.new) (FailsLast result) }
        ensures cause { WaheadCause (S.fault_count site.old) (S.fault_count site.new) result }
    {
        match self.held {
            Some(buffer) => self.close_held(alloc, site, buffer),
            None => Ok(()),
        }
    }

    // Commits and closes this buffer.
    fn close_held<S: Site>(
        &mut self,
        alloc: Global,
        site: &mut S,
        buffer: Buffer,
    ) -> Result<(), WaheadFault>
        ensures told { Did (close_of self.old.who self.old.number (Some (held_of buffer))) self.old self.old.number None
            result self.new (S.told site.old) (S.told site.new) }
        ensures cause { WaheadCause (S.fault_count site.old) (S.fault_count site.new) result }
    {
        let done = self.close_now(alloc, site, buffer);
        self.finish(self.number, None, done)
    }

    // Commits this buffer, and closes it.
    fn close_now<S: Site>(
        &self,
        alloc: Global,
        site: &mut S,
        buffer: Buffer,
    ) -> Result<(), OutsideFault>
        ensures told { MadeInTurn (close_of self.now.who self.now.number (Some (held_of buffer))) result (S.told site.old) (S.told site.new) }
        ensures cause { OutsideCause (S.fault_count site.old) (S.fault_count site.new) result }
    {
        let closed = names::closed(alloc, self.who.name.as_str(), self.number)?;
        self.mark_all(alloc, site, buffer)?;
        shut(
            alloc,
            site,
            &self.who,
            self.buffer.as_str(),
            closed.as_str(),
            self.mark.as_str(),
        )
    }

    /// The length of the buffer that is written to in bytes, 0 without one.
    pub fn length(&self) -> u64
        ensures { result ≡ length_of self.now.held }
    {
        match self.held {
            Some(buffer) => buffer.length,
            None => 0,
        }
    }

    /// No call was refused but by `Spent`, so the next one may come.
    pub fn ready(&self) -> bool
        ensures { result ≡ self.now.ready }
    {
        self.ready
    }
}

// The file of this name is damaged.
fn damaged(alloc: Global, name: &str) -> WaheadFault
    ensures { IsDamageOf name.now result }
{
    match Word::new(alloc, name.as_bytes()) {
        Ok(name) => WaheadFault::Damaged { name, at: 0 },
        Err(_) => WaheadFault::NoMemory,
    }
}
