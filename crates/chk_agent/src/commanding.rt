//! The control lines of an agent.

ghost use Rattle.std.specs.Prelude.{◌≡◌, ◌≤◌, ◌<◌, ℕ, Bool, List, [], ◌∷◌, ◌++◌, Option, Some};
ghost use Rattle.std.specs.Prelude.{true, false, length, slice_get, slice_set, slice_index};
ghost use Rattle.std.specs.Prelude.{IsTrue, IfOk, IfSome, OnOk, is_some, option_map};
ghost use Rattle.chk_site.specs.Site.{Adds};
ghost use Rattle.chk_site.specs.Runs.{Leads};
ghost use Rattle.chk_control.specs.declared.commands.Command.TheVariants.{Add, List as ListAll};
ghost use Rattle.chk_control.specs.declared.commands.Command.TheVariants.{ReloadCollectors, Stop};
ghost use Rattle.chk_control.specs.declared.commands.Command.TheVariants.{StopAll, Shutdown};
ghost use Rattle.chk_control.specs.Answers.{answer_text, is_answer};
ghost use Rattle.chk_control.specs.Lines.{Meaning, IsLineRefusal, meaning_of, is_name};
ghost use Rattle.chk_control.specs.Lines.{is_name_if_given};
ghost use Rattle.chk_control.specs.Spellings.{is_command};
ghost use Rattle.chk_rotate.specs.Marks.{BeginsBelow};
ghost use Rattle.chk_world.specs.Places.{As};
ghost use Rattle.chk_world.specs.Checkpoints.{most_lines};
ghost use Rattle.chk_agent_adaptor.specs.Adaptors.{Adaptor as Reading, is_past, shut_down, stopped};
ghost use Rattle.chk_agent.specs.declared.answers.AgentFault.TheVariants.{NoMemory as wanting};
ghost use Rattle.chk_agent.specs.States.{State as Held, process};
ghost use Rattle.chk_agent.specs.Facts.{Matches};
ghost use Rattle.chk_agent.specs.Faults.{AgentCause, FailsLast, IsUndamaged};
ghost use Rattle.chk_agent.specs.Adds.{Found, IsNameFor, named_in, stream_in};
ghost use Rattle.chk_agent.specs.Replies.{reply_of};
ghost use Rattle.chk_agent.specs.Commands.{IsCommand, RunsPlainly, adds_none, add_refusal};
ghost use Rattle.chk_agent.specs.Commands.{state_of, list_line, list_lines, live_from, all_past};
ghost use Rattle.chk_agent.specs.Commands.{IsAnswered};

use crate::agent::Agent;
use crate::answers::{AgentFault, Reply, Then};
use chk_agent_adaptor::{Adaptor, Phase};
use chk_agent_delivery::Delivery;
use chk_agent_table::Adaptors;
use chk_bytes::{Bytes, NoMemory, Word};
use chk_checkpoint::MOST_LINES;
use chk_control::{Answer, Class, Command, LineFault, State, read_line, write_answer};
use chk_site::Site;
use std::alloc::Global;

impl Agent {
    /// Does what a control line asks for. It is one pass over the adaptors, and for `stop` and
    /// `stopall` one over what waits. The reply finds its memory before anything changes.
    pub fn command<S: Site>(
        &mut self,
        alloc: Global,
        site: &mut S,
        line: &[u8],
    ) -> Result<Reply, AgentFault>
        requires ready { self.old.ready ≡ true }
        ensures state { IsCommand line.now self.old result self.new (S.told site.old) (S.told site.new) }
        ensures told { (stamped : List (List ℕ)) → Adds (S.told site.old) (S.told site.new)
            (Leads (As stamped (process self.old)) (Matches stamped self.old) (Matches stamped self.new)) }
        ensures undamaged { IsUndamaged result }
        ensures last { Adds (S.told site.old) (S.told site.new) (FailsLast result) }
        ensures cause { AgentCause (S.fault_count site.old) (S.fault_count site.new) result }
    {
        let _ = &self.who;
        match read_line(alloc, line) {
            Ok(
                Command::Add {
                    name,
                    class,
                    kind,
                    path,
                    offset,
                },
            ) => self.add_asked(alloc, site, name, class, &kind, &path, offset),
            Ok(command) => self.run(alloc, command),
            Err(fault) => refuse(alloc, fault),
        }
    }

    // Adds a stream as a line asks for it.
    fn add_asked<S: Site>(
        &mut self,
        alloc: Global,
        site: &mut S,
        given: Option<Word>,
        class: Class,
        kind: &Word,
        path: &Word,
        offset: u64,
    ) -> Result<Reply, AgentFault>
        requires ready { self.old.ready ≡ true }
        requires good { IsTrue (is_command (Add given class kind.now path.now offset)) }
        ensures state { (line : List ℕ) → meaning_of line ≡ Ok (Add given class kind.now path.now offset)
            → IsCommand line self.old result self.new (S.told site.old) (S.told site.new) }
        ensures told { (stamped : List (List ℕ)) → Adds (S.told site.old) (S.told site.new)
            (Leads (As stamped (process self.old)) (Matches stamped self.old) (Matches stamped self.new)) }
        ensures undamaged { IsUndamaged result }
        ensures last { Adds (S.told site.old) (S.told site.new) (FailsLast result) }
        ensures cause { AgentCause (S.fault_count site.old) (S.fault_count site.new) result }
    {
        let found = self.find_stream(kind, path);
        if let Some(number) = self.refusal_of(&given, kind, path, found, class, offset) {
            return answer(alloc, Answer::Bad { number }, Then::Go);
        }
        let name = self.name_for(alloc, given)?;
        let reply = answer(alloc, Answer::Added { name: name.copy()? }, Then::Go)?;
        self.take_stream(alloc, site, name, class, kind, path, offset, found)?;
        Ok(reply)
    }

    // The given name, or the least default one that no live adaptor has.
    fn name_for(&self, alloc: Global, given: Option<Word>) -> Result<Word, NoMemory>
        requires { is_name_if_given given ≡ true }
        ensures name { IfOk result (IsNameFor self.now given) }
        ensures good { IfOk result (λ name. IsTrue (is_name name)) }
    {
        match given {
            Some(name) => Ok(name),
            None => self.default_name(alloc),
        }
    }

    // The number of the refusal, where a stream can't be added so. `found` is its adaptor. A
    // default name is one that no live adaptor has.
    fn refusal_of(
        &self,
        given: &Option<Word>,
        kind: &Word,
        path: &Word,
        found: Option<u32>,
        class: Class,
        offset: u64,
    ) -> Option<u8>
        requires { found ≡ option_map (λ (f : Found). f.number) (stream_in kind.now path.now 0 self.now.adaptors) }
        ensures refusal { (name : List ℕ) → IsNameFor self.now given.now name
            → result ≡ add_refusal (named_in name 0 self.now.adaptors)
            (stream_in kind.now path.now 0 self.now.adaptors) (length self.now.adaptors) class offset }
        ensures few { length self.now.adaptors ≤ most_lines }
        ensures known { IfSome result (λ n. (1 ≤ n) × (n ≤ 14)) }
    {
        let count = self.adaptors.len();
        if self.is_taken(given) {
            return Some(9);
        }
        match found {
            None if count as usize == MOST_LINES => Some(11),
            None => None,
            Some(place) => refusal_by(self.adaptors.at(place), class, offset),
        }
    }

    // A live adaptor has the given name.
    fn is_taken(&self, given: &Option<Word>) -> bool
        ensures { (name : List ℕ) → IsNameFor self.now given.now name
            → result ≡ is_some (named_in name 0 self.now.adaptors) }
    {
        match given {
            Some(name) => self.adaptors.named(name).is_some(),
            None => false,
        }
    }

    // Does what a command asks for that adds nothing. Without memory nothing changes.
    fn run(&mut self, alloc: Global, command: Command) -> Result<Reply, AgentFault>
        requires { adds_none command ≡ true }
        ensures { RunsPlainly (Ok command) self.old result self.new }
    {
        match command {
            Command::Blank => Ok(Reply {
                text: Bytes::new(alloc),
                then: Then::Go,
            }),
            Command::Add { .. } => unreachable!(),
            Command::Close => answer(alloc, Answer::Closed, Then::Close),
            Command::Help => answer(alloc, Answer::Help, Then::Go),
            Command::List => self.list(alloc),
            Command::ReloadCollectors => self.reload(alloc),
            Command::Stop { name } => self.stop(alloc, name),
            Command::StopAll => self.stop_all(alloc),
            Command::Shutdown { name } => self.shut_down(alloc, name),
            Command::StopAgent => answer(alloc, Answer::AgentStops, Then::End),
        }
    }

    // A line for each adaptor that isn't past, and their number.
    fn list(&self, alloc: Global) -> Result<Reply, AgentFault>
        ensures { RunsPlainly (Ok ListAll) self.now result self.now }
    {
        let mut text = Bytes::new(alloc);
        let count = put_lines(&mut text, self.adaptors.as_slice(), &self.delivery)?;
        write_answer(&mut text, &Answer::Listed { count })?;
        Ok(Reply {
            text,
            then: Then::Go,
        })
    }

    // Back to the first address.
    fn reload(&mut self, alloc: Global) -> Result<Reply, AgentFault>
        ensures { RunsPlainly (Ok ReloadCollectors) self.old result self.new }
    {
        let count = self.delivery.addresses();
        let reply = answer(alloc, Answer::Reloaded { count }, Then::Go)?;
        self.delivery.first_address();
        let _sound = self.delivery.used();
        Ok(reply)
    }

    // The adaptor of this name is past at once, and what waits of it is dropped.
    fn stop(&mut self, alloc: Global, name: Word) -> Result<Reply, AgentFault>
        ensures { RunsPlainly (Ok (Stop name)) self.old result self.new }
    {
        let Some(place) = self.adaptors.named(&name) else {
            return answer(alloc, Answer::Bad { number: 12 }, Then::Go);
        };
        let reply = answer(alloc, Answer::Stopped { name }, Then::Go)?;
        self.delivery.stop(alloc, &[place])?;
        let _sound = self.delivery.used();
        let committed = self.delivery.committed_end(place);
        self.adaptors.stop(place, committed);
        Ok(reply)
    }

    // Each adaptor is past at once, and what waits is dropped.
    fn stop_all(&mut self, alloc: Global) -> Result<Reply, AgentFault>
        ensures { RunsPlainly (Ok StopAll) self.old result self.new }
    {
        let gone = live_numbers(alloc, self.adaptors.as_slice())?;
        let count = gone.as_slice().len() as u32;
        let reply = answer(alloc, Answer::StoppedAll { count }, Then::Go)?;
        self.delivery.stop(alloc, gone.as_slice())?;
        let _sound = self.delivery.used();
        stop_live(&mut self.adaptors, &self.delivery);
        Ok(reply)
    }

    // The adaptor of this name is to end.
    fn shut_down(&mut self, alloc: Global, name: Word) -> Result<Reply, AgentFault>
        ensures { RunsPlainly (Ok (Shutdown name)) self.old result self.new }
    {
        let Some(place) = self.adaptors.named(&name) else {
            return answer(alloc, Answer::Bad { number: 12 }, Then::Go);
        };
        let reply = answer(alloc, Answer::Stopping { name }, Then::Go)?;
        self.adaptors.shut_down(place);
        Ok(reply)
    }
}

// The reply to a line that is refused for this.
fn refuse(alloc: Global, fault: LineFault) -> Result<Reply, AgentFault>
    ensures { (m : Meaning) (s : Held) → IsLineRefusal m fault → RunsPlainly m s result s }
{
    match fault {
        LineFault::NoMemory => Err(AgentFault::NoMemory),
        _ => {
            let number = fault.number();
            answer(alloc, Answer::Bad { number }, Then::Go)
        }
    }
}

// The reply of one line that answers.
fn answer(alloc: Global, answer: Answer, then: Then) -> Result<Reply, AgentFault>
    requires { IsTrue (is_answer answer) }
    ensures { IsAnswered (answer_text answer) then result }
{
    let mut text = Bytes::new(alloc);
    write_answer(&mut text, &answer)?;
    Ok(Reply { text, then })
}

/// The adaptor has ended.
pub(crate) fn is_past(phase: Phase) -> bool
    ensures { result ≡ is_past phase }
{
    match phase {
        Phase::Past => true,
        _ => false,
    }
}

// The number of the refusal, where the adaptor's stream can't be added again so.
fn refusal_by(adaptor: &Adaptor, class: Class, offset: u64) -> Option<u8>
    ensures refusal { (i count : ℕ)
        → result ≡ add_refusal None (Some (record { number = i; adaptor = adaptor.now })) count class offset }
    ensures known { IfSome result (λ n. (1 ≤ n) × (n ≤ 14)) }
{
    if !is_past(adaptor.phase()) {
        return Some(10);
    }
    if adaptor.class() != class {
        return Some(13);
    }
    if offset != 0 && offset != adaptor.start() {
        return Some(14);
    }
    None
}

// The numbers of those that aren't past.
fn live_numbers(alloc: Global, adaptors: &[Adaptor]) -> Result<Vec<u32>, NoMemory>
    requires { length adaptors.now ≤ most_lines }
    ensures { IfOk result (λ gone. gone.items ≡ live_from 0 adaptors.now) }
{
    let mut gone = Vec::with_capacity(alloc, adaptors.len())?;
    for (i, adaptor) in adaptors.iter().enumerate() {
        if !is_past(adaptor.phase()) {
            gone.push(i as u32)?;
        }
    }
    Ok(gone)
}

// Each adaptor is past, at its committed end.
fn stop_live(adaptors: &mut Adaptors, delivery: &Delivery)
    requires known { length adaptors.old.items ≤ length delivery.now.table.committed }
    requires from { (i : ℕ) (a : Reading) → slice_get adaptors.old.items i ≡ Some a
        → BeginsBelow (slice_index delivery.now.table.committed i) a.marks }
    requires to { (i : ℕ) (a : Reading) → slice_get adaptors.old.items i ≡ Some a
        → slice_index delivery.now.table.committed i ≤ a.read.offset }
    ensures { adaptors.new.items
        ≡ all_past (live_from 0 adaptors.old.items) delivery.now.table.committed 0
        adaptors.old.items }
{
    for place in 0..adaptors.len() {
        if !is_past(adaptors.at(place).phase()) {
            let committed = delivery.committed_end(place);
            adaptors.stop(place, committed);
        }
    }
}

// Appends the line of each adaptor that isn't past, and answers how many there are.
fn put_lines(out: &mut Bytes, adaptors: &[Adaptor], delivery: &Delivery) -> Result<u32, NoMemory>
    requires few { length adaptors.now ≤ most_lines }
    requires known { length adaptors.now ≤ length delivery.now.table.committed }
    ensures text { OnOk result (out.new ≡ out.old ++ list_lines adaptors.now delivery.now.table.committed) }
    ensures count { IfOk result (λ count. count ≡ length (live_from 0 adaptors.now)) }
{
    let mut count = 0;
    for (i, adaptor) in adaptors.iter().enumerate() {
        let committed = delivery.committed_end(i as u32);
        if let Some(state) = state_of(adaptor.phase()) {
            put_line(out, adaptor, committed, state)?;
            count += 1;
        }
    }
    Ok(count)
}

// How one stands that does so; none for a past one.
fn state_of(phase: Phase) -> Option<State>
    ensures { result ≡ state_of phase }
{
    match phase {
        Phase::Live => Some(State::Live),
        Phase::Stopping { .. } => Some(State::Stopping),
        Phase::Shrank => Some(State::Shrank),
        Phase::Past => None,
    }
}

// Appends the line of one.
fn put_line(
    out: &mut Bytes,
    adaptor: &Adaptor,
    committed: u64,
    state: State,
) -> Result<(), NoMemory>
    ensures { OnOk result (out.new ≡ out.old ++ list_line adaptor.now committed (Some state)) }
{
    let line = Answer::Adaptor {
        name: adaptor.name().copy()?,
        class: adaptor.class(),
        kind: adaptor.kind().copy()?,
        path: adaptor.path().copy()?,
        read_to: adaptor.read_end(),
        committed,
        state,
    };
    write_answer(out, &line)
}
