// The acts that a site in memory keeps, and the files and logs that follow from them.
ghost use Rattle.std.specs.Prelude.{◌≡◌, ◌≢◌, ◌<◌, [], ◌∷◌, ◌++◌, vec_len, map, option_map, false, true, None, OnOk, OnErr, IfOk, IfSome, if◌then◌else◌};
ghost use Rattle.std.specs.Bool.{OnTrue};
ghost use Rattle.std.specs.Vec.{vec_capacity};
ghost use Rattle.chk_site.specs.Acts.{deed, is_stop};
ghost use Rattle.chk_site.specs.Honest.{FreshNumber, IsListing};
ghost use Rattle.chk_site.specs.Messages.{taken};
ghost use Rattle.chk_site.specs.History.{Modelled, files_after, logs_after, is_stopped};
ghost use Rattle.chk_site_mem_store.specs.Told.{kept_as, told_of, step_of, fitted, acts_of, is_allowed};
ghost use Rattle.chk_site_mem_store.specs.Going.{GoesOn};
ghost use Rattle.chk_site_mem_store.specs.Numbers.{last_message, last_taking};
ghost use Rattle.chk_site_mem_store.specs.Repeating.{repeating_of};
ghost use Rattle.chk_site_mem_store.specs.State.{after, anew, at_first, own_wait};
ghost use Rattle.chk_site_mem_store.specs.Reads.{text_at};
ghost use Rattle.chk_site_mem_store.specs.Stored.{file_at, log_at};

use crate::effects::leave;
use crate::files::{self, Files, MemFile};
use crate::listing::list;
use crate::logs::{self, Logs, MemLog};
use crate::repeats::Repeats;
use crate::room::{has_room, is_allowed};
use chk_bytes::{NoMemory, Word};
use chk_site::{Act, ActAnswer, Call};
use std::alloc::Global;
use std::marker::Model;

/// All acts so far, and the files and logs after them.
#[derive(Drop)]
pub struct Keeper {
    past: Vec<Act>,
    mine: Vec<bool>,
    files: Files,
    logs: Logs,
    stopped: bool,
    messages: u64,
    takings: u64,
    clock: u64,
    repeats: Repeats,
}

impl Model for Keeper {
    ghost use Rattle.chk_site_mem_store.specs.State.{State};

    ghost Value = { State };

    ghost use Rattle.chk_site_mem_store.specs.Keeping.{kept_in, IsKept};
    ghost use Rattle.chk_site_mem_store.specs.Repeating.{repeating_of};

    ghost view = { λ k. record { kept = kept_in k.mine.items k.past.items; clock = k.clock; repeats = repeating_of k.repeats } };

    ghost invariant = { λ k. IsKept k.mine.items k.past.items k.files.items k.logs.items k.stopped k.messages k.takings };
}

impl Keeper {
    /// No act yet. `again` names own takings at other doors than the mailbox, counted from 1, that are repeated.
    pub fn new(alloc: Global, again: Vec<u64>) -> Keeper
        ensures { result ≡ at_first again.items }
    {
        Keeper {
            past: Vec::new(alloc),
            mine: Vec::new(alloc),
            files: Vec::new(alloc),
            logs: Vec::new(alloc),
            stopped: false,
            messages: 0,
            takings: 0,
            clock: 0,
            repeats: Repeats::new(alloc, again),
        }
    }

    /// The acts, the oldest first.
    pub fn acts(&self) -> &[Act]
        ensures { result.now ≡ acts_of self.now.kept }
    {
        &self.past
    }

    /// Whether the newest own act was a stop.
    pub fn is_stopped(&self) -> bool
        ensures { result ≡ is_stopped (told_of self.now.kept) }
    {
        self.stopped
    }

    /// The milliseconds for which the site's own calls have waited.
    pub fn clock(&self) -> u64
        ensures { result ≡ self.now.clock }
    {
        self.clock
    }

    /// The numbers of the takings after which the same message is handed out once more.
    pub fn repeated(&self) -> &[u64]
        ensures { result.now ≡ self.now.repeats.numbers }
    {
        self.repeats.numbers()
    }

    /// The file of this name.
    pub fn file(&self, name: &[u8]) -> Option<&MemFile>
        ensures { file_at result ≡ files_after (told_of self.now.kept) name.now }
    {
        files::find(&self.files, name)
    }

    /// The bytes of the file of this name.
    pub fn bytes(&self, name: &[u8]) -> Option<&[u8]>
        ensures { text_at result ≡ option_map (λ file. file.bytes) (files_after (told_of self.now.kept) name.now) }
    {
        match self.file(name) {
            None => None,
            Some(file) => Some(file.bytes.as_slice()),
        }
    }

    /// The log of this path, where somebody has written to it.
    pub fn log(&self, path: &[u8]) -> Option<&MemLog>
        ensures { log_at result ≡ logs_after (told_of self.now.kept) path.now }
    {
        logs::find(&self.logs, path)
    }

    /// The names of the files directly in a folder, in byte order: just the words without a slash.
    pub fn names(&self, alloc: Global, folder: &[u8]) -> Result<Vec<Word>, NoMemory>
        ensures { IfOk result (λ names. IsListing (files_after (told_of self.now.kept)) folder.now names.items) }
    {
        list(alloc, &self.files, folder)
    }

    /// A number that no message has; `None` where the last one is used.
    pub fn next_message(&self) -> Option<u64>
        ensures { IfSome result (FreshNumber (told_of self.now.kept)) }
    {
        self.messages.checked_add(1)
    }

    /// A number that no taking has; `None` where the last one is used.
    pub fn next_taking(&self) -> Option<u64>
        ensures { IfSome result (λ n. (n ≢ 0) × (taken (told_of self.now.kept) n ≡ None)) }
    {
        self.takings.checked_add(1)
    }

    /// The act happens, and a stop's tails are cut to what the file model allows. An act that it doesn't allow at all is left out.
    pub fn keep(&mut self, alloc: Global, own: bool, act: Act) -> Result<bool, NoMemory>
        ensures allowed { IfOk result (λ kept. kept ≡ is_allowed (deed act) act.answer) }
        ensures kept { IfOk result (λ kept. self.new
            ≡ (if kept then after (kept_as own (fitted (files_after (told_of self.old.kept)) act)) self.old else self.old)) }
        ensures modelled { IfOk result (λ kept. OnTrue kept
            (Modelled (told_of self.old.kept) (step_of (told_of self.old.kept) (kept_as own (fitted (files_after (told_of self.old.kept)) act))))) }
        ensures err { OnErr result (self.new ≡ self.old) }
    {
        if !is_allowed(&act) {
            return Ok(false);
        }
        if !has_room(&self.files, &self.logs, &act) {
            return Err(NoMemory);
        }
        self.add(alloc, own, act)?;
        Ok(true)
    }

    // The act happens, a stop's tails cut to what the file model allows, or without memory nothing does.
    fn add(&mut self, alloc: Global, own: bool, act: Act) -> Result<(), NoMemory>
        ensures added { OnOk result (self.new ≡ after (kept_as own (fitted (files_after (told_of self.old.kept)) act)) self.old) }
        ensures err { OnErr result (self.new ≡ self.old) }
    {
        reserve(&mut self.past, &mut self.mine, &mut self.repeats)?;
        let act = leave(alloc, &mut self.files, &mut self.logs, act)?;
        self.stopped = stopped_after(own, &act.answer, self.stopped);
        self.messages = last_message(&act, self.messages);
        self.takings = last_taking(&act, self.takings);
        self.clock = self.clock.saturating_add(own_wait(own, &act));
        self.repeats.note(own, &act);
        push(&mut self.past, &mut self.mine, own, act);
        Ok(())
    }

    /// The act happens as the site's own.
    pub fn make(&mut self, alloc: Global, act: Act) -> Result<(), NoMemory>
        ensures kept { OnOk result (self.new ≡ after (kept_as true (fitted (files_after (told_of self.old.kept)) act)) self.old) }
        ensures ok { OnOk result (GoesOn (fitted (files_after (told_of self.old.kept)) act) (told_of self.old.kept) (told_of self.new.kept)) }
        ensures err { OnErr result (self.new ≡ self.old) }
    {
        if self.keep(alloc, true, act)? {
            Ok(())
        } else {
            Err(NoMemory)
        }
    }

    /// The site is started anew: no act so far is its own, and takings are counted from 1 again.
    pub fn disown(&mut self, again: Vec<u64>)
        ensures { self.new ≡ anew again.items self.old }
    {
        unmark(&mut self.mine);
        self.stopped = false;
        self.repeats.restart(again);
    }
}

// There is room for one act more, its mark and its number.
fn reserve(past: &mut Vec<Act>, mine: &mut Vec<bool>, repeats: &mut Repeats) -> Result<(), NoMemory>
    ensures past { OnOk result (vec_len past.new < vec_capacity past.new) }
    ensures mine { OnOk result (vec_len mine.new < vec_capacity mine.new) }
    ensures numbers { OnOk result (vec_len repeats.new.numbers < vec_capacity repeats.new.numbers) }
    ensures same_past { past.new.items ≡ past.old.items }
    ensures same_mine { mine.new.items ≡ mine.old.items }
    ensures same_repeats { repeating_of repeats.new ≡ repeating_of repeats.old }
{
    past.reserve(1)?;
    mine.reserve(1)?;
    repeats.reserve()
}

// The act and its mark stand last. There is room for them.
fn push(past: &mut Vec<Act>, mine: &mut Vec<bool>, own: bool, act: Act)
    requires past { vec_len past.old < vec_capacity past.old }
    requires mine { vec_len mine.old < vec_capacity mine.old }
    ensures past { past.new.items ≡ past.old.items ++ act ∷ [] }
    ensures mine { mine.new.items ≡ mine.old.items ++ own ∷ [] }
{
    past.push(act).unwrap();
    mine.push(own).unwrap();
}

// How long an own act waited: a pause, or a taking that gave nothing.
fn own_wait(own: bool, act: &Act) -> u64
    ensures { result ≡ own_wait (kept_as own act.now) }
{
    match (&act.answer, act.call) {
        (ActAnswer::Done { .. }, Call::Pause) if own => act.number,
        (ActAnswer::Done { words, .. }, Call::Take) if own && words.as_slice().is_empty() =>
            act.number,
        _ => 0,
    }
}

// The greatest number of a message, after one more act.
fn last_message(act: &Act, last: u64) -> u64
    ensures { result ≡ last_message (deed act.now) last }
{
    match act.call {
        Call::Send => last.max(act.number),
        _ => last,
    }
}

// The greatest number of a taking, after one more act.
fn last_taking(act: &Act, last: u64) -> u64
    ensures { result ≡ last_taking (deed act.now) act.now.answer last }
{
    match (act.call, &act.answer) {
        (Call::Take, ActAnswer::Done { words, number, .. }) if !words.as_slice().is_empty() =>
            last.max(*number),
        _ => last,
    }
}

// No mark is left.
fn unmark(mine: &mut [bool])
    ensures { mine.new ≡ map (λ _. false) mine.old }
{
    for own in mine.iter_mut() {
        *own = false;
    }
}

// Whether the newest own act is a stop, after one more.
fn stopped_after(own: bool, answer: &ActAnswer, before: bool) -> bool
    ensures { result ≡ (if own then is_stop answer.now else before) }
{
    if !own {
        return before;
    }
    match answer {
        ActAnswer::Stopped { .. } => true,
        _ => false,
    }
}
