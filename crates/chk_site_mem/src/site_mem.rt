// A site in memory, with the failures and the stop of a script.
ghost use Rattle.std.specs.Prelude.{◌≡◌, ◌≤◌, [], ◌∷◌, length, option_map, IfOk, false};
ghost use Rattle.chk_site.specs.declared.acts.Call.TheVariants as call;
ghost use Rattle.chk_site.specs.Acts.{deed, is_stop};
ghost use Rattle.chk_site.specs.History.{files_after};
ghost use Rattle.chk_site.specs.Site.{asked, answered, plain, sized, bytes_given, suffix_given, names_given, piece_given, taking_given, part_text, EndsPast, Calls, CallsSome, CauseOf, MayFail, MayExist, MayMiss, MayBeShort, MayMissOrBeShort};
ghost use Rattle.chk_site_mem_calls.specs.Plans.{LosesNothing};
ghost use Rattle.chk_site_mem.specs.Lossless.{NothingLost, any};
ghost use Rattle.chk_site_mem.specs.Begun.{Becomes, Begins, Tells};
ghost use Rattle.chk_site_mem.specs.Memory.{BeginsBy, Follows, MadeBy, begun, fate_at, fate_of, restarted, without_stop};
ghost use Rattle.chk_site_mem.specs.Printed.{printed_of};
ghost use Rattle.chk_site_mem_store.specs.Reads.{text_at};
ghost use Rattle.chk_site_mem_store.specs.Told.{acts_of, told_of};

use crate::fate::Fate;
use crate::others::Others;
use crate::printing::printed;
use chk_bytes::{Bytes, NoMemory, Word};
use chk_site::{Act, ActAnswer, CallFault, Part, Piece, Script, Site, StopAt, Suffix, Taking, Who};
use chk_site_mem_calls::{
    Answer, Append, Clock, Create, Cut, Got, List, LogAppend, LogNewest, LogRead, More, Numbered,
    Pause, Question, Read, Remove, Rename, Say, Send, Size, Start, Sync, Take,
};
use chk_site_mem_store::{Keeper, answering};
use std::alloc::Global;
use std::marker::Model;

/// A site in memory. It keeps each act, and goes by a script: acts of others, calls that fail, and at most one stop.
#[derive(Drop)]
pub struct SiteMem {
    keeper: Keeper,
    others: Others,
    failing: Vec<u64>,
    stop: Option<StopAt>,
    calls: u64,
    faults: u64,
}

impl Model for SiteMem {
    ghost use Rattle.chk_site_mem.specs.Memory.{Memory};

    ghost Value = { Memory };

    ghost use Rattle.chk_site_mem_store.specs.Told.{told_of};
    ghost use Rattle.chk_site_mem.specs.Lossless.{NothingLost, any};

    ghost view = { λ s. record { state = s.keeper; others = s.others; failing = s.failing.items; stop = s.stop; calls = s.calls; faults = s.faults } };

    ghost invariant = { λ s. NothingLost any (told_of s.keeper.kept) };
}

impl SiteMem {
    /// A site without acts, that goes by this script. The acts of others happen in their order; one waits for those
    /// before it.
    pub fn new(alloc: Global, script: Script) -> Result<SiteMem, NoMemory>
        ensures { IfOk result (λ site. site ≡ begun script) }
    {
        let Script {
            others,
            failing,
            again,
            stop,
        } = script;
        Ok(SiteMem {
            keeper: Keeper::new(alloc, again),
            others: Others::new(others),
            failing,
            stop,
            calls: 0,
            faults: 0,
        })
    }

    /// Goes by a new script from here on, also after a stop. Files, logs and messages stay, and the count of faults goes on.
    pub fn restart(&mut self, script: Script)
        ensures { self.new ≡ restarted script self.old }
    {
        let Script {
            others,
            failing,
            again,
            stop,
        } = script;
        self.keeper.disown(again);
        self.others = Others::new(others);
        self.failing = failing;
        self.stop = stop;
        self.calls = 0;
    }

    /// All acts so far, the oldest first.
    pub fn acts(&self) -> &[Act]
        ensures acts { result.now ≡ acts_of self.now.state.kept }
        ensures lossless { NothingLost any (told_of self.now.state.kept) }
    {
        self.keeper.acts()
    }

    /// The bytes of a file; `None` exactly where there is none of this name.
    pub fn file(&self, name: &str) -> Option<&[u8]>
        ensures { text_at result ≡ option_map (λ file. file.bytes) (files_after (told_of self.now.state.kept) name.now) }
    {
        self.keeper.bytes(name.as_bytes())
    }

    /// The bytes of all `say` acts that were done, in order.
    pub fn printed(&self, alloc: Global) -> Result<Bytes, NoMemory>
        ensures { IfOk result (λ bytes. bytes ≡ printed_of (acts_of self.now.state.kept)) }
    {
        printed(alloc, self.keeper.acts())
    }

    fn call<Q: Question + Drop>(
        &mut self,
        alloc: Global,
        question: Q,
    ) -> Result<Q::Gives, CallFault>
        ensures told { Tells self.old self.new (Calls (Q.asks question) (answered Q.says result)) }
        ensures may { Q.may question result }
        ensures cause { CauseOf self.old.faults self.new.faults result }
        ensures follows { Follows self.old self.new result }
    {
        let fate = self.begin(alloc)?;
        let planned = question.plan(alloc, &self.keeper)?;
        self.make(alloc, planned.act, fate)?;
        planned.gives
    }

    fn call_numbered<Q: Numbered + Drop>(
        &mut self,
        alloc: Global,
        question: Q,
    ) -> Result<Q::Gives, CallFault>
        ensures told { Tells self.old self.new (CallsSome (Q.asks question) (λ n. answered (Q.says n) result)) }
        ensures may { Q.may question result }
        ensures cause { CauseOf self.old.faults self.new.faults result }
        ensures follows { Follows self.old self.new result }
    {
        let fate = self.begin(alloc)?;
        let planned = question.plan(alloc, &self.keeper)?;
        self.make(alloc, planned.act, fate)?;
        planned.gives
    }

    // The call is counted, and the acts of others that come before it happen; after a stop the call fails.
    fn begin(&mut self, alloc: Global) -> Result<Fate, CallFault>
        ensures begins { Begins result (told_of self.old.state.kept) (told_of self.new.state.kept) }
        ensures script { BeginsBy result self.old self.new }
        ensures fate { IfOk result (λ fate. fate ≡ fate_of self.old) }
        ensures cause { CauseOf self.old.faults self.new.faults result }
    {
        if self.keeper.is_stopped() {
            self.faults = self.faults.saturating_add(1);
            return Err(CallFault::Failed);
        }
        self.calls = self.calls.saturating_add(1);
        let fate = self.fate();
        self.others.happen(alloc, &mut self.keeper, self.calls)?;
        Ok(fate)
    }

    // The act happens, unless the script has it fail or stop.
    fn make(&mut self, alloc: Global, act: Act, fate: Fate) -> Result<(), CallFault>
        requires runs { is_stop act.answer ≡ false }
        requires loses { LosesNothing self.old.state.repeats.numbers (told_of self.old.state.kept) act.who (deed act) act.answer }
        ensures becomes { Becomes act result (told_of self.old.state.kept) (told_of self.new.state.kept) }
        ensures script { MadeBy result fate act self.old self.new }
        ensures cause { CauseOf self.old.faults self.new.faults result }
    {
        let answer = match fate {
            Fate::Goes => {
                self.keeper.make(alloc, act)?;
                return Ok(());
            }
            Fate::Fails => ActAnswer::Refused {
                fault: CallFault::Failed,
            },
            Fate::Stops(left) => ActAnswer::Stopped { left },
        };
        self.keeper.make(alloc, answering(act, answer))?;
        self.faults = self.faults.saturating_add(1);
        Err(CallFault::Failed)
    }

    // How the call of the present number comes out; its stop is used up.
    fn fate(&mut self) -> Fate
        ensures fate { result ≡ fate_at self.old.calls self.old }
        ensures stop { self.new ≡ without_stop self.old }
    {
        if let Some(stop) = self.stop.take() {
            if stop.at == self.calls {
                return Fate::Stops(stop.left);
            }
            self.stop = Some(stop);
        }
        if self.failing.contains(&self.calls) {
            Fate::Fails
        } else {
            Fate::Goes
        }
    }
}

impl Site for SiteMem {
    ghost use Rattle.std.specs.Prelude.{Some};
    ghost use Rattle.chk_site_mem_store.specs.Told.{told_of};

    ghost told = { λ s. Some (told_of s.state.kept) };

    ghost fault_count = { λ s. s.faults };

    fn start(&mut self, alloc: Global, who: &Who) -> Result<(), CallFault>
        ensures told { Tells self.old self.new (Calls (asked who.now call.Start [] 0 0) (answered plain result)) }
        ensures only { MayFail result }
        ensures cause { CauseOf self.old.faults self.new.faults result }
        ensures follows { Follows self.old self.new result }
    {
        self.call(alloc, Start { who })
    }

    fn create(&mut self, alloc: Global, who: &Who, name: &str) -> Result<(), CallFault>
        ensures told { Tells self.old self.new (Calls (asked who.now call.Create (name.now ∷ []) 0 0) (answered plain result)) }
        ensures only { MayExist result }
        ensures cause { CauseOf self.old.faults self.new.faults result }
        ensures follows { Follows self.old self.new result }
    {
        self.call(alloc, Create { who, name })
    }

    fn append(
        &mut self,
        alloc: Global,
        who: &Who,
        name: &str,
        bytes: &[u8],
    ) -> Result<(), CallFault>
        ensures told { Tells self.old self.new (Calls (asked who.now call.Append (name.now ∷ bytes.now ∷ []) 0 0) (answered plain result)) }
        ensures only { MayMiss result }
        ensures cause { CauseOf self.old.faults self.new.faults result }
        ensures follows { Follows self.old self.new result }
    {
        self.call(alloc, Append { who, name, bytes })
    }

    fn sync(&mut self, alloc: Global, who: &Who, name: &str) -> Result<(), CallFault>
        ensures told { Tells self.old self.new (Calls (asked who.now call.Sync (name.now ∷ []) 0 0) (answered plain result)) }
        ensures only { MayMiss result }
        ensures cause { CauseOf self.old.faults self.new.faults result }
        ensures follows { Follows self.old self.new result }
    {
        self.call(alloc, Sync { who, name })
    }

    fn rename(&mut self, alloc: Global, who: &Who, old: &str, new: &str) -> Result<(), CallFault>
        ensures told { Tells self.old self.new (Calls (asked who.now call.Rename (old.now ∷ new.now ∷ []) 0 0) (answered plain result)) }
        ensures only { MayMiss result }
        ensures cause { CauseOf self.old.faults self.new.faults result }
        ensures follows { Follows self.old self.new result }
    {
        self.call(alloc, Rename { who, old, new })
    }

    fn remove(&mut self, alloc: Global, who: &Who, name: &str) -> Result<(), CallFault>
        ensures told { Tells self.old self.new (Calls (asked who.now call.Remove (name.now ∷ []) 0 0) (answered plain result)) }
        ensures only { MayMiss result }
        ensures cause { CauseOf self.old.faults self.new.faults result }
        ensures follows { Follows self.old self.new result }
    {
        self.call(alloc, Remove { who, name })
    }

    fn size(&mut self, alloc: Global, who: &Who, name: &str) -> Result<u64, CallFault>
        ensures told { Tells self.old self.new (Calls (asked who.now call.Size (name.now ∷ []) 0 0) (answered sized result)) }
        ensures only { MayMiss result }
        ensures cause { CauseOf self.old.faults self.new.faults result }
        ensures follows { Follows self.old self.new result }
    {
        self.call(alloc, Size { who, name })
    }

    fn read(
        &mut self,
        alloc: Global,
        who: &Who,
        name: &str,
        at: u64,
        max: u32,
    ) -> Result<Bytes, CallFault>
        ensures told { Tells self.old self.new (Calls (asked who.now call.Read (name.now ∷ []) at max) (answered bytes_given result)) }
        ensures most { IfOk result (λ bytes. length bytes ≤ max) }
        ensures only { MayMissOrBeShort result }
        ensures cause { CauseOf self.old.faults self.new.faults result }
        ensures follows { Follows self.old self.new result }
    {
        self.call(alloc, Read { who, name, at, max })
    }

    fn say(&mut self, alloc: Global, who: &Who, bytes: &[u8]) -> Result<(), CallFault>
        ensures told { Tells self.old self.new (Calls (asked who.now call.Say (bytes.now ∷ []) 0 0) (answered plain result)) }
        ensures only { MayFail result }
        ensures cause { CauseOf self.old.faults self.new.faults result }
        ensures follows { Follows self.old self.new result }
    {
        self.call(alloc, Say { who, bytes })
    }

    fn log_read(
        &mut self,
        alloc: Global,
        who: &Who,
        path: &str,
        part: Part<'_>,
        at: u64,
        max: u32,
    ) -> Result<Piece, CallFault>
        ensures told { Tells self.old self.new (Calls (asked who.now call.LogRead (path.now ∷ part_text part.entry ∷ []) at max) (answered piece_given result)) }
        ensures most { IfOk result (λ piece. length piece.bytes ≤ max) }
        ensures past { IfOk result (λ piece. EndsPast part.entry piece.ended) }
        ensures only { MayBeShort result }
        ensures cause { CauseOf self.old.faults self.new.faults result }
        ensures follows { Follows self.old self.new result }
    {
        let question = LogRead {
            who,
            path,
            part,
            at,
            max,
        };
        self.call(alloc, question)
    }

    fn log_newest(
        &mut self,
        alloc: Global,
        who: &Who,
        path: &str,
    ) -> Result<Option<Suffix>, CallFault>
        ensures told { Tells self.old self.new (Calls (asked who.now call.LogNewest (path.now ∷ []) 0 0) (answered suffix_given result)) }
        ensures only { MayFail result }
        ensures cause { CauseOf self.old.faults self.new.faults result }
        ensures follows { Follows self.old self.new result }
    {
        self.call(alloc, LogNewest { who, path })
    }

    fn log_append(
        &mut self,
        alloc: Global,
        who: &Who,
        path: &str,
        bytes: &[u8],
    ) -> Result<(), CallFault>
        ensures told { Tells self.old self.new (Calls (asked who.now call.LogAppend (path.now ∷ bytes.now ∷ []) 0 0) (answered plain result)) }
        ensures only { MayFail result }
        ensures cause { CauseOf self.old.faults self.new.faults result }
        ensures follows { Follows self.old self.new result }
    {
        self.call(alloc, LogAppend { who, path, bytes })
    }

    fn cut(&mut self, alloc: Global, who: &Who, name: &str, length: u64) -> Result<(), CallFault>
        ensures told { Tells self.old self.new (Calls (asked who.now call.Cut (name.now ∷ []) length 0) (answered plain result)) }
        ensures only { MayMissOrBeShort result }
        ensures cause { CauseOf self.old.faults self.new.faults result }
        ensures follows { Follows self.old self.new result }
    {
        self.call(alloc, Cut { who, name, length })
    }

    fn list(&mut self, alloc: Global, who: &Who, folder: &str) -> Result<Vec<Word>, CallFault>
        ensures told { Tells self.old self.new (Calls (asked who.now call.List (folder.now ∷ []) 0 0) (answered (λ names. names_given names.items) result)) }
        ensures only { MayFail result }
        ensures cause { CauseOf self.old.faults self.new.faults result }
        ensures follows { Follows self.old self.new result }
    {
        self.call(alloc, List { who, folder })
    }

    fn clock(&mut self, alloc: Global, who: &Who) -> Result<u64, CallFault>
        ensures told { Tells self.old self.new (Calls (asked who.now call.Clock [] 0 0) (answered sized result)) }
        ensures only { MayFail result }
        ensures cause { CauseOf self.old.faults self.new.faults result }
        ensures follows { Follows self.old self.new result }
    {
        self.call(alloc, Clock { who })
    }

    fn pause(&mut self, alloc: Global, who: &Who, ms: u64) -> Result<(), CallFault>
        ensures told { Tells self.old self.new (Calls (asked who.now call.Pause [] ms 0) (answered plain result)) }
        ensures only { MayFail result }
        ensures cause { CauseOf self.old.faults self.new.faults result }
        ensures follows { Follows self.old self.new result }
    {
        self.call(alloc, Pause { who, ms })
    }

    fn send(
        &mut self,
        alloc: Global,
        who: &Who,
        address: &str,
        bytes: &[u8],
    ) -> Result<u64, CallFault>
        ensures told { Tells self.old self.new (CallsSome (λ n. asked who.now call.Send (address.now ∷ bytes.now ∷ []) n 0) (λ n. answered sized result)) }
        ensures only { MayFail result }
        ensures cause { CauseOf self.old.faults self.new.faults result }
        ensures follows { Follows self.old self.new result }
    {
        self.call_numbered(
            alloc,
            Send {
                who,
                address,
                bytes,
            },
        )
    }

    fn got(&mut self, alloc: Global, who: &Who, message: u64) -> Result<Bytes, CallFault>
        ensures told { Tells self.old self.new (Calls (asked who.now call.Got [] message 0) (answered bytes_given result)) }
        ensures only { MayFail result }
        ensures cause { CauseOf self.old.faults self.new.faults result }
        ensures follows { Follows self.old self.new result }
    {
        self.call(alloc, Got { who, message })
    }

    fn take(
        &mut self,
        alloc: Global,
        who: &Who,
        door: &str,
        wait: u64,
    ) -> Result<Option<Taking>, CallFault>
        ensures told { Tells self.old self.new (CallsSome (λ of. asked who.now call.Take (door.now ∷ []) wait 0) (λ of. answered (taking_given of) result)) }
        ensures only { MayFail result }
        ensures cause { CauseOf self.old.faults self.new.faults result }
        ensures follows { Follows self.old self.new result }
    {
        self.call_numbered(alloc, Take { who, door, wait })
    }

    fn more(&mut self, alloc: Global, who: &Who, taking: u64) -> Result<Bytes, CallFault>
        ensures told { Tells self.old self.new (Calls (asked who.now call.More [] taking 0) (answered bytes_given result)) }
        ensures only { MayFail result }
        ensures cause { CauseOf self.old.faults self.new.faults result }
        ensures follows { Follows self.old self.new result }
    {
        self.call(alloc, More { who, taking })
    }

    fn answer(
        &mut self,
        alloc: Global,
        who: &Who,
        taking: u64,
        bytes: &[u8],
    ) -> Result<(), CallFault>
        ensures told { Tells self.old self.new (Calls (asked who.now call.Answer (bytes.now ∷ []) taking 0) (answered plain result)) }
        ensures only { MayFail result }
        ensures cause { CauseOf self.old.faults self.new.faults result }
        ensures follows { Follows self.old self.new result }
    {
        let question = Answer { who, taking, bytes };
        self.call(alloc, question)
    }

    fn faults(&self) -> u64 {
        self.faults
    }
}
