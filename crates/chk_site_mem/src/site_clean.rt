// A site in memory where no call fails.
ghost use Rattle.std.specs.Prelude.{◌≡◌, ◌≤◌, [], ◌∷◌, length, option_map, IfOk, false};
ghost use Rattle.chk_site.specs.declared.acts.Call.TheVariants as call;
ghost use Rattle.chk_site.specs.Acts.{deed, is_stop};
ghost use Rattle.chk_site.specs.History.{files_after};
ghost use Rattle.chk_site.specs.Site.{asked, answered, plain, sized, bytes_given, suffix_given, names_given, piece_given, taking_given, part_text, EndsPast, Calls, CallsSome, CauseOf, MayFail, MayExist, MayMiss, MayBeShort, MayMissOrBeShort};
ghost use Rattle.chk_site_mem_calls.specs.Plans.{LosesNothing};
ghost use Rattle.chk_site_mem.specs.declared.fate.Fate.TheVariants.{Goes};
ghost use Rattle.chk_site_mem.specs.Lossless.{NothingLost, none};
ghost use Rattle.chk_site_mem.specs.Begun.{Becomes, Begins, Tells};
ghost use Rattle.chk_site_mem.specs.Memory.{BeginsBy, Follows, MadeBy, begun_clean, fate_of};
ghost use Rattle.chk_site_mem.specs.Printed.{printed_of};
ghost use Rattle.chk_site_mem_store.specs.Reads.{text_at};
ghost use Rattle.chk_site_mem_store.specs.Told.{acts_of, told_of};

use crate::others::Others;
use crate::printing::printed;
use chk_bytes::{Bytes, NoMemory, Word};
use chk_site::{Act, CallFault, Other, Part, Piece, Site, Suffix, Taking, Who};
use chk_site_mem_calls::{
    Answer, Append, Clock, Create, Cut, Got, List, LogAppend, LogNewest, LogRead, More, Numbered,
    Pause, Question, Read, Remove, Rename, Say, Send, Size, Start, Sync, Take,
};
use chk_site_mem_store::Keeper;
use std::alloc::Global;
use std::marker::Model;

/// A site in memory where no call fails and nothing stops. It keeps each act, and others act as they are told to.
#[derive(Drop)]
pub struct SiteClean {
    keeper: Keeper,
    others: Others,
    calls: u64,
}

impl Model for SiteClean {
    ghost use Rattle.std.specs.Prelude.{◌≡◌, [], None, false};
    ghost use Rattle.chk_site_mem.specs.Memory.{Memory};

    ghost Value = { Memory };

    ghost use Rattle.chk_site.specs.History.{is_stopped};
    ghost use Rattle.chk_site_mem_store.specs.Told.{told_of};

    ghost view = { λ s. record { state = s.keeper; others = s.others; failing = []; stop = None; calls = s.calls; faults = 0 } };

    ghost use Rattle.chk_site_mem.specs.Lossless.{NothingLost, RepeatsNone, none};

    ghost invariant = { λ s. (is_stopped (told_of s.keeper.kept) ≡ false) × NothingLost none (told_of s.keeper.kept) × RepeatsNone s.keeper.repeats };
}

impl SiteClean {
    /// A site without acts, at which others act so, in their order; one waits for those before it.
    pub fn new(alloc: Global, others: Vec<Other>) -> Result<SiteClean, NoMemory>
        ensures { IfOk result (λ site. site ≡ begun_clean others.items) }
    {
        Ok(SiteClean {
            keeper: Keeper::new(alloc, Vec::new(alloc)),
            others: Others::new(others),
            calls: 0,
        })
    }

    /// All acts so far, the oldest first.
    pub fn acts(&self) -> &[Act]
        ensures acts { result.now ≡ acts_of self.now.state.kept }
        ensures lossless { NothingLost none (told_of self.now.state.kept) }
    {
        self.keeper.acts()
    }

    /// The bytes of a file; `None` exactly where there is none of this name.
    pub fn file(&self, name: &str) -> Option<&[u8]>
        ensures { text_at result ≡ option_map (λ file. file.bytes) (files_after (told_of self.now.state.kept) name.now) }
    {
        self.keeper.bytes(name.as_bytes())
    }

    /// The bytes of all `say` acts, in order.
    pub fn printed(&self, alloc: Global) -> Result<Bytes, NoMemory>
        ensures { IfOk result (λ bytes. bytes ≡ printed_of (acts_of self.now.state.kept)) }
    {
        printed(alloc, self.keeper.acts())
    }

    fn call<Q: Question + Drop>(
        &mut self,
        alloc: Global,
        question: Q,
    ) -> Result<Q::Gives, CallFault>
        ensures told { Tells self.old self.new (Calls (Q.asks question) (answered Q.says result)) }
        ensures may { Q.may question result }
        ensures cause { CauseOf 0 0 result }
        ensures follows { Follows self.old self.new result }
    {
        self.begin(alloc)?;
        let planned = question.plan(alloc, &self.keeper)?;
        self.make(alloc, planned.act)?;
        planned.gives
    }

    fn call_numbered<Q: Numbered + Drop>(
        &mut self,
        alloc: Global,
        question: Q,
    ) -> Result<Q::Gives, CallFault>
        ensures told { Tells self.old self.new (CallsSome (Q.asks question) (λ n. answered (Q.says n) result)) }
        ensures may { Q.may question result }
        ensures cause { CauseOf 0 0 result }
        ensures follows { Follows self.old self.new result }
    {
        self.begin(alloc)?;
        let planned = question.plan(alloc, &self.keeper)?;
        self.make(alloc, planned.act)?;
        planned.gives
    }

    // The call is counted, and the acts of others that come before it happen.
    fn begin(&mut self, alloc: Global) -> Result<(), CallFault>
        ensures begins { Begins result (told_of self.old.state.kept) (told_of self.new.state.kept) }
        ensures script { BeginsBy result self.old self.new }
        ensures goes { fate_of self.old ≡ Goes }
        ensures cause { CauseOf 0 0 result }
    {
        self.calls = self.calls.saturating_add(1);
        self.others.happen(alloc, &mut self.keeper, self.calls)?;
        Ok(())
    }

    fn make(&mut self, alloc: Global, act: Act) -> Result<(), CallFault>
        requires runs { is_stop act.answer ≡ false }
        requires loses { LosesNothing [] (told_of self.old.state.kept) act.who (deed act) act.answer }
        ensures becomes { Becomes act result (told_of self.old.state.kept) (told_of self.new.state.kept) }
        ensures script { MadeBy result Goes act self.old self.new }
        ensures cause { CauseOf 0 0 result }
    {
        self.keeper.make(alloc, act)?;
        Ok(())
    }
}

impl Site for SiteClean {
    ghost use Rattle.std.specs.Prelude.{Some};
    ghost use Rattle.chk_site_mem_store.specs.Told.{told_of};

    ghost told = { λ s. Some (told_of s.state.kept) };

    ghost fault_count = { λ s. 0 };

    fn start(&mut self, alloc: Global, who: &Who) -> Result<(), CallFault>
        ensures told { Tells self.old self.new (Calls (asked who.now call.Start [] 0 0) (answered plain result)) }
        ensures only { MayFail result }
        ensures cause { CauseOf 0 0 result }
        ensures follows { Follows self.old self.new result }
    {
        self.call(alloc, Start { who })
    }

    fn create(&mut self, alloc: Global, who: &Who, name: &str) -> Result<(), CallFault>
        ensures told { Tells self.old self.new (Calls (asked who.now call.Create (name.now ∷ []) 0 0) (answered plain result)) }
        ensures only { MayExist result }
        ensures cause { CauseOf 0 0 result }
        ensures follows { Follows self.old self.new result }
    {
        self.call(alloc, Create { who, name })
    }

    fn append(
        &mut self,
        alloc: Global,
        who: &Who,
        name: &str,
        bytes: &[u8],
    ) -> Result<(), CallFault>
        ensures told { Tells self.old self.new (Calls (asked who.now call.Append (name.now ∷ bytes.now ∷ []) 0 0) (answered plain result)) }
        ensures only { MayMiss result }
        ensures cause { CauseOf 0 0 result }
        ensures follows { Follows self.old self.new result }
    {
        self.call(alloc, Append { who, name, bytes })
    }

    fn sync(&mut self, alloc: Global, who: &Who, name: &str) -> Result<(), CallFault>
        ensures told { Tells self.old self.new (Calls (asked who.now call.Sync (name.now ∷ []) 0 0) (answered plain result)) }
        ensures only { MayMiss result }
        ensures cause { CauseOf 0 0 result }
        ensures follows { Follows self.old self.new result }
    {
        self.call(alloc, Sync { who, name })
    }

    fn rename(&mut self, alloc: Global, who: &Who, old: &str, new: &str) -> Result<(), CallFault>
        ensures told { Tells self.old self.new (Calls (asked who.now call.Rename (old.now ∷ new.now ∷ []) 0 0) (answered plain result)) }
        ensures only { MayMiss result }
        ensures cause { CauseOf 0 0 result }
        ensures follows { Follows self.old self.new result }
    {
        self.call(alloc, Rename { who, old, new })
    }

    fn remove(&mut self, alloc: Global, who: &Who, name: &str) -> Result<(), CallFault>
        ensures told { Tells self.old self.new (Calls (asked who.now call.Remove (name.now ∷ []) 0 0) (answered plain result)) }
        ensures only { MayMiss result }
        ensures cause { CauseOf 0 0 result }
        ensures follows { Follows self.old self.new result }
    {
        self.call(alloc, Remove { who, name })
    }

    fn size(&mut self, alloc: Global, who: &Who, name: &str) -> Result<u64, CallFault>
        ensures told { Tells self.old self.new (Calls (asked who.now call.Size (name.now ∷ []) 0 0) (answered sized result)) }
        ensures only { MayMiss result }
        ensures cause { CauseOf 0 0 result }
        ensures follows { Follows self.old self.new result }
    {
        self.call(alloc, Size { who, name })
    }

    fn read(
        &mut self,
        alloc: Global,
        who: &Who,
        name: &str,
        at: u64,
        max: u32,
    ) -> Result<Bytes, CallFault>
        ensures told { Tells self.old self.new (Calls (asked who.now call.Read (name.now ∷ []) at max) (answered bytes_given result)) }
        ensures most { IfOk result (λ bytes. length bytes ≤ max) }
        ensures only { MayMissOrBeShort result }
        ensures cause { CauseOf 0 0 result }
        ensures follows { Follows self.old self.new result }
    {
        self.call(alloc, Read { who, name, at, max })
    }

    fn say(&mut self, alloc: Global, who: &Who, bytes: &[u8]) -> Result<(), CallFault>
        ensures told { Tells self.old self.new (Calls (asked who.now call.Say (bytes.now ∷ []) 0 0) (answered plain result)) }
        ensures only { MayFail result }
        ensures cause { CauseOf 0 0 result }
        ensures follows { Follows self.old self.new result }
    {
        self.call(alloc, Say { who, bytes })
    }

    fn log_read(
        &mut self,
        alloc: Global,
        who: &Who,
        path: &str,
        part: Part<'_>,
        at: u64,
        max: u32,
    ) -> Result<Piece, CallFault>
        ensures told { Tells self.old self.new (Calls (asked who.now call.LogRead (path.now ∷ part_text part.entry ∷ []) at max) (answered piece_given result)) }
        ensures most { IfOk result (λ piece. length piece.bytes ≤ max) }
        ensures past { IfOk result (λ piece. EndsPast part.entry piece.ended) }
        ensures only { MayBeShort result }
        ensures cause { CauseOf 0 0 result }
        ensures follows { Follows self.old self.new result }
    {
        let question = LogRead {
            who,
            path,
            part,
            at,
            max,
        };
        self.call(alloc, question)
    }

    fn log_newest(
        &mut self,
        alloc: Global,
        who: &Who,
        path: &str,
    ) -> Result<Option<Suffix>, CallFault>
        ensures told { Tells self.old self.new (Calls (asked who.now call.LogNewest (path.now ∷ []) 0 0) (answered suffix_given result)) }
        ensures only { MayFail result }
        ensures cause { CauseOf 0 0 result }
        ensures follows { Follows self.old self.new result }
    {
        self.call(alloc, LogNewest { who, path })
    }

    fn log_append(
        &mut self,
        alloc: Global,
        who: &Who,
        path: &str,
        bytes: &[u8],
    ) -> Result<(), CallFault>
        ensures told { Tells self.old self.new (Calls (asked who.now call.LogAppend (path.now ∷ bytes.now ∷ []) 0 0) (answered plain result)) }
        ensures only { MayFail result }
        ensures cause { CauseOf 0 0 result }
        ensures follows { Follows self.old self.new result }
    {
        self.call(alloc, LogAppend { who, path, bytes })
    }

    fn cut(&mut self, alloc: Global, who: &Who, name: &str, length: u64) -> Result<(), CallFault>
        ensures told { Tells self.old self.new (Calls (asked who.now call.Cut (name.now ∷ []) length 0) (answered plain result)) }
        ensures only { MayMissOrBeShort result }
        ensures cause { CauseOf 0 0 result }
        ensures follows { Follows self.old self.new result }
    {
        self.call(alloc, Cut { who, name, length })
    }

    fn list(&mut self, alloc: Global, who: &Who, folder: &str) -> Result<Vec<Word>, CallFault>
        ensures told { Tells self.old self.new (Calls (asked who.now call.List (folder.now ∷ []) 0 0) (answered (λ names. names_given names.items) result)) }
        ensures only { MayFail result }
        ensures cause { CauseOf 0 0 result }
        ensures follows { Follows self.old self.new result }
    {
        self.call(alloc, List { who, folder })
    }

    fn clock(&mut self, alloc: Global, who: &Who) -> Result<u64, CallFault>
        ensures told { Tells self.old self.new (Calls (asked who.now call.Clock [] 0 0) (answered sized result)) }
        ensures only { MayFail result }
        ensures cause { CauseOf 0 0 result }
        ensures follows { Follows self.old self.new result }
    {
        self.call(alloc, Clock { who })
    }

    fn pause(&mut self, alloc: Global, who: &Who, ms: u64) -> Result<(), CallFault>
        ensures told { Tells self.old self.new (Calls (asked who.now call.Pause [] ms 0) (answered plain result)) }
        ensures only { MayFail result }
        ensures cause { CauseOf 0 0 result }
        ensures follows { Follows self.old self.new result }
    {
        self.call(alloc, Pause { who, ms })
    }

    fn send(
        &mut self,
        alloc: Global,
        who: &Who,
        address: &str,
        bytes: &[u8],
    ) -> Result<u64, CallFault>
        ensures told { Tells self.old self.new (CallsSome (λ n. asked who.now call.Send (address.now ∷ bytes.now ∷ []) n 0) (λ n. answered sized result)) }
        ensures only { MayFail result }
        ensures cause { CauseOf 0 0 result }
        ensures follows { Follows self.old self.new result }
    {
        self.call_numbered(
            alloc,
            Send {
                who,
                address,
                bytes,
            },
        )
    }

    fn got(&mut self, alloc: Global, who: &Who, message: u64) -> Result<Bytes, CallFault>
        ensures told { Tells self.old self.new (Calls (asked who.now call.Got [] message 0) (answered bytes_given result)) }
        ensures only { MayFail result }
        ensures cause { CauseOf 0 0 result }
        ensures follows { Follows self.old self.new result }
    {
        self.call(alloc, Got { who, message })
    }

    fn take(
        &mut self,
        alloc: Global,
        who: &Who,
        door: &str,
        wait: u64,
    ) -> Result<Option<Taking>, CallFault>
        ensures told { Tells self.old self.new (CallsSome (λ of. asked who.now call.Take (door.now ∷ []) wait 0) (λ of. answered (taking_given of) result)) }
        ensures only { MayFail result }
        ensures cause { CauseOf 0 0 result }
        ensures follows { Follows self.old self.new result }
    {
        self.call_numbered(alloc, Take { who, door, wait })
    }

    fn more(&mut self, alloc: Global, who: &Who, taking: u64) -> Result<Bytes, CallFault>
        ensures told { Tells self.old self.new (Calls (asked who.now call.More [] taking 0) (answered bytes_given result)) }
        ensures only { MayFail result }
        ensures cause { CauseOf 0 0 result }
        ensures follows { Follows self.old self.new result }
    {
        self.call(alloc, More { who, taking })
    }

    fn answer(
        &mut self,
        alloc: Global,
        who: &Who,
        taking: u64,
        bytes: &[u8],
    ) -> Result<(), CallFault>
        ensures told { Tells self.old self.new (Calls (asked who.now call.Answer (bytes.now ∷ []) taking 0) (answered plain result)) }
        ensures only { MayFail result }
        ensures cause { CauseOf 0 0 result }
        ensures follows { Follows self.old self.new result }
    {
        let question = Answer { who, taking, bytes };
        self.call(alloc, question)
    }

    fn faults(&self) -> u64 {
        0
    }
}
