// The calls on messages.
ghost use Rattle.std.specs.Prelude.{◌≡◌, [], ◌∷◌, IfOk, Some};
ghost use Rattle.chk_site.specs.declared.acts.Call.TheVariants as call;
ghost use Rattle.chk_site_mem_store.specs.Told.{told_of};
ghost use Rattle.chk_site_mem_calls.specs.Mail.{IsTaking};
ghost use Rattle.chk_site.specs.Site.{asked, plain, sized, bytes_given, taking_given, MayFail};

use crate::mail::{Letter, at_door, next};
use crate::messages::more;
use crate::plan::{Numbered, Planned, Question, counted, done, give, worded};
use crate::replies::got;
use chk_bytes::{Bytes, NoMemory};
use chk_site::{ActAnswer, Call, Taking, Who, Words};
use chk_site_mem_store::{Keeper, one, two};
use std::alloc::Global;

/// Sends a message.
#[derive(Drop)]
pub struct Send<'a> {
    pub who: &'a Who,
    pub address: &'a str,
    pub bytes: &'a [u8],
}

impl Numbered for Send<'_> {
    type Gives = u64;

    ghost asks = { λ s n. asked s.who.now call.Send (s.address.now ∷ s.bytes.now ∷ []) n 0 };

    ghost says = { λ n. sized };

    ghost may = { λ s. MayFail };

    fn plan(&self, alloc: Global, keeper: &Keeper) -> Result<Planned<u64>, NoMemory> {
        let number = keeper.next_message().ok_or(NoMemory)?;
        let words = two(alloc, self.address.as_bytes(), self.bytes)?;
        let given = counted(alloc, number);
        give(self.who, Call::Send, words, number, 0, given, number)
    }

    ghost may_fail = { λ s. tt };

    ghost may_want = { λ s. tt };
}

/// Asks for an answer to a message.
#[derive(Drop)]
pub struct Got<'a> {
    pub who: &'a Who,
    pub message: u64,
}

impl Question for Got<'_> {
    type Gives = Bytes;

    ghost asks = { λ s. asked s.who.now call.Got [] s.message 0 };

    ghost says = { bytes_given };

    ghost may = { λ s. MayFail };

    fn plan(&self, alloc: Global, keeper: &Keeper) -> Result<Planned<Bytes>, NoMemory> {
        let got = got(alloc, keeper, self.message)?;
        let given = worded(one(alloc, got)?, 0);
        let bytes = Bytes::from_slice(alloc, got)?;
        let words = Words::new(alloc);
        give(self.who, Call::Got, words, self.message, 0, given, bytes)
    }

    ghost may_fail = { λ s. tt };

    ghost may_want = { λ s. tt };
}

/// Takes the next message at a door.
#[derive(Drop)]
pub struct Take<'a> {
    pub who: &'a Who,
    pub door: &'a str,
    pub wait: u64,
}

impl Numbered for Take<'_> {
    type Gives = Option<Taking>;

    ghost asks = { λ s of. asked s.who.now call.Take (s.door.now ∷ []) s.wait 0 };

    ghost says = { taking_given };

    ghost may = { λ s. MayFail };

    fn plan(&self, alloc: Global, keeper: &Keeper) -> Result<Planned<Option<Taking>>, NoMemory> {
        let words = one(alloc, self.door.as_bytes())?;
        let mailbox = at_door(self.who, self.door, keeper.repeated());
        let Some(letter) = next(alloc, keeper, mailbox)? else {
            return give(self.who, Call::Take, words, self.wait, 0, done(alloc), None);
        };
        let taking = taking(alloc, keeper, letter)?;
        let given = taken_answer(alloc, letter.number, &taking)?;
        give(
            self.who,
            Call::Take,
            words,
            self.wait,
            0,
            given,
            Some(taking),
        )
    }

    ghost may_fail = { λ s. tt };

    ghost may_want = { λ s. tt };
}

// What is taken of the next message: all of it, under a number that no taking has.
fn taking(alloc: Global, keeper: &Keeper, letter: Letter<'_>) -> Result<Taking, NoMemory>
    ensures { IfOk result (IsTaking (told_of keeper.now.kept) letter.entry) }
{
    Ok(Taking {
        number: keeper.next_taking().ok_or(NoMemory)?,
        bytes: Bytes::from_slice(alloc, letter.bytes)?,
    })
}

// The answer that gives this taking of the message of this number.
fn taken_answer(alloc: Global, of: u64, taking: &Taking) -> Result<ActAnswer, NoMemory>
    ensures { IfOk result (λ answer. answer ≡ taking_given of (Some taking.now)) }
{
    Ok(ActAnswer::Done {
        words: one(alloc, taking.bytes.as_slice())?,
        number: taking.number,
        of,
    })
}

/// Takes the next piece of a message.
#[derive(Drop)]
pub struct More<'a> {
    pub who: &'a Who,
    pub taking: u64,
}

impl Question for More<'_> {
    type Gives = Bytes;

    ghost asks = { λ s. asked s.who.now call.More [] s.taking 0 };

    ghost says = { bytes_given };

    ghost may = { λ s. MayFail };

    fn plan(&self, alloc: Global, keeper: &Keeper) -> Result<Planned<Bytes>, NoMemory> {
        let more = more(alloc, keeper, self.who, self.taking)?;
        let given = worded(one(alloc, more.as_slice())?, 0);
        let words = Words::new(alloc);
        give(self.who, Call::More, words, self.taking, 0, given, more)
    }

    ghost may_fail = { λ s. tt };

    ghost may_want = { λ s. tt };
}

/// Answers a message that was taken.
#[derive(Drop)]
pub struct Answer<'a> {
    pub who: &'a Who,
    pub taking: u64,
    pub bytes: &'a [u8],
}

impl Question for Answer<'_> {
    type Gives = ();

    ghost asks = { λ s. asked s.who.now call.Answer (s.bytes.now ∷ []) s.taking 0 };

    ghost says = { plain };

    ghost may = { λ s. MayFail };

    fn plan(&self, alloc: Global, _keeper: &Keeper) -> Result<Planned<()>, NoMemory> {
        let words = one(alloc, self.bytes)?;
        give(
            self.who,
            Call::Answer,
            words,
            self.taking,
            0,
            done(alloc),
            (),
        )
    }

    ghost may_fail = { λ s. tt };

    ghost may_want = { λ s. tt };
}
