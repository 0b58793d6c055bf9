// What a call on a site in memory asks for, and what it is to be answered.
ghost use Rattle.std.specs.Prelude.{◌≡◌, ℕ, [], ◌∷◌, IfOk, Result, Ok, Err};
ghost use Rattle.chk_site.specs.declared.acts.CallFault.{CallFault as Fault};
ghost use Rattle.chk_site.specs.declared.acts.CallFault.TheVariants.{Failed, NoMemory};
ghost use Rattle.chk_site.specs.declared.acts.ActAnswer.{ActAnswer as Answer};
ghost use Rattle.chk_site.specs.declared.acts.ActAnswer.TheVariants.{Done, Refused};
ghost use Rattle.chk_site.specs.Site.{Asked, asked};
ghost use Rattle.chk_site_mem_calls.specs.Plans.{Plans, act_of, planned_as};

use chk_bytes::{Bytes, NoMemory};
use chk_site::{Act, ActAnswer, Call, CallFault, Who, Words};
use chk_site_mem_store::Keeper;
use std::alloc::Global;

/// An act that is to be made, and what its call gives then.
#[derive(Drop)]
pub struct Planned<T> {
    pub act: Act,
    pub gives: Result<T, CallFault>,
}

/// A call on a site, with what it is asked for.
pub trait Question {
    type Gives: Drop;

    /// What is asked for.
    ghost asks: { Self → Asked };

    /// How a value that is given stands in the act's answer.
    ghost says: { Self.Gives → Answer };

    /// What the call may give.
    ghost may: { Self → Result Self.Gives Fault → Type 0 };

    /// The act that answers it in this state.
    fn plan(&self, alloc: Global, keeper: &Keeper) -> Result<Planned<Self::Gives>, NoMemory>
        ensures plans { IfOk result (Plans (asks self.now) says keeper.now) }
        ensures may { IfOk result (λ planned. may self.now planned.gives) };

    ghost may_fail: { (question : Self) → may question (Err Failed) };

    ghost may_want: { (question : Self) → may question (Err NoMemory) };
}

/// A call of whose act a number is known only when it is planned, as that of a message.
pub trait Numbered {
    type Gives: Drop;

    /// What is asked for, by the number.
    ghost asks: { Self → ℕ → Asked };

    /// How a value that is given stands in the act's answer, by the number.
    ghost says: { ℕ → Self.Gives → Answer };

    /// What the call may give.
    ghost may: { Self → Result Self.Gives Fault → Type 0 };

    /// The act that answers it in this state.
    fn plan(&self, alloc: Global, keeper: &Keeper) -> Result<Planned<Self::Gives>, NoMemory>
        ensures plans { IfOk result (λ planned. (n : ℕ) × Plans (asks self.now n) (says n) keeper.now planned) }
        ensures may { IfOk result (λ planned. may self.now planned.gives) };

    ghost may_fail: { (question : Self) → may question (Err Failed) };

    ghost may_want: { (question : Self) → may question (Err NoMemory) };
}

/// The call is done, with this answer, and gives this value.
pub fn give<T: Drop>(
    who: &Who,
    call: Call,
    words: Words,
    number: u64,
    max: u32,
    answer: ActAnswer,
    value: T,
) -> Result<Planned<T>, NoMemory>
    ensures { IfOk result (λ p. p ≡ planned_as (act_of (asked who.now call words number max) answer) (Ok value)) }
{
    Ok(Planned {
        act: act(who, call, words, number, max, answer)?,
        gives: Ok(value),
    })
}

/// The call is refused.
pub fn refuse<T: Drop>(
    who: &Who,
    call: Call,
    words: Words,
    number: u64,
    max: u32,
    fault: CallFault,
) -> Result<Planned<T>, NoMemory>
    ensures { IfOk result (λ p. p ≡ planned_as (act_of (asked who.now call words number max) (Refused fault)) (Err fault)) }
{
    Ok(Planned {
        act: act(who, call, words, number, max, ActAnswer::Refused { fault })?,
        gives: Err(fault),
    })
}

// The act of this call with this answer.
fn act(
    who: &Who,
    call: Call,
    words: Words,
    number: u64,
    max: u32,
    answer: ActAnswer,
) -> Result<Act, NoMemory>
    ensures { IfOk result (λ act. act ≡ act_of (asked who.now call words number max) answer) }
{
    Ok(Act {
        who: who.copy()?,
        call,
        words,
        number,
        max,
        answer,
    })
}

/// Done, and nothing given.
pub fn done(alloc: Global) -> ActAnswer
    ensures { result ≡ Done [] 0 0 }
{
    counted(alloc, 0)
}

/// Done, and this number given.
pub fn counted(alloc: Global, number: u64) -> ActAnswer
    ensures { result ≡ Done [] number 0 }
{
    worded(Words::new(alloc), number)
}

/// Done, and these texts and this number given.
pub fn worded(words: Words, number: u64) -> ActAnswer
    ensures { result ≡ Done words number 0 }
{
    ActAnswer::Done {
        words,
        number,
        of: 0,
    }
}
