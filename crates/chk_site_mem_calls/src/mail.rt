// The messages that wait at a door.
ghost use Rattle.std.specs.Prelude.{◌≡◌, IfOk, OnOk, bytes_eq};
ghost use Rattle.chk_site.specs.Acts.{deed, first, same_who as same};
ghost use Rattle.chk_site_mem_store.specs.Told.{told_of};
ghost use Rattle.chk_site_mem_calls.specs.Mail.{IsMailbox, IsNext, came, is_emptied, mail_in as mail_by, waits, went, with_mail};

use crate::messages::message;
use chk_bytes::NoMemory;
use chk_site::{Act, ActAnswer, Call, Who};
use chk_site_mem_store::{Keeper, first};
use std::alloc::Global;

/// The mailbox of a door.
#[derive(Clone, Copy)]
pub struct Mailbox<'a> {
    pub door: &'a [u8],
    /// The process whose start empties it.
    pub taker: Option<&'a Who>,
    /// The numbers of takings after which the same message is handed out once more.
    pub repeated: &'a [u64],
}

/// What an act does to a mailbox.
#[derive(Clone, Copy)]
pub enum Mail {
    Nothing,
    Emptied,
    Came(u64),
    Went(u64),
}

/// A message that waits.
#[derive(Clone, Copy)]
pub struct Letter<'a> {
    pub number: u64,
    pub bytes: &'a [u8],
}

/// Whether they are the same process.
pub fn same_who(a: &Who, b: &Who) -> bool
    ensures { result ≡ same a.now b.now }
{
    a.role == b.role && a.name.as_str() == b.name.as_str()
}

/// The mailbox of this door for this taker.
pub fn at_door<'a>(who: &'a Who, door: &'a str, repeated: &'a [u64]) -> Mailbox<'a>
    ensures { IsMailbox who.now door.now repeated.now result }
{
    let door = door.as_bytes();
    if door == b"self".as_slice() {
        Mailbox {
            door,
            taker: Some(who),
            repeated: &[],
        }
    } else {
        Mailbox {
            door,
            taker: None,
            repeated,
        }
    }
}

/// The message that has waited longest.
pub fn next<'a>(
    alloc: Global,
    keeper: &'a Keeper,
    mailbox: Mailbox<'_>,
) -> Result<Option<Letter<'a>>, NoMemory>
    ensures { IfOk result (IsNext (told_of keeper.now.kept) (waits mailbox.entry (told_of keeper.now.kept))) }
{
    let waiting = waiting(alloc, keeper, mailbox)?;
    let Some(number) = waiting.first().copied() else {
        return Ok(None);
    };
    match message(keeper, number) {
        Some(bytes) => Ok(Some(Letter { number, bytes })),
        None => unreachable!(),
    }
}

// The numbers of the messages that wait, the oldest first.
fn waiting(alloc: Global, keeper: &Keeper, mailbox: Mailbox<'_>) -> Result<Vec<u64>, NoMemory>
    ensures { IfOk result (λ waiting. waiting.items ≡ waits mailbox.entry (told_of keeper.now.kept)) }
{
    let acts = keeper.acts();
    let mut waiting = Vec::new(alloc);
    for act in acts {
        deliver(&mut waiting, mail_in(act, mailbox))?;
    }
    Ok(waiting)
}

fn deliver(waiting: &mut Vec<u64>, mail: Mail) -> Result<(), NoMemory>
    ensures { OnOk result (waiting.new.items ≡ with_mail mail waiting.old.items) }
{
    match mail {
        Mail::Nothing => {}
        Mail::Emptied => waiting.clear(),
        Mail::Came(number) => waiting.push(number)?,
        Mail::Went(number) => waiting.retain(|other| *other != number),
    }
    Ok(())
}

fn mail_in(act: &Act, mailbox: Mailbox<'_>) -> Mail
    ensures { result ≡ mail_by mailbox.entry (deed act.now) act.now.answer act.now.who }
{
    match act.call {
        Call::Start if is_emptied(act, mailbox) => Mail::Emptied,
        Call::Send => came(act.number, &act.answer, is_at(act, mailbox)),
        Call::Take => went(mailbox.repeated, &act.answer, is_at(act, mailbox)),
        _ => Mail::Nothing,
    }
}

// What a message that was sent does, where it was sent to the mailbox.
fn came(number: u64, answer: &ActAnswer, at: bool) -> Mail
    ensures { result ≡ came number answer.now at }
{
    match answer {
        ActAnswer::Done { .. } if at => Mail::Came(number),
        _ => Mail::Nothing,
    }
}

// What a taking does, where it was made at the mailbox.
fn went(repeated: &[u64], answer: &ActAnswer, at: bool) -> Mail
    ensures { result ≡ went repeated.now answer.now at }
{
    match answer {
        ActAnswer::Done { words, number, of } if at => if words.as_slice().is_empty()
            || repeated.contains(number)
        {
            Mail::Nothing
        } else {
            Mail::Went(*of)
        },
        _ => Mail::Nothing,
    }
}

// Whether the act is of the taker.
fn is_emptied(act: &Act, mailbox: Mailbox<'_>) -> bool
    ensures { result ≡ is_emptied mailbox.entry.taker act.now.who }
{
    match mailbox.taker {
        Some(taker) => same_who(taker, &act.who),
        None => false,
    }
}

// Whether the act is at the door.
fn is_at(act: &Act, mailbox: Mailbox<'_>) -> bool
    ensures { result ≡ bytes_eq (first act.now.words) mailbox.entry.door.now }
{
    first(act.words.as_slice()) == mailbox.door
}
