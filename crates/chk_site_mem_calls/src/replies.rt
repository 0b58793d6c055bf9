// The answers that collectors made.
ghost use Rattle.std.specs.Prelude.{◌≡◌, ℕ, IfOk, OnOk, if◌then◌else◌};
ghost use Rattle.chk_site.specs.Acts.{deed, is_done as was_done};
ghost use Rattle.chk_site.specs.Honest.{is_sure};
ghost use Rattle.chk_site.specs.Messages.{replies};
ghost use Rattle.chk_site_mem_store.specs.Reads.{text_at};
ghost use Rattle.chk_site_mem_store.specs.Told.{told_of};
ghost use Rattle.chk_site_mem_calls.specs.Replies.{got_of, noted, older_of, reply_by, reply_seen, taker_at};

use crate::mail::same_who;
use chk_bytes::NoMemory;
use chk_site::{Act, ActAnswer, Call, Role, Who};
use chk_site_mem_store::{Keeper, first};
use std::alloc::Global;
use std::collections::BTreeMap;

/// An answer to a message.
#[derive(Clone, Copy)]
pub struct Replied<'a> {
    pub bytes: &'a [u8],
    pub done: bool,
    pub inside: bool,
}

/// Who took a message, and whether that was at the mailbox.
#[derive(Clone, Copy)]
pub struct Taker<'a> {
    pub who: &'a Who,
    pub inside: bool,
}

/// The takings of a message, by their numbers.
type Takings<'a> = BTreeMap<u64, Taker<'a>>;

/// What is got for a message: the oldest answer to a taking at the mailbox whose call was done, else the oldest whose
/// call was done, else nothing.
pub fn got(alloc: Global, keeper: &Keeper, message: u64) -> Result<&[u8], NoMemory>
    ensures { IfOk result (λ bytes. bytes.now ≡ got_of (replies (told_of keeper.now.kept) message)) }
{
    let acts = keeper.acts();
    let mut takings = BTreeMap::new(alloc);
    let mut sure = None;
    let mut done = None;
    for act in acts {
        let reply = reply_in(act, &takings);
        sure = older_sure(sure, reply);
        done = older_done(done, reply);
        note(&mut takings, act, message)?;
    }
    Ok(sure.or(done).unwrap_or(&[]))
}

// The sure answer found before, or else this one.
fn older_sure<'a>(found: Option<&'a [u8]>, reply: Option<Replied<'a>>) -> Option<&'a [u8]>
    ensures { text_at result ≡ older_of is_sure (text_at found.entry) (reply_seen reply.entry) }
{
    match (found, reply) {
        (None, Some(reply)) if reply.inside && reply.done => Some(reply.bytes),
        _ => found,
    }
}

// The done answer found before, or else this one.
fn older_done<'a>(found: Option<&'a [u8]>, reply: Option<Replied<'a>>) -> Option<&'a [u8]>
    ensures { text_at result ≡ older_of (λ r. r.done) (text_at found.entry) (reply_seen reply.entry) }
{
    match (found, reply) {
        (None, Some(reply)) if reply.done => Some(reply.bytes),
        _ => found,
    }
}

// The answer that a collector makes by this act to one of its own of these takings.
fn reply_in<'a>(act: &'a Act, takings: &Takings<'_>) -> Option<Replied<'a>>
    ensures { reply_seen result ≡ reply_by (deed act.now) act.now.who (was_done act.now.answer) (taker_at takings.now) }
{
    if act.call != Call::Answer || act.who.role != Role::Collector {
        return None;
    }
    let taker = takings.get(&act.number)?;
    if !same_who(&act.who, taker.who) {
        return None;
    }
    Some(Replied {
        bytes: first(act.words.as_slice()),
        done: is_done(&act.answer),
        inside: taker.inside,
    })
}

fn is_done(answer: &ActAnswer) -> bool
    ensures { result ≡ was_done answer.now }
{
    match answer {
        ActAnswer::Done { .. } => true,
        _ => false,
    }
}

// The takings of the message, after one act more.
fn note<'a>(takings: &mut Takings<'a>, act: &'a Act, message: u64) -> Result<(), NoMemory>
    ensures { OnOk result ((t : ℕ) → taker_at takings.new t ≡ noted message t (deed act.now) act.now.answer act.now.who (taker_at takings.old t)) }
{
    let (Call::Take, ActAnswer::Done { words, number, of }) = (act.call, &act.answer) else {
        return Ok(());
    };
    if words.as_slice().is_empty() {
        return Ok(());
    }
    if *of == message {
        let inside = first(act.words.as_slice()) == b"self".as_slice();
        takings.insert(
            *number,
            Taker {
                who: &act.who,
                inside,
            },
        )?;
    } else {
        takings.remove(number);
    }
    Ok(())
}
