// The messages that were sent, and what was taken of them.
ghost use Rattle.std.specs.Prelude.{◌≡◌, [], ◌∷◌, ◌++◌, IfOk, option_map, Some};
ghost use Rattle.chk_site.specs.Acts.{deed};
ghost use Rattle.chk_site.specs.Honest.{AtMore, TakenPrefix};
ghost use Rattle.chk_site.specs.Messages.{message as message_of, taken as taken_of, taken_in, with_more as more_taken};
ghost use Rattle.chk_site_mem_store.specs.Reads.{text_at};
ghost use Rattle.chk_site_mem_store.specs.Told.{told_of};
ghost use Rattle.chk_site_mem_calls.specs.Taken.{IsBehind, grown_by, sent_in, taken_seen};

use crate::mail::same_who;
use chk_bytes::{Bytes, NoMemory};
use chk_site::{Act, ActAnswer, Call, Role, Who};
use chk_site_mem_store::{Keeper, first, second};
use std::alloc::Global;

/// What has been taken of a message.
#[derive(Drop)]
pub struct Took<'a> {
    pub taker: &'a Who,
    pub door: &'a [u8],
    pub of: u64,
    pub bytes: Bytes,
}

/// The bytes of the message of this number.
pub fn message(keeper: &Keeper, number: u64) -> Option<&[u8]>
    ensures { text_at result ≡ option_map (λ m. m.bytes) (message_of (told_of keeper.now.kept) number) }
{
    let acts = keeper.acts();
    let mut bytes = None;
    for act in acts {
        bytes = sent(bytes, act, number);
    }
    bytes
}

// The bytes of the message of this number, after one act more.
fn sent<'a>(earlier: Option<&'a [u8]>, act: &'a Act, number: u64) -> Option<&'a [u8]>
    ensures { text_at result ≡ sent_in number (deed act.now) (text_at earlier.entry) }
{
    match act.call {
        Call::Send if act.number == number => Some(second(act.words.as_slice())),
        _ => earlier,
    }
}

/// What was taken under this number.
pub fn taken(alloc: Global, keeper: &Keeper, number: u64) -> Result<Option<Took<'_>>, NoMemory>
    ensures { IfOk result (λ took. taken_seen took ≡ taken_of (told_of keeper.now.kept) number) }
{
    let acts = keeper.acts();
    let mut took = None;
    for act in acts {
        took = taken_after(alloc, act, number, took)?;
    }
    Ok(took)
}

// What was taken under this number, after one act more.
fn taken_after<'a>(
    alloc: Global,
    act: &'a Act,
    number: u64,
    took: Option<Took<'a>>,
) -> Result<Option<Took<'a>>, NoMemory>
    ensures { IfOk result (λ after. taken_seen after ≡ taken_in number (deed act.now) act.now.answer act.now.who (taken_seen took.entry)) }
{
    let ActAnswer::Done {
        words,
        number: given,
        of,
    } = &act.answer
    else {
        return Ok(took);
    };
    let [bytes, ..] = words.as_slice() else {
        return Ok(took);
    };
    match act.call {
        Call::Take if *given == number => Ok(Some(Took {
            taker: &act.who,
            door: first(act.words.as_slice()),
            of: *of,
            bytes: Bytes::from_slice(alloc, bytes.as_slice())?,
        })),
        Call::More if act.number == number => with_more(took, &act.who, bytes.as_slice()),
        _ => Ok(took),
    }
}

fn with_more<'a>(
    took: Option<Took<'a>>,
    who: &Who,
    more: &[u8],
) -> Result<Option<Took<'a>>, NoMemory>
    ensures { IfOk result (λ after. taken_seen after ≡ more_taken who.now more.now (taken_seen took.entry)) }
{
    let Some(took) = took else {
        return Ok(None);
    };
    if same_who(who, took.taker) {
        Ok(Some(grown(took, more)?))
    } else {
        Ok(Some(took))
    }
}

fn grown<'a>(mut took: Took<'a>, more: &[u8]) -> Result<Took<'a>, NoMemory>
    ensures { IfOk result (λ after. taken_seen (Some after) ≡ Some (grown_by more.now took.entry)) }
{
    took.bytes.push_all(more)?;
    Ok(took)
}

/// The rest of the message of a taking, past what its taker took of it; nothing of nobody's taking or another's.
pub fn more(alloc: Global, keeper: &Keeper, who: &Who, taking: u64) -> Result<Bytes, NoMemory>
    ensures { IfOk result (λ more. AtMore (told_of keeper.now.kept) who.now (taken_of (told_of keeper.now.kept) taking) (more ∷ [])) }
{
    match taken(alloc, keeper, taking)? {
        Some(took) if same_who(who, took.taker) => rest(alloc, keeper, &took),
        _ => Ok(Bytes::new(alloc)),
    }
}

// The bytes that a message has past those taken of it.
fn rest(alloc: Global, keeper: &Keeper, took: &Took<'_>) -> Result<Bytes, NoMemory>
    ensures { IfOk result (λ more. TakenPrefix took.now.taker.now.role took.now.of (message_of (told_of keeper.now.kept) took.now.of) (took.now.bytes ++ more)) }
{
    if took.taker.role == Role::Agent && took.of == 0 {
        return Ok(Bytes::new(alloc));
    }
    match behind(message(keeper, took.of), took.bytes.as_slice()) {
        Some(rest) => Ok(Bytes::from_slice(alloc, rest)?),
        // Only an act of others under this process's name can have taken what isn't of the message.
        None => Err(NoMemory),
    }
}

// What stands behind the bytes that were taken.
fn behind<'a>(message: Option<&'a [u8]>, taken: &[u8]) -> Option<&'a [u8]>
    ensures { IsBehind (text_at message.entry) taken.now (text_at result) }
{
    message?.strip_prefix(taken)
}
