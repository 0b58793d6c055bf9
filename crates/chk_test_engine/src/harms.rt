//! What a stop in one of the calls leaves, by the acts of a rehearsal that isn't stopped.
use chk_bytes::Bytes;
use chk_site::{Act, ActAnswer, Call, Left, Lefts};
use std::alloc::Global;
use std::test::Fail;

// A record of the stream h1, Log, /a.log whose bytes no log has.
const FORGED: &[u8] =
    b"\0\0\0\x28\0\0\0\x1e\0\0\0\x1a\x01\0\0\0\0\0\0\0\x06\0\x02h1\0\x03Log\0\x06/a.log\0\0\0\x06false\n";

// The writers of logs are called so; all other acts are calls.
fn is_call(act: &Act) -> bool {
    act.who.name.as_str() != "log"
}

// How many calls there are among these acts.
pub(crate) fn calls_in(acts: &[Act]) -> u64 {
    let mut count: u64 = 0;
    for act in acts {
        if is_call(act) {
            count = count.saturating_add(1);
        }
    }
    count
}

// The place of the call of this number, counted from 1, among the acts from `first` on.
pub(crate) fn place_of(acts: &[Act], first: usize, at: u64) -> Result<usize, Fail> {
    let mut count: u64 = 0;
    for (place, act) in acts.iter().enumerate() {
        if place >= first && is_call(act) {
            count = count.saturating_add(1);
            if count == at {
                return Ok(place);
            }
        }
    }
    Err(Fail::from("no call of this number"))
}

// The file and the piece of an append.
fn append_in(act: &Act) -> Option<(&[u8], &[u8])> {
    if act.call != Call::Append {
        return None;
    }
    match act.words.as_slice() {
        [name, piece] => Some((name.as_slice(), piece.as_slice())),
        _ => None,
    }
}

fn is_on(act: &Act, name: &[u8]) -> bool {
    match act.words.as_slice() {
        [word, ..] => word.as_slice() == name,
        [] => false,
    }
}

// The bytes past the file's synced length, behind these acts.
fn unsynced(alloc: Global, acts: &[Act], name: &[u8]) -> Result<Bytes, Fail> {
    let mut tail = Bytes::new(alloc);
    for act in acts {
        if !matches!(&act.answer, ActAnswer::Done { .. }) || !is_on(act, name) {
            continue;
        }
        if act.call == Call::Create || act.call == Call::Sync {
            tail.truncate(0);
        }
        if let Some((_, piece)) = append_in(act) {
            tail.push_all(piece)?;
        }
    }
    Ok(tail)
}

// Whether the act is an append to a sink, at which a stop may leave an entry of false bytes.
pub(crate) fn takes_forged(act: &Act) -> bool {
    match append_in(act) {
        Some((name, _)) => name.starts_with(b"sinks/") && name.ends_with(b".chukwa"),
        None => false,
    }
}

// The record with another last byte. In the place of a header it is one of bytes of no log.
fn forged(alloc: Global, piece: &[u8]) -> Result<Bytes, Fail> {
    if piece.starts_with(b"SEQ") {
        return Ok(Bytes::from_slice(alloc, FORGED)?);
    }
    let (last, rest) = piece.split_last().ok_or("nothing is appended")?;
    let mut bytes = Bytes::from_slice(alloc, rest)?;
    bytes.push_all(&[*last ^ 1])?;
    Ok(bytes)
}

// What is left of each file that the acts made: nothing past its synced length. A rename makes its new
// name.
fn synced(alloc: Global, acts: &[Act]) -> Result<Lefts, Fail> {
    let mut left = Lefts::new(alloc);
    for act in acts {
        let made = match act.call {
            Call::Create => act.words.as_slice().first(),
            Call::Rename => act.words.as_slice().get(1),
            _ => None,
        };
        if let Some(name) = made {
            left.push(Left {
                name: name.copy()?,
                tail: Bytes::new(alloc),
                whole: false,
            })?;
        }
    }
    Ok(left)
}

// What is left of a file whose change took place: this tail. A file that isn't named keeps all its
// bytes.
fn changed(alloc: Global, name: &[u8], tail: Bytes) -> Result<Lefts, Fail> {
    let mut left = Lefts::new(alloc);
    left.push(Left {
        name: Bytes::from_slice(alloc, name)?,
        tail,
        whole: true,
    })?;
    Ok(left)
}

// The bytes that weren't synced, and this piece behind them.
fn appended(alloc: Global, before: &[Act], name: &[u8], piece: &[u8]) -> Result<Lefts, Fail> {
    let mut tail = unsynced(alloc, before, name)?;
    tail.push_all(piece)?;
    changed(alloc, name, tail)
}

fn whole(alloc: Global, before: &[Act], act: &Act) -> Result<Lefts, Fail> {
    if let Some((name, piece)) = append_in(act) {
        return appended(alloc, before, name, piece);
    }
    let is_change = matches!(
        act.call,
        Call::Create | Call::Rename | Call::Remove | Call::Cut
    );
    match act.words.as_slice().first() {
        Some(name) if is_change => changed(alloc, name.as_slice(), Bytes::new(alloc)),
        _ => Ok(Lefts::new(alloc)),
    }
}

// What a stop in the act at this place leaves.
// - `synced`: nothing past the synced lengths, and nothing of the stopped call.
// - `whole`: all bytes that weren't synced, and the whole of the stopped call.
// - `forged`: all bytes that weren't synced, and in place of the piece that the stopped call appends
//   an entry of false bytes.
pub(crate) fn left_at(
    alloc: Global,
    acts: &[Act],
    place: usize,
    verb: &str,
) -> Result<Lefts, Fail> {
    let act = acts.get(place).ok_or("no act there")?;
    let before = acts.get(..place).unwrap_or(&[]);
    match verb {
        "synced" => synced(alloc, acts.get(..=place).unwrap_or(&[])),
        "whole" => whole(alloc, before, act),
        _ => {
            let (name, piece) = append_in(act).ok_or("no append")?;
            appended(alloc, before, name, forged(alloc, piece)?.as_slice())
        }
    }
}
