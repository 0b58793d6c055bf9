// What an act does to the files and logs.
ghost use Rattle.std.specs.Prelude.{◌≡◌, take};
ghost use Rattle.chk_site.specs.Acts.{change_of, deed, first, second, says_whole};
ghost use Rattle.chk_site_mem_store.specs.Told.{did_of, failed_change, stopped_change};
ghost use Rattle.chk_site_mem_store.specs.Changes.{seen};

use chk_bytes::Bytes;
use chk_site::{Act, ActAnswer, Call, CallFault, Left};

/// What happens to a file or a log.
#[derive(Clone, Copy)]
pub enum Change<'a> {
    Nothing,
    Create { name: &'a [u8] },
    Grow { name: &'a [u8], piece: &'a [u8] },
    Secure { name: &'a [u8] },
    Move { old: &'a [u8], new: &'a [u8] },
    Remove { name: &'a [u8] },
    Cut { name: &'a [u8], length: u64 },
    GrowLog { path: &'a [u8], piece: &'a [u8] },
    TurnLog { path: &'a [u8], suffix: &'a [u8] },
    DropGeneration { path: &'a [u8], suffix: &'a [u8] },
}

/// The first text of a call.
pub fn first(words: &[Bytes]) -> &[u8]
    ensures { result.now ≡ first words.now }
{
    match words {
        [word, ..] => word.as_slice(),
        [] => &[],
    }
}

/// The second text of a call.
pub fn second(words: &[Bytes]) -> &[u8]
    ensures { result.now ≡ second words.now }
{
    match words {
        [_, word, ..] => word.as_slice(),
        _ => &[],
    }
}

/// What the call changes where it takes place.
pub fn whole(act: &Act) -> Change<'_>
    ensures { seen result ≡ change_of (deed act.now) }
{
    let words = act.words.as_slice();
    match act.call {
        Call::LogAppend => Change::GrowLog {
            path: first(words),
            piece: second(words),
        },
        Call::Create => Change::Create { name: first(words) },
        Call::Append => Change::Grow {
            name: first(words),
            piece: second(words),
        },
        Call::Sync => Change::Secure { name: first(words) },
        Call::Rename => Change::Move {
            old: first(words),
            new: second(words),
        },
        Call::Remove => Change::Remove { name: first(words) },
        Call::Cut => Change::Cut {
            name: first(words),
            length: act.number,
        },
        _ => Change::Nothing,
    }
}

// What a call does that fails: of an append the first 20 bytes of its piece come to stand there.
fn failed(change: Change<'_>) -> Change<'_>
    ensures { seen result ≡ failed_change (seen change.entry) }
{
    match change {
        Change::Grow { name, piece } => Change::Grow {
            name,
            piece: torn(piece),
        },
        Change::GrowLog { path, piece } => Change::GrowLog {
            path,
            piece: torn(piece),
        },
        _ => Change::Nothing,
    }
}

fn torn(piece: &[u8]) -> &[u8]
    ensures { result.now ≡ take 20 piece.now }
{
    if piece.len() > 20 {
        &piece[..20]
    } else {
        piece
    }
}

// Whether a stop says that the call on this name took place.
fn says_whole(left: &[Left], name: &[u8]) -> bool
    ensures { result ≡ says_whole left.now name.now }
{
    for entry in left {
        if name == entry.name.as_slice() {
            return entry.whole;
        }
    }
    false
}

/// What a call does that is stopped, before what becomes of the tails of files.
pub fn stopped<'a>(left: &[Left], change: Change<'a>) -> Change<'a>
    ensures { seen result ≡ stopped_change left.now (seen change.entry) }
{
    match change {
        Change::Create { name } if says_whole(left, name) => Change::Create { name },
        Change::Move { old, new } if says_whole(left, old) => Change::Move { old, new },
        Change::Remove { name } if says_whole(left, name) => Change::Remove { name },
        Change::Cut { name, length } if says_whole(left, name) => Change::Cut { name, length },
        Change::GrowLog { path, .. } => Change::GrowLog { path, piece: &[] },
        _ => Change::Nothing,
    }
}

/// What the act does.
pub fn change_of(act: &Act) -> Change<'_>
    ensures { seen result ≡ did_of act.now }
{
    match &act.answer {
        ActAnswer::Done { .. } => whole(act),
        ActAnswer::Refused {
            fault: CallFault::Failed,
        } => failed(whole(act)),
        ActAnswer::Refused { .. } => Change::Nothing,
        ActAnswer::Stopped { left } => stopped(left.as_slice(), whole(act)),
        ActAnswer::Rotated { suffix } => match act.call {
            Call::LogAppend => Change::TurnLog {
                path: first(act.words.as_slice()),
                suffix: suffix.as_slice(),
            },
            _ => Change::Nothing,
        },
        ActAnswer::Deleted { suffix } => match act.call {
            Call::LogAppend => Change::DropGeneration {
                path: first(act.words.as_slice()),
                suffix: suffix.as_slice(),
            },
            _ => Change::Nothing,
        },
    }
}
