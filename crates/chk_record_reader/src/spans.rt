//! Where records stand, and how far a read goes.

ghost use Rattle.std.specs.Prelude.{◌≡◌, ◌≤◌, ◌<◌, ◌+◌, ◌-◌, ◌/◌, min, length, IfSome, IfNone};
ghost use Rattle.chk_record_index.specs.Order.{lent_head};
ghost use Rattle.chk_record_reader.specs.Spans.{IsValueSpan, NoValueSpan, room_of};

use chk_bytes::take_u32;
use chk_record_index::{HeadRef, Heads, PIECE};

/// The most bytes between two records that are read with them: a read of its own costs as much.
const GAP: u64 = 4096;

/// How far a read goes on to further records. So many bytes stay in the processor's cache.
const RUN: u64 = 262_144;

/// The bytes of a window of a file. With those behind it, a window is one whole read.
const WINDOW: u64 = 983_040;

/// How many bytes behind a window are read with it, so that each record that begins there and has
/// no more comes whole.
const BEHIND: u64 = 65_536;

/// How far a read of a record goes on.
#[derive(Clone, Copy, Debug, PartialEq, Eq)]
pub enum Ahead {
    /// To the records of the next heads, while they lie close.
    Next,
    /// To the bounds of the window that the record begins in, both ways; but for a record that may
    /// have more than 65,536 bytes, which is read as by `Next`.
    Window,
}

/// One of the windows that a file falls into: each has 983,040 bytes, and the first one begins at
/// the file's first byte. Windows are ordered as they lie in the files.
#[derive(Clone, Copy, Debug, PartialEq, Eq, PartialOrd, Ord)]
pub struct Window {
    /// The number of the file.
    pub file: u32,
    /// The place among the file's windows.
    pub number: u64,
}

impl Window {
    /// The window that the record of a head begins in.
    pub fn of(head: &HeadRef<'_>) -> Window
        ensures file { result.file ≡ (lent_head head.now).file }
        ensures number { result.number ≡ (lent_head head.now).at / 983040 }
    {
        Window {
            file: head.file,
            number: head.at / WINDOW,
        }
    }
}

/// A run of a file's bytes that is read at once.
#[derive(Clone, Copy)]
pub(crate) struct Run {
    pub from: u64,
    pub size: u64,
}

/// A run of bytes.
#[derive(Clone, Copy)]
pub(crate) struct Span {
    pub start: usize,
    pub size: usize,
}

/// Where the value of the record that begins at a place stands, if all of the record is there and
/// the value has so many bytes.
pub(crate) fn value_span(bytes: &[u8], at: usize, size: u64) -> Option<Span>
    ensures some { IfSome result (λ span. IsValueSpan bytes.now at size span.start span.size) }
    ensures none { IfNone result (NoValueSpan bytes.now at size) }
{
    let whole = take_u32(bytes, at)?;
    let key = take_u32(bytes, at + 4)?;
    let there = u64::from(whole).checked_sub(u64::from(key) + 4)?;
    let start = at + 12 + key as usize;
    if there == size && start + there as usize <= bytes.len() {
        return Some(Span {
            start,
            size: there as usize,
        });
    }
    None
}

/// The most bytes that the record of a head has, whatever way its key is spelled: at most
/// 1,065,001.
pub(crate) fn room(head: &HeadRef<'_>) -> u64
    ensures is { result ≡ room_of (lent_head head.now) }
    ensures few { result ≤ 1065001 }
{
    let key = &head.key;
    let words = counted(key.source) + counted(key.kind) + counted(key.name) + counted(key.cluster);
    41 + words + key.seq.saturating_sub(head.begin).min(PIECE)
}

/// How many bytes a word of a key has.
fn counted(word: &str) -> u64
    ensures { result ≡ min (length word.now) 4096 }
{
    word.len().min(4096) as u64
}

/// How many bytes of data the record of a head has.
fn data(head: &HeadRef<'_>) -> u64 {
    head.key.seq.saturating_sub(head.begin)
}

/// How many bytes from a head's record on are read at once: the record, and those of the heads
/// behind `index` that follow it in its file, up to 262,144 bytes, as long as at most 4,096 bytes
/// lie between two of them. It costs the heads that it reaches, and looks at the texts of the first
/// one alone: the keys of the others are taken to be as long as its own, and what doesn't come
/// whole so is read again.
pub(crate) fn reach(heads: &Heads, index: usize, first: &HeadRef<'_>) -> u64
    requires { index < length heads.now }
    ensures enough { room_of (lent_head first.now) ≤ result }
    ensures few { result ≤ 1065001 }
{
    let count = heads.len();
    let mut size = room(first);
    let key = size.saturating_sub(data(first));
    for next in index + 1..count {
        let end = end_near(first, &heads.get(next), size, key);
        if end <= size || end > RUN {
            break;
        }
        size = end;
    }
    size
}

/// What is read for the record of the head at `index`, which is `head`: it has all of the record.
pub(crate) fn run_of(heads: &Heads, index: usize, head: &HeadRef<'_>, ahead: Ahead) -> Run
    requires { index < length heads.now }
    ensures behind { result.from ≤ (lent_head head.now).at }
    ensures enough { (lent_head head.now).at - result.from + room_of (lent_head head.now) ≤ result.size }
    ensures few { result.size ≤ 1065001 }
{
    if ahead == Ahead::Window && room(head) <= BEHIND {
        return Run {
            from: head.at - head.at % WINDOW,
            size: WINDOW + BEHIND,
        };
    }
    Run {
        from: head.at,
        size: reach(heads, index, head),
    }
}

/// How far a head's record may reach behind the place of the first one's, in the same file, by a
/// key of at most `key` bytes; 0 where it doesn't stand there, or too far behind the first `size`
/// bytes.
fn end_near(first: &HeadRef<'_>, head: &HeadRef<'_>, size: u64, key: u64) -> u64 {
    if head.file != first.file {
        return 0;
    }
    match head.at.checked_sub(first.at) {
        Some(past) if past.saturating_sub(size) <= GAP => {
            past.saturating_add(key).saturating_add(data(head))
        }
        _ => 0,
    }
}
