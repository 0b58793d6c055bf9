//! One entry, where it stands.

ghost use Rattle.std.specs.Prelude.{◌≡◌, ◌+◌, ◌-◌, ◌≤◌, ◌^◌, ◌<◌, ◌==◌, ◌↔◌, IsTrue, IfSome, IfNone, ℕ, length, drop, nat_eq};
ghost use Rattle.std.specs.List.{starts_with};
ghost use Rattle.chk_bytes.specs.Laws.{AreBytes};
ghost use Rattle.chk_bytes.specs.Numbers.{spelled_at};
ghost use Rattle.chk_salvage.specs.Views.{entry_of, IsWithin};
ghost use Rattle.chk_salvage.specs.Skipping.{StandsThere};
ghost use Rattle.chk_salvage.specs.Ahead.{HasHead};
ghost use Rattle.chk_seqfile.specs.Entries.{sync_entry, entry_at, sync_or_not, record_of, fitting};

use chk_bytes::take_u32;
use chk_seqfile::Why;

/// A record, borrowed from the bytes that it was read from.
#[derive(Clone, Copy, Debug, PartialEq, Eq)]
pub struct EntryRef<'a> {
    /// The place at which the record begins, with its length.
    pub at: u64,
    /// The place behind it.
    pub end: u64,
    pub key: &'a [u8],
    pub value: &'a [u8],
}

/// What stands first in some bytes.
#[derive(Clone, Copy)]
pub(crate) enum Seen<'a> {
    /// There are no bytes.
    Nothing,
    Sync,
    Record { key: &'a [u8], value: &'a [u8] },
    Damaged(Why),
}

/// What stands at a place, the first thing that is wrong deciding.
pub(crate) fn entry_from<'a>(marker: &[u8; 16], bytes: &'a [u8], at: usize) -> Seen<'a>
    requires { at ≤ length bytes.now }
    ensures entry { entry_of result ≡ entry_at marker.now (drop at bytes.now) }
    ensures within { IsWithin result (length bytes.now - at) }
    ensures stands { StandsThere result bytes.now at }
{
    entry_at(marker, &bytes[at..])
}

/// What stands first.
#[tactic(auto, unfolding(chk_seqfile::specs::Entries::entry_at))]
fn entry_at<'a>(marker: &[u8; 16], bytes: &'a [u8]) -> Seen<'a>
    ensures { entry_of result ≡ entry_at marker.now bytes.now }
{
    if bytes.is_empty() {
        return Seen::Nothing;
    }
    let Some(size) = take_u32(bytes, 0) else {
        return Seen::Damaged(Why::Torn);
    };
    if size == u32::MAX {
        return sync_or_not(marker, bytes);
    }
    if size >= 1 << 31 {
        return Seen::Damaged(Why::BadLength);
    }
    match take_u32(bytes, 4) {
        Some(key_size) => record_of(size as usize, key_size as usize, bytes),
        None => Seen::Damaged(Why::Torn),
    }
}

/// What four bytes 255 begin.
fn sync_or_not<'a>(marker: &[u8; 16], bytes: &'a [u8]) -> Seen<'a>
    ensures { entry_of result ≡ sync_or_not marker.now bytes.now }
{
    if bytes.len() < 20 {
        Seen::Damaged(Why::Torn)
    } else if bytes[4..20].starts_with(marker) {
        Seen::Sync
    } else {
        Seen::Damaged(Why::BadMarker)
    }
}

/// The record of `size` bytes, of which the key part has `key_size`, behind these two numbers.
fn record_of(size: usize, key_size: usize, bytes: &[u8]) -> Seen<'_>
    requires { size < 2 ^ 31 }
    ensures { entry_of result ≡ record_of size key_size bytes.now }
{
    if size < key_size || key_size < 4 || size - key_size < 4 {
        Seen::Damaged(Why::BadLength)
    } else if bytes.len() < 8 + size {
        Seen::Damaged(Why::Torn)
    } else {
        fitting(size, key_size, bytes)
    }
}

/// The record, if its lengths are those of its parts.
fn fitting(size: usize, key_size: usize, bytes: &[u8]) -> Seen<'_>
    requires size { size < 2 ^ 31 }
    requires key_part { 4 ≤ key_size }
    requires value_part { key_size + 4 ≤ size }
    requires whole { 8 + size ≤ length bytes.now }
    ensures { entry_of result ≡ fitting size key_size bytes.now }
{
    let key = &bytes[12..8 + key_size];
    let value = &bytes[12 + key_size..8 + size];
    let fits = take_u32(bytes, 8) == Some(key.len() as u32)
        && take_u32(bytes, 8 + key_size) == Some(value.len() as u32);
    if fits {
        Seen::Record { key, value }
    } else {
        Seen::Damaged(Why::BadLength)
    }
}

/// How long the key and the value of a record are.
#[derive(Clone, Copy)]
pub(crate) struct Lengths {
    pub key: usize,
    pub value: usize,
}

/// The lengths of the record that begins these bytes, where they and its key have come, and agree.
pub(crate) fn lengths_of(bytes: &[u8]) -> Option<Lengths>
    ensures some { IfSome result (λ l. HasHead bytes.now l.key l.value × AreBytes bytes.now) }
    ensures none { IfNone result ((k v : ℕ) → HasHead bytes.now k v → ⊥) }
{
    let size = take_u32(bytes, 0)? as usize;
    let key_part = take_u32(bytes, 4)? as usize;
    let key = take_u32(bytes, 8)? as usize;
    let value = take_u32(bytes, 12 + key)? as usize;
    if size < 1 << 31 && key_part == 4 + key && size == 8 + key + value {
        Some(Lengths { key, value })
    } else {
        None
    }
}

/// Whether a whole sync entry stands first.
pub(crate) fn begins_with_sync(marker: &[u8; 16], bytes: &[u8]) -> bool
    ensures { result ≡ starts_with nat_eq bytes.now (sync_entry marker.now) }
{
    bytes.starts_with(&[255; 4]) && bytes[4..].starts_with(marker)
}
