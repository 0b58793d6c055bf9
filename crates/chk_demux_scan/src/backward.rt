//! Streams' records, followed from the newest one back.

ghost use Rattle.std.specs.Prelude.{◌≡◌, ◌<◌, ◌≤◌, ℕ, length, map, slice_index, true, IsTrue, IsFalse, IfOk, IfSome, IfNone, None};
ghost use Rattle.chk_chunk.specs.Keys.{same_stream, stream_lt};
ghost use Rattle.chk_world.specs.Books.{ends_rise};
ghost use Rattle.chk_record_index.specs.Order.{lent_head};
ghost use Rattle.chk_book.specs.declared.lists.End.{End as EndStruct};
ghost use Rattle.chk_book.specs.Views.{end_view};
ghost use Rattle.chk_record_reader.specs.Courses.{is_head_of, is_end_of, end_of};
ghost use Rattle.chk_record_reader.specs.OnePass.{end_at};

use chk_book::End;
use chk_bytes::{NoMemory, comes_before};
use chk_record_index::HeadRef;
use std::alloc::Global;

/// Where each stream ends in the book.
pub(crate) fn ends_of(alloc: Global, ends: &[End]) -> Result<Vec<u64>, NoMemory>
    ensures { IfOk result (λ found. found.items ≡ map (λ (e : EndStruct). e.end) ends.now) }
{
    let found = ends.iter().map(|end| end.end).collect(alloc)?;
    Ok(found)
}

/// Where the end of the head's stream stands among ends in byte order, if it is there.
pub(crate) fn place_of(ends: &[End], head: &HeadRef<'_>) -> Option<usize>
    ensures within { IfSome result (λ k. k < length ends.now) }
    ensures found { IfSome result (λ k. is_end_of (lent_head head.now).key.stream
        (end_at (map end_view ends.now) k) ≡ true) }
    ensures none { IfNone result (IsTrue (ends_rise (map end_view ends.now))
        → end_of (lent_head head.now).key.stream (map end_view ends.now) ≡ None) }
{
    let place = ends.partition_point(|end| is_before(end, head));
    if place < ends.len() && is_of(&ends[place], head) {
        return Some(place);
    }
    None
}

/// The end is that of the head's stream.
fn is_of(end: &End, head: &HeadRef<'_>) -> bool
    ensures { result ≡ is_end_of (lent_head head.now).key.stream (end_view end.now) }
{
    head.key.name == end.name.as_str()
        && head.key.source == end.source.as_str()
        && head.key.kind == end.kind.as_str()
}

/// The end's stream comes before the head's.
fn is_before(end: &End, head: &HeadRef<'_>) -> bool
    ensures { result ≡ stream_lt (end_view end.now).stream (lent_head head.now).key.stream }
{
    comes_before(end.source.as_str(), head.key.source)
        || (end.source.as_str() == head.key.source
            && (comes_before(end.kind.as_str(), head.key.kind)
                || (end.kind.as_str() == head.key.kind
                    && comes_before(end.name.as_str(), head.key.name))))
}

/// Each stream's records begin at its place or below it.
pub(crate) fn reach_places(begins: &[u64], places: &[u64]) -> bool
    requires { length places.now ≡ length begins.now }
    ensures yes { IsTrue result → (k : ℕ) → k < length begins.now
        → slice_index begins.now k ≤ slice_index places.now k }
    ensures no { IsFalse result → ((k : ℕ) → k < length begins.now
        → slice_index begins.now k ≤ slice_index places.now k) → ⊥ }
{
    for index in 0..begins.len() {
        if begins[index] > places[index] {
            return false;
        }
    }
    true
}

/// Each stream's records begin at its start in the book.
pub(crate) fn reach_starts(ends: &[End], begins: &[u64]) -> bool
    requires { length begins.now ≡ length ends.now }
    ensures yes { IsTrue result → (k : ℕ) → k < length ends.now
        → slice_index begins.now k ≡ (end_at (map end_view ends.now) k).start }
    ensures no { IsFalse result → ((k : ℕ) → k < length ends.now
        → slice_index begins.now k ≡ (end_at (map end_view ends.now) k).start) → ⊥ }
{
    for index in 0..ends.len() {
        if begins[index] != ends[index].start {
            return false;
        }
    }
    true
}
