//! The check of all streams' records in one pass over their heads.

ghost use Rattle.std.specs.Prelude.{◌≡◌, ◌<◌, ◌≤◌, length, map, slice_index, true, IsTrue, IfOk, IfSome};
ghost use Rattle.chk_record_index.specs.Order.{lent_head};
ghost use Rattle.chk_book.specs.declared.lists.End.{End as EndStruct};
ghost use Rattle.chk_book.specs.Views.{end_view};
ghost use Rattle.chk_record_reader.specs.Streams.{stream_of};
ghost use Rattle.chk_record_reader.specs.Courses.{is_end_of};
ghost use Rattle.chk_record_reader.specs.Checking.{AllGoWell};
ghost use Rattle.chk_record_reader.specs.OnePass.{end_at, AreOnce, TookHead, AreReached};

use crate::courses::{StreamRef, goes_on};
use chk_book::End;
use chk_bytes::NoMemory;
use chk_record_index::{HeadRef, Heads};
use std::alloc::Global;
use std::cmp::Ordering;

/// Whether the records of all streams run as the book says, of which heads are given in the order of
/// their reading; `false` tells nothing. It takes eight bytes for each stream, and costs a search among
/// the streams for each head.
pub(crate) fn all_go_well(alloc: Global, ends: &[End], heads: &Heads) -> Result<bool, NoMemory>
    ensures { IfOk result (λ well. IsTrue well → AllGoWell (map end_view ends.now) heads.now) }
{
    if !is_rising(ends) {
        return Ok(false);
    }
    let mut reached = starts_of(alloc, ends)?;
    for index in 0..heads.len() {
        if !take_head(ends, &mut reached, &heads.get(index)) {
            return Ok(false);
        }
    }
    Ok(are_reached(ends, &reached))
}

/// The streams stand in byte order, each of them once.
fn is_rising(ends: &[End]) -> bool
    ensures { IsTrue result → AreOnce (map end_view ends.now) }
{
    for index in 1..ends.len() {
        if !ends[index - 1].is_before(&ends[index]) {
            return false;
        }
    }
    true
}

/// Where each stream starts.
fn starts_of(alloc: Global, ends: &[End]) -> Result<Vec<u64>, NoMemory>
    ensures { IfOk result (λ starts. starts.items ≡ map (λ (e : EndStruct). e.start) ends.now) }
{
    let starts = ends.iter().map(|end| end.start).collect(alloc)?;
    Ok(starts)
}

/// Takes a head as the next one of its stream, where it goes on from what is reached of that.
fn take_head(ends: &[End], reached: &mut Vec<u64>, head: &HeadRef<'_>) -> bool
    requires { length reached.old.items ≡ length ends.now }
    ensures { IsTrue result → TookHead (map end_view ends.now) reached.old.items reached.new.items (lent_head head.now) }
{
    let stream = StreamRef {
        source: head.key.source,
        kind: head.key.kind,
        name: head.key.name,
    };
    let Some(place) = place_of(ends, &stream) else {
        return false;
    };
    if !goes_on(&ends[place], reached[place], head) {
        return false;
    }
    reached[place] = head.key.seq;
    true
}

/// Where the stream's end stands, if it is found among ends in byte order.
fn place_of(ends: &[End], stream: &StreamRef<'_>) -> Option<usize>
    ensures within { IfSome result (λ k. k < length ends.now) }
    ensures found { IfSome result (λ k. is_end_of (stream_of stream.now) (end_at (map end_view ends.now) k) ≡ true) }
{
    match ends.binary_search_by(|end| compare(end, stream)) {
        Ok(place) if stream.ends_in(&ends[place]) => Some(place),
        _ => None,
    }
}

/// Whether each stream's end is reached.
fn are_reached(ends: &[End], reached: &[u64]) -> bool
    requires { length reached.now ≡ length ends.now }
    ensures { IsTrue result → AreReached (map end_view ends.now) reached.now }
{
    for index in 0..ends.len() {
        if reached[index] != ends[index].end {
            return false;
        }
    }
    true
}

/// How the end's stream stands to another one.
fn compare(end: &End, stream: &StreamRef<'_>) -> Ordering {
    end.source
        .as_str()
        .cmp(stream.source)
        .then(end.kind.as_str().cmp(stream.kind))
        .then(end.name.as_str().cmp(stream.name))
}
