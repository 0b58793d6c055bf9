//! Where a stream's heads stand among heads in order.

ghost use Rattle.std.specs.Prelude.{◌≡◌, ◌≤◌, true, length};
ghost use Rattle.chk_chunk.specs.Keys.{stream_lt};
ghost use Rattle.chk_record_index.specs.Order.{lent_head};
ghost use Rattle.chk_book.specs.Views.{end_view};
ghost use Rattle.chk_join_sources.specs.Blocks.{StreamsRise, IsPlaceOf, StandsAt, AllOf, EndsAt, HoldsStream};

use crate::streams::is_head_before;
use chk_book::End;
use chk_record_index::Heads;
use chk_record_reader::is_of;

/// Heads that stand together.
#[derive(Clone, Copy)]
pub struct Block {
    /// The place of the first one.
    pub first: usize,
    /// The place past the last one.
    pub end: usize,
}

/// The block of the heads of the end's stream among heads in order. The stream's place is looked for at `next`, and else from the
/// first head on; `next` then moves past the block. So streams in order cost one pass over the heads.
pub fn block_of(heads: &Heads, end: &End, next: &mut usize) -> Block
    ensures within { (result.first ≤ result.end) × (result.end ≤ length heads.now) }
    ensures all { AllOf heads.now (end_view end.now).stream result.first result.end }
    ensures holds { StreamsRise heads.now → HoldsStream heads.now (end_view end.now).stream result.first result.end }
{
    let first = place_of(heads, end, *next);
    let past = past_last(heads, end, first);
    *next = past;
    Block { first, end: past }
}

/// The place in front of which the heads' streams come before the end's, and behind which they don't: `near`, if that is one.
fn place_of(heads: &Heads, end: &End, near: usize) -> usize
    ensures within { result ≤ length heads.now }
    ensures is { StreamsRise heads.now → IsPlaceOf heads.now (end_view end.now).stream result }
{
    if is_place(heads, end, near) {
        return near;
    }
    let len = heads.len();
    for i in 0..len {
        if !is_head_before(&heads.get(i), end) {
            return i;
        }
    }
    len
}

/// The stream of the head in front of this place comes before the end's, and that of the head there doesn't, as far as there are
/// such heads.
fn is_place(heads: &Heads, end: &End, at: usize) -> bool
    ensures { result ≡ true → StandsAt heads.now (end_view end.now).stream at }
{
    let len = heads.len();
    if at > len {
        return false;
    }
    if at < len && is_head_before(&heads.get(at), end) {
        return false;
    }
    at == 0 || is_head_before(&heads.get(at - 1), end)
}

/// The place past the heads that stand together from `first` on and are of the end's stream.
fn past_last(heads: &Heads, end: &End, first: usize) -> usize
    requires { first ≤ length heads.now }
    ensures within { (first ≤ result) × (result ≤ length heads.now) }
    ensures all { AllOf heads.now (end_view end.now).stream first result }
    ensures next { EndsAt heads.now (end_view end.now).stream result }
{
    let len = heads.len();
    for i in first..len {
        if !is_of(end, &heads.get(i)) {
            return i;
        }
    }
    len
}
