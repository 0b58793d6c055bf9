//! Where a stream's heads stand among heads in order.

ghost use Rattle.std.specs.Prelude.{◌≡◌, ◌<◌, ◌≤◌, ◌-◌, true, false, length, IsTrue, IsFalse};
ghost use Rattle.chk_record_index.specs.Order.{lent_head};
ghost use Rattle.chk_record_reader.specs.Courses.{is_head_of};
ghost use Rattle.chk_book.specs.Views.{end_view};
ghost use Rattle.chk_demux.specs.Splitting.{StreamsRise, HoldsStream, FirstStands};

use chk_archive_plan::span_end;
use chk_book::End;
use chk_record_index::Heads;
use chk_record_reader::is_of;

/// Heads that stand together.
#[derive(Clone, Copy)]
pub(crate) struct Block {
    /// The place of the first one.
    pub first: usize,
    /// The place past the last one.
    pub end: usize,
}

/// The block of all heads of the end's stream, where the first one of these stands at `next`, which then moves past them; else that
/// of all heads. It costs the stream's heads, and where these don't stand there two of all.
pub(crate) fn block_of(heads: &Heads, end: &End, next: &mut usize) -> Block
    ensures within { (result.first ≤ result.end) × (result.end ≤ length heads.now) }
    ensures holds { StreamsRise heads.now → HoldsStream heads.now (end_view end.now).stream result.first result.end }
{
    if !begins_at(heads, end, *next) {
        return Block {
            first: 0,
            end: heads.len(),
        };
    }
    let first = *next;
    let past = span_end(heads, first);
    *next = past;
    Block { first, end: past }
}

/// Whether a head of the end's stream stands at this place, and none right before it.
fn begins_at(heads: &Heads, end: &End, at: usize) -> bool
    ensures { result ≡ true → FirstStands heads.now (end_view end.now).stream at }
{
    if at >= heads.len() || !is_of(end, &heads.get(at)) {
        return false;
    }
    at == 0 || !is_of(end, &heads.get(at - 1))
}
