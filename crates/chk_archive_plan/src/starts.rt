//! Whether the heads of each stream have one start.

ghost use Rattle.std.specs.Prelude.{◌≡◌, ◌<◌, ◌-◌, List, length, nat_eq, IsTrue, IfSome, IfNone};
ghost use Rattle.chk_record_index.specs.Heads.{Head};
ghost use Rattle.chk_record_index.specs.Order.{in_head_order, lent_head};
ghost use Rattle.chk_archive_plan.specs.Passes.{head_in, AreSorted};
ghost use Rattle.chk_archive_plan.specs.Starts.{start_known, stream_start, IsOtherStart, HaveStarts};

use crate::spans::{Known, are_sorted, known_of};
use chk_record_index::{HeadRef, Heads};

/// The place of the first head, of heads in order, whose record has another start than its stream: than the one that is known
/// of it or, where none is known, than that of the stream's first head. It costs one pass over the heads, and for each stream a
/// search among those that are known; where these aren't sorted by source, type and name, all of them.
pub fn other_start(heads: &Heads, known: &[Known<'_>]) -> Option<usize>
    requires order { (found : List Head) × (heads.now ≡ in_head_order found) }
    ensures some { IfSome result (λ i. IsOtherStart known.now heads.now i) }
    ensures none { IfNone result (HaveStarts known.now heads.now) }
{
    let are_sorted = are_sorted(known);
    let mut start = 0;
    for index in 0..heads.len() {
        start = start_at(heads, known, are_sorted, index, start);
        if !starts_at(&heads.get(index), start) {
            return Some(index);
        }
    }
    None
}

/// The head has this start.
fn starts_at(head: &HeadRef<'_>, start: u64) -> bool
    ensures { result ≡ nat_eq (lent_head head.now).key.start start }
{
    head.key.start == start
}

/// The start of the stream of the head at `index`; `before` is that of the head in front of it, if there is one.
fn start_at(heads: &Heads, known: &[Known<'_>], are_sorted: bool, index: usize, before: u64) -> u64
    requires index { index < length heads.now }
    requires order { (found : List Head) × (heads.now ≡ in_head_order found) }
    requires sorted { IsTrue are_sorted → AreSorted known.now }
    requires before { 0 < index → before ≡ stream_start known.now heads.now (head_in heads.now (index - 1)).key.stream }
    ensures { result ≡ stream_start known.now heads.now (head_in heads.now index).key.stream }
{
    if index > 0 && heads.are_of_one(index - 1, index) {
        return before;
    }
    known_start(known, are_sorted, &heads.get(index))
}

/// The start of the head's stream: as it is known, or else the head's own.
fn known_start(known: &[Known<'_>], are_sorted: bool, head: &HeadRef<'_>) -> u64
    requires { IsTrue are_sorted → AreSorted known.now }
    ensures { result ≡ start_known (lent_head head.now).key.start known.now (lent_head head.now).key.stream }
{
    match known_of(known, are_sorted, head) {
        Some(one) => one.start,
        None => head.key.start,
    }
}
