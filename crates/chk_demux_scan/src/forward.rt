//! Streams' records in one file, followed from its first one on, with two offsets a stream.

ghost use Rattle.std.specs.Prelude.{◌≡◌, ◌<◌, ◌++◌, ◌∷◌, [], ℕ, List, length, map, slice_index, true, IsTrue, IsFalse, IfOk, IfSome, IfNone};
ghost use Rattle.chk_world.specs.Books.{ends_rise};
ghost use Rattle.chk_record_index.specs.Heads.{Head};
ghost use Rattle.chk_record_index.specs.Order.{lent_head};
ghost use Rattle.chk_book.specs.Views.{end_view};
ghost use Rattle.chk_record_reader.specs.Courses.{is_end_of};
ghost use Rattle.chk_record_reader.specs.OnePass.{end_at};
ghost use Rattle.chk_demux_scan.specs.Backward.{AllRunBack, AreBegins};
ghost use Rattle.chk_demux_scan.specs.Forward.{follows, AreSpans, IsBroken, NextSpan, JoinsSpan, LeavesSpan};

use crate::backward::place_of;
use chk_book::End;
use chk_bytes::NoMemory;
use chk_record_index::HeadRef;
use std::alloc::Global;

/// Where a stream's records in a file begin, and where they end so far. Without any both are alike:
/// a record has a byte at least.
#[derive(Clone, Copy, Debug, PartialEq, Eq)]
pub(crate) struct Span {
    pub first: u64,
    pub next: u64,
}

/// No records of any of these streams.
pub(crate) fn no_spans(alloc: Global, ends: &[End]) -> Result<Vec<Span>, NoMemory>
    ensures { IfOk result (λ spans. (length spans.items ≡ length ends.now)
        × AreSpans (map end_view ends.now) [] spans.items) }
{
    let spans = ends
        .iter()
        .map(|_| Span { first: 0, next: 0 })
        .collect(alloc)?;
    Ok(spans)
}

/// Takes a head as the next one of its stream in the file, and says where the stream stands among
/// the ends; `None` where it isn't so. It costs a search among the streams.
pub(crate) fn take_next_head(
    ends: &[End],
    spans: &mut Vec<Span>,
    head: &HeadRef<'_>,
) -> Option<usize>
    requires same { length spans.old.items ≡ length ends.now }
    requires some { head.now.begin < head.now.key.seq }
    ensures same { length spans.new.items ≡ length ends.now }
    ensures within { IfSome result (λ k. k < length ends.now) }
    ensures found { IfSome result (λ k. is_end_of (lent_head head.now).key.stream
        (end_at (map end_view ends.now) k) ≡ true) }
    ensures took { IfSome result (λ k. IsTrue (ends_rise (map end_view ends.now))
        → (seen : List Head) → AreSpans (map end_view ends.now) seen spans.old.items
        → AreSpans (map end_view ends.now) (seen ++ lent_head head.now ∷ []) spans.new.items) }
    ensures none { IfNone result (IsTrue (ends_rise (map end_view ends.now))
        → (seen : List Head) → AreSpans (map end_view ends.now) seen spans.old.items
        → IsBroken (map end_view ends.now) (seen ++ lent_head head.now ∷ [])) }
{
    let Some(place) = place_of(ends, head) else {
        return None;
    };
    let span = spans[place];
    if !follows(&ends[place], &span, head) {
        return None;
    }
    spans[place] = next_span(&span, head);
    Some(place)
}

/// The span with one record more.
fn next_span(span: &Span, head: &HeadRef<'_>) -> Span
    ensures { NextSpan span.now (lent_head head.now) result }
{
    if span.first == span.next {
        return Span {
            first: head.begin,
            next: head.key.seq,
        };
    }
    Span {
        first: span.first,
        next: head.key.seq,
    }
}

/// The head has the stream's start, doesn't end past its end in the book, and begins where the
/// stream's earlier records in the file end, if there are any.
fn follows(end: &End, span: &Span, head: &HeadRef<'_>) -> bool
    ensures { result ≡ follows (end_view end.now) span.now (lent_head head.now) }
{
    head.key.start == end.start
        && head.key.seq <= end.end
        && (span.first == span.next || span.next == head.begin)
}

/// Puts a file's records in front of the later ones: where each stream's end where those begin, its
/// begin is theirs, and else the answer is `false`. It costs a pass over the streams.
pub(crate) fn join_spans(ends: &[End], spans: &[Span], begins: &mut Vec<u64>) -> bool
    requires spans { length spans.now ≡ length ends.now }
    requires begins { length begins.old.items ≡ length ends.now }
    ensures same { length begins.new.items ≡ length ends.now }
    ensures took { IsTrue result → IsTrue (ends_rise (map end_view ends.now))
        → (seen later : List Head) → AreSpans (map end_view ends.now) seen spans.now
        → AreBegins (map end_view ends.now) later begins.old.items
        → AreBegins (map end_view ends.now) (seen ++ later) begins.new.items }
    ensures not { IsFalse result → IsTrue (ends_rise (map end_view ends.now))
        → (front seen later : List Head) → AreSpans (map end_view ends.now) seen spans.now
        → AreBegins (map end_view ends.now) later begins.old.items
        → AllRunBack (map end_view ends.now) (front ++ (seen ++ later)) → ⊥ }
{
    for index in 0..ends.len() {
        if !join_span(&spans[index], &mut begins[index]) {
            return false;
        }
    }
    true
}

/// Makes the begin that of the span, where it has records; `false` where these end elsewhere.
fn join_span(span: &Span, begin: &mut u64) -> bool
    ensures yes { IsTrue result → JoinsSpan span.now begin.old begin.new }
    ensures no { IsFalse result → LeavesSpan span.now begin.old }
{
    if span.first == span.next {
        return true;
    }
    if span.next != *begin {
        return false;
    }
    *begin = span.first;
    true
}
