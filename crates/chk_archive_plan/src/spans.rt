//! The pass over heads that stand in order.

ghost use Rattle.std.specs.Prelude.{◌≡◌, ◌≤◌, ◌<◌, ◌^◌, ℕ, length, sum_by, IsTrue, IsFalse, IfOk, IfSome, IfNone, Some, None};
ghost use Rattle.chk_chunk.specs.Keys.{same_stream, stream_lt};
ghost use Rattle.chk_record_index.specs.Order.{lent_head, of_one_stream};
ghost use Rattle.chk_archive_plan.specs.Passes.{between, pass_end, pass_past, begins_at, known_of, head_in, known_stream, AreSorted, IsSpan, AreSpans};
ghost use Rattle.chk_archive_plan.specs.Laws.{span_gain};

use chk_bytes::{NoMemory, comes_before};
use chk_record_index::{HeadRef, Heads};
use std::alloc::Global;

/// The heads of one stream, and how far a pass over them reaches.
#[derive(Clone, Copy, Debug, PartialEq, Eq)]
pub struct Span {
    /// The place of its first head.
    pub first: usize,
    /// The place of the first one that begins past the end that is reached; `end` where none does.
    pub past: usize,
    /// The place past its last head.
    pub end: usize,
    /// The end of the stream's archive before.
    pub from: u64,
    /// The end that is reached.
    pub reached: u64,
}

/// Where a stream's archive starts and ends.
#[derive(Clone, Copy, Debug)]
pub struct Known<'a> {
    pub source: &'a str,
    pub kind: &'a str,
    pub name: &'a str,
    pub start: u64,
    pub end: u64,
}

impl Known<'_> {
    /// Both are of one stream.
    fn is_with(&self, other: &Known<'_>) -> bool
        ensures { result ≡ same_stream (known_stream self.now) (known_stream other.now) }
    {
        self.source == other.source && self.kind == other.kind && self.name == other.name
    }

    /// Its stream comes before the other one.
    fn is_before(&self, other: &Known<'_>) -> bool
        ensures { result ≡ stream_lt (known_stream self.now) (known_stream other.now) }
    {
        comes_before(self.source, other.source)
            || (self.source == other.source
                && (comes_before(self.kind, other.kind)
                    || (self.kind == other.kind && comes_before(self.name, other.name))))
    }
}

/// Goes over heads that stand in order, once, and gives a span for each stream. A stream that isn't known begins at the start
/// that its first head names. It costs the heads, and for each stream a search among those that are known; where these aren't
/// sorted by source, type and name, all of them.
pub fn plan(alloc: Global, heads: &Heads, known: &[Known<'_>]) -> Result<Vec<Span>, NoMemory>
    ensures { IfOk result (λ spans. AreSpans known.now heads.now 0 spans.items (length heads.now)) }
{
    let mut spans = Vec::new(alloc);
    let mut first = 0;
    let are_sorted = are_sorted(known);
    while first < heads.len() {
        let span = span_at(heads, first, known, are_sorted);
        first = span.end;
        spans.push(span)?;
    }
    Ok(spans)
}

/// How many bytes the passes take in all, where 64 bits hold that.
pub fn taken(spans: &[Span]) -> Option<u64>
    ensures some { IfSome result (λ n. n ≡ sum_by span_gain spans.now) }
    ensures none { result ≡ None → 2 ^ 64 ≤ sum_by span_gain spans.now }
{
    let mut sum: u64 = 0;
    for span in spans {
        sum = sum.checked_add(span.reached.saturating_sub(span.from))?;
    }
    Some(sum)
}

/// The span that begins there.
fn span_at(heads: &Heads, first: usize, known: &[Known<'_>], are_sorted: bool) -> Span
    requires first { first < length heads.now }
    requires sorted { IsTrue are_sorted → AreSorted known.now }
    ensures first { result.first ≡ first }
    ensures span { IsSpan known.now heads.now result }
{
    let end = span_end(heads, first);
    let from = begins_at(known, are_sorted, &heads.get(first));
    pass(heads, first, end, from)
}

/// The place past the heads that stand from `first` on and are of the stream of the head there. It
/// costs a comparison a head.
pub fn span_end(heads: &Heads, first: usize) -> usize
    requires { first < length heads.now }
    ensures beyond { first < result }
    ensures within { result ≤ length heads.now }
    ensures one { (k : ℕ) → first ≤ k → k < result
        → IsTrue (of_one_stream (head_in heads.now first) (head_in heads.now k)) }
    ensures next { result < length heads.now
        → IsFalse (of_one_stream (head_in heads.now first) (head_in heads.now result)) }
{
    let len = heads.len();
    for i in first + 1..len {
        if !heads.are_of_one(first, i) {
            return i;
        }
    }
    len
}

/// Where the archive of the head's stream ends. It costs a search where the known streams are sorted, and else all of them.
fn begins_at(known: &[Known<'_>], are_sorted: bool, head: &HeadRef<'_>) -> u64
    requires { IsTrue are_sorted → AreSorted known.now }
    ensures { result ≡ begins_at known.now (lent_head head.now) }
{
    match known_of(known, are_sorted, head) {
        Some(one) => one.end,
        None => head.key.start,
    }
}

/// The known streams stand in byte order of source, type and name.
pub(crate) fn are_sorted(known: &[Known<'_>]) -> bool
    ensures { IsTrue result → AreSorted known.now }
{
    known.is_sorted_by(|one, next| !next.is_before(one))
}

/// What is known of the head's stream. It costs a search where the known streams are sorted, and else all of them.
pub(crate) fn known_of<'k, 'a>(
    known: &'k [Known<'a>],
    are_sorted: bool,
    head: &HeadRef<'_>,
) -> Option<&'k Known<'a>>
    requires { IsTrue are_sorted → AreSorted known.now }
    ensures some { IfSome result (λ k. known_of known.now (lent_head head.now).key.stream ≡ Some k.now) }
    ensures none { IfNone result (known_of known.now (lent_head head.now).key.stream ≡ None) }
{
    if are_sorted {
        searched(known, head)
    } else {
        gone_through(known, head)
    }
}

/// What is known of the head's stream, by a search among sorted streams.
fn searched<'k, 'a>(known: &'k [Known<'a>], head: &HeadRef<'_>) -> Option<&'k Known<'a>>
    requires { AreSorted known.now }
    ensures some { IfSome result (λ k. known_of known.now (lent_head head.now).key.stream ≡ Some k.now) }
    ensures none { IfNone result (known_of known.now (lent_head head.now).key.stream ≡ None) }
{
    let of = Known {
        source: head.key.source,
        kind: head.key.kind,
        name: head.key.name,
        start: head.key.start,
        end: head.key.start,
    };
    let at = known.partition_point(|one| one.is_before(&of));
    if at < known.len() && known[at].is_with(&of) {
        return Some(&known[at]);
    }
    None
}

/// What is known of the head's stream, by going through the streams.
fn gone_through<'k, 'a>(known: &'k [Known<'a>], head: &HeadRef<'_>) -> Option<&'k Known<'a>>
    ensures some { IfSome result (λ k. known_of known.now (lent_head head.now).key.stream ≡ Some k.now) }
    ensures none { IfNone result (known_of known.now (lent_head head.now).key.stream ≡ None) }
{
    for one in known {
        if one.source == head.key.source && one.kind == head.key.kind && one.name == head.key.name {
            return Some(one);
        }
    }
    None
}

/// Goes over the heads of one stream from the end before on.
fn pass(heads: &Heads, first: usize, end: usize, from: u64) -> Span
    requires first { first < end }
    requires end { end ≤ length heads.now }
    ensures from { (result.first ≡ first) × (result.end ≡ end) × (result.from ≡ from) }
    ensures range { (first ≤ result.past) × (result.past ≤ end) }
    ensures reached { result.reached ≡ pass_end from (between first end heads.now) }
    ensures past { between result.past end heads.now ≡ pass_past from (between first end heads.now) }
{
    let mut reached = from;
    for past in first..end {
        let head = heads.get(past);
        if head.begin <= reached && reached < head.key.seq {
            reached = head.key.seq;
        } else if reached < head.begin {
            return Span {
                first,
                past,
                end,
                from,
                reached,
            };
        }
    }
    Span {
        first,
        past: end,
        end,
        from,
        reached,
    }
}
