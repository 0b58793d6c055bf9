//! Whether the records of streams go on from each other.

ghost use Rattle.std.specs.Prelude.{◌≡◌, is_some, map, IfSome, IfNone, Some, None};
ghost use Rattle.chk_book.specs.Views.{end_view};
ghost use Rattle.chk_record_index.specs.Order.{lent_head};
ghost use Rattle.chk_record_reader.specs.Courses.{is_head_of, is_end_of, goes_on, end_of, IsBreakBy};
ghost use Rattle.chk_record_reader.specs.Streams.{stream_of};

use chk_book::End;
use chk_record_index::{HeadRef, Heads};

/// A stream, by its texts.
#[derive(Clone, Copy)]
pub(crate) struct StreamRef<'a> {
    pub source: &'a str,
    pub kind: &'a str,
    pub name: &'a str,
}

impl StreamRef<'_> {
    /// The head is of this stream.
    pub(crate) fn has(&self, head: &HeadRef<'_>) -> bool
        ensures { result ≡ is_head_of (stream_of self.now) (lent_head head.now) }
    {
        self.source == head.key.source && self.kind == head.key.kind && self.name == head.key.name
    }

    /// The end is that of this stream.
    pub(crate) fn ends_in(&self, end: &End) -> bool
        ensures { result ≡ is_end_of (stream_of self.now) (end_view end.now) }
    {
        self.source == end.source.as_str()
            && self.kind == end.kind.as_str()
            && self.name == end.name.as_str()
    }
}

/// The head is of the end's stream.
pub fn is_of(end: &End, head: &HeadRef<'_>) -> bool
    ensures { result ≡ is_head_of (end_view end.now).stream (lent_head head.now) }
{
    end.name.as_str() == head.key.name
        && end.source.as_str() == head.key.source
        && end.kind.as_str() == head.key.kind
}

/// What is wrong with the records of a stream.
#[derive(Clone, Copy)]
pub(crate) enum Break {
    /// The head at this place doesn't go on from the stream's earlier ones.
    Head(usize),
    /// They don't reach the stream's end.
    End,
}

/// What is wrong with the records of a stream, of which heads are given in the order of their
/// reading. It costs the heads.
pub(crate) fn stream_break(ends: &[End], stream: &StreamRef<'_>, heads: &Heads) -> Option<Break>
    ensures { IsBreakBy (stream_of stream.now) (end_of (stream_of stream.now)
        (map end_view ends.now)) heads.now result }
{
    match end_of(ends, stream) {
        Some(end) => course_break(end, stream, heads),
        None => first_head(stream, heads),
    }
}

/// The first end of a stream, if there is one.
fn end_of<'a>(ends: &'a [End], stream: &StreamRef<'_>) -> Option<&'a End>
    ensures some { IfSome result (λ end. end_of (stream_of stream.now) (map end_view ends.now)
        ≡ Some (end_view end.now)) }
    ensures none { IfNone result (end_of (stream_of stream.now) (map end_view ends.now) ≡ None) }
{
    for end in ends {
        if stream.ends_in(end) {
            return Some(end);
        }
    }
    None
}

/// Whether the stream is in the book.
pub(crate) fn is_listed(ends: &[End], stream: &StreamRef<'_>) -> bool
    ensures { result ≡ is_some (end_of (stream_of stream.now) (map end_view ends.now)) }
{
    end_of(ends, stream).is_some()
}

/// What is wrong with the records of a stream that ends so.
fn course_break(end: &End, stream: &StreamRef<'_>, heads: &Heads) -> Option<Break>
    ensures { IsBreakBy (stream_of stream.now) (Some (end_view end.now)) heads.now result }
{
    let mut reached = end.start;
    for index in 0..heads.len() {
        let head = heads.get(index);
        if stream.has(&head) {
            if !goes_on(end, reached, &head) {
                return Some(Break::Head(index));
            }
            reached = head.key.seq;
        }
    }
    if reached == end.end {
        None
    } else {
        Some(Break::End)
    }
}

/// The head goes on where its stream's records end so far, and not past the stream's end.
pub(crate) fn goes_on(end: &End, reached: u64, head: &HeadRef<'_>) -> bool
    ensures { result ≡ goes_on (end_view end.now) reached (lent_head head.now) }
{
    head.key.start == end.start && head.begin == reached && head.key.seq <= end.end
}

/// The first head of a stream that isn't in the book.
fn first_head(stream: &StreamRef<'_>, heads: &Heads) -> Option<Break>
    ensures { IsBreakBy (stream_of stream.now) None heads.now result }
{
    for index in 0..heads.len() {
        if stream.has(&heads.get(index)) {
            return Some(Break::Head(index));
        }
    }
    None
}
