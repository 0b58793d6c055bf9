//! A stream's end among those of a book.

ghost use Rattle.std.specs.Prelude.{◌≡◌, true, map, option_map};
ghost use Rattle.chk_chunk.specs.Keys.{same_stream, stream_lt};
ghost use Rattle.chk_book.specs.Views.{end_view};
ghost use Rattle.chk_ctl_held.specs.Order.{end_of, EndsRise, IsEndPlace};
ghost use Rattle.chk_ctl_held.specs.Streams.{stream_of};

use crate::streams::StreamRef;
use chk_book::End;

/// No end's stream comes before that of the end in front of it, as in each book that is read.
pub(crate) fn ends_rise(ends: &[End]) -> bool
    ensures { result ≡ true → EndsRise ends.now }
{
    for i in 1..ends.len() {
        if ends[i].is_before(&ends[i - 1]) {
            return false;
        }
    }
    true
}

/// The first end of the stream. Among ends that rise it costs a search by halves.
pub(crate) fn end_of<'a>(ends: &'a [End], rising: bool, stream: &StreamRef<'_>) -> Option<&'a End>
    requires rises { rising ≡ true → EndsRise ends.now }
    ensures { option_map (λ e. end_view e.now) result
        ≡ end_of (stream_of stream.now) (map end_view ends.now) }
{
    if rising {
        return end_at(ends, place_of(ends, stream), stream);
    }
    first_of(ends, stream)
}

/// The end at this place, where ends that rise aren't before the stream any more, if it is its.
fn end_at<'a>(ends: &'a [End], at: usize, stream: &StreamRef<'_>) -> Option<&'a End>
    requires rises { EndsRise ends.now }
    requires place { IsEndPlace ends.now (stream_of stream.now) at }
    ensures { option_map (λ e. end_view e.now) result
        ≡ end_of (stream_of stream.now) (map end_view ends.now) }
{
    if at < ends.len() && is_of(&ends[at], stream) {
        return Some(&ends[at]);
    }
    None
}

/// Where the stream stands among ends that rise, or would stand.
fn place_of(ends: &[End], stream: &StreamRef<'_>) -> usize
    requires { EndsRise ends.now }
    ensures { IsEndPlace ends.now (stream_of stream.now) result }
{
    ends.partition_point(|end| is_before(end, stream))
}

/// The first end of the stream, among any.
fn first_of<'a>(ends: &'a [End], stream: &StreamRef<'_>) -> Option<&'a End>
    ensures { option_map (λ e. end_view e.now) result
        ≡ end_of (stream_of stream.now) (map end_view ends.now) }
{
    for end in ends {
        if is_of(end, stream) {
            return Some(end);
        }
    }
    None
}

/// The end's stream comes before this one.
fn is_before(end: &End, stream: &StreamRef<'_>) -> bool
    ensures { result ≡ stream_lt (end_view end.now).stream (stream_of stream.now) }
{
    StreamRef::of_end(end).is_before(stream)
}

/// The end is the stream's.
fn is_of(end: &End, stream: &StreamRef<'_>) -> bool
    ensures { result ≡ same_stream (stream_of stream.now) (end_view end.now).stream }
{
    stream.is(&StreamRef::of_end(end))
}
