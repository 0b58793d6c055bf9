//! Where a stream's heads stand among heads in order.

ghost use Rattle.std.specs.Prelude.{◌≡◌, ◌<◌, length};
ghost use Rattle.chk_chunk.specs.Keys.{same_stream, stream_lt};
ghost use Rattle.chk_ctl_held.specs.Order.{stream_in, IsPlaceOf, StreamsRise};
ghost use Rattle.chk_ctl_held.specs.Streams.{stream_of};

use crate::streams::StreamRef;
use chk_record_index::Heads;

/// The place of the first head whose stream doesn't come before this one, by halves.
pub(crate) fn place_in(heads: &Heads, stream: &StreamRef<'_>) -> usize
    requires { StreamsRise heads.now }
    ensures { IsPlaceOf heads.now (stream_of stream.now) result }
{
    let mut low = 0;
    let mut high = heads.len();
    while low < high {
        let middle = low + (high - low) / 2;
        if is_before(heads, middle, stream) {
            low = middle + 1;
        } else {
            high = middle;
        }
    }
    low
}

/// The stream of the head at this place comes before this one.
fn is_before(heads: &Heads, index: usize, stream: &StreamRef<'_>) -> bool
    requires { index < length heads.now }
    ensures { result ≡ stream_lt (stream_in heads.now index) (stream_of stream.now) }
{
    StreamRef::of_key(&heads.get(index).key).is_before(stream)
}

/// The head at this place is of the stream.
pub(crate) fn is_of(heads: &Heads, index: usize, stream: &StreamRef<'_>) -> bool
    requires { index < length heads.now }
    ensures { result ≡ same_stream (stream_of stream.now) (stream_in heads.now index) }
{
    stream.is(&StreamRef::of_key(&heads.get(index).key))
}
