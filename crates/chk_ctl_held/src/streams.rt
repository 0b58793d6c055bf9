//! The texts that name a stream.

ghost use Rattle.std.specs.Prelude.{◌≡◌};
ghost use Rattle.chk_chunk.specs.Keys.{same_stream, stream_lt};
ghost use Rattle.chk_chunk.specs.Lent.{lent_key};
ghost use Rattle.chk_book.specs.Views.{end_view};
ghost use Rattle.chk_ctl_held.specs.Streams.{stream_of};

use chk_book::End;
use chk_bytes::comes_before;
use chk_chunk::KeyRef;

/// The source, the type and the name of a stream.
#[derive(Clone, Copy)]
pub(crate) struct StreamRef<'a> {
    pub source: &'a str,
    pub kind: &'a str,
    pub name: &'a str,
}

impl<'a> StreamRef<'a> {
    /// That of a key.
    pub(crate) fn of_key(key: &KeyRef<'a>) -> StreamRef<'a>
        ensures { stream_of result ≡ (lent_key key.now).stream }
    {
        StreamRef {
            source: key.source,
            kind: key.kind,
            name: key.name,
        }
    }

    /// That of an end.
    pub(crate) fn of_end(end: &'a End) -> StreamRef<'a>
        ensures { stream_of result ≡ (end_view end.now).stream }
    {
        StreamRef {
            source: end.source.as_str(),
            kind: end.kind.as_str(),
            name: end.name.as_str(),
        }
    }

    /// It comes before the other one, in byte order of source, type and name.
    pub(crate) fn is_before(&self, other: &StreamRef<'_>) -> bool
        ensures { result ≡ stream_lt (stream_of self.now) (stream_of other.now) }
    {
        comes_before(self.source, other.source)
            || (self.source == other.source
                && (comes_before(self.kind, other.kind)
                    || (self.kind == other.kind && comes_before(self.name, other.name))))
    }

    /// It is the other one.
    pub(crate) fn is(&self, other: &StreamRef<'_>) -> bool
        ensures { result ≡ same_stream (stream_of self.now) (stream_of other.now) }
    {
        self.source == other.source && self.kind == other.kind && self.name == other.name
    }
}
