//! The order of heads and ends.

ghost use Rattle.std.specs.Prelude.{◌≡◌};
ghost use Rattle.chk_chunk.specs.Keys.{stream_lt};
ghost use Rattle.chk_record_index.specs.Order.{lent_head};
ghost use Rattle.chk_book.specs.Views.{end_view};

use chk_book::End;
use chk_bytes::comes_before;
use chk_record_index::HeadRef;

/// The head's stream comes before the end's, in byte order of source, type and name.
pub(crate) fn is_head_before(head: &HeadRef<'_>, end: &End) -> bool
    ensures { result ≡ stream_lt (lent_head head.now).key.stream (end_view end.now).stream }
{
    comes_before(head.key.source, end.source.as_str())
        || (head.key.source == end.source.as_str()
            && (comes_before(head.key.kind, end.kind.as_str())
                || (head.key.kind == end.kind.as_str()
                    && comes_before(head.key.name, end.name.as_str()))))
}
