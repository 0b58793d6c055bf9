//! The key of the record that is written, and the end that it gives its stream.

ghost use Rattle.std.specs.Prelude.{◌≡◌, List, map, IsTrue, OnOk};
ghost use Rattle.chk_chunk.specs.Keys.{is_key, written_key};
ghost use Rattle.chk_chunk.specs.Lent.{lent_chunk};
ghost use Rattle.chk_world.specs.Books.{End as BookEnd};
ghost use Rattle.chk_book.specs.Views.{end_view};
ghost use Rattle.chk_book.specs.Segmenting.{end_of, raised_end, raised_by};
ghost use Rattle.chk_book.specs.Recent.{IsRecent};

use crate::lists::Ends;
use chk_bytes::NoMemory;
use chk_chunk::ChunkRef;
use chk_record_index::{LastKey, Written};
use std::alloc::Global;

/// Makes the key the chunk's, and notes the end that the chunk gives its stream. Where the key is written over the last one, that
/// is the last end. Without memory for the end there is no key.
pub(crate) fn note(
    key: &mut LastKey,
    ends: &mut Ends,
    alloc: Global,
    chunk: &ChunkRef<'_>,
) -> Result<(), NoMemory>
    requires key { IsTrue (is_key (lent_chunk chunk.now).key) }
    requires recent { IsRecent key.old ends.old }
    ensures key { OnOk result (key.new ≡ written_key (lent_chunk chunk.now).key) }
    ensures ends { OnOk result ((es : List BookEnd) →
        raised_by (map end_view ends.new) es
        ≡ raised_end (end_of (lent_chunk chunk.now)) (raised_by (map end_view ends.old) es)) }
    ensures recent { IsRecent key.new ends.new }
{
    match key.write(chunk)? {
        Written::Over => {
            ends.raise_last(chunk);
            Ok(())
        }
        Written::Anew => match ends.note(alloc, chunk) {
            Ok(()) => Ok(()),
            Err(fault) => {
                key.clear();
                Err(fault)
            }
        },
    }
}
