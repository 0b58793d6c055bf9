//! Chunks that a segment can hold.

ghost use Rattle.std.specs.Prelude.{◌≡◌, ◌≤◌, IsTrue};
ghost use Rattle.chk_bytes.specs.Words.{is_word};
ghost use Rattle.chk_chunk.specs.Keys.{is_key, has_value};
ghost use Rattle.chk_chunk.specs.Lent.{lent_chunk, lent_key};
ghost use Rattle.chk_record_reader.specs.Merging.{chunk_with};

use chk_bytes::word_fault;
use chk_chunk::{ChunkRef, KeyRef};

/// The chunk of a key and a value.
pub(crate) fn chunk_of<'a>(key: KeyRef<'a>, body: &'a [u8]) -> ChunkRef<'a>
    ensures { lent_chunk result ≡ chunk_with (lent_key key.entry) body.now }
{
    ChunkRef {
        source: key.source,
        kind: key.kind,
        name: key.name,
        start: key.start,
        cluster: key.cluster,
        seq: key.seq,
        body,
    }
}

/// Whether a segment can hold the chunk, whose value may have so many bytes.
pub(crate) fn is_part(chunk: &ChunkRef<'_>, most: u32) -> bool
    ensures key { IsTrue result → IsTrue (is_key (lent_chunk chunk.now).key) }
    ensures value { IsTrue result → IsTrue (has_value most (lent_chunk chunk.now).key (lent_chunk chunk.now).value) }
{
    has_key(chunk) && has_value(chunk, most)
}

/// Whether its key can be spelled.
fn has_key(chunk: &ChunkRef<'_>) -> bool
    ensures { IsTrue result → IsTrue (is_key (lent_chunk chunk.now).key) }
{
    is_word(chunk.source)
        && is_word(chunk.kind)
        && is_word(chunk.name)
        && is_word(chunk.cluster)
        && chunk.start < 1 << 62
        && chunk.start < chunk.seq
        && chunk.seq < 1 << 63
}

/// Whether its value has a byte, at most so many, and doesn't begin before the stream's start.
fn has_value(chunk: &ChunkRef<'_>, most: u32) -> bool
    requires { IsTrue (is_key (lent_chunk chunk.now).key) }
    ensures { result ≡ has_value most (lent_chunk chunk.now).key (lent_chunk chunk.now).value }
{
    let size = chunk.body.len() as u64;
    size > 0 && size <= u64::from(most) && chunk.start + size <= chunk.seq
}

/// Whether the text is a word.
fn is_word(text: &str) -> bool
    ensures { IsTrue result → IsTrue (is_word text.now) }
{
    match word_fault(text.as_bytes()) {
        None => true,
        Some(_) => false,
    }
}
