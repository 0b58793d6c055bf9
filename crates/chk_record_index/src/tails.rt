//! What stands behind the sequence id in a key: compared with a chunk's texts.

ghost use Rattle.std.specs.Prelude.{◌≡◌, ◌↔◌, ◌<◌, ◌^◌, length, IsTrue};
ghost use Rattle.chk_chunk.specs.Keys.{is_key, counted, counted_stream};
ghost use Rattle.chk_chunk.specs.Lent.{lent_chunk};
ghost use Rattle.chk_record_index.specs.LastKeys.{key_version, key_tail};
ghost use Rattle.chk_record_index.specs.Passing.{Passes};

use chk_chunk::ChunkRef;

/// The version in which the chunk's key is written.
pub(crate) fn version_of(chunk: &ChunkRef<'_>) -> u8
    ensures { result ≡ key_version (lent_chunk chunk.now).key }
{
    if chunk.start == 0 && chunk.cluster == "none" {
        1
    } else {
        2
    }
}

/// The bytes are what stands behind the sequence id in the chunk's key.
pub(crate) fn is_tail(bytes: &[u8], chunk: &ChunkRef<'_>) -> bool
    requires { IsTrue (is_key (lent_chunk chunk.now).key) }
    ensures { IsTrue result ↔ (bytes.now ≡ key_tail (lent_chunk chunk.now).key) }
{
    match behind_tail(bytes, chunk) {
        Some(rest) => rest.is_empty(),
        None => false,
    }
}

/// What stands behind that, where the bytes begin with it.
fn behind_tail<'a>(bytes: &'a [u8], chunk: &ChunkRef<'_>) -> Option<&'a [u8]>
    requires { IsTrue (is_key (lent_chunk chunk.now).key) }
    ensures { Passes (key_tail (lent_chunk chunk.now).key) bytes.now result }
{
    if version_of(chunk) == 1 {
        return behind_stream(bytes, chunk);
    }
    let stream = bytes.strip_prefix(&chunk.start.to_be_bytes())?;
    behind_text(behind_stream(stream, chunk)?, chunk.cluster)
}

/// What stands behind the three texts of the chunk's stream, where the bytes begin with them.
fn behind_stream<'a>(bytes: &'a [u8], chunk: &ChunkRef<'_>) -> Option<&'a [u8]>
    requires { IsTrue (is_key (lent_chunk chunk.now).key) }
    ensures { Passes (counted_stream (lent_chunk chunk.now).key.stream) bytes.now result }
{
    let kind = behind_text(bytes, chunk.source)?;
    let name = behind_text(kind, chunk.kind)?;
    behind_text(name, chunk.name)
}

/// What stands behind a text, where the bytes begin with its length and it.
fn behind_text<'a>(bytes: &'a [u8], text: &str) -> Option<&'a [u8]>
    requires { length text.now < 2 ^ 16 }
    ensures { Passes (counted text.now) bytes.now result }
{
    let size = (text.len() as u16).to_be_bytes();
    bytes.strip_prefix(&size)?.strip_prefix(text.as_bytes())
}
