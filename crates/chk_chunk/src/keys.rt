//! Keys.

ghost use Rattle.std.specs.Prelude.{◌≡◌, ◌<◌, ◌≤◌, ◌^◌, ◌+◌, ◌++◌, ◌∷◌, take, length, IsTrue};
ghost use Rattle.std.specs.Prelude.{OnOk, OnErr, IfOk, IfErr, IsOkAnd, Some, None};
ghost use Rattle.chk_bytes.specs.Numbers.{be64, spelled_at};
ghost use Rattle.chk_chunk.specs.Keys.{Key, IsKey, is_key, has_words, is_stream, fits_1, counted};
ghost use Rattle.chk_chunk.specs.Keys.{counted_stream, key_1, key_2, written_key, guessed_1};
ghost use Rattle.chk_chunk.specs.Keys.{guessed_2, guessed_key};
ghost use Rattle.chk_chunk.specs.Faults.{head_fault, rest_1_fault, rest_2_fault, key_fault};
ghost use Rattle.chk_chunk.specs.Fields.{IsHeadAt};
ghost use Rattle.chk_chunk.specs.Lent.{lent_key, lent_chunk};

use crate::fields::{end_at, stream_at, text_at, u8_at, u64_at};
use crate::{ChunkFault, ChunkRef, KeyRef};
use chk_bytes::{Bytes, NoMemory, put_u16, put_u64};

/// The key that the bytes are, in either version. It takes no memory, and reads each byte of a
/// text twice.
pub fn read_key(bytes: &[u8]) -> Result<KeyRef<'_>, ChunkFault>
    ensures key { IfOk result (λ key. IsKey (lent_key key) bytes.now) }
    ensures every_key { (k : Key) → IsKey k bytes.now → IsOkAnd result (λ key. lent_key key ≡ k) }
    ensures fault { IfErr result (λ fault. key_fault 0 bytes.now ≡ Some fault) }
{
    key_at(bytes, 0)
}

// The key that begins at `at` and ends where the bytes do.
#[tactic(auto, unfolding(crate::specs::Faults::key_fault, crate::specs::Faults::first_fault, crate::specs::Keys::guessed_key))]
pub(crate) fn key_at(bytes: &[u8], at: usize) -> Result<KeyRef<'_>, ChunkFault>
    ensures fault { IfErr result (λ fault. key_fault at bytes.now ≡ Some fault) }
    ensures fine { IfOk result (λ _. key_fault at bytes.now ≡ None) }
    ensures key { IfOk result (λ key. lent_key key ≡ guessed_key at bytes.now) }
{
    let (version, seq) = head_at(bytes, at)?;
    if version == 1 {
        key_1_at(bytes, at, seq)
    } else {
        key_2_at(bytes, at, seq)
    }
}

// The version, which is 1 or 2, and the sequence id of the key that begins at `at`.
#[tactic(auto, unfolding(crate::specs::Faults::head_fault, crate::specs::Faults::first_fault, crate::specs::Faults::fault_if))]
fn head_at(bytes: &[u8], at: usize) -> Result<(u8, u64), ChunkFault>
    ensures fault { IfErr result (λ fault. head_fault at bytes.now ≡ Some fault) }
    ensures head { IfOk result (λ found. IsHeadAt at bytes.now found.0 found.1) }
{
    let version = u8_at(bytes, at)?;
    if version != 1 && version != 2 {
        return Err(ChunkFault::Version { found: version });
    }
    let seq = u64_at(bytes, at + 1)?;
    if seq >= 1 << 63 {
        return Err(ChunkFault::TooHigh { seq });
    }
    Ok((version, seq))
}

#[tactic(auto, unfolding(crate::specs::Faults::rest_1_fault, crate::specs::Faults::first_fault, crate::specs::Faults::fault_if))]
fn key_1_at(bytes: &[u8], at: usize, seq: u64) -> Result<KeyRef<'_>, ChunkFault>
    requires within { at + 9 ≤ length bytes.now }
    requires seq { seq ≡ spelled_at (at + 1) 8 bytes.now }
    ensures fault { IfErr result (λ fault. rest_1_fault at bytes.now ≡ Some fault) }
    ensures fine { IfOk result (λ _. rest_1_fault at bytes.now ≡ None) }
    ensures key { IfOk result (λ key. lent_key key ≡ guessed_1 at bytes.now) }
{
    if seq == 0 {
        return Err(ChunkFault::BeforeStart { seq: 0, len: 1 });
    }
    let (stream, end) = stream_at(bytes, at + 9)?;
    end_at(bytes, end)?;
    Ok(KeyRef {
        source: stream.source,
        kind: stream.kind,
        name: stream.name,
        start: 0,
        cluster: "none",
        seq,
    })
}

#[tactic(auto, unfolding(crate::specs::Faults::rest_2_fault, crate::specs::Faults::first_fault, crate::specs::Faults::fault_if))]
fn key_2_at(bytes: &[u8], at: usize, seq: u64) -> Result<KeyRef<'_>, ChunkFault>
    requires within { at + 9 ≤ length bytes.now }
    requires seq { seq ≡ spelled_at (at + 1) 8 bytes.now }
    ensures fault { IfErr result (λ fault. rest_2_fault at bytes.now ≡ Some fault) }
    ensures fine { IfOk result (λ _. rest_2_fault at bytes.now ≡ None) }
    ensures key { IfOk result (λ key. lent_key key ≡ guessed_2 at bytes.now) }
{
    let start = u64_at(bytes, at + 9)?;
    if start >= 1 << 62 || start >= seq {
        return Err(ChunkFault::StartHigh { start, seq });
    }
    let (stream, cluster_at) = stream_at(bytes, at + 17)?;
    let (cluster, end) = text_at(bytes, cluster_at)?;
    end_at(bytes, end)?;
    Ok(KeyRef {
        source: stream.source,
        kind: stream.kind,
        name: stream.name,
        start,
        cluster,
        seq,
    })
}

/// Appends the chunk's key, in version 1 where that says all of it, which is where its start is 0
/// and its cluster `none`, else in version 2. Without memory it appends nothing.
pub fn write_key(out: &mut Bytes, chunk: &ChunkRef<'_>) -> Result<(), NoMemory>
    requires { IsTrue (is_key (lent_chunk chunk.now).key) }
    ensures ok { OnOk result (out.new ≡ out.old ++ written_key (lent_chunk chunk.now).key) }
    ensures err { OnErr result (out.new ≡ out.old) }
{
    let before = out.len();
    let written = if fits_version_1(chunk) {
        push_key_1(out, chunk)
    } else {
        push_key_2(out, chunk)
    };
    if written.is_err() {
        out.truncate(before);
    }
    written
}

// How many bytes the chunk's key has where it is written.
pub(crate) fn key_size(chunk: &ChunkRef<'_>) -> u64
    requires { IsTrue (has_words (lent_chunk chunk.now).key) }
    ensures size { result ≡ length (written_key (lent_chunk chunk.now).key) }
    ensures small { result ≤ 16409 }
{
    let texts = 6 + chunk.source.len() + chunk.kind.len() + chunk.name.len();
    let size = if fits_version_1(chunk) {
        9 + texts
    } else {
        17 + texts + 2 + chunk.cluster.len()
    };
    size as u64
}

// The first version says all of the chunk's key.
fn fits_version_1(chunk: &ChunkRef<'_>) -> bool
    ensures { result ≡ fits_1 (lent_chunk chunk.now).key }
{
    chunk.start == 0 && chunk.cluster == "none"
}

fn push_key_1(out: &mut Bytes, chunk: &ChunkRef<'_>) -> Result<(), NoMemory>
    requires { IsTrue (is_key (lent_chunk chunk.now).key) }
    ensures ok { OnOk result (out.new ≡ out.old ++ key_1 (lent_chunk chunk.now).key) }
    ensures err { OnErr result (take (length out.old) out.new ≡ out.old) }
{
    out.push_all(&[1])?;
    put_u64(out, chunk.seq)?;
    push_stream(out, chunk)
}

fn push_key_2(out: &mut Bytes, chunk: &ChunkRef<'_>) -> Result<(), NoMemory>
    requires { IsTrue (is_key (lent_chunk chunk.now).key) }
    ensures ok { OnOk result (out.new ≡ out.old ++ key_2 (lent_chunk chunk.now).key) }
    ensures err { OnErr result (take (length out.old) out.new ≡ out.old) }
{
    out.push_all(&[2])?;
    put_u64(out, chunk.seq)?;
    put_u64(out, chunk.start)?;
    push_stream(out, chunk)?;
    push_text(out, chunk.cluster)
}

fn push_stream(out: &mut Bytes, chunk: &ChunkRef<'_>) -> Result<(), NoMemory>
    requires { IsTrue (is_stream (lent_chunk chunk.now).key.stream) }
    ensures ok { OnOk result (out.new ≡ out.old ++ counted_stream (lent_chunk chunk.now).key.stream) }
    ensures err { OnErr result (take (length out.old) out.new ≡ out.old) }
{
    push_text(out, chunk.source)?;
    push_text(out, chunk.kind)?;
    push_text(out, chunk.name)
}

fn push_text(out: &mut Bytes, text: &str) -> Result<(), NoMemory>
    requires { length text.now < 2 ^ 16 }
    ensures ok { OnOk result (out.new ≡ out.old ++ counted text.now) }
    ensures err { OnErr result (take (length out.old) out.new ≡ out.old) }
{
    put_u16(out, text.len() as u16)?;
    out.push_all(text.as_bytes())
}
