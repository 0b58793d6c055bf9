//! Messages of a tee, written.

ghost use Rattle.std.specs.Prelude.{◌≡◌, ◌<◌, ◌≤◌, ◌^◌, ◌++◌, ◌∷◌, [], List, length, take};
ghost use Rattle.std.specs.Prelude.{IsTrue, IfOk, OnOk, OnErr, All};
ghost use Rattle.chk_bytes.specs.Stems.{is_stem, stem_text};
ghost use Rattle.chk_bytes.specs.Numbers.{be32, with_length};
ghost use Rattle.chk_chunk.specs.Keys.{counted, is_key, written_key};
ghost use Rattle.chk_chunk.specs.Lent.{lent_chunk};
ghost use Rattle.chk_tee.specs.Messages.{IsTee, is_teed, tee_limit, tee_mark, most_teed};
ghost use Rattle.chk_tee.specs.Messages.{written_tee, written_teed, written_teeds};
ghost use Rattle.chk_tee.specs.Filters.{passing};
ghost use Rattle.chk_tee.specs.Lent.{lent_teed, lent_teeds, AreValidTeeds};

use crate::{Filter, Teed};
use chk_bytes::{Bytes, NoMemory, Stem, put_u16, put_u32, put_u64};
use chk_chunk::{ChunkRef, write_key};
use std::alloc::Global;

/// The message of these chunks. Each byte of a chunk is copied, and where the message grows past its
/// memory the message too.
pub fn write_tee(alloc: Global, items: &[Teed<'_>]) -> Result<Bytes, NoMemory>
    requires some { 0 < length items.now }
    requires few { length items.now ≤ most_teed }
    requires valid { AreValidTeeds items.now }
    requires fits { length (written_tee (lent_teeds items.now)) ≤ tee_limit }
    ensures bytes { IfOk result (λ tee. tee ≡ written_tee (lent_teeds items.now)) }
    ensures tee { IfOk result (λ tee. IsTee (lent_teeds items.now) tee) }
{
    let mut out = Bytes::new(alloc);
    let mut part = Bytes::new(alloc);
    out.push_all(b"CHKT\x01")?;
    put_u32(&mut out, items.len() as u32)?;
    for item in items {
        push_teed(&mut out, &mut part, item)?;
    }
    Ok(out)
}

/// Appends what stands before the chunks of a message: the mark, the version and how many chunks
/// there are.
pub fn put_tee_head(out: &mut Bytes, count: u32) -> Result<(), NoMemory>
    ensures { OnOk result (out.new ≡ out.old ++ (tee_mark ++ be32 count)) }
{
    out.push_all(b"CHKT\x01")?;
    put_u32(out, count)
}

/// Appends the chunk behind its stem and its offset, where it passes. `part` is used for what is
/// counted. Each byte of the chunk is copied once, and where `out` has to grow once more.
pub fn push_passing(
    out: &mut Bytes,
    part: &mut Bytes,
    filter: &Filter,
    item: &Teed<'_>,
) -> Result<(), NoMemory>
    requires { IsTrue (is_teed (lent_teed item.now)) }
    ensures { OnOk result (out.new ≡ out.old ++ written_teeds (passing filter.now (lent_teed item.now ∷ []))) }
{
    if !filter.passes(&item.chunk) {
        return Ok(());
    }
    push_teed(out, part, item)
}

// Appends the chunk behind its stem and its offset. `part` is used for what is counted.
fn push_teed(out: &mut Bytes, part: &mut Bytes, item: &Teed<'_>) -> Result<(), NoMemory>
    requires { IsTrue (is_teed (lent_teed item.now)) }
    ensures { OnOk result (out.new ≡ out.old ++ written_teed (lent_teed item.now)) }
{
    push_stem(out, part, &item.stem)?;
    put_u64(out, item.offset)?;
    push_key(out, part, &item.chunk)?;
    put_u32(out, item.chunk.body.len() as u32)?;
    out.push_all(item.chunk.body)
}

fn push_stem(out: &mut Bytes, part: &mut Bytes, stem: &Stem) -> Result<(), NoMemory>
    requires { IsTrue (is_stem stem.now) }
    ensures { OnOk result (out.new ≡ out.old ++ counted (stem_text stem.now)) }
{
    part.truncate(0);
    stem.write(part)?;
    put_u16(out, part.len() as u16)?;
    out.push_all(part.as_slice())
}

fn push_key(out: &mut Bytes, part: &mut Bytes, chunk: &ChunkRef<'_>) -> Result<(), NoMemory>
    requires { IsTrue (is_key (lent_chunk chunk.now).key) }
    ensures { OnOk result (out.new ≡ out.old ++ with_length (written_key (lent_chunk chunk.now).key)) }
{
    part.truncate(0);
    write_key(part, chunk)?;
    put_u32(out, part.len() as u32)?;
    out.push_all(part.as_slice())
}
