//! The lines that a watcher prints.

ghost use Rattle.std.specs.Prelude.{◌≡◌, ◌++◌, [], ◌∷◌, codes, decimal, length, IsTrue, IfOk, OnOk};
ghost use Rattle.chk_bytes.specs.Stems.{stem_text};
ghost use Rattle.chk_world.specs.ArchiveRuns.{is_one_line};
ghost use Rattle.chk_tee.specs.Lent.{lent_teed};
ghost use Rattle.chk_tee.specs.Messages.{is_teed};
ghost use Rattle.chk_cmd_subscribe.specs.Lines.{chunk_line, end_line};

use chk_bytes::{Bytes, NoMemory, put_decimal};
use chk_chunk::ChunkRef;
use chk_tee::Teed;
use std::alloc::Global;

/// The line of a chunk.
pub(crate) fn chunk_line(alloc: Global, teed: &Teed<'_>) -> Result<Bytes, NoMemory>
    requires { IsTrue (is_teed (lent_teed teed.now)) }
    ensures line { IfOk result (λ line. line ≡ chunk_line (lent_teed teed.now)) }
    ensures one { IfOk result (λ line. IsTrue (is_one_line line)) }
{
    let mut line = Bytes::new(alloc);
    put_place(&mut line, teed)?;
    put_stream(&mut line, &teed.chunk)?;
    put_size(&mut line, &teed.chunk)?;
    Ok(line)
}

// The sink of a chunk, and its place there.
fn put_place(line: &mut Bytes, teed: &Teed<'_>) -> Result<(), NoMemory>
    requires { IsTrue (is_teed (lent_teed teed.now)) }
    ensures { OnOk result (line.new ≡ line.old ++ (codes "chunk " ++ (stem_text teed.now.stem ++ 32 ∷ decimal teed.now.offset))) }
{
    line.push_all(b"chunk ")?;
    teed.stem.write(line)?;
    put_number(line, teed.offset)
}

// The stream of a chunk.
fn put_stream(line: &mut Bytes, chunk: &ChunkRef<'_>) -> Result<(), NoMemory>
    ensures { OnOk result (line.new ≡ line.old ++ 32 ∷ (chunk.now.source.now ++ 32 ∷ (chunk.now.kind.now ++ 32 ∷ chunk.now.name.now))) }
{
    put_word(line, chunk.source)?;
    put_word(line, chunk.kind)?;
    put_word(line, chunk.name)
}

// The offset of a chunk and its size, and the end of the line.
fn put_size(line: &mut Bytes, chunk: &ChunkRef<'_>) -> Result<(), NoMemory>
    ensures { OnOk result (line.new ≡ line.old ++ 32 ∷ (decimal chunk.now.seq ++ 32 ∷ (decimal (length chunk.now.body.now) ++ 10 ∷ []))) }
{
    put_number(line, chunk.seq)?;
    put_number(line, chunk.body.len() as u64)?;
    line.push_all(b"\n")
}

/// The last line: how many chunks were printed, and how many messages were refused.
pub(crate) fn end_line(alloc: Global, printed: u64, refused: u64) -> Result<Bytes, NoMemory>
    ensures line { IfOk result (λ line. line ≡ end_line printed refused) }
    ensures one { IfOk result (λ line. IsTrue (is_one_line line)) }
{
    let mut line = Bytes::new(alloc);
    line.push_all(b"subscribe chunks")?;
    put_number(&mut line, printed)?;
    line.push_all(b" refused")?;
    put_number(&mut line, refused)?;
    line.push_all(b"\n")?;
    Ok(line)
}

// A space and a number.
fn put_number(line: &mut Bytes, number: u64) -> Result<(), NoMemory>
    ensures { OnOk result (line.new ≡ line.old ++ 32 ∷ decimal number) }
{
    line.push_all(b" ")?;
    put_decimal(line, number)
}

// A space and a word.
fn put_word(line: &mut Bytes, word: &str) -> Result<(), NoMemory>
    ensures { OnOk result (line.new ≡ line.old ++ 32 ∷ word.now) }
{
    line.push_all(b" ")?;
    line.push_all(word.as_bytes())
}
