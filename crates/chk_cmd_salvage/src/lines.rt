//! The lines, written straight into what is printed next.

ghost use Rattle.std.specs.Prelude.{◌≡◌, ◌++◌, [], ◌∷◌, OnOk, IfOk, decimal};
ghost use Rattle.chk_chunk.specs.Lent.{lent_key};
ghost use Rattle.chk_salvage.specs.Readers.{items_left};
ghost use Rattle.chk_salvage.specs.Views.{placed_of};
ghost use Rattle.chk_cmd_salvage.specs.Lines.{entry_line, skipped_line};
ghost use Rattle.chk_cmd_salvage.specs.Printing.{HasRecordLine};
ghost use Rattle.chk_cmd_salvage.specs.Steps.{PutNext, GoesOn};

use chk_bytes::{Bytes, NoMemory, put_decimal};
use chk_chunk::{KeyRef, read_key};
use chk_salvage::{EntryRef, Next, Reader, Span};

/// Writes the line of the next record or of the range that is skipped next, and says whether there was one. Without
/// memory a part of it may be there.
pub fn put_next(out: &mut Bytes, reader: &mut Reader<'_>) -> Result<bool, NoMemory>
    ensures line { IfOk result (PutNext (items_left reader.old) (items_left reader.new) out.old out.new) }
    ensures onward { IfOk result (GoesOn reader.old reader.new) }
{
    match reader.next() {
        Next::Entry(entry) => put_record(out, entry)?,
        Next::Damaged { .. } => put_skipped(out, reader.skip())?,
        Next::End => return Ok(false),
    }
    Ok(true)
}

/// Writes the line of a record: `entry <at> <end> <source> <type> <name> <seq>` where its key is a chunk's, else
/// `other <at> <end>`. Without memory a part of it may be there.
pub fn put_record(out: &mut Bytes, entry: EntryRef<'_>) -> Result<(), NoMemory>
    ensures line { OnOk result (HasRecordLine (placed_of entry.entry) out.old out.new) }
{
    match read_key(entry.key) {
        Ok(key) => put_entry(out, &entry, &key),
        Err(_) => put_range(out, "other ", entry.at, entry.end),
    }
}

fn put_entry(out: &mut Bytes, entry: &EntryRef<'_>, key: &KeyRef<'_>) -> Result<(), NoMemory>
    ensures { OnOk result (out.new ≡ out.old ++ entry_line (placed_of entry.now) (lent_key key.now)) }
{
    put_places(out, "entry ", entry.at, entry.end)?;
    put_text(out, key.source)?;
    put_text(out, key.kind)?;
    put_text(out, key.name)?;
    out.push_all(b" ".as_slice())?;
    put_decimal(out, key.seq)?;
    out.push_all(b"\n".as_slice())
}

// Writes a text behind a space.
fn put_text(out: &mut Bytes, text: &str) -> Result<(), NoMemory>
    ensures { OnOk result (out.new ≡ out.old ++ 32 ∷ text.now) }
{
    out.push_all(b" ".as_slice())?;
    out.push_all(text.as_bytes())
}

/// Writes the line of a range that was skipped: `skipped <begin> <end>`. Without memory a part of it may be there.
pub fn put_skipped(out: &mut Bytes, span: Span) -> Result<(), NoMemory>
    ensures line { OnOk result (out.new ≡ out.old ++ skipped_line span.begin span.end) }
{
    put_range(out, "skipped ", span.begin, span.end)
}

fn put_range(out: &mut Bytes, what: &str, begin: u64, end: u64) -> Result<(), NoMemory>
    ensures { OnOk result (out.new ≡ out.old ++ (what.now ++ (decimal begin ++ (32 ∷ (decimal end ++ 10 ∷ []))))) }
{
    put_places(out, what, begin, end)?;
    out.push_all(b"\n".as_slice())
}

// Writes two places behind what they are.
fn put_places(out: &mut Bytes, what: &str, begin: u64, end: u64) -> Result<(), NoMemory>
    ensures { OnOk result (out.new ≡ out.old ++ (what.now ++ (decimal begin ++ (32 ∷ decimal end)))) }
{
    out.push_all(what.as_bytes())?;
    put_decimal(out, begin)?;
    out.push_all(b" ".as_slice())?;
    put_decimal(out, end)
}
