//! Lines of words and numbers.

ghost use Rattle.std.specs.Prelude.{◌≡◌, ◌++◌, ◌∷◌, [], ℕ, List, map, codes, decimal, IfOk, OnOk, OnErr};
ghost use Rattle.chk_bytes.specs.Words.{BeginsWith};
ghost use Rattle.chk_cmd_line.specs.Lines.{line_of, part_text, archive_line, demux_line, end_line, load_line, stream_line};

use chk_bytes::{Bytes, NoMemory, Stem, put_decimal};
use std::alloc::Global;

/// A word of a line.
#[derive(Clone, Copy)]
pub(crate) enum Part<'a> {
    Text(&'a str),
    Number(u64),
    Stem(&'a Stem),
}

/// Appends the parts with a space between each two, and a newline; without memory nothing.
pub(crate) fn put_line(out: &mut Bytes, parts: &[Part<'_>]) -> Result<(), NoMemory>
    ensures ok { OnOk result (out.new ≡ out.old ++ line_of (map part_text parts.now)) }
    ensures err { OnErr result (out.new ≡ out.old) }
{
    let before = out.len();
    let written = push_line(out, parts);
    if written.is_err() {
        out.truncate(before);
    }
    written
}

fn push_line(out: &mut Bytes, parts: &[Part<'_>]) -> Result<(), NoMemory>
    ensures ok { OnOk result (out.new ≡ out.old ++ line_of (map part_text parts.now)) }
    ensures err { OnErr result (BeginsWith out.new out.old) }
{
    for (i, part) in parts.iter().enumerate() {
        if i > 0 {
            out.push_all(b" ")?;
        }
        push_part(out, *part)?;
    }
    out.push_all(b"\n")
}

fn push_part(out: &mut Bytes, part: Part<'_>) -> Result<(), NoMemory>
    ensures ok { OnOk result (out.new ≡ out.old ++ part_text part.entry) }
    ensures err { OnErr result (out.new ≡ out.old) }
{
    match part {
        Part::Text(text) => out.push_all(text.as_bytes()),
        Part::Number(number) => put_decimal(out, number),
        Part::Stem(stem) => stem.write(out),
    }
}

/// Appends the line of a stream that was read to this offset, or without memory nothing.
pub fn put_stream<'a>(
    out: &mut Bytes,
    source: &'a str,
    kind: &'a str,
    name: &'a str,
    offset: u64,
) -> Result<(), NoMemory>
    ensures ok { OnOk result (out.new ≡ out.old
        ++ stream_line source.entry.now kind.entry.now name.entry.now offset) }
    ensures err { OnErr result (out.new ≡ out.old) }
{
    let parts = [
        Part::Text("stream"),
        Part::Text(source),
        Part::Text(kind),
        Part::Text(name),
        Part::Number(offset),
    ];
    put_line(out, &parts)
}

/// The line of a stream that was read to this offset.
pub fn stream_line(
    alloc: Global,
    source: &str,
    kind: &str,
    name: &str,
    offset: u64,
) -> Result<Bytes, NoMemory>
    ensures { IfOk result (λ line. line ≡ stream_line source.now kind.now name.now offset) }
{
    let mut line = Bytes::new(alloc);
    put_stream(&mut line, source, kind, name, offset)?;
    Ok(line)
}

/// Appends the line of a stream that is archived up to this offset, or without memory nothing.
pub fn put_end<'a>(
    out: &mut Bytes,
    source: &'a str,
    kind: &'a str,
    name: &'a str,
    end: u64,
) -> Result<(), NoMemory>
    ensures ok { OnOk result (out.new ≡ out.old
        ++ end_line source.entry.now kind.entry.now name.entry.now end) }
    ensures err { OnErr result (out.new ≡ out.old) }
{
    let parts = [
        Part::Text("end"),
        Part::Text(source),
        Part::Text(kind),
        Part::Text(name),
        Part::Number(end),
    ];
    put_line(out, &parts)
}

/// Appends the report of an archive run, or without memory nothing. It tells sinks under writing,
/// bytes taken, chunks that are set aside and done sinks removed.
pub fn put_archive(
    out: &mut Bytes,
    unclosed: u32,
    taken: u64,
    held: u32,
    removed: u32,
) -> Result<(), NoMemory>
    ensures ok { OnOk result (out.new ≡ out.old ++ archive_line unclosed taken held removed) }
    ensures err { OnErr result (out.new ≡ out.old) }
{
    let parts = [
        Part::Text("archive"),
        Part::Text("unclosed"),
        Part::Number(u64::from(unclosed)),
        Part::Text("taken"),
        Part::Number(taken),
        Part::Text("held"),
        Part::Number(u64::from(held)),
        Part::Text("removed"),
        Part::Number(u64::from(removed)),
    ];
    put_line(out, &parts)
}

/// Appends the report of a run that splits into records, or without memory nothing. It tells
/// bytes taken, records and bytes left.
pub fn put_demux(out: &mut Bytes, taken: u64, entries: u64, left: u64) -> Result<(), NoMemory>
    ensures ok { OnOk result (out.new ≡ out.old ++ demux_line taken entries left) }
    ensures err { OnErr result (out.new ≡ out.old) }
{
    let parts = [
        Part::Text("demux"),
        Part::Text("taken"),
        Part::Number(taken),
        Part::Text("entries"),
        Part::Number(entries),
        Part::Text("left"),
        Part::Number(left),
    ];
    put_line(out, &parts)
}

/// Appends the summary of a load, or without memory nothing. It tells lines, bytes appended and
/// the sum of the archived ends.
pub fn put_load(out: &mut Bytes, lines: u64, bytes: u64, archived: u64) -> Result<(), NoMemory>
    ensures ok { OnOk result (out.new ≡ out.old ++ load_line lines bytes archived) }
    ensures err { OnErr result (out.new ≡ out.old) }
{
    let parts = [
        Part::Text("load"),
        Part::Text("lines"),
        Part::Number(lines),
        Part::Text("bytes"),
        Part::Number(bytes),
        Part::Text("archived"),
        Part::Number(archived),
    ];
    put_line(out, &parts)
}
