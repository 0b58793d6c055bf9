//! The lines of the tables.

ghost use Rattle.std.specs.Prelude.{◌≡◌, flat_map, string_bytes, IfOk};
ghost use Rattle.chk_book.specs.Books.{book_view};
ghost use Rattle.chk_book.specs.Views.{end_view};
ghost use Rattle.chk_ctl_status_rows.specs.Lines.{columns, counts_line, quiet_cell, sink_line, split_to};
ghost use Rattle.chk_ctl_status_rows.specs.Lines.{stream_in, stream_line, words_of};

use crate::sinks::OpenSink;
use chk_book::{Book, End};
use chk_bytes::NoMemory;
use std::alloc::Global;

/// A line for each of these streams, in their order: the archived end, the offset up to which the
/// records go by their book, and the words that name it. It costs the product of the numbers of
/// streams in both lists.
pub fn stream_lines(alloc: Global, ends: &[End], records: &Book) -> Result<String, NoMemory>
    ensures { IfOk result (λ text. string_bytes text
        ≡ flat_map (λ e. stream_in (book_view records.now).ends (end_view e)) ends.now) }
{
    let mut text = String::new(alloc);
    for end in ends {
        let line = stream_line(alloc, end, split_to(records, end))?;
        text.push_str(line.as_str())?;
    }
    Ok(text)
}

/// A line for each of these sinks, in their order: its length, up to which length it is committed,
/// how many seconds it has been quiet (`-` where that isn't known), and its stem.
pub fn sink_lines(alloc: Global, sinks: &[OpenSink]) -> Result<String, NoMemory>
    ensures { IfOk result (λ text. string_bytes text ≡ flat_map sink_line sinks.now) }
{
    let mut text = String::new(alloc);
    for sink in sinks {
        let line = sink_line(alloc, sink)?;
        text.push_str(line.as_str())?;
    }
    Ok(text)
}

/// Three counts, in columns as those of the other lines.
pub fn counts_line(alloc: Global, first: u64, second: u64, third: u64) -> Result<String, NoMemory>
    ensures { IfOk result (λ text. string_bytes text ≡ counts_line first second third) }
{
    let front = columns(alloc, first, second)?;
    let text = format!(in alloc; "{front} {third:>15}\n")?;
    Ok(text)
}

/// The offset up to which the records of the stream go; its start where there are none.
pub fn split_to(records: &Book, end: &End) -> u64
    ensures { result ≡ split_to (book_view records.now).ends (end_view end.now) }
{
    let split = records.archived_end(end.source.as_str(), end.kind.as_str(), end.name.as_str());
    split.max(end.start)
}

fn stream_line(alloc: Global, end: &End, split: u64) -> Result<String, NoMemory>
    ensures { IfOk result (λ text. string_bytes text ≡ stream_line (end_view end.now) split) }
{
    let front = columns(alloc, end.end, split)?;
    let words = words_of(
        alloc,
        end.source.as_str(),
        end.kind.as_str(),
        end.name.as_str(),
    )?;
    let text = format!(in alloc; "{front}  {words}\n")?;
    Ok(text)
}

/// The words that name a stream, with a space between two: its source, its type and its name.
pub fn words_of(alloc: Global, source: &str, kind: &str, name: &str) -> Result<String, NoMemory>
    ensures { IfOk result (λ text. string_bytes text ≡ words_of source.now kind.now name.now) }
{
    let text = format!(in alloc; "{source} {kind} {name}")?;
    Ok(text)
}

fn sink_line(alloc: Global, sink: &OpenSink) -> Result<String, NoMemory>
    ensures { IfOk result (λ text. string_bytes text ≡ sink_line sink.now) }
{
    let front = columns(alloc, sink.written, sink.committed)?;
    let quiet = quiet_cell(alloc, sink.quiet)?;
    let stem = sink.stem;
    let text = format!(in alloc; "{front} {quiet}  {stem}\n")?;
    Ok(text)
}

fn quiet_cell(alloc: Global, quiet: Option<u64>) -> Result<String, NoMemory>
    ensures { IfOk result (λ text. string_bytes text ≡ quiet_cell quiet) }
{
    match quiet {
        Some(seconds) => {
            let text = format!(in alloc; "{seconds:>15}")?;
            Ok(text)
        }
        None => {
            let text = String::from_str(alloc, "              -")?;
            Ok(text)
        }
    }
}

/// Two columns of numbers, each of 15 places at least.
fn columns(alloc: Global, first: u64, second: u64) -> Result<String, NoMemory>
    ensures { IfOk result (λ text. string_bytes text ≡ columns first second) }
{
    let text = format!(in alloc; "{first:>15} {second:>15}")?;
    Ok(text)
}
