//! The lines of streams.

ghost use Rattle.std.specs.Prelude.{◌≡◌, [], ◌∷◌, map, string_bytes, IfOk, IsTrue};
ghost use Rattle.chk_bytes.specs.Words.{is_word};
ghost use Rattle.chk_site.specs.Site.{OutsideCause};
ghost use Rattle.chk_world.specs.ArchiveRuns.{is_one_line};
ghost use Rattle.chk_world.specs.Books.{ends_rise};
ghost use Rattle.chk_book.specs.Books.{book_view, end_in};
ghost use Rattle.chk_book.specs.Views.{end_view};
ghost use Rattle.chk_cmd_output.specs.Printing.{PrintsInTurn};
ghost use Rattle.chk_ctl_streams.specs.Lines.{line_in, line_of, split_to, stream_line};
ghost use Rattle.chk_ctl_streams.specs.Lines.{stream_lines, stream_words};

use crate::recorded::{do_rise, recorded_end};
use chk_book::{Book, End};
use chk_bytes::NoMemory;
use chk_cmd_output::{named, print_line};
use chk_site::{OutsideFault, Site, Who};
use std::alloc::Global;

/// Prints a line for each stream of the archive's book, in its order. It costs a call a line, and
/// one pass over the streams of both books, where these stand in byte order, as books have them.
pub(crate) fn print_lines<S: Site>(
    alloc: Global,
    site: &mut S,
    who: &Who,
    archive: &Book,
    records: &Book,
) -> Result<(), OutsideFault>
    ensures told { PrintsInTurn who.now (stream_lines (book_view archive.now) (book_view
        records.now)) result
        (S.told site.old) (S.told site.new) }
    ensures cause { OutsideCause (S.fault_count site.old) (S.fault_count site.new) result }
{
    let in_order = do_rise(records.ends.as_slice());
    print_ends(alloc, site, who, archive.ends.as_slice(), records, in_order)
}

/// Prints the lines of these streams.
fn print_ends<S: Site>(
    alloc: Global,
    site: &mut S,
    who: &Who,
    ends: &[End],
    records: &Book,
    in_order: bool,
) -> Result<(), OutsideFault>
    requires { IsTrue in_order → IsTrue (ends_rise (book_view records.now).ends) }
    ensures told { PrintsInTurn who.now (map (λ e. line_in (book_view records.now).ends (end_view
        e)) ends.now) result
        (S.told site.old) (S.told site.new) }
    ensures cause { OutsideCause (S.fault_count site.old) (S.fault_count site.new) result }
{
    let mut next = 0;
    for end in ends {
        print_end(alloc, site, who, end, records, in_order, &mut next)?;
    }
    Ok(())
}

/// Prints the line of a stream.
fn print_end<S: Site>(
    alloc: Global,
    site: &mut S,
    who: &Who,
    end: &End,
    records: &Book,
    in_order: bool,
    next: &mut usize,
) -> Result<(), OutsideFault>
    requires { IsTrue in_order → IsTrue (ends_rise (book_view records.now).ends) }
    ensures told { PrintsInTurn who.now (line_in (book_view records.now).ends (end_view end.now)
        ∷ []) result
        (S.told site.old) (S.told site.new) }
    ensures cause { OutsideCause (S.fault_count site.old) (S.fault_count site.new) result }
{
    let line = stream_line(alloc, end, split_to(records, end, in_order, next))?;
    print_line(alloc, site, who, line.as_bytes())
}

/// The offset up to which the records of the stream go; its start where there are none. Where the
/// records' ends stand in order it is looked for as `recorded_end` does.
fn split_to(records: &Book, end: &End, in_order: bool, next: &mut usize) -> u64
    requires { IsTrue in_order → IsTrue (ends_rise (book_view records.now).ends) }
    ensures { result ≡ split_to (book_view records.now).ends (end_view end.now) }
{
    split_end(records, end, in_order, next).max(end.start)
}

/// The offset up to which the records of the stream go, 0 where there are none.
fn split_end(records: &Book, end: &End, in_order: bool, next: &mut usize) -> u64
    requires { IsTrue in_order → IsTrue (ends_rise (book_view records.now).ends) }
    ensures { result ≡ end_in 0 (book_view records.now).ends (end_view end.now).stream }
{
    if in_order {
        return recorded_end(records.ends.as_slice(), end, next);
    }
    records.archived_end(end.source.as_str(), end.kind.as_str(), end.name.as_str())
}

/// The line of a stream whose records go up to this offset.
fn stream_line(alloc: Global, end: &End, split: u64) -> Result<String, NoMemory>
    ensures line { IfOk result (λ line. string_bytes line ≡ stream_line (end_view end.now) split) }
    ensures one { IsTrue (is_one_line (stream_line (end_view end.now) split)) }
{
    line_with(
        alloc,
        end.source.as_str(),
        end.kind.as_str(),
        end.name.as_str(),
        end.start,
        end.end,
        split,
    )
}

/// The line, of its words and offsets.
fn line_with(
    alloc: Global,
    source: &str,
    kind: &str,
    name: &str,
    start: u64,
    end: u64,
    split: u64,
) -> Result<String, NoMemory>
    requires source { IsTrue (is_word source.now) }
    requires kind { IsTrue (is_word kind.now) }
    requires name { IsTrue (is_word name.now) }
    ensures line { IfOk result (λ line. string_bytes line ≡ line_of (stream_words source.now
        kind.now name.now start end split)) }
    ensures one { IsTrue (is_one_line (line_of (stream_words source.now kind.now name.now start
        end split))) }
{
    let named = named(alloc, source, kind, name)?;
    let text = format!(in alloc; "{named} start {start} end {end} demuxed {split}\n")?;
    Ok(text)
}
