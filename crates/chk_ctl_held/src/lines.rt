//! The lines of streams of which chunks wait.

ghost use Rattle.std.specs.Prelude.{◌≡◌, ◌++◌, ◌<◌, flat_map, length, map, string_bytes, true};
ghost use Rattle.std.specs.Prelude.{IfOk, IsTrue, OnOk};
ghost use Rattle.chk_bytes.specs.Words.{is_word};
ghost use Rattle.chk_site.specs.Site.{OutsideCause};
ghost use Rattle.chk_world.specs.ArchiveRuns.{is_one_line};
ghost use Rattle.chk_book.specs.Books.{book_view, end_in};
ghost use Rattle.chk_book.specs.Views.{end_view};
ghost use Rattle.chk_cmd_output.specs.Printing.{PrintsInTurn};
ghost use Rattle.chk_ctl_held.specs.Elsewhere.{gap_of, group_lines};
ghost use Rattle.chk_ctl_held.specs.Groups.{groups};
ghost use Rattle.chk_ctl_held.specs.Lines.{held_lines, held_words, line_of, named};
ghost use Rattle.chk_ctl_held.specs.Lines.{places};
ghost use Rattle.chk_ctl_held.specs.Order.{EndsRise};
ghost use Rattle.chk_ctl_held.specs.Stores.{lent_gap, others_of};
ghost use Rattle.chk_ctl_held.specs.Streams.{stream_of};
ghost use Rattle.chk_ctl_held.specs.Views.{group_view};

use crate::ends::{end_of, ends_rise};
use crate::finding::Waiting;
use crate::found::add_found;
use crate::gaps::GapRef;
use crate::groups::{Group, groups_of};
use crate::others::Others;
use crate::printing::Lines;
use crate::streams::StreamRef;
use chk_book::End;
use chk_bytes::NoMemory;
use chk_record_index::Heads;
use chk_site::{OutsideFault, Site, Who};
use std::alloc::Global;

/// Prints a line for each stream of which chunks wait, in byte order of source, type and name:
/// `held <source> <type> <name> archived <offset> missing <offset> to <offset> waits <offset> to
/// <offset> chunks <count>`. The archive of the stream goes up to the first offset, 0 where it has
/// none; the bytes from there to the first one that waits are missing; and the chunks that wait
/// lie between the last two offsets, of which they need not have all bytes.
///
/// It costs one pass over the book's streams and the chunks, and for each line a search by halves
/// and a call. It holds all lines.
pub fn print_waiting<S: Site>(
    alloc: Global,
    site: &mut S,
    who: &Who,
    waiting: &Waiting,
) -> Result<(), OutsideFault>
    ensures told { PrintsInTurn who.now (held_lines (book_view waiting.now.book) waiting.now.heads)
        result (S.told site.old) (S.told site.new) }
    ensures cause { OutsideCause (S.fault_count site.old) (S.fault_count site.new) result }
{
    match waiting_lines(alloc, waiting) {
        Ok(lines) => lines.print(alloc, site, who),
        Err(NoMemory) => Err(OutsideFault::NoMemory),
    }
}

/// The lines.
fn waiting_lines(alloc: Global, waiting: &Waiting) -> Result<Lines, NoMemory>
    ensures { IfOk result (λ lines.
        lines ≡ held_lines (book_view waiting.now.book) waiting.now.heads) }
{
    let mut lines = Lines::new(alloc);
    let rising = ends_rise(waiting.book.ends.as_slice());
    let others = Others {
        before: &[],
        behind: &[],
    };
    add_groups(alloc, &mut lines, waiting, rising, &others)?;
    Ok(lines)
}

/// Adds the lines of each stream of which chunks wait: its own one, and those of what the other
/// stores have of its missing bytes.
pub(crate) fn add_groups(
    alloc: Global,
    lines: &mut Lines,
    waiting: &Waiting,
    rising: bool,
    others: &Others<'_>,
) -> Result<(), NoMemory>
    requires rises { rising ≡ true → EndsRise waiting.now.book.ends }
    ensures { OnOk result (lines.new ≡ lines.old
        ++ flat_map (group_lines (map end_view waiting.now.book.ends) (others_of others.now))
        (groups waiting.now.heads)) }
{
    let groups = groups_of(alloc, &waiting.heads)?;
    let ends = waiting.book.ends.as_slice();
    for group in groups.iter() {
        add_group(alloc, lines, ends, rising, &waiting.heads, *group, others)?;
    }
    Ok(())
}

/// Adds those of one stream.
fn add_group(
    alloc: Global,
    lines: &mut Lines,
    ends: &[End],
    rising: bool,
    heads: &Heads,
    group: Group,
    others: &Others<'_>,
) -> Result<(), NoMemory>
    requires first { group.first < length heads.now }
    requires rises { rising ≡ true → EndsRise ends.now }
    ensures { OnOk result (lines.new ≡ lines.old ++ group_lines (map end_view ends.now)
        (others_of others.now) (group_view heads.now group)) }
{
    let gap = gap_of(ends, rising, heads, group);
    let line = held_line(alloc, &gap, group)?;
    lines.push(line)?;
    add_found(alloc, lines, &gap, others.before)?;
    add_found(alloc, lines, &gap, others.behind)
}

/// The bytes that a group waits for.
fn gap_of<'a>(ends: &[End], rising: bool, heads: &'a Heads, group: Group) -> GapRef<'a>
    requires first { group.first < length heads.now }
    requires rises { rising ≡ true → EndsRise ends.now }
    ensures { lent_gap result ≡ gap_of (map end_view ends.now) (group_view heads.now group) }
{
    let head = heads.get(group.first);
    let stream = StreamRef::of_key(&head.key);
    let from = archived_end(ends, rising, &stream);
    GapRef {
        stream,
        from,
        to: head.begin,
    }
}

/// The offset past the last byte of a stream's records, 0 for a stream that isn't there.
fn archived_end(ends: &[End], rising: bool, stream: &StreamRef<'_>) -> u64
    requires rises { rising ≡ true → EndsRise ends.now }
    ensures { result ≡ end_in 0 (map end_view ends.now) (stream_of stream.now) }
{
    match end_of(ends, rising, stream) {
        Some(end) => end.end,
        None => 0,
    }
}

/// The line of a group, of which these bytes are missing.
fn held_line(alloc: Global, gap: &GapRef<'_>, group: Group) -> Result<String, NoMemory>
    ensures line { IfOk result (λ line. string_bytes line ≡ line_of (held_words
        (lent_gap gap.now).stream.source (lent_gap gap.now).stream.kind
        (lent_gap gap.now).stream.name (lent_gap gap.now).from (lent_gap gap.now).to group.end
        group.count)) }
    ensures one { IfOk result (λ line. IsTrue (is_one_line (string_bytes line))) }
{
    let stream = gap.stream;
    line_with(
        alloc,
        stream.source,
        stream.kind,
        stream.name,
        gap.from,
        gap.to,
        group.end,
        group.count,
    )
}

/// The line, of its words, offsets and count.
fn line_with(
    alloc: Global,
    source: &str,
    kind: &str,
    name: &str,
    archived: u64,
    begin: u64,
    end: u64,
    count: u64,
) -> Result<String, NoMemory>
    requires source { IsTrue (is_word source.now) }
    requires kind { IsTrue (is_word kind.now) }
    requires name { IsTrue (is_word name.now) }
    ensures line { IfOk result (λ line. string_bytes line
        ≡ line_of (held_words source.now kind.now name.now archived begin end count)) }
    ensures one { IfOk result (λ line. IsTrue (is_one_line (string_bytes line))) }
{
    let named = named(alloc, source, kind, name)?;
    let places = places(alloc, archived, begin, end)?;
    let text = format!(in alloc; "{named}{places} chunks {count}\n")?;
    Ok(text)
}

/// The front of the line, with the words that name the stream.
fn named(alloc: Global, source: &str, kind: &str, name: &str) -> Result<String, NoMemory>
    ensures { IfOk result (λ text. string_bytes text ≡ named source.now kind.now name.now) }
{
    let text = format!(in alloc; "held {source} {kind} {name}")?;
    Ok(text)
}

/// The offsets of the line.
fn places(alloc: Global, archived: u64, begin: u64, end: u64) -> Result<String, NoMemory>
    ensures { IfOk result (λ text. string_bytes text ≡ places archived begin end) }
{
    let missing = format!(in alloc; " archived {archived} missing {archived} to {begin}")?;
    let text = format!(in alloc; "{missing} waits {begin} to {end}")?;
    Ok(text)
}
