//! What other stores have of the bytes that are missing.

ghost use Rattle.std.specs.Prelude.{◌≡◌, ◌<◌, ◌++◌, codes, flat_map, length, map, string_bytes};
ghost use Rattle.std.specs.Prelude.{true, IfOk, IsTrue, OnOk};
ghost use Rattle.chk_bytes.specs.Words.{is_word};
ghost use Rattle.chk_world.specs.ArchiveRuns.{is_one_line};
ghost use Rattle.chk_record_index.specs.Order.{head_in};
ghost use Rattle.chk_book.specs.Views.{end_view};
ghost use Rattle.chk_ctl_held.specs.Elsewhere.{archived_part, clipped, found_in, found_named};
ghost use Rattle.chk_ctl_held.specs.Elsewhere.{found_words, part_lines, waiting_part};
ghost use Rattle.chk_ctl_held.specs.Lines.{line_of};
ghost use Rattle.chk_ctl_held.specs.Order.{EndsRise, StreamsRise};
ghost use Rattle.chk_ctl_held.specs.Stores.{lent_gap, seen_of};

use crate::clips::{clipped, no_span, with_span};
use crate::ends::end_of;
use crate::gaps::GapRef;
use crate::places::{is_of, place_in};
use crate::printing::Lines;
use crate::spans::Span;
use crate::stores::Store;
use chk_book::End;
use chk_bytes::NoMemory;
use chk_record_index::Heads;
use std::alloc::Global;

/// Adds the lines of what each of these stores has of the missing bytes.
pub(crate) fn add_found(
    alloc: Global,
    lines: &mut Lines,
    gap: &GapRef<'_>,
    stores: &[Store],
) -> Result<(), NoMemory>
    ensures { OnOk result (lines.new
        ≡ lines.old ++ flat_map (found_in (lent_gap gap.now)) (map seen_of stores.now)) }
{
    for store in stores {
        add_store(alloc, lines, gap, store)?;
    }
    Ok(())
}

/// Adds those of one store.
fn add_store(
    alloc: Global,
    lines: &mut Lines,
    gap: &GapRef<'_>,
    store: &Store,
) -> Result<(), NoMemory>
    ensures { OnOk result (lines.new ≡ lines.old ++ found_in (lent_gap gap.now) (seen_of store.now)) }
{
    let archived = archived_part(gap, store.waiting.book.ends.as_slice(), store.is_rising());
    let waits = waiting_part(gap, &store.waiting.heads);
    add_parts(alloc, lines, gap, store.name.as_str(), archived, waits)
}

/// Adds the lines of both parts.
fn add_parts(
    alloc: Global,
    lines: &mut Lines,
    gap: &GapRef<'_>,
    name: &str,
    archived: Span,
    waits: Span,
) -> Result<(), NoMemory>
    requires { IsTrue (is_word name.now) }
    ensures { OnOk result (lines.new ≡ lines.old
        ++ (part_lines (lent_gap gap.now) (codes "archived") name.now archived
        ++ part_lines (lent_gap gap.now) (codes "waits") name.now waits)) }
{
    add_part(
        alloc,
        lines,
        gap,
        "archived",
        name,
        archived.from,
        archived.to,
    )?;
    add_part(alloc, lines, gap, "waits", name, waits.from, waits.to)?;
    Ok(())
}

/// Adds the line of a part, where it has a byte.
fn add_part(
    alloc: Global,
    lines: &mut Lines,
    gap: &GapRef<'_>,
    how: &str,
    name: &str,
    from: u64,
    to: u64,
) -> Result<(), NoMemory>
    requires how { IsTrue (is_word how.now) }
    requires name { IsTrue (is_word name.now) }
    ensures { OnOk result (lines.new ≡ lines.old
        ++ part_lines (lent_gap gap.now) how.now name.now (record { from = from; to = to })) }
{
    if from >= to {
        return Ok(());
    }
    let line = found_line(alloc, gap, how, name, from, to)?;
    lines.push(line)
}

/// The missing bytes that an archive has.
fn archived_part(gap: &GapRef<'_>, ends: &[End], rising: bool) -> Span
    requires rises { rising ≡ true → EndsRise ends.now }
    ensures { result ≡ archived_part (lent_gap gap.now) (map end_view ends.now) }
{
    match end_of(ends, rising, &gap.stream) {
        Some(end) => clipped(gap.from, gap.to, end.start, end.end),
        None => no_span(),
    }
}

/// From the first to the last of the missing bytes that chunks have.
fn waiting_part(gap: &GapRef<'_>, heads: &Heads) -> Span
    requires { StreamsRise heads.now }
    ensures { result ≡ waiting_part (lent_gap gap.now) heads.now }
{
    let first = place_in(heads, &gap.stream);
    let mut all = no_span();
    for index in first..heads.len() {
        if !is_of(heads, index, &gap.stream) {
            return all;
        }
        all = with_span(all, part_of(gap, heads, index));
    }
    all
}

/// The missing bytes that one chunk has.
fn part_of(gap: &GapRef<'_>, heads: &Heads, index: usize) -> Span
    requires { index < length heads.now }
    ensures { result ≡ clipped (lent_gap gap.now).from (lent_gap gap.now).to
        (head_in heads.now index).begin (head_in heads.now index).key.seq }
{
    let head = heads.get(index);
    clipped(gap.from, gap.to, head.begin, head.key.seq)
}

/// The line of a part.
fn found_line(
    alloc: Global,
    gap: &GapRef<'_>,
    how: &str,
    name: &str,
    from: u64,
    to: u64,
) -> Result<String, NoMemory>
    requires how { IsTrue (is_word how.now) }
    requires name { IsTrue (is_word name.now) }
    ensures line { IfOk result (λ line. string_bytes line
        ≡ line_of (found_words (lent_gap gap.now).stream from to how.now name.now)) }
    ensures one { IfOk result (λ line. IsTrue (is_one_line (string_bytes line))) }
{
    let named = named(alloc, gap.stream.source, gap.stream.kind, gap.stream.name)?;
    let text = format!(in alloc; "{named} from {from} to {to} {how} in {name}\n")?;
    Ok(text)
}

/// The front of the line, with the words that name the stream.
fn named(alloc: Global, source: &str, kind: &str, name: &str) -> Result<String, NoMemory>
    ensures { IfOk result (λ text. string_bytes text ≡ found_named source.now kind.now name.now) }
{
    let text = format!(in alloc; "found {source} {kind} {name}")?;
    Ok(text)
}
