//! A book is read from its bytes, field by field.

ghost use Rattle.std.specs.Prelude.{◌≡◌, ◌≤◌, ◌<◌, ◌^◌, ◌+◌, length, map, option_map, Some, None, IfOk, IfErr};
ghost use Rattle.std.specs.Prelude.{nat_eq};
ghost use Rattle.std.specs.List.{list_any};
ghost use Rattle.chk_bytes.specs.Numbers.{spelled_at};
ghost use Rattle.chk_chunk.specs.Keys.{stream_at, behind_stream};
ghost use Rattle.chk_book.specs.Damage.{segments_damage, source_falls, kind_falls, comes_behind, stream_damage, end_damage, ends_damage};
ghost use Rattle.chk_book.specs.Damage.{aside_damage, trailing_damage, tail_damage, is_taken, book_damage};
ghost use Rattle.chk_world.specs.Books.{read_book};
ghost use Rattle.chk_book.specs.Books.{book_view};
ghost use Rattle.chk_book.specs.Views.{segment_view, end_view, lent_stream, stream_of};
ghost use Rattle.chk_book.specs.Reading.{IsRefused};
ghost use Rattle.chk_book.specs.Found.{AreSegmentsAt, IsEndAt, AreEndsAt, IsTailAt};

use crate::book::Book;
use crate::fields::{BookFault, count_at, next_of, offsets_at, segment_at, text_at, version_of};
use crate::lists::{End, Ends, Segment, Segments};
use chk_bytes::{Word, comes_before, take_u64};
use std::alloc::Global;

/// So many segments, from the place 17 on.
pub(crate) fn read_segments(
    alloc: Global,
    bytes: &[u8],
    next: u64,
    count: u32,
) -> Result<Segments, BookFault>
    requires bytes { 17 ≤ length bytes.now }
    requires next { next < 2 ^ 63 }
    ensures fault { IfErr result (IsRefused (segments_damage count next 0 17 bytes.now)) }
    ensures segments { IfOk result (λ gs. AreSegmentsAt next count bytes.now (map segment_view gs)) }
{
    let mut segments = Segments::new(alloc);
    let mut last = 0;
    let mut at = 17;
    for _read in 0..count {
        let segment = segment_at(bytes, at, next, last)?;
        segments.push(segment)?;
        last = segment.number;
        at += 16;
    }
    Ok(segments)
}

/// The texts of a stream.
#[derive(Drop)]
struct Texts {
    source: Word,
    kind: Word,
    name: Word,
}

/// A stream's three texts, behind the stream before, and the place behind them.
#[tactic(auto, unfolding(crate::specs::Damage::stream_damage, crate::specs::Damage::first_damage, crate::specs::Damage::damage_unless))]
fn texts_at(
    alloc: Global,
    bytes: &[u8],
    at: usize,
    last: Option<&End>,
) -> Result<(Texts, usize), BookFault>
    requires { at ≤ length bytes.now }
    ensures fault { IfErr result (IsRefused (stream_damage (lent_stream last.entry) at bytes.now)) }
    ensures texts { IfOk result (λ found. (stream_damage (lent_stream last.entry) at bytes.now ≡ None)
        × (stream_of found.0 ≡ stream_at at bytes.now) × (found.1 ≡ behind_stream at bytes.now) × (found.1 ≤ length bytes.now)) }
{
    let (source, kind_at) = text_at(alloc, bytes, at)?;
    if source_falls(last, &source) {
        return Err(BookFault::Damaged {
            at: (at + 2) as u64,
        });
    }
    let (kind, name_at) = text_at(alloc, bytes, kind_at)?;
    if kind_falls(last, &source, &kind) {
        return Err(BookFault::Damaged {
            at: (kind_at + 2) as u64,
        });
    }
    let (name, behind) = text_at(alloc, bytes, name_at)?;
    if !comes_behind(last, &source, &kind, &name) {
        return Err(BookFault::Damaged {
            at: (name_at + 2) as u64,
        });
    }
    Ok((Texts { source, kind, name }, behind))
}

fn source_falls(last: Option<&End>, source: &Word) -> bool
    ensures { result ≡ source_falls (lent_stream last.entry) source.now }
{
    match last {
        Some(last) => comes_before(source.as_str(), last.source.as_str()),
        None => false,
    }
}

fn kind_falls(last: Option<&End>, source: &Word, kind: &Word) -> bool
    ensures { result ≡ kind_falls (lent_stream last.entry) source.now kind.now }
{
    match last {
        Some(last) => {
            source.as_str() == last.source.as_str()
                && comes_before(kind.as_str(), last.kind.as_str())
        }
        None => false,
    }
}

fn comes_behind(last: Option<&End>, source: &Word, kind: &Word, name: &Word) -> bool
    ensures { result ≡ comes_behind (lent_stream last.entry) (record { source = source.now; kind = kind.now; name = name.now }) }
{
    match last {
        Some(last) => {
            comes_before(last.source.as_str(), source.as_str())
                || (last.source.as_str() == source.as_str()
                    && (comes_before(last.kind.as_str(), kind.as_str())
                        || (last.kind.as_str() == kind.as_str()
                            && comes_before(last.name.as_str(), name.as_str()))))
        }
        None => true,
    }
}

/// A stream, behind the stream before, and the place behind it.
#[tactic(auto, unfolding(crate::specs::Damage::end_damage, crate::specs::Damage::first_damage))]
fn end_at(
    alloc: Global,
    bytes: &[u8],
    at: usize,
    starts: bool,
    last: Option<&End>,
) -> Result<(End, usize), BookFault>
    requires { at ≤ length bytes.now }
    ensures fault { IfErr result (IsRefused (end_damage starts (lent_stream last.entry) at bytes.now)) }
    ensures end { IfOk result (λ found. IsEndAt starts (lent_stream last.entry) at bytes.now (end_view found.0) found.1) }
{
    let (start, end, from) = offsets_at(bytes, at, starts)?;
    let (texts, behind) = texts_at(alloc, bytes, from, last)?;
    let end = End {
        source: texts.source,
        kind: texts.kind,
        name: texts.name,
        start,
        end,
    };
    Ok((end, behind))
}

/// So many streams, and the place behind them.
pub(crate) fn read_ends(
    alloc: Global,
    bytes: &[u8],
    from: usize,
    count: u32,
    starts: bool,
) -> Result<(Ends, usize), BookFault>
    requires { from ≤ length bytes.now }
    ensures fault { IfErr result (IsRefused (ends_damage count starts None from bytes.now)) }
    ensures ends { IfOk result (λ found. AreEndsAt starts count from bytes.now (map end_view found.0) found.1) }
{
    let mut ends = Ends::new(alloc);
    let mut at = from;
    for _read in 0..count {
        let (end, behind) = end_at(alloc, bytes, at, starts, ends.last())?;
        ends.push(end)?;
        at = behind;
    }
    Ok((ends, at))
}

/// One of the segments has this number.
fn is_taken(segments: &[Segment], number: u64) -> bool
    ensures { result ≡ is_taken number (map segment_view segments.now) }
{
    has_number(segments, number)
}

/// One of the segments has this number.
pub fn has_number(segments: &[Segment], number: u64) -> bool
    ensures { result ≡ list_any (λ g. nat_eq g.number number) segments.now }
{
    segments.iter().any(|segment| segment.number == number)
}

/// The aside segment, whose number no segment of these has.
#[tactic(auto, unfolding(crate::specs::Damage::aside_damage, crate::specs::Damage::first_damage, crate::specs::Damage::damage_unless))]
fn aside_at(bytes: &[u8], at: usize, next: u64, segments: &[Segment]) -> Result<Segment, BookFault>
    requires { at ≤ length bytes.now }
    ensures fault { IfErr result (IsRefused (aside_damage next (map segment_view segments.now) at bytes.now)) }
    ensures segment { IfOk result (λ g. (aside_damage next (map segment_view segments.now) at bytes.now ≡ None)
        × (g.number ≡ spelled_at at 8 bytes.now) × (g.length ≡ spelled_at (at + 8) 8 bytes.now) × (at + 16 ≤ length bytes.now)) }
{
    let number = match take_u64(bytes, at) {
        Some(number) if number > 0 && number < next && !is_taken(segments, number) => number,
        _ => return Err(BookFault::Damaged { at: at as u64 }),
    };
    let length = match take_u64(bytes, at + 8) {
        Some(length) if length >= 96 && length < 1 << 63 => length,
        _ => return Err(BookFault::Damaged {
            at: (at + 8) as u64,
        }),
    };
    Ok(Segment { number, length })
}

/// Nothing stands at `at` or behind it.
#[tactic(auto, unfolding(crate::specs::Damage::trailing_damage, crate::specs::Damage::damage_unless))]
fn end_of(bytes: &[u8], at: usize) -> Result<(), BookFault>
    ensures fault { IfErr result (IsRefused (trailing_damage at bytes.now)) }
    ensures fine { IfOk result (λ _. trailing_damage at bytes.now ≡ None) }
{
    if at < bytes.len() {
        return Err(BookFault::Damaged { at: at as u64 });
    }
    Ok(())
}

/// What stands behind the streams: the aside segment, where the version has one, and nothing else.
#[tactic(auto, unfolding(crate::specs::Damage::tail_damage, crate::specs::Damage::first_damage))]
fn tail_at(
    bytes: &[u8],
    at: usize,
    next: u64,
    segments: &[Segment],
    aside: bool,
) -> Result<Option<Segment>, BookFault>
    requires bytes { at ≤ length bytes.now }
    requires next { next < 2 ^ 63 }
    ensures fault { IfErr result (IsRefused (tail_damage aside next (map segment_view segments.now) at bytes.now)) }
    ensures tail { IfOk result (λ found. IsTailAt aside next (map segment_view segments.now) at bytes.now (option_map segment_view found)) }
{
    if !aside {
        end_of(bytes, at)?;
        return Ok(None);
    }
    let segment = aside_at(bytes, at, next, segments)?;
    end_of(bytes, at + 16)?;
    Ok(Some(segment))
}

/// The book that the bytes are, in any version. It costs their length, and memory for the lists.
#[tactic(auto, unfolding(crate::specs::Damage::book_damage, crate::specs::Damage::first_damage))]
pub(crate) fn read_book(alloc: Global, bytes: &[u8]) -> Result<Book, BookFault>
    ensures fault { IfErr result (IsRefused (book_damage bytes.now)) }
    ensures book { IfOk result (λ b. (book_damage bytes.now ≡ None) × (read_book bytes.now ≡ Some (book_view b))) }
{
    let version = version_of(bytes)?;
    let next = next_of(bytes)?;
    let count = count_at(bytes, 13)?;
    let segments = read_segments(alloc, bytes, next, count)?;
    let from = 17 + 16 * count as usize;
    let count = count_at(bytes, from)?;
    let (ends, at) = read_ends(alloc, bytes, from + 4, count, version >= 2)?;
    let aside = tail_at(bytes, at, next, segments.as_slice(), version >= 3)?;
    Ok(Book {
        next,
        segments,
        ends,
        aside,
    })
}
