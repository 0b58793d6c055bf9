//! The lines of an audit.

ghost use Rattle.std.specs.Prelude.{◌≡◌, ◌++◌, codes, decimal, string_bytes, IfOk, IsTrue};
ghost use Rattle.chk_bytes.specs.Words.{is_word, lacks};
ghost use Rattle.chk_world.specs.ArchiveRuns.{is_one_line};
ghost use Rattle.chk_ctl_sum.specs.Lines.{line_of};
ghost use Rattle.chk_ctl_audit.specs.Lines.{audit_line, begins, differs, front_of, line_by, named};
ghost use Rattle.chk_ctl_audit.specs.Lines.{other_line, other_words, same_line, same_words};
ghost use Rattle.chk_ctl_audit.specs.Lines.{short_line, short_words};
ghost use Rattle.chk_ctl_audit_log.specs.declared.summing.LogSum.TheVariants.{Whole};
ghost use Rattle.chk_ctl_sum.specs.Rests.{end_of};

use crate::streams::are_equal;
use chk_bytes::NoMemory;
use chk_ctl_audit_log::LogSum;
use chk_ctl_sum::{Rest, hex_of};
use std::alloc::Global;

/// The words that a line begins with whose stream differs, with the offset where that is known.
pub(crate) fn differs(alloc: Global, parts: Option<u64>) -> Result<String, NoMemory>
    ensures text { IfOk result (λ text. string_bytes text ≡ differs parts) }
    ensures one { IsTrue (lacks 10 (differs parts)) }
{
    match parts {
        Some(at) => differs_at(alloc, at),
        None => differs_somewhere(alloc),
    }
}

fn differs_at(alloc: Global, at: u64) -> Result<String, NoMemory>
    ensures text { IfOk result (λ text. string_bytes text ≡ codes "DIFFERS at " ++ decimal at) }
    ensures one { IsTrue (lacks 10 (codes "DIFFERS at " ++ decimal at)) }
{
    let text = format!(in alloc; "DIFFERS at {at}")?;
    Ok(text)
}

fn differs_somewhere(alloc: Global) -> Result<String, NoMemory>
    ensures { IfOk result (λ text. string_bytes text ≡ codes "DIFFERS") }
{
    let text = format!(in alloc; "DIFFERS")?;
    Ok(text)
}

/// The line of a stream whose archive has this digest from where its log begins on, by what was
/// found of that; where they differ it begins with these words.
pub(crate) fn audit_line(
    alloc: Global,
    rest: &Rest<'_>,
    digest: &[u8; 32],
    found: &LogSum,
    words: &str,
) -> Result<String, NoMemory>
    requires words { IsTrue (lacks 10 words.now) }
    ensures line { IfOk result (λ line. string_bytes line
        ≡ audit_line (end_of rest.now) rest.now.begin digest.now found.now words.now) }
    ensures one { IsTrue (is_one_line
        (audit_line (end_of rest.now) rest.now.begin digest.now found.now words.now)) }
{
    match found {
        LogSum::Whole(log) => whole_line(alloc, rest, digest, log, words),
        LogSum::Ends(at) => short_line(
            alloc,
            words,
            rest.end.source.as_str(),
            rest.end.kind.as_str(),
            rest.end.name.as_str(),
            rest.end.start,
            rest.end.end,
            rest.begin,
            *at,
        ),
    }
}

/// The line of a stream whose log was read up to the archive's end.
fn whole_line(
    alloc: Global,
    rest: &Rest<'_>,
    digest: &[u8; 32],
    log: &[u8; 32],
    words: &str,
) -> Result<String, NoMemory>
    requires words { IsTrue (lacks 10 words.now) }
    ensures line { IfOk result (λ line. string_bytes line
        ≡ audit_line (end_of rest.now) rest.now.begin digest.now (Whole log.now) words.now) }
    ensures one { IsTrue (is_one_line
        (audit_line (end_of rest.now) rest.now.begin digest.now (Whole log.now) words.now)) }
{
    if are_equal(log.as_slice(), digest.as_slice()) {
        same_line(
            alloc,
            rest.end.source.as_str(),
            rest.end.kind.as_str(),
            rest.end.name.as_str(),
            rest.end.start,
            rest.end.end,
            rest.begin,
            digest,
        )
    } else {
        other_line(
            alloc,
            words,
            rest.end.source.as_str(),
            rest.end.kind.as_str(),
            rest.end.name.as_str(),
            rest.end.start,
            rest.end.end,
            rest.begin,
            digest,
            log,
        )
    }
}

fn same_line(
    alloc: Global,
    source: &str,
    kind: &str,
    name: &str,
    start: u64,
    end: u64,
    begin: u64,
    digest: &[u8; 32],
) -> Result<String, NoMemory>
    requires source { IsTrue (is_word source.now) }
    requires kind { IsTrue (is_word kind.now) }
    requires name { IsTrue (is_word name.now) }
    ensures line { IfOk result (λ line. string_bytes line
        ≡ same_line source.now kind.now name.now start end begin digest.now) }
    ensures one { IsTrue (is_one_line
        (same_line source.now kind.now name.now start end begin digest.now)) }
{
    same_text(alloc, source, kind, name, start, end, begin, digest)
}

fn same_text(
    alloc: Global,
    source: &str,
    kind: &str,
    name: &str,
    start: u64,
    end: u64,
    begin: u64,
    digest: &[u8; 32],
) -> Result<String, NoMemory>
    ensures line { IfOk result (λ line. string_bytes line
        ≡ same_line source.now kind.now name.now start end begin digest.now) }
{
    if begin <= start {
        all_text(alloc, source, kind, name, start, end, digest)
    } else {
        part_text(alloc, source, kind, name, start, end, begin, digest)
    }
}

fn all_text(
    alloc: Global,
    source: &str,
    kind: &str,
    name: &str,
    start: u64,
    end: u64,
    digest: &[u8; 32],
) -> Result<String, NoMemory>
    ensures { IfOk result (λ line. string_bytes line
        ≡ line_by (codes "same") source.now kind.now name.now start end (same_words digest.now)) }
{
    let tail = same_tail(alloc, digest)?;
    text_of(alloc, "same", source, kind, name, start, end, tail.as_str())
}

fn same_tail(alloc: Global, digest: &[u8; 32]) -> Result<String, NoMemory>
    ensures { IfOk result (λ tail. string_bytes tail ≡ line_of (same_words digest.now)) }
{
    let digits = hex_of(alloc, digest)?;
    let text = format!(in alloc; "sha256 {digits}\n")?;
    Ok(text)
}

fn part_text(
    alloc: Global,
    source: &str,
    kind: &str,
    name: &str,
    start: u64,
    end: u64,
    begin: u64,
    digest: &[u8; 32],
) -> Result<String, NoMemory>
    ensures { IfOk result (λ line. string_bytes line
        ≡ line_by (codes "PART") source.now kind.now name.now start end
        (begins begin (same_words digest.now))) }
{
    let tail = part_tail(alloc, begin, digest)?;
    text_of(alloc, "PART", source, kind, name, start, end, tail.as_str())
}

fn part_tail(alloc: Global, begin: u64, digest: &[u8; 32]) -> Result<String, NoMemory>
    ensures { IfOk result (λ tail. string_bytes tail
        ≡ line_of (begins begin (same_words digest.now))) }
{
    let digits = hex_of(alloc, digest)?;
    let text = format!(in alloc; "log begins at {begin} sha256 {digits}\n")?;
    Ok(text)
}

fn other_line(
    alloc: Global,
    words: &str,
    source: &str,
    kind: &str,
    name: &str,
    start: u64,
    end: u64,
    begin: u64,
    digest: &[u8; 32],
    log: &[u8; 32],
) -> Result<String, NoMemory>
    requires words { IsTrue (lacks 10 words.now) }
    requires source { IsTrue (is_word source.now) }
    requires kind { IsTrue (is_word kind.now) }
    requires name { IsTrue (is_word name.now) }
    ensures line { IfOk result (λ line. string_bytes line
        ≡ other_line words.now source.now kind.now name.now start end begin digest.now log.now) }
    ensures one { IsTrue (is_one_line
        (other_line words.now source.now kind.now name.now start end begin digest.now log.now)) }
{
    other_text(
        alloc, words, source, kind, name, start, end, begin, digest, log,
    )
}

fn other_text(
    alloc: Global,
    words: &str,
    source: &str,
    kind: &str,
    name: &str,
    start: u64,
    end: u64,
    begin: u64,
    digest: &[u8; 32],
    log: &[u8; 32],
) -> Result<String, NoMemory>
    ensures { IfOk result (λ line. string_bytes line
        ≡ other_line words.now source.now kind.now name.now start end begin digest.now log.now) }
{
    let tail = other_tail(alloc, begin, digest, log)?;
    text_of(alloc, words, source, kind, name, start, end, tail.as_str())
}

fn other_tail(
    alloc: Global,
    begin: u64,
    digest: &[u8; 32],
    log: &[u8; 32],
) -> Result<String, NoMemory>
    ensures { IfOk result (λ tail. string_bytes tail
        ≡ line_of (begins begin (other_words digest.now log.now))) }
{
    let digits = hex_of(alloc, digest)?;
    let others = hex_of(alloc, log)?;
    let text = format!(in alloc; "log begins at {begin} archive {digits} log {others}\n")?;
    Ok(text)
}

fn short_line(
    alloc: Global,
    words: &str,
    source: &str,
    kind: &str,
    name: &str,
    start: u64,
    end: u64,
    begin: u64,
    at: u64,
) -> Result<String, NoMemory>
    requires words { IsTrue (lacks 10 words.now) }
    requires source { IsTrue (is_word source.now) }
    requires kind { IsTrue (is_word kind.now) }
    requires name { IsTrue (is_word name.now) }
    ensures line { IfOk result (λ line. string_bytes line
        ≡ short_line words.now source.now kind.now name.now start end begin at) }
    ensures one { IsTrue (is_one_line
        (short_line words.now source.now kind.now name.now start end begin at)) }
{
    short_text(alloc, words, source, kind, name, start, end, begin, at)
}

fn short_text(
    alloc: Global,
    words: &str,
    source: &str,
    kind: &str,
    name: &str,
    start: u64,
    end: u64,
    begin: u64,
    at: u64,
) -> Result<String, NoMemory>
    ensures { IfOk result (λ line. string_bytes line
        ≡ short_line words.now source.now kind.now name.now start end begin at) }
{
    let tail = short_tail(alloc, begin, at)?;
    text_of(alloc, words, source, kind, name, start, end, tail.as_str())
}

fn short_tail(alloc: Global, begin: u64, at: u64) -> Result<String, NoMemory>
    ensures { IfOk result (λ tail. string_bytes tail ≡ line_of (begins begin (short_words at))) }
{
    let text = format!(in alloc; "log begins at {begin} log ends at {at}\n")?;
    Ok(text)
}

/// A line with this behind the offsets.
fn text_of(
    alloc: Global,
    found: &str,
    source: &str,
    kind: &str,
    name: &str,
    start: u64,
    end: u64,
    tail: &str,
) -> Result<String, NoMemory>
    ensures { IfOk result (λ line. string_bytes line
        ≡ front_of found.now source.now kind.now name.now start end
        ++ (codes " " ++ tail.now)) }
{
    let front = front_of(alloc, found, source, kind, name, start, end)?;
    let text = format!(in alloc; "{front} {tail}")?;
    Ok(text)
}

/// What was found, the words that name the stream, and its offsets.
fn front_of(
    alloc: Global,
    found: &str,
    source: &str,
    kind: &str,
    name: &str,
    start: u64,
    end: u64,
) -> Result<String, NoMemory>
    ensures { IfOk result (λ text.
        string_bytes text ≡ front_of found.now source.now kind.now name.now start end) }
{
    let named = named(alloc, found, source, kind, name)?;
    let text = format!(in alloc; "{named} start {start} end {end}")?;
    Ok(text)
}

/// What was found, and the words that name the stream.
fn named(
    alloc: Global,
    found: &str,
    source: &str,
    kind: &str,
    name: &str,
) -> Result<String, NoMemory>
    ensures { IfOk result (λ text.
        string_bytes text ≡ named found.now source.now kind.now name.now) }
{
    let text = format!(in alloc; "{found} {source} {kind} {name}")?;
    Ok(text)
}
