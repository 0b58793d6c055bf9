//! One line of a checkpoint.

ghost use Rattle.std.specs.Prelude.{◌≡◌, ℕ, Bool, List, Option, IsTrue, IfOk, IfSome, IfNone, bytes_eq, codes, is_some};
ghost use Rattle.chk_bytes.specs.Words.{is_word};
ghost use Rattle.chk_control.specs.Classes.{class_named};
ghost use Rattle.chk_control.specs.Lines.{is_name};
ghost use Rattle.chk_world.specs.Checkpoints.{Line, Version as Text, after_text, is_after_text, guessed_after, is_line};
ghost use Rattle.chk_checkpoint.specs.Lines.{shown, text_version, state_word};
ghost use Rattle.chk_checkpoint.specs.Fields.{words_in, has_start, lent, lent_after, IsLineText, IsLineWords, IsMeaning, start_in};

use crate::CheckLine;
use crate::version::Version;
use crate::words::{Words, words_of};
use chk_bytes::{NoMemory, Word, take_plain_decimal};
use chk_control::{Class, class_named, is_name, is_word};
use chk_rotate::Place;
use chk_site::{Suffix, is_suffix};
use std::alloc::Global;

/// Starts are below this.
const START_LIMIT: u64 = 1 << 62;

/// Offsets are below this.
const OFFSET_LIMIT: u64 = 1 << 63;

/// A line that borrows its texts from the text of the checkpoint.
#[derive(Clone, Copy)]
pub(crate) struct LineRef<'a> {
    pub(crate) live: bool,
    pub(crate) name: &'a [u8],
    pub(crate) class: Class,
    pub(crate) kind: &'a [u8],
    pub(crate) path: &'a [u8],
    pub(crate) offset: u64,
    pub(crate) first: u64,
    pub(crate) after: Option<&'a [u8]>,
    pub(crate) start: u64,
}

/// The line that a text spells, which has no newline.
pub(crate) fn read_line<'a>(version: Version, text: &'a [u8]) -> Option<LineRef<'a>>
    ensures some { IfSome result (λ l. IsLineText (text_version version) text.now (lent l)) }
    ensures none { IfNone result ((l : Line) → IsLineText (text_version version) text.now l → ⊥) }
{
    let words = words_of(version, text)?;
    line_of(version, words)
}

// The line of these words.
fn line_of<'a>(version: Version, words: Words<'a>) -> Option<LineRef<'a>>
    requires { is_some words.start ≡ has_start (text_version version) }
    ensures some { IfSome result (λ l. IsLineWords (text_version version) (words_in words.entry) (lent l)) }
    ensures none { IfNone result ((l : Line) → IsLineWords (text_version version) (words_in words.entry) l → ⊥) }
{
    let line = meaning_of(version, words)?;
    if is_sign(words.equal) && is_line(&line) {
        Some(line)
    } else {
        None
    }
}

// What each of these words stands for.
fn meaning_of<'a>(version: Version, words: Words<'a>) -> Option<LineRef<'a>>
    requires { is_some words.start ≡ has_start (text_version version) }
    ensures some { IfSome result (λ l. IsMeaning (text_version version) words.entry l) }
    ensures none { IfNone result ((l : Line) → IsLineWords (text_version version) (words_in words.entry) l → ⊥) }
{
    let live = live_of(words.state)?;
    let class = class_named(words.class)?;
    let after = after_of(words.after)?;
    let offset = take_plain_decimal(words.offset)?;
    let first = take_plain_decimal(words.first)?;
    let start = start_of(words.start)?;
    Some(LineRef {
        live,
        name: words.name,
        class,
        kind: words.kind,
        path: words.path,
        offset,
        first,
        after,
        start,
    })
}

fn is_sign(word: &[u8]) -> bool
    ensures { result ≡ bytes_eq word.now (codes "=") }
{
    word == b"=".as_slice()
}

fn live_of(word: &[u8]) -> Option<bool>
    ensures some { IfSome result (λ live. state_word live ≡ word.now) }
    ensures none { IfNone result ((live : Bool) → state_word live ≡ word.now → ⊥) }
{
    if word == b"add".as_slice() {
        Some(true)
    } else if word == b"past".as_slice() {
        Some(false)
    } else {
        None
    }
}

// The suffix that a word names, where it isn't the sign for none.
fn after_of<'a>(word: &'a [u8]) -> Option<Option<&'a [u8]>>
    ensures some { IfSome result (λ after. after_text (lent_after after) ≡ word.now) }
    ensures is { IfSome result (λ after. lent_after after ≡ guessed_after word.now) }
    ensures none { IfNone result ((after : Option (List ℕ)) → IsTrue (is_after_text after) → after_text after ≡ word.now → ⊥) }
{
    if word == b"-".as_slice() {
        Some(None)
    } else if is_suffix(word) {
        Some(Some(word))
    } else {
        None
    }
}

fn start_of(word: Option<&[u8]>) -> Option<u64>
    ensures { result ≡ start_in word.entry }
{
    match word {
        None => Some(0),
        Some(word) => take_plain_decimal(word),
    }
}

fn is_line(line: &LineRef<'_>) -> bool
    ensures { result ≡ is_line (lent line.now) }
{
    is_name(line.name)
        && is_word(line.kind)
        && is_word(line.path)
        && line.after.is_none_or(|after| is_suffix(after))
        && line.start < START_LIMIT
        && line.start <= line.first
        && line.first <= line.offset
        && line.offset < OFFSET_LIMIT
        && (line.class != Class::Plain || (line.after.is_none() && line.first == line.start))
}

/// The same line, which owns its texts.
pub(crate) fn own_line(alloc: Global, line: &LineRef<'_>) -> Result<CheckLine, NoMemory>
    ensures { IfOk result (λ l. shown l ≡ lent line.now) }
{
    let place = own_place(alloc, line)?;
    let name = own_word(alloc, line.name)?;
    let (kind, path) = own_stream(alloc, line)?;
    Ok(CheckLine {
        name,
        live: line.live,
        class: line.class,
        kind,
        path,
        place,
        start: line.start,
    })
}

fn own_place(alloc: Global, line: &LineRef<'_>) -> Result<Place, NoMemory>
    ensures after { IfOk result (λ p. p.after ≡ lent_after line.now.after) }
    ensures first { IfOk result (λ p. p.first ≡ line.now.first) }
    ensures offset { IfOk result (λ p. p.offset ≡ line.now.offset) }
{
    let after = match line.after {
        Some(suffix) => Some(own_suffix(alloc, suffix)?),
        None => None,
    };
    Ok(Place {
        after,
        first: line.first,
        offset: line.offset,
    })
}

// The type and the path.
fn own_stream(alloc: Global, line: &LineRef<'_>) -> Result<(Word, Word), NoMemory>
    ensures kind { IfOk result (λ s. s.0 ≡ line.now.kind.now) }
    ensures path { IfOk result (λ s. s.1 ≡ line.now.path.now) }
{
    let kind = own_word(alloc, line.kind)?;
    let path = own_word(alloc, line.path)?;
    Ok((kind, path))
}

fn own_word(alloc: Global, text: &[u8]) -> Result<Word, NoMemory>
    ensures { IfOk result (λ word. word ≡ text.now) }
{
    Word::new(alloc, text).map_err(|_| NoMemory)
}

fn own_suffix(alloc: Global, text: &[u8]) -> Result<Suffix, NoMemory>
    ensures { IfOk result (λ suffix. suffix ≡ text.now) }
{
    Suffix::new(alloc, text).map_err(|_| NoMemory)
}
