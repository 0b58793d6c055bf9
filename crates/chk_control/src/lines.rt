//! Reading a line.

ghost use Rattle.std.specs.Prelude.{◌≡◌, ℕ, List, [], ◌∷◌, Option, option_map, IfOk, IfErr, IsTrue};
ghost use Rattle.std.specs.Str.{is_utf8};
ghost use Rattle.chk_bytes.specs.Words.{is_word};
ghost use Rattle.chk_control.specs.declared.commands.Command.{Command};
ghost use Rattle.chk_control.specs.LineWords.{without_return, PlainWordsAreGood};
ghost use Rattle.chk_control.specs.Lines.{IsLineRefusal, IsReading, is_name, are_good, offset_of, meaning_alone, meaning_with_name, meaning_of_adaptor, meaning_of_add, meaning_of_words, meaning_of};
ghost use Rattle.chk_control.specs.Spellings.{is_command, SpellingsAreRead, LinesAskForCommands, SpacesDoNotMatter};

use crate::class_names::class_of_name;
use crate::line_words::LineWords;
use crate::{Command, LineFault};
use chk_bytes::{Word, take_plain_decimal, word_fault};
use std::alloc::Global;

/// What a line asks for. `line` stands before the newline; one carriage return at its end is
/// dropped, but counts among the 16,384 bytes that a line may have. The words that the command
/// keeps are copied to the heap, and nothing else. It costs the length of the line, and nothing
/// where the line is too long.
#[tactic(auto, unfolding(crate::specs::Lines::meaning_of))]
pub fn read_line(alloc: Global, line: &[u8]) -> Result<Command, LineFault>
    ensures command { IfOk result (λ command. meaning_of line.now ≡ Ok command) }
    ensures known { IfOk result (λ command. IsTrue (is_command command)) }
    ensures fault { IfErr result (λ fault. IsLineRefusal (meaning_of line.now) fault) }
{
    if line.len() > 16_384 {
        return Err(LineFault::LongLine);
    }
    if !is_utf8(line) {
        return Err(LineFault::NotUtf8);
    }
    read_words(alloc, LineWords::new(without_return(line)))
}

fn is_utf8(bytes: &[u8]) -> bool
    ensures { result ≡ is_utf8 bytes.now }
{
    str::from_utf8(bytes).is_ok()
}

fn without_return(line: &[u8]) -> &[u8]
    ensures { result.now ≡ without_return line.now }
{
    line.strip_suffix(b"\r".as_slice()).unwrap_or(line)
}

fn read_words(alloc: Global, mut words: LineWords<'_>) -> Result<Command, LineFault>
    ensures { IsReading (meaning_of_words words.entry) result }
{
    let Some(verb) = words.next() else {
        return Ok(Command::Blank);
    };
    if verb == b"add".as_slice() {
        return read_add(alloc, words);
    }
    if verb == b"close".as_slice() {
        return alone(Command::Close, words);
    }
    if verb == b"help".as_slice() {
        return alone(Command::Help, words);
    }
    if verb == b"list".as_slice() {
        return alone(Command::List, words);
    }
    if verb == b"reloadcollectors".as_slice() {
        return alone(Command::ReloadCollectors, words);
    }
    if verb == b"stop".as_slice() {
        let name = read_name(alloc, words)?;
        return Ok(Command::Stop { name });
    }
    if verb == b"stopall".as_slice() {
        return alone(Command::StopAll, words);
    }
    if verb == b"shutdown".as_slice() {
        let name = read_name(alloc, words)?;
        return Ok(Command::Shutdown { name });
    }
    if verb == b"stopagent".as_slice() {
        return alone(Command::StopAgent, words);
    }
    Err(LineFault::Unknown)
}

/// A command with no word behind its own.
fn alone(command: Command, mut words: LineWords<'_>) -> Result<Command, LineFault>
    ensures { result ≡ meaning_alone command words.entry }
{
    match words.next() {
        None => Ok(command),
        Some(_) => Err(LineFault::ExtraWord),
    }
}

/// The one name behind a command's own word.
fn read_name(alloc: Global, mut words: LineWords<'_>) -> Result<Word, LineFault>
    ensures name { IfOk result (λ name. words.entry ≡ name ∷ []) }
    ensures good { IfOk result (λ name. IsTrue (is_name name)) }
    ensures fault { IfErr result (λ fault. (command : List ℕ → Command)
        → IsLineRefusal (meaning_with_name command words.entry) fault) }
{
    let name = words.next().ok_or(LineFault::MissingWord)?;
    if words.next().is_some() {
        return Err(LineFault::ExtraWord);
    }
    if !is_name(name) {
        return Err(LineFault::BadWord);
    }
    word_of(alloc, name)
}

/// The words behind `add`.
fn read_add(alloc: Global, words: LineWords<'_>) -> Result<Command, LineFault>
    ensures { IsReading (meaning_of_add words.entry) result }
{
    let mut behind = words.copy();
    let name = behind.next();
    if let Some(next) = behind.next()
        && next == b"=".as_slice()
    {
        return read_adaptor(alloc, name, behind);
    }
    read_adaptor(alloc, None, words)
}

/// The four words that an adaptor has behind its name.
#[derive(Clone, Copy)]
struct AdaptorWords<'a> {
    class: &'a [u8],
    kind: &'a [u8],
    path: &'a [u8],
    offset: &'a [u8],
}

fn adaptor_words<'a>(mut words: LineWords<'a>) -> Result<AdaptorWords<'a>, LineFault>
    ensures words { IfOk result (λ four. words.entry
        ≡ four.class.now ∷ four.kind.now ∷ four.path.now ∷ four.offset.now ∷ []) }
    ensures fault { IfErr result (λ fault. (name : Option (List ℕ))
        → meaning_of_adaptor name words.entry ≡ Err fault) }
{
    let class = words.next().ok_or(LineFault::MissingWord)?;
    let kind = words.next().ok_or(LineFault::MissingWord)?;
    let path = words.next().ok_or(LineFault::MissingWord)?;
    let offset = words.next().ok_or(LineFault::MissingWord)?;
    if words.next().is_some() {
        return Err(LineFault::ExtraWord);
    }
    Ok(AdaptorWords {
        class,
        kind,
        path,
        offset,
    })
}

fn read_adaptor(
    alloc: Global,
    name: Option<&[u8]>,
    words: LineWords<'_>,
) -> Result<Command, LineFault>
    ensures { IsReading
        (meaning_of_adaptor (option_map (λ n. n.now) name.entry) words.entry) result }
{
    let four = adaptor_words(words)?;
    if !are_good(name, four) {
        return Err(LineFault::BadWord);
    }
    let class = class_of_name(four.class).ok_or(LineFault::BadClass)?;
    let offset = offset_of(four.offset).ok_or(LineFault::BadOffset)?;
    let name = match name {
        Some(name) => Some(word_of(alloc, name)?),
        None => None,
    };
    Ok(Command::Add {
        name,
        class,
        kind: word_of(alloc, four.kind)?,
        path: word_of(alloc, four.path)?,
        offset,
    })
}

fn are_good(name: Option<&[u8]>, words: AdaptorWords<'_>) -> bool
    ensures { result ≡ are_good (option_map (λ n. n.now) name.entry) words.entry.class.now
        words.entry.kind.now words.entry.path.now words.entry.offset.now }
{
    let name_is_good = match name {
        Some(name) => is_name(name),
        None => true,
    };
    name_is_good
        && is_word(words.class)
        && is_word(words.kind)
        && is_word(words.path)
        && is_word(words.offset)
}

fn offset_of(word: &[u8]) -> Option<u64>
    ensures { result ≡ offset_of word.now }
{
    let n = take_plain_decimal(word)?;
    if n < 1 << 62 { Some(n) } else { None }
}

/// The bytes are a word.
pub fn is_word(text: &[u8]) -> bool
    ensures { result ≡ is_word text.now }
{
    word_fault(text).is_none()
}

/// The bytes may name an adaptor: a word of at most 64 bytes other than `=`.
pub fn is_name(text: &[u8]) -> bool
    ensures { result ≡ is_name text.now }
{
    text.len() <= 64 && text != b"=".as_slice() && is_word(text)
}

/// A word that is known to be a good one, on the heap.
fn word_of(alloc: Global, text: &[u8]) -> Result<Word, LineFault>
    requires { IsTrue (is_word text.now) }
    ensures word { IfOk result (λ word. word ≡ text.now) }
    ensures fault { IfErr result (λ fault. fault ≡ LineFault.NoMemory) }
{
    Word::new(alloc, text).map_err(|_| LineFault::NoMemory)
}

/// In a line of UTF-8 a word is refused as bad for its length or a control byte alone.
pub fn law_plain_words()
    ensures { PlainWordsAreGood }
{}

/// The spelling of a command is read as that command, where a line can ask for it at all.
pub fn law_spellings()
    ensures { SpellingsAreRead }
{}

/// A line asks for no other commands.
pub fn law_commands()
    ensures { LinesAskForCommands }
{}

/// An accepted line means the same with one space between each two words and no others.
pub fn law_spacing()
    ensures { SpacesDoNotMatter }
{}
