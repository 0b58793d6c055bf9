//! Filters, which say of each chunk whether a watcher wants it.

ghost use Rattle.std.specs.Prelude.{◌≡◌, ◌==◌, ◌<◌, IfOk, IfErr, OnOk, Some, Ok, IfSome, length, position};
ghost use Rattle.chk_bytes.specs.Words.{behind_front};
ghost use Rattle.chk_chunk.specs.Lent.{lent_chunk};
ghost use Rattle.chk_tee.specs.Filters.{allows, passes, everything, asked_too, added, filter_in};
ghost use Rattle.chk_tee.specs.FilterFaults.{IsFilterFault, IsAddFault, IsWordFault, IsBehind};

use chk_bytes::{Word, word_fault};
use chk_chunk::ChunkRef;
use std::alloc::Global;

/// Which chunks pass: those whose source, data type and stream name are the given words, where one
/// is given.
#[derive(Debug, Drop)]
pub struct Filter {
    /// The agent that read the bytes.
    pub host: Option<Word>,
    /// The data type.
    pub kind: Option<Word>,
    /// The stream's name.
    pub name: Option<Word>,
}

/// Why a text is no filter.
#[derive(Clone, Copy, Debug, PartialEq, Eq)]
pub enum FilterFault {
    /// The part that begins at the byte `at` isn't `host=`, `datatype=` or `name=` with a word
    /// behind it, or the name was asked for before.
    BadPart { at: u64 },
    /// There was no memory for a word.
    NoMemory,
}

impl Filter {
    /// The filter that lets each chunk pass.
    pub fn everything() -> Filter
        ensures { result ≡ everything }
    {
        Filter {
            host: None,
            kind: None,
            name: None,
        }
    }

    /// The chunk passes. It costs at most the chunk's names.
    pub fn passes(&self, chunk: &ChunkRef<'_>) -> bool
        ensures { result ≡ passes self.now (lent_chunk chunk.now).key.stream }
    {
        allows(&self.host, chunk.source)
            && allows(&self.kind, chunk.kind)
            && allows(&self.name, chunk.name)
    }

    // Asks for what the part asks for, which begins at `at`.
    fn add(&mut self, alloc: Global, part: &[u8], at: usize) -> Result<(), FilterFault>
        ensures ok { OnOk result (added self.old part.now ≡ Some self.new) }
        ensures err { IfErr result (λ fault. IsAddFault self.old part.now at fault) }
    {
        if let Some(word) = behind(b"host=", part) {
            ask(alloc, &mut self.host, word, at)
        } else if let Some(word) = behind(b"datatype=", part) {
            ask(alloc, &mut self.kind, word, at)
        } else if let Some(word) = behind(b"name=", part) {
            ask(alloc, &mut self.name, word, at)
        } else {
            Err(FilterFault::BadPart { at: at as u64 })
        }
    }
}

/// The filter that a text is: `all`, or 1 to 3 parts with `&` between each two, which are `host=`,
/// `datatype=` and `name=` in any order, each at most once, each with a word without `&` behind it.
pub fn read_filter(alloc: Global, text: &[u8]) -> Result<Filter, FilterFault>
    ensures filter { IfOk result (λ filter. filter_in text.now ≡ Ok filter) }
    ensures fault { IfErr result (λ fault. IsFilterFault text.now fault) }
{
    let mut filter = Filter::everything();
    if text == b"all".as_slice() {
        return Ok(filter);
    }
    let mut at = 0;
    while let Some(size) = first_separator(&text[at..]) {
        match filter.add(alloc, &text[at..at + size], at) {
            Ok(()) => at += size + 1,
            Err(fault) => return Err(fault),
        }
    }
    match filter.add(alloc, &text[at..], at) {
        Ok(()) => Ok(filter),
        Err(fault) => Err(fault),
    }
}

// Nothing is asked of the name, or it is the word.
fn allows(asked: &Option<Word>, name: &str) -> bool
    ensures { result ≡ allows asked.now name.now }
{
    match asked {
        None => true,
        Some(word) => word.as_str() == name,
    }
}

// Asks for the word, where nothing is asked yet.
fn ask(alloc: Global, asked: &mut Option<Word>, word: &[u8], at: usize) -> Result<(), FilterFault>
    ensures ok { OnOk result (asked_too asked.old word.now ≡ Some word.now) }
    ensures new { OnOk result (asked.new ≡ Some word.now) }
    ensures err { IfErr result (λ fault. IsWordFault asked.old word.now at fault) }
{
    if asked.is_some() {
        return Err(FilterFault::BadPart { at: at as u64 });
    }
    if word_fault(word).is_some() {
        return Err(FilterFault::BadPart { at: at as u64 });
    }
    match Word::new(alloc, word) {
        Ok(word) => {
            *asked = Some(word);
            Ok(())
        }
        Err(_) => Err(FilterFault::NoMemory),
    }
}

// What stands behind a front of the text.
fn behind<'a>(front: &[u8], text: &'a [u8]) -> Option<&'a [u8]>
    ensures { IsBehind front.now text.now result }
{
    if text.starts_with(front) {
        Some(&text[front.len()..])
    } else {
        None
    }
}

// The place of the first `&`.
fn first_separator(text: &[u8]) -> Option<usize>
    ensures place { result ≡ position (λ b. b == 38) text.now }
    ensures within { IfSome result (λ i. i < length text.now) }
{
    text.iter().position(|b| *b == b'&')
}
