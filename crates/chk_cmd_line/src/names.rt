//! Tests of single words.

ghost use Rattle.std.specs.Prelude.{◌≡◌, map, IfSome};
ghost use Rattle.std.specs.List.{list_all};
ghost use Rattle.chk_bytes.specs.Words.{is_word};
ghost use Rattle.chk_bytes.specs.Stems.{is_collector};
ghost use Rattle.chk_cmd_line.specs.Good.{IsIn};
ghost use Rattle.chk_cmd_line.specs.Names.{is_source, is_source_byte, number_in, are_words};

use chk_bytes::{Stem, take_decimal, word_fault};

/// Whether a text may stand as a type, a path, an address or a cluster.
pub(crate) fn is_word(text: &str) -> bool
    ensures { result ≡ is_word text.now }
{
    word_fault(text.as_bytes()).is_none()
}

/// Whether there are from `least` to `most` words, and each is one.
pub(crate) fn are_words(words: &[&str], least: usize, most: usize) -> bool
    ensures { result ≡ are_words least most (map (λ w. w.now) words.now) }
{
    least <= words.len() && words.len() <= most && are_all_words(words)
}

fn are_all_words(words: &[&str]) -> bool
    ensures { result ≡ list_all (λ w. is_word w.now) words.now }
{
    words.iter().all(|word| is_word(word))
}

/// Whether a text may name an agent.
pub(crate) fn is_source(text: &str) -> bool
    ensures { result ≡ is_source text.now }
{
    let bytes = text.as_bytes();
    !bytes.is_empty() && bytes.len() <= 64 && bytes[0] != b'.' && are_source_bytes(bytes)
}

fn are_source_bytes(bytes: &[u8]) -> bool
    ensures { result ≡ list_all is_source_byte bytes.now }
{
    bytes.iter().all(|b| b.is_ascii_alphanumeric() || *b == b'_' || *b == b'-' || *b == b'.')
}

/// Whether a text may name a collector.
pub(crate) fn is_collector(text: &str) -> bool
    ensures { result ≡ is_collector text.now }
{
    Stem::new(text, 1, 1).is_some()
}

/// The number of 1 to 19 digits from `least` to `most`.
pub(crate) fn number_in(text: &str, least: u64, most: u64) -> Option<u64>
    ensures value { result ≡ number_in least most text.now }
    ensures bounds { IfSome result (IsIn least most) }
{
    let number = take_decimal(text.as_bytes())?;
    if least <= number && number <= most {
        Some(number)
    } else {
        None
    }
}
