//! Tests of single words.

ghost use Rattle.std.specs.Prelude.{◌≡◌, map};
ghost use Rattle.std.specs.List.{list_all};
ghost use Rattle.chk_bytes.specs.Words.{is_word};
ghost use Rattle.chk_ctl_line.specs.Names.{are_collectors, are_stores, is_path, is_store};
ghost use Rattle.chk_ctl_line.specs.Names.{number_in};

use chk_bytes::{take_decimal, word_fault};

/// The most collectors of an agent.
const MOST_COLLECTORS: usize = 64;

/// The most stores that are looked at together.
const MOST_STORES: usize = 64;

/// The most bytes of the path of a store, behind which names of its files stand.
const MOST_PATH: usize = 4_064;

/// Whether a text may stand as a source, a type or a name.
pub(crate) fn is_word(text: &str) -> bool
    ensures { result ≡ is_word text.now }
{
    word_fault(text.as_bytes()).is_none()
}

/// Whether texts may be the addresses of an agent's collectors.
pub(crate) fn are_collectors(words: &[&str]) -> bool
    ensures { result ≡ are_collectors (map (λ w. w.now) words.now) }
{
    1 <= words.len() && words.len() <= MOST_COLLECTORS && are_words(words)
}

fn are_words(words: &[&str]) -> bool
    ensures { result ≡ list_all (λ w. is_word w.now) words.now }
{
    words.iter().all(|word| is_word(word))
}

/// Whether texts may name stores that are looked at together.
pub(crate) fn are_stores(words: &[&str]) -> bool
    ensures { result ≡ are_stores (map (λ w. w.now) words.now) }
{
    2 <= words.len() && words.len() <= MOST_STORES && are_paths(words)
}

fn are_paths(words: &[&str]) -> bool
    ensures { result ≡ list_all (λ w. is_path w.now) words.now }
{
    words.iter().all(|word| is_path(word))
}

/// Whether a text may stand in front of the names of a store's files.
pub(crate) fn is_path(text: &str) -> bool
    ensures { result ≡ is_path text.now }
{
    is_word(text) && text.len() <= MOST_PATH
}

/// Whether a text may name a store: the path of a folder, with spaces too.
pub(crate) fn is_store(text: &str) -> bool
    ensures { result ≡ is_store text.now }
{
    text.len() > 0
}

/// The number of 1 to 19 digits, where it is at most so large.
pub(crate) fn number_in(text: &str, most: u64) -> Option<u64>
    ensures { result ≡ number_in most text.now }
{
    let number = take_decimal(text.as_bytes())?;
    if number <= most { Some(number) } else { None }
}
