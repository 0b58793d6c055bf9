//! The words of a line, and answers as a word with numbers.

use chk_bytes::Word;
use std::alloc::Global;
use std::test::Fail;

// The word, and the numbers behind it.
pub(crate) fn told(alloc: Global, word: &str, numbers: &[u64]) -> Result<String, Fail> {
    let mut text = String::from_str(alloc, word)?;
    for number in numbers {
        write!(&mut text, " {number}")?;
    }
    Ok(text)
}

// The first word of a text, and the rest.
pub(crate) fn parted(text: &str) -> (&str, &str) {
    text.split_once(' ').unwrap_or((text, ""))
}

pub(crate) fn word(alloc: Global, text: &str) -> Result<Word, Fail> {
    Ok(Word::new(alloc, text.as_bytes())?)
}
