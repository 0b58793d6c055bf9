//! Bytes that are written as words.
use crate::cases::joined;
use chk_bytes::{Bytes, put_u16, put_u32, put_u64};
use std::alloc::Global;
use std::test::Fail;

#[derive(Drop)]
struct Part {
    name: String,
    bytes: Bytes,
}

/// The parts that words of bytes may name.
#[derive(Drop)]
pub struct Parts {
    parts: Vec<Part>,
}

// How long the first word is. A space inside quotation marks doesn't end it.
fn word_length(text: &str) -> usize {
    let mut is_quoted = false;
    let mut is_escaped = false;
    for (i, b) in text.as_bytes().iter().enumerate() {
        if is_escaped {
            is_escaped = false;
        } else if *b == b'\\' {
            is_escaped = is_quoted;
        } else if *b == b'"' {
            is_quoted = !is_quoted;
        } else if *b == b' ' && !is_quoted {
            return i;
        }
    }
    text.len()
}

fn escaped_byte(escape: &str) -> Result<u8, Fail> {
    match escape {
        "n" => Ok(b'\n'),
        "t" => Ok(b'\t'),
        "r" => Ok(b'\r'),
        "0" => Ok(0),
        "\"" => Ok(b'"'),
        _ => {
            let digits = escape.strip_prefix("x").ok_or("no such escape")?;
            Ok(u8::from_str_radix(digits, 16)?)
        }
    }
}

// What stands behind a `\`: an escape, and text.
fn push_escaped(bytes: &mut Bytes, text: &str) -> Result<(), Fail> {
    let length = if text.starts_with("x") { 3 } else { 1 };
    let escape = text.get(..length).ok_or("no such escape")?;
    bytes.push_all(&[escaped_byte(escape)?])?;
    Ok(bytes.push_all(text.as_bytes().get(length..).unwrap_or(b""))?)
}

// The text between quotation marks, with Rust's escapes.
fn push_quoted(bytes: &mut Bytes, text: &str) -> Result<(), Fail> {
    let mut is_escape = false;
    for piece in text.split('\\') {
        if !is_escape {
            bytes.push_all(piece.as_bytes())?;
            is_escape = true;
        } else if piece.is_empty() {
            bytes.push_all(b"\\")?;
            is_escape = false;
        } else {
            push_escaped(bytes, piece)?;
        }
    }
    Ok(())
}

// A number, the high byte first, or bytes in hexadecimal digits.
fn push_number(bytes: &mut Bytes, size: &str, number: &str) -> Result<(), Fail> {
    match size {
        "one" => Ok(bytes.push_all(&[number.parse()?])?),
        "two" => Ok(put_u16(bytes, number.parse()?)?),
        "four" => Ok(put_u32(bytes, number.parse()?)?),
        "eight" => Ok(put_u64(bytes, number.parse()?)?),
        "hex" => {
            for digits in number.split('.') {
                bytes.push_all(&[u8::from_str_radix(digits, 16)?])?;
            }
            Ok(())
        }
        _ => Err(Fail::from("no such number")),
    }
}

impl Parts {
    /// No parts.
    pub fn new(alloc: Global) -> Parts {
        Parts {
            parts: Vec::new(alloc),
        }
    }

    fn part(&self, name: &str) -> Result<&[u8], Fail> {
        for part in &self.parts {
            if part.name.as_str() == name {
                return Ok(part.bytes.as_slice());
            }
        }
        Err(Fail::new(name))
    }

    // A name, a number or a quoted text.
    fn push_one(&self, bytes: &mut Bytes, word: &str) -> Result<(), Fail> {
        if let Some(rest) = word.strip_prefix("\"") {
            let text = rest.strip_suffix("\"").ok_or("no end of a text")?;
            return push_quoted(bytes, text);
        }
        match word.split_once(':') {
            Some((size, number)) => push_number(bytes, size, number),
            None => Ok(bytes.push_all(self.part(word)?)?),
        }
    }

    // `N*WORD`, or a word alone.
    fn push_word(&self, alloc: Global, bytes: &mut Bytes, word: &str) -> Result<(), Fail> {
        let (count, word) = match word.split_once('*') {
            Some((count, word)) if !count.starts_with("\"") => (count.parse()?, word),
            _ => (1, word),
        };
        let mut piece = Bytes::new(alloc);
        self.push_one(&mut piece, word)?;
        for _time in 0u64..count {
            bytes.push_all(piece.as_slice())?;
        }
        Ok(())
    }

    /// The bytes of these words, one behind the other.
    pub fn bytes(&self, alloc: Global, words: &str) -> Result<Bytes, Fail> {
        let mut bytes = Bytes::new(alloc);
        let mut end = 0;
        for (start, b) in words.as_bytes().iter().enumerate() {
            if start >= end && *b != b' ' {
                let rest = words.get(start..).ok_or("no word")?;
                end = start.saturating_add(word_length(rest));
                let word = words.get(start..end).ok_or("no word")?;
                self.push_word(alloc, &mut bytes, word)?;
            }
        }
        Ok(bytes)
    }

    /// Adds the parts that these lines define, `NAME = WORDS`. A line may name parts above it.
    pub fn add(&mut self, alloc: Global, text: &str) -> Result<(), Fail> {
        let text = joined(alloc, text)?;
        for line in text.as_str().lines() {
            if !line.is_empty() {
                let (name, words) = line.split_once(" = ").ok_or("no part")?;
                let name = String::from_str(alloc, name.trim())?;
                let bytes = self.bytes(alloc, words)?;
                self.parts.push(Part { name, bytes })?;
            }
        }
        Ok(())
    }
}
