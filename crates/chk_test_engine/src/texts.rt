//! Bytes as printable text, and back.
use chk_bytes::Bytes;
use std::alloc::Global;
use std::test::Fail;

/// An owned copy of this text.
pub fn plain(alloc: Global, text: &str) -> Result<String, Fail> {
    Ok(String::from_str(alloc, text)?)
}

/// The bytes as text: a newline as `|`, other bytes that aren't printable ASCII as `<hh>`.
pub fn shown(alloc: Global, bytes: &[u8]) -> Result<String, Fail> {
    let mut text = String::new(alloc);
    for b in bytes {
        if *b == b'\n' {
            text.push('|')?;
        } else if b.is_ascii_graphic() || *b == b' ' {
            text.push(char::from(*b))?;
        } else {
            write!(text, "<{b:02x}>")?;
        }
    }
    Ok(text)
}

fn push_text(bytes: &mut Bytes, text: &str) -> Result<(), Fail> {
    for b in text.as_bytes() {
        bytes.push_all(&[if *b == b'|' { b'\n' } else { *b }])?;
    }
    Ok(())
}

// The byte of two hexadecimal digits, which `>` follows, and the rest behind that.
fn digits(text: &str) -> Option<(u8, &str)> {
    let (digits, rest) = text.split_once('>')?;
    if digits.len() == 2 {
        let byte = u8::from_str_radix(digits, 16).ok()?;
        Some((byte, rest))
    } else {
        None
    }
}

/// The bytes that `shown` shows so.
pub fn text_bytes(alloc: Global, text: &str) -> Result<Bytes, Fail> {
    let mut bytes = Bytes::new(alloc);
    let (first, _) = text.split_once('<').unwrap_or((text, ""));
    push_text(&mut bytes, first)?;
    for part in text.split('<').skip(1) {
        match digits(part) {
            Some((byte, rest)) => {
                bytes.push_all(&[byte])?;
                push_text(&mut bytes, rest)?;
            }
            None => {
                bytes.push_all(b"<")?;
                push_text(&mut bytes, part)?;
            }
        }
    }
    Ok(bytes)
}
