//! Bytes as text: `%` and two hexadecimal digits are a byte, `%CR` an end of line of HTTP, `%CL` the
//! class of keys and values behind its length, `%MK` the marker of c1.1.1, and `%ZZ` six zeros.
use chk_bytes::Bytes;
use std::alloc::Global;
use std::test::Fail;

const CLASS: &[u8] = b"\x22org.apache.hadoop.io.BytesWritable";

// The MD5 of `c1.1.1`.
const MARKER: &[u8] = b"\x0a\xf0\x97\x25\xe9\x50\xf7\x0f\x42\xf5\x31\xed\xf6\x35\xb2\x40";

fn push_byte(bytes: &mut Bytes, digits: &str) -> Result<(), Fail> {
    let byte = u8::from_str_radix(digits, 16)?;
    Ok(bytes.push_all(&[byte])?)
}

fn push_escape(bytes: &mut Bytes, escape: &str) -> Result<(), Fail> {
    match escape {
        "CR" => Ok(bytes.push_all(b"\r\n")?),
        "CL" => Ok(bytes.push_all(CLASS)?),
        "MK" => Ok(bytes.push_all(MARKER)?),
        "ZZ" => Ok(bytes.push_all(b"\0\0\0\0\0\0")?),
        digits => push_byte(bytes, digits),
    }
}

fn push_part(bytes: &mut Bytes, part: &str) -> Result<(), Fail> {
    let (escape, rest) = part.split_at_checked(2).ok_or("no escape")?;
    push_escape(bytes, escape)?;
    Ok(bytes.push_all(rest.as_bytes())?)
}

fn push_text(bytes: &mut Bytes, text: &str) -> Result<(), Fail> {
    let mut parts = text.split('%');
    bytes.push_all(parts.next().unwrap_or("").as_bytes())?;
    for part in parts {
        push_part(bytes, part)?;
    }
    Ok(())
}

pub(crate) fn bytes_of(alloc: Global, text: &str) -> Result<Bytes, Fail> {
    let mut bytes = Bytes::new(alloc);
    push_text(&mut bytes, text)?;
    Ok(bytes)
}

fn push_times(bytes: &mut Bytes, piece: &str, times: u32) -> Result<(), Fail> {
    for _time in 0..times {
        push_text(bytes, piece)?;
    }
    Ok(())
}

// The bytes are those of the text.
pub(crate) fn is_text(alloc: Global, bytes: &[u8], text: &str) -> Result<(), Fail> {
    if bytes == bytes_of(alloc, text)?.as_slice() {
        Ok(())
    } else {
        Err(Fail::new(text))
    }
}

// So many times the same piece, between a front and a back.
pub(crate) fn repeated(
    alloc: Global,
    front: &str,
    piece: &str,
    times: u32,
    back: &str,
) -> Result<Bytes, Fail> {
    let mut out = Bytes::new(alloc);
    push_text(&mut out, front)?;
    push_times(&mut out, piece, times)?;
    push_text(&mut out, back)?;
    Ok(out)
}
