//! Texts as values of labels.

ghost use Rattle.std.specs.Prelude.{◌≡◌, ◌++◌, flat_map, OnOk};
ghost use Rattle.chk_ctl_metrics.specs.Metrics.{escaped, label};

use chk_bytes::{Bytes, NoMemory};

/// Appends a label and its value, in quotes.
pub(crate) fn put_label(out: &mut Bytes, name: &str, value: &str) -> Result<(), NoMemory>
    ensures { OnOk result (out.new ≡ out.old ++ label name.now value.now) }
{
    out.push_all(name.as_bytes())?;
    out.push_all(b"=\"")?;
    put_escaped(out, value.as_bytes())?;
    out.push_all(b"\"")
}

/// Appends the text, with a backslash before each backslash and each quote, and `\n` for a newline.
fn put_escaped(out: &mut Bytes, text: &[u8]) -> Result<(), NoMemory>
    ensures { OnOk result (out.new ≡ out.old ++ flat_map escaped text.now) }
{
    for byte in text {
        put_byte(out, *byte)?;
    }
    Ok(())
}

fn put_byte(out: &mut Bytes, byte: u8) -> Result<(), NoMemory>
    ensures { OnOk result (out.new ≡ out.old ++ escaped byte) }
{
    match byte {
        b'\\' => out.push_all(b"\\\\"),
        b'"' => out.push_all(b"\\\""),
        b'\n' => out.push_all(b"\\n"),
        _ => out.push_all(&[byte]),
    }
}
