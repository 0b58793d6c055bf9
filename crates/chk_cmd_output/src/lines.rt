//! Words that several lines begin with.

ghost use Rattle.std.specs.Prelude.{◌≡◌, IfOk, string_bytes};
ghost use Rattle.chk_cmd_output.specs.Lines.{named};

use chk_bytes::NoMemory;
use std::alloc::Global;

/// The front of a stream's line, with the words that name the stream.
pub fn named(alloc: Global, source: &str, kind: &str, name: &str) -> Result<String, NoMemory>
    ensures { IfOk result (λ text. string_bytes text ≡ named source.now kind.now name.now) }
{
    let text = format!(in alloc; "stream {source} {kind} {name}")?;
    Ok(text)
}
