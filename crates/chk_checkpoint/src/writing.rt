//! The text of a checkpoint.

ghost use Rattle.std.specs.Prelude.{◌≡◌, ◌==◌, ◌++◌, ◌∷◌, [], map, decimal, IfOk, OnOk};
ghost use Rattle.std.specs.List.{list_all};
ghost use Rattle.chk_world.specs.Checkpoints.{written_version, line_text, after_text};
ghost use Rattle.chk_checkpoint.specs.Lines.{shown, state_word, text_version, written_text};
ghost use Rattle.chk_checkpoint.specs.Fields.{start_end, stream_text, place_text};

use crate::CheckLine;
use crate::version::Version;
use chk_bytes::{Bytes, NoMemory, put_decimal};
use chk_rotate::Place;
use std::alloc::Global;

/// The text of these lines, in the first version where it says all of them.
pub(crate) fn text_of(alloc: Global, lines: &[CheckLine]) -> Result<Bytes, NoMemory>
    ensures { IfOk result (λ text. text ≡ written_text (map shown lines.now)) }
{
    let version = version_for(lines);
    let mut out = Bytes::new(alloc);
    out.push_all(version.first_line())?;
    for line in lines {
        put_line(&mut out, version, line)?;
    }
    Ok(out)
}

// The version that is written.
fn version_for(lines: &[CheckLine]) -> Version
    ensures { text_version result ≡ written_version (map shown lines.now) }
{
    if are_from_0(lines) {
        Version::One
    } else {
        Version::Two
    }
}

fn are_from_0(lines: &[CheckLine]) -> bool
    ensures { result ≡ list_all (λ l. l.start == 0) lines.now }
{
    lines.iter().all(|line| line.start == 0)
}

fn put_line(out: &mut Bytes, version: Version, line: &CheckLine) -> Result<(), NoMemory>
    ensures { OnOk result (out.new ≡ out.old ++ line_text (text_version version) (shown line.now)) }
{
    put_stream(out, line)?;
    put_place(out, version, line)
}

// The words that say which stream it is.
fn put_stream(out: &mut Bytes, line: &CheckLine) -> Result<(), NoMemory>
    ensures { OnOk result (out.new ≡ out.old ++ stream_text (shown line.now)) }
{
    put_word(out, state_name(line.live))?;
    put_word(out, line.name.as_str())?;
    put_word(out, "=")?;
    put_word(out, line.class.name())?;
    put_word(out, line.kind.as_str())?;
    put_word(out, line.path.as_str())
}

// The words that say up to where it is committed, and the newline.
fn put_place(out: &mut Bytes, version: Version, line: &CheckLine) -> Result<(), NoMemory>
    ensures { OnOk result (out.new ≡ out.old ++ place_text (text_version version) (shown line.now)) }
{
    put_number(out, line.place.offset)?;
    put_number(out, line.place.first)?;
    put_after(out, &line.place)?;
    put_start(out, version, line.start)?;
    out.push_all(b"\n")
}

// The first word of a line.
fn state_name(live: bool) -> &'static str
    ensures { result.now ≡ state_word live }
{
    if live { "add" } else { "past" }
}

// A word and a space.
fn put_word(out: &mut Bytes, word: &str) -> Result<(), NoMemory>
    ensures { OnOk result (out.new ≡ out.old ++ word.now ++ 32 ∷ []) }
{
    out.push_all(word.as_bytes())?;
    out.push_all(b" ")
}

// A number and a space.
fn put_number(out: &mut Bytes, number: u64) -> Result<(), NoMemory>
    ensures { OnOk result (out.new ≡ out.old ++ decimal number ++ 32 ∷ []) }
{
    put_decimal(out, number)?;
    out.push_all(b" ")
}

// The suffix of a place, or the sign for none.
fn put_after(out: &mut Bytes, place: &Place) -> Result<(), NoMemory>
    ensures { OnOk result (out.new ≡ out.old ++ after_text place.now.after) }
{
    match &place.after {
        Some(suffix) => out.push_all(suffix.as_str().as_bytes()),
        None => out.push_all(b"-"),
    }
}

// A space and the start, where the version has it.
fn put_start(out: &mut Bytes, version: Version, start: u64) -> Result<(), NoMemory>
    ensures { OnOk result (out.new ≡ out.old ++ start_end (text_version version) start) }
{
    match version {
        Version::One => Ok(()),
        Version::Two => {
            out.push_all(b" ")?;
            put_decimal(out, start)
        }
    }
}
