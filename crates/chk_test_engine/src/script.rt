//! What others do before the next call, and which calls fail.
use crate::parts::Parts;
use crate::texts::text_bytes;
use chk_bytes::Bytes;
use chk_site::{ActAnswer, Call, Left, Lefts, Script, StopAt};
use chk_test_calls::written;
use std::alloc::Global;
use std::test::Fail;

// An act of a writer.
fn write(alloc: Global, script: &mut Script, call: Call, words: &[&[u8]]) -> Result<(), Fail> {
    let other = written(alloc, call, words)?;
    Ok(script.others.push(other)?)
}

/// A file with these bytes comes before the next call. Either all of it is synced, or none.
pub fn add_file(
    alloc: Global,
    script: &mut Script,
    name: &str,
    bytes: &[u8],
    is_synced: bool,
) -> Result<(), Fail> {
    write(alloc, script, Call::Create, &[name.as_bytes()])?;
    write(alloc, script, Call::Append, &[name.as_bytes(), bytes])?;
    if is_synced {
        write(alloc, script, Call::Sync, &[name.as_bytes()])?;
    }
    Ok(())
}

// A log's base file becomes a generation with this suffix, or that generation is deleted.
fn turn(
    alloc: Global,
    script: &mut Script,
    path: &str,
    suffix: &str,
    is_deleted: bool,
) -> Result<(), Fail> {
    let mut other = written(alloc, Call::LogAppend, &[path.as_bytes(), b"".as_slice()])?;
    let suffix = Bytes::from_slice(alloc, suffix.as_bytes())?;
    other.act.answer = if is_deleted {
        ActAnswer::Deleted { suffix }
    } else {
        ActAnswer::Rotated { suffix }
    };
    Ok(script.others.push(other)?)
}

fn grow(alloc: Global, script: &mut Script, path: &str, bytes: &[u8]) -> Result<(), Fail> {
    write(alloc, script, Call::LogAppend, &[path.as_bytes(), bytes])
}

// The last act of others that was put in happens before the call of this number.
fn delay(script: &mut Script, before: u64) {
    if let Some(last) = script.others.last_mut() {
        last.before = before;
    }
}

// The call of this number is stopped, and each of the files has this tail past its synced length. It is
// given too whether the stopped call took effect.
fn stop(
    alloc: Global,
    script: &mut Script,
    at: &str,
    names: &str,
    tail: &[u8],
    whole: bool,
) -> Result<(), Fail> {
    let mut left = Lefts::new(alloc);
    for name in names.split([' ', ',']) {
        if !name.is_empty() {
            left.push(Left {
                name: Bytes::from_slice(alloc, name.as_bytes())?,
                tail: Bytes::from_slice(alloc, tail)?,
                whole,
            })?;
        }
    }
    script.stop = Some(StopAt {
        at: at.parse()?,
        left,
    });
    Ok(())
}

// `NAME TEXT` or `NAME PARTS`.
fn add_so(
    alloc: Global,
    script: &mut Script,
    parts: &Parts,
    verb: &str,
    text: &str,
) -> Result<(), Fail> {
    let (name, words) = text.split_once(' ').unwrap_or((text, ""));
    let bytes = match verb {
        "file" => text_bytes(alloc, words)?,
        _ => parts.bytes(alloc, words)?,
    };
    add_file(alloc, script, name, bytes.as_slice(), verb != "unsynced")
}

// - `log PATH TEXT`: the log grows by this text.
// - `grow N PATH TEXT`: it does so before the call of this number.
// - `swell PATH PARTS`: it grows by these parts.
// - `turn PATH SUFFIX`: it is rotated.
// - `drop PATH SUFFIX`: this generation of it is deleted.
fn write_so(
    alloc: Global,
    script: &mut Script,
    parts: &Parts,
    verb: &str,
    text: &str,
) -> Result<(), Fail> {
    let (path, rest) = text.split_once(' ').ok_or("no text")?;
    match verb {
        "log" => grow(alloc, script, path, text_bytes(alloc, rest)?.as_slice()),
        "grow" => {
            let (log, text) = rest.split_once(' ').ok_or("no text")?;
            grow(alloc, script, log, text_bytes(alloc, text)?.as_slice())?;
            delay(script, path.parse()?);
            Ok(())
        }
        "swell" => grow(alloc, script, path, parts.bytes(alloc, rest)?.as_slice()),
        _ => turn(alloc, script, path, rest, verb == "drop"),
    }
}

// - `fail N`, `fails N`: the call of this number fails.
// - `stop N [NAME..]`, `stops PARTS|- [FILE,FILE..] N` and `wholes PARTS|- [FILE,FILE..] N`: it is
//   stopped. With `wholes` it took effect.
// - `repeat N`: the taking of this number is repeated.
fn harm_so(
    alloc: Global,
    script: &mut Script,
    parts: &Parts,
    verb: &str,
    text: &str,
) -> Result<(), Fail> {
    match verb {
        "fail" | "fails" => Ok(script.failing.push(text.parse()?)?),
        "stop" => {
            let (at, names) = text.split_once(' ').unwrap_or((text, ""));
            stop(alloc, script, at, names, b"", false)
        }
        "repeat" => Ok(script.again.push(text.parse()?)?),
        _ => {
            let (files, at) = text.rsplit_once(' ').ok_or("no number")?;
            let (tail, names) = files.split_once(' ').unwrap_or((files, ""));
            let tail = parts.bytes(alloc, if tail == "-" { "" } else { tail })?;
            stop(alloc, script, at, names, tail.as_slice(), verb == "wholes")
        }
    }
}

// What happens is put into the script; else, with a verb of something else, it is false.
pub(crate) fn happens(
    alloc: Global,
    script: &mut Script,
    parts: &Parts,
    verb: &str,
    text: &str,
) -> Result<bool, Fail> {
    match verb {
        "log" | "grow" | "swell" | "turn" | "drop" => write_so(alloc, script, parts, verb, text)?,
        "before" => delay(script, text.parse()?),
        "file" | "bytes" | "unsynced" => add_so(alloc, script, parts, verb, text)?,
        "fail" | "fails" | "stop" | "stops" | "wholes" | "repeat" => {
            harm_so(alloc, script, parts, verb, text)?
        }
        _ => return Ok(false),
    }
    Ok(true)
}

// Whether nothing happens.
pub(crate) fn is_quiet(script: &Script) -> bool {
    script.others.is_empty()
        && script.failing.is_empty()
        && script.again.is_empty()
        && script.stop.is_none()
}
