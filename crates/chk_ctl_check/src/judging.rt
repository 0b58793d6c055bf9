//! What a line asks for, behind the lines before it.

ghost use Rattle.std.specs.Prelude.{◌≡◌, IfOk};
ghost use Rattle.std.specs.List.{list_any};
ghost use Rattle.chk_control.specs.Lines.{meaning_of};
ghost use Rattle.chk_ctl_check.specs.Judging.{added_after, added_with, is_absolute, same_name};
ghost use Rattle.chk_ctl_check.specs.Judging.{same_stream, trouble_among, verdict_alone};
ghost use Rattle.chk_ctl_check.specs.Judging.{verdict_of, verdict_with};

use crate::trouble::Trouble;
use chk_bytes::{NoMemory, Word};
use chk_control::{Class, Command, LineFault, read_line};
use std::alloc::Global;

/// A stream that a line adds, and the name that it gives to it.
#[derive(Debug, Drop)]
pub struct Added {
    pub name: Option<Word>,
    pub kind: Word,
    pub path: Word,
}

/// What comes of a line.
#[derive(Debug, Drop)]
pub enum Verdict {
    /// It is blank.
    Blank,
    Wrong(Trouble),
    /// It adds a stream, whose log is to be looked at.
    Reads { class: Class, path: Word },
}

/// What comes of the line, which stands before the newline; a stream that a start would add is
/// put behind the others.
pub(crate) fn judge(alloc: Global, added: &mut Vec<Added>, line: &[u8]) -> Result<Verdict, NoMemory>
    ensures verdict { IfOk result (λ v. v ≡ verdict_of added.old.items (meaning_of line.now)) }
    ensures added { IfOk result (λ v. added.new.items
        ≡ added_after added.old.items (meaning_of line.now)) }
{
    match read_line(alloc, line) {
        Ok(Command::Blank) => Ok(Verdict::Blank),
        Ok(
            Command::Add {
                name,
                class,
                kind,
                path,
                ..
            },
        ) => { judge_stream(added, Added { name, kind, path }, class) }
        Ok(_) => Ok(Verdict::Wrong(Trouble::NoAdd)),
        Err(LineFault::NoMemory) => Err(NoMemory),
        Err(fault) => Ok(Verdict::Wrong(Trouble::Refused(fault))),
    }
}

/// What comes of a line that adds this stream.
fn judge_stream(added: &mut Vec<Added>, stream: Added, class: Class) -> Result<Verdict, NoMemory>
    ensures verdict { IfOk result (λ v. v ≡ verdict_with added.old.items stream class) }
    ensures added { IfOk result (λ v. added.new.items ≡ added_with added.old.items stream) }
{
    if let Some(trouble) = trouble_among(added, &stream) {
        return Ok(Verdict::Wrong(trouble));
    }
    let verdict = verdict_alone(&stream, class)?;
    added.push(stream)?;
    Ok(verdict)
}

/// What is wrong with a stream behind those that were added.
fn trouble_among(added: &[Added], stream: &Added) -> Option<Trouble>
    ensures { result ≡ trouble_among added.now stream.now }
{
    if has_stream(added, stream) {
        Some(Trouble::StreamInUse)
    } else if has_name(added, stream) {
        Some(Trouble::NameInUse)
    } else {
        None
    }
}

/// Whether one of them is the same stream.
fn has_stream(added: &[Added], stream: &Added) -> bool
    ensures { result ≡ list_any (same_stream stream.now) added.now }
{
    added.iter().any(|other| is_same_stream(stream, other))
}

fn is_same_stream(stream: &Added, other: &Added) -> bool
    ensures { result ≡ same_stream stream.now other.now }
{
    stream.kind.as_str() == other.kind.as_str() && stream.path.as_str() == other.path.as_str()
}

/// Whether one of them has its name.
fn has_name(added: &[Added], stream: &Added) -> bool
    ensures { result ≡ list_any (same_name stream.now) added.now }
{
    added.iter().any(|other| is_same_name(stream, other))
}

fn is_same_name(stream: &Added, other: &Added) -> bool
    ensures { result ≡ same_name stream.now other.now }
{
    match (&stream.name, &other.name) {
        (Some(name), Some(other)) => name.as_str() == other.as_str(),
        _ => false,
    }
}

/// What comes of a stream that is no earlier one.
fn verdict_alone(stream: &Added, class: Class) -> Result<Verdict, NoMemory>
    ensures { IfOk result (λ v. v ≡ verdict_alone stream.now class) }
{
    if is_absolute(stream.path.as_str()) {
        let path = stream.path.copy()?;
        Ok(Verdict::Reads { class, path })
    } else {
        Ok(Verdict::Wrong(Trouble::RelativePath))
    }
}

fn is_absolute(path: &str) -> bool
    ensures { result ≡ is_absolute path.now }
{
    path.starts_with('/')
}
