//! Which line of an initial file is no good `add`, as it is told to people.

use chk_cmd_line::read_words;
use chk_control::{Command, LineFault, read_line};
use std::alloc::Global;
use std::fs;

/// How many bytes of a refused line are told.
const MOST_TOLD: usize = 1_024;

/// Why a line doesn't stand in an initial file.
#[derive(Clone, Copy)]
enum Refusal {
    /// Its words are no command.
    Words(LineFault),
    /// It is another command than `add`.
    OtherCommand,
}

/// What the first line of a command's initial file is told for that isn't blank and no good `add`, as
/// `web1.add line 3: BadClass Filetailingadaptor Log /var/log/web 0`, of its first 1,024 bytes. Nothing is
/// told where the words name no such file, or it can't be read.
pub(crate) fn tell_refused(rt: HostRuntime, words: &[&str]) {
    let Ok(command) = read_words(rt.alloc(), words) else {
        return;
    };
    let initial = match &command {
        chk_cmd_line::Command::Agent(words) => words.initial,
        chk_cmd_line::Command::Drain(words) => words.initial,
        _ => None,
    };
    if let Some(name) = initial {
        tell_first(rt, name);
    }
}

fn tell_first(rt: HostRuntime, name: &str) {
    let Ok(text) = fs::read(&rt, name) else {
        return;
    };
    let mut number: u64 = 0;
    for line in text.split(|byte| *byte == b'\n') {
        number = number.saturating_add(1);
        if let Some(refusal) = refusal_of(rt.alloc(), line) {
            tell(rt, name, number, line, refusal);
            return;
        }
    }
}

// None where the line is blank or a good `add`.
fn refusal_of(alloc: Global, line: &[u8]) -> Option<Refusal> {
    match read_line(alloc, line) {
        Ok(Command::Blank) => None,
        Ok(Command::Add { .. }) => None,
        Ok(_) => Some(Refusal::OtherCommand),
        Err(LineFault::NoMemory) => None,
        Err(fault) => Some(Refusal::Words(fault)),
    }
}

// The line is told without its verb where that is `add`. That standard error takes no more is no fault.
fn tell(rt: HostRuntime, name: &str, number: u64, line: &[u8], refusal: Refusal) {
    let front = &line[..line.len().min(MOST_TOLD)];
    let words = front.strip_prefix(b"add ".as_slice()).unwrap_or(front);
    let Ok(words) = String::from_utf8_lossy(rt.alloc(), words) else {
        return;
    };
    let _told = match refusal {
        Refusal::Words(fault) => eprintln!(rt; "chukwa: {name} line {number}: {fault:?} {words}"),
        Refusal::OtherCommand => eprintln!(rt; "chukwa: {name} line {number}: NoAdd {words}"),
    };
}
