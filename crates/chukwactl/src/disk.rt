//! How many bytes are free, as `df` tells it.

use chk_ctl_status::free_in;
use std::io::Read;
use std::process::{Child, Command, ExitStatus, Stdio};
use std::time::Duration;
use std::{io, thread};

/// Less than so many bytes are an answer: a longer one has names of folders that are too long.
const ANSWER: usize = 4096;

/// So often it is asked whether `df` has ended, and so many milliseconds apart: for 2 s.
const TRIES: u32 = 400;

const PAUSE: u64 = 5;

/// How many bytes are free where the current folder is; none where `df` isn't there, hasn't ended
/// within 2 s, ends with another status than 0, or answers something else. One that hasn't ended is
/// killed, and is waited for for 2 s more.
pub(crate) fn free_here(rt: HostRuntime) -> Option<u64> {
    let mut child = asked(rt).ok()?;
    match ended(rt, &mut child) {
        Some(status) if status.success() => answer_of(&mut child),
        Some(_) => None,
        None => {
            end(rt, &mut child);
            None
        }
    }
}

// It runs with an empty input, and its errors aren't shown. The answer is in POSIX's form, in which
// a file system has one line.
fn asked(rt: HostRuntime) -> io::Result<Child> {
    let mut command = Command::new(rt.alloc(), "df")?;
    command.arg("-P")?;
    command.arg("-k")?;
    command.arg(".")?;
    command.env("LC_ALL", "C")?;
    command.stdin(Stdio::null());
    command.stdout(Stdio::piped());
    command.stderr(Stdio::null());
    command.spawn(&rt)
}

// How it ended, none where it didn't within 2 s. One that prints more than a pipe holds doesn't
// end.
fn ended(rt: HostRuntime, child: &mut Child) -> Option<ExitStatus> {
    for _ in 0..TRIES {
        match child.try_wait() {
            Ok(None) => thread::sleep(&rt, Duration::from_millis(PAUSE)),
            Ok(status) => return status,
            Err(_) => return None,
        }
    }
    None
}

// Kills it. One that waits for a disk that doesn't answer may be there for longer.
fn end(rt: HostRuntime, child: &mut Child) {
    if child.kill().is_ok() {
        let _status = ended(rt, child);
    }
}

// What is free by what it has printed, all of which is in the pipe.
fn answer_of(child: &mut Child) -> Option<u64> {
    let mut output = child.stdout.take()?;
    let mut answer = [0; ANSWER];
    let length = output.read(&mut answer).ok()?;
    if length < ANSWER {
        free_in(&answer[..length])
    } else {
        None
    }
}
