//! `chukwa`: collects logs into sinks. The words behind the program's name ask for a command; it
//! works on the current folder.
#![tactic(auto)]

mod refused;

use crate::refused::tell_refused;
use chk_site_real::SiteReal;
use chukwa_run::{Hashing, run_with_hasher};
use std::fs::{File, OpenOptions};
use std::hash::RandomState;
use std::os::fd::AsRawFd;
use std::process::ExitCode;
use std::{env, io};

/// The status where the system doesn't give the words, or no random bytes.
const OUTSIDE: u8 = 3;

/// The status for want of memory.
const NO_MEMORY: u8 = 4;

/// The status for a file that isn't in its grammar.
const DAMAGED: u8 = 5;

fn main(rt: HostRuntime) -> ExitCode {
    let _standard = [in_place(rt), in_place(rt), in_place(rt)];
    match words_given(rt) {
        Ok(given) => ExitCode::from(run_given(rt, given.as_slice())),
        Err(status) => ExitCode::from(status),
    }
}

// `/dev/null` in place of the standard input, output or error that is closed, none where each is open: else
// a file of the program would be opened in its place, and what is printed would be written there.
fn in_place(rt: HostRuntime) -> Option<File> {
    let opened = OpenOptions::new()
        .read(true)
        .write(true)
        .open(&rt, "/dev/null");
    match opened {
        Ok(file) if file.as_raw_fd() <= 2 => Some(file),
        _ => None,
    }
}

// The words, or how the program ends where the system doesn't give them.
fn words_given(rt: HostRuntime) -> Result<Vec<String>, u8> {
    match env::args(&rt) {
        Ok(words) => words.skip(1).collect(rt.alloc()).map_err(|_| NO_MEMORY),
        Err(error) if error.kind() == io::ErrorKind::OutOfMemory => Err(NO_MEMORY),
        Err(_) => Err(OUTSIDE),
    }
}

// Runs the command. The cause of the last call that failed is told too, also where the command went on after it,
// and the line of an initial file that was refused.
fn run_given(rt: HostRuntime, given: &[String]) -> u8 {
    let mut words: Vec<&str> = Vec::new(rt.alloc());
    for word in given {
        if words.push(word.as_str()).is_err() {
            return NO_MEMORY;
        }
    }
    let hashing = match hashing_for(rt, words.as_slice()) {
        Ok(hashing) => hashing,
        Err(error) => {
            let _told = eprintln!(rt; "chukwa: no random bytes: {error}");
            return OUTSIDE;
        }
    };
    let mut site = SiteReal::new(rt, rt.alloc());
    let status = run_with_hasher(rt.alloc(), &mut site, words.as_slice(), hashing);
    if let Some(failure) = site.failure() {
        let _told = eprintln!(rt; "chukwa: {failure}");
    }
    if status == DAMAGED {
        tell_refused(rt, words.as_slice());
    }
    status
}

// How an agent finds its streams: by random keys, since anybody at its control door chooses their
// words. No other command takes streams of strangers.
fn hashing_for(rt: HostRuntime, words: &[&str]) -> io::Result<Hashing> {
    match words.first() {
        Some(command) if *command == "agent" => Ok(Hashing::Random(RandomState::new(&rt)?)),
        _ => Ok(Hashing::Fixed),
    }
}
