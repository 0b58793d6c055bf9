//! `chukwactl`: shows what a store holds, and what a start would refuse. The words behind the
//! program's name ask for a command. It reads files and prints; it makes, changes and locks none.
//! `status` runs `df`, which does no more.
#![tactic(auto)]

mod disk;
mod machine;

use crate::machine::HostMachine;
use chk_ctl_inspect::inspect;
use std::fs::{File, OpenOptions};
use std::os::fd::AsRawFd;
use std::process::ExitCode;
use std::{env, io};

/// The status if the system doesn't give the words.
const OUTSIDE: u8 = 3;

/// The status if there is no memory.
const NO_MEMORY: u8 = 4;

fn main(rt: HostRuntime) -> ExitCode {
    let _standard = [in_place(rt), in_place(rt), in_place(rt)];
    match words_given(rt) {
        Ok(given) => ExitCode::from(run_given(rt, given.as_slice())),
        Err(status) => ExitCode::from(status),
    }
}

// `/dev/null` in place of the standard input, output or error that is closed, none where each is
// open: else a file that is read would be opened in its place.
fn in_place(rt: HostRuntime) -> Option<File> {
    let opened = OpenOptions::new()
        .read(true)
        .write(true)
        .open(&rt, "/dev/null");
    match opened {
        Ok(file) if file.as_raw_fd() <= 2 => Some(file),
        _ => None,
    }
}

// The words, or how the program ends where the system doesn't give them.
fn words_given(rt: HostRuntime) -> Result<Vec<String>, u8> {
    match env::args(&rt) {
        Ok(words) => words.skip(1).collect(rt.alloc()).map_err(|_| NO_MEMORY),
        Err(error) if error.kind() == io::ErrorKind::OutOfMemory => Err(NO_MEMORY),
        Err(_) => Err(OUTSIDE),
    }
}

fn run_given(rt: HostRuntime, given: &[String]) -> u8 {
    let mut words: Vec<&str> = Vec::new(rt.alloc());
    for word in given {
        if words.push(word.as_str()).is_err() {
            return NO_MEMORY;
        }
    }
    let mut machine = HostMachine { rt, base: None };
    inspect(rt.alloc(), &mut machine, words.as_slice())
}
