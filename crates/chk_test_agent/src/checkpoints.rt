//! Checkpoints that are loaded and written.

use crate::starts::agent_named;
use crate::words::told;
use chk_bytes::Bytes;
use chk_checkpoint::{CheckFault, load_checkpoint, write_checkpoint};
use chk_test_engine::{Outside, add_file};
use std::alloc::Global;
use std::test::Fail;

fn faulted(alloc: Global, fault: CheckFault) -> Result<String, Fail> {
    match fault {
        CheckFault::Damaged { at } => told(alloc, "damaged", &[at]),
        CheckFault::Outside { call } => {
            let name = call.name();
            Ok(format!(in alloc; "failed {name}")?)
        }
        CheckFault::NoMemory => told(alloc, "no memory", &[]),
    }
}

// How many lines the agent of this name loads.
pub(crate) fn loads(outside: &mut Outside, name: &str) -> Result<String, Fail> {
    let alloc = outside.alloc;
    outside.begin();
    let who = agent_named(alloc, name)?;
    match load_checkpoint(alloc, &mut outside.site, &who) {
        Ok(check) => told(alloc, "lines", &[check.lines.as_slice().len() as u64]),
        Err(fault) => faulted(alloc, fault),
    }
}

// `FROM TO`: the lines of one agent are loaded, and written for the other.
pub(crate) fn copies(outside: &mut Outside, text: &str) -> Result<String, Fail> {
    let alloc = outside.alloc;
    outside.begin();
    let (from, to) = text.split_once(' ').ok_or("no other agent")?;
    let (from, to) = (agent_named(alloc, from)?, agent_named(alloc, to)?);
    let check = match load_checkpoint(alloc, &mut outside.site, &from) {
        Ok(check) => check,
        Err(fault) => return faulted(alloc, fault),
    };
    match write_checkpoint(alloc, &mut outside.site, &to, &check) {
        Ok(()) => told(alloc, "done", &[]),
        Err(fault) => faulted(alloc, CheckFault::from(fault)),
    }
}

// Adds the line with this number in the place of each `#`.
fn add_line(alloc: Global, text: &mut Bytes, line: &str, number: u64) -> Result<(), Fail> {
    let digits = told(alloc, "", &[number])?;
    for b in line.as_bytes() {
        match *b {
            b'#' => text.push_all(digits.as_str().trim().as_bytes())?,
            other => text.push_all(&[other])?,
        }
    }
    Ok(text.push_all(b"\n")?)
}

// `NAME COUNT LINE`: a checkpoint of so many lines comes, in which the number of the line stands in
// the place of each `#`.
pub(crate) fn numbers(outside: &mut Outside, text: &str) -> Result<String, Fail> {
    let alloc = outside.alloc;
    let (name, rest) = text.split_once(' ').ok_or("no count")?;
    let (count, line) = rest.split_once(' ').ok_or("no line")?;
    let count: u64 = count.parse()?;
    let mut text = Bytes::from_slice(alloc, b"chukwa-checkpoint 1\n")?;
    for number in 1..=count {
        add_line(alloc, &mut text, line, number)?;
    }
    add_file(alloc, &mut outside.next, name, text.as_slice(), true)?;
    told(alloc, "done", &[])
}
