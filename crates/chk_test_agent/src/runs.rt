//! Runs of the agent h1, what it answers at its control port, and how long it waits.

use crate::starts::{agent_named, ring_of, rules_of};
use crate::words::{told, word};
use chk_agent::Hashing;
use chk_agent_run::{Ended, QUEUE, ROWS, RunFault, Work, run_agent};
use chk_site::{Act, ActAnswer, Call, Role, Who};
use chk_test_engine::{Outside, shown};
use std::alloc::Global;
use std::test::Fail;

// How long an agent that a command runs waits between polls, in milliseconds.
const POLL: u64 = 10_000;

// `TURNS CONTROL FILE` or `TURNS CONTROL FILE PAUSE`. `-` stands for no control port and no file.
fn work_of(alloc: Global, text: &str) -> Result<Work, Fail> {
    let mut words = text.split(' ');
    let turns = words.next().ok_or("no turns")?.parse()?;
    let control = words.next().ok_or("no control port")?;
    let initial = words.next().ok_or("no file")?;
    let control = if control == "-" {
        None
    } else {
        Some(word(alloc, control)?)
    };
    let initial = if initial == "-" {
        None
    } else {
        Some(word(alloc, initial)?)
    };
    Ok(Work {
        initial,
        control,
        turns,
        pause: words.next().unwrap_or("200").parse()?,
    })
}

fn ended(alloc: Global, given: Result<Ended, RunFault>) -> Result<String, Fail> {
    match given {
        Ok(Ended::Over) => told(alloc, "over", &[]),
        Ok(Ended::Stopped) => told(alloc, "stopped", &[]),
        Err(RunFault::Initial { at }) => told(alloc, "initial", &[at]),
        Err(RunFault::Checkpoint { at }) => told(alloc, "checkpoint", &[at]),
        Err(RunFault::Outside { call }) => {
            let name = call.name();
            Ok(format!(in alloc; "failed {name}")?)
        }
        Err(RunFault::NoMemory) => told(alloc, "no memory", &[]),
    }
}

// The run of this work, with the collector c1.
pub(crate) fn runs(outside: &mut Outside, text: &str) -> Result<String, Fail> {
    let alloc = outside.alloc;
    outside.restart();
    outside.begin();
    let work = work_of(alloc, text)?;
    let who = agent_named(alloc, "h1")?;
    let reader = Who {
        role: Role::Writer,
        name: word(alloc, "chukwa")?,
    };
    let ring = ring_of(alloc, "c1:80")?;
    let rules = rules_of(alloc, ROWS, QUEUE, POLL, "none")?;
    let site = &mut outside.site;
    ended(
        alloc,
        run_agent(
            alloc,
            site,
            &who,
            &reader,
            ring,
            rules,
            &work,
            Hashing::Fixed,
        ),
    )
}

// How many milliseconds each pause had.
pub(crate) fn pauses(alloc: Global, acts: &[Act]) -> Result<String, Fail> {
    let mut text = String::new(alloc);
    for act in acts {
        if act.call == Call::Pause {
            let number = act.number;
            write!(&mut text, "{number} ")?;
        }
    }
    Ok(String::from_str(alloc, text.as_str().trim_end())?)
}

// Each answer in brackets. One that failed has a `!` before it.
pub(crate) fn answers(alloc: Global, acts: &[Act]) -> Result<String, Fail> {
    let mut text = String::new(alloc);
    for act in acts {
        if act.call == Call::Answer {
            let failed = if matches!(&act.answer, ActAnswer::Done { .. }) {
                ""
            } else {
                "!"
            };
            let bytes = act
                .words
                .as_slice()
                .first()
                .ok_or("an answer without bytes")?;
            let bytes = shown(alloc, bytes.as_slice())?;
            write!(&mut text, "{failed}[{bytes}]")?;
        }
    }
    Ok(text)
}
