//! A drain of an agent, and what it answers.

use crate::answers::faulted;
use crate::words::told;
use chk_agent::{Agent, AgentFault};
use chk_agent_drain::{Drained, drain};
use chk_site_mem::SiteMem;
use std::alloc::Global;
use std::test::Fail;

// `NOW READS POLLS`: the time, how many reads of a log may give bytes, and how many polls may have a
// good reply.
pub(crate) fn drains(
    alloc: Global,
    site: &mut SiteMem,
    agent: &mut Agent,
    text: &str,
) -> Result<String, Fail> {
    let mut words = text.split(' ');
    let now: u64 = words.next().ok_or("no time")?.parse()?;
    let reads: u64 = words.next().ok_or("no reads")?.parse()?;
    let polls: u32 = words.next().ok_or("no polls")?.parse()?;
    if !agent.ready() || reads == 0 || polls == 0 {
        return told(alloc, "not ready", &[]);
    }
    match drain(alloc, agent, site, now, reads, polls) {
        Ok(drained) => drained_text(alloc, &drained),
        Err(fault) => faulted(alloc, fault),
    }
}

fn drained_text(alloc: Global, drained: &Drained) -> Result<String, Fail> {
    match drained {
        Drained::Pending { stem, got, want } => {
            let (name, born, number) = (stem.name(), stem.born(), stem.number());
            Ok(format!(in alloc; "pending {name}.{born}.{number} {got} {want}")?)
        }
        Drained::Done => told(alloc, "done", &[]),
        Drained::Growing { adaptor, reads } => told(alloc, "growing", &[*adaptor as u64, *reads]),
        Drained::Shrank { adaptor, had, is } => {
            told(alloc, "shrank", &[*adaptor as u64, *had, *is])
        }
        Drained::AllTried { count, code } => {
            told(alloc, "tried", &[*count as u64, *code as u64])
        }
    }
}
