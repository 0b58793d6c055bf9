//! What the calls of an agent answer, as text.

use crate::words::told;
use chk_agent::{Added, AgentFault, Filled, Reply, Settled, Stepped, Then};
use chk_agent_delivery::{Answered, Below, PollAnswer, Polled, Posted};
use chk_control::State;
use chk_test_engine::shown;
use std::alloc::Global;
use std::test::Fail;

// A call on the outside that failed is told by its name.
pub(crate) fn faulted(alloc: Global, fault: AgentFault) -> Result<String, Fail> {
    match fault {
        AgentFault::Damaged { at } => told(alloc, "damaged", &[at]),
        AgentFault::Outside { call } => told(alloc, call.name(), &[]),
        AgentFault::NoMemory => told(alloc, "no memory", &[]),
    }
}

pub(crate) fn added(alloc: Global, given: Result<Added, AgentFault>) -> Result<String, Fail> {
    match given {
        Ok(Added::New { adaptor }) => told(alloc, "new", &[adaptor as u64]),
        Ok(Added::Live { adaptor }) => told(alloc, "live", &[adaptor as u64]),
        Ok(Added::TooMany) => told(alloc, "too many", &[]),
        Err(fault) => faulted(alloc, fault),
    }
}

pub(crate) fn stepped(alloc: Global, given: Result<Stepped, AgentFault>) -> Result<String, Fail> {
    match given {
        Ok(Stepped::Read { bytes }) => told(alloc, "read", &[bytes]),
        Ok(Stepped::AtEnd) => told(alloc, "end", &[]),
        Ok(Stepped::Held { used }) => told(alloc, "held", &[used]),
        Ok(Stepped::Shrank { had, is }) => told(alloc, "shrank", &[had, is]),
        Err(fault) => faulted(alloc, fault),
    }
}

pub(crate) fn filled(alloc: Global, given: Result<Filled, AgentFault>) -> Result<String, Fail> {
    match given {
        Ok(Filled::Read { bytes }) => told(alloc, "read", &[bytes]),
        Ok(Filled::AtEnds) => told(alloc, "ends", &[]),
        Ok(Filled::Held { used }) => told(alloc, "held", &[used]),
        Ok(Filled::Shrank { adaptor, had, is }) => {
            told(alloc, "shrank", &[adaptor as u64, had, is])
        }
        Err(fault) => faulted(alloc, fault),
    }
}

pub(crate) fn posted(alloc: Global, given: Result<Posted, AgentFault>) -> Result<String, Fail> {
    match given {
        Ok(Posted::Sent { count }) => told(alloc, "sent", &[count as u64]),
        Ok(Posted::Empty) => told(alloc, "empty", &[]),
        Ok(Posted::NoRows) => told(alloc, "no rows", &[]),
        Ok(Posted::Failed) => told(alloc, "failed", &[]),
        Err(fault) => faulted(alloc, fault),
    }
}

pub(crate) fn answered(alloc: Global, given: Result<Answered, AgentFault>) -> Result<String, Fail> {
    match given {
        Ok(Answered::Taken { count }) => told(alloc, "taken", &[count as u64]),
        Ok(Answered::Refused { code }) => told(alloc, "refused", &[code as u64]),
        Ok(Answered::Silent) => told(alloc, "silent", &[]),
        Ok(Answered::Nothing) => told(alloc, "nothing", &[]),
        Err(fault) => faulted(alloc, fault),
    }
}

pub(crate) fn polled(alloc: Global, given: Result<Polled, AgentFault>) -> Result<String, Fail> {
    match given {
        Ok(Polled::Sent { count }) => told(alloc, "sent", &[count as u64]),
        Ok(Polled::NoneWaiting) => told(alloc, "none", &[]),
        Ok(Polled::Failed) => told(alloc, "failed", &[]),
        Err(fault) => faulted(alloc, fault),
    }
}

// So many lengths came, and the first row that is below its offset, if one is.
pub(crate) fn lengths(
    alloc: Global,
    given: Result<PollAnswer, AgentFault>,
) -> Result<String, Fail> {
    match given {
        Ok(
            PollAnswer::Lengths {
                count,
                below: Some(below),
            },
        ) => {
            let Below { stem, got, want } = below;
            let (name, born, number) = (stem.name(), stem.born(), stem.number());
            Ok(format!(in alloc; "lengths {count} below {name}.{born}.{number} {got} {want}")?)
        }
        Ok(PollAnswer::Lengths { count, below: None }) => told(alloc, "lengths", &[count as u64]),
        Ok(PollAnswer::Refused { code }) => told(alloc, "refused", &[code as u64]),
        Ok(PollAnswer::Silent) => told(alloc, "silent", &[]),
        Ok(PollAnswer::Nothing) => told(alloc, "nothing", &[]),
        Err(fault) => faulted(alloc, fault),
    }
}

pub(crate) fn settled(alloc: Global, given: Result<Settled, AgentFault>) -> Result<String, Fail> {
    match given {
        Ok(Settled { reset, written }) => {
            let state = if written { "written" } else { "same" };
            Ok(format!(in alloc; "reset {reset} {state}")?)
        }
        Err(fault) => faulted(alloc, fault),
    }
}

// The reply to a control line, and what becomes of the session.
pub(crate) fn replied(alloc: Global, given: Result<Reply, AgentFault>) -> Result<String, Fail> {
    let reply = match given {
        Ok(reply) => reply,
        Err(fault) => return faulted(alloc, fault),
    };
    let mut text = shown(alloc, reply.text.as_slice())?;
    text.push_str(match reply.then {
        Then::Go => " go",
        Then::Close => " close",
        Then::End => " end",
    })?;
    Ok(text)
}

pub(crate) fn state_text(alloc: Global, state: Option<State>) -> Result<String, Fail> {
    let word = match state {
        Some(State::Live) => "live",
        Some(State::Stopping) => "stopping",
        Some(State::Shrank) => "shrank",
        None => "past",
    };
    told(alloc, word, &[])
}
