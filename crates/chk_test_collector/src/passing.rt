//! What a tee passes on, and to whom it was sent.
use crate::answers::collector_of;
use chk_bytes::{Bytes, Word};
use chk_site::{Act, Role, Site, Who};
use chk_site_mem::SiteMem;
use chk_tee_sender::Tees;
use chk_test_engine::{Parts, plain, shown};
use std::alloc::Global;
use std::test::Fail;

/// How many were sent to, and how many were dropped.
pub(crate) fn pass(
    alloc: Global,
    site: &mut SiteMem,
    tees: &mut Tees,
    request: &[u8],
    reply: &[u8],
) -> Result<String, Fail> {
    let who = collector_of(alloc, b"c1")?;
    match tees.pass(site, &who, request, reply) {
        Ok(passed) => Ok(format!(in alloc; "{} {}", passed.sent, passed.dropped)?),
        Err(_) => plain(alloc, "no memory"),
    }
}

// These bytes were sent to this address.
fn is_sent(act: &Act, address: &str, wanted: &[u8]) -> bool {
    match act.words.as_slice() {
        [to, bytes] => to.as_slice() == address.as_bytes() && bytes.as_slice() == wanted,
        _ => false,
    }
}

// Each act sent these bytes to the next one of the addresses.
fn are_in_turn(acts: &[Act], addresses: &str, wanted: &[u8]) -> bool {
    let mut addresses = addresses.split(' ');
    for act in acts {
        match addresses.next() {
            Some(address) if is_sent(act, address, wanted) => {}
            _ => return false,
        }
    }
    true
}

/// `ADDRESS.. with PARTS`.
pub(crate) fn sent_to(
    alloc: Global,
    parts: &Parts,
    acts: &[Act],
    text: &str,
) -> Result<String, Fail> {
    let (addresses, wanted) = text.split_once(" with ").ok_or("no message")?;
    let wanted = parts.bytes(alloc, wanted)?;
    let holds = are_in_turn(acts, addresses, wanted.as_slice());
    plain(alloc, if holds { "done" } else { "other sends" })
}

/// `DOOR PARTS`: a watcher takes just this message, or the answer is the message that it takes.
pub(crate) fn is_taken(
    alloc: Global,
    parts: &Parts,
    site: &mut SiteMem,
    text: &str,
) -> Result<String, Fail> {
    let (door, wanted) = text.split_once(' ').ok_or("no message")?;
    let wanted = parts.bytes(alloc, wanted)?;
    let who = Who {
        role: Role::Writer,
        name: Word::new(alloc, b"tee".as_slice())?,
    };
    match site.take(alloc, &who, door, 0) {
        Ok(Some(taking)) if taking.bytes.as_slice() == wanted.as_slice() => plain(alloc, "done"),
        Ok(Some(taking)) => shown(alloc, taking.bytes.as_slice()),
        Ok(None) => plain(alloc, "no message"),
        Err(fault) => Ok(format!(in alloc; "{fault:?}")?),
    }
}
