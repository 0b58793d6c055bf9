//! One message of a turn: it is read to its end, handled and answered, and passed on.

ghost use Rattle.std.specs.Prelude.{◌≡◌, ◌≢◌, ℕ, List, true, false, IsTrue};
ghost use Rattle.chk_bytes.specs.Stems.{is_collector};
ghost use Rattle.chk_site.specs.Site.{Adds};
ghost use Rattle.chk_site.specs.Runs.{Leads};
ghost use Rattle.chk_world.specs.Places.{Talking};
ghost use Rattle.chk_sink.specs.States.{IsSameStart, process};
ghost use Rattle.chk_sink.specs.Held.{Matches};
ghost use Rattle.chk_collector.specs.Replies.{MayHaveRisen};
ghost use Rattle.chk_collector_run.specs.Messages.{IsOpen, IsShut, IsReadOn, IsReplied, IsPassedOn, IsAnswered};
ghost use Rattle.chk_collector_run.specs.Legality.{HasTaken};

use crate::calls::{next_piece, send};
use chk_bytes::{Bytes, NoMemory};
use chk_collector::Collector;
use chk_http::{HttpFault, read_request};
use chk_site::{Site, Taking, Who};
use chk_tee_sender::Tees;
use std::alloc::Global;

/// The bytes of a whole head and of the longest body.
const MOST_BYTES: usize = 4_210_688;

/// The message is to be read on: it isn't whole yet, nor too long. It costs one reading of the head.
fn is_open(bytes: &[u8]) -> bool
    ensures unread { result ≡ true → IsOpen bytes.now }
    ensures shut { result ≡ false → IsShut bytes.now }
{
    if bytes.len() >= MOST_BYTES {
        return false;
    }
    match read_request(bytes) {
        Ok(_) => false,
        Err(fault) => is_not_yet(fault),
    }
}

// The bytes end before the request does.
fn is_not_yet(fault: HttpFault) -> bool
    ensures yes { result ≡ true → fault ≡ HttpFault.NotYet }
    ensures no { result ≡ false → fault ≢ HttpFault.NotYet }
{
    match fault {
        HttpFault::NotYet => true,
        _ => false,
    }
}

/// All of the message that comes; none where a call failed.
fn read_on<S: Site>(
    alloc: Global,
    site: &mut S,
    who: &Who,
    number: u64,
    begun: Bytes,
) -> Result<Option<Bytes>, NoMemory>
    ensures script { IsReadOn who.now number begun result (S.told site.old) (S.told site.new) }
    ensures count { MayHaveRisen (S.fault_count site.old) (S.fault_count site.new) }
{
    let mut bytes = begun;
    while is_open(bytes.as_slice()) {
        let came = next_piece(alloc, site, who, number)?;
        let Some(piece) = came else {
            return Ok(None);
        };
        if piece.len() == 0 {
            return Ok(Some(bytes));
        }
        bytes.push_all(piece.as_slice())?;
    }
    Ok(Some(bytes))
}

// Handles the request and answers it once. The reply is told where its answer was done.
fn answer<S: Site>(
    alloc: Global,
    site: &mut S,
    who: &Who,
    collector: &mut Collector,
    number: u64,
    request: &[u8],
) -> Result<Option<Bytes>, NoMemory>
    requires started { who.now ≡ process collector.old }
    requires named { IsTrue (is_collector who.now.name) }
    ensures told { (stamped : List (List ℕ)) → Adds (S.told site.old) (S.told site.new)
        (Leads (Talking stamped (process collector.old))
        (HasTaken stamped collector.old number request.now) (Matches stamped collector.new)) }
    ensures script { IsReplied who.now number request.now collector.old result
        (S.told site.old) collector.new (S.told site.new) }
    ensures same { IsSameStart collector.old collector.new }
    ensures count { MayHaveRisen (S.fault_count site.old) (S.fault_count site.new) }
{
    let reply = collector.respond(alloc, site, request)?;
    let sent = send(alloc, site, who, number, reply.as_slice())?;
    if sent {
        return Ok(Some(reply));
    }
    Ok(None)
}

// Handles the request, answers it once, passes on what was written where the answer was done, and
// tells the size of the request.
fn answer_and_pass<S: Site>(
    alloc: Global,
    site: &mut S,
    who: &Who,
    collector: &mut Collector,
    number: u64,
    request: &[u8],
    tees: &mut Tees,
) -> Result<usize, NoMemory>
    requires started { who.now ≡ process collector.old }
    requires named { IsTrue (is_collector who.now.name) }
    ensures told { (stamped : List (List ℕ)) → Adds (S.told site.old) (S.told site.new)
        (Leads (Talking stamped (process collector.old))
        (HasTaken stamped collector.old number request.now) (Matches stamped collector.new)) }
    ensures script { IsPassedOn who.now number request.now collector.old tees.old result
        (S.told site.old) collector.new tees.new (S.told site.new) }
    ensures same { IsSameStart collector.old collector.new }
    ensures count { MayHaveRisen (S.fault_count site.old) (S.fault_count site.new) }
{
    match answer(alloc, site, who, collector, number, request) {
        Ok(Some(reply)) => match tees.pass(site, who, request, reply.as_slice()) {
            Ok(_) => Ok(request.len()),
            Err(fault) => Err(fault),
        },
        Ok(None) => Ok(request.len()),
        Err(fault) => Err(fault),
    }
}

/// Reads the message on, handles it, answers it once, and passes on what was written. A call that
/// fails ends it. It tells how many bytes the message had where it was read to its end, and 0 where
/// it broke off.
pub(crate) fn handle<S: Site>(
    alloc: Global,
    site: &mut S,
    who: &Who,
    collector: &mut Collector,
    taking: Taking,
    tees: &mut Tees,
) -> Result<usize, NoMemory>
    requires started { who.now ≡ process collector.old }
    requires named { IsTrue (is_collector who.now.name) }
    ensures told { (stamped : List (List ℕ)) → Adds (S.told site.old) (S.told site.new)
        (Leads (Talking stamped (process collector.old))
        (HasTaken stamped collector.old taking.number taking.bytes) (Matches stamped collector.new)) }
    ensures script { IsAnswered who.now taking.number taking.bytes collector.old tees.old result
        (S.told site.old) collector.new tees.new (S.told site.new) }
    ensures same { IsSameStart collector.old collector.new }
    ensures count { MayHaveRisen (S.fault_count site.old) (S.fault_count site.new) }
{
    let number = taking.number;
    let read = read_on(alloc, site, who, number, taking.bytes)?;
    match read {
        None => Ok(0),
        Some(request) => {
            answer_and_pass(
                alloc,
                site,
                who,
                collector,
                number,
                request.as_slice(),
                tees,
            )
        }
    }
}
