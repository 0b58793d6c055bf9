//! The fault that a made reply tells.

ghost use Rattle.std.specs.Prelude.{◌≡◌, ◌==◌, ◌++◌, ◌∷◌, ℕ, List, IfErr, IfOk, IfSome, decimal};
ghost use Rattle.chk_bytes.specs.Words.{SplitsAt};
ghost use Rattle.chk_http_grammar.specs.Messages.{IsReply};
ghost use Rattle.chk_sink.specs.declared.fault.SinkFault.{SinkFault};
ghost use Rattle.chk_sink.specs.declared.fault.SinkFault.TheVariants.{Damaged};
ghost use Rattle.chk_collector.specs.Outcomes.{Outcome, body_of, code_of, line, reply_of, sink_fault_text};
ghost use Rattle.chk_exchange.specs.Faults.{IsMade, IsTold, IsUnread, IsUntold, called};

use crate::fault::ExchangeFault;
use chk_bytes::{NoMemory, Word, first_space, take_plain_decimal};
use chk_http::read_reply;
use chk_site::Call;
use std::alloc::Global;

// All calls on the outside.
const CALLS: [Call; 21] = [
    Call::Start,
    Call::LogRead,
    Call::LogNewest,
    Call::LogAppend,
    Call::Create,
    Call::Append,
    Call::Sync,
    Call::Rename,
    Call::Remove,
    Call::Cut,
    Call::Size,
    Call::Read,
    Call::List,
    Call::Clock,
    Call::Pause,
    Call::Send,
    Call::Got,
    Call::Take,
    Call::More,
    Call::Answer,
    Call::Say,
];

/// The fault that a reply of the collector tells; none where it tells none. It takes memory for the name of a file.
pub(crate) fn fault_told(alloc: Global, reply: &[u8]) -> Result<Option<ExchangeFault>, NoMemory>
    ensures told { (o : Outcome) → reply.now ≡ reply_of o → IfOk result (IsMade o) }
    ensures untold { (o : Outcome) → reply.now ≡ reply_of o
        → IfErr result (λ _. IsUnread reply.now o) }
    ensures read { (o : Outcome) → reply.now ≡ reply_of o
        → IfOk result (λ _. IsReply (code_of o) (body_of o) reply.now) }
{
    match read_reply(reply) {
        Ok(reply) => {
            if reply.code != 503 {
                return Ok(None);
            }
            let fault = fault_in(alloc, reply.body)?;
            Ok(Some(fault))
        }
        // A reply of the collector can be read.
        Err(_) => Err(NoMemory),
    }
}

// The fault of the sinks that the line tells.
fn fault_in(alloc: Global, bytes: &[u8]) -> Result<ExchangeFault, NoMemory>
    ensures told { (fault : SinkFault) → bytes.now ≡ line (sink_fault_text fault)
        → IfOk result (IsTold fault) }
    ensures untold { (fault : SinkFault) → bytes.now ≡ line (sink_fault_text fault)
        → IfErr result (λ _. IsUntold fault) }
{
    let Some(text) = bytes.strip_suffix(b"\n".as_slice()) else {
        return Err(NoMemory);
    };
    if let Some(name) = text.strip_prefix(b"outside ".as_slice()) {
        return match call_named(name) {
            Some(call) => Ok(ExchangeFault::Outside { call }),
            None => Err(NoMemory),
        };
    }
    if let Some(number) = text.strip_prefix(b"spent ".as_slice()) {
        return match take_plain_decimal(number) {
            Some(number) => Ok(ExchangeFault::Spent { number }),
            None => Err(NoMemory),
        };
    }
    match text.strip_prefix(b"damaged ".as_slice()) {
        Some(place) => damage_in(alloc, place),
        None => Err(NoMemory),
    }
}

// The call of this name.
fn call_named(name: &[u8]) -> Option<Call>
    ensures { result ≡ called name.now }
{
    CALLS
        .iter()
        .copied()
        .find(|call| call.name().as_bytes() == name)
}

// The file and the place that the line of a damage names.
fn damage_in(alloc: Global, place: &[u8]) -> Result<ExchangeFault, NoMemory>
    ensures { (name : List ℕ) (number : ℕ) → place.now ≡ name ++ 32 ∷ decimal number
        → IfOk result (IsTold (Damaged name number)) }
{
    let Some((name, number)) = split_at_space(place) else {
        return Err(NoMemory);
    };
    let Some(at) = take_plain_decimal(number) else {
        return Err(NoMemory);
    };
    match Word::new(alloc, name) {
        Ok(name) => Ok(ExchangeFault::Damaged { name, at }),
        Err(_) => Err(NoMemory),
    }
}

// What stands before and behind the first space.
fn split_at_space(text: &[u8]) -> Option<(&[u8], &[u8])>
    ensures { IfSome result (λ parts. SplitsAt 32 text.now parts.0.now parts.1.now) }
{
    let space = first_space(text)?;
    Some((&text[..space], &text[space + 1..]))
}
