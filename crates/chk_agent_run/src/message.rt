//! How a control message is read to its end.

ghost use Rattle.std.specs.Prelude.{◌≡◌, ◌≤◌, ◌++◌, ℕ, List, Bool, true, length, drop, take, IfOk, IfErr};
ghost use Rattle.chk_control.specs.Lines.{meaning_of};
ghost use Rattle.chk_site.specs.Site.{Adds, MayFail};
ghost use Rattle.chk_site.specs.Runs.{Leads};
ghost use Rattle.chk_world.specs.Places.{Talking};
ghost use Rattle.chk_agent.specs.declared.answers.AgentFault.TheVariants.{NoMemory as wanting};
ghost use Rattle.chk_agent.specs.States.{process};
ghost use Rattle.chk_agent.specs.Facts.{Matches};
ghost use Rattle.chk_agent_run.specs.Closing.{closes, capped, IsPassed};
ghost use Rattle.chk_agent_run.specs.Messages.{IsRead, Scanned, Brought};

use chk_agent::{Agent, AgentFault};
use chk_bytes::{Bytes, NoMemory, line_size};
use chk_control::{Command, LineFault, read_line};
use chk_site::{CallFault, Site, Taking, Who};
use std::alloc::Global;

/// The most bytes that are read of a control message.
const MOST_BYTES: usize = 65_536;

// How far the whole lines of a message were passed.
#[derive(Clone, Copy)]
pub(crate) enum Scan {
    // A whole line ends the message.
    Closed,
    // None does. What stands from here on is no whole line yet.
    Open { at: usize },
}

// Whether a line ends its message.
fn closes(alloc: Global, line: &[u8]) -> Result<bool, NoMemory>
    ensures { IfOk result (λ ends. ends ≡ closes (meaning_of line.now)) }
{
    match read_line(alloc, line) {
        Ok(Command::Close | Command::StopAgent) => Ok(true),
        Ok(_) => Ok(false),
        Err(LineFault::NoMemory) => Err(NoMemory),
        Err(_) => Ok(false),
    }
}

// Passes the whole lines from a place on, before which none ends the message.
fn pass_lines(alloc: Global, text: &[u8], from: usize) -> Result<Scan, NoMemory>
    requires passed { IsPassed from text.now }
    ensures { IfOk result (Scanned text.now) }
{
    let mut at = from;
    while let Some(size) = line_size(&text[at..]) {
        if closes(alloc, &text[at..at + size])? {
            return Ok(Scan::Closed);
        }
        at += size + 1;
    }
    Ok(Scan::Open { at })
}

// Adds a piece to a message, of which no more than 65,536 bytes are kept.
fn add_piece(message: &mut Bytes, piece: &[u8]) -> Result<(), NoMemory>
    ensures { IfOk result (λ _. message.new ≡ capped (message.old ++ piece.now)) }
{
    message.push_all(piece)?;
    message.truncate(MOST_BYTES);
    Ok(())
}

// The piece that a call gave; none where it failed.
fn brought(given: Result<Bytes, CallFault>) -> Result<Option<Bytes>, AgentFault>
    requires may { MayFail given }
    ensures brought { Brought given result }
    ensures unmade { IfErr result (λ fault. fault ≡ wanting) }
{
    match given {
        Ok(piece) => Ok(Some(piece)),
        Err(CallFault::Failed) => Ok(None),
        Err(CallFault::NoMemory) => Err(AgentFault::NoMemory),
        Err(_) => unreachable!(),
    }
}

// Reads a taken message to its end, by which a line of it ends it, it has 65,536 bytes, or no more
// comes; none where a piece failed. It costs the message's length, and for each piece that of the
// line that isn't whole yet.
pub(crate) fn read_message<S: Site>(
    alloc: Global,
    site: &mut S,
    who: &Who,
    agent: &Agent,
    taking: Taking,
) -> Result<Option<Bytes>, AgentFault>
    requires ready { agent.now.ready ≡ true }
    requires who { who.now ≡ process agent.now }
    ensures read { IsRead who.now taking.number (capped taking.bytes) result (S.told site.old) (S.told site.new) }
    ensures told { (stamped : List (List ℕ)) → Adds (S.told site.old) (S.told site.new)
        (Leads (Talking stamped (process agent.now)) (Matches stamped agent.now) (Matches stamped agent.now)) }
    ensures unmade { IfErr result (λ fault. fault ≡ wanting) }
    ensures count { S.fault_count site.old ≤ S.fault_count site.new }
{
    let _sound = agent.ready();
    let number = taking.number;
    let mut message = taking.bytes;
    message.truncate(MOST_BYTES);
    let mut at = 0;
    loop {
        let Scan::Open { at: next } = pass_lines(alloc, message.as_slice(), at)? else {
            return Ok(Some(message));
        };
        at = next;
        if message.len() >= MOST_BYTES {
            return Ok(Some(message));
        }
        let given = site.more(alloc, who, number);
        let Some(piece) = brought(given)? else {
            return Ok(None);
        };
        if piece.len() == 0 {
            return Ok(Some(message));
        }
        add_piece(&mut message, piece.as_slice())?;
    }
}
