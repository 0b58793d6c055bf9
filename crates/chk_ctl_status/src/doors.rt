//! What control doors answer.

ghost use Rattle.std.specs.Prelude.{◌≡◌, ◌≤◌, count_by, option_map, string_bytes, IfOk};
ghost use Rattle.std.specs.List.{list_all};
ghost use Rattle.chk_site.specs.History.{Every};
ghost use Rattle.chk_site.specs.Site.{Adds, OutsideCause};
ghost use Rattle.chk_world.specs.JobSteps.{IsOf};
ghost use Rattle.chk_world.specs.Sight.{job};
ghost use Rattle.chk_ctl_status.specs.Doors.{answer_of, answered, are_lines, door_head, door_line};
ghost use Rattle.chk_ctl_status.specs.Doors.{door_of, door_text, found_in, has_trouble, is_newline};
ghost use Rattle.chk_ctl_status.specs.Doors.{is_shown, last_line, lines_before, lines_of};
ghost use Rattle.chk_ctl_status.specs.Doors.{streams_in, unsent_as, AsksList, ListAsked, ListGot};
ghost use Rattle.chk_ctl_status.specs.Telling.{Tells};
ghost use Rattle.chk_ctl_status.specs.declared.doors.Door.TheVariants.{List};

use crate::telling::{say_bytes, say_text};
use chk_bytes::{Bytes, NoMemory};
use chk_site::{CallFault, OutsideFault, Site, Who};
use std::alloc::Global;

/// Asks the control door at the address for its list: the line `list` is sent to it, and nothing
/// else. None where nobody takes it, or no byte comes back.
///
/// It costs two calls. On a machine each takes 2,000 ms at most, and of an answer 1,048,576 bytes are
/// read at most.
pub fn ask_list<S: Site>(
    alloc: Global,
    site: &mut S,
    who: &Who,
    address: &str,
) -> Result<Option<Bytes>, OutsideFault>
    requires job { who.now ≡ job }
    ensures told { ListAsked address.now result (S.told site.old) (S.told site.new) }
    ensures own { Adds (S.told site.old) (S.told site.new) (Every (IsOf AsksList)) }
    ensures count { S.fault_count site.old ≤ S.fault_count site.new }
{
    match site.send(alloc, who, address, b"list\n") {
        Ok(message) => got_list(alloc, site, who, message),
        Err(fault) => unsent_as(fault),
    }
}

/// The answer to the message.
fn got_list<S: Site>(
    alloc: Global,
    site: &mut S,
    who: &Who,
    message: u64,
) -> Result<Option<Bytes>, OutsideFault>
    requires job { who.now ≡ job }
    ensures told { ListGot message result (S.told site.old) (S.told site.new) }
    ensures own { Adds (S.told site.old) (S.told site.new) (Every (IsOf AsksList)) }
    ensures count { S.fault_count site.old ≤ S.fault_count site.new }
{
    let given = site.got(alloc, who, message);
    answer_of(given)
}

/// An answer that was got, or none.
fn answer_of(given: Result<Bytes, CallFault>) -> Result<Option<Bytes>, OutsideFault>
    ensures { result ≡ answer_of given }
{
    match given {
        Ok(bytes) => Ok(Some(bytes)),
        Err(fault) => unsent_as(fault),
    }
}

/// No answer where a call failed.
fn unsent_as(fault: CallFault) -> Result<Option<Bytes>, OutsideFault>
    ensures { result ≡ unsent_as fault }
{
    match fault {
        CallFault::NoMemory => Err(OutsideFault::NoMemory),
        _ => Ok(None),
    }
}

/// What a control door answered.
#[derive(Debug, Drop)]
pub enum Door {
    /// Nothing.
    Silent,
    /// Something that is no list.
    NoList,
    /// A list: these lines, each with its newline.
    List(Bytes),
}

impl Door {
    /// No list came.
    pub fn has_trouble(&self) -> bool
        ensures { result ≡ has_trouble self.now }
    {
        match self {
            Door::List(_) => false,
            _ => true,
        }
    }
}

/// What the answer of a control door is. A list are lines without control characters, and behind
/// them one that tells how many they are, `OK <n> adaptors`.
pub fn door_of(alloc: Global, answer: &Option<Bytes>) -> Result<Door, NoMemory>
    ensures { IfOk result (λ door. door ≡ door_of answer.now) }
{
    match answer {
        Some(bytes) => answered(alloc, bytes.as_slice()),
        None => Ok(Door::Silent),
    }
}

fn answered(alloc: Global, answer: &[u8]) -> Result<Door, NoMemory>
    ensures { IfOk result (λ door. door ≡ answered answer.now) }
{
    let end = last_line(alloc, newlines(answer).saturating_sub(1))?;
    match lines_before(answer, end.as_bytes()) {
        Some(lines) => listed(alloc, lines),
        None => Ok(Door::NoList),
    }
}

fn listed(alloc: Global, lines: &[u8]) -> Result<Door, NoMemory>
    ensures { IfOk result (λ door. door ≡ List lines.now) }
{
    let mut kept = Bytes::new(alloc);
    kept.push_all(lines)?;
    Ok(Door::List(kept))
}

fn last_line(alloc: Global, count: usize) -> Result<String, NoMemory>
    ensures { IfOk result (λ text. string_bytes text ≡ last_line count) }
{
    let text = format!(in alloc; "OK {count} adaptors\n")?;
    Ok(text)
}

fn newlines(bytes: &[u8]) -> usize
    ensures { result ≡ count_by is_newline bytes.now }
{
    let mut count = 0;
    for byte in bytes {
        if *byte == b'\n' {
            count += 1;
        }
    }
    count
}

/// What stands in front of the last line, where that are lines.
fn lines_before<'a>(answer: &'a [u8], end: &[u8]) -> Option<&'a [u8]>
    ensures { option_map (λ l. l.now) result ≡ lines_before end.now answer.now }
{
    match answer.strip_suffix(end) {
        Some(lines) if are_lines(lines) => Some(lines),
        _ => None,
    }
}

fn are_lines(lines: &[u8]) -> bool
    ensures { result ≡ are_lines lines.now }
{
    (lines.is_empty() || lines.strip_suffix(b"\n").is_some()) && are_shown(lines)
}

fn are_shown(bytes: &[u8]) -> bool
    ensures { result ≡ list_all is_shown bytes.now }
{
    bytes.iter().all(|byte| is_shown(*byte))
}

/// A newline, or a byte that is no control character.
fn is_shown(byte: u8) -> bool
    ensures { result ≡ is_shown byte }
{
    byte == b'\n' || (byte >= b' ' && byte != 127)
}

/// Prints what a control door answered: `control <name> at <address>: `, and then `no answer`,
/// `no list`, or `<n> streams` and behind it the lines of the list. It costs one call.
pub fn tell_door<S: Site>(
    alloc: Global,
    site: &mut S,
    who: &Who,
    name: &str,
    address: &str,
    door: &Door,
) -> Result<(), OutsideFault>
    ensures told { Tells who.now (door_text name.now address.now door.now) result (S.told site.old)
        (S.told site.new) }
    ensures cause { OutsideCause (S.fault_count site.old) (S.fault_count site.new) result }
{
    match door_text(alloc, name, address, door) {
        Ok(text) => say_bytes(alloc, site, who, text.as_slice()),
        Err(NoMemory) => Err(OutsideFault::NoMemory),
    }
}

/// Prints it as one line, as Nagios reads it: `OK - ` or, where no list came, `WARNING - `, and then
/// the same without the lines. It costs one call.
pub fn tell_door_line<S: Site>(
    alloc: Global,
    site: &mut S,
    who: &Who,
    name: &str,
    address: &str,
    door: &Door,
) -> Result<(), OutsideFault>
    ensures told { Tells who.now (door_line name.now address.now door.now) result (S.told site.old)
        (S.told site.new) }
    ensures cause { OutsideCause (S.fault_count site.old) (S.fault_count site.new) result }
{
    match door_line(alloc, name, address, door) {
        Ok(text) => say_text(alloc, site, who, text.as_str()),
        Err(NoMemory) => Err(OutsideFault::NoMemory),
    }
}

fn door_text(alloc: Global, name: &str, address: &str, door: &Door) -> Result<Bytes, NoMemory>
    ensures { IfOk result (λ text. text ≡ door_text name.now address.now door.now) }
{
    let head = door_head(alloc, name, address, door)?;
    let mut text = Bytes::new(alloc);
    text.push_all(head.as_bytes())?;
    text.push_all(lines_of(door))?;
    Ok(text)
}

fn lines_of(door: &Door) -> &[u8]
    ensures { result.now ≡ lines_of door.now }
{
    match door {
        Door::List(lines) => lines.as_slice(),
        _ => b"",
    }
}

fn door_line(alloc: Global, name: &str, address: &str, door: &Door) -> Result<String, NoMemory>
    ensures { IfOk result (λ text. string_bytes text ≡ door_line name.now address.now door.now) }
{
    let head = door_head(alloc, name, address, door)?;
    let front = if door.has_trouble() { "WARNING" } else { "OK" };
    let text = format!(in alloc; "{front} - {head}")?;
    Ok(text)
}

fn door_head(alloc: Global, name: &str, address: &str, door: &Door) -> Result<String, NoMemory>
    ensures { IfOk result (λ text. string_bytes text ≡ door_head name.now address.now door.now) }
{
    let found = found_in(alloc, door)?;
    let text = format!(in alloc; "control {name} at {address}: {found}\n")?;
    Ok(text)
}

fn found_in(alloc: Global, door: &Door) -> Result<String, NoMemory>
    ensures { IfOk result (λ text. string_bytes text ≡ found_in door.now) }
{
    match door {
        Door::Silent => {
            let text = String::from_str(alloc, "no answer")?;
            Ok(text)
        }
        Door::NoList => {
            let text = String::from_str(alloc, "no list")?;
            Ok(text)
        }
        Door::List(lines) => streams_in(alloc, lines.as_slice()),
    }
}

fn streams_in(alloc: Global, lines: &[u8]) -> Result<String, NoMemory>
    ensures { IfOk result (λ text. string_bytes text ≡ streams_in lines.now) }
{
    let count = newlines(lines);
    let text = format!(in alloc; "{count} streams")?;
    Ok(text)
}
