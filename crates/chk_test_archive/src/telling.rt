//! What is answered, as text.
use chk_archive::Report;
use chk_book::{Book, End, JobFault, Segment};
use chk_bytes::{NoMemory, Word};
use chk_join::JoinFault;
use std::alloc::Global;
use std::test::Fail;

pub(crate) fn fault_text(alloc: Global, fault: JobFault) -> Result<String, Fail> {
    match fault {
        JobFault::Damaged { name, at } => {
            let name = name.as_str();
            Ok(format!(in alloc; "damaged {name} {at}")?)
        }
        JobFault::Outside { call } => Ok(String::from_str(alloc, call.name())?),
        JobFault::Spent { number } => Ok(format!(in alloc; "spent {number}")?),
        JobFault::NoMemory => Err(Fail::from("no memory")),
    }
}

pub(crate) fn join_fault_text(alloc: Global, fault: JoinFault) -> Result<String, Fail> {
    match fault {
        JoinFault::Job { fault } => fault_text(alloc, fault),
        JoinFault::Differ {
            source,
            kind,
            name,
            at,
        } => {
            let (source, kind, name) = (source.as_str(), kind.as_str(), name.as_str());
            Ok(format!(in alloc; "differ {source} {kind} {name} {at}")?)
        }
        JoinFault::NoMemory => Err(Fail::from("no memory")),
    }
}

pub(crate) fn number_text(alloc: Global, number: u64) -> Result<String, NoMemory> {
    Ok(format!(in alloc; "{number}")?)
}

// In brackets; a newline stands as `|`.
pub(crate) fn bytes_text(alloc: Global, bytes: &[u8]) -> Result<String, NoMemory> {
    let mut text = String::from_str(alloc, "[")?;
    for b in bytes {
        text.push(if *b == b'\n' { '|' } else { char::from(*b) })?;
    }
    text.push(']')?;
    Ok(text)
}

fn add_ends(text: &mut String, ends: &[End]) -> Result<(), NoMemory> {
    for end in ends {
        let (source, kind, name) = (end.source.as_str(), end.kind.as_str(), end.name.as_str());
        let (start, end) = (end.start, end.end);
        write!(text, ", {source} {kind} {name} {start} {end}")?;
    }
    Ok(())
}

// Its numbers, with the first sink under writing or `-`, and each stream with its start and its end.
pub(crate) fn report_text(alloc: Global, report: &Report) -> Result<String, NoMemory> {
    let (unclosed, first) = (report.unclosed, report.first_unclosed.as_ref());
    let first = first.map_or("-", Word::as_str);
    let (taken, held, removed) = (report.taken, report.held, report.removed);
    let mut text = format!(in alloc;
        "unclosed {unclosed} {first} taken {taken} held {held} removed {removed}"
    )?;
    add_ends(&mut text, report.ends.as_slice())?;
    Ok(text)
}

fn add_segments(text: &mut String, segments: &[Segment]) -> Result<(), NoMemory> {
    for segment in segments {
        let (number, length) = (segment.number, segment.length);
        write!(text, ", {number} {length}")?;
    }
    Ok(())
}

// The next number, the number and the length of each segment, each stream with its start and its end, and the aside
// segment.
pub(crate) fn book_text(alloc: Global, book: &Book) -> Result<String, NoMemory> {
    let next = book.next;
    let mut text = format!(in alloc; "next {next}")?;
    add_segments(&mut text, book.segments.as_slice())?;
    add_ends(&mut text, book.ends.as_slice())?;
    if let Some(aside) = &book.aside {
        let (number, length) = (aside.number, aside.length);
        write!(text, ", aside {number} {length}")?;
    }
    Ok(text)
}
