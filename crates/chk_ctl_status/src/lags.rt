//! What is told of the agents of a folder.

ghost use Rattle.std.specs.Prelude.{◌≡◌, flat_map, get_or, string_bytes, IfOk, None};
ghost use Rattle.chk_site.specs.Site.{OutsideCause};
ghost use Rattle.chk_ctl_status_rows.specs.Lines.{quiet_cell, words_of};
ghost use Rattle.chk_ctl_status.specs.Lags.{agent_lag, agent_rows, agents_line, agents_text};
ghost use Rattle.chk_ctl_status.specs.Lags.{lag_line, no_agents, no_agents_line, with_rows};
ghost use Rattle.chk_ctl_status.specs.Lags.{archived_of, greatest, lag_at, lag_from, lag_in};
ghost use Rattle.chk_ctl_status.specs.Lags.{lag_of, log_row, log_rows, most_lag};
ghost use Rattle.chk_ctl_status.specs.Lags.{pair, row_at, row_text};
ghost use Rattle.chk_ctl_status.specs.Telling.{Tells};

use crate::telling::say_text;
use chk_book::Book;
use chk_bytes::NoMemory;
use chk_checkpoint::CheckLine;
use chk_ctl_status_rows::{AgentSeen, words_of};
use chk_site::{OutsideFault, Site, Who};
use std::alloc::Global;

/// The line above the streams of an agent.
const LOGS: &str =
    "            LOG       COMMITTED        ARCHIVED             LAG             AGE  STREAM\n";

/// Prints the table of a folder's agents, in one piece: of each stream up to where its log goes,
/// up to where it is committed and archived, by the greatest end in these books, how many bytes the
/// log goes on behind that, and how many seconds ago the checkpoint was written; `-` stands for
/// what isn't known. Without a book the lag is counted from what is committed. That a folder has no
/// checkpoint is told instead. It costs one call, for each stream the number of streams in all
/// books, and holds the text.
pub fn tell_agents<S: Site>(
    alloc: Global,
    site: &mut S,
    who: &Who,
    folder: &str,
    agents: &[AgentSeen],
    books: &[&Book],
) -> Result<(), OutsideFault>
    ensures told { Tells who.now (agents_text folder.now agents.now books.now) result
        (S.told site.old) (S.told site.new) }
    ensures cause { OutsideCause (S.fault_count site.old) (S.fault_count site.new) result }
{
    match agents_text(alloc, folder, agents, books) {
        Ok(text) => say_text(alloc, site, who, text.as_str()),
        Err(NoMemory) => Err(OutsideFault::NoMemory),
    }
}

/// Prints one line on a folder's agents, as Nagios reads it: `OK - <folder>: agents <n> lag
/// <bytes>` with the greatest lag that is known, or `WARNING - <folder>: no agent` where the folder
/// has no checkpoint. It costs what `tell_agents` costs, without the text.
pub fn tell_agents_line<S: Site>(
    alloc: Global,
    site: &mut S,
    who: &Who,
    folder: &str,
    agents: &[AgentSeen],
    books: &[&Book],
) -> Result<(), OutsideFault>
    ensures told { Tells who.now (agents_line folder.now agents.now books.now) result
        (S.told site.old) (S.told site.new) }
    ensures cause { OutsideCause (S.fault_count site.old) (S.fault_count site.new) result }
{
    match agents_line(alloc, folder, agents, books) {
        Ok(text) => say_text(alloc, site, who, text.as_str()),
        Err(NoMemory) => Err(OutsideFault::NoMemory),
    }
}

fn agents_line(
    alloc: Global,
    folder: &str,
    agents: &[AgentSeen],
    books: &[&Book],
) -> Result<String, NoMemory>
    ensures { IfOk result (λ text. string_bytes text
        ≡ agents_line folder.now agents.now books.now) }
{
    if agents.is_empty() {
        no_agents_line(alloc, folder)
    } else {
        lag_line(alloc, folder, agents.len(), most_lag(agents, books))
    }
}

fn no_agents_line(alloc: Global, folder: &str) -> Result<String, NoMemory>
    ensures { IfOk result (λ text. string_bytes text ≡ no_agents_line folder.now) }
{
    let text = format!(in alloc; "WARNING - {folder}: no agent\n")?;
    Ok(text)
}

fn lag_line(alloc: Global, folder: &str, count: usize, lag: u64) -> Result<String, NoMemory>
    ensures { IfOk result (λ text. string_bytes text ≡ lag_line folder.now count lag) }
{
    let text = format!(in alloc; "OK - {folder}: agents {count} lag {lag}\n")?;
    Ok(text)
}

fn agents_text(
    alloc: Global,
    folder: &str,
    agents: &[AgentSeen],
    books: &[&Book],
) -> Result<String, NoMemory>
    ensures { IfOk result (λ text. string_bytes text
        ≡ agents_text folder.now agents.now books.now) }
{
    if agents.is_empty() {
        return no_agents(alloc, folder);
    }
    let rows = rows_of(alloc, agents, books)?;
    with_rows(alloc, folder, rows.as_str())
}

fn no_agents(alloc: Global, folder: &str) -> Result<String, NoMemory>
    ensures { IfOk result (λ text. string_bytes text ≡ no_agents folder.now) }
{
    let text = format!(in alloc; "agent {folder}\n  no agent: it has no checkpoint\n")?;
    Ok(text)
}

fn with_rows(alloc: Global, folder: &str, rows: &str) -> Result<String, NoMemory>
    ensures { IfOk result (λ text. string_bytes text ≡ with_rows folder.now rows.now) }
{
    let text = format!(in alloc; "agent {folder}\n{LOGS}{rows}")?;
    Ok(text)
}

/// The rows of all agents.
fn rows_of(alloc: Global, agents: &[AgentSeen], books: &[&Book]) -> Result<String, NoMemory>
    ensures { IfOk result (λ text. string_bytes text ≡ flat_map (agent_rows books.now) agents.now) }
{
    let mut text = String::new(alloc);
    for agent in agents {
        let rows = agent_rows(alloc, agent, books)?;
        text.push_str(rows.as_str())?;
    }
    Ok(text)
}

fn agent_rows(alloc: Global, agent: &AgentSeen, books: &[&Book]) -> Result<String, NoMemory>
    ensures { IfOk result (λ text. string_bytes text ≡ agent_rows books.now agent.now) }
{
    log_rows(alloc, agent, agent.check.lines.as_slice(), books)
}

/// The rows of these lines of an agent.
fn log_rows(
    alloc: Global,
    agent: &AgentSeen,
    lines: &[CheckLine],
    books: &[&Book],
) -> Result<String, NoMemory>
    ensures { IfOk result (λ text. string_bytes text ≡ log_rows books.now agent.now 0 lines.now) }
{
    let mut text = String::new(alloc);
    for index in 0..lines.len() {
        let row = row_at(alloc, agent, index, &lines[index], books)?;
        text.push_str(row.as_str())?;
    }
    Ok(text)
}

/// The row of the line at this place.
fn row_at(
    alloc: Global,
    agent: &AgentSeen,
    index: usize,
    line: &CheckLine,
    books: &[&Book],
) -> Result<String, NoMemory>
    ensures { IfOk result (λ text. string_bytes text ≡ row_at books.now agent.now index line.now) }
{
    log_row(
        alloc,
        agent,
        line,
        end_at(agent.ends.as_slice(), index),
        books,
    )
}

/// The greatest lag that is known.
fn most_lag(agents: &[AgentSeen], books: &[&Book]) -> u64
    ensures { result ≡ most_lag books.now 0 agents.now }
{
    let mut most = 0;
    for agent in agents {
        most = agent_lag(agent, agent.check.lines.as_slice(), books, most);
    }
    most
}

/// The same of these lines of an agent, where the others have at most this.
fn agent_lag(agent: &AgentSeen, lines: &[CheckLine], books: &[&Book], least: u64) -> u64
    ensures { result ≡ agent_lag books.now agent.now least 0 lines.now }
{
    let mut most = least;
    for index in 0..lines.len() {
        most = most.max(lag_at(agent, index, &lines[index], books));
    }
    most
}

fn lag_at(agent: &AgentSeen, index: usize, line: &CheckLine, books: &[&Book]) -> u64
    ensures { result ≡ lag_at books.now agent.now index line.now }
{
    let end = end_at(agent.ends.as_slice(), index);
    lag_in(agent.source.as_str(), line, end, books).unwrap_or(0)
}

/// Up to where the log of the line at this place goes, where that is known.
pub fn end_at(ends: &[Option<u64>], index: usize) -> Option<u64>
    ensures { result ≡ get_or ends.now index None }
{
    if index < ends.len() {
        ends[index]
    } else {
        None
    }
}

fn log_row(
    alloc: Global,
    agent: &AgentSeen,
    line: &CheckLine,
    end: Option<u64>,
    books: &[&Book],
) -> Result<String, NoMemory>
    ensures { IfOk result (λ text. string_bytes text
        ≡ log_row books.now agent.now.source agent.now.age line.now end) }
{
    let source = agent.source.as_str();
    let archived = archived_of(source, line, books);
    let front = pair(alloc, end, Some(line.place.offset))?;
    let back = pair(alloc, archived, lag_of(end, line.place.offset, archived))?;
    let age = cell(alloc, agent.age)?;
    let words = words_of(alloc, source, line.kind.as_str(), line.path.as_str())?;
    row_text(
        alloc,
        front.as_str(),
        back.as_str(),
        age.as_str(),
        words.as_str(),
    )
}

fn row_text(
    alloc: Global,
    front: &str,
    back: &str,
    age: &str,
    words: &str,
) -> Result<String, NoMemory>
    ensures { IfOk result (λ text. string_bytes text
        ≡ row_text front.now back.now age.now words.now) }
{
    let text = format!(in alloc; "{front} {back} {age}  {words}\n")?;
    Ok(text)
}

/// Two columns.
fn pair(alloc: Global, first: Option<u64>, second: Option<u64>) -> Result<String, NoMemory>
    ensures { IfOk result (λ text. string_bytes text ≡ pair first second) }
{
    let front = cell(alloc, first)?;
    let back = cell(alloc, second)?;
    let text = format!(in alloc; "{front} {back}")?;
    Ok(text)
}

/// A number at the right end of a column of 15 places, or `-`.
fn cell(alloc: Global, value: Option<u64>) -> Result<String, NoMemory>
    ensures { IfOk result (λ text. string_bytes text ≡ quiet_cell value) }
{
    match value {
        Some(number) => {
            let text = format!(in alloc; "{number:>15}")?;
            Ok(text)
        }
        None => {
            let text = String::from_str(alloc, "              -")?;
            Ok(text)
        }
    }
}

/// How many bytes the log of the line, which goes up to this end, goes on behind what is archived
/// by these books, or behind what is committed where there is none. None where the log ends before
/// either, or its end isn't known. It costs the number of streams in all books.
pub fn lag_in(source: &str, line: &CheckLine, end: Option<u64>, books: &[&Book]) -> Option<u64>
    ensures { result ≡ lag_in books.now source.now line.now end }
{
    lag_of(end, line.place.offset, archived_of(source, line, books))
}

/// The same by numbers; none where the log ends before either, or its end isn't known.
fn lag_of(end: Option<u64>, committed: u64, archived: Option<u64>) -> Option<u64>
    ensures { result ≡ lag_of end committed archived }
{
    let from = archived.unwrap_or(committed);
    match end {
        Some(end) => lag_from(end, committed, from),
        None => None,
    }
}

fn lag_from(end: u64, committed: u64, from: u64) -> Option<u64>
    ensures { result ≡ lag_from end committed from }
{
    if end < committed || end < from {
        None
    } else {
        Some(end - from)
    }
}

/// Up to where the stream of the line is archived by these books; none without a book.
fn archived_of(source: &str, line: &CheckLine, books: &[&Book]) -> Option<u64>
    ensures { result ≡ archived_of books.now source.now line.now }
{
    if books.is_empty() {
        return None;
    }
    Some(greatest(
        line.start,
        source,
        line.kind.as_str(),
        line.path.as_str(),
        books,
    ))
}

/// The greatest end of the stream in these books, at least this.
fn greatest(least: u64, source: &str, kind: &str, name: &str, books: &[&Book]) -> u64
    ensures { result ≡ greatest least
        (record { source = source.now; kind = kind.now; name = name.now }) books.now }
{
    let mut most = least;
    for book in books {
        most = most.max(book.archived_end(source, kind, name));
    }
    most
}
