//! The families of metrics of the streams of agents.

ghost use Rattle.std.specs.Prelude.{◌≡◌, ◌++◌, flat_map, string_bytes, OnOk};
ghost use Rattle.chk_ctl_metrics.specs.Agents.{agent_rows, folder_rows, known_row, line_row};
ghost use Rattle.chk_ctl_metrics.specs.Agents.{lag_families, line_rows, log_help, log_name};
ghost use Rattle.chk_ctl_metrics.specs.Agents.{log_text, log_value, logs_text};
ghost use Rattle.chk_ctl_metrics.specs.Agents.{size_families};

use crate::families::put_head;
use crate::rows::put_log_row;
use chk_book::Book;
use chk_bytes::{Bytes, NoMemory};
use chk_checkpoint::CheckLine;
use chk_ctl_status::{Lock, end_at, lag_in};
use chk_ctl_status_rows::AgentSeen;

/// The agents of a folder that were seen, and its name.
#[derive(Drop)]
pub struct NamedAgents {
    pub folder: String,
    pub agents: Vec<AgentSeen>,
    /// The folder's locks.
    pub locks: Vec<Lock>,
}

/// What the rows of a family tell of each stream.
#[derive(Clone, Copy, Debug, PartialEq, Eq)]
pub(crate) enum LogFamily {
    Size,
    Committed,
    Lag,
    Age,
}

impl LogFamily {
    /// The name of its metric.
    fn name(self) -> &'static str
        ensures { result.now ≡ log_name self }
    {
        match self {
            LogFamily::Size => "chukwa_log_bytes",
            LogFamily::Committed => "chukwa_log_committed_bytes",
            LogFamily::Lag => "chukwa_lag_bytes",
            LogFamily::Age => "chukwa_checkpoint_age_seconds",
        }
    }

    /// What its metric is.
    fn help(self) -> &'static str
        ensures { result.now ≡ log_help self }
    {
        match self {
            LogFamily::Size => "Offset up to which the log goes.",
            LogFamily::Committed => "Offset up to which the log is committed.",
            LogFamily::Lag => "Bytes that the log is ahead of what is archived.",
            LogFamily::Age => "Seconds since the checkpoint was written.",
        }
    }
}

/// Appends the families of the streams of agents, each with its rows of all folders.
pub(crate) fn put_logs(
    out: &mut Bytes,
    agents: &[NamedAgents],
    books: &[&Book],
) -> Result<(), NoMemory>
    ensures { OnOk result (out.new ≡ out.old ++ logs_text agents.now books.now) }
{
    put_sizes(out, agents, books)?;
    put_lags(out, agents, books)
}

fn put_sizes(out: &mut Bytes, agents: &[NamedAgents], books: &[&Book]) -> Result<(), NoMemory>
    ensures { OnOk result (out.new ≡ out.old
        ++ flat_map (log_text agents.now books.now) size_families) }
{
    put_family(out, LogFamily::Size, agents, books)?;
    put_family(out, LogFamily::Committed, agents, books)
}

fn put_lags(out: &mut Bytes, agents: &[NamedAgents], books: &[&Book]) -> Result<(), NoMemory>
    ensures { OnOk result (out.new ≡ out.old
        ++ flat_map (log_text agents.now books.now) lag_families) }
{
    put_family(out, LogFamily::Lag, agents, books)?;
    put_family(out, LogFamily::Age, agents, books)
}

fn put_family(
    out: &mut Bytes,
    family: LogFamily,
    agents: &[NamedAgents],
    books: &[&Book],
) -> Result<(), NoMemory>
    ensures { OnOk result (out.new ≡ out.old ++ log_text agents.now books.now family) }
{
    put_head(out, family.name(), family.help())?;
    for folder in agents {
        put_folder(out, family, folder, books)?;
    }
    Ok(())
}

/// Appends the rows that the family has of the folder's agents.
fn put_folder(
    out: &mut Bytes,
    family: LogFamily,
    folder: &NamedAgents,
    books: &[&Book],
) -> Result<(), NoMemory>
    ensures { OnOk result (out.new ≡ out.old ++ folder_rows family books.now folder.now) }
{
    for agent in &folder.agents {
        put_agent(out, family, folder.folder.as_str(), agent, books)?;
    }
    Ok(())
}

fn put_agent(
    out: &mut Bytes,
    family: LogFamily,
    folder: &str,
    agent: &AgentSeen,
    books: &[&Book],
) -> Result<(), NoMemory>
    ensures { OnOk result (out.new ≡ out.old
        ++ agent_rows family books.now folder.now agent.now) }
{
    put_lines(
        out,
        family,
        folder,
        agent,
        agent.check.lines.as_slice(),
        books,
    )
}

/// Appends those of these lines of an agent.
fn put_lines(
    out: &mut Bytes,
    family: LogFamily,
    folder: &str,
    agent: &AgentSeen,
    lines: &[CheckLine],
    books: &[&Book],
) -> Result<(), NoMemory>
    ensures { OnOk result (out.new ≡ out.old
        ++ line_rows family books.now folder.now agent.now 0 lines.now) }
{
    for index in 0..lines.len() {
        put_line(out, family, folder, agent, index, &lines[index], books)?;
    }
    Ok(())
}

/// Appends the row of the line at this place, none where its value isn't known.
fn put_line(
    out: &mut Bytes,
    family: LogFamily,
    folder: &str,
    agent: &AgentSeen,
    index: usize,
    line: &CheckLine,
    books: &[&Book],
) -> Result<(), NoMemory>
    ensures { OnOk result (out.new ≡ out.old
        ++ line_row family books.now folder.now agent.now index line.now) }
{
    let value = log_value(family, agent, index, line, books);
    put_known(out, family, folder, agent.source.as_str(), line, value)
}

fn put_known(
    out: &mut Bytes,
    family: LogFamily,
    folder: &str,
    source: &str,
    line: &CheckLine,
    value: Option<u64>,
) -> Result<(), NoMemory>
    ensures { OnOk result (out.new ≡ out.old
        ++ known_row family folder.now source.now line.now value) }
{
    match value {
        Some(value) => put_log_row(out, family.name(), folder, source, line, value),
        None => Ok(()),
    }
}

/// What the family tells of the line at this place.
fn log_value(
    family: LogFamily,
    agent: &AgentSeen,
    index: usize,
    line: &CheckLine,
    books: &[&Book],
) -> Option<u64>
    ensures { result ≡ log_value family books.now agent.now index line.now }
{
    let end = end_at(agent.ends.as_slice(), index);
    match family {
        LogFamily::Size => end,
        LogFamily::Committed => Some(line.place.offset),
        LogFamily::Lag => lag_in(agent.source.as_str(), line, end, books),
        LogFamily::Age => agent.age,
    }
}
