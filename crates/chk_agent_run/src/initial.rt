//! The initial file, each line of which adds a stream.

ghost use Rattle.std.specs.Prelude.{◌≡◌, ◌≤◌, ◌<◌, ℕ, List, Bool, true, Some, IfOk, length, slice_get};
ghost use Rattle.chk_bytes.specs.Words.{parts_at};
ghost use Rattle.chk_control.specs.Lines.{meaning_of};
ghost use Rattle.chk_site.specs.History.{Every};
ghost use Rattle.chk_site.specs.Site.{Adds, LastFailed, OutsideCause};
ghost use Rattle.chk_site.specs.Runs.{Leads};
ghost use Rattle.chk_world.specs.Places.{Talking};
ghost use Rattle.chk_agent_adaptor.specs.Adaptors.{Adaptor};
ghost use Rattle.chk_agent.specs.States.{process};
ghost use Rattle.chk_agent.specs.Facts.{Matches};
ghost use Rattle.chk_agent.specs.Faults.{AgentCause, FailsLast, IsUndamaged};
ghost use Rattle.chk_agent_run.specs.Initial.{ReadsInitial, LooksAt, is_live_in, AddsStream, Wants, IsLineAdded, AreAdded};
ghost use Rattle.chk_agent_run.specs.Lent.{word_of};
ghost use Rattle.chk_agent_run.specs.Faults.{RunCause, LastOfRun, IsNoCheckpoint};

use crate::faults::RunFault;
use crate::lines::line_at;
use chk_agent::{Agent, AgentFault};
use chk_bytes::{Bytes, NoMemory, Word};
use chk_control::{Command, LineFault, read_line};
use chk_replace::load;
use chk_site::{OutsideFault, Site, Who};
use std::alloc::Global;

// What a line of the file asks for.
#[derive(Drop)]
pub(crate) enum Wanted {
    Nothing,
    Stream { kind: Word, path: Word },
    // It may not stand in the file.
    Other,
}

/// The bytes of an initial file, all of them in memory; none where no file is named or there.
pub fn read_initial<S: Site>(
    alloc: Global,
    site: &mut S,
    writer: &Who,
    file: Option<&Word>,
) -> Result<Bytes, OutsideFault>
    ensures script { ReadsInitial writer.now (word_of file.entry) result (S.told site.old) (S.told site.new) }
    ensures reads { Adds (S.told site.old) (S.told site.new) (Every (LooksAt writer.now)) }
    ensures last { Adds (S.told site.old) (S.told site.new) (LastFailed result) }
    ensures cause { OutsideCause (S.fault_count site.old) (S.fault_count site.new) result }
{
    let Some(file) = file else {
        return Ok(Bytes::new(alloc));
    };
    match load(alloc, site, writer, file.as_str())? {
        Some(bytes) => Ok(bytes),
        None => Ok(Bytes::new(alloc)),
    }
}

// What a line asks for.
fn wanted_by(alloc: Global, line: &[u8]) -> Result<Wanted, NoMemory>
    ensures { IfOk result (Wants (meaning_of line.now)) }
{
    match read_line(alloc, line) {
        Ok(Command::Blank) => Ok(Wanted::Nothing),
        Ok(Command::Add { kind, path, .. }) => Ok(Wanted::Stream { kind, path }),
        Ok(_) => Ok(Wanted::Other),
        Err(LineFault::NoMemory) => Err(NoMemory),
        Err(_) => Ok(Wanted::Other),
    }
}

// Whether an adaptor that isn't past reads the stream.
fn is_live(agent: &Agent, kind: &Word, path: &Word) -> bool
    ensures { result ≡ is_live_in kind.now path.now agent.now.adaptors }
{
    let _sound = agent.ready();
    match agent.find_stream(kind, path) {
        Some(number) => agent.state(number).is_some(),
        None => false,
    }
}

// Runs a line that adds a stream, and skips one for which there is nothing to do. It says whether
// it was accepted or skipped.
fn add_line<S: Site>(
    alloc: Global,
    site: &mut S,
    agent: &mut Agent,
    line: &[u8],
) -> Result<bool, AgentFault>
    requires ready { agent.old.ready ≡ true }
    ensures script { IsLineAdded line.now agent.old result agent.new (S.told site.old) (S.told site.new) }
    ensures told { (stamped : List (List ℕ)) → Adds (S.told site.old) (S.told site.new)
        (Leads (Talking stamped (process agent.old)) (Matches stamped agent.old) (Matches stamped agent.new)) }
    ensures source { agent.new.source ≡ agent.old.source }
    ensures ready { IfOk result (λ _. agent.new.ready ≡ true) }
    ensures undamaged { IsUndamaged result }
    ensures last { Adds (S.told site.old) (S.told site.new) (FailsLast result) }
    ensures cause { AgentCause (S.fault_count site.old) (S.fault_count site.new) result }
{
    match wanted_by(alloc, line)? {
        Wanted::Nothing => Ok(true),
        Wanted::Stream { kind, path } => add_stream(alloc, site, agent, line, &kind, &path),
        Wanted::Other => Ok(false),
    }
}

// Runs a line that adds this stream, where it isn't read yet, and says whether it is read then.
fn add_stream<S: Site>(
    alloc: Global,
    site: &mut S,
    agent: &mut Agent,
    line: &[u8],
    kind: &Word,
    path: &Word,
) -> Result<bool, AgentFault>
    requires ready { agent.old.ready ≡ true }
    requires wants { AddsStream kind.now path.now (meaning_of line.now) }
    ensures script { IsLineAdded line.now agent.old result agent.new (S.told site.old) (S.told site.new) }
    ensures told { (stamped : List (List ℕ)) → Adds (S.told site.old) (S.told site.new)
        (Leads (Talking stamped (process agent.old)) (Matches stamped agent.old) (Matches stamped agent.new)) }
    ensures source { agent.new.source ≡ agent.old.source }
    ensures ready { IfOk result (λ _. agent.new.ready ≡ true) }
    ensures undamaged { IsUndamaged result }
    ensures last { Adds (S.told site.old) (S.told site.new) (FailsLast result) }
    ensures cause { AgentCause (S.fault_count site.old) (S.fault_count site.new) result }
{
    if is_live(agent, kind, path) {
        return Ok(true);
    }
    agent.command(alloc, site, line)?;
    Ok(is_live(agent, kind, path))
}

/// Adds the streams of the lines of an initial file in order. Blank lines and those whose stream is
/// read already are skipped; any other line that isn't an accepted `add` is `Initial` at its first
/// byte.
pub fn add_lines<S: Site>(
    alloc: Global,
    site: &mut S,
    agent: &mut Agent,
    text: &[u8],
) -> Result<(), RunFault>
    requires ready { agent.old.ready ≡ true }
    ensures script { AreAdded 0 (parts_at 10 text.now) agent.old result agent.new (S.told site.old) (S.told site.new) }
    ensures told { (stamped : List (List ℕ)) → Adds (S.told site.old) (S.told site.new)
        (Leads (Talking stamped (process agent.old)) (Matches stamped agent.old) (Matches stamped agent.new)) }
    ensures source { agent.new.source ≡ agent.old.source }
    ensures ready { IfOk result (λ _. agent.new.ready ≡ true) }
    ensures undamaged { IsNoCheckpoint result }
    ensures last { Adds (S.told site.old) (S.told site.new) (LastOfRun result) }
    ensures cause { RunCause (S.fault_count site.old) (S.fault_count site.new) result }
{
    let mut at = 0;
    while at <= text.len() {
        let line = line_at(text, at);
        if !add_line(alloc, site, agent, line)? {
            return Err(RunFault::Initial { at: at as u64 });
        }
        at += line.len() + 1;
    }
    Ok(())
}
