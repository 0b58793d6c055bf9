//! The agents of a folder, as their checkpoints and their logs show them.

ghost use Rattle.std.specs.Prelude.{◌≡◌, [], map, Ok, Err, IfErr, IfOk};
ghost use Rattle.chk_site.specs.History.{Every};
ghost use Rattle.chk_site.specs.Site.{Adds, OutsideCause};
ghost use Rattle.chk_world.specs.Sight.{job};
ghost use Rattle.chk_checkpoint.specs.Lines.{shown};
ghost use Rattle.chk_ctl_status_rows.specs.Agents.{check_fault, fault_of, pushed, with_items};
ghost use Rattle.chk_ctl_status_rows.specs.Agents.{AddsAgent, AddsLog, AddsNamed, AgentsCause, EndOf};
ghost use Rattle.chk_ctl_status_rows.specs.Agents.{FindsAgents, Listed, LooksAtLogs, SeesAgent};
ghost use Rattle.chk_ctl_status_rows.specs.Agents.{SeesAgents, SeesChecked, SeesLogs};

use crate::ends::log_end;
use chk_bytes::{NoMemory, Word};
use chk_checkpoint::{CheckFault, CheckLine, Checkpoint, load_checkpoint};
use chk_ctl_passed::agent_of;
use chk_site::{Call, CallFault, OutsideFault, Site, Who};
use std::alloc::Global;

/// What is seen of an agent.
#[derive(Drop)]
pub struct AgentSeen {
    /// Its source, as the name of the checkpoint has it.
    pub source: Word,
    pub check: Checkpoint,
    /// For each line of the checkpoint the offset up to which its log goes, where that is known;
    /// of a stream that was stopped it isn't asked for.
    pub ends: Vec<Option<u64>>,
    /// How many seconds ago the checkpoint was written, where that is known.
    pub age: Option<u64>,
}

/// Why agents aren't seen.
#[derive(Debug, Drop)]
pub enum AgentsFault {
    /// The checkpoint of this source isn't in its grammar; its first bad line begins at `at`.
    Damaged { source: Word, at: u64 },
    /// This call on the outside failed.
    Outside { call: Call },
    /// There was no memory.
    NoMemory,
}

/// The agents whose checkpoints are in the folder `agents`, in byte order of their names. Each
/// checkpoint is read before its logs. How old the checkpoints are isn't known.
///
/// It costs one listing, the reads of each checkpoint, which are all held whole, and those of each
/// log, as `log_end` has them.
pub fn find_agents<S: Site>(
    alloc: Global,
    site: &mut S,
    who: &Who,
) -> Result<Vec<AgentSeen>, AgentsFault>
    requires job { who.now ≡ job }
    ensures ok { IfOk result (λ agents. FindsAgents who.now (Ok agents.items) (S.told site.old)
        (S.told site.new)) }
    ensures err { IfErr result (λ fault. FindsAgents who.now (Err fault) (S.told site.old)
        (S.told site.new)) }
    ensures own { Adds (S.told site.old) (S.told site.new) (Every LooksAtLogs) }
    ensures cause { AgentsCause (S.fault_count site.old) (S.fault_count site.new) result }
{
    match list_agents(alloc, site, who) {
        Ok(names) => see_agents(alloc, site, who, names.as_slice()),
        Err(fault) => Err(fault_of(fault)),
    }
}

/// The names of the folder's files.
fn list_agents<S: Site>(alloc: Global, site: &mut S, who: &Who) -> Result<Vec<Word>, OutsideFault>
    ensures ok { IfOk result (λ names. Listed who.now (Ok names.items) (S.told site.old)
        (S.told site.new)) }
    ensures err { IfErr result (λ fault. Listed who.now (Err fault) (S.told site.old)
        (S.told site.new)) }
    ensures cause { OutsideCause (S.fault_count site.old) (S.fault_count site.new) result }
{
    match site.list(alloc, who, "agents") {
        Ok(names) => Ok(names),
        Err(CallFault::Failed) => Err(OutsideFault::Outside { call: Call::List }),
        Err(CallFault::NoMemory) => Err(OutsideFault::NoMemory),
        Err(_) => unreachable!(),
    }
}

/// The agents whose checkpoints these files are.
fn see_agents<S: Site>(
    alloc: Global,
    site: &mut S,
    who: &Who,
    names: &[Word],
) -> Result<Vec<AgentSeen>, AgentsFault>
    ensures ok { IfOk result (λ agents. SeesAgents who.now [] names.now (Ok agents.items)
        (S.told site.old) (S.told site.new)) }
    ensures err { IfErr result (λ fault. SeesAgents who.now [] names.now (Err fault)
        (S.told site.old) (S.told site.new)) }
    ensures cause { AgentsCause (S.fault_count site.old) (S.fault_count site.new) result }
{
    let mut agents = Vec::new(alloc);
    match see_each(alloc, site, who, &mut agents, names) {
        Ok(()) => Ok(agents),
        Err(fault) => Err(fault),
    }
}

/// Adds them.
fn see_each<S: Site>(
    alloc: Global,
    site: &mut S,
    who: &Who,
    agents: &mut Vec<AgentSeen>,
    names: &[Word],
) -> Result<(), AgentsFault>
    ensures told { SeesAgents who.now agents.old.items names.now
        (with_items agents.new.items result) (S.told site.old) (S.told site.new) }
    ensures cause { AgentsCause (S.fault_count site.old) (S.fault_count site.new) result }
{
    for name in names {
        add_agent(alloc, site, who, agents, name.as_str())?;
    }
    Ok(())
}

/// Adds the agent whose checkpoint the file of this name is, where it is one.
fn add_agent<S: Site>(
    alloc: Global,
    site: &mut S,
    who: &Who,
    agents: &mut Vec<AgentSeen>,
    name: &str,
) -> Result<(), AgentsFault>
    ensures told { AddsAgent who.now agents.old.items name.now
        (with_items agents.new.items result) (S.told site.old) (S.told site.new) }
    ensures cause { AgentsCause (S.fault_count site.old) (S.fault_count site.new) result }
{
    match agent_of(alloc, name) {
        Ok(Some(agent)) => add_named(alloc, site, who, agents, agent),
        Ok(None) => Ok(()),
        Err(NoMemory) => Err(AgentsFault::NoMemory),
    }
}

/// Adds this agent.
fn add_named<S: Site>(
    alloc: Global,
    site: &mut S,
    who: &Who,
    agents: &mut Vec<AgentSeen>,
    agent: Who,
) -> Result<(), AgentsFault>
    ensures told { AddsNamed who.now agents.old.items agent
        (with_items agents.new.items result) (S.told site.old) (S.told site.new) }
    ensures cause { AgentsCause (S.fault_count site.old) (S.fault_count site.new) result }
{
    match see_agent(alloc, site, who, agent) {
        Ok(seen) => push_agent(agents, seen),
        Err(fault) => Err(fault),
    }
}

fn push_agent(agents: &mut Vec<AgentSeen>, seen: AgentSeen) -> Result<(), AgentsFault>
    ensures { with_items agents.new.items result
        ≡ pushed AgentsFault.NoMemory agents.old.items seen result }
{
    match agents.push(seen) {
        Ok(()) => Ok(()),
        Err(_) => Err(AgentsFault::NoMemory),
    }
}

/// The agent, by its checkpoint and its logs.
fn see_agent<S: Site>(
    alloc: Global,
    site: &mut S,
    who: &Who,
    agent: Who,
) -> Result<AgentSeen, AgentsFault>
    ensures told { SeesAgent who.now agent result (S.told site.old) (S.told site.new) }
    ensures cause { AgentsCause (S.fault_count site.old) (S.fault_count site.new) result }
{
    match load_checkpoint(alloc, site, &agent) {
        Ok(check) => see_logs(alloc, site, who, agent.name, check),
        Err(fault) => Err(check_fault(agent.name, fault)),
    }
}

fn check_fault(source: Word, fault: CheckFault) -> AgentsFault
    ensures { result ≡ check_fault source fault }
{
    match fault {
        CheckFault::Damaged { at } => AgentsFault::Damaged { source, at },
        CheckFault::Outside { call } => AgentsFault::Outside { call },
        CheckFault::NoMemory => AgentsFault::NoMemory,
    }
}

/// The same, with what its logs show.
fn see_logs<S: Site>(
    alloc: Global,
    site: &mut S,
    who: &Who,
    source: Word,
    check: Checkpoint,
) -> Result<AgentSeen, AgentsFault>
    ensures told { SeesChecked who.now source check result (S.told site.old)
        (S.told site.new) }
    ensures cause { AgentsCause (S.fault_count site.old) (S.fault_count site.new) result }
{
    match find_ends(alloc, site, who, &check.lines) {
        Ok(ends) => Ok(AgentSeen {
            source,
            check,
            ends,
            age: None,
        }),
        Err(fault) => Err(fault_of(fault)),
    }
}

/// Up to where the log of each of these lines goes.
fn find_ends<S: Site>(
    alloc: Global,
    site: &mut S,
    who: &Who,
    lines: &[CheckLine],
) -> Result<Vec<Option<u64>>, OutsideFault>
    ensures ok { IfOk result (λ ends. SeesLogs who.now [] (map shown lines.now) (Ok ends.items)
        (S.told site.old) (S.told site.new)) }
    ensures err { IfErr result (λ fault. SeesLogs who.now [] (map shown lines.now) (Err fault)
        (S.told site.old) (S.told site.new)) }
    ensures cause { OutsideCause (S.fault_count site.old) (S.fault_count site.new) result }
{
    let mut ends = Vec::new(alloc);
    match add_ends(alloc, site, who, &mut ends, lines) {
        Ok(()) => Ok(ends),
        Err(fault) => Err(fault),
    }
}

/// Adds them.
fn add_ends<S: Site>(
    alloc: Global,
    site: &mut S,
    who: &Who,
    ends: &mut Vec<Option<u64>>,
    lines: &[CheckLine],
) -> Result<(), OutsideFault>
    ensures told { SeesLogs who.now ends.old.items (map shown lines.now)
        (with_items ends.new.items result) (S.told site.old) (S.told site.new) }
    ensures cause { OutsideCause (S.fault_count site.old) (S.fault_count site.new) result }
{
    for line in lines {
        add_end(alloc, site, who, ends, line)?;
    }
    Ok(())
}

fn add_end<S: Site>(
    alloc: Global,
    site: &mut S,
    who: &Who,
    ends: &mut Vec<Option<u64>>,
    line: &CheckLine,
) -> Result<(), OutsideFault>
    ensures told { AddsLog who.now ends.old.items (shown line.now)
        (with_items ends.new.items result) (S.told site.old) (S.told site.new) }
    ensures cause { OutsideCause (S.fault_count site.old) (S.fault_count site.new) result }
{
    match end_of(alloc, site, who, line) {
        Ok(end) => push_end(ends, end),
        Err(fault) => Err(fault),
    }
}

fn push_end(ends: &mut Vec<Option<u64>>, end: Option<u64>) -> Result<(), OutsideFault>
    ensures { with_items ends.new.items result
        ≡ pushed OutsideFault.NoMemory ends.old.items end result }
{
    match ends.push(end) {
        Ok(()) => Ok(()),
        Err(_) => Err(OutsideFault::NoMemory),
    }
}

/// Up to where the log of a stream goes that isn't stopped.
fn end_of<S: Site>(
    alloc: Global,
    site: &mut S,
    who: &Who,
    line: &CheckLine,
) -> Result<Option<u64>, OutsideFault>
    ensures told { EndOf who.now (shown line.now) result (S.told site.old) (S.told site.new) }
    ensures cause { OutsideCause (S.fault_count site.old) (S.fault_count site.new) result }
{
    if line.live {
        log_end(alloc, site, who, line)
    } else {
        Ok(None)
    }
}

/// A refusal of the site as one of the agents'.
fn fault_of(fault: OutsideFault) -> AgentsFault
    ensures { result ≡ fault_of fault }
{
    match fault {
        OutsideFault::Outside { call } => AgentsFault::Outside { call },
        OutsideFault::NoMemory => AgentsFault::NoMemory,
    }
}
