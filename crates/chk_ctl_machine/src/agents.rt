//! The inspection of a folder of agents.

ghost use Rattle.std.specs.Prelude.{◌≡◌, Ok, Err, IfSome, MatchResult};
ghost use Rattle.chk_site.specs.History.{Every};
ghost use Rattle.chk_site.specs.Site.{Adds};
ghost use Rattle.chk_world.specs.Sight.{job};
ghost use Rattle.chk_world.specs.Names.{spell, CheckFile};
ghost use Rattle.chk_ctl_machine.specs.Ages.{AsksAgeOf};
ghost use Rattle.chk_ctl_machine.specs.Agents.{AgesAgent, FindsThem, IsOutcomeOf, ReadsAgents, SeesAgents};
ghost use Rattle.chk_ctl_machine.specs.Inspecting.{Inspects};
ghost use Rattle.chk_ctl_machine.specs.Lending.{listed, Lent, SeenCause};
ghost use Rattle.chk_ctl_machine.specs.Turns.{InTurn};

use crate::machine::Machine;
use chk_bytes::{NoMemory, Word};
use chk_ctl_run::{Outcome, looker};
use chk_ctl_status_rows::{AgentSeen, AgentsFault, find_agents};
use chk_site::{Site, Who};
use std::alloc::Global;

/// What is seen of the agents of the current folder, or how their inspection ends. How old their
/// checkpoints are is asked behind that.
pub fn see_agents<M: Machine>(alloc: Global, machine: &mut M) -> Result<Vec<AgentSeen>, Outcome>
    ensures { MatchResult result
        (λ agents. SeesAgents (Ok agents.items) (M.told machine.old) (M.told machine.new))
        (λ outcome. SeesAgents (Err outcome) (M.told machine.old) (M.told machine.new)) }
{
    match find_there(alloc, machine) {
        Ok(agents) => Ok(with_ages(alloc, machine, agents)),
        Err(outcome) => Err(outcome),
    }
}

fn find_there<M: Machine>(alloc: Global, machine: &mut M) -> Result<Vec<AgentSeen>, Outcome>
    ensures { Lent None (FindsThem (listed result (λ v. v.items))) (M.told machine.old)
        (M.told machine.new) }
{
    let mut folder = machine.lend(None);
    let found = find_by(alloc, &mut folder);
    machine.take_back(folder);
    found
}

fn find_by<S: Site>(alloc: Global, site: &mut S) -> Result<Vec<AgentSeen>, Outcome>
    ensures told { ReadsAgents (listed result (λ v. v.items)) (S.told site.old) (S.told site.new) }
    ensures own { Adds (S.told site.old) (S.told site.new) (Every Inspects) }
    ensures cause { SeenCause (S.fault_count site.old) (S.fault_count site.new)
        (listed result (λ v. v.items)) }
{
    match looker(alloc) {
        Ok(who) => found_by(alloc, site, &who),
        Err(NoMemory) => Err(Outcome::NoMemory),
    }
}

/// The agents that the process finds.
fn found_by<S: Site>(alloc: Global, site: &mut S, who: &Who) -> Result<Vec<AgentSeen>, Outcome>
    requires job { who.now ≡ job }
    ensures told { ReadsAgents (listed result (λ v. v.items)) (S.told site.old) (S.told site.new) }
    ensures own { Adds (S.told site.old) (S.told site.new) (Every Inspects) }
    ensures cause { SeenCause (S.fault_count site.old) (S.fault_count site.new)
        (listed result (λ v. v.items)) }
{
    match find_agents(alloc, site, who) {
        Ok(agents) => Ok(agents),
        Err(fault) => Err(outcome_of(alloc, fault)),
    }
}

fn outcome_of(alloc: Global, fault: AgentsFault) -> Outcome
    ensures { IsOutcomeOf fault result }
{
    match fault {
        AgentsFault::Damaged { source, at } => match check_name(alloc, &source) {
            Some(name) => Outcome::Damaged { name, at },
            None => Outcome::NoMemory,
        },
        AgentsFault::Outside { call } => Outcome::Outside { call },
        AgentsFault::NoMemory => Outcome::NoMemory,
    }
}

/// The name of the checkpoint of the agent of this source.
fn check_name(alloc: Global, source: &Word) -> Option<Word>
    ensures { IfSome result (λ name. name ≡ spell (CheckFile source.now)) }
{
    match format!(in alloc; "agents/{source}.check") {
        Ok(text) => match Word::new(alloc, text.as_bytes()) {
            Ok(name) => Some(name),
            Err(_) => None,
        },
        Err(_) => None,
    }
}

fn with_ages<M: Machine>(
    alloc: Global,
    machine: &mut M,
    mut agents: Vec<AgentSeen>,
) -> Vec<AgentSeen>
    ensures { InTurn AgesAgent agents.items result.items (M.told machine.old) (M.told machine.new) }
{
    age_agents(alloc, machine, agents.as_mut_slice());
    agents
}

fn age_agents<M: Machine>(alloc: Global, machine: &mut M, agents: &mut [AgentSeen])
    ensures { InTurn AgesAgent agents.old agents.new (M.told machine.old) (M.told machine.new) }
{
    for agent in agents.iter_mut() {
        agent.age = age_of(alloc, machine, &agent.source);
    }
}

/// How many seconds ago the checkpoint of the agent of this source was written.
fn age_of<M: Machine>(alloc: Global, machine: &mut M, source: &Word) -> Option<u64>
    ensures { AsksAgeOf (spell (CheckFile source.now)) result (M.told machine.old)
        (M.told machine.new) }
{
    match format!(in alloc; "agents/{source}.check") {
        Ok(path) => machine.age_of(path.as_str()),
        Err(_) => None,
    }
}
