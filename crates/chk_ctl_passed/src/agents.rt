//! The checkpoints of the agents of a folder.

ghost use Rattle.std.specs.Prelude.{◌≡◌, string_bytes, Some, IfErr, IfOk};
ghost use Rattle.chk_site.specs.History.{Every};
ghost use Rattle.chk_site.specs.Site.{Adds};
ghost use Rattle.chk_world.specs.Names.{spell, CheckFile};
ghost use Rattle.chk_world.specs.Sight.{job};
ghost use Rattle.chk_record_index.specs.Faults.{IsDamage, IsOfRead, JobCause};
ghost use Rattle.chk_ctl_passed.specs.Agents.{both, ByEach, ByFolder};
ghost use Rattle.chk_ctl_passed.specs.Agents.{IsFaultIn, LooksAtAgents, One, OneMore};
ghost use Rattle.chk_ctl_passed.specs.Passing.{check_name};
ghost use Rattle.chk_ctl_passed.specs.declared.judging.Verdict.TheVariants.{Unknown};

use crate::judging::Verdict;
use crate::names::agent_of;
use crate::passing::has_passed;
use chk_bytes::{NoMemory, Word};
use chk_checkpoint::CheckFault;
use chk_record_index::JobFault;
use chk_site::{Call, CallFault, Site, Who};
use std::alloc::Global;

/// What the checkpoints of the agents in the folder `agents` say of the oldest generation of the
/// log at `path` that is there: it is `Passed` only where some checkpoint has the log, and each
/// that has it is behind that generation; it is `Unknown` where none has the log. A checkpoint
/// that isn't in its grammar is `Damaged`, by its name and the place of its first bad line.
///
/// Files that aren't named as a checkpoint are left alone. Each checkpoint costs its reads, and
/// those of the oldest generation.
pub fn all_have_passed<S: Site>(
    alloc: Global,
    site: &mut S,
    who: &Who,
    path: &str,
) -> Result<Verdict, JobFault>
    requires job { who.now ≡ job }
    ensures told { ByFolder path.now result (S.told site.old) (S.told site.new) }
    ensures own { Adds (S.told site.old) (S.told site.new) (Every (LooksAtAgents path.now)) }
    ensures only { IfErr result IsOfRead }
    ensures cause { JobCause (S.fault_count site.old) (S.fault_count site.new) result }
{
    match site.list(alloc, who, "agents") {
        Ok(names) => weigh_each(alloc, site, who, names.as_slice(), path),
        Err(CallFault::Failed) => Err(JobFault::Outside { call: Call::List }),
        Err(CallFault::NoMemory) => Err(JobFault::NoMemory),
        Err(_) => unreachable!(),
    }
}

/// The same of the files of these names, in their order.
fn weigh_each<S: Site>(
    alloc: Global,
    site: &mut S,
    who: &Who,
    names: &[Word],
    path: &str,
) -> Result<Verdict, JobFault>
    requires job { who.now ≡ job }
    ensures told { ByEach path.now result names.now Unknown (S.told site.old)
        (S.told site.new) }
    ensures only { IfErr result IsOfRead }
    ensures cause { JobCause (S.fault_count site.old) (S.fault_count site.new) result }
{
    let mut verdict = Verdict::Unknown;
    for name in names {
        match weigh_one(alloc, site, who, name.as_str(), path, verdict) {
            Ok(next) => verdict = next,
            Err(fault) => return Err(fault),
        }
    }
    Ok(verdict)
}

/// The verdict with that of one more file.
fn weigh_one<S: Site>(
    alloc: Global,
    site: &mut S,
    who: &Who,
    name: &str,
    path: &str,
    verdict: Verdict,
) -> Result<Verdict, JobFault>
    requires job { who.now ≡ job }
    ensures told { OneMore path.now verdict name.now result (S.told site.old) (S.told site.new) }
    ensures only { IfErr result IsOfRead }
    ensures cause { JobCause (S.fault_count site.old) (S.fault_count site.new) result }
{
    match agent_of(alloc, name) {
        Ok(Some(agent)) => weigh_agent(alloc, site, who, &agent, path, verdict),
        Ok(None) => Ok(verdict),
        Err(NoMemory) => Err(JobFault::NoMemory),
    }
}

/// The verdict with that of the checkpoint of one more agent.
fn weigh_agent<S: Site>(
    alloc: Global,
    site: &mut S,
    who: &Who,
    agent: &Who,
    path: &str,
    verdict: Verdict,
) -> Result<Verdict, JobFault>
    requires job { who.now ≡ job }
    ensures told { One path.now verdict (Some agent.now) result (S.told site.old)
        (S.told site.new) }
    ensures only { IfErr result IsOfRead }
    ensures cause { JobCause (S.fault_count site.old) (S.fault_count site.new) result }
{
    match has_passed(alloc, site, who, agent, path) {
        Ok(more) => Ok(both(verdict, more)),
        Err(fault) => Err(fault_in(alloc, agent, fault)),
    }
}

/// The fault of the checkpoint of this agent, by the name of its file.
pub fn fault_in(alloc: Global, agent: &Who, fault: CheckFault) -> JobFault
    ensures is { IsFaultIn (check_name agent.now) fault result }
{
    match fault {
        CheckFault::Damaged { at } => damage(alloc, &agent.name, at),
        CheckFault::Outside { call } => JobFault::Outside { call },
        CheckFault::NoMemory => JobFault::NoMemory,
    }
}

fn damage(alloc: Global, source: &Word, at: u64) -> JobFault
    ensures { IsDamage (spell (CheckFile source.now)) at result }
{
    match file_name(alloc, source) {
        Ok(name) => JobFault::Damaged { name, at },
        Err(NoMemory) => JobFault::NoMemory,
    }
}

/// The name of the checkpoint of the agent of this source. A source too long for it to be a word
/// has no file.
fn file_name(alloc: Global, source: &Word) -> Result<Word, NoMemory>
    ensures { IfOk result (λ name. name ≡ spell (CheckFile source.now)) }
{
    let text = file_text(alloc, source)?;
    match Word::new(alloc, text.as_bytes()) {
        Ok(name) => Ok(name),
        Err(_) => Err(NoMemory),
    }
}

fn file_text(alloc: Global, source: &Word) -> Result<String, NoMemory>
    ensures { IfOk result (λ name. string_bytes name ≡ spell (CheckFile source.now)) }
{
    Ok(format!(in alloc; "agents/{source}.check")?)
}

/// The verdict of two checkpoints.
fn both(one: Verdict, other: Verdict) -> Verdict
    ensures { result ≡ both one other }
{
    match (one, other) {
        (Verdict::Behind, _) => Verdict::Behind,
        (_, Verdict::Behind) => Verdict::Behind,
        (Verdict::Passed, _) => Verdict::Passed,
        (Verdict::Unknown, other) => other,
    }
}
