//! The run of an agent as a command.

ghost use Rattle.std.specs.Prelude.{◌≡◌, ◌≢◌, ℕ, List, map, IsTrue, IfOk, option_map, is_some, true};
ghost use Rattle.std.specs.Borrow.{Bor};
ghost use Rattle.std.specs.List.{list_all};
ghost use Rattle.chk_bytes.specs.Words.{is_word};
ghost use Rattle.chk_site.specs.History.{History};
ghost use Rattle.chk_site.specs.Site.{Adds};
ghost use Rattle.chk_site.specs.Runs.{Leads};
ghost use Rattle.chk_world.specs.Names.{is_source, CheckFile, spell};
ghost use Rattle.chk_agent_run.specs.declared.faults.RunFault.TheVariants.{Initial as InitialLine};
ghost use Rattle.chk_cmd_line.specs.Names.{are_words};
ghost use Rattle.chk_cmd_line.specs.Commands.{agent_of};
ghost use Rattle.chk_cmd_line.specs.Good.{IsGoodAgent, IsWordIfAny};
ghost use Rattle.chk_cmd_line.specs.Commands.{Agent as AgentCommand};
ghost use Rattle.chukwa_run.specs.Processes.{the_agent, RunSide};
ghost use Rattle.chukwa_run.specs.Whole.{ring_of, rules_of, work_of};
ghost use Rattle.chukwa_run.specs.Runs.{Begins, EndsWith, CausedBy};
ghost use Rattle.chukwa_run.specs.Causes.{EndingCause, IsRunEnding, IsDamagedAt};
ghost use Rattle.chukwa_run.specs.Statuses.{HasItsStatus};

use chk_agent::{Hashing, Rules};
use chk_agent_run::{QUEUE, ROWS, RunFault, Work, run_agent};
use chk_bytes::{NoMemory, Word};
use chk_cmd_line::{AgentWords, Ending};
use chk_cmd_load::writer;
use chk_failover::Ring;
use chk_site::{Role, Site, Who};
use std::alloc::Global;

/// Reads the initial file, starts the agent, adds the streams of the file, and makes the turns. A
/// message at the control door whose reading or answering fails ends alone; any other call that
/// fails ends the run, but for sendings to collectors and their replies.
pub fn run_agent_of<S: Site>(
    alloc: Global,
    site: &mut S,
    given: &AgentWords<'_>,
    hashing: Hashing,
) -> Result<(), Ending>
    requires good { IsGoodAgent (agent_of given.now) }
    ensures told { (stamped : List (List ℕ)) (earlier : History) → Adds (S.told site.old) (S.told site.new)
        (Leads (RunSide stamped (AgentCommand (agent_of given.now))) (Begins stamped earlier)
        (EndsWith stamped (AgentCommand (agent_of given.now)) result earlier)) }
    ensures causes { Adds (S.told site.old) (S.told site.new) (CausedBy (AgentCommand (agent_of given.now)) result) }
    ensures cause { EndingCause (S.fault_count site.old) (S.fault_count site.new) result }
    ensures status { HasItsStatus (AgentCommand (agent_of given.now)) result }
{
    let Ok(who) = agent(alloc, given.source) else {
        return Err(Ending::NoMemory);
    };
    let Ok(writer) = writer(alloc) else {
        return Err(Ending::NoMemory);
    };
    let Ok(ring) = ring(alloc, given.collectors.as_slice()) else {
        return Err(Ending::NoMemory);
    };
    let Ok(rules) = rules(alloc, given) else {
        return Err(Ending::NoMemory);
    };
    let Ok(work) = work(alloc, given) else {
        return Err(Ending::NoMemory);
    };
    match run_agent(alloc, site, &who, &writer, ring, rules, &work, hashing) {
        Ok(_ended) => Ok(()),
        Err(fault) => Err(ending_of(alloc, given.initial, given.source, fault)),
    }
}

pub(crate) fn agent(alloc: Global, source: &str) -> Result<Who, NoMemory>
    requires source { IsTrue (is_source source.now) }
    ensures { IfOk result (λ who. who ≡ the_agent source.now) }
{
    Ok(Who {
        role: Role::Agent,
        name: Word::from_text(alloc, source)?,
    })
}

pub(crate) fn ring(alloc: Global, addresses: &[&str]) -> Result<Ring, NoMemory>
    requires few { IsTrue (are_words 1 64 (map (λ a. a.now) addresses.now)) }
    ensures { IfOk result (λ ring. ring ≡ record { addresses = map (λ a. a.now) addresses.now; place = 0; failures = 0 }) }
{
    let words = words_of(alloc, addresses)?;
    Ok(Ring::new(words, 0))
}

/// The words of these texts.
pub(crate) fn words_of(alloc: Global, texts: &[&str]) -> Result<Vec<Word>, NoMemory>
    requires words { IsTrue (list_all is_word (map (λ t. t.now) texts.now)) }
    ensures { IfOk result (λ words. words.items ≡ map (λ t. t.now) texts.now) }
{
    let mut words = Vec::new(alloc);
    for text in texts {
        words.push(Word::from_text(alloc, text)?)?;
    }
    Ok(words)
}

fn rules(alloc: Global, given: &AgentWords<'_>) -> Result<Rules, NoMemory>
    requires cluster { IsTrue (is_word given.now.cluster.now) }
    ensures { IfOk result (λ rules. rules ≡ rules_of (agent_of given.now)) }
{
    Ok(Rules {
        rows: ROWS,
        queue: QUEUE,
        poll: given.poll,
        expire: given.expire,
        cluster: Word::from_text(alloc, given.cluster)?,
    })
}

fn work(alloc: Global, given: &AgentWords<'_>) -> Result<Work, NoMemory>
    requires good { IsGoodAgent (agent_of given.now) }
    ensures { IfOk result (λ work. work ≡ work_of (agent_of given.now)) }
{
    Ok(Work {
        initial: word_if_any(alloc, given.initial)?,
        control: word_if_any(alloc, given.control)?,
        turns: given.turns,
        pause: given.pause,
    })
}

pub(crate) fn word_if_any(alloc: Global, text: Option<&str>) -> Result<Option<Word>, NoMemory>
    requires word { IsWordIfAny (option_map {T = Bor (List ℕ)} {U = List ℕ} (λ t. t.now) text) }
    ensures { IfOk result (λ word. word ≡ option_map {T = Bor (List ℕ)} {U = List ℕ} (λ t. t.now) text.entry) }
{
    match text {
        Some(text) => Ok(Some(Word::from_text(alloc, text)?)),
        None => Ok(None),
    }
}

// The ending of this fault of an agent, whose initial file was a word where it was given.
pub(crate) fn ending_of(
    alloc: Global,
    initial: Option<&str>,
    source: &str,
    fault: RunFault,
) -> Ending
    requires source { IsTrue (is_source source.now) }
    requires word { IsWordIfAny (option_map {T = Bor (List ℕ)} {U = List ℕ} (λ t. t.now) initial) }
    requires initial { (at : ℕ) → fault ≡ InitialLine at → is_some initial ≡ true }
    ensures { IsRunEnding (option_map {T = Bor (List ℕ)} {U = List ℕ} (λ t. t.now) initial.entry)
        source.now fault result }
{
    match fault {
        RunFault::Outside { call } => Ending::Outside { call },
        RunFault::NoMemory => Ending::NoMemory,
        RunFault::Initial { at } => match initial {
            Some(file) => damaged(Word::from_text(alloc, file), at),
            None => unreachable!(),
        },
        RunFault::Checkpoint { at } => damaged(check_name(alloc, source), at),
    }
}

/// The file of this name is damaged, unless there was no memory for the name.
pub(crate) fn damaged(name: Result<Word, NoMemory>, at: u64) -> Ending
    ensures { IsDamagedAt name at result }
{
    match name {
        Ok(name) => Ending::Damaged { name, at },
        Err(_) => Ending::NoMemory,
    }
}

/// The name of the agent's checkpoint.
pub(crate) fn check_name(alloc: Global, source: &str) -> Result<Word, NoMemory>
    requires source { IsTrue (is_source source.now) }
    ensures { IfOk result (λ name. name ≡ spell (CheckFile source.now)) }
{
    let name = format!(in alloc; "agents/{source}.check")?;
    Word::from_text(alloc, name.as_str())
}
