//! The lines of a drain.

ghost use Rattle.std.specs.Prelude.{◌≡◌, ◌<◌, [], ◌∷◌, ◌++◌, length, map, slice_get, Some, IfOk, IsTrue};
ghost use Rattle.chk_site.specs.Site.{OutsideCause};
ghost use Rattle.chk_world.specs.ArchiveRuns.{is_one_line};
ghost use Rattle.chk_agent_adaptor.specs.Adaptors.{Adaptor};
ghost use Rattle.chk_agent.specs.Commands.{live_from};
ghost use Rattle.chk_cmd_output.specs.Printing.{PrintsInTurn};
ghost use Rattle.chk_cmd_drain.specs.Streams.{told_line, live_here};

use chk_agent::Agent;
use chk_bytes::{Bytes, NoMemory, Word};
use chk_cmd_line::stream_line;
use chk_cmd_output::print_line;
use chk_site::{OutsideFault, Site, Who};
use std::alloc::Global;

/// The numbers of the adaptors that aren't past.
pub(crate) fn live_numbers(alloc: Global, agent: &Agent) -> Result<Vec<u32>, NoMemory>
    ensures { IfOk result (λ numbers. numbers.items ≡ live_from 0 agent.now.adaptors) }
{
    let mut numbers = Vec::new(alloc);
    for number in 0..agent.adaptors() {
        push_live(&mut numbers, agent, number)?;
    }
    Ok(numbers)
}

// Adds the number of an adaptor that isn't past.
fn push_live(numbers: &mut Vec<u32>, agent: &Agent, number: u32) -> Result<(), NoMemory>
    requires within { number < length agent.now.adaptors }
    ensures { (a : Adaptor) → slice_get agent.now.adaptors number ≡ Some a
        → IfOk result (λ _. numbers.new.items ≡ numbers.old.items ++ live_here number a) }
{
    if agent.state(number).is_none() {
        return Ok(());
    }
    numbers.push(number)?;
    Ok(())
}

/// Prints the line of each of these adaptors. It costs a call a line.
pub(crate) fn tell_streams<S: Site>(
    alloc: Global,
    site: &mut S,
    who: &Who,
    agent: &Agent,
    numbers: &[u32],
) -> Result<(), OutsideFault>
    ensures told { PrintsInTurn who.now (map (told_line agent.now) numbers.now) result
        (S.told site.old) (S.told site.new) }
    ensures cause { OutsideCause (S.fault_count site.old) (S.fault_count site.new) result }
{
    for number in numbers {
        tell_stream(alloc, site, who, agent, *number)?;
    }
    Ok(())
}

fn tell_stream<S: Site>(
    alloc: Global,
    site: &mut S,
    who: &Who,
    agent: &Agent,
    number: u32,
) -> Result<(), OutsideFault>
    ensures told { PrintsInTurn who.now (told_line agent.now number ∷ []) result
        (S.told site.old) (S.told site.new) }
    ensures cause { OutsideCause (S.fault_count site.old) (S.fault_count site.new) result }
{
    let line = line_at(alloc, agent, number)?;
    print_line(alloc, site, who, line.as_slice())
}

// The line of an adaptor. One that no call can print, or of no adaptor, counts as want of memory.
fn line_at(alloc: Global, agent: &Agent, number: u32) -> Result<Bytes, NoMemory>
    ensures line { IfOk result (λ line. line ≡ told_line agent.now number) }
    ensures one { IfOk result (λ line. IsTrue (is_one_line line)) }
{
    if number >= agent.adaptors() {
        return Err(NoMemory);
    }
    let kind = word(alloc, agent.kind(number))?;
    let path = word(alloc, agent.path(number))?;
    let source = agent.who().name.as_str();
    stream_line(
        alloc,
        source,
        kind.as_str(),
        path.as_str(),
        agent.committed_end(number),
    )
}

pub(crate) fn word(alloc: Global, text: &str) -> Result<Word, NoMemory>
    ensures { IfOk result (λ word. word ≡ text.now) }
{
    Word::new(alloc, text.as_bytes()).map_err(|_| NoMemory)
}
