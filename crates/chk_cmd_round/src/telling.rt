//! The lines of a round.

ghost use Rattle.std.specs.Prelude.{◌≡◌, ◌<◌, ℕ, Some, length, slice_get};
ghost use Rattle.chk_site.specs.Site.{OutsideCause};
ghost use Rattle.chk_agent.specs.States.{lines_of};
ghost use Rattle.chk_archive.specs.Reporting.{report_view};
ghost use Rattle.chk_cmd_output.specs.Printing.{PrintsInTurn};
ghost use Rattle.chk_cmd_round.specs.Telling.{Tells, shown_at, stream_lines};

use chk_agent::Agent;
use chk_cmd_archive::tell_run;
use chk_cmd_line::stream_line;
use chk_cmd_output::print_line;
use chk_round::Rounded;
use chk_site::{OutsideFault, Site, Who};
use std::alloc::Global;

/// Prints a line for each live adaptor, as the agent, and then the line of the archive run, as the
/// job. It costs a call a line.
pub(crate) fn tell<S: Site>(
    alloc: Global,
    site: &mut S,
    reading: &Who,
    archiving: &Who,
    rounded: &Rounded,
) -> Result<(), OutsideFault>
    ensures told { Tells reading.now archiving.now (lines_of rounded.now.agent) (report_view rounded.now.report)
        result (S.told site.old) (S.told site.new) }
    ensures cause { OutsideCause (S.fault_count site.old) (S.fault_count site.new) result }
{
    tell_streams(alloc, site, reading, &rounded.agent)?;
    tell_run(alloc, site, archiving, &rounded.report)
}

// Prints a line for each live adaptor.
fn tell_streams<S: Site>(
    alloc: Global,
    site: &mut S,
    who: &Who,
    agent: &Agent,
) -> Result<(), OutsideFault>
    ensures told { PrintsInTurn who.now (stream_lines who.now.name (lines_of agent.now)) result
        (S.told site.old) (S.told site.new) }
    ensures cause { OutsideCause (S.fault_count site.old) (S.fault_count site.new) result }
{
    let count = agent.adaptors();
    for number in 0..count {
        tell_stream(alloc, site, who, agent, number)?;
    }
    Ok(())
}

// Prints the line of an adaptor, unless it is past.
fn tell_stream<S: Site>(
    alloc: Global,
    site: &mut S,
    who: &Who,
    agent: &Agent,
    number: u32,
) -> Result<(), OutsideFault>
    requires within { number < length agent.now.adaptors }
    ensures told { PrintsInTurn who.now (shown_at who.now.name agent.now number) result
        (S.told site.old) (S.told site.new) }
    ensures cause { OutsideCause (S.fault_count site.old) (S.fault_count site.new) result }
{
    if agent.state(number).is_none() {
        return Ok(());
    }
    let _sound = agent.ready();
    let line = stream_line(
        alloc,
        who.name.as_str(),
        agent.kind(number),
        agent.path(number),
        agent.committed_end(number),
    )?;
    print_line(alloc, site, who, line.as_slice())
}
