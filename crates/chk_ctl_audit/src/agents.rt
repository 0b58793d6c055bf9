//! The streams that agents of a folder have, and where their logs begin.

ghost use Rattle.std.specs.Prelude.{◌≡◌, ◌<◌, ◌≤◌, ◌-◌, drop, length, map, take, IfErr};
ghost use Rattle.std.specs.Prelude.{true, IfOk, OnOk, Some};
ghost use Rattle.chk_site.specs.Site.{OutsideCause};
ghost use Rattle.chk_world.specs.Checkpoints.{is_line_of};
ghost use Rattle.chk_world.specs.Sight.{job};
ghost use Rattle.chk_world.proofs.Each.{Each};
ghost use Rattle.chk_checkpoint.specs.Lines.{lines_of, shown};
ghost use Rattle.chk_record_index.specs.Faults.{IsOfRead, JobCause};
ghost use Rattle.chk_record_index.specs.declared.fault.JobFault.TheVariants.{NoMemory as no_memory};
ghost use Rattle.chk_book.specs.Views.{end_view};
ghost use Rattle.chk_ctl_audit.specs.Finding.{agent, lent_line, line_for, source_of};
ghost use Rattle.chk_ctl_audit.specs.Finding.{AreOfOne, FindsAgent, FindsEach, FindsFrom};
ghost use Rattle.chk_ctl_audit.specs.Finding.{FindsLine, FindsLines, FindsNext, FindsOne, HasMore, IsFrom};

use chk_book::End;
use chk_bytes::{NoMemory, Word};
use chk_checkpoint::{CheckLine, Checkpoint, load_checkpoint};
use chk_ctl_audit_log::find_begin;
use chk_ctl_passed::fault_in;
use chk_ctl_sum::Rest;
use chk_record_index::JobFault;
use chk_site::{OutsideFault, Role, Site, Who};
use std::alloc::Global;

/// Puts the streams of these ends behind the others that the checkpoint of their source in the
/// folder `agents` has, in their order, each with the offset at which its log begins. The ends are gone through source by
/// source, so that ends in order read each checkpoint once.
pub(crate) fn find_rests<'a, S: Site>(
    alloc: Global,
    site: &mut S,
    who: &Who,
    ends: &'a [End],
    rests: &mut Vec<Rest<'a>>,
) -> Result<(), JobFault>
    requires job { who.now ≡ job }
    ensures told { FindsEach result rests.new.items ends.now rests.old.items (S.told site.old)
        (S.told site.new) }
    ensures only { IfErr result IsOfRead }
    ensures cause { JobCause (S.fault_count site.old) (S.fault_count site.new) result }
{
    let mut at = 0;
    while at < ends.len() {
        match find_next(alloc, site, who, ends, at, rests) {
            Ok(past) => at = past,
            Err(fault) => return Err(fault),
        }
    }
    Ok(())
}

/// The same of the streams of one source, which stand from this place on. Gives the place behind
/// them.
fn find_next<'a, S: Site>(
    alloc: Global,
    site: &mut S,
    who: &Who,
    ends: &'a [End],
    at: usize,
    rests: &mut Vec<Rest<'a>>,
) -> Result<usize, JobFault>
    requires job { who.now ≡ job }
    requires at { at < length ends.now }
    ensures told { FindsNext at result ends.now rests.old.items rests.new.items
        (S.told site.old) (S.told site.new) }
    ensures only { IfErr result IsOfRead }
    ensures cause { JobCause (S.fault_count site.old) (S.fault_count site.new) result }
{
    let past = past_source(ends, at);
    match find_agent(alloc, site, who, &ends[at..past], rests) {
        Ok(()) => Ok(past),
        Err(fault) => Err(fault),
    }
}

/// The place behind the ends from this one on that have its source.
fn past_source(ends: &[End], at: usize) -> usize
    requires { at < length ends.now }
    ensures further { at < result }
    ensures within { result ≤ length ends.now }
    ensures same { AreOfOne (take (result - at) (drop at ends.now)) }
{
    at + 1 + of_source(&ends[at + 1..], ends[at].source.as_str())
}

/// How many of the first ends are of streams of this source.
fn of_source(ends: &[End], source: &str) -> usize
    ensures within { result ≤ length ends.now }
    ensures same { Each (IsFrom source.now) (take result ends.now) }
{
    let count = ends.len();
    for index in 0..count {
        if !is_from(&ends[index], source) {
            return index;
        }
    }
    count
}

/// The end is of a stream of this source.
fn is_from(end: &End, source: &str) -> bool
    ensures { result ≡ true → IsFrom source.now end.now }
{
    end.source.as_str() == source
}

/// Puts those of these streams, which are of one source, behind the others that its checkpoint has.
fn find_agent<'a, S: Site>(
    alloc: Global,
    site: &mut S,
    who: &Who,
    ends: &'a [End],
    rests: &mut Vec<Rest<'a>>,
) -> Result<(), JobFault>
    requires job { who.now ≡ job }
    requires some { 0 < length ends.now }
    ensures told { FindsFrom (source_of ends.now) result ends.now rests.old.items rests.new.items
        (S.told site.old) (S.told site.new) }
    ensures only { IfErr result IsOfRead }
    ensures cause { JobCause (S.fault_count site.old) (S.fault_count site.new) result }
{
    match agent_of(alloc, &ends[0].source) {
        Ok(agent) => find_by(alloc, site, who, &agent, ends, rests),
        Err(NoMemory) => Err(JobFault::NoMemory),
    }
}

/// The agent of a source.
fn agent_of(alloc: Global, source: &Word) -> Result<Who, NoMemory>
    ensures { IfOk result (λ who. who ≡ agent source.now) }
{
    Ok(Who {
        role: Role::Job,
        name: source.copy()?,
    })
}

/// The same of the streams of this agent.
fn find_by<'a, S: Site>(
    alloc: Global,
    site: &mut S,
    who: &Who,
    agent: &Who,
    ends: &'a [End],
    rests: &mut Vec<Rest<'a>>,
) -> Result<(), JobFault>
    requires job { who.now ≡ job }
    ensures told { FindsAgent agent.now result ends.now rests.old.items rests.new.items
        (S.told site.old) (S.told site.new) }
    ensures only { IfErr result IsOfRead }
    ensures cause { JobCause (S.fault_count site.old) (S.fault_count site.new) result }
{
    match load_checkpoint(alloc, site, agent) {
        Ok(check) => find_lines(alloc, site, who, &check, ends, rests),
        Err(fault) => Err(fault_in(alloc, agent, fault)),
    }
}

/// The same of the streams that this checkpoint has.
fn find_lines<'a, S: Site>(
    alloc: Global,
    site: &mut S,
    who: &Who,
    check: &Checkpoint,
    ends: &'a [End],
    rests: &mut Vec<Rest<'a>>,
) -> Result<(), JobFault>
    requires job { who.now ≡ job }
    ensures told { FindsLines (lines_of check.now) result rests.new.items ends.now rests.old.items
        (S.told site.old) (S.told site.new) }
    ensures only { IfErr result IsOfRead }
    ensures cause { JobCause (S.fault_count site.old) (S.fault_count site.new) result }
{
    for end in ends {
        match find_line(alloc, site, who, check, end, rests) {
            Ok(()) => {}
            Err(fault) => return Err(fault),
        }
    }
    Ok(())
}

/// The same of one stream.
fn find_line<'a, S: Site>(
    alloc: Global,
    site: &mut S,
    who: &Who,
    check: &Checkpoint,
    end: &'a End,
    rests: &mut Vec<Rest<'a>>,
) -> Result<(), JobFault>
    requires job { who.now ≡ job }
    ensures told { FindsLine (lines_of check.now) end.now rests.old.items result rests.new.items
        (S.told site.old) (S.told site.new) }
    ensures only { IfErr result IsOfRead }
    ensures cause { JobCause (S.fault_count site.old) (S.fault_count site.new) result }
{
    match begin_of(alloc, site, who, check.lines.as_slice(), end) {
        Ok(Some(begin)) => add_rest(rests, end, begin),
        Ok(None) => Ok(()),
        Err(fault) => Err(JobFault::from(fault)),
    }
}

/// Puts one more stream behind the others.
fn add_rest<'a>(rests: &mut Vec<Rest<'a>>, end: &'a End, begin: u64) -> Result<(), JobFault>
    ensures more { OnOk result (HasMore rests.old.items end.now begin rests.new.items) }
    ensures only { IfErr result (λ fault. fault ≡ no_memory) }
{
    match rests.push(Rest { end, begin }) {
        Ok(()) => Ok(()),
        Err(_) => Err(JobFault::NoMemory),
    }
}

/// The offset at which the stream's log begins that is there; none where no line is the stream's.
fn begin_of<S: Site>(
    alloc: Global,
    site: &mut S,
    who: &Who,
    lines: &[CheckLine],
    end: &End,
) -> Result<Option<u64>, OutsideFault>
    requires job { who.now ≡ job }
    ensures told { FindsOne (line_for (map shown lines.now) end.now) result (S.told site.old)
        (S.told site.new) }
    ensures cause { OutsideCause (S.fault_count site.old) (S.fault_count site.new) result }
{
    match line_of(lines, end) {
        Some(line) => begin_by(alloc, site, who, line),
        None => Ok(None),
    }
}

/// The same by the stream's line.
fn begin_by<S: Site>(
    alloc: Global,
    site: &mut S,
    who: &Who,
    line: &CheckLine,
) -> Result<Option<u64>, OutsideFault>
    requires job { who.now ≡ job }
    ensures told { FindsOne (Some (shown line.now)) result (S.told site.old) (S.told site.new) }
    ensures cause { OutsideCause (S.fault_count site.old) (S.fault_count site.new) result }
{
    let place = &line.place;
    match find_begin(
        alloc,
        site,
        who,
        line.path.as_str(),
        place.after.as_ref(),
        place.first,
    ) {
        Ok(begin) => Ok(Some(begin)),
        Err(fault) => Err(fault),
    }
}

/// The first line of the end's stream.
fn line_of<'a>(lines: &'a [CheckLine], end: &End) -> Option<&'a CheckLine>
    ensures { line_for (map shown lines.now) end.now ≡ lent_line result }
{
    for line in lines {
        if is_line_of(line, end) {
            return Some(line);
        }
    }
    None
}

/// The line is of the end's stream.
fn is_line_of(line: &CheckLine, end: &End) -> bool
    ensures { result ≡ is_line_of (end_view end.now).stream (shown line.now) }
{
    end.kind.as_str() == line.kind.as_str() && end.name.as_str() == line.path.as_str()
}
