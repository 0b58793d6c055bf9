//! A round, and what it prints.

ghost use Rattle.std.specs.Prelude.{◌≡◌, ◌≤◌, ℕ, List, IsTrue, None, Some};
ghost use Rattle.chk_site.specs.declared.acts.Who.{Who as Person};
ghost use Rattle.chk_site.specs.Site.{Adds};
ghost use Rattle.chk_world.specs.Names.{is_source};
ghost use Rattle.chk_round.specs.Processes.{IsRunOf};
ghost use Rattle.chk_cmd_round.specs.Telling.{end_by, is_by_c1, is_of_c1};
ghost use Rattle.chk_cmd_round.specs.Running.{EndsByCall, RunCause, RunsRound, RunsTo};

use crate::ends::RoundEnd;
use crate::telling::tell;
use chk_bytes::{Stem, Word};
use chk_round::{RoundWords, agent_of, job, round};
use chk_site::Site;
use std::alloc::Global;

/// Runs a round, and then prints a line for each live adaptor, as the agent, and the line of the
/// archive run, as the job, each by a call of its own. Where a call fails nothing more is printed,
/// and what was archived stays so. A sink of another collector that the archive run found under
/// writing is told after the lines.
pub fn run_round<S: Site>(alloc: Global, site: &mut S, given: &RoundWords) -> Result<(), RoundEnd>
    requires name { IsTrue (is_source given.now.source) }
    requires a_read { 1 ≤ given.now.reads }
    ensures ran { RunsRound given.now.source given.now.kind given.now.class given.now.cluster
        given.now.logs.items given.now.reads result (S.told site.old) (S.told site.new) }
    ensures told { (stamped : List (List ℕ)) (started acting : List Person)
        → IsRunOf given.now.source started acting → Adds (S.told site.old) (S.told site.new)
        (RunsTo stamped started acting given.now.source given.now.kind given.now.cluster
        given.now.logs.items result) }
    ensures last { Adds (S.told site.old) (S.told site.new) (EndsByCall result) }
    ensures cause { RunCause (S.fault_count site.old) (S.fault_count site.new) result }
{
    let reading = agent_of(&given.source)?;
    let archiving = job(alloc)?;
    let rounded = round(alloc, site, given)?;
    tell(alloc, site, &reading, &archiving, &rounded)?;
    let report = rounded.report;
    end_by(report.first_unclosed)
}

// The run ends well, unless the first sink under writing is another collector's.
fn end_by(first_unclosed: Option<Word>) -> Result<(), RoundEnd>
    ensures { result ≡ end_by first_unclosed }
{
    match first_unclosed {
        Some(name) if !is_of_c1(name.as_str()) => Err(RoundEnd::Unclosed { name }),
        _ => Ok(()),
    }
}

// The name is that of a sink of the collector `c1`.
fn is_of_c1(name: &str) -> bool
    ensures { result ≡ is_of_c1 name.now }
{
    match name.as_bytes().strip_suffix(b".chukwa".as_slice()) {
        Some(text) => is_by_c1(Stem::read(text)),
        None => false,
    }
}

fn is_by_c1(stem: Option<Stem>) -> bool
    ensures { result ≡ is_by_c1 stem }
{
    match stem {
        Some(stem) => stem.name() == "c1",
        None => false,
    }
}
