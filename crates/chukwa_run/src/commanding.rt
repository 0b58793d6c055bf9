//! The command that the words ask for.

ghost use Rattle.chk_cmd_line.specs.Commands.{asked_of};
ghost use Rattle.chk_cmd_line.specs.Good.{IsGood};
ghost use Rattle.chukwa_run.specs.Working.{Works};

use crate::agenting::run_agent_of;
use crate::archiving::run_job;
use crate::collecting::run_collector;
use crate::datagrams::run_datagrams;
use crate::demuxing::run_split;
use crate::draining::run_drain_of;
use crate::joining::run_joining;
use crate::loading::run_load_of;
use crate::rounding::run_whole_round;
use crate::salvaging::run_salvage;
use crate::subscribing::run_subscribe;
use chk_agent::Hashing;
use chk_cmd_line::{Command, Ending};
use chk_site::Site;
use std::alloc::Global;

/// Runs the command, and says nothing of how it ended. An agent finds its streams by this hashing.
pub fn run_command<S: Site>(
    alloc: Global,
    site: &mut S,
    command: &Command<'_>,
    hashing: Hashing,
) -> Result<(), Ending>
    requires good { IsGood (asked_of command.now) }
    ensures works { Works (asked_of command.now) result (S.told site.old) (S.told site.new)
        (S.fault_count site.old) (S.fault_count site.new) }
{
    match command {
        Command::Round(given) => run_whole_round(alloc, site, given),
        Command::Agent(given) => run_agent_of(alloc, site, given, hashing),
        Command::Collector(given) => run_collector(alloc, site, given),
        Command::Drain(given) => run_drain_of(alloc, site, given),
        Command::Archive => run_job(alloc, site),
        Command::Demux(kinds) => run_split(alloc, site, kinds.as_slice()),
        Command::Salvage(file) => run_salvage(alloc, site, file),
        Command::Load(lines) => run_load_of(alloc, site, *lines),
        Command::Udp(given) => run_datagrams(alloc, site, given),
        Command::Subscribe(given) => run_subscribe(alloc, site, given),
        Command::Join(given) => run_joining(alloc, site, given),
    }
}
