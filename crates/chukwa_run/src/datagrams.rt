//! The run of a writer of datagrams as a command.

ghost use Rattle.std.specs.Prelude.{◌≡◌, ◌++◌, ℕ, List, IsTrue, IfOk, string_bytes};
ghost use Rattle.chk_site.specs.History.{History};
ghost use Rattle.chk_site.specs.Site.{Adds};
ghost use Rattle.chk_site.specs.Runs.{Leads};
ghost use Rattle.chk_cmd_line.specs.Commands.{Udp};
ghost use Rattle.chk_cmd_line.specs.Datagrams.{IsGoodUdp, is_writer_name, udp_of};
ghost use Rattle.chukwa_run.specs.Causes.{EndingCause};
ghost use Rattle.chukwa_run.specs.Datagrams.{IsSetFor, door_of, wahead_ending};
ghost use Rattle.chukwa_run.specs.Processes.{RunSide, the_writer};
ghost use Rattle.chukwa_run.specs.Runs.{Begins, CausedBy, EndsWith};
ghost use Rattle.chukwa_run.specs.Statuses.{HasItsStatus};

use chk_bytes::{NoMemory, Word};
use chk_cmd_line::{Ending, UdpWords};
use chk_cmd_load::writer;
use chk_cmd_udp::{Work, run_udp};
use chk_site::{Role, Site, Who};
use chk_wahead::WaheadFault;
use std::alloc::Global;

/// With what a writer of datagrams is run.
#[derive(Drop)]
pub(crate) struct DatagramSetting {
    pub who: Who,
    pub writer: Who,
    pub door: String,
}

/// Starts the writer, runs its turns at the address, closes its buffer, and prints how many datagrams
/// it took, and their bytes. A call that fails ends the run.
pub fn run_datagrams<S: Site>(
    alloc: Global,
    site: &mut S,
    given: &UdpWords<'_>,
) -> Result<(), Ending>
    requires good { IsGoodUdp (udp_of given.now) }
    ensures told { (stamped : List (List ℕ)) (earlier : History) → Adds (S.told site.old) (S.told site.new)
        (Leads (RunSide stamped (Udp (udp_of given.now))) (Begins stamped earlier)
        (EndsWith stamped (Udp (udp_of given.now)) result earlier)) }
    ensures causes { Adds (S.told site.old) (S.told site.new) (CausedBy (Udp (udp_of given.now)) result) }
    ensures cause { EndingCause (S.fault_count site.old) (S.fault_count site.new) result }
    ensures status { HasItsStatus (Udp (udp_of given.now)) result }
{
    let Ok(setting) = set_up(alloc, given) else {
        return Err(Ending::NoMemory);
    };
    let work = Work {
        turns: given.turns,
        rotate: given.rotate,
        messages: given.messages,
    };
    match run_udp(
        alloc,
        site,
        &setting.who,
        &setting.writer,
        setting.door.as_str(),
        work,
    ) {
        Ok(()) => Ok(()),
        Err(fault) => Err(ending_of(fault)),
    }
}

fn set_up(alloc: Global, given: &UdpWords<'_>) -> Result<DatagramSetting, NoMemory>
    requires good { IsGoodUdp (udp_of given.now) }
    ensures { IfOk result (IsSetFor (udp_of given.now)) }
{
    Ok(DatagramSetting {
        who: writer_named(alloc, given.name)?,
        writer: writer(alloc)?,
        door: door_at(alloc, given.address)?,
    })
}

fn writer_named(alloc: Global, name: &str) -> Result<Who, NoMemory>
    requires name { IsTrue (is_writer_name name.now) }
    ensures { IfOk result (λ who. who ≡ the_writer name.now) }
{
    Ok(Who {
        role: Role::Writer,
        name: Word::from_text(alloc, name)?,
    })
}

fn door_at(alloc: Global, address: &str) -> Result<String, NoMemory>
    ensures { IfOk result (λ door. string_bytes door ≡ door_of address.now) }
{
    Ok(format!(in alloc; "udp:{address}")?)
}

fn ending_of(fault: WaheadFault) -> Ending
    ensures { result ≡ wahead_ending fault }
{
    match fault {
        WaheadFault::Outside { call } => Ending::Outside { call },
        WaheadFault::Damaged { name, at } => Ending::Damaged { name, at },
        WaheadFault::Spent { number } => Ending::Spent { number },
        WaheadFault::NoMemory => Ending::NoMemory,
    }
}
