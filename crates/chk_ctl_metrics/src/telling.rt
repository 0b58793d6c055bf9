//! The text of the metrics, as it is printed.

ghost use Rattle.std.specs.Prelude.{◌≡◌, IfOk};
ghost use Rattle.chk_site.specs.Site.{OutsideCause};
ghost use Rattle.chk_ctl_status.specs.Telling.{Tells};
ghost use Rattle.chk_ctl_metrics.specs.Agents.{metrics_text};

use crate::agents::{NamedAgents, put_logs};
use crate::beside::{NamedDoor, put_doors, put_locks};
use crate::families::{NamedStore, put_stores};
use chk_book::Book;
use chk_bytes::{Bytes, NoMemory};
use chk_ctl_status::say_bytes;
use chk_site::{OutsideFault, Site, Who};
use std::alloc::Global;

/// The state of stores, agents and control doors as OpenMetrics has it (version 1.0.0): sixteen
/// families of gauges, each with all its rows, and the mark of the end. Labels are the folder of
/// the store or of the agents, and the stream's source, type and name, the sink's stem, the lock's
/// name, or of a control door its name and address. What isn't known isn't told: how long a sink is
/// quiet, what is free, up to where a log goes, its lag, how old a checkpoint is, whether a lock is
/// held. The lag is counted from what is archived by the books. Of a folder that is no store it has
/// one row. Rows have the same labels only where folders of a kind, or control doors, are named
/// alike. It holds the whole text.
pub fn metrics_of(
    alloc: Global,
    stores: &[NamedStore],
    absent: &[&str],
    agents: &[NamedAgents],
    books: &[&Book],
    doors: &[NamedDoor],
) -> Result<Bytes, NoMemory>
    ensures { IfOk result (λ text. text
        ≡ metrics_text stores.now absent.now agents.now books.now doors.now) }
{
    let mut out = Bytes::new(alloc);
    put_stores(&mut out, stores, absent)?;
    put_logs(&mut out, agents, books)?;
    put_doors(&mut out, doors)?;
    put_locks(&mut out, stores, agents)?;
    out.push_all(b"# EOF\n")?;
    Ok(out)
}

/// Prints the same in one piece. It costs one call.
pub fn tell_metrics<S: Site>(
    alloc: Global,
    site: &mut S,
    who: &Who,
    stores: &[NamedStore],
    absent: &[&str],
    agents: &[NamedAgents],
    books: &[&Book],
    doors: &[NamedDoor],
) -> Result<(), OutsideFault>
    ensures told { Tells who.now
        (metrics_text stores.now absent.now agents.now books.now doors.now) result
        (S.told site.old) (S.told site.new) }
    ensures cause { OutsideCause (S.fault_count site.old) (S.fault_count site.new) result }
{
    match metrics_of(alloc, stores, absent, agents, books, doors) {
        Ok(text) => say_bytes(alloc, site, who, text.as_slice()),
        Err(NoMemory) => Err(OutsideFault::NoMemory),
    }
}
