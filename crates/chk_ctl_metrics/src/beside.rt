//! The families of metrics of control doors and locks.

ghost use Rattle.std.specs.Prelude.{◌≡◌, ◌++◌, flat_map, string_bytes, OnOk};
ghost use Rattle.chk_ctl_metrics.specs.Agents.{agent_locks, door_row, doors_text, holder_row};
ghost use Rattle.chk_ctl_metrics.specs.Agents.{store_locks, up_help, up_name, up_of};
ghost use Rattle.chk_ctl_metrics.specs.Agents.{lock_help, lock_name, lock_row, locks_text};

use crate::agents::NamedAgents;
use crate::families::{NamedStore, put_head};
use crate::rows::put_pair_row;
use chk_bytes::{Bytes, NoMemory};
use chk_ctl_status::{Door, Holder, Lock};

/// What a control door answered, its name and its address.
#[derive(Debug, Drop)]
pub struct NamedDoor {
    pub name: String,
    pub address: String,
    pub door: Door,
}

/// The name of the metric of control doors.
fn up_name() -> &'static str
    ensures { result.now ≡ up_name }
{
    "chukwa_control_up"
}

/// What it is.
fn up_help() -> &'static str
    ensures { result.now ≡ up_help }
{
    "1 where the control door answers with a list, 0 where it doesn't."
}

/// The name of the metric of locks.
fn lock_name() -> &'static str
    ensures { result.now ≡ lock_name }
{
    "chukwa_lock_held"
}

/// What it is.
fn lock_help() -> &'static str
    ensures { result.now ≡ lock_help }
{
    "1 where a process holds the lock, 0 where none does."
}

/// Appends which control doors answer with a list.
pub(crate) fn put_doors(out: &mut Bytes, doors: &[NamedDoor]) -> Result<(), NoMemory>
    ensures { OnOk result (out.new ≡ out.old ++ doors_text doors.now) }
{
    put_head(out, up_name(), up_help())?;
    for door in doors {
        put_door(out, door)?;
    }
    Ok(())
}

#[tactic(auto, unfolding(crate::specs::Agents::door_row))]
fn put_door(out: &mut Bytes, door: &NamedDoor) -> Result<(), NoMemory>
    ensures { OnOk result (out.new ≡ out.old ++ door_row door.now) }
{
    let name = door.name.as_str();
    let address = door.address.as_str();
    put_pair_row(
        out,
        up_name(),
        "name",
        name,
        "address",
        address,
        up_of(&door.door),
    )
}

fn up_of(door: &Door) -> u64
    ensures { result ≡ up_of door.now }
{
    if door.has_trouble() { 0 } else { 1 }
}

/// Appends which locks of the stores and of the agents' folders are held.
pub(crate) fn put_locks(
    out: &mut Bytes,
    stores: &[NamedStore],
    agents: &[NamedAgents],
) -> Result<(), NoMemory>
    ensures { OnOk result (out.new ≡ out.old ++ locks_text stores.now agents.now) }
{
    put_head(out, lock_name(), lock_help())?;
    put_all_of_stores(out, stores)?;
    put_all_of_agents(out, agents)
}

fn put_all_of_stores(out: &mut Bytes, stores: &[NamedStore]) -> Result<(), NoMemory>
    ensures { OnOk result (out.new ≡ out.old ++ flat_map store_locks stores.now) }
{
    for store in stores {
        put_each(out, "store", store.folder.as_str(), store.locks.as_slice())?;
    }
    Ok(())
}

fn put_all_of_agents(out: &mut Bytes, agents: &[NamedAgents]) -> Result<(), NoMemory>
    ensures { OnOk result (out.new ≡ out.old ++ flat_map agent_locks agents.now) }
{
    for folder in agents {
        put_each(
            out,
            "agent",
            folder.folder.as_str(),
            folder.locks.as_slice(),
        )?;
    }
    Ok(())
}

fn put_each(out: &mut Bytes, label: &str, folder: &str, locks: &[Lock]) -> Result<(), NoMemory>
    ensures { OnOk result (out.new ≡ out.old
        ++ flat_map (lock_row label.now folder.now) locks.now) }
{
    for lock in locks {
        put_holder(out, label, folder, lock.name.as_str(), lock.holder)?;
    }
    Ok(())
}

/// Appends the row of a lock, none where the system doesn't say who holds it.
fn put_holder(
    out: &mut Bytes,
    label: &str,
    folder: &str,
    name: &str,
    holder: Holder,
) -> Result<(), NoMemory>
    ensures { OnOk result (out.new ≡ out.old
        ++ holder_row label.now folder.now name.now holder) }
{
    match holder {
        Holder::Process(_) => put_pair_row(out, lock_name(), label, folder, "lock", name, 1),
        Holder::Nobody => put_pair_row(out, lock_name(), label, folder, "lock", name, 0),
        Holder::Unknown => Ok(()),
    }
}
