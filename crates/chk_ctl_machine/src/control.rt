//! The inspection of an agent by its control port.

ghost use Rattle.std.specs.Prelude.{◌≡◌, Ok, IfOk};
ghost use Rattle.chk_site.specs.History.{Every};
ghost use Rattle.chk_site.specs.Site.{Adds};
ghost use Rattle.chk_ctl_status.specs.Doors.{ListAsked};
ghost use Rattle.chk_ctl_machine.specs.Controls.{Answers, SeesControl};
ghost use Rattle.chk_ctl_machine.specs.Inspecting.{Inspects};
ghost use Rattle.chk_ctl_machine.specs.Lending.{Lent};

use crate::machine::Machine;
use chk_bytes::{Bytes, NoMemory};
use chk_ctl_run::looker;
use chk_ctl_status::{Door, ask_list, door_of};
use chk_site::Site;
use std::alloc::Global;

/// What the control port at the address answers to `list`.
pub fn see_control<M: Machine>(
    alloc: Global,
    machine: &mut M,
    address: &str,
) -> Result<Door, NoMemory>
    ensures { IfOk result (λ door. SeesControl address.now door (M.told machine.old)
        (M.told machine.new)) }
{
    match ask_there(alloc, machine, address) {
        Ok(answer) => door_of(alloc, &answer),
        Err(NoMemory) => Err(NoMemory),
    }
}

fn ask_there<M: Machine>(
    alloc: Global,
    machine: &mut M,
    address: &str,
) -> Result<Option<Bytes>, NoMemory>
    ensures { IfOk result (λ answer. Lent None (Answers address.now answer) (M.told machine.old)
        (M.told machine.new)) }
{
    let mut folder = machine.lend(None);
    let answer = ask_by(alloc, &mut folder, address);
    machine.take_back(folder);
    answer
}

fn ask_by<S: Site>(alloc: Global, site: &mut S, address: &str) -> Result<Option<Bytes>, NoMemory>
    ensures told { IfOk result (λ answer. ListAsked address.now (Ok answer) (S.told site.old)
        (S.told site.new)) }
    ensures own { Adds (S.told site.old) (S.told site.new) (Every Inspects) }
{
    match looker(alloc) {
        Ok(who) => match ask_list(alloc, site, &who, address) {
            Ok(answer) => Ok(answer),
            Err(_) => Err(NoMemory),
        },
        Err(NoMemory) => Err(NoMemory),
    }
}
