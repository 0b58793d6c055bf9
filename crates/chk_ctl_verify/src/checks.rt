//! Checkpoints.

ghost use Rattle.std.specs.Prelude.{◌≡◌, IfOk};
ghost use Rattle.chk_site.specs.History.{Every};
ghost use Rattle.chk_site.specs.Site.{Adds, OutsideCause};
ghost use Rattle.chk_ctl_verify.specs.Calls.{Quiet};
ghost use Rattle.chk_ctl_verify.specs.Files.{check_found, CheckSeen};

use chk_bytes::{NoMemory, Word};
use chk_checkpoint::{CheckFault, Checkpoint, load_checkpoint};
use chk_site::{OutsideFault, Role, Site, Who};
use std::alloc::Global;

/// The place of the first line that may not stand in the checkpoint of an agent. The checkpoint is
/// held whole.
pub(crate) fn look_at_checkpoint<S: Site>(
    alloc: Global,
    site: &mut S,
    source: &[u8],
) -> Result<Option<u64>, OutsideFault>
    ensures told { IfOk result (λ found. CheckSeen source.now found (S.told site.old)
        (S.told site.new)) }
    ensures own { Adds (S.told site.old) (S.told site.new) (Every Quiet) }
    ensures cause { OutsideCause (S.fault_count site.old) (S.fault_count site.new) result }
{
    match agent_of(alloc, source) {
        Ok(who) => look_as(alloc, site, &who),
        Err(NoMemory) => Err(OutsideFault::NoMemory),
    }
}

/// The same of the agent's own.
fn look_as<S: Site>(alloc: Global, site: &mut S, who: &Who) -> Result<Option<u64>, OutsideFault>
    ensures told { IfOk result (λ found. CheckSeen who.now.name found (S.told site.old)
        (S.told site.new)) }
    ensures own { Adds (S.told site.old) (S.told site.new) (Every Quiet) }
    ensures cause { OutsideCause (S.fault_count site.old) (S.fault_count site.new) result }
{
    let given = load_checkpoint(alloc, site, who);
    check_found(given)
}

/// The agent, as which its checkpoint is read. It never starts, so it takes no lock.
fn agent_of(alloc: Global, source: &[u8]) -> Result<Who, NoMemory>
    ensures { IfOk result (λ who. who.name ≡ source.now) }
{
    match Word::new(alloc, source) {
        Ok(name) => Ok(Who {
            role: Role::Agent,
            name,
        }),
        Err(_) => Err(NoMemory),
    }
}

fn check_found(given: Result<Checkpoint, CheckFault>) -> Result<Option<u64>, OutsideFault>
    ensures { result ≡ check_found given }
{
    match given {
        Ok(_) => Ok(None),
        Err(CheckFault::Damaged { at }) => Ok(Some(at)),
        Err(CheckFault::Outside { call }) => Err(OutsideFault::Outside { call }),
        Err(CheckFault::NoMemory) => Err(OutsideFault::NoMemory),
    }
}
