//! The run of a watcher as a command.

ghost use Rattle.std.specs.Prelude.{◌≡◌, ℕ, List, IfOk};
ghost use Rattle.chk_site.specs.History.{History};
ghost use Rattle.chk_site.specs.Site.{Adds};
ghost use Rattle.chk_site.specs.Runs.{Leads};
ghost use Rattle.chk_cmd_line.specs.Commands.{Subscribe};
ghost use Rattle.chk_cmd_line.specs.Subscribing.{IsGoodSubscribe, subscribe_of};
ghost use Rattle.chukwa_run.specs.Causes.{EndingCause};
ghost use Rattle.chukwa_run.specs.Processes.{RunSide, the_watcher};
ghost use Rattle.chukwa_run.specs.Runs.{Begins, CausedBy, EndsWith};
ghost use Rattle.chukwa_run.specs.Statuses.{HasItsStatus};
ghost use Rattle.chukwa_run.specs.Subscribing.{IsSetToWatch, watch_ending};

use chk_bytes::{NoMemory, Word};
use chk_cmd_line::{Ending, SubscribeWords};
use chk_cmd_subscribe::subscribe;
use chk_site::{OutsideFault, Role, Site, Who};
use std::alloc::Global;

/// With what a watcher is run.
#[derive(Drop)]
pub(crate) struct WatchSetting {
    pub who: Who,
    pub door: Word,
}

/// Takes messages of tees at the address in so many turns, and prints each chunk that it hasn't seen
/// before. A call that fails ends the run.
pub fn run_subscribe<S: Site>(
    alloc: Global,
    site: &mut S,
    given: &SubscribeWords<'_>,
) -> Result<(), Ending>
    requires good { IsGoodSubscribe (subscribe_of given.now) }
    ensures told { (stamped : List (List ℕ)) (earlier : History) → Adds (S.told site.old) (S.told site.new)
        (Leads (RunSide stamped (Subscribe (subscribe_of given.now))) (Begins stamped earlier)
        (EndsWith stamped (Subscribe (subscribe_of given.now)) result earlier)) }
    ensures causes { Adds (S.told site.old) (S.told site.new) (CausedBy (Subscribe (subscribe_of given.now)) result) }
    ensures cause { EndingCause (S.fault_count site.old) (S.fault_count site.new) result }
    ensures status { HasItsStatus (Subscribe (subscribe_of given.now)) result }
{
    let Ok(setting) = set_to_watch(alloc, given) else {
        return Err(Ending::NoMemory);
    };
    match subscribe(alloc, site, &setting.who, &setting.door, given.turns) {
        Ok(()) => Ok(()),
        Err(fault) => Err(ending_of(fault)),
    }
}

fn set_to_watch(alloc: Global, given: &SubscribeWords<'_>) -> Result<WatchSetting, NoMemory>
    requires good { IsGoodSubscribe (subscribe_of given.now) }
    ensures { IfOk result (IsSetToWatch (subscribe_of given.now)) }
{
    Ok(WatchSetting {
        who: watcher(alloc)?,
        door: Word::from_text(alloc, given.address)?,
    })
}

fn watcher(alloc: Global) -> Result<Who, NoMemory>
    ensures { IfOk result (λ who. who ≡ the_watcher) }
{
    Ok(Who {
        role: Role::Writer,
        name: Word::from_text(alloc, "tee")?,
    })
}

fn ending_of(fault: OutsideFault) -> Ending
    ensures { result ≡ watch_ending fault }
{
    match fault {
        OutsideFault::Outside { call } => Ending::Outside { call },
        OutsideFault::NoMemory => Ending::NoMemory,
    }
}
