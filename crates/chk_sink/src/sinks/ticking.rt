//! A tick once no sink is left under writing.

ghost use Rattle.std.specs.Prelude.{◌≡◌, ℕ, false, List, IfErr, OnOk};
ghost use Rattle.chk_site.specs.History.{Every};
ghost use Rattle.chk_site.specs.Site.{Adds};
ghost use Rattle.chk_site.specs.Runs.{Leads};
ghost use Rattle.chk_world.specs.Places.{As};
ghost use Rattle.chk_world.specs.Works.{Works};
ghost use Rattle.chk_sink.specs.Faults.{IsOutside, SinkCause, ended_by};
ghost use Rattle.chk_sink.specs.Works.{OfClose, IsLetGo};
ghost use Rattle.chk_sink.specs.Damage.{DamageCause};
ghost use Rattle.chk_sink.specs.States.{IsSameStart, process};
ghost use Rattle.chk_sink.specs.Held.{Matches};
ghost use Rattle.chk_sink.specs.Closes.{IsMarked, Idles, Ticked, IsNoListing};
ghost use Rattle.chk_sink.specs.Ticking.{is_due, noted_state};

use crate::SinkFault;
use crate::sinks::Sinks;
use chk_site::Site;
use std::alloc::Global;

impl Sinks {
    /// Commits the sink that is written to, and closes it where it is large or old enough. After a refusal it is
    /// abandoned.
    pub(super) fn tick_settled<S: Site>(
        &mut self,
        alloc: Global,
        site: &mut S,
        now: u64,
    ) -> Result<(), SinkFault>
        ensures told { (stamped : List (List ℕ)) → Adds (S.told site.old) (S.told site.new)
            (Leads (As stamped (process self.old)) (Matches stamped self.old)
            (Ticked stamped self.old self.new result)) }
        ensures same { IsSameStart self.old self.new }
        ensures ok { OnOk result (self.new ≡ noted_state now self.old) }
        ensures refused { IfErr result (λ _. IsLetGo self.old self.new) }
        ensures idle { IsMarked self.old.current → is_due now self.old ≡ false
            → Idles result (S.told site.old) (S.told site.new) }
        ensures only { IfErr result IsOutside }
        ensures lists { Adds (S.told site.old) (S.told site.new) (Every IsNoListing) }
        ensures damaged { Adds (S.told site.old) (S.told site.new) (DamageCause result) }
        ensures own { Works (process self.old) (OfClose self.old) (ended_by result)
            (S.told site.old) (S.told site.new) }
        ensures cause { SinkCause (S.fault_count site.old) (S.fault_count site.new) result }
    {
        if self.current.is_none() {
            return Ok(());
        }
        self.commit(alloc, site)?;
        if self.is_due(now) {
            return self.close(alloc, site);
        }
        self.see(now);
        Ok(())
    }
}
