//! The listing of the sinks, and their removal.

ghost use Rattle.std.specs.Prelude.{◌≡◌, ℕ, List, Option, Ok, IfOk, OnErr, OnOk};
ghost use Rattle.chk_site.specs.Files.{File};
ghost use Rattle.chk_site.specs.History.{Every};
ghost use Rattle.chk_site.specs.Site.{Adds, LastFailed, OutsideCause};
ghost use Rattle.chk_site.specs.Runs.{Leads};
ghost use Rattle.chk_world.specs.Names.{Name};
ghost use Rattle.chk_world.specs.Places.{As};
ghost use Rattle.chk_world.specs.Rules.{Legal};
ghost use Rattle.chk_world.specs.Sight.{job, AtJob};
ghost use Rattle.chk_world.specs.JobSteps.{IsOf};
ghost use Rattle.chk_archive.specs.Archived.{GivenOnce, ListedOnce};
ghost use Rattle.chk_archive.specs.Shown.{GivesNames};
ghost use Rattle.chk_archive.specs.Sinks.{OwnAre, MayGo, SinksListed, ListsSinks, RemovesShown, SinksRemoved};

use crate::calling::{list_folder, remove_all};
use crate::folder_names::closed;
use chk_bytes::Word;
use chk_site::{OutsideFault, Site, Who};
use std::alloc::Global;

/// The names of the files in the folder of sinks. It costs one call.
pub(crate) fn list_sinks<S: Site>(
    alloc: Global,
    site: &mut S,
    who: &Who,
) -> Result<Vec<Word>, OutsideFault>
    requires { who.now ≡ job }
    ensures listed { (stamped : List (List ℕ)) (own : Name → Option File)
        → IfOk result (λ names. Adds (S.told site.old) (S.told site.new)
        (Leads (As stamped job) (AtJob stamped (OwnAre own)) (SinksListed stamped own (Ok names.items)))) }
    ensures refused { (stamped : List (List ℕ)) (own : Name → Option File)
        → OnErr result (Adds (S.told site.old) (S.told site.new)
        (Leads (As stamped job) (AtJob stamped (OwnAre own)) (Legal stamped))) }
    ensures own { Adds (S.told site.old) (S.told site.new) (Every (IsOf ListsSinks)) }
    ensures once { Adds (S.told site.old) (S.told site.new) (ListedOnce result) }
    ensures given { OnOk result (Adds (S.told site.old) (S.told site.new) GivenOnce) }
    ensures names { IfOk result (λ names. Adds (S.told site.old) (S.told site.new) (GivesNames names.items)) }
    ensures last { Adds (S.told site.old) (S.told site.new) (LastFailed result) }
    ensures cause { OutsideCause (S.fault_count site.old) (S.fault_count site.new) result }
{
    list_folder(alloc, site, who, "sinks")
}

/// Removes each done sink that a listing showed, whether or not it is still there. `names` are those of the job's last listing
/// of the sinks. It costs a call for each done sink.
pub(crate) fn remove_sinks<S: Site>(
    alloc: Global,
    site: &mut S,
    who: &Who,
    names: &[Word],
) -> Result<(), OutsideFault>
    requires { who.now ≡ job }
    ensures told { (stamped : List (List ℕ)) (own : Name → Option File) → Adds (S.told site.old) (S.told site.new)
        (Leads (As stamped job) (AtJob stamped (MayGo own names.now)) (SinksRemoved stamped own names.now result)) }
    ensures own { Adds (S.told site.old) (S.told site.new) (Every (IsOf (RemovesShown names.now))) }
    ensures last { Adds (S.told site.old) (S.told site.new) (LastFailed result) }
    ensures cause { OutsideCause (S.fault_count site.old) (S.fault_count site.new) result }
{
    let closed = closed(alloc, names)?;
    remove_all(alloc, site, who, closed.as_slice())
}
