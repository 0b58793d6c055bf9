//! The files of a folder, one after the other.

ghost use Rattle.std.specs.Prelude.{◌≡◌, IfOk};
ghost use Rattle.chk_site.specs.History.{Every};
ghost use Rattle.chk_site.specs.Honest.{in_folder};
ghost use Rattle.chk_site.specs.Site.{Adds, OutsideCause};
ghost use Rattle.chk_world.specs.Sight.{job};
ghost use Rattle.chk_ctl_verify.specs.Calls.{Looks, Quiet};
ghost use Rattle.chk_ctl_verify.specs.Names.{folder_of, FileSeen, FoundBy};
ghost use Rattle.chk_ctl_verify.specs.Stores.{either};
ghost use Rattle.chk_ctl_verify.specs.Walks.{EachChecked, FileChecked, PlaceChecked};

use crate::calls::names_in;
use crate::sinks::{Place, look_in};
use crate::telling::tell_found;
use chk_bytes::{NoMemory, Word};
use chk_site::{OutsideFault, Site, Who};
use std::alloc::Global;

/// Looks at each file of the folder, tells its damage, and says whether there was one.
pub(crate) fn check_place<S: Site>(
    alloc: Global,
    site: &mut S,
    who: &Who,
    place: Place,
) -> Result<bool, OutsideFault>
    requires job { who.now ≡ job }
    ensures told { PlaceChecked place result (S.told site.old) (S.told site.new) }
    ensures own { Adds (S.told site.old) (S.told site.new) (Every Looks) }
    ensures cause { OutsideCause (S.fault_count site.old) (S.fault_count site.new) result }
{
    match names_in(alloc, site, who, place.folder()) {
        Ok(names) => check_names(alloc, site, who, place, names.as_slice()),
        Err(fault) => Err(fault),
    }
}

fn check_names<S: Site>(
    alloc: Global,
    site: &mut S,
    who: &Who,
    place: Place,
    names: &[Word],
) -> Result<bool, OutsideFault>
    requires job { who.now ≡ job }
    ensures told { EachChecked (FileChecked place) names.now result (S.told site.old)
        (S.told site.new) }
    ensures own { Adds (S.told site.old) (S.told site.new) (Every Looks) }
    ensures cause { OutsideCause (S.fault_count site.old) (S.fault_count site.new) result }
{
    let mut damaged = false;
    for name in names {
        match check_file(alloc, site, who, place, name.as_str()) {
            Ok(wrong) => damaged = either(damaged, wrong),
            Err(fault) => return Err(fault),
        }
    }
    Ok(damaged)
}

pub(crate) fn either(a: bool, b: bool) -> bool
    ensures { result ≡ either a b }
{
    a || b
}

fn check_file<S: Site>(
    alloc: Global,
    site: &mut S,
    who: &Who,
    place: Place,
    name: &str,
) -> Result<bool, OutsideFault>
    requires job { who.now ≡ job }
    ensures told { FileChecked place name.now result (S.told site.old) (S.told site.new) }
    ensures own { Adds (S.told site.old) (S.told site.new) (Every Looks) }
    ensures cause { OutsideCause (S.fault_count site.old) (S.fault_count site.new) result }
{
    match path(alloc, place.folder(), name) {
        Ok(path) => check_at(alloc, site, who, place, name, &path),
        Err(NoMemory) => Err(OutsideFault::NoMemory),
    }
}

/// The same by its name with the folder's.
fn check_at<S: Site>(
    alloc: Global,
    site: &mut S,
    who: &Who,
    place: Place,
    name: &str,
    path: &Word,
) -> Result<bool, OutsideFault>
    requires job { who.now ≡ job }
    requires path { path.now ≡ in_folder (folder_of place) name.now }
    ensures told { FileChecked place name.now result (S.told site.old) (S.told site.new) }
    ensures own { Adds (S.told site.old) (S.told site.new) (Every Looks) }
    ensures cause { OutsideCause (S.fault_count site.old) (S.fault_count site.new) result }
{
    match find_in(alloc, site, who, place, name.as_bytes()) {
        Ok(found) => tell_found(alloc, site, who, path.as_str(), found),
        Err(fault) => Err(fault),
    }
}

/// The damage of a file by one look, or by a second one where the first one found some: a file that
/// is replaced while it is read may look damaged then.
fn find_in<S: Site>(
    alloc: Global,
    site: &mut S,
    who: &Who,
    place: Place,
    name: &[u8],
) -> Result<Option<u64>, OutsideFault>
    requires job { who.now ≡ job }
    ensures told { IfOk result (λ found. FoundBy (FileSeen place name.now) found
        (S.told site.old) (S.told site.new)) }
    ensures own { Adds (S.told site.old) (S.told site.new) (Every Quiet) }
    ensures cause { OutsideCause (S.fault_count site.old) (S.fault_count site.new) result }
{
    match look_in(alloc, site, who, place, name) {
        Ok(Some(_)) => look_again(alloc, site, who, place, name),
        Ok(None) => Ok(None),
        Err(fault) => Err(fault),
    }
}

fn look_again<S: Site>(
    alloc: Global,
    site: &mut S,
    who: &Who,
    place: Place,
    name: &[u8],
) -> Result<Option<u64>, OutsideFault>
    requires job { who.now ≡ job }
    ensures told { IfOk result (λ found. FileSeen place name.now found (S.told site.old)
        (S.told site.new)) }
    ensures own { Adds (S.told site.old) (S.told site.new) (Every Quiet) }
    ensures cause { OutsideCause (S.fault_count site.old) (S.fault_count site.new) result }
{
    look_in(alloc, site, who, place, name)
}

/// The file of this name in the folder. One that no call can name counts as want of memory.
fn path(alloc: Global, folder: &str, name: &str) -> Result<Word, NoMemory>
    ensures { IfOk result (λ path. path ≡ in_folder folder.now name.now) }
{
    let text = format!(in alloc; "{folder}/{name}")?;
    Word::new(alloc, text.as_bytes()).map_err(|_| NoMemory)
}
