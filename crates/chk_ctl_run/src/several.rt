//! The streams of several stores of which chunks are set aside.

ghost use Rattle.std.specs.Prelude.{◌≡◌, ◌++◌, ◌∷◌, [], map, IfErr, IsTrue, OnOk};
ghost use Rattle.chk_site.specs.History.{Every};
ghost use Rattle.chk_site.specs.Site.{Adds};
ghost use Rattle.chk_world.specs.JobSteps.{IsOf, ReadsFile};
ghost use Rattle.chk_world.specs.Sight.{job};
ghost use Rattle.chk_book.specs.Folders.{is_folder};
ghost use Rattle.chk_ctl_streams.specs.Following.{LooksAgain};
ghost use Rattle.chk_ctl_line.specs.Names.{are_stores, is_path};
ghost use Rattle.chk_ctl_run.specs.declared.outcome.Outcome.TheVariants.{NoMemory};
ghost use Rattle.chk_ctl_run.specs.Outcomes.{OutcomeCause};
ghost use Rattle.chk_ctl_run.specs.Several.{archive_of, book_of, has_waiting, waits_as};
ghost use Rattle.chk_ctl_run.specs.Several.{FindsStore, FindsStores, ShowsStores, StoreCause};
ghost use Rattle.chk_ctl_run.specs.Several.{stores_in, LoadsStore, TellsStores};

use crate::finding::find_file;
use crate::naming::{Names, names_of};
use crate::outcome::{Outcome, outcome_of_job, told_as};
use chk_bytes::Word;
use chk_ctl_held::{Store, find_waiting, print_stores};
use chk_site::{OutsideFault, Site, Who};
use std::alloc::Global;

/// Prints what is missing and what waits in each of the stores, and which of them have what is
/// missing in another one. All of them are read before the first line.
pub(crate) fn show_stores<S: Site>(
    alloc: Global,
    site: &mut S,
    who: &Who,
    words: &[&str],
) -> Outcome
    requires job { who.now ≡ job }
    requires words { IsTrue (are_stores (map (λ w. w.now) words.now)) }
    ensures told { ShowsStores (map (λ w. w.now) words.now) result (S.told site.old)
        (S.told site.new) }
    ensures own { Adds (S.told site.old) (S.told site.new) (Every (IsOf LooksAgain)) }
    ensures cause { OutcomeCause (S.fault_count site.old) (S.fault_count site.new) result }
{
    match find_stores(alloc, site, who, words) {
        Ok(stores) => tell_stores(alloc, site, who, stores.as_slice()),
        Err(outcome) => outcome,
    }
}

/// Reads each of the stores, up to the first that can't be read.
fn find_stores<S: Site>(
    alloc: Global,
    site: &mut S,
    who: &Who,
    words: &[&str],
) -> Result<Vec<Store>, Outcome>
    requires job { who.now ≡ job }
    requires words { IsTrue (are_stores (map (λ w. w.now) words.now)) }
    ensures told { FindsStores [] (map (λ w. w.now) words.now) (stores_in result (λ s. s.items))
        (S.told site.old) (S.told site.new) }
    ensures own { Adds (S.told site.old) (S.told site.new) (Every (IsOf LooksAgain)) }
    ensures cause { StoreCause (S.fault_count site.old) (S.fault_count site.new) result }
{
    let mut stores = Vec::new(alloc);
    for word in words {
        let store = find_store(alloc, site, who, word)?;
        add_store(&mut stores, store)?;
    }
    Ok(stores)
}

/// Puts a store behind the others.
fn add_store(stores: &mut Vec<Store>, store: Store) -> Result<(), Outcome>
    ensures ok { OnOk result (stores.new.items ≡ stores.old.items ++ store ∷ []) }
    ensures err { IfErr result (λ outcome. outcome ≡ NoMemory) }
{
    match stores.push(store) {
        Ok(()) => Ok(()),
        Err(_) => Err(Outcome::NoMemory),
    }
}

/// Reads a store.
fn find_store<S: Site>(
    alloc: Global,
    site: &mut S,
    who: &Who,
    store: &str,
) -> Result<Store, Outcome>
    requires job { who.now ≡ job }
    requires path { IsTrue (is_path store.now) }
    ensures told { FindsStore store.now result (S.told site.old) (S.told site.new) }
    ensures own { Adds (S.told site.old) (S.told site.new) (Every (IsOf LooksAgain)) }
    ensures cause { StoreCause (S.fault_count site.old) (S.fault_count site.new) result }
{
    match names_of(alloc, store) {
        Ok(names) => find_named(alloc, site, who, names),
        Err(_) => Err(Outcome::NoMemory),
    }
}

/// Reads the store of these names, if its archive has a book.
fn find_named<S: Site>(
    alloc: Global,
    site: &mut S,
    who: &Who,
    names: Names,
) -> Result<Store, Outcome>
    requires job { who.now ≡ job }
    requires folder { names.folder ≡ archive_of names.store }
    requires can { IsTrue (is_folder names.folder) }
    requires book { names.book ≡ book_of names.store }
    ensures told { FindsStore names.store result (S.told site.old) (S.told site.new) }
    ensures own { Adds (S.told site.old) (S.told site.new) (Every (IsOf LooksAgain)) }
    ensures cause { StoreCause (S.fault_count site.old) (S.fault_count site.new) result }
{
    match find_file(alloc, site, who, names.book.as_str()) {
        Ok(true) => load_store(alloc, site, who, names.store, names.folder.as_str()),
        Ok(false) => Err(Outcome::NoBook { name: names.book }),
        Err(fault) => Err(told_as(Err(fault))),
    }
}

/// Reads the store whose archive has a book.
fn load_store<S: Site>(
    alloc: Global,
    site: &mut S,
    who: &Who,
    name: Word,
    folder: &str,
) -> Result<Store, Outcome>
    requires job { who.now ≡ job }
    requires folder { IsTrue (is_folder folder.now) }
    ensures told { LoadsStore name folder.now result (S.told site.old) (S.told site.new) }
    ensures own { Adds (S.told site.old) (S.told site.new) (Every (IsOf ReadsFile)) }
    ensures cause { StoreCause (S.fault_count site.old) (S.fault_count site.new) result }
{
    match find_waiting(alloc, site, who, folder) {
        Ok(waiting) => Ok(Store::new(name, waiting)),
        Err(fault) => Err(outcome_of_job(fault)),
    }
}

/// Prints the lines of the stores.
fn tell_stores<S: Site>(alloc: Global, site: &mut S, who: &Who, stores: &[Store]) -> Outcome
    requires job { who.now ≡ job }
    ensures told { TellsStores stores.now result (S.told site.old) (S.told site.new) }
    ensures own { Adds (S.told site.old) (S.told site.new) (Every (IsOf LooksAgain)) }
    ensures cause { OutcomeCause (S.fault_count site.old) (S.fault_count site.new) result }
{
    let given = print_stores(alloc, site, who, stores);
    waits_as(one_waits(stores), given)
}

/// In one of the stores chunks wait.
fn one_waits(stores: &[Store]) -> bool
    ensures { result ≡ has_waiting stores.now }
{
    stores.iter().any(|store| store.waiting.heads.len() > 0)
}

/// The outcome of the lines, where chunks wait or don't.
fn waits_as(waits: bool, given: Result<(), OutsideFault>) -> Outcome
    ensures { result ≡ waits_as waits given }
{
    match given {
        Ok(()) if waits => Outcome::Waits,
        Ok(()) => Outcome::Done,
        Err(fault) => told_as(Err(fault)),
    }
}
