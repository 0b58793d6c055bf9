//! What is printed of each thing that was seen.

ghost use Rattle.std.specs.Prelude.{◌≡◌, ◌++◌, ℕ, Bool, List, flat_map};
ghost use Rattle.std.specs.Borrow.{Bor};
ghost use Rattle.chk_site.specs.Site.{OutsideCause};
ghost use Rattle.chk_world.specs.Sight.{job};
ghost use Rattle.chk_book.specs.declared.book.Book.{Book};
ghost use Rattle.chk_ctl_inspect.specs.Reporting.{absent_by, agents_by, door_by, store_by, TellsAll};

use chk_book::Book;
use chk_ctl_metrics::{NamedAgents, NamedDoor, NamedStore};
use chk_ctl_status::{
    tell_absent, tell_absent_line, tell_agents, tell_agents_line, tell_door, tell_door_line,
    tell_line, tell_locks, tell_locks_line, tell_store,
};
use chk_site::{OutsideFault, Site, Who};
use std::alloc::Global;

/// A thing of which texts are printed, in tables or in lines.
pub(crate) trait Reported {
    /// The texts, by the books of the stores that were seen.
    ghost texts: { Bool → List (Bor Book) → Self → List (List ℕ) };

    /// Prints them in turn.
    fn report<S: Site>(
        &self,
        alloc: Global,
        site: &mut S,
        who: &Who,
        in_tables: bool,
        books: &[&Book],
    ) -> Result<(), OutsideFault>
        requires job { who.now ≡ job }
        ensures told { TellsAll (texts in_tables books.now self.now) result (S.told site.old)
            (S.told site.new) }
        ensures cause { OutsideCause (S.fault_count site.old) (S.fault_count site.new) result };
}

/// Prints those of each of them, in turn.
pub(crate) fn report_each<S: Site, R: Reported>(
    alloc: Global,
    site: &mut S,
    who: &Who,
    in_tables: bool,
    books: &[&Book],
    items: &[R],
) -> Result<(), OutsideFault>
    requires job { who.now ≡ job }
    ensures told { TellsAll (flat_map (R.texts in_tables books.now) items.now) result (S.told site.old)
        (S.told site.new) }
    ensures cause { OutsideCause (S.fault_count site.old) (S.fault_count site.new) result }
{
    for item in items {
        match item.report(alloc, site, who, in_tables, books) {
            Ok(()) => {}
            Err(fault) => return Err(fault),
        }
    }
    Ok(())
}

/// The same of the things of two lists.
pub(crate) fn report_both<S: Site, A: Reported, B: Reported>(
    alloc: Global,
    site: &mut S,
    who: &Who,
    in_tables: bool,
    books: &[&Book],
    first: &[A],
    second: &[B],
) -> Result<(), OutsideFault>
    requires job { who.now ≡ job }
    ensures told { TellsAll (flat_map (A.texts in_tables books.now) first.now
        ++ flat_map (B.texts in_tables books.now) second.now) result (S.told site.old)
        (S.told site.new) }
    ensures cause { OutsideCause (S.fault_count site.old) (S.fault_count site.new) result }
{
    match report_each(alloc, site, who, in_tables, books, first) {
        Ok(()) => report_each(alloc, site, who, in_tables, books, second),
        Err(fault) => Err(fault),
    }
}

impl Reported for NamedAgents {
    ghost texts = { λ tables books s. agents_by tables books s };

    fn report<S: Site>(
        &self,
        alloc: Global,
        site: &mut S,
        who: &Who,
        in_tables: bool,
        books: &[&Book],
    ) -> Result<(), OutsideFault> {
        if in_tables {
            let folder = self.folder.as_str();
            match tell_agents(alloc, site, who, folder, self.agents.as_slice(), books) {
                Ok(()) => tell_locks(alloc, site, who, self.locks.as_slice()),
                Err(fault) => Err(fault),
            }
        } else {
            let folder = self.folder.as_str();
            match tell_agents_line(alloc, site, who, folder, self.agents.as_slice(), books) {
                Ok(()) => tell_locks_line(alloc, site, who, folder, self.locks.as_slice()),
                Err(fault) => Err(fault),
            }
        }
    }
}

impl Reported for &str {
    ghost texts = { λ tables books s. absent_by tables s.now };

    fn report<S: Site>(
        &self,
        alloc: Global,
        site: &mut S,
        who: &Who,
        in_tables: bool,
        books: &[&Book],
    ) -> Result<(), OutsideFault> {
        if in_tables {
            tell_absent(alloc, site, who, self)
        } else {
            tell_absent_line(alloc, site, who, self)
        }
    }
}

impl Reported for NamedStore {
    ghost texts = { λ tables books s. store_by tables s };

    fn report<S: Site>(
        &self,
        alloc: Global,
        site: &mut S,
        who: &Who,
        in_tables: bool,
        books: &[&Book],
    ) -> Result<(), OutsideFault> {
        if in_tables {
            match tell_store(alloc, site, who, self.folder.as_str(), &self.seen) {
                Ok(()) => tell_locks(alloc, site, who, self.locks.as_slice()),
                Err(fault) => Err(fault),
            }
        } else {
            tell_line(alloc, site, who, self.folder.as_str(), &self.seen)
        }
    }
}

impl Reported for NamedDoor {
    ghost texts = { λ tables books s. door_by tables s };

    fn report<S: Site>(
        &self,
        alloc: Global,
        site: &mut S,
        who: &Who,
        in_tables: bool,
        books: &[&Book],
    ) -> Result<(), OutsideFault> {
        if in_tables {
            let (name, address) = (self.name.as_str(), self.address.as_str());
            tell_door(alloc, site, who, name, address, &self.door)
        } else {
            let (name, address) = (self.name.as_str(), self.address.as_str());
            tell_door_line(alloc, site, who, name, address, &self.door)
        }
    }
}
