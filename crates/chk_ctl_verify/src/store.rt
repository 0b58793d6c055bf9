//! All files of a store.

ghost use Rattle.std.specs.Prelude.{◌≡◌};
ghost use Rattle.chk_site.specs.History.{Every};
ghost use Rattle.chk_site.specs.Site.{Adds, OutsideCause};
ghost use Rattle.chk_world.specs.Sight.{job};
ghost use Rattle.chk_ctl_verify.specs.Calls.{Looks};
ghost use Rattle.chk_ctl_verify.specs.Stores.{BooksChecked, RecordsChecked, RestChecked};
ghost use Rattle.chk_ctl_verify.specs.Stores.{SinksChecked, StoreChecked};

use crate::books::{Folder, check_book};
use crate::folders::{check_place, either};
use crate::sinks::Place;
use chk_site::{OutsideFault, Site, Who};
use std::alloc::Global;

/// What was found of a store.
#[derive(Clone, Copy)]
pub struct Store {
    /// How many records the archive has; 0 where damage of its book or segments was told.
    pub archived: u64,
    /// How many the split ones are, likewise.
    pub split: u64,
    /// Damage was told.
    pub damaged: bool,
}

/// Looks at each file of a store, prints `damaged <name> <at>` for each that isn't in its grammar,
/// and says whether there was one. Where a call is refused, the lines of the damage
/// before it stay printed.
///
/// These are looked at, in this order: each checkpoint; the books of `archive`, `demux` and
/// `joined`, where they are there, with the segments that they name, whose records have to go on to
/// the ends in the book, and their aside segments; in the order of their names between them the
/// sinks, with their marks and the numbers of starts; and the numbers and marks of the writers of
/// datagrams. A sink under writing is looked at up to the length in its mark. A folder that isn't
/// there has no file, and files of other names are passed over.
///
/// Damage of a book, a segment or a record is told as `verify` of `chk_ctl_verify_archive` finds it. That
/// of any other file, and of the further segments, is told where two looks in turn find some;
/// a sink that is taken away and a segment that the book doesn't name any more have none.
///
/// It costs the reads of all these files, once where none is damaged, and holds 32 bytes for each
/// record of a folder with a book, or of one sink, besides one checkpoint or book.
pub fn check_store<S: Site>(alloc: Global, site: &mut S, who: &Who) -> Result<Store, OutsideFault>
    requires job { who.now ≡ job }
    ensures told { StoreChecked result (S.told site.old) (S.told site.new) }
    ensures own { Adds (S.told site.old) (S.told site.new) (Every Looks) }
    ensures cause { OutsideCause (S.fault_count site.old) (S.fault_count site.new) result }
{
    match check_place(alloc, site, who, Place::Agents) {
        Ok(checks) => match check_books(alloc, site, who) {
            Ok(store) => Ok(Store {
                archived: store.archived,
                split: store.split,
                damaged: either(checks, store.damaged),
            }),
            Err(fault) => Err(fault),
        },
        Err(fault) => Err(fault),
    }
}

/// The books, and what comes behind them.
fn check_books<S: Site>(alloc: Global, site: &mut S, who: &Who) -> Result<Store, OutsideFault>
    requires job { who.now ≡ job }
    ensures told { BooksChecked result (S.told site.old) (S.told site.new) }
    ensures own { Adds (S.told site.old) (S.told site.new) (Every Looks) }
    ensures cause { OutsideCause (S.fault_count site.old) (S.fault_count site.new) result }
{
    match check_book(alloc, site, who, "archive") {
        Ok(archive) => match check_records(alloc, site, who) {
            Ok(behind) => Ok(Store {
                archived: archive.records,
                split: behind.records,
                damaged: either(archive.damaged, behind.damaged),
            }),
            Err(fault) => Err(fault),
        },
        Err(fault) => Err(fault),
    }
}

/// The split records, and what comes behind them.
fn check_records<S: Site>(alloc: Global, site: &mut S, who: &Who) -> Result<Folder, OutsideFault>
    requires job { who.now ≡ job }
    ensures told { RecordsChecked result (S.told site.old) (S.told site.new) }
    ensures own { Adds (S.told site.old) (S.told site.new) (Every Looks) }
    ensures cause { OutsideCause (S.fault_count site.old) (S.fault_count site.new) result }
{
    match check_book(alloc, site, who, "demux") {
        Ok(split) => match check_rest(alloc, site, who) {
            Ok(rest) => Ok(Folder {
                records: split.records,
                damaged: either(split.damaged, rest),
            }),
            Err(fault) => Err(fault),
        },
        Err(fault) => Err(fault),
    }
}

/// The joined archive, the sinks and the buffers.
fn check_rest<S: Site>(alloc: Global, site: &mut S, who: &Who) -> Result<bool, OutsideFault>
    requires job { who.now ≡ job }
    ensures told { RestChecked result (S.told site.old) (S.told site.new) }
    ensures own { Adds (S.told site.old) (S.told site.new) (Every Looks) }
    ensures cause { OutsideCause (S.fault_count site.old) (S.fault_count site.new) result }
{
    match check_book(alloc, site, who, "joined") {
        Ok(joined) => match check_sinks(alloc, site, who) {
            Ok(rest) => Ok(either(joined.damaged, rest)),
            Err(fault) => Err(fault),
        },
        Err(fault) => Err(fault),
    }
}

/// The sinks and the buffers.
fn check_sinks<S: Site>(alloc: Global, site: &mut S, who: &Who) -> Result<bool, OutsideFault>
    requires job { who.now ≡ job }
    ensures told { SinksChecked result (S.told site.old) (S.told site.new) }
    ensures own { Adds (S.told site.old) (S.told site.new) (Every Looks) }
    ensures cause { OutsideCause (S.fault_count site.old) (S.fault_count site.new) result }
{
    match check_place(alloc, site, who, Place::Sinks) {
        Ok(sinks) => match check_place(alloc, site, who, Place::Wahead) {
            Ok(buffers) => Ok(either(sinks, buffers)),
            Err(fault) => Err(fault),
        },
        Err(fault) => Err(fault),
    }
}
