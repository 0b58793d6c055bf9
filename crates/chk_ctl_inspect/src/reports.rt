//! What is printed of all that one inspection has seen.

ghost use Rattle.std.specs.Prelude.{◌≡◌, map, IfOk};
ghost use Rattle.chk_site.specs.History.{Every};
ghost use Rattle.chk_site.specs.Site.{Adds, OutsideCause};
ghost use Rattle.chk_ctl_run.specs.Outcomes.{OutcomeCause};
ghost use Rattle.chk_world.specs.Sight.{job};
ghost use Rattle.chk_ctl_inspect.specs.Reporting.{lines_of, tables_of, texts_of, Reports, ReportsOf};
ghost use Rattle.chk_ctl_inspect.specs.Reporting.{TellsAll, TellsSight};
ghost use Rattle.chk_ctl_machine.specs.Inspecting.{Inspects};

use crate::kept::Sight;
use crate::reported::report_both;
use chk_book::Book;
use chk_bytes::NoMemory;
use chk_ctl_line::Form;
use chk_ctl_machine::{Machine, end_with};
use chk_ctl_metrics::{NamedStore, tell_metrics};
use chk_ctl_run::{Outcome, looker, told_as};
use chk_site::{OutsideFault, Site, Who};
use std::alloc::Global;

/// Prints all that was seen in this form; the status is 0 if each line was printed.
pub(crate) fn report<M: Machine>(
    alloc: Global,
    machine: &mut M,
    sight: &Sight<'_>,
    form: Form,
) -> u8
    ensures { Reports form sight.now result (M.told machine.old) (M.told machine.new) }
{
    let mut folder = machine.lend(None);
    let outcome = report_by(alloc, &mut folder, sight, form);
    machine.take_back(folder);
    end_with(machine, &outcome)
}

fn report_by<S: Site>(alloc: Global, site: &mut S, sight: &Sight<'_>, form: Form) -> Outcome
    ensures told { ReportsOf form sight.now result (S.told site.old) (S.told site.new) }
    ensures own { Adds (S.told site.old) (S.told site.new) (Every Inspects) }
    ensures cause { OutcomeCause (S.fault_count site.old) (S.fault_count site.new) result }
{
    match looker(alloc) {
        Ok(who) => told_as(report_as(alloc, site, &who, sight, form)),
        Err(NoMemory) => Outcome::NoMemory,
    }
}

fn report_as<S: Site>(
    alloc: Global,
    site: &mut S,
    who: &Who,
    sight: &Sight<'_>,
    form: Form,
) -> Result<(), OutsideFault>
    requires job { who.now ≡ job }
    ensures told { TellsSight form sight.now result (S.told site.old) (S.told site.new) }
    ensures cause { OutsideCause (S.fault_count site.old) (S.fault_count site.new) result }
{
    match books_of(alloc, sight.stores.as_slice()) {
        Ok(books) => report_by_books(alloc, site, who, sight, form, books.as_slice()),
        Err(NoMemory) => Err(OutsideFault::NoMemory),
    }
}

fn report_by_books<S: Site>(
    alloc: Global,
    site: &mut S,
    who: &Who,
    sight: &Sight<'_>,
    form: Form,
    books: &[&Book],
) -> Result<(), OutsideFault>
    requires job { who.now ≡ job }
    ensures told { TellsAll (texts_of form books.now sight.now) result (S.told site.old)
        (S.told site.new) }
    ensures cause { OutsideCause (S.fault_count site.old) (S.fault_count site.new) result }
{
    match form {
        Form::Table => report_tables(alloc, site, who, sight, books),
        Form::Line => report_lines(alloc, site, who, sight, books),
        Form::Metrics => report_metrics(alloc, site, who, sight, books),
    }
}

fn report_metrics<S: Site>(
    alloc: Global,
    site: &mut S,
    who: &Who,
    sight: &Sight<'_>,
    books: &[&Book],
) -> Result<(), OutsideFault>
    requires job { who.now ≡ job }
    ensures told { TellsAll (texts_of Form.Metrics books.now sight.now) result (S.told site.old)
        (S.told site.new) }
    ensures cause { OutsideCause (S.fault_count site.old) (S.fault_count site.new) result }
{
    tell_metrics(
        alloc,
        site,
        who,
        sight.stores.as_slice(),
        sight.absent.as_slice(),
        sight.agents.as_slice(),
        books,
        sight.doors.as_slice(),
    )
}

/// The books of the stores that were seen.
fn books_of(alloc: Global, stores: &[NamedStore]) -> Result<Vec<&Book>, NoMemory>
    ensures { IfOk result (λ books. map (λ b. b.now) books.items
        ≡ map (λ n. n.seen.waiting.book) stores.now) }
{
    let mut books = Vec::new(alloc);
    for store in stores {
        books.push(&store.seen.waiting.book)?;
    }
    Ok(books)
}

fn report_tables<S: Site>(
    alloc: Global,
    site: &mut S,
    who: &Who,
    sight: &Sight<'_>,
    books: &[&Book],
) -> Result<(), OutsideFault>
    requires job { who.now ≡ job }
    ensures told { TellsAll (tables_of books.now sight.now) result (S.told site.old) (S.told site.new) }
    ensures cause { OutsideCause (S.fault_count site.old) (S.fault_count site.new) result }
{
    let agents = sight.agents.as_slice();
    let absent = sight.absent.as_slice();
    match report_both(alloc, site, who, true, books, agents, absent) {
        Ok(()) => {
            let stores = sight.stores.as_slice();
            let doors = sight.doors.as_slice();
            report_both(alloc, site, who, true, books, stores, doors)
        }
        Err(fault) => Err(fault),
    }
}

/// Folders that are no stores and control ports come first, since Nagios shows the first line.
fn report_lines<S: Site>(
    alloc: Global,
    site: &mut S,
    who: &Who,
    sight: &Sight<'_>,
    books: &[&Book],
) -> Result<(), OutsideFault>
    requires job { who.now ≡ job }
    ensures told { TellsAll (lines_of books.now sight.now) result (S.told site.old) (S.told site.new) }
    ensures cause { OutsideCause (S.fault_count site.old) (S.fault_count site.new) result }
{
    let absent = sight.absent.as_slice();
    let doors = sight.doors.as_slice();
    match report_both(alloc, site, who, false, books, absent, doors) {
        Ok(()) => {
            let stores = sight.stores.as_slice();
            let agents = sight.agents.as_slice();
            report_both(alloc, site, who, false, books, stores, agents)
        }
        Err(fault) => Err(fault),
    }
}
