//! Whether a store has what the logs of its agents have.

ghost use Rattle.std.specs.Prelude.{◌≡◌, IsTrue};
ghost use Rattle.chk_book.specs.Folders.{is_folder};
ghost use Rattle.chk_ctl_audit.specs.Audits.{LooksAtAudit};
ghost use Rattle.chk_ctl_line.specs.Names.{is_path};
ghost use Rattle.chk_ctl_run.specs.Auditing.{audited_as, AuditsFolder, ShowsAudit};
ghost use Rattle.chk_ctl_run.specs.Outcomes.{OutcomeCause};
ghost use Rattle.chk_ctl_run.specs.Several.{archive_of, book_of};
ghost use Rattle.chk_site.specs.History.{Every};
ghost use Rattle.chk_site.specs.Site.{Adds};
ghost use Rattle.chk_world.specs.Sight.{job};

use crate::finding::find_file;
use crate::naming::{Names, names_of};
use crate::outcome::{Outcome, outcome_of_job, told_as};
use chk_ctl_audit::{Compared, audit};
use chk_site::{Site, Who};
use std::alloc::Global;

/// Compares the archive of the store with this path with the logs of the site's agents.
pub(crate) fn show_audit<S: Site>(alloc: Global, site: &mut S, who: &Who, store: &str) -> Outcome
    requires job { who.now ≡ job }
    requires path { IsTrue (is_path store.now) }
    ensures told { ShowsAudit store.now result (S.told site.old) (S.told site.new) }
    ensures own { Adds (S.told site.old) (S.told site.new) (Every LooksAtAudit) }
    ensures cause { OutcomeCause (S.fault_count site.old) (S.fault_count site.new) result }
{
    match names_of(alloc, store) {
        Ok(names) => audit_named(alloc, site, who, names),
        Err(_) => Outcome::NoMemory,
    }
}

/// The same of the store of these names, if its archive has a book.
fn audit_named<S: Site>(alloc: Global, site: &mut S, who: &Who, names: Names) -> Outcome
    requires job { who.now ≡ job }
    requires folder { names.folder ≡ archive_of names.store }
    requires can { IsTrue (is_folder names.folder) }
    requires book { names.book ≡ book_of names.store }
    ensures told { ShowsAudit names.store result (S.told site.old) (S.told site.new) }
    ensures own { Adds (S.told site.old) (S.told site.new) (Every LooksAtAudit) }
    ensures cause { OutcomeCause (S.fault_count site.old) (S.fault_count site.new) result }
{
    match find_file(alloc, site, who, names.book.as_str()) {
        Ok(true) => audit_found(alloc, site, who, names.folder.as_str()),
        Ok(false) => Outcome::NoBook { name: names.book },
        Err(fault) => told_as(Err(fault)),
    }
}

/// The same of a folder that has a book.
fn audit_found<S: Site>(alloc: Global, site: &mut S, who: &Who, folder: &str) -> Outcome
    requires job { who.now ≡ job }
    requires folder { IsTrue (is_folder folder.now) }
    ensures told { AuditsFolder folder.now result (S.told site.old) (S.told site.new) }
    ensures own { Adds (S.told site.old) (S.told site.new) (Every LooksAtAudit) }
    ensures cause { OutcomeCause (S.fault_count site.old) (S.fault_count site.new) result }
{
    match audit(alloc, site, who, folder) {
        Ok(compared) => audited_as(compared),
        Err(fault) => outcome_of_job(fault),
    }
}

/// The outcome of an audit.
fn audited_as(compared: Compared) -> Outcome
    ensures { result ≡ audited_as compared }
{
    match compared {
        Compared::Nothing => Outcome::Unknown,
        Compared::Same => Outcome::Done,
        Compared::Differs => Outcome::Differs,
    }
}
