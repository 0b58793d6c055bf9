//! Whether the files of a store are what they have to be.

ghost use Rattle.std.specs.Prelude.{◌≡◌, string_bytes, IfOk, IsTrue};
ghost use Rattle.chk_site.specs.History.{Every};
ghost use Rattle.chk_site.specs.Site.{Adds};
ghost use Rattle.chk_world.specs.ArchiveRuns.{is_one_line};
ghost use Rattle.chk_world.specs.JobSteps.{IsOf};
ghost use Rattle.chk_world.specs.Sight.{job};
ghost use Rattle.chk_ctl_streams.specs.Following.{LooksAgain};
ghost use Rattle.chk_ctl_run.specs.Outcomes.{OutcomeCause};
ghost use Rattle.chk_ctl_verify.specs.Calls.{Looks};
ghost use Rattle.chk_ctl_run.specs.Finding.{InStore};
ghost use Rattle.chk_ctl_run.specs.Telling.{Tells};
ghost use Rattle.chk_ctl_run.specs.Verifying.{archive_line, sound_line};
ghost use Rattle.chk_ctl_run.specs.Verifying.{ShowsFound, ShowsRest, ShowsVerified};

use crate::finding::{find_archive, find_file};
use crate::outcome::{Outcome, told_as};
use crate::telling::tell;
use chk_bytes::NoMemory;
use chk_ctl_verify::{Store, check_store};
use chk_site::{Site, Who};
use std::alloc::Global;

/// Looks at each file of the store, and prints how many records the archive and the split ones
/// have, where none is damaged; of each that is a line was printed.
pub(crate) fn show_verified<S: Site>(alloc: Global, site: &mut S, who: &Who) -> Outcome
    requires job { who.now ≡ job }
    ensures told { ShowsVerified result (S.told site.old) (S.told site.new) }
    ensures own { Adds (S.told site.old) (S.told site.new) (Every Looks) }
    ensures cause { OutcomeCause (S.fault_count site.old) (S.fault_count site.new) result }
{
    match check_store(alloc, site, who) {
        Ok(store) => show_found(alloc, site, who, store),
        Err(fault) => told_as(Err(fault)),
    }
}

/// What was found of a store.
fn show_found<S: Site>(alloc: Global, site: &mut S, who: &Who, store: Store) -> Outcome
    requires job { who.now ≡ job }
    ensures told { ShowsFound store.archived store.split store.damaged result
        (S.told site.old) (S.told site.new) }
    ensures own { Adds (S.told site.old) (S.told site.new) (Every (IsOf LooksAgain)) }
    ensures cause { OutcomeCause (S.fault_count site.old) (S.fault_count site.new) result }
{
    if store.damaged {
        return Outcome::Unsound;
    }
    show_archive(alloc, site, who, store)
}

/// The same of a store of which no file is damaged.
fn show_archive<S: Site>(alloc: Global, site: &mut S, who: &Who, store: Store) -> Outcome
    requires job { who.now ≡ job }
    ensures told { InStore (ShowsRest store.archived store.split) result (S.told site.old)
        (S.told site.new) }
    ensures own { Adds (S.told site.old) (S.told site.new) (Every (IsOf LooksAgain)) }
    ensures cause { OutcomeCause (S.fault_count site.old) (S.fault_count site.new) result }
{
    match find_archive(alloc, site, who) {
        Ok(()) => show_rest(alloc, site, who, store),
        Err(outcome) => outcome,
    }
}

/// Prints the line of a store that has an archive, by whether it has a book of records.
fn show_rest<S: Site>(alloc: Global, site: &mut S, who: &Who, store: Store) -> Outcome
    requires job { who.now ≡ job }
    ensures told { ShowsRest store.archived store.split result (S.told site.old)
        (S.told site.new) }
    ensures own { Adds (S.told site.old) (S.told site.new) (Every (IsOf LooksAgain)) }
    ensures cause { OutcomeCause (S.fault_count site.old) (S.fault_count site.new) result }
{
    match find_file(alloc, site, who, "demux/book") {
        Ok(true) => show_sound(alloc, site, who, store.archived, store.split),
        Ok(false) => show_alone(alloc, site, who, store.archived),
        Err(fault) => told_as(Err(fault)),
    }
}

/// Prints the line of a store that has no book of records.
fn show_alone<S: Site>(alloc: Global, site: &mut S, who: &Who, archived: u64) -> Outcome
    requires job { who.now ≡ job }
    ensures told { Tells (archive_line archived) result (S.told site.old) (S.told site.new) }
    ensures own { Adds (S.told site.old) (S.told site.new) (Every (IsOf LooksAgain)) }
    ensures cause { OutcomeCause (S.fault_count site.old) (S.fault_count site.new) result }
{
    match archive_text(alloc, archived) {
        Ok(line) => tell(alloc, site, who, line.as_str()),
        Err(NoMemory) => Outcome::NoMemory,
    }
}

/// Its text.
fn archive_text(alloc: Global, archived: u64) -> Result<String, NoMemory>
    ensures line { IfOk result (λ line. string_bytes line ≡ archive_line archived) }
    ensures one { IsTrue (is_one_line (archive_line archived)) }
{
    let text = format!(in alloc; "ok archive {archived} demux none\n")?;
    Ok(text)
}

/// Prints the line of a store whose files are what they have to be.
fn show_sound<S: Site>(alloc: Global, site: &mut S, who: &Who, archived: u64, split: u64) -> Outcome
    requires job { who.now ≡ job }
    ensures told { Tells (sound_line archived split) result (S.told site.old) (S.told site.new) }
    ensures own { Adds (S.told site.old) (S.told site.new) (Every (IsOf LooksAgain)) }
    ensures cause { OutcomeCause (S.fault_count site.old) (S.fault_count site.new) result }
{
    match sound_text(alloc, archived, split) {
        Ok(line) => tell(alloc, site, who, line.as_str()),
        Err(NoMemory) => Outcome::NoMemory,
    }
}

/// Its text.
fn sound_text(alloc: Global, archived: u64, split: u64) -> Result<String, NoMemory>
    ensures line { IfOk result (λ line. string_bytes line ≡ sound_line archived split) }
    ensures one { IsTrue (is_one_line (sound_line archived split)) }
{
    let text = format!(in alloc; "ok archive {archived} demux {split}\n")?;
    Ok(text)
}
