// What an act leaves of the files and logs.
ghost use Rattle.std.specs.Prelude.{◌≡◌, OnOk, OnErr, IfOk};
ghost use Rattle.chk_site.specs.Acts.{deed, change_of};
ghost use Rattle.chk_site.specs.Files.{changed};
ghost use Rattle.chk_site.specs.Logs.{logs_changed};
ghost use Rattle.chk_site_mem_store.specs.Changes.{seen};
ghost use Rattle.chk_site_mem_store.specs.Stored.{file_in, log_in, Stores, IsStored};
ghost use Rattle.chk_site_mem_store.specs.Told.{with_answer};
ghost use Rattle.chk_site_mem_store.specs.Stored.{IsLeft};

use crate::changes::{Change, change_of};
use crate::files::{self, Files};
use crate::logs::{self, Logs};
use crate::stops::stop;
use chk_bytes::NoMemory;
use chk_site::{Act, ActAnswer};
use std::alloc::Global;

/// What the act leaves, or without memory nothing. The act comes back, a stop's tails cut to what the file model allows.
pub fn leave(alloc: Global, files: &mut Files, logs: &mut Logs, act: Act) -> Result<Act, NoMemory>
    ensures ok { IfOk result (λ left. IsLeft (file_in files.old.items) (log_in logs.old.items) act left files.new.items logs.new.items) }
    ensures err { OnErr result (IsStored files.new.items logs.new.items (file_in files.old.items) (log_in logs.old.items)) }
{
    if let ActAnswer::Stopped { left } = &act.answer {
        let after = stop(alloc, files, &act, left.as_slice())?;
        *files = after.files;
        return Ok(answering(act, ActAnswer::Stopped { left: after.left }));
    }
    apply(alloc, files, logs, change_of(&act))?;
    Ok(act)
}

/// The same act with another answer.
pub fn answering(act: Act, answer: ActAnswer) -> Act
    ensures { result ≡ with_answer act answer }
{
    Act {
        who: act.who,
        call: act.call,
        words: act.words,
        number: act.number,
        max: act.max,
        answer,
    }
}

// The change takes place, or without memory nothing does.
fn apply(
    alloc: Global,
    files: &mut Files,
    logs: &mut Logs,
    change: Change<'_>,
) -> Result<(), NoMemory>
    ensures ok { OnOk result (IsStored files.new.items logs.new.items (changed (seen change.entry) (file_in files.old.items)) (logs_changed (seen change.entry) (log_in logs.old.items))) }
    ensures err { OnErr result (IsStored files.new.items logs.new.items (file_in files.old.items) (log_in logs.old.items)) }
{
    match change {
        Change::GrowLog { path, piece } => logs::grow(alloc, logs, path, piece),
        Change::TurnLog { path, suffix } => logs::turn(alloc, logs, path, suffix),
        Change::DropGeneration { path, suffix } => {
            logs::drop_generation(logs, path, suffix);
            Ok(())
        }
        _ => change_files(alloc, files, change),
    }
}

/// What the change makes of the files.
pub fn change_files(alloc: Global, files: &mut Files, change: Change<'_>) -> Result<(), NoMemory>
    ensures ok { OnOk result (Stores files.new.items (changed (seen change.entry) (file_in files.old.items))) }
    ensures err { OnErr result (files.new.items ≡ files.old.items) }
{
    match change {
        Change::Create { name } => files::create(alloc, files, name),
        Change::Grow { name, piece } => files::grow(files, name, piece),
        Change::Secure { name } => {
            files::secure(files, name);
            Ok(())
        }
        Change::Move { old, new } => files::rename(alloc, files, old, new),
        Change::Remove { name } => {
            files::remove(files, name);
            Ok(())
        }
        Change::Cut { name, length } => {
            files::cut(files, name, length);
            Ok(())
        }
        _ => Ok(()),
    }
}
