// Whether an act can take place.
ghost use Rattle.std.specs.Prelude.{◌≡◌, ◌+◌, ◌<◌, ◌^◌, ◌↔◌, IsTrue};
ghost use Rattle.chk_site.specs.Acts.{deed};
ghost use Rattle.chk_site_mem_store.specs.Room.{file_size, HasRoom};
ghost use Rattle.chk_site_mem_store.specs.Stored.{file_in, file_at, log_in};
ghost use Rattle.chk_site_mem_store.specs.Told.{is_allowed};

use crate::changes::{first, second};
use crate::files::{self, MemFile};
use crate::logs::{self, MemLog};
use crate::named::Named;
use chk_site::{Act, ActAnswer, Call, LOG_BYTES, is_suffix};

/// Whether the file model allows the act: a generation's suffix is one.
pub fn is_allowed(act: &Act) -> bool
    ensures { result ≡ is_allowed (deed act.now) act.now.answer }
{
    match &act.answer {
        ActAnswer::Rotated { suffix } => match act.call {
            Call::LogAppend => is_suffix(suffix.as_slice()),
            _ => true,
        },
        _ => true,
    }
}

/// Whether the file that the act grows stays below 2^63 bytes, or the log below 2^62. No memory holds
/// more.
pub fn has_room(files: &[Named<MemFile>], logs: &[Named<MemLog>], act: &Act) -> bool
    ensures { IsTrue result → HasRoom (deed act.now) (file_in files.now) (log_in logs.now) }
{
    let words = act.words.as_slice();
    match act.call {
        Call::Append => {
            let size = file_size(files::find(files, first(words)));
            fits(size as u64, second(words).len(), 1 << 63)
        }
        Call::LogAppend => match logs::find(logs, first(words)) {
            None => fits(0, second(words).len(), LOG_BYTES),
            Some(log) => match log.size() {
                None => false,
                Some(size) => fits(size, second(words).len(), LOG_BYTES),
            },
        },
        _ => true,
    }
}

fn file_size(file: Option<&MemFile>) -> usize
    ensures { result ≡ file_size (file_at file.entry) }
{
    match file {
        None => 0,
        Some(file) => file.bytes.len(),
    }
}

fn fits(size: u64, more: usize, limit: u64) -> bool
    ensures { IsTrue result ↔ (size + more < limit) }
{
    match size.checked_add(more as u64) {
        None => false,
        Some(sum) => sum < limit,
    }
}
