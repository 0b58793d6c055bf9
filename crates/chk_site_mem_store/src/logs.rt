// Logs in memory, and what becomes of them. A call that has no memory changes nothing.
ghost use Rattle.std.specs.Prelude.{◌≡◌, OnOk, OnErr, IfOk, IfSome, Some, map, position};
ghost use Rattle.chk_site.specs.Files.{LogGrown, LogTurned, LogDropped};
ghost use Rattle.chk_site.specs.Logs.{logs_changed, log_size, log_grown, log_turned, log_dropped};
ghost use Rattle.chk_site_mem_store.specs.Named.{is_named};
ghost use Rattle.chk_site_mem_store.specs.Stored.{log_in, log_at, log_of, empty_log, marked_one, StoresLogs};

use crate::named::{Named, place};
use chk_bytes::{Bytes, NoMemory};
use chk_site::Suffix;
use std::alloc::Global;
use std::mem;

/// A rotated generation.
#[derive(Drop)]
pub struct MemGeneration {
    pub suffix: Suffix,
    pub bytes: Bytes,
    pub deleted: bool,
}

/// A log: its rotated generations, the oldest first, and the base file.
#[derive(Drop)]
pub struct MemLog {
    pub rotated: Vec<MemGeneration>,
    pub base: Bytes,
}

impl MemLog {
    fn new(alloc: Global) -> MemLog
        ensures { log_of result ≡ empty_log }
    {
        MemLog {
            rotated: Vec::new(alloc),
            base: Bytes::new(alloc),
        }
    }

    /// The bytes of all generations, deleted ones too; `None` where they are too many to count.
    pub fn size(&self) -> Option<u64>
        ensures { IfSome result (λ size. size ≡ log_size (log_of self.now)) }
    {
        let mut size = self.base.len() as u64;
        for generation in &self.rotated {
            size = size.checked_add(generation.bytes.len() as u64)?;
        }
        Some(size)
    }

    fn grow(&mut self, piece: &[u8]) -> Result<(), NoMemory>
        ensures ok { OnOk result (log_of self.new ≡ log_grown piece.now (log_of self.old)) }
        ensures err { OnErr result (log_of self.new ≡ log_of self.old) }
    {
        self.base.push_all(piece)
    }

    fn turn(&mut self, alloc: Global, suffix: Suffix) -> Result<(), NoMemory>
        ensures ok { OnOk result (log_of self.new ≡ log_turned suffix (log_of self.old)) }
        ensures err { OnErr result (log_of self.new ≡ log_of self.old) }
    {
        self.rotated.reserve(1)?;
        let bytes = mem::replace(&mut self.base, Bytes::new(alloc));
        let generation = MemGeneration {
            suffix,
            bytes,
            deleted: false,
        };
        self.rotated.push(generation).unwrap();
        Ok(())
    }

    fn mark(&mut self, suffix: &[u8])
        ensures { log_of self.new ≡ log_dropped suffix.now (log_of self.old) }
    {
        mark(&mut self.rotated, suffix);
    }
}

// Each generation of this suffix is marked as deleted.
fn mark(rotated: &mut [MemGeneration], suffix: &[u8])
    ensures { rotated.new ≡ map (marked_one suffix.now) rotated.old }
{
    for generation in rotated.iter_mut() {
        mark_one(generation, suffix);
    }
}

fn mark_one(generation: &mut MemGeneration, suffix: &[u8])
    ensures { generation.new ≡ marked_one suffix.now generation.old }
{
    if generation.suffix.as_str().as_bytes() == suffix {
        generation.deleted = true;
    }
}

/// Logs under their paths.
pub type Logs = Vec<Named<MemLog>>;

/// The log of this path, where somebody has written to it.
pub fn find<'a>(logs: &'a [Named<MemLog>], path: &[u8]) -> Option<&'a MemLog>
    ensures { log_at result ≡ log_in logs.now path.now }
{
    let at = place(logs, path)?;
    Some(&logs[at].value)
}

// The place of the log of this path, an empty one where there was none.
fn slot(alloc: Global, logs: &mut Logs, path: &[u8]) -> Result<usize, NoMemory>
    ensures found { IfOk result (λ at. position (is_named path.now) logs.new.items ≡ Some at) }
    ensures same { StoresLogs logs.new.items (log_in logs.old.items) }
{
    if let Some(at) = place(logs, path) {
        return Ok(at);
    }
    let at = logs.len();
    logs.push(Named {
        name: Bytes::from_slice(alloc, path)?,
        value: MemLog::new(alloc),
    })?;
    Ok(at)
}

/// A piece at the end of the base file.
pub fn grow(alloc: Global, logs: &mut Logs, path: &[u8], piece: &[u8]) -> Result<(), NoMemory>
    ensures ok { OnOk result (StoresLogs logs.new.items (logs_changed (LogGrown path.now piece.now) (log_in logs.old.items))) }
    ensures err { OnErr result (StoresLogs logs.new.items (log_in logs.old.items)) }
{
    let at = slot(alloc, logs, path)?;
    let entry = &mut logs[at];
    entry.value.grow(piece)
}

/// The base file becomes a generation, and an empty one follows. The suffix is one.
pub fn turn(alloc: Global, logs: &mut Logs, path: &[u8], suffix: &[u8]) -> Result<(), NoMemory>
    ensures ok { OnOk result (StoresLogs logs.new.items (logs_changed (LogTurned path.now suffix.now) (log_in logs.old.items))) }
    ensures err { OnErr result (StoresLogs logs.new.items (log_in logs.old.items)) }
{
    let Ok(suffix) = Suffix::new(alloc, suffix) else {
        return Err(NoMemory);
    };
    let at = slot(alloc, logs, path)?;
    let entry = &mut logs[at];
    entry.value.turn(alloc, suffix)
}

/// The generation of this suffix is marked as deleted.
pub fn drop_generation(logs: &mut Logs, path: &[u8], suffix: &[u8])
    ensures { StoresLogs logs.new.items (logs_changed (LogDropped path.now suffix.now) (log_in logs.old.items)) }
{
    if let Some(at) = place(logs, path) {
        let entry = &mut logs[at];
        entry.value.mark(suffix);
    }
}
