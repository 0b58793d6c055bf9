//! A file that is kept open.
ghost use Rattle.std.specs.Prelude.{◌≡◌, ◌≤◌, ◌↔◌, length, string_bytes, IfOk, IfSome, IsSomeAnd, IsTrue};
ghost use Rattle.chk_site.specs.Site.{MayBeShort, MayFail};
ghost use Rattle.chk_site_errors.specs.Faults.{answer_of};

use chk_bytes::{Bytes, NoMemory};
use chk_site_errors::SystemFault;
use chk_site_rotations::FileId;
use std::alloc::Global;
use std::fs;
use std::fs::{File, Metadata, OpenFile};
use std::io::ErrorKind;
use std::os::unix::fs::{FileExt, MetadataExt};
use std::rt::Files;

/// A read of so many bytes or fewer takes the room for all of them, without a look at the file's size.
const SMALL: u32 = 16_384;

/// So often a read that a signal broke off is made again.
const MOST_SIGNALS: u32 = 1_000;

/// No file has bytes from here on.
const FAR: u64 = 1 << 62;

/// A file by its number and its length, as a look found them.
#[derive(Clone, Copy)]
pub(crate) struct Base {
    pub file: FileId,
    pub size: u64,
}

/// A file that is open, and the name by which it was opened.
#[derive(Drop)]
pub struct Kept {
    pub name: String,
    pub file: File,
}

impl Kept {
    pub fn new(name: String, file: File) -> Kept
        ensures name { result.name ≡ name }
        ensures file { result.file ≡ file }
    {
        Kept { name, file }
    }

    /// Itself, where the file that is open is this one.
    pub(crate) fn if_file(self, file: FileId) -> Option<Kept>
        ensures { IfSome result (λ kept. kept ≡ self) }
    {
        if self.is_file(file) { Some(self) } else { None }
    }

    // The file that is open is this one.
    fn is_file(&self, file: FileId) -> bool {
        match self.file.metadata() {
            Ok(open) => id_of(&open) == file,
            Err(_) => false,
        }
    }

    /// The bytes from the place on, up to `max` of them or the end of the file. They are read where
    /// they stay. `Short` where the file ends before the place.
    pub fn piece(&self, alloc: Global, at: u64, max: u32) -> Result<Bytes, SystemFault>
        ensures most { IfOk result (λ bytes. length bytes ≤ max) }
        ensures only { MayBeShort (answer_of result) }
    {
        let room = self.room(at, max)?;
        if room == 0 {
            return Ok(Bytes::new(alloc));
        }
        let mut bytes = zeroes(alloc, room)?;
        let mut filled = 0;
        for _ in 0..room {
            let place = at.saturating_add(filled as u64);
            let count = self.read_some(&mut bytes[filled..], place)?;
            if count == 0 {
                break;
            }
            filled += count;
        }
        if filled == 0 {
            self.rest(at)?;
        }
        bytes.truncate(filled);
        Ok(Bytes::from_vec(bytes))
    }

    // The room that a read takes. `Short` where the file is known to end before the place.
    fn room(&self, at: u64, max: u32) -> Result<usize, SystemFault>
        ensures most { IfOk result (λ room. room ≤ max) }
        ensures only { MayBeShort (answer_of result) }
    {
        if max > 0 && max <= SMALL && at < FAR {
            return Ok(max as usize);
        }
        Ok(self.rest(at)?.min(max as u64) as usize)
    }

    // How many bytes there are from the place on; `Short` where the file ends before it.
    fn rest(&self, at: u64) -> Result<u64, SystemFault>
        ensures { MayBeShort (answer_of result) }
    {
        let size = self.file.metadata()?.len();
        size.checked_sub(at).ok_or(SystemFault::Short { size })
    }

    // How many bytes were read; none at the end of the file.
    fn read_some(&self, buffer: &mut [u8], place: u64) -> Result<usize, SystemFault>
        ensures most { IfOk result (λ count. count ≤ length buffer.new) }
        ensures only { MayFail (answer_of result) }
    {
        if buffer.is_empty() {
            return Ok(0);
        }
        for _ in 0..MOST_SIGNALS {
            match self.file.read_at(buffer, place) {
                Ok(count) => return Ok(count),
                Err(error) if error.kind() == ErrorKind::Interrupted => {}
                Err(error) => return Err(SystemFault::Failed(error)),
            }
        }
        Err(SystemFault::failed(ErrorKind::Interrupted, "signals kept breaking off the read"))
    }
}

/// The file of this name; none where there is none, or something else than a file.
pub(crate) fn found_file<R: Files>(rt: &R, name: &str) -> Result<Option<Base>, SystemFault>
    ensures { MayFail (answer_of result) }
{
    match fs::metadata(rt, name) {
        Ok(found) if found.is_file() => Ok(Some(Base {
            file: id_of(&found),
            size: found.len(),
        })),
        Ok(_) => Ok(None),
        Err(error) if error.kind() == ErrorKind::NotFound => Ok(None),
        Err(error) => Err(SystemFault::Failed(error)),
    }
}

// Which file it is of which the system told this.
fn id_of(found: &Metadata) -> FileId {
    FileId {
        device: found.dev(),
        number: found.ino(),
    }
}

// So many bytes to be read over.
fn zeroes(alloc: Global, size: usize) -> Result<Vec<u8>, NoMemory>
    ensures { IfOk result (λ bytes. length bytes.items ≡ size) }
{
    let mut bytes = Vec::with_capacity(alloc, size)?;
    bytes.resize(size, 0)?;
    Ok(bytes)
}

/// The kept file is the one of this name.
pub fn is_named(kept: &Option<Kept>, name: &str) -> bool
    ensures { IsTrue result ↔ IsSomeAnd kept.now (λ file. string_bytes file.name ≡ name.now) }
{
    match kept {
        Some(kept) => kept.name.as_str() == name,
        None => false,
    }
}
