//! The machine: its runtime, and files by their names. The file written last and the file read
//! last are kept open, so that a further piece costs one system call.
ghost use Rattle.std.specs.Prelude.{◌≡◌, ◌≢◌, ◌≤◌, ◌↔◌, [], None, Err, false, true, if◌then◌else◌, length, option_map, string_bytes, IfOk, IfSome, IsErr, IsOk, IsSomeAnd, IsTrue, OnErr, OnOk};
ghost use Rattle.chk_site.specs.Site.{MayFail, MayExist, MayMiss, MayBeShort, MayMissOrBeShort};
ghost use Rattle.chk_site.specs.declared.acts.CallFault.TheVariants.{Missing};
ghost use Rattle.chk_site_errors.specs.Faults.{answer_of};
ghost use Rattle.chk_site_files.specs.Opened.{is_mark, is_temporary, unsettled_by, IsClosed};

use crate::folders::{file_size, folder_of, no_file, sync_folder};
use crate::kept::{Kept, is_named};
use chk_bytes::Bytes;
use chk_site_errors::{SystemFault, text};
use chk_site_listings::Listings;
use chk_site_log::Notices;
use chk_site_rotations::Logs;
use std::alloc::Global;
use std::fs::{File, OpenFile, OpenOptions};
use std::io::{ErrorKind, Write};
use std::rt::Files;
use std::{fs, io};

/// Where the system tells the limits of a process.
const LIMITS: &str = "/proc/self/limits";

/// The line of the limit of files, up to its numbers.
const LIMIT_FRONT: &str = "Max file size";

/// The system's error for a file that would become longer than it may.
const TOO_LARGE: i32 = 27;

/// At most two files are open: one to append to, and one to read.
#[derive(Drop)]
pub struct Host<R: Files<File = File>> {
    pub rt: R,
    writing: Option<Kept>,
    /// The file that was created last, as long as its folder isn't synced.
    unsettled: Option<String>,
    /// The mark that was renamed last, whose folder was synced behind that.
    settled_mark: Option<String>,
    /// Nothing is synced behind a read, and a folder that isn't there has no file.
    only_looks: bool,
    pub(crate) reading: Option<Kept>,
    pub(crate) listings: Listings,
    /// What is known of the logs that were looked at.
    pub(crate) logs: Logs,
    pub notices: Notices,
    /// The longest that a file may become, in bytes. The system ends a process that writes on behind
    /// it, so that it is looked at before each append. It is read once, at the start.
    longest: u64,
    pub(crate) buffer: Vec<u8>,
}

impl<R: Files<File = File>> Host<R> {
    pub fn new(rt: R, alloc: Global) -> Host<R>
        ensures writing { result.writing ≡ None }
        ensures unsettled { result.unsettled ≡ None }
        ensures settled { result.settled_mark ≡ None }
        ensures reading { result.reading ≡ None }
        ensures listings { result.listings ≡ [] }
        ensures logs { result.logs.seen.items ≡ [] }
        ensures buffer { result.buffer.items ≡ [] }
        ensures looks { result.only_looks ≡ false }
    {
        let longest = longest_file(&rt, alloc);
        Host {
            rt,
            longest,
            writing: None,
            unsettled: None,
            settled_mark: None,
            only_looks: false,
            reading: None,
            listings: Listings::new(alloc),
            logs: Logs::new(alloc),
            notices: Notices::new(alloc),
            buffer: Vec::new(alloc),
        }
    }

    /// The machine for a program that only looks: a read syncs nothing, and of a folder that isn't there
    /// `read` and `size` answer `Missing`. What it reads of a mark may be lost
    /// with the next loss of power, so it is for no agent's ears.
    pub fn read_only(rt: R, alloc: Global) -> Host<R>
        ensures looks { result.only_looks ≡ true }
        ensures unsettled { result.unsettled ≡ None }
    {
        let mut host = Host::new(rt, alloc);
        host.only_looks = true;
        host
    }

    /// `Exists` where the file is there. The new file is kept open. Its folder is synced, but of a file
    /// that is to be renamed: there the rename does it.
    pub fn create(&mut self, alloc: Global, name: &str) -> Result<(), SystemFault>
        ensures kept { OnOk result
            (IsSomeAnd self.new.writing (λ kept. string_bytes kept.name ≡ name.now)) }
        ensures unsettled { OnOk result
            (option_map string_bytes self.new.unsettled ≡ unsettled_by name.now) }
        ensures only { MayExist (answer_of result) }
    {
        self.settle()?;
        let kept_name = text(alloc, name)?;
        let new_name = text(alloc, name)?;
        match OpenOptions::new()
            .append(true)
            .create_new(true)
            .open(&self.rt, name)
        {
            Ok(file) => {
                self.writing = Some(Kept::new(kept_name, file));
                self.unsettled = Some(new_name);
                self.settle_lasting(name)
            }
            Err(error) if error.kind() == ErrorKind::AlreadyExists => Err(SystemFault::Exists),
            Err(error) => Err(SystemFault::Failed(error)),
        }
    }

    /// A file that isn't there is `Failed`.
    pub fn append(&mut self, alloc: Global, name: &str, bytes: &[u8]) -> Result<(), SystemFault>
        ensures kept { OnOk result
            (IsSomeAnd self.new.writing (λ kept. string_bytes kept.name ≡ name.now)) }
        ensures settled { OnOk result
            (IfSome self.new.unsettled (λ new_name. string_bytes new_name ≡ name.now)) }
        ensures only { MayFail (answer_of result) }
    {
        self.settle_other(name)?;
        let given = self.append_kept(alloc, name, bytes);
        self.settle_failed(given)
    }

    fn append_kept(&mut self, alloc: Global, name: &str, bytes: &[u8]) -> Result<(), SystemFault>
        ensures kept { OnOk result
            (IsSomeAnd self.new.writing (λ kept. string_bytes kept.name ≡ name.now)) }
        ensures same { self.new.unsettled ≡ self.old.unsettled }
        ensures only { MayFail (answer_of result) }
    {
        let mut writer = self.writer(alloc, name)?;
        self.check_room(&writer.file, bytes.len())?;
        writer.file.write_all(bytes)?;
        self.writing = Some(writer);
        Ok(())
    }

    /// `Failed` where the file may not take so many bytes more at its end.
    pub(crate) fn check_room(&self, file: &File, count: usize) -> Result<(), SystemFault>
        ensures free { self.now.longest ≡ u64.MAX → IsOk result }
        ensures only { MayFail (answer_of result) }
    {
        if self.longest == u64::MAX {
            return Ok(());
        }
        let size = file.metadata()?.len();
        if self.may_reach(size.saturating_add(count as u64)) {
            return Ok(());
        }
        Err(SystemFault::Failed(io::Error::from_raw_os_error(TOO_LARGE)))
    }

    // A file may become so long.
    fn may_reach(&self, length: u64) -> bool
        ensures { IsTrue result ↔ (length ≤ self.now.longest) }
    {
        length <= self.longest
    }

    /// A file that isn't there is `Failed`.
    pub fn sync(&mut self, alloc: Global, name: &str) -> Result<(), SystemFault>
        ensures kept { OnOk result
            (IsSomeAnd self.new.writing (λ kept. string_bytes kept.name ≡ name.now)) }
        ensures settled { OnOk result
            (IfSome self.new.unsettled (λ new_name. string_bytes new_name ≡ name.now)) }
        ensures only { MayFail (answer_of result) }
    {
        self.settle_other(name)?;
        let given = self.sync_kept(alloc, name);
        self.settle_failed(given)
    }

    fn sync_kept(&mut self, alloc: Global, name: &str) -> Result<(), SystemFault>
        ensures kept { OnOk result
            (IsSomeAnd self.new.writing (λ kept. string_bytes kept.name ≡ name.now)) }
        ensures same { self.new.unsettled ≡ self.old.unsettled }
        ensures only { MayFail (answer_of result) }
    {
        let writer = self.writer(alloc, name)?;
        writer.file.sync_all()?;
        self.writing = Some(writer);
        Ok(())
    }

    /// `Missing` where the file isn't there, and its folder is. The new length is synced.
    pub fn cut(&mut self, alloc: Global, name: &str, length: u64) -> Result<(), SystemFault>
        ensures settled { OnOk result (self.new.unsettled ≡ None) }
        ensures only { MayMissOrBeShort (answer_of result) }
    {
        self.settle()?;
        let size = self.size(name)?;
        if size < length {
            return Err(SystemFault::Short { size });
        }
        if size > length {
            let writer = self.writer(alloc, name)?;
            writer.file.set_len(length)?;
            writer.file.sync_all()?;
            self.writing = Some(writer);
        }
        Ok(())
    }

    /// A file that isn't there is `Failed`.
    pub fn rename(&mut self, alloc: Global, old: &str, new: &str) -> Result<(), SystemFault>
        ensures settled { OnOk result (self.new.unsettled ≡ None) }
        ensures old { OnOk result (IfSome self.new.writing (λ kept. string_bytes kept.name ≢ old.now)) }
        ensures new { OnOk result (IfSome self.new.writing (λ kept. string_bytes kept.name ≢ new.now)) }
        ensures read { OnOk result (IfSome self.new.reading (λ kept. string_bytes kept.name ≢ new.now)) }
        ensures only { MayFail (answer_of result) }
    {
        self.settle_other(old)?;
        let given = self.rename_settled(old, new);
        if given.is_ok() && is_mark(new) {
            self.settled_mark = text(alloc, new).ok();
        }
        self.settle_failed(given)
    }

    // Both folders are synced behind the rename, so that nothing of the new file is unsettled.
    fn rename_settled(&mut self, old: &str, new: &str) -> Result<(), SystemFault>
        ensures settled { OnOk result (self.new.unsettled ≡ None) }
        ensures old { IfSome self.new.writing (λ kept. string_bytes kept.name ≢ old.now) }
        ensures new { IfSome self.new.writing (λ kept. string_bytes kept.name ≢ new.now) }
        ensures read { IfSome self.new.reading (λ kept. string_bytes kept.name ≢ new.now) }
        ensures only { MayFail (answer_of result) }
    {
        self.forget(old);
        self.forget(new);
        fs::rename(&self.rt, old, new)?;
        sync_folder(&self.rt, new)?;
        if folder_of(old) != folder_of(new) {
            sync_folder(&self.rt, old)?;
        }
        self.unsettled = None;
        Ok(())
    }

    pub fn remove(&mut self, name: &str) -> Result<(), SystemFault>
        ensures settled { OnOk result (self.new.unsettled ≡ None) }
        ensures written { OnOk result (IfSome self.new.writing (λ kept. string_bytes kept.name ≢ name.now)) }
        ensures read { OnOk result (IfSome self.new.reading (λ kept. string_bytes kept.name ≢ name.now)) }
        ensures only { MayMiss (answer_of result) }
    {
        self.settle()?;
        self.forget(name);
        match fs::remove_file(&self.rt, name) {
            Ok(()) => sync_folder(&self.rt, name),
            Err(error) if error.kind() == ErrorKind::NotFound => no_file(&self.rt, name),
            Err(error) => Err(SystemFault::Failed(error)),
        }
    }

    pub fn size(&self, name: &str) -> Result<u64, SystemFault>
        ensures { MayMiss (answer_of result) }
    {
        match file_size(&self.rt, name)? {
            Some(size) => Ok(size),
            None => self.absent(name),
        }
    }

    pub fn read(
        &mut self,
        alloc: Global,
        name: &str,
        at: u64,
        max: u32,
    ) -> Result<Bytes, SystemFault>
        ensures most { IfOk result (λ bytes. length bytes ≤ max) }
        ensures looks { self.new.only_looks ≡ self.old.only_looks }
        ensures only { MayMissOrBeShort (answer_of result) }
    {
        match self.read_found(alloc, name, at, max)? {
            Some(bytes) => {
                self.settle_name(name)?;
                Ok(bytes)
            }
            None => self.absent(name),
        }
    }

    // There is no file of this name. To a program that only looks it is missing also where its folder isn't
    // there: nobody made that folder yet, or the store was copied without it.
    fn absent<T>(&self, name: &str) -> Result<T, SystemFault>
        ensures refused { IsErr result }
        ensures looks { IsTrue self.now.only_looks → answer_of result ≡ Err Missing }
        ensures only { MayMiss (answer_of result) }
    {
        if self.only_looks {
            return Err(SystemFault::Missing);
        }
        no_file(&self.rt, name)
    }

    // Another collector may have renamed a mark to this name and not synced it yet. What was read of a
    // mark is told to agents, so it stays on the disk before it is answered. The mark that this process
    // renamed last is on the disk, and nobody else renames to its name. A program that only looks tells no
    // agent, and syncs nothing.
    fn settle_name(&self, name: &str) -> Result<(), SystemFault>
        ensures looks { IsTrue self.now.only_looks → IsOk result }
        ensures only { MayFail (answer_of result) }
    {
        if !self.only_looks && is_mark(name) && !self.has_settled(name) {
            sync_folder(&self.rt, name)?;
        }
        Ok(())
    }

    fn has_settled(&self, name: &str) -> bool
        ensures { IsTrue result ↔ IsSomeAnd self.now.settled_mark (λ mark. string_bytes mark ≡ name.now) }
    {
        match &self.settled_mark {
            Some(mark) => mark.as_str() == name,
            None => false,
        }
    }

    /// None where there is no such file. A read from the front opens the file anew, and one that was
    /// read to its end is let go.
    pub(crate) fn read_found(
        &mut self,
        alloc: Global,
        name: &str,
        at: u64,
        max: u32,
    ) -> Result<Option<Bytes>, SystemFault>
        ensures most { IfOk result (λ found. IfSome found (λ bytes. length bytes ≤ max)) }
        ensures looks { self.new.only_looks ≡ self.old.only_looks }
        ensures only { MayBeShort (answer_of result) }
    {
        if at == 0 {
            self.stop_reading();
        }
        let Some(bytes) = self.read_on(alloc, name, at, max)? else {
            return Ok(None);
        };
        if bytes.len() < max as usize {
            self.stop_reading();
        }
        Ok(Some(bytes))
    }

    // Reads the file of this name that is kept open, or else opens it where it has bytes at the place,
    // and keeps it open. None where there is no such file.
    fn read_on(
        &mut self,
        alloc: Global,
        name: &str,
        at: u64,
        max: u32,
    ) -> Result<Option<Bytes>, SystemFault>
        ensures most { IfOk result (λ found. IfSome found (λ bytes. length bytes ≤ max)) }
        ensures looks { self.new.only_looks ≡ self.old.only_looks }
        ensures only { MayBeShort (answer_of result) }
    {
        match self.goes_on(name, at)? {
            None => Ok(None),
            Some(false) => Ok(Some(Bytes::new(alloc))),
            Some(true) => self.read_open(alloc, name, at, max),
        }
    }

    // Whether there may be bytes at the place; none where there is no such file. A file that is kept open
    // isn't looked at.
    fn goes_on(&self, name: &str, at: u64) -> Result<Option<bool>, SystemFault>
        ensures { MayBeShort (answer_of result) }
    {
        if is_named(&self.reading, name) {
            return Ok(Some(true));
        }
        match file_size(&self.rt, name)? {
            None => Ok(None),
            Some(size) if size < at => Err(SystemFault::Short { size }),
            Some(size) => Ok(Some(size > at)),
        }
    }

    // None where the file went behind the look at its length.
    fn read_open(
        &mut self,
        alloc: Global,
        name: &str,
        at: u64,
        max: u32,
    ) -> Result<Option<Bytes>, SystemFault>
        ensures most { IfOk result (λ found. IfSome found (λ bytes. length bytes ≤ max)) }
        ensures looks { self.new.only_looks ≡ self.old.only_looks }
        ensures only { MayBeShort (answer_of result) }
    {
        let Some(reader) = self.reader(alloc, name)? else {
            return Ok(None);
        };
        let bytes = reader.piece(alloc, at, max)?;
        self.reading = Some(reader);
        Ok(Some(bytes))
    }

    // The file to append to, taken from what is kept.
    fn writer(&mut self, alloc: Global, name: &str) -> Result<Kept, SystemFault>
        ensures name { IfOk result (λ kept. string_bytes kept.name ≡ name.now) }
        ensures same { self.new.unsettled ≡ self.old.unsettled }
        ensures only { MayFail (answer_of result) }
    {
        if let Some(kept) = self.writing.take() {
            if kept.name.as_str() == name {
                return Ok(kept);
            }
        }
        let kept_name = text(alloc, name)?;
        let file = OpenOptions::new().append(true).open(&self.rt, name)?;
        Ok(Kept::new(kept_name, file))
    }

    // The file to read, taken from what is kept, or else opened. None where there is no such file.
    fn reader(&mut self, alloc: Global, name: &str) -> Result<Option<Kept>, SystemFault>
        ensures name { IfOk result (λ found. IfSome found (λ kept. string_bytes kept.name ≡ name.now)) }
        ensures looks { self.new.only_looks ≡ self.old.only_looks }
        ensures only { MayFail (answer_of result) }
    {
        if let Some(kept) = self.reading.take() {
            if kept.name.as_str() == name {
                return Ok(Some(kept));
            }
        }
        let kept_name = text(alloc, name)?;
        match File::open(&self.rt, name) {
            Ok(file) => Ok(Some(Kept::new(kept_name, file))),
            Err(error) if error.kind() == ErrorKind::NotFound => Ok(None),
            Err(error) => Err(SystemFault::Failed(error)),
        }
    }

    /// Closes the file that was read last, where it is kept.
    pub(crate) fn stop_reading(&mut self)
        ensures reading { self.new.reading ≡ None }
        ensures looks { self.new.only_looks ≡ self.old.only_looks }
    {
        self.reading = None;
    }

    // Syncs the folder of the new file, but where the file is to be renamed. The calls that follow are then
    // its appends, its sync and its rename, which nobody sees before the rename. Where the machine stops
    // between them and the file is gone, it is as if the stop had come in the creation.
    fn settle_lasting(&mut self, name: &str) -> Result<(), SystemFault>
        ensures settled { OnOk result
            (self.new.unsettled ≡ (if is_temporary name.now then self.old.unsettled else None)) }
        ensures same { self.new.writing ≡ self.old.writing }
        ensures only { MayFail (answer_of result) }
    {
        if is_temporary(name) {
            return Ok(());
        }
        self.settle()
    }

    // Before a call on another file the folder of the new one is synced.
    fn settle_other(&mut self, name: &str) -> Result<(), SystemFault>
        ensures settled { OnOk result
            (IfSome self.new.unsettled (λ new_name. string_bytes new_name ≡ name.now)) }
        ensures only { MayFail (answer_of result) }
    {
        match &self.unsettled {
            Some(new_name) if new_name.as_str() != name => self.settle(),
            _ => Ok(()),
        }
    }

    // Behind a call on the new file that failed any other call may come.
    fn settle_failed(&mut self, given: Result<(), SystemFault>) -> Result<(), SystemFault>
        requires { MayFail (answer_of given) }
        ensures given { IsOk result ↔ IsOk given }
        ensures same { OnOk result (self.new ≡ self.old) }
        ensures only { MayFail (answer_of result) }
    {
        if given.is_err() {
            self.settle()?;
        }
        given
    }

    // Syncs the folder of the file that was created last, where it isn't synced yet.
    fn settle(&mut self) -> Result<(), SystemFault>
        ensures settled { OnOk result (self.new.unsettled ≡ None) }
        ensures err { OnErr result (self.new.unsettled ≡ self.old.unsettled) }
        ensures same { self.new.writing ≡ self.old.writing }
        ensures only { MayFail (answer_of result) }
    {
        if let Some(name) = &self.unsettled {
            sync_folder(&self.rt, name.as_str())?;
            self.unsettled = None;
        }
        Ok(())
    }

    // Closes the file of this name.
    fn forget(&mut self, name: &str)
        ensures writing { IsClosed self.old.writing self.new.writing name.now }
        ensures reading { IsClosed self.old.reading self.new.reading name.now }
        ensures mark { IfSome self.new.settled_mark (λ mark. string_bytes mark ≢ name.now) }
        ensures same { self.new.unsettled ≡ self.old.unsettled }
    {
        if is_named(&self.writing, name) {
            self.writing = None;
        }
        if is_named(&self.reading, name) {
            self.reading = None;
        }
        if self.has_settled(name) {
            self.settled_mark = None;
        }
    }
}

fn is_mark(name: &str) -> bool
    ensures { result ≡ is_mark name.now }
{
    name.as_bytes().ends_with(b".mark")
}

// The file is to be renamed.
fn is_temporary(name: &str) -> bool
    ensures { result ≡ is_temporary name.now }
{
    name.as_bytes().ends_with(b".tmp")
}

// The longest that a file of this process may become; where the system tells none there is no limit.
fn longest_file<R: Files>(rt: &R, alloc: Global) -> u64 {
    told_limit(rt, alloc).unwrap_or(u64::MAX)
}

// What the system tells of it.
fn told_limit<R: Files>(rt: &R, alloc: Global) -> Option<u64> {
    let file = File::open(rt, LIMITS).ok()?;
    let text = io::read_to_string(alloc, file).ok()?;
    limit_among(text.as_str())
}

// The limit of files among these lines.
fn limit_among(text: &str) -> Option<u64> {
    let line = text.lines().find(|line| line.starts_with(LIMIT_FRONT))?;
    line[LIMIT_FRONT.len()..]
        .split_whitespace()
        .next()?
        .parse()
        .ok()
}
