// Files in memory, and what becomes of them. A call that has no memory changes nothing.
ghost use Rattle.std.specs.Prelude.{◌≡◌, OnOk, OnErr, option_map};
ghost use Rattle.chk_site.specs.Files.{changed, Created, Grown, Secured, Moved, Gone, Shortened};
ghost use Rattle.chk_site_mem_store.specs.Stored.{file_in, file_at, file_of, Stores, with_file, empty_file};

use crate::named::{Named, place};
use chk_bytes::{Bytes, NoMemory};
use std::alloc::Global;
use std::mem;

/// A file: its bytes, and how many of the last of them no sync has made sure of.
#[derive(Drop)]
pub struct MemFile {
    pub bytes: Bytes,
    pub loose: usize,
}

/// Files under their names.
pub type Files = Vec<Named<MemFile>>;

impl MemFile {
    /// A file without a byte.
    pub fn new(alloc: Global) -> MemFile
        ensures { file_of result ≡ empty_file }
    {
        MemFile {
            bytes: Bytes::new(alloc),
            loose: 0,
        }
    }

    /// How many of its bytes are synced.
    pub fn synced(&self) -> usize
        ensures { result ≡ (file_of self.now).synced }
    {
        self.bytes.len().saturating_sub(self.loose)
    }
}

/// The file of this name.
pub fn find<'a>(files: &'a [Named<MemFile>], name: &[u8]) -> Option<&'a MemFile>
    ensures { file_at result ≡ file_in files.now name.now }
{
    let at = place(files, name)?;
    Some(&files[at].value)
}

/// An empty file of this name, where there is none.
pub fn create(alloc: Global, files: &mut Files, name: &[u8]) -> Result<(), NoMemory>
    ensures ok { OnOk result (Stores files.new.items (changed (Created name.now) (file_in files.old.items))) }
    ensures err { OnErr result (files.new.items ≡ files.old.items) }
{
    if place(files, name).is_none() {
        files.push(Named {
            name: Bytes::from_slice(alloc, name)?,
            value: MemFile::new(alloc),
        })?;
    }
    Ok(())
}

/// A piece at the end of this file.
pub fn grow(files: &mut Files, name: &[u8], piece: &[u8]) -> Result<(), NoMemory>
    ensures ok { OnOk result (Stores files.new.items (changed (Grown name.now piece.now) (file_in files.old.items))) }
    ensures err { OnErr result (files.new.items ≡ files.old.items) }
{
    if let Some(at) = place(files, name) {
        let entry = &mut files[at];
        let synced = entry.value.synced();
        entry.value.bytes.push_all(piece)?;
        entry.value.loose = entry.value.bytes.len() - synced;
    }
    Ok(())
}

/// All bytes of this file are synced.
pub fn secure(files: &mut Files, name: &[u8])
    ensures { Stores files.new.items (changed (Secured name.now) (file_in files.old.items)) }
{
    if let Some(at) = place(files, name) {
        let entry = &mut files[at];
        entry.value.loose = 0;
    }
}

/// The first bytes of this file stay.
pub fn cut(files: &mut Files, name: &[u8], length: u64)
    ensures { Stores files.new.items (changed (Shortened name.now length) (file_in files.old.items)) }
{
    if let Some(at) = place(files, name) {
        let entry = &mut files[at];
        if length < entry.value.bytes.len() as u64 {
            let synced = entry.value.synced();
            entry.value.bytes.truncate(length as usize);
            entry.value.loose = (length as usize).saturating_sub(synced);
        }
    }
}

/// This file is there no more.
pub fn remove(files: &mut Files, name: &[u8])
    ensures { Stores files.new.items (changed (Gone name.now) (file_in files.old.items)) }
{
    files.retain(|entry| name != entry.name.as_slice());
}

/// The file has the new name, and the one of that name is there no more.
pub fn rename(alloc: Global, files: &mut Files, old: &[u8], new: &[u8]) -> Result<(), NoMemory>
    ensures ok { OnOk result (Stores files.new.items (changed (Moved old.now new.now) (file_in files.old.items))) }
    ensures err { OnErr result (files.new.items ≡ files.old.items) }
{
    if old == new || find(files, old).is_none() {
        return Ok(());
    }
    create(alloc, files, new)?;
    if let Some(file) = take(alloc, files, old) {
        put(files, new, file);
    }
    remove(files, old);
    Ok(())
}

// The file of this name, in whose place an empty one stays.
fn take(alloc: Global, files: &mut Files, name: &[u8]) -> Option<MemFile>
    ensures taken { option_map file_of result ≡ file_in files.old.items name.now }
    ensures left { Stores files.new.items (with_file name.now empty_file (file_in files.old.items)) }
{
    let at = place(files, name)?;
    let entry = &mut files[at];
    Some(mem::replace(&mut entry.value, MemFile::new(alloc)))
}

// This file in the place of the one of this name.
fn put(files: &mut Files, name: &[u8], file: MemFile)
    ensures { Stores files.new.items (with_file name.now (file_of file) (file_in files.old.items)) }
{
    if let Some(at) = place(files, name) {
        let entry = &mut files[at];
        entry.value = file;
    }
}
