//! The folders that the files stand in.
ghost use Rattle.std.specs.Prelude.{◌≡◌, ◌≤◌, IsErr, IsSome};
ghost use Rattle.chk_site_errors.specs.Faults.{answer_of};
ghost use Rattle.chk_site_files.specs.Folders.{IsFolderOf, folder_before};
ghost use Rattle.chk_site.specs.Site.{MayFail, MayMiss};

use chk_site_errors::SystemFault;
use std::fs::{File, OpenFile, OpenOptions};
use std::io::ErrorKind;
use std::rt::Files;
use std::{fs, io};

/// The folders that are made at the start.
const FOLDERS: [&str; 6] = ["sinks", "agents", "archive", "demux", "joined", "wahead"];

/// The system's error for a folder in place of a file.
const IS_A_DIRECTORY: i32 = 21;

/// A folder that is there and whose names may not be on the disk.
#[derive(Clone, Copy, Drop)]
pub struct Unsettled {
    pub folder: &'static str,
    pub error: io::Error,
}

/// What became of the folders at the start.
#[derive(Clone, Copy, Drop)]
pub struct Folders {
    /// 1 where one of them can't be made or synced, else 0.
    pub faults: u64,
    /// One that can't be synced.
    pub unsettled: Option<Unsettled>,
}

/// Makes the folders that aren't there, and writes the names in each through to the disk: a rename that
/// an earlier process made and didn't sync stays from then on. The calls on the files of a folder that
/// can't be made fail by themselves.
pub fn make_folders<R: Files>(rt: &R) -> Folders
    ensures few { result.faults ≤ 1 }
    ensures counted { IsSome result.unsettled → result.faults ≡ 1 }
{
    let mut found = Folders {
        faults: 0,
        unsettled: None,
    };
    for folder in FOLDERS {
        found = with_folder(rt, folder, found);
    }
    found
}

// What became of the folders so far and this one.
fn with_folder<R: Files>(rt: &R, folder: &'static str, found: Folders) -> Folders
    requires few { found.faults ≤ 1 }
    requires counted { IsSome found.unsettled → found.faults ≡ 1 }
    ensures few { result.faults ≤ 1 }
    ensures counted { IsSome result.unsettled → result.faults ≡ 1 }
{
    if make_folder(rt, folder).is_err() {
        return Folders { faults: 1, ..found };
    }
    match settle_folder(rt, folder) {
        Ok(()) => found,
        Err(error) => Folders {
            faults: 1,
            unsettled: Some(Unsettled { folder, error }),
        },
    }
}

fn settle_folder<R: Files>(rt: &R, folder: &str) -> io::Result<()> {
    File::open(rt, folder)?.sync_all()
}

// Makes the folder where it isn't there. One that was made stays after a stop of the machine. Another
// process may make it first.
fn make_folder<R: Files>(rt: &R, folder: &str) -> Result<(), SystemFault>
    ensures { MayFail (answer_of result) }
{
    match fs::create_dir(rt, folder) {
        Ok(()) => sync_folder(rt, folder),
        Err(_) if is_folder(rt, folder) => Ok(()),
        Err(error) => Err(SystemFault::Failed(error)),
    }
}

/// Opens the file of this name to write, and makes it and its folder where they aren't there.
pub fn open_made<R: Files<File = File>>(rt: &R, name: &str) -> Result<File, SystemFault>
    ensures { MayFail (answer_of result) }
{
    make_folder(rt, folder_of(name))?;
    Ok(OpenOptions::new().write(true).create(true).open(rt, name)?)
}

/// A file that isn't there is missing only where its folder is there.
pub(crate) fn no_file<T, R: Files>(rt: &R, name: &str) -> Result<T, SystemFault>
    ensures refused { IsErr result }
    ensures only { MayMiss (answer_of result) }
{
    if is_folder(rt, folder_of(name)) {
        Err(SystemFault::Missing)
    } else {
        Err(SystemFault::failed(ErrorKind::NotFound, "its folder is not there"))
    }
}

// There is a folder of this name.
fn is_folder<R: Files>(rt: &R, name: &str) -> bool {
    match fs::metadata(rt, name) {
        Ok(found) => found.is_dir(),
        Err(_) => false,
    }
}

/// The folder that a file of this name stands in.
pub(crate) fn folder_of(name: &str) -> &str
    ensures { IsFolderOf name.now result.now }
{
    match name.rfind('/') {
        Some(slash) => folder_before(&name[..slash]),
        None => ".",
    }
}

// The folder, of what stands before its slash.
fn folder_before(front: &str) -> &str
    ensures { result.now ≡ folder_before front.now }
{
    if front.is_empty() { "/" } else { front }
}

/// Writes the names in the folder of the file of this name through to the disk.
pub(crate) fn sync_folder<R: Files>(rt: &R, name: &str) -> Result<(), SystemFault>
    ensures { MayFail (answer_of result) }
{
    Ok(settle_folder(rt, folder_of(name))?)
}

/// The length of the file of this name, none where there is no such file.
pub(crate) fn file_size<R: Files>(rt: &R, name: &str) -> Result<Option<u64>, SystemFault>
    ensures { MayFail (answer_of result) }
{
    match fs::metadata(rt, name) {
        Ok(found) if found.is_file() => Ok(Some(found.len())),
        Ok(found) if found.is_dir() => {
            Err(SystemFault::Failed(io::Error::from_raw_os_error(IS_A_DIRECTORY)))
        }
        Ok(_) => Err(SystemFault::failed(ErrorKind::InvalidInput, "it is not a file")),
        Err(error) if error.kind() == ErrorKind::NotFound => Ok(None),
        Err(error) => Err(SystemFault::Failed(error)),
    }
}
