//! The names in a folder.
ghost use Rattle.std.specs.Prelude.{IfOk};
ghost use Rattle.chk_site.specs.Site.{MayFail};
ghost use Rattle.chk_site_listings.specs.Names.{IsInOrder};
ghost use Rattle.chk_site_errors.specs.Faults.{answer_of};

use crate::stamps::Stamp;
use chk_bytes::{NoMemory, Word, WordFault};
use chk_site::is_suffix;
use chk_site_errors::{SystemFault, make_room};
use std::alloc::Global;
use std::io::{ErrorKind, Read};
use std::rt::Files;

/// Which names of a folder are asked for.
#[derive(Clone, Copy)]
pub enum Wanted {
    All,
    /// Those that may be a rotated generation's.
    Rotated,
}

/// How often a folder that changed meanwhile is listed again.
const MORE_TRIES: u32 = 3;

// The names of a folder, and how many calls gave some.
#[derive(Drop)]
struct Listed {
    names: Vec<Word>,
    calls: u64,
}

/// The names in this folder that are words, in byte order; none where there is no such folder.
pub fn sorted_names<R: Files>(rt: &R, alloc: Global, folder: &str) -> Result<Vec<Word>, SystemFault>
    ensures in_order { IfOk result (λ names. IsInOrder names.items) }
    ensures only { MayFail (answer_of result) }
{
    let mut buffer = Vec::new(alloc);
    make_room(&mut buffer)?;
    names_in(rt, alloc, folder, Wanted::All, &mut buffer)
}

/// Those that are asked for, in byte order. The system gives them through the buffer. What it gives in one
/// call is of one moment; what took more calls is asked for again where the folder changed meanwhile, up to
/// three times.
pub fn names_in<R: Files>(
    rt: &R,
    alloc: Global,
    folder: &str,
    wanted: Wanted,
    buffer: &mut [u8],
) -> Result<Vec<Word>, SystemFault>
    ensures in_order { IfOk result (λ names. IsInOrder names.items) }
    ensures only { MayFail (answer_of result) }
{
    for _ in 0..MORE_TRIES {
        let before = Stamp::of(rt, folder);
        let listed = names_once(rt, alloc, folder, wanted, buffer)?;
        if listed.calls <= 1 || before == Stamp::of(rt, folder) {
            return Ok(listed.names);
        }
    }
    Ok(names_once(rt, alloc, folder, wanted, buffer)?.names)
}

fn names_once<R: Files>(
    rt: &R,
    alloc: Global,
    folder: &str,
    wanted: Wanted,
    buffer: &mut [u8],
) -> Result<Listed, SystemFault>
    ensures in_order { IfOk result (λ listed. IsInOrder listed.names.items) }
    ensures only { MayFail (answer_of result) }
{
    let mut listed = Listed {
        names: Vec::new(alloc),
        calls: 0,
    };
    if let Some(mut folder) = open_folder(rt, alloc, folder)? {
        read_names(alloc, &mut folder, wanted, buffer, &mut listed)?;
    }
    put_in_order(&mut listed.names);
    Ok(listed)
}

fn put_in_order(names: &mut Vec<Word>)
    ensures { IsInOrder names.new.items }
{
    names.sort_unstable_by(|a, b| a.as_str().cmp(b.as_str()));
}

fn read_names<D: Read>(
    alloc: Global,
    folder: &mut D,
    wanted: Wanted,
    buffer: &mut [u8],
    listed: &mut Listed,
) -> Result<(), SystemFault>
    ensures { MayFail (answer_of result) }
{
    for _ in 0..u64::MAX {
        let count = folder.read(buffer)?;
        if count == 0 {
            break;
        }
        listed.calls = listed.calls.saturating_add(1);
        push_names(alloc, &buffer[..count], wanted, &mut listed.names)?;
    }
    Ok(())
}

// The slash makes the system follow a link to a folder.
fn open_folder<R: Files>(rt: &R, alloc: Global, folder: &str) -> Result<Option<R::Dir>, SystemFault>
    ensures { MayFail (answer_of result) }
{
    let path = with_slash(alloc, folder)?;
    match rt.open_dir(path.as_str()) {
        Ok(folder) => Ok(Some(folder)),
        Err(error) if error.kind() == ErrorKind::NotFound => Ok(None),
        Err(error) => Err(SystemFault::Failed(error)),
    }
}

fn with_slash(alloc: Global, folder: &str) -> Result<String, NoMemory> {
    let mut path = String::from_str(alloc, folder)?;
    path.push('/')?;
    Ok(path)
}

// Each of the names is ended by a NUL.
fn push_names(
    alloc: Global,
    names: &[u8],
    wanted: Wanted,
    found: &mut Vec<Word>,
) -> Result<(), NoMemory> {
    let mut rest = names;
    for _ in 0..names.len() {
        let Some(end) = rest.iter().position(|b| *b == 0) else {
            break;
        };
        push_name(alloc, &rest[..end], wanted, found)?;
        rest = &rest[end + 1..];
    }
    Ok(())
}

fn push_name(
    alloc: Global,
    name: &[u8],
    wanted: Wanted,
    found: &mut Vec<Word>,
) -> Result<(), NoMemory> {
    if !is_wanted(name, wanted) {
        return Ok(());
    }
    match Word::new(alloc, name) {
        Ok(name) => {
            found.push(name)?;
            Ok(())
        }
        Err(WordFault::NoMemory) => Err(NoMemory),
        Err(_) => Ok(()),
    }
}

fn is_wanted(name: &[u8], wanted: Wanted) -> bool {
    match wanted {
        Wanted::All => name != b".".as_slice() && name != b"..".as_slice(),
        Wanted::Rotated => has_suffix(name),
    }
}

// Some end of the name is the suffix of a rotated generation.
fn has_suffix(name: &[u8]) -> bool {
    for at in 0..name.len() {
        if is_suffix(&name[at..]) {
            return true;
        }
    }
    false
}
