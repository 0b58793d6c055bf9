// What a stop leaves of the files.
ghost use Rattle.std.specs.Prelude.{◌≡◌, ◌++◌, ◌∷◌, [], OnOk, OnErr, IfOk, map, option_map};
ghost use Rattle.chk_site.specs.Acts.{deed, tail_of};
ghost use Rattle.chk_site.specs.Effect.{in_work, with_tail};
ghost use Rattle.chk_site_mem_store.specs.Stored.{file_in, Stores, tailed, middle_files};
ghost use Rattle.chk_site_mem_store.specs.Told.{fitted_left};

use crate::changes::{first, second, stopped, whole};
use crate::effects::change_files;
use crate::files::{Files, MemFile, find};
use crate::named::Named;
use crate::slices::front;
use chk_bytes::{Bytes, NoMemory};
use chk_site::{Act, Call, Left, Lefts};
use std::alloc::Global;

/// The files after a stop, and what it left, its tails cut to what the file model allows.
#[derive(Drop)]
pub struct AfterStop {
    pub files: Files,
    pub left: Lefts,
}

/// What a stop in this act leaves. The files as they were are copied once.
pub fn stop(
    alloc: Global,
    files: &[Named<MemFile>],
    act: &Act,
    left: &[Left],
) -> Result<AfterStop, NoMemory>
    ensures left { IfOk result (λ after. after.left ≡ map (fitted_left (deed act.now) (middle_files (deed act.now) left.now (file_in files.now))) left.now) }
    ensures files { IfOk result (λ after. Stores after.files.items
        (λ name. option_map (with_tail (tail_of after.left name)) (middle_files (deed act.now) left.now (file_in files.now) name))) }
{
    let mut after = copies(alloc, files)?;
    change_files(alloc, &mut after, stopped(left, whole(act)))?;
    let left = fit(alloc, &after, act, left)?;
    leave_tails(&mut after, left.as_slice())?;
    Ok(AfterStop { files: after, left })
}

fn copies(alloc: Global, files: &[Named<MemFile>]) -> Result<Files, NoMemory>
    ensures { IfOk result (λ copies. copies.items ≡ files.now) }
{
    let mut copies = Vec::new(alloc);
    for entry in files {
        copies.push(Named {
            name: entry.name.copy()?,
            value: MemFile {
                bytes: entry.value.bytes.copy()?,
                loose: entry.value.loose,
            },
        })?;
    }
    Ok(copies)
}

// The bytes that a stopped append was about to write to this file.
fn in_work(act: &Act, name: &[u8]) -> usize
    ensures { result ≡ in_work (deed act.now) name.now }
{
    let words = act.words.as_slice();
    match act.call {
        Call::Append if name == first(words) => second(words).len(),
        _ => 0,
    }
}

// What is left of a file, its tail cut to what was written past the synced bytes.
fn fit_one(
    alloc: Global,
    files: &[Named<MemFile>],
    act: &Act,
    left: &Left,
) -> Result<Left, NoMemory>
    ensures { IfOk result (λ fit. fit ≡ fitted_left (deed act.now) (file_in files.now) left.now) }
{
    let name = left.name.as_slice();
    let tail = match find(files, name) {
        None => left.tail.as_slice(),
        Some(file) => {
            let written = file.bytes.len() - file.synced();
            front(
                left.tail.as_slice(),
                written.saturating_add(in_work(act, name)),
            )
        }
    };
    Ok(Left {
        name: left.name.copy()?,
        tail: Bytes::from_slice(alloc, tail)?,
        whole: left.whole,
    })
}

fn fit(alloc: Global, files: &[Named<MemFile>], act: &Act, left: &[Left]) -> Result<Lefts, NoMemory>
    ensures { IfOk result (λ fit. fit ≡ map (fitted_left (deed act.now) (file_in files.now)) left.now) }
{
    let mut fitted = Lefts::new(alloc);
    for entry in left {
        fitted.push(fit_one(alloc, files, act, entry)?)?;
    }
    Ok(fitted)
}

// The tail that a stop leaves of this file.
fn tail_of<'a>(left: &'a [Left], name: &[u8]) -> Option<&'a [u8]>
    ensures { option_map (λ tail. tail.now) result ≡ tail_of left.now name.now }
{
    for entry in left {
        if name == entry.name.as_slice() {
            return Some(entry.tail.as_slice());
        }
    }
    None
}

fn leave_tails(files: &mut [Named<MemFile>], left: &[Left]) -> Result<(), NoMemory>
    ensures { OnOk result (files.new ≡ map (tailed left.now) files.old) }
{
    for entry in files.iter_mut() {
        leave_tail(entry, left)?;
    }
    Ok(())
}

fn leave_tail(entry: &mut Named<MemFile>, left: &[Left]) -> Result<(), NoMemory>
    ensures { OnOk result (entry.new ≡ tailed left.now entry.old) }
{
    if let Some(tail) = tail_of(left, entry.name.as_slice()) {
        let file = &mut entry.value;
        let synced = file.synced();
        file.bytes.truncate(synced);
        file.bytes.push_all(tail)?;
        file.loose = tail.len();
    }
    Ok(())
}
