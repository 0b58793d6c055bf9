//! What is known of a log.
ghost use Rattle.std.specs.Prelude.{◌≡◌, ◌≤◌, None, is_none, is_some, IfSome, option_map, string_bytes};
ghost use Rattle.chk_site_rotations.specs.Logs.{are_one, behind, behind_held, change, is_file, is_renamed, is_steady, same_file, still_held};

use crate::holding::{FileId, Generation, Holding};
use crate::passed::Passed;

/// What a look at a log showed.
#[derive(Clone, Copy, Debug, PartialEq, Eq)]
pub enum Change {
    /// Its base file has its name, or is there anew, or is gone.
    Nothing,
    /// Its base file was renamed, and stays the base file to its readers.
    Held,
    /// Another file has the log's name, and the one that had it is not its newest generation.
    Replaced,
}

/// What this process knows of a log.
#[derive(Drop)]
pub struct Log {
    pub path: String,
    /// The file that had the log's name at the last look.
    pub base: Option<FileId>,
    /// The file that is still the base file to readers, though it was renamed.
    pub held: Option<Holding>,
    /// The generation that a reader of the log passed last.
    pub passed: Option<Passed>,
}

impl Log {
    /// A log of which nothing is known yet.
    pub fn new(path: String) -> Log
        ensures path { result.path ≡ path }
        ensures base { result.base ≡ None }
        ensures held { result.held ≡ None }
        ensures passed { result.passed ≡ None }
    {
        Log {
            path,
            base: None,
            held: None,
            passed: None,
        }
    }

    /// The file that has the log's name now had it at the last look too, or neither is there, and none is
    /// held.
    pub fn is_steady(&self, named: Option<FileId>) -> bool
        ensures { result ≡ is_steady named self.now }
    {
        self.held.is_none() && are_one(self.base, named)
    }

    /// A look at a log of which no file is held. `named` has the log's name now, and `newest` is its
    /// newest generation. Where that is the file that had the name before, it is held from now on.
    pub fn look(&mut self, named: Option<FileId>, newest: Option<Generation>, now: u64) -> Change
        ensures log { self.new ≡ behind named newest now self.old }
        ensures change { result ≡ change named newest self.old }
    {
        if are_one(self.base, named) {
            return Change::Nothing;
        }
        match newest {
            Some(found) if is_file(self.base, found.file) => {
                self.held = Some(Holding::new(found, now));
                Change::Held
            }
            _ => {
                let is_other = self.base.is_some() && named.is_some();
                self.base = named;
                if is_other {
                    Change::Replaced
                } else {
                    Change::Nothing
                }
            }
        }
    }

    /// A look at a log of which a file is held. `found` is the size that this file has now, none where it
    /// isn't there any more under its new name, and `named` has the log's name. Whether it is still held.
    pub fn look_held(&mut self, found: Option<u64>, named: Option<FileId>, now: u64) -> bool
        ensures log { self.new ≡ behind_held found named now self.old }
        ensures held { result ≡ is_some (still_held found now self.old.held) }
    {
        self.held = still_held(found, now, self.held.take());
        if self.held.is_some() {
            return true;
        }
        self.base = named;
        false
    }
}

// What stays held of a file that has this size now, or isn't there.
fn still_held(found: Option<u64>, now: u64, held: Option<Holding>) -> Option<Holding>
    ensures { result ≡ still_held found now held }
{
    let (Some(size), Some(mut held)) = (found, held) else {
        return None;
    };
    held.look(size, now);
    if held.is_over(now) { None } else { Some(held) }
}

fn are_one(known: Option<FileId>, named: Option<FileId>) -> bool
    ensures { result ≡ are_one known named }
{
    match named {
        Some(file) => is_file(known, file),
        None => known.is_none(),
    }
}

fn is_file(known: Option<FileId>, file: FileId) -> bool
    ensures { result ≡ is_file known file }
{
    match known {
        Some(known) => is_same(known, file),
        None => false,
    }
}

fn is_same(a: FileId, b: FileId) -> bool
    ensures { result ≡ same_file a b }
{
    a.device == b.device && a.number == b.number
}
