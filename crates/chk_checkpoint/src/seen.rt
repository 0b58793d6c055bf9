//! The names and streams that the lines so far have.

ghost use Rattle.std.specs.Prelude.{◌≡◌, ◌&&◌, ◌||◌, ℕ, List, not, bytes_eq, false, IfOk};
ghost use Rattle.std.specs.Bool.{OnTrue};
ghost use Rattle.chk_checkpoint.specs.Seen.{has_name, has_log};

use crate::line::LineRef;
use chk_bytes::NoMemory;
use std::alloc::Global;
use std::collections::BTreeSet;

/// The names of live adaptors, and the streams by their types and paths.
#[derive(Drop)]
pub(crate) struct Seen<'a> {
    names: BTreeSet<&'a [u8]>,
    logs: BTreeSet<(&'a [u8], &'a [u8])>,
}

impl<'a> Seen<'a> {
    pub(crate) fn new(alloc: Global) -> Seen<'a>
        ensures names { (name : List ℕ) → has_name result name ≡ false }
        ensures logs { (kind path : List ℕ) → has_log result kind path ≡ false }
    {
        Seen {
            names: BTreeSet::new(alloc),
            logs: BTreeSet::new(alloc),
        }
    }

    /// Adds the stream of a line, and its name where it is live, and says whether both are new.
    pub(crate) fn add(&mut self, line: &LineRef<'a>) -> Result<bool, NoMemory>
        ensures new { IfOk result (λ new. new
            ≡ not (has_log self.old line.now.kind.now line.now.path.now || (line.now.live && has_name self.old line.now.name.now))) }
        ensures names { IfOk result (λ new. OnTrue new ((name : List ℕ) → has_name self.new name
            ≡ (line.now.live && bytes_eq line.now.name.now name) || has_name self.old name)) }
        ensures logs { IfOk result (λ new. OnTrue new ((kind path : List ℕ) → has_log self.new kind path
            ≡ (bytes_eq line.now.kind.now kind && bytes_eq line.now.path.now path) || has_log self.old kind path)) }
    {
        if !self.logs.insert((line.kind, line.path))? {
            return Ok(false);
        }
        if line.live {
            return Ok(self.names.insert(line.name)?);
        }
        Ok(true)
    }
}
