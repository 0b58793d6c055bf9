//! A renamed file that is still a log's base file to its readers.
ghost use Rattle.std.specs.Prelude.{◌≡◌};
ghost use Rattle.chk_site_rotations.specs.Holdings.{held_from, is_over, looked};

use chk_site::Suffix;

/// A renamed file that has not grown for so many milliseconds is shown as rotated.
pub const QUIET: u64 = 3_000;

/// So many milliseconds after it was found renamed, each file is shown as rotated.
pub const LONGEST: u64 = 60_000;

/// A file, whatever its name.
#[derive(Clone, Copy, PartialEq, Eq)]
pub struct FileId {
    pub device: u64,
    pub number: u64,
}

/// A rotated generation of a log, as it was found.
#[derive(Drop)]
pub struct Generation {
    pub suffix: Suffix,
    pub file: FileId,
    /// In bytes.
    pub size: u64,
}

/// A renamed file that is still a log's base file to its readers. Moments are milliseconds of a clock that
/// doesn't go back.
#[derive(Drop)]
pub struct Holding {
    /// What its name has behind the log's.
    pub suffix: Suffix,
    pub file: FileId,
    /// When it was found renamed.
    pub since: u64,
    /// When its size was last another than at the look before.
    pub grown: u64,
    /// Its size at the last look, in bytes.
    pub size: u64,
}

impl Holding {
    /// The file was found renamed at this moment.
    pub fn new(found: Generation, now: u64) -> Holding
        ensures { result ≡ held_from found now }
    {
        Holding {
            suffix: found.suffix,
            file: found.file,
            since: now,
            grown: now,
            size: found.size,
        }
    }

    /// At this moment the file has this size.
    pub fn look(&mut self, size: u64, now: u64)
        ensures { self.new ≡ looked size now self.old }
    {
        if size != self.size {
            self.size = size;
            self.grown = now;
        }
    }

    /// The file is shown as rotated from this moment on.
    pub fn is_over(&self, now: u64) -> bool
        ensures { result ≡ is_over now self.now }
    {
        now.saturating_sub(self.grown) >= QUIET || now.saturating_sub(self.since) >= LONGEST
    }
}
