//! A rotated generation that a reader passed, and bytes that come to it later.
ghost use Rattle.std.specs.Prelude.{◌≡◌, false};
ghost use Rattle.chk_site_rotations.specs.Passed.{come, is_due, seen_at};

use chk_site::Suffix;

/// So many milliseconds lie between two looks at a passed generation.
const BETWEEN: u64 = 1_000;

/// A generation that a reader passed.
#[derive(Drop)]
pub struct Passed {
    pub suffix: Suffix,
    /// Its size when it was passed, in bytes.
    pub size: u64,
    /// When it is looked at next, in milliseconds.
    pub next: u64,
    /// That bytes came later was told.
    pub told: bool,
}

impl Passed {
    /// It was passed with this size, and is looked at from this moment on.
    pub fn new(suffix: Suffix, size: u64, now: u64) -> Passed
        ensures suffix { result.suffix ≡ suffix }
        ensures size { result.size ≡ size }
        ensures next { result.next ≡ now }
        ensures told { result.told ≡ false }
    {
        Passed {
            suffix,
            size,
            next: now,
            told: false,
        }
    }

    /// It is time to look at it.
    pub fn is_due(&self, now: u64) -> bool
        ensures { result ≡ is_due now self.now }
    {
        !self.told && self.next <= now
    }

    /// It has this size now. How many bytes came since it was passed, the first time that there are any.
    pub fn look(&mut self, size: u64, now: u64) -> Option<u64>
        ensures came { result ≡ come size self.old }
        ensures seen { self.new ≡ seen_at size now self.old }
    {
        self.next = now.saturating_add(BETWEEN);
        if self.told || size <= self.size {
            return None;
        }
        self.told = true;
        Some(size - self.size)
    }
}
