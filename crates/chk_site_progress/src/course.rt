//! How far a look has come.

ghost use Rattle.std.specs.Prelude.{◌≡◌, string_bytes, IfOk};
ghost use Rattle.chk_site_progress.specs.Courses.{course_line, left_in, rate_of};

use chk_bytes::NoMemory;
use std::alloc::Global;

/// How many bytes a look has gone over, of about how many in all, in how many seconds.
#[derive(Clone, Copy, Debug, PartialEq, Eq)]
pub struct Course {
    pub gone: u64,
    /// What the files had when it began. It is passed where they grow, or are read again.
    pub all: u64,
    pub seconds: u64,
}

impl Course {
    /// Bytes a second; what began less than a second ago is taken as a second.
    fn rate(self) -> u64
        ensures { result ≡ rate_of self }
    {
        self.gone / self.seconds.max(1)
    }

    /// In how many seconds the rest is gone over at this rate; a byte a second at least.
    fn left(self) -> u64
        ensures { result ≡ left_in self }
    {
        self.all.saturating_sub(self.gone) / self.rate().max(1)
    }
}

/// `<gone> of <all> bytes, <rate> bytes/s, <seconds> s left`.
pub fn course_line(alloc: Global, course: Course) -> Result<String, NoMemory>
    ensures { IfOk result (λ line. string_bytes line ≡ course_line course) }
{
    let Course { gone, all, .. } = course;
    let rate = course.rate();
    let left = course.left();
    Ok(format!(in alloc; "{gone} of {all} bytes, {rate} bytes/s, {left} s left")?)
}
