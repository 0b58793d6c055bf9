//! A moment in the words of people.
ghost use Rattle.std.specs.Prelude.{◌≡◌, ◌*◌, pos, IfSome};
ghost use Rattle.jiff_core.specs.DateTime.{civil_nanos};

use jiff_core::civil::DateTime;
use std::fmt;
use std::fmt::{Display, Formatter};

/// A second of the world's time. It is printed as `2026-11-29T20:14:03Z`.
#[derive(Clone, Copy, Drop)]
pub struct Moment {
    pub at: DateTime,
}

impl Moment {
    /// So many seconds after 1970 began; none behind the year 9999.
    pub fn new(seconds: u64) -> Option<Moment>
        ensures { IfSome result (λ moment. civil_nanos moment.at ≡ pos (seconds * 1_000_000_000)) }
    {
        match DateTime::from_nanosecond(i128::from(seconds) * 1_000_000_000) {
            Ok(at) => Some(Moment { at }),
            Err(_) => None,
        }
    }
}

impl Display for Moment {
    fn fmt<W: fmt::Write>(&self, f: &mut Formatter<W>) -> fmt::Result {
        let date = self.at.date;
        let time = self.at.time;
        write!(f, "{:04}-{:02}-{:02}T", date.year, date.month, date.day)?;
        write!(f, "{:02}:{:02}:{:02}Z", time.hour, time.minute, time.second)
    }
}
