//! What a start and a tick do with the fields of the sinks.

ghost use Rattle.std.specs.Prelude.{◌≡◌, IsTrue};
ghost use Rattle.chk_bytes.specs.Stems.{is_collector, is_count};
ghost use Rattle.chk_site.specs.declared.acts.Role.TheVariants.{Collector};
ghost use Rattle.chk_sink.specs.Starting.{first_state};
ghost use Rattle.chk_sink.specs.Ticking.{is_due, seen_state};

use crate::current::has_passed;
use crate::sinks::Sinks;
use chk_site::Who;

/// A sink of so many bytes is closed.
const LARGE: u64 = 67_108_864;

impl Sinks {
    /// The sinks of a start that has published this number.
    pub(super) fn first(who: Who, born: u64, rotate: u64) -> Sinks
        requires role { who.role ≡ Collector }
        requires name { IsTrue (is_collector who.name) }
        requires born { IsTrue (is_count born) }
        ensures { result ≡ first_state who born rotate }
    {
        Sinks {
            who,
            born,
            number: 0,
            rotate,
            current: None,
            abandoned: true,
        }
    }

    /// A tick at this moment closes the sink that is written to.
    pub(super) fn is_due(&self, now: u64) -> bool
        ensures { result ≡ is_due now self.now }
    {
        let Some(current) = &self.current else {
            return false;
        };
        current.size >= LARGE || has_passed(current.first_seen(now), now, self.rotate)
    }

    /// The sink that is written to was seen by a tick at this moment.
    pub(super) fn see(&mut self, now: u64)
        ensures { self.new ≡ seen_state now self.old }
    {
        if let Some(current) = &self.current {
            self.current = Some(current.seen_at(now));
        }
    }
}
