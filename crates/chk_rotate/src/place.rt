// Places in a log that is rotated.
ghost use Rattle.std.specs.Prelude.{◌≡◌, ◌≤◌, IfOk, count_by, drop, length, nat_le};

use chk_bytes::NoMemory;
use chk_site::Suffix;

/// A place of a stream: `after` is the suffix of the last generation that was passed, `first` the
/// stream offset at which the next generation begins, and `offset` the stream offset of the next
/// byte.
#[derive(Drop)]
pub struct Place {
    pub after: Option<Suffix>,
    pub first: u64,
    pub offset: u64,
}

/// Where a generation begins: behind the one of this suffix, at this stream offset.
#[derive(Drop)]
pub(crate) struct Mark {
    pub(crate) after: Option<Suffix>,
    pub(crate) first: u64,
}

impl Mark {
    /// The place with this offset in its generation.
    pub(crate) fn place(&self, offset: u64) -> Result<Place, NoMemory>
        ensures { IfOk result (λ p.
            p ≡ record { after = self.now.after; first = self.now.first; offset = offset }) }
    {
        let after = match &self.after {
            Some(suffix) => Some(suffix.copy()?),
            None => None,
        };
        Ok(Place {
            after,
            first: self.first,
            offset,
        })
    }
}

/// How many of the marks begin at or below the offset.
pub(crate) fn known_to(marks: &[Mark], offset: u64) -> usize
    ensures { result ≡ count_by (λ m. nat_le m.first offset) marks.now }
{
    marks.iter().filter(|mark| mark.first <= offset).count()
}

/// Drops so many of the oldest marks.
pub(crate) fn drop_first(marks: &mut Vec<Mark>, count: usize)
    requires { count ≤ length marks.old.items }
    ensures { marks.new.items ≡ drop count marks.old.items }
{
    marks.rotate_left(count);
    marks.truncate(marks.len() - count);
}
