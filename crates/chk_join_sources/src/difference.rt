//! Where two archives differ.

ghost use Rattle.std.specs.Prelude.{◌≡◌, IfOk, IfErr};
ghost use Rattle.chk_book.specs.Views.{end_view};
ghost use Rattle.chk_join_sources.specs.Differing.{difference_at};

use chk_book::End;
use chk_bytes::{NoMemory, Word};

/// A stream that both archives have, and where they differ.
#[derive(Drop)]
pub struct Difference {
    pub source: Word,
    pub kind: Word,
    pub name: Word,
    /// The lesser start where the starts aren't the same, else the first offset at which the bytes aren't.
    pub at: u64,
}

impl Difference {
    /// The end's stream differs there.
    pub(crate) fn of(end: &End, at: u64) -> Result<Difference, NoMemory>
        ensures { IfOk result (λ found. found ≡ difference_at (end_view end.now).stream at) }
    {
        Ok(Difference {
            source: end.source.copy()?,
            kind: end.kind.copy()?,
            name: end.name.copy()?,
            at,
        })
    }
}
