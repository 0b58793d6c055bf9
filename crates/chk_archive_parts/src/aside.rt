//! Whether what is set aside is what was before.

ghost use Rattle.std.specs.Prelude.{◌≡◌, length, count_by};
ghost use Rattle.chk_archive_parts.specs.Cuts.{AreWithin};
ghost use Rattle.chk_archive_parts.specs.Kept.{is_first, are_old_aside};

use crate::cuts::Cut;
use chk_record_index::Heads;

/// How many heads are of the first file.
pub fn count_first(heads: &Heads) -> usize
    ensures { result ≡ count_by is_first heads.now }
{
    let mut count = 0;
    for index in 0..heads.len() {
        if heads.get(index).file == 0 {
            count += 1;
        }
    }
    count
}

/// The cuts are whole records of the first file, at rising places, and so many.
pub fn is_old_aside(heads: &Heads, count: usize, cuts: &[Cut]) -> bool
    requires { AreWithin (length heads.now) cuts.now }
    ensures { result ≡ are_old_aside heads.now count cuts.now }
{
    if cuts.len() != count {
        return false;
    }
    let mut last = 0;
    for cut in cuts {
        let head = heads.get(cut.index as usize);
        if head.file != 0 || cut.skip != 0 || head.at <= last {
            return false;
        }
        last = head.at;
    }
    true
}
