//! What the words of the contracts come to.

ghost use Rattle.chk_ctl_cat.specs.Laws.{WantedIsArchive};

/// A law: what is wanted of a stream's chunks, which go on from each other from its start on, is its archive from the first
/// offset on that is wanted.
pub fn law_wanted()
    ensures { WantedIsArchive }
{}
