//! What the newest segments have of a stream.

ghost use Rattle.chk_ctl_streams.specs.Laws.{NewestHaveTheRest};

/// A law: where a stream's chunks go on from each other, what is wanted of the newest segments, in
/// which they begin no later than what is wanted, is what is wanted of all. So what a look prints
/// of the newest segments is the archive of the stream.
pub fn law_newest()
    ensures { NewestHaveTheRest }
{}
