//! Laws of splitters.
ghost use Rattle.chk_demux_split.specs.Laws.{FeedsSplit, SplitIsPieces, SplitGoesOn, SplitGrows};

/// A law: however a stream's bytes are cut into feeds, the records that were given are the split of
/// all that was fed, and what is held is the rest of it. It runs nothing.
pub fn feeds_split()
    ensures { FeedsSplit }
{}

/// A law: a stream's split goes on from the end of any of its records as the split of the rest, and
/// its first records stay as the stream grows. It runs nothing.
pub fn split_goes_on()
    ensures pieces { SplitIsPieces }
    ensures behind { SplitGoesOn }
    ensures grows { SplitGrows }
{}
