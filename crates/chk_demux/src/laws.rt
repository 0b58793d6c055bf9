//! Laws of demultiplexed records.

ghost use Rattle.chk_demux.specs.Laws.{RecordsAreTheSplit};

/// A law: at every moment of a legal history the demultiplexed records of each stream are the first ones of the split of its
/// archive. It runs nothing.
pub fn records_are_the_split()
    ensures { RecordsAreTheSplit }
{}
