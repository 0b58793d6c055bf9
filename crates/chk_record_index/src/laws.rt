//! Laws of files of chunks.

ghost use Rattle.chk_record_index.specs.Laws.{ChunksHaveNoDamage};

/// A law: a SequenceFile of which each record is a chunk is damaged nowhere. So a gathering answers `Damaged` for none.
pub fn chunks_have_no_damage()
    ensures { ChunksHaveNoDamage }
{}
