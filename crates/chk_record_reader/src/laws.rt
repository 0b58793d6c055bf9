//! Laws of records that are read back.

ghost use Rattle.chk_record_reader.specs.Laws.{HeadsStandForChunks};

/// A law: the chunks for which a file's heads stand, each with the value that stands at its place,
/// are the file's chunks.
pub fn heads_stand_for_chunks()
    ensures { HeadsStandForChunks }
{}
