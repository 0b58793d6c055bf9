ghost use Rattle.chk_seqfile.specs.Laws.{HeaderIsFile, PieceAddsRecord, CutGivesWholeRecords, CutHeaderIsShort};

/// What is written is a file: the header, and then the pieces of a writer, each of which adds its
/// record at the end.
pub fn law_written_file()
    ensures header { HeaderIsFile }
    ensures piece { PieceAddsRecord }
{}

/// Of a file that is cut anywhere, just the whole records are left.
pub fn law_cut()
    ensures records { CutGivesWholeRecords }
    ensures header { CutHeaderIsShort }
{}
