//! Laws of what is taken and kept.

ghost use Rattle.chk_archive_parts.specs.Cuts.{CutsAreParts};
ghost use Rattle.chk_archive_parts.specs.Kept.{OldAsidesAreWhole};

/// A law: what the passes over spans of heads take are the parts of the heads' chunks.
pub fn cuts_are_parts()
    ensures { CutsAreParts }
{}

/// A law: where the kept records are as many as the first file has, all of that file and at rising places, they are what it has.
pub fn old_asides_are_whole()
    ensures { OldAsidesAreWhole }
{}
