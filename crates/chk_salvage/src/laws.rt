//! What holds of the answers of this crate.

ghost use Rattle.chk_salvage.specs.Laws.{OneFront, FrontHasRecords, SalvageKeepsFront, SalvageSkipsDamage, RunGivesRecords};

/// A file has one longest sound front at most, and what is read of it are the records of that front.
pub fn law_front()
    ensures one { OneFront }
    ensures records { FrontHasRecords }
{}

/// What is salvaged are the records of the longest sound front, then the range from the damage to
/// the next sync entry, and so on from there.
pub fn law_salvage()
    ensures front { SalvageKeepsFront }
    ensures damage { SalvageSkipsDamage }
{}

/// However a file is cut into pieces, the same records are given.
pub fn law_pieces()
    ensures { RunGivesRecords }
{}
