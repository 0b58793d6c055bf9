//! Laws of the verdicts.

ghost use Rattle.chk_ctl_passed.specs.Laws.{PassedIsBehind};

/// Where a verdict is `Passed` and a rotated generation is there, each line of the log has read
/// that generation to its end, and with it each generation that comes before it. It runs nothing.
pub fn law_passed()
    ensures passed { PassedIsBehind }
{}
