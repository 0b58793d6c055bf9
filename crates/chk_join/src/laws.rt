//! Laws of the join of archives.

ghost use Rattle.chk_join.specs.Laws.{JoinLaws};

/// The laws of the join of archives: it is idempotent, and among archives of which each two agree commutative and associative;
/// prefixes of the same logs agree, and the join of two prefixes is one. It runs nothing.
pub fn law_join()
    ensures { JoinLaws }
{}
