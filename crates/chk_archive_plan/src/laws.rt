//! Laws of plans.

ghost use Rattle.chk_archive_plan.specs.Laws.{PlansGive, PassesReach, PlansMayBePublished, FoundMayGo, PlansAreRuns};

/// A law: the spans of heads in order give the parts of the chunks that were found, the chunks past their streams' ends, and
/// these ends.
pub fn plans_give()
    ensures { PlansGive }
{}

/// A law: the pass over what was found, in order, reaches for each stream the greatest end without a gap.
pub fn passes_reach()
    ensures { PassesReach }
{}

/// A law: a book that names the parts of a pass may be published.
pub fn plans_may_be_published()
    ensures { PlansMayBePublished }
{}

/// A law: once it is published, each done sink of which all chunks were found may be removed.
pub fn found_may_go()
    ensures { FoundMayGo }
{}

/// A law: what stands at the end of a run makes it an archive run with these numbers.
pub fn plans_are_runs()
    ensures { PlansAreRuns }
{}
