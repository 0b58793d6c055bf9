//! Worked histories and steps: that no premise of `chk_world`'s laws is empty, and that its rules refuse what they are
//! there to refuse. Nothing stands on this crate.
#![tactic(auto)]

ghost use Rattle.chk_world_examples.specs.Agents.{AgentStepsAreRefused};
ghost use Rattle.chk_world_examples.specs.Archives.{ArchivesAreRefused};
ghost use Rattle.chk_world_examples.specs.Books.{BooksAreRefused};
ghost use Rattle.chk_world_examples.specs.Collectors.{CollectorStepsAreRefused};
ghost use Rattle.chk_world_examples.specs.Examples.{NoPremiseIsEmpty};
ghost use Rattle.chk_world_examples.specs.Jobs.{JobStepsAreRefused};
ghost use Rattle.chk_world_examples.specs.Lines.{LinesAreRefused};
ghost use Rattle.chk_world_examples.specs.Parts.{PartsAreRefused};
ghost use Rattle.chk_world_examples.specs.Posts.{PostsAreRefused};
ghost use Rattle.chk_world_examples.specs.Processes.{StepsOfAnyAreRefused};
ghost use Rattle.chk_world_examples.specs.Rows.{WorkedRows};
ghost use Rattle.chk_world_examples.specs.SevenRules.{SevenRules};
ghost use Rattle.chk_world_examples.specs.Splits.{SplitsAreRefused};
ghost use Rattle.chk_world_examples.specs.Writers.{TurnsAreRefused};

/// A law: there is a legal history of a whole round, from a collector's start to the removal of an archived sink and the
/// report of that run; at its middle the log is kept and not yet acknowledged, and later it is. There is one in which a
/// stop leaves a false tail that the next start cuts off, and one in which a log with a start above 0 is read over a
/// rotation, a chunk is set aside and archived later, and the archive is split. Others act at the places of a collector,
/// an agent and the job.
pub fn no_premise_is_empty()
    ensures { NoPremiseIsEmpty }
{}

/// A law: each of these steps is refused for one part of what it owes and for no other, and beside each stands one that
/// differs in that part and is allowed.
pub fn steps_are_refused_alone()
    ensures collectors { CollectorStepsAreRefused }
    ensures agents { AgentStepsAreRefused }
    ensures jobs { JobStepsAreRefused }
    ensures any { StepsOfAnyAreRefused }
{}

/// A law: so it is for the parts of which a checkpoint's line, a post, a part of an archive, a book and a rotation consist.
pub fn pieces_are_refused_alone()
    ensures lines { LinesAreRefused }
    ensures posts { PostsAreRefused }
    ensures parts { PartsAreRefused }
    ensures books { BooksAreRefused }
    ensures archives { ArchivesAreRefused }
    ensures splits { SplitsAreRefused }
    ensures turns { TurnsAreRefused }
{}

/// A law: these numbers and texts are spelled, read and made as the worked rows say.
pub fn worked_rows_hold()
    ensures { WorkedRows }
{}

/// A law: of each of seven rules that are easily drawn too wide or too narrow there is a step that it allows, and beside
/// that one that it refuses.
pub fn seven_rules_hold_both_ways()
    ensures { SevenRules }
{}
