//! What a collector, an agent, a job and a writer of logs may do next, and which histories are
//! legal. Definitions in `specs/`, and their laws.
#![tactic(auto)]

ghost use Rattle.chk_world.specs.DoneSinks.{ClosedAreDone, DoneSinksStay};
ghost use Rattle.chk_world.specs.Laws.{AcknowledgedIsSaved, ArchivesAreFronts, ArchivesOnlyGrow, CheckpointsMoveOn};
ghost use Rattle.chk_world.specs.Laws.{CheckpointsAreSaved, CommitsAfterAppend, RunsCoverCheckpoints};
ghost use Rattle.chk_world.specs.Laws.{KeptAreTrue, ReportsAreTrue};
ghost use Rattle.chk_world.specs.Laws.{KeptStaysKept, LogsOnlyGrow, NamedSegmentsAreSound, OwnFilesAreRead};
ghost use Rattle.chk_world.specs.Laws.{PassedIsAcknowledged, ReachedIsSaved, RunsTakeAllSaved, SinksHaveShape};
ghost use Rattle.chk_world.specs.NamedEnds.{NamedEndsAreCommitted};
ghost use Rattle.chk_world.specs.Places.{OthersLeavePlaces};
ghost use Rattle.chk_world.specs.Reading.{ChunksStand, GenerationsRise, ReadsFindEnd, ReadsGiveLog};
ghost use Rattle.chk_world.specs.Rounds.{RoundsAreWhole};
ghost use Rattle.chk_world.specs.Standing.{LinesStand, PlacesStand};
ghost use Rattle.chk_world.specs.Sight.{OthersLeaveSight};
ghost use Rattle.chk_world.specs.Spelled.{BooksAreRead, CheckpointsAreRead, NamesAreRead};
ghost use Rattle.chk_world.specs.TrueBooks.{ArchivesRun, BooksStayTrue};

/// A law: each name of the program's is read back from its text, and each text is spelled as it is
/// read.
pub fn names_are_read()
    ensures { NamesAreRead }
{}

/// A law: each checkpoint and each book that can be spelled is read back, only what spells one is read, and what
/// can be spelled can be in the version that is written.
pub fn checkpoints_and_books_are_read()
    ensures checkpoints { CheckpointsAreRead }
    ensures books { BooksAreRead }
{}

/// A law: what the files of a sink look like in every legal history. In particular the program's
/// own numbers are never damaged there, and each record of a done sink is a chunk.
pub fn law_shape()
    ensures { SinksHaveShape }
{}

/// A law: a committed length is there only after the append that it tells of.
pub fn commits_after_append()
    ensures { CommitsAfterAppend }
{}

/// A law: in every legal history each checkpoint and each book that is there is whole, and is read.
pub fn own_files_are_read()
    ensures { OwnFilesAreRead }
{}

/// A law: each legal step keeps the log of every stream, over rotations and deletions too, and may only add
/// to its end.
pub fn logs_only_grow()
    ensures { LogsOnlyGrow }
{}

/// A law: a place of a stream's log that is true, and at which a reader may stop, stays so over every legal step, over
/// rotations and deletions too.
pub fn places_stand()
    ensures { PlacesStand }
{}

/// A law: in every legal history each line of a checkpoint has a true place at which a reader may stop, and who reads
/// on from there is shown all of the stream's log behind it and nothing else.
pub fn lines_stand()
    ensures { LinesStand }
{}

/// A law: in every legal history the suffixes of a path's generations rise.
pub fn generations_rise()
    ensures { GenerationsRise }
{}

/// A law: a read at a true place at or past a checkpoint's line gives the stream's log from there on.
pub fn reads_give_log()
    ensures { ReadsGiveLog }
{}

/// A law: where a read at a true place at or past a checkpoint's line ends no generation, and no place comes behind its
/// own among the bytes asked for at which the reader may stop, the stream's whole log ends at that place.
pub fn reads_find_end()
    ensures { ReadsFindEnd }
{}

/// A law: a true chunk that ends where a reader may stop stays so over every legal step.
pub fn chunks_stand()
    ensures { ChunksStand }
{}

/// A law: no legal step loses a stream's line of a checkpoint, changes its class or start, or moves it back.
pub fn checkpoints_move_on()
    ensures { CheckpointsMoveOn }
{}

/// A law: in every legal history each segment that a book names is there with its length, all synced,
/// and a SequenceFile of chunks.
pub fn named_segments_are_sound()
    ensures { NamedSegmentsAreSound }
{}

/// A law: in every legal history each book names synced segments, has each stream that they have a record of, and says
/// where its records begin and end.
pub fn books_stay_true()
    ensures { BooksStayTrue }
{}

/// A law: in every legal history the archive's records of a stream run from its start to its end without a gap.
pub fn archives_run()
    ensures { ArchivesRun }
{}

/// A law: every legal step but the job's removal of it leaves a done sink as it is, and one that is gone stays gone.
pub fn done_sinks_stay()
    ensures { DoneSinksStay }
{}

/// A law: in every legal history each file of the sinks whose name ends in `.done` is the done sink of a stem.
pub fn closed_are_done()
    ensures { ClosedAreDone }
{}

/// A law: a step of others leaves what the job sees: its last listing, its own files and the listed done sinks.
pub fn others_leave_sight()
    ensures { OthersLeaveSight }
{}

/// A law: no legal step loses what a kept chunk covers, but where it is archived.
pub fn law_kept()
    ensures { KeptStaysKept }
{}

/// A law: each legal step keeps the archive of every stream, and may only add to its end.
pub fn archives_only_grow()
    ensures { ArchivesOnlyGrow }
{}

/// A law: in every legal history the archive of each stream is a front of its log.
pub fn law_prefix()
    ensures { ArchivesAreFronts }
{}

/// A law: each offset that a checkpoint has passed was acknowledged to the stream's agent.
pub fn passed_is_acknowledged()
    ensures { PassedIsAcknowledged }
{}

/// A law: once the committed length of a sink has reached the end of a chunk in it, what the chunk covers is kept
/// or archived from then on.
pub fn reached_is_saved()
    ensures { ReachedIsSaved }
{}

/// A law: what is acknowledged to the agent of a stream is kept or archived.
pub fn acknowledged_is_saved()
    ensures { AcknowledgedIsSaved }
{}

/// A law: where all of each sink under writing of a collector is committed, as it is after a tick that was done, each
/// end that the collector named in a good reply to a post is at or below its sink's committed length, or was until the
/// job removed the done sink. Excepted are sinks that the collector cut or removed while they were under writing, as
/// it does with one that it abandoned after a failure or as too large, and those behind a stop that named a file of it.
pub fn named_ends_are_committed()
    ensures { NamedEndsAreCommitted }
{}

/// A law: in every legal history each byte below each checkpoint is kept or archived.
pub fn checkpoints_are_saved()
    ensures { CheckpointsAreSaved }
{}

/// A law: in every legal history each chunk that is kept, is in a done sink or is set aside holds what the log of its
/// stream has at its offsets.
pub fn kept_are_true()
    ensures { KeptAreTrue }
{}

/// A law: each report that the job prints is that of the run that began with its last listing, and where that showed
/// no sink under writing the run is complete.
pub fn reports_are_true()
    ensures { ReportsAreTrue }
{}

/// A law: after a complete archive run the archive holds all that was kept or archived at its listing, up to the
/// first gap.
pub fn runs_take_all_saved()
    ensures { RunsTakeAllSaved }
{}

/// A law: after a complete archive run the archive holds every byte up to each checkpoint, as that stood at the
/// listing.
pub fn law_covered()
    ensures { RunsCoverCheckpoints }
{}

/// A law: after a round of a stream the archive is the whole log that was read, byte for byte.
pub fn law_round()
    ensures { RoundsAreWhole }
{}

/// A law: what a collector, an agent or the job sees, and its own files, stay as they are over each
/// step of others that obeys its rule and is no stop that names a file of it.
pub fn others_leave_places()
    ensures { OthersLeavePlaces }
{}
