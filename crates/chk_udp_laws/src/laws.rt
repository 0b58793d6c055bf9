//! Laws of the definitions.

ghost use Rattle.chk_udp_laws.specs.Commands.{CommandsAreRuns};
ghost use Rattle.chk_udp_laws.specs.Laws.{MarkedGrows, MarkedSavesAll, SavedGrows, SavedIsMarked};
ghost use Rattle.chk_udp_laws.specs.Wholes.{RunsLeave, TurnsFindTidy};

/// At each front of such a history the files hold just what is saved, which is some of what was taken, in
/// its order, each taking once. It runs nothing.
pub fn law_saved_is_marked()
    ensures kept { SavedIsMarked }
{}

/// What is saved of a writer's datagrams only grows at its end, whatever the next step is. It runs
/// nothing.
pub fn law_saved_grows()
    ensures grows { SavedGrows }
{}

/// What the files hold at a front of such a history is at the front of what they hold later. It runs
/// nothing.
pub fn law_marked_grows()
    ensures grows { MarkedGrows }
{}

/// Where a run came to buffers whose mark says all of them, as behind a commit, nothing that it put waits
/// to be saved; where it came to no buffer, as behind a close, none is there. It runs nothing.
pub fn law_marked_saves_all()
    ensures saves { MarkedSavesAll }
{}

/// Each run of the command `udp` is such a run; where it was done, it came to no buffer. It runs nothing.
pub fn law_commands_are_runs()
    ensures runs { CommandsAreRuns }
{}

/// What the files show behind a run of the command `udp`. Where it was done they hold what they held, and
/// behind that just the payloads that it took, in order, each once; no buffer and no mark is left. It never
/// finds a damaged file. Where a number is wanting, the last one was taken, and no buffer is there. It runs
/// nothing.
pub fn law_runs_leave()
    ensures leaves { RunsLeave }
{}

/// Each taking of such a run that may wait 1,000 ms, as the first one of a turn does, finds no buffer; or
/// one whose mark says all of it, which is shorter than `rotate`, and then the one before it gave a
/// datagram. It runs nothing.
pub fn law_turns_find_tidy()
    ensures finds { TurnsFindTidy }
{}
