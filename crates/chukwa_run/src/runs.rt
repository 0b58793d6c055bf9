//! A run of the program.

ghost use Rattle.std.specs.Prelude.{◌≡◌, ◌≢◌, ◌⊎◌, ◌≤◌, ℕ, List, map, Contains, Some, None};
ghost use Rattle.chk_site.specs.History.{History};
ghost use Rattle.chk_site.specs.Site.{Adds, Rose};
ghost use Rattle.chk_site.specs.Runs.{Leads};
ghost use Rattle.chk_cmd_line.specs.Asked.{asked};
ghost use Rattle.chk_cmd_line.specs.Commands.{Asked};
ghost use Rattle.chk_cmd_line.specs.Usages.{usage_line};
ghost use Rattle.chukwa_run.specs.Complete.{Completes};
ghost use Rattle.chukwa_run.specs.Demuxing.{SuitsTypes};
ghost use Rattle.chukwa_run.specs.Headline.{Headline};
ghost use Rattle.chukwa_run.specs.Processes.{RunSide};
ghost use Rattle.chukwa_run.specs.Runs.{Begins, Ends, Caused, SaysUsage};
ghost use Rattle.chukwa_run.specs.Saying.{SaysEnding, IsOutsideEnd};
ghost use Rattle.chukwa_run.specs.Statuses.{statuses_of};

use crate::commanding::run_command;
use crate::saying::{say_ending, say_usage};
use chk_agent::Hashing;
use chk_cmd_line::{Ending, WordsFault, read_words, usage_of};
use chk_site::Site;
use std::alloc::Global;

/// Runs the command that the words behind the program's name ask for, and answers the status with
/// which the program ends: 0 where all was done, 2 where the words ask for nothing, 3 where a call on
/// the outside failed, 4 for want of memory, 5 where a file isn't in its grammar, 6 where something
/// is pending, 7 where a log is shorter than what was read of it, 8 where a number is the last one
/// and another was to follow, 9 where all collectors refused, or a reply inside the process
/// wasn't the one that was made, and 11 where two archives differ. Each status but 0 has a line on
/// standard output; where that can't be printed, the status stays.
///
/// `round [--class CLASS] [--reads N] SOURCE TYPE LOG...` runs the agent SOURCE, the collector `c1` and the
/// archive job once in one process. Each LOG that isn't live is added, each live log is read until it gives nothing, and what
/// they gave is delivered and archived. It prints `stream SOURCE <type> <log> <offset>` for each live adaptor, and then
/// `archive unclosed <n> taken <n> held <n> removed <n>`. A sink of another collector under writing is told behind these lines.
///
/// `agent [--initial FILE] [--control ADDRESS] [--turns N] [--poll MS] [--expire MS] SOURCE COLLECTOR...` starts
/// the agent SOURCE, adds the streams of FILE, and in each turn does what the messages at its control door ask for, reads its
/// logs, posts and polls, settles, and pauses for 200 ms, or `--pause` where a log gave a full piece of 131,072 bytes.
///
/// `collector [--rotate MS] [--turns N] NAME ADDRESS` starts the collector NAME, and in each turn takes at most
/// `--messages` messages at ADDRESS (1 by default), the first one within 1,000 ms, answers each before it takes the next, asks the
/// clock and ticks, which commits all of them. At its end it closes its sink.
///
/// `drain [--initial FILE] [--reads N] [--polls N] SOURCE COLLECTOR...` starts the
/// agent SOURCE, adds the streams of FILE, reads each log to its end, posts what they gave, polls
/// every 1,000 ms until all of it is committed, and prints a line `stream SOURCE TYPE LOG <bytes>`
/// for each stream.
///
/// `archive` runs the archive job once. It takes what is new of each stream from the closed sinks and removes these, and prints
/// `archive unclosed <n> taken <n> held <n> removed <n>` and a line `end <source> <type> <name> <n>` for each stream of the archive.
///
/// `demux [TYPE...]` runs the demux job once: it splits what the archive has of each stream into records, those of the types by time
/// stamps and all others by lines, adds the complete ones to `demux`, and prints `demux taken <n> entries <n> left <n>`.
///
/// `salvage FILE` reads the SequenceFile FILE whole into memory, and prints a line `entry <at> <end> <source> <type> <name> <seq>`
/// for each record of a chunk, `other <at> <end>` for any other one, and `skipped <begin> <end>` for what can't be read. A
/// file that isn't there counts as empty, and its header is refused.
///
/// `--cluster NAME` is taken too, by `round`, `agent` and `drain`: the cluster of all chunks that the
/// agent sends.
///
/// `load N` appends N generated lines to the logs `load.0.log`, `load.1.log` and `load.2.log`, and takes them to the archive by a
/// round of the source `load` with the type `Load`. It prints `load lines <N> bytes <appended> archived <n>`, the last number
/// being the sum of the archived ends of the three streams. Of its round it prints nothing.
///
/// `udp [--turns N] [--rotate BYTES] NAME ADDRESS` takes datagrams at ADDRESS as the writer NAME. It appends each one to the
/// buffer `wahead/NAME.buf`, syncs that, and publishes its length, before the next turn; a turn takes at most `--messages`
/// of them (1 by default), the first one within 1,000 ms. A buffer of BYTES or more, or behind which no datagram came for
/// 1,000 ms, is closed under the name `wahead/NAME-<number>`. It prints `udp taken <datagrams> bytes <bytes>`.
///
/// `subscribe [--turns N] ADDRESS` takes messages of tees at ADDRESS, each turn at most one, within 1,000 ms. It prints
/// `chunk <stem> <offset> <source> <type> <name> <seq> <length>` for each chunk that lies above all those before it of its
/// collector, so none twice, and at its end `subscribe chunks <printed> refused <messages>`.
///
/// `join LEFT RIGHT` joins the archives in the folders LEFT and RIGHT into the folder `joined`: of
/// each stream it takes the records of the one that has more of it. It prints `join streams <n>
/// bytes <n>`. Where both have a stream and differ in it, it ends with 11 and `differ <source>
/// <type> <name> <at>`.
pub fn run<'a, S: Site>(alloc: Global, site: &mut S, words: &'a [&'a str]) -> u8
    ensures whole { (stamped : List (List ℕ)) (command : Asked) (earlier : History)
        → SuitsTypes stamped command
        → asked (map (λ w. w.now) words.now) ≡ Some command → Adds (S.told site.old) (S.told site.new)
        (Leads (RunSide stamped command) (Begins stamped earlier) (Ends stamped command result earlier)) }
    ensures headline { (stamped : List (List ℕ)) (command : Asked) (earlier : History)
        → SuitsTypes stamped command
        → asked (map (λ w. w.now) words.now) ≡ Some command → Adds (S.told site.old) (S.told site.new)
        (Leads (RunSide stamped command) (Begins stamped earlier) (Headline command result earlier)) }
    ensures causes { (command : Asked) → asked (map (λ w. w.now) words.now) ≡ Some command
        → Adds (S.told site.old) (S.told site.new) (Caused command result) }
    ensures usage { result ≡ 2 → asked (map (λ w. w.now) words.now) ≡ None }
    ensures unasked { asked (map (λ w. w.now) words.now) ≡ None → Adds (S.told site.old) (S.told site.new)
        (SaysUsage (usage_line (map (λ w. w.now) words.now)) result) }
    ensures outside_cause { result ≡ 3 → Rose (S.fault_count site.old) (S.fault_count site.new) }
    ensures complete { (stamped : List (List ℕ)) (command : Asked) (earlier : History)
        → SuitsTypes stamped command
        → asked (map (λ w. w.now) words.now) ≡ Some command
        → ¬ Rose (S.fault_count site.old) (S.fault_count site.new)
        → Adds (S.told site.old) (S.told site.new)
        (Leads (RunSide stamped command) (Begins stamped earlier) (Completes stamped command result earlier)) }
    ensures refused { asked (map (λ w. w.now) words.now) ≡ None → (result ≡ 2) ⊎ (result ≡ 4) }
    ensures statuses { (command : Asked) → asked (map (λ w. w.now) words.now) ≡ Some command
        → Contains (statuses_of command) result }
{
    run_with_hasher(alloc, site, words, Hashing::Fixed)
}

/// Runs the command as `run` does. The streams and names of an agent, which anybody at its control
/// door chooses, are found by this hashing; those of any other command are found as `run` finds them.
pub fn run_with_hasher<'a, S: Site>(
    alloc: Global,
    site: &mut S,
    words: &'a [&'a str],
    hashing: Hashing,
) -> u8
    ensures whole { (stamped : List (List ℕ)) (command : Asked) (earlier : History)
        → SuitsTypes stamped command
        → asked (map (λ w. w.now) words.now) ≡ Some command → Adds (S.told site.old) (S.told site.new)
        (Leads (RunSide stamped command) (Begins stamped earlier) (Ends stamped command result earlier)) }
    ensures headline { (stamped : List (List ℕ)) (command : Asked) (earlier : History)
        → SuitsTypes stamped command
        → asked (map (λ w. w.now) words.now) ≡ Some command → Adds (S.told site.old) (S.told site.new)
        (Leads (RunSide stamped command) (Begins stamped earlier) (Headline command result earlier)) }
    ensures causes { (command : Asked) → asked (map (λ w. w.now) words.now) ≡ Some command
        → Adds (S.told site.old) (S.told site.new) (Caused command result) }
    ensures usage { result ≡ 2 → asked (map (λ w. w.now) words.now) ≡ None }
    ensures unasked { asked (map (λ w. w.now) words.now) ≡ None → Adds (S.told site.old) (S.told site.new)
        (SaysUsage (usage_line (map (λ w. w.now) words.now)) result) }
    ensures outside_cause { result ≡ 3 → Rose (S.fault_count site.old) (S.fault_count site.new) }
    ensures complete { (stamped : List (List ℕ)) (command : Asked) (earlier : History)
        → SuitsTypes stamped command
        → asked (map (λ w. w.now) words.now) ≡ Some command
        → ¬ Rose (S.fault_count site.old) (S.fault_count site.new)
        → Adds (S.told site.old) (S.told site.new)
        (Leads (RunSide stamped command) (Begins stamped earlier) (Completes stamped command result earlier)) }
    ensures refused { asked (map (λ w. w.now) words.now) ≡ None → (result ≡ 2) ⊎ (result ≡ 4) }
    ensures statuses { (command : Asked) → asked (map (λ w. w.now) words.now) ≡ Some command
        → Contains (statuses_of command) result }
{
    match read_words(alloc, words) {
        Ok(command) => {
            let done = run_command(alloc, site, &command, hashing);
            ends(alloc, site, done)
        }
        Err(WordsFault::Usage) => {
            say_usage(alloc, site, usage_of(words));
            2
        }
        Err(WordsFault::NoMemory) => ends(alloc, site, Err(Ending::NoMemory)),
    }
}

// The status of a command's result, whose line is said where it has one.
fn ends<S: Site>(alloc: Global, site: &mut S, done: Result<(), Ending>) -> u8
    ensures says { SaysEnding done result (S.told site.old) (S.told site.new) }
    ensures no_usage { result ≢ 2 }
    ensures outside { result ≡ 3 → IsOutsideEnd done }
    ensures count { S.fault_count site.old ≤ S.fault_count site.new }
{
    match done {
        Ok(()) => 0,
        Err(ending) => {
            say_ending(alloc, site, &ending);
            ending.status()
        }
    }
}
