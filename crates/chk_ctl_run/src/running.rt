//! A run of the program.

ghost use Rattle.std.specs.Prelude.{◌≡◌, map, IfOk};
ghost use Rattle.chk_site.specs.History.{Every};
ghost use Rattle.chk_site.specs.Site.{Adds};
ghost use Rattle.chk_world.specs.Sight.{job};
ghost use Rattle.chk_ctl_line.specs.Asked.{asked};
ghost use Rattle.chk_ctl_line.specs.Commands.{asked_of, IsGood};
ghost use Rattle.chk_ctl_run.specs.Calls.{CauseOfAsked, CauseOfRun, IsOfAsked, IsOfRun};
ghost use Rattle.chk_ctl_run.specs.Runs.{Ran, Shows};

use crate::auditing::show_audit;
use crate::checking::show_checked;
use crate::holding::show_held;
use crate::outcome::Outcome;
use crate::passing::show_passed;
use crate::several::show_stores;
use crate::showing::{show_stream, show_streams};
use crate::summing::show_sums;
use crate::telling::{tell_usage, tell_version};
use crate::verifying::show_verified;
use chk_bytes::{NoMemory, Word};
use chk_ctl_line::{Command, WordsFault, read_words, usage_of};
use chk_site::{Role, Site, Who};
use std::alloc::Global;

/// Runs the command that the words behind the program's name ask for. It reads files, prints,
/// waits, lists folders for `check`, `passed` and `verify`, and for `check` sends messages without
/// a byte, and does nothing else: it doesn't start as a process either, so it may run beside those
/// that do. The files are named from the folder
/// STORE, which is the site's. A store without `archive/book` is none: `NoArchive`.
///
/// `audit --agent DIR --store DIR` compares the archive of each stream that a checkpoint of the
/// folder `agents` has with its log, from where that begins on, and prints `same <source> <type>
/// <name> start <offset> end <offset> sha256 <digest>`, `PART` where the log has the first bytes
/// no more, or `DIFFERS at <offset>`, the first at which it has another one or none. It is `Done`
/// only where some are compared and all are `same`, `Unknown` where none is, and else `Differs`; a
/// store without a book is `NoBook`. Here the site's folder is that of the agents, from which the
/// store and relative paths of logs are named.
///
/// `cat [--begin N] [--follow] [--records] STORE SOURCE TYPE NAME` prints the archived bytes of a
/// stream from the offset N on, as `archive/book` names them, or its records joined, as
/// `demux/book` does; where the stream starts past N, from its start on. Where a job replaces a
/// segment meanwhile, the new book is read, and the printing goes on at its offset. With
/// `--follow` it looks again every 5,000 ms, also for a stream that the book doesn't have (yet);
/// a look that finds more reads the new segments, or all.
///
/// `check --initial FILE COLLECTOR...` prints `line <number> <name>` for each thing for which a
/// start of an agent or a drain would refuse or skip a line of FILE, or lose bytes of its log, and
/// `collector <address> NoAnswer` for each address at which nobody answers, and ends with `Found`
/// where there are some; `NoFile` where FILE isn't there. It lists the folders of the logs, reads
/// their first bytes, sends a message without a byte to each collector, and takes no part in a
/// store.
///
/// `streams STORE` prints `stream <source> <type> <name> start <offset> end <offset> demuxed
/// <offset>` for each stream.
///
/// `verify [--progress] STORE` looks whether each file is in its grammar: checkpoints, books, segments, sinks,
/// marks and numbers, where the store has them; whether the streams' records go on; and whether
/// they end where the books say. It prints `ok archive <records> demux <records>`, or for each
/// file that isn't `damaged <name> <at>` by its first damage, and ends with `Unsound`. Where there
/// is no `demux/book` it prints `none` in place of the last number.
///
/// `sum STORE` prints `stream <source> <type> <name> start <offset> end <offset> sha256 <digest>`
/// for each stream, of its archived bytes, or ends with the first damage and no line.
///
/// `held STORE` prints `held <source> <type> <name> archived <offset> missing <offset> to <offset>
/// waits <offset> to <offset> chunks <count>` for each stream of which chunks are set aside, and
/// ends with `Waits` where there are some; damage of the book or of their segment ends it before
/// the first line. With more stores, 2 to 64 paths of at most 4,064 bytes without a space, named
/// from the site's folder, it prints for each a line `store <path>`, these lines of it, and behind
/// each of them what the other stores have of the missing bytes: `found <source> <type> <name>
/// from <offset> to <offset> archived in <path>`, or `.. waits in <path>`. All stores are read and
/// held before the first line: a store without a book is `NoBook`. It ends with `Waits` where
/// chunks are set aside in one of them.
///
/// `passed --agent DIR LOG` is `Done` only where some checkpoint of the folder `agents` has the log
/// of this path, and each that has it has passed the log's oldest generation that is there; else
/// it is `Behind`, or `Unknown` where none has the log. It prints nothing. Here the site's folder
/// is DIR.
///
/// Words of `status` ask for nothing here: `Usage`.
///
/// `--help`, alone or behind a command's name, prints how it is used, and `--version` alone the
/// version.
pub fn run<'a, S: Site>(alloc: Global, site: &mut S, words: &'a [&'a str]) -> Outcome
    ensures ran { Ran (map (λ w. w.now) words.now) result (S.told site.old) (S.told site.new) }
    ensures own { Adds (S.told site.old) (S.told site.new)
        (Every (IsOfRun (asked (map (λ w. w.now) words.now)))) }
    ensures cause { CauseOfRun (asked (map (λ w. w.now) words.now))
        (S.fault_count site.old) (S.fault_count site.new) result }
{
    match read_words(alloc, words) {
        Ok(command) => show(alloc, site, &command),
        Err(WordsFault::Usage) => Outcome::Usage(usage_of(words)),
        Err(WordsFault::NoMemory) => Outcome::NoMemory,
    }
}

/// Does what is asked for.
fn show<S: Site>(alloc: Global, site: &mut S, command: &Command<'_>) -> Outcome
    requires good { IsGood (asked_of command.now) }
    ensures told { Shows (asked_of command.now) result (S.told site.old) (S.told site.new) }
    ensures own { Adds (S.told site.old) (S.told site.new)
        (Every (IsOfAsked (asked_of command.now))) }
    ensures cause { CauseOfAsked (asked_of command.now)
        (S.fault_count site.old) (S.fault_count site.new) result }
{
    match looker(alloc) {
        Ok(who) => show_asked(alloc, site, &who, command),
        Err(NoMemory) => Outcome::NoMemory,
    }
}

/// Does what is asked for, as this process.
fn show_asked<S: Site>(alloc: Global, site: &mut S, who: &Who, command: &Command<'_>) -> Outcome
    requires job { who.now ≡ job }
    requires good { IsGood (asked_of command.now) }
    ensures told { Shows (asked_of command.now) result (S.told site.old) (S.told site.new) }
    ensures own { Adds (S.told site.old) (S.told site.new)
        (Every (IsOfAsked (asked_of command.now))) }
    ensures cause { CauseOfAsked (asked_of command.now)
        (S.fault_count site.old) (S.fault_count site.new) result }
{
    match command {
        Command::Audit(words) => show_audit(alloc, site, who, words.store),
        Command::Cat(words) => show_stream(alloc, site, who, words),
        Command::Check(words) => show_checked(alloc, site, who, words),
        Command::Streams(_) => show_streams(alloc, site, who),
        Command::Verify(_) => show_verified(alloc, site, who),
        Command::Sum(_) => show_sums(alloc, site, who),
        Command::Held(_) => show_held(alloc, site, who),
        Command::HeldIn(stores) => show_stores(alloc, site, who, stores.as_slice()),
        Command::Passed(words) => show_passed(alloc, site, who, words),
        Command::Help(usage) => tell_usage(alloc, site, who, *usage),
        Command::Version => tell_version(alloc, site, who),
    }
}

/// The process as which files are read. It never starts, so it takes no lock.
pub fn looker(alloc: Global) -> Result<Who, NoMemory>
    ensures { IfOk result (λ who. who ≡ job) }
{
    Ok(Who {
        role: Role::Job,
        name: Word::from_text(alloc, "job")?,
    })
}
