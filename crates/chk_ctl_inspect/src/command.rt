//! Where a command runs, and whether it may take long.

ghost use Rattle.std.specs.Prelude.{◌≡◌, bytes_eq, codes, map, option_map};
ghost use Rattle.std.specs.List.{list_any};
ghost use Rattle.chk_ctl_line.specs.Commands.{asked_of, audit_of};
ghost use Rattle.chk_ctl_inspect.specs.Commands.{audit_in, extent_of, folder_of, long_of};

use chk_ctl_line::{AuditWords, Command};
use chk_ctl_machine::{Extent, LongInspection};

/// The option that asks for progress also if standard error is no terminal.
const PROGRESS: &str = "--progress";

/// The words of `audit`, if the command is that.
pub(crate) fn audit_in<'b, 'a>(command: &'b Command<'a>) -> Option<&'b AuditWords<'a>>
    ensures { option_map (λ w. audit_of w.now) result ≡ audit_in (asked_of command.now) }
{
    match command {
        Command::Audit(words) => Some(words),
        _ => None,
    }
}

/// The folder in which the command runs, a store or that of agents, if it names one.
pub(crate) fn folder_of<'a>(command: &Command<'a>) -> Option<&'a str>
    ensures { option_map (λ f. f.now) result ≡ folder_of (asked_of command.now) }
{
    match command {
        Command::Audit(words) => Some(words.agent),
        Command::Cat(words) => Some(words.store),
        Command::Passed(words) => Some(words.agent),
        Command::Streams(store) | Command::Verify(store) => Some(store),
        Command::Sum(store) | Command::Held(store) => Some(store),
        Command::Check(_) | Command::HeldIn(_) => None,
        Command::Help(_) | Command::Version => None,
    }
}

/// What the command reads, if it may take long.
pub(crate) fn long_of(command: &Command<'_>, words: &[&str]) -> Option<LongInspection>
    ensures { result ≡ long_of (asked_of command.now) (map (λ w. w.now) words.now) }
{
    let asked = asks_progress(words);
    match extent_of(command) {
        Some(extent) => Some(LongInspection { extent, asked }),
        None => None,
    }
}

fn asks_progress(words: &[&str]) -> bool
    ensures { result ≡ list_any (λ w. bytes_eq w.now (codes "--progress")) words.now }
{
    words.iter().any(|word| *word == PROGRESS)
}

fn extent_of(command: &Command<'_>) -> Option<Extent>
    ensures { result ≡ extent_of (asked_of command.now) }
{
    match command {
        Command::Cat(words) => {
            if words.follow {
                None
            } else if words.records {
                Some(Extent::Records)
            } else {
                Some(Extent::Archive)
            }
        }
        Command::Verify(_) => Some(Extent::Store),
        Command::Sum(_) => Some(Extent::Digests),
        _ => None,
    }
}
