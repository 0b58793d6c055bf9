//! The options of a command, read by `clap`.

ghost use Rattle.std.specs.Prelude.{◌≡◌, map, option_map, IfOk};
ghost use Rattle.clap.specs.Walk.{all_of, first_of};
ghost use Rattle.clap.specs.Words.{app_of, kind_of, with_rule};
ghost use Rattle.chk_ctl_line.specs.Given.{rows_in, ReadsOptions};
ghost use Rattle.chk_ctl_line.specs.Names.{number_in};
ghost use Rattle.chk_ctl_line.specs.Options.{app_with, by_option, fault_by, flag_rule};
ghost use Rattle.chk_ctl_line.specs.Options.{is_flagged, option_rule, parsed, plain_of};
ghost use Rattle.chk_ctl_line.specs.Options.{with_flags, words_rule};
ghost use Rattle.chk_ctl_line.specs.Usages.{option_names, flag_names};

use crate::commands::WordsFault;
use crate::names::number_in;
use crate::usage::Usage;
use clap::error::ErrorKind;
use clap::{Arg, ArgAction, ArgMatches, Error};
use std::alloc::{AllocError, Global};

/// The options and the other words that were given.
#[derive(Drop)]
pub(crate) struct Given<'a> {
    pub(crate) matches: ArgMatches<'a>,
}

impl<'a> Given<'a> {
    /// Reads the words of which the first names the command.
    pub(crate) fn read(
        alloc: Global,
        usage: Usage,
        words: &'a [&'a str],
    ) -> Result<Given<'a>, WordsFault>
        ensures { ReadsOptions (parsed (option_names usage) (flag_names usage)
            (map (λ w. w.now) words.now)) result }
    {
        let command = command_with(alloc, usage.options(), usage.flags())?;
        match command.try_get_matches_from(words) {
            Ok(matches) => Ok(Given { matches }),
            Err(error) => Err(fault_of(&error)),
        }
    }

    /// The words that are no options, in their order, where there are any.
    pub(crate) fn plain(&self) -> Option<&[&'a str]>
        ensures { option_map (λ s. map (λ w. w.now) s.now) result ≡ plain_of (rows_in self.now) }
    {
        self.matches.get_strs("words")
    }

    /// The values of an option that may come again and again, in their order.
    pub(crate) fn values(&self, name: &str) -> Option<&[&'a str]>
        ensures { option_map (λ s. map (λ w. w.now) s.now) result
            ≡ all_of name.now (rows_in self.now) }
    {
        self.matches.get_strs(name)
    }

    /// The value of an option; of one that takes none `true` or `false`.
    pub(crate) fn value(&self, name: &str) -> Option<&'a str>
        ensures { option_map (λ w. w.now) result ≡ first_of name.now (rows_in self.now) }
    {
        self.matches.get_str(name)
    }

    /// The number that an option gives, at most `most`; without the option 0.
    pub(crate) fn number(&self, name: &str, most: u64) -> Option<u64>
        ensures { result ≡ by_option 0 (number_in most) name.now (rows_in self.now) }
    {
        match self.value(name) {
            Some(text) => number_in(text, most),
            None => Some(0),
        }
    }

    /// Whether the option that takes no value was given.
    pub(crate) fn has(&self, name: &str) -> bool
        ensures { result ≡ is_flagged name.now (rows_in self.now) }
    {
        match self.value(name) {
            Some(text) => text == "true",
            None => false,
        }
    }
}

// A command with these options and any number of other words. It has no option for help but ours.
fn command_with<'a>(
    alloc: Global,
    names: &'a [&'a str],
    flags: &'a [&'a str],
) -> Result<clap::Command<'a>, AllocError>
    ensures { IfOk result (λ c. app_of c ≡ app_with (map (λ n. n.now) names.now)
        (map (λ n. n.now) flags.now)) }
{
    let mut command = clap::Command::new(alloc, "chukwactl").disable_help_flag(true);
    for name in names {
        command = with_option(alloc, command, name)?;
    }
    flagged(alloc, command, flags)
}

fn flagged<'a>(
    alloc: Global,
    mut command: clap::Command<'a>,
    flags: &'a [&'a str],
) -> Result<clap::Command<'a>, AllocError>
    ensures { IfOk result (λ c. app_of c
        ≡ with_rule (with_flags (app_of command.entry) (map (λ n. n.now) flags.now)) words_rule) }
{
    for name in flags {
        command = with_flag(alloc, command, name)?;
    }
    with_words(alloc, command)
}

pub(crate) fn with_option<'a>(
    alloc: Global,
    command: clap::Command<'a>,
    name: &'a str,
) -> Result<clap::Command<'a>, AllocError>
    ensures { IfOk result (λ c. app_of c
        ≡ with_rule (app_of command.entry) (option_rule name.entry.now)) }
{
    let option = Arg::new(alloc, name).long(name);
    command.arg(option)
}

pub(crate) fn with_flag<'a>(
    alloc: Global,
    command: clap::Command<'a>,
    name: &'a str,
) -> Result<clap::Command<'a>, AllocError>
    ensures { IfOk result (λ c. app_of c
        ≡ with_rule (app_of command.entry) (flag_rule name.entry.now)) }
{
    let option = Arg::new(alloc, name).long(name).action(ArgAction::SetTrue);
    command.arg(option)
}

fn with_words<'a>(
    alloc: Global,
    command: clap::Command<'a>,
) -> Result<clap::Command<'a>, AllocError>
    ensures { IfOk result (λ c. app_of c ≡ with_rule (app_of command.entry) words_rule) }
{
    let words = Arg::new(alloc, "words").action(ArgAction::Append);
    command.arg(words)
}

pub(crate) fn fault_of(error: &Error) -> WordsFault
    ensures { result ≡ fault_by (kind_of error.now) }
{
    match error.kind() {
        ErrorKind::OutOfMemory => WordsFault::NoMemory,
        _ => WordsFault::Usage,
    }
}
