//! The options of a command, read by `clap`.

ghost use Rattle.std.specs.Prelude.{◌≡◌, ◌≤◌, None, map, codes, option_map, IfOk, IfSome, IsTrue};
ghost use Rattle.chk_control.specs.Classes.{class_of_name};
ghost use Rattle.chk_control.specs.declared.Class.TheVariants.{Plain};
ghost use Rattle.clap.specs.Walk.{first_of};
ghost use Rattle.clap.specs.Words.{app_of, kind_of, with_rule};
ghost use Rattle.chk_cmd_line.specs.Names.{number_in};
ghost use Rattle.chk_cmd_line.specs.Usages.{option_names};
ghost use Rattle.chk_cmd_line.specs.Options.{app_with, option_rule, words_rule, parsed, plain_of, by_option, as_word, as_some_word, no_cluster, fault_by};
ghost use Rattle.chk_bytes.specs.Words.{is_word};
ghost use Rattle.chk_cmd_line.specs.Good.{IsIn, IsWordIfAny};
ghost use Rattle.chk_cmd_line.specs.Given.{rows_in, ReadsOptions};

use crate::commands::WordsFault;
use crate::names::{is_word, number_in};
use crate::usage::Usage;
use chk_control::{Class, class_of_name};
use clap::error::ErrorKind;
use clap::{Arg, ArgAction, ArgMatches, Error};
use std::alloc::{AllocError, Global};

/// The options and the other words that were given.
#[derive(Drop)]
pub(crate) struct Given<'a> {
    matches: ArgMatches<'a>,
}

impl<'a> Given<'a> {
    /// Reads the words of which the first names the command.
    pub(crate) fn read(
        alloc: Global,
        usage: Usage,
        words: &'a [&'a str],
    ) -> Result<Given<'a>, WordsFault>
        ensures { ReadsOptions (parsed (option_names usage) (map (λ w. w.now) words.now)) result }
    {
        let command = command_with(alloc, usage.options())?;
        match command.try_get_matches_from(words) {
            Ok(matches) => Ok(Given { matches }),
            Err(error) => Err(fault_of(&error)),
        }
    }

    /// The words that are no options, in their order, where there are any.
    pub(crate) fn plain(&self) -> Option<&[&'a str]>
        ensures { option_map (λ s. map (λ w. w.now) s.now) result ≡ plain_of (rows_in self.now) }
    {
        self.matches.get_strs("words")
    }

    // The value of an option.
    fn value(&self, name: &str) -> Option<&'a str>
        ensures { option_map (λ w. w.now) result ≡ first_of name.now (rows_in self.now) }
    {
        self.matches.get_str(name)
    }

    /// The number that an option gives, from `least` to `most`.
    pub(crate) fn number(&self, name: &str, default: u64, least: u64, most: u64) -> Option<u64>
        requires low { least ≤ default }
        requires high { default ≤ most }
        ensures value { result
            ≡ by_option default (number_in least most) name.now (rows_in self.now) }
        ensures bounds { IfSome result (IsIn least most) }
    {
        match self.value(name) {
            Some(text) => number_in(text, least, most),
            None => Some(default),
        }
    }

    /// The word that an option gives, if it was given.
    pub(crate) fn word(&self, name: &str) -> Option<Option<&'a str>>
        ensures value { option_map (option_map (λ w. w.now)) result
            ≡ by_option None as_some_word name.now (rows_in self.now) }
        ensures word { IfSome result (λ o. IsWordIfAny (option_map (λ w. w.now) o)) }
    {
        match self.value(name) {
            Some(text) if is_word(text) => Some(Some(text)),
            Some(_) => None,
            None => Some(None),
        }
    }

    /// The cluster, by default `none`.
    pub(crate) fn cluster(&self) -> Option<&'a str>
        ensures value { option_map (λ w. w.now) result
            ≡ by_option no_cluster as_word (codes "cluster") (rows_in self.now) }
        ensures word { IfSome result (λ w. IsTrue (is_word w.now)) }
    {
        match self.value("cluster") {
            Some(text) if is_word(text) => Some(text),
            Some(_) => None,
            None => Some("none"),
        }
    }

    /// The class with which a new log is read.
    pub(crate) fn class(&self) -> Option<Class>
        ensures { result ≡ by_option Plain class_of_name (codes "class") (rows_in self.now) }
    {
        match self.value("class") {
            Some(text) => class_of_name(text.as_bytes()),
            None => Some(Class::Plain),
        }
    }
}

// A command with these options and any number of other words. It has no option for help.
fn command_with<'a>(alloc: Global, names: &'a [&'a str]) -> Result<clap::Command<'a>, AllocError>
    ensures { IfOk result (λ c. app_of c ≡ app_with (map (λ n. n.now) names.now)) }
{
    let mut command = clap::Command::new(alloc, "chukwa").disable_help_flag(true);
    for name in names {
        command = with_option(alloc, command, name)?;
    }
    with_words(alloc, command)
}

fn with_option<'a>(
    alloc: Global,
    command: clap::Command<'a>,
    name: &'a str,
) -> Result<clap::Command<'a>, AllocError>
    ensures { IfOk result (λ c. app_of c
        ≡ with_rule (app_of command.entry) (option_rule name.entry.now)) }
{
    let option = Arg::new(alloc, name).long(name);
    command.arg(option)
}

fn with_words<'a>(
    alloc: Global,
    command: clap::Command<'a>,
) -> Result<clap::Command<'a>, AllocError>
    ensures { IfOk result (λ c. app_of c ≡ with_rule (app_of command.entry) words_rule) }
{
    let words = Arg::new(alloc, "words").action(ArgAction::Append);
    command.arg(words)
}

fn fault_of(error: &Error) -> WordsFault
    ensures { result ≡ fault_by (kind_of error.now) }
{
    match error.kind() {
        ErrorKind::OutOfMemory => WordsFault::NoMemory,
        _ => WordsFault::Usage,
    }
}
