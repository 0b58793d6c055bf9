//! The words of `status`.

ghost use Rattle.std.specs.Prelude.{◌≡◌, map, option_map, IfOk};
ghost use Rattle.clap.specs.Words.{app_of, with_rule};
ghost use Rattle.chk_ctl_line.specs.Given.{rows_in, ReadsOptions};
ghost use Rattle.chk_ctl_line.specs.Options.{with_rules};
ghost use Rattle.chk_ctl_line.specs.Status.{asked_in_rows, asked_status, form_in};
ghost use Rattle.chk_ctl_line.specs.Status.{is_asked, is_legal, is_named, list_rule, list_rules};
ghost use Rattle.chk_ctl_line.specs.Status.{short_rule, status_app, status_at, status_of};
ghost use Rattle.chk_ctl_line.specs.Status.{status_rows, ReadsStatus};

use crate::commands::WordsFault;
use crate::controls::are_controls;
use crate::options::{Given, fault_of, with_flag, with_option};
use clap::{Arg, ArgAction};
use std::alloc::{AllocError, Global};

/// The most seconds between two looks, a day.
const MOST_SECONDS: u64 = 86_400;

/// How the state is shown.
#[derive(Clone, Copy, Debug, PartialEq, Eq)]
pub enum Form {
    /// Tables for people.
    Table,
    /// One line, as Nagios reads it.
    Line,
    /// One text for all that is looked at, as OpenMetrics has it.
    Metrics,
}

/// The words of `status`.
#[derive(Drop)]
pub struct StatusWords<'a> {
    given: Given<'a>,
    watch: u64,
}

impl<'a> StatusWords<'a> {
    /// It is asked how the command is used, whatever the other words are.
    pub fn asks_help(&self) -> bool
        ensures { result ≡ (status_of self.now).help }
    {
        self.given.has("help")
    }

    /// The folders of agents, as they were named, where some were.
    pub fn agents(&self) -> Option<&[&'a str]>
        ensures { option_map (λ s. map (λ w. w.now) s.now) result ≡ (status_of self.now).agents }
    {
        self.given.values("agent")
    }

    /// The folders of the stores, as they were named, where some were.
    pub fn stores(&self) -> Option<&[&'a str]>
        ensures { option_map (λ s. map (λ w. w.now) s.now) result ≡ (status_of self.now).stores }
    {
        self.given.values("store")
    }

    /// The control doors, where some were named; `control_in` reads each.
    pub fn controls(&self) -> Option<&[&'a str]>
        ensures { option_map (λ s. map (λ w. w.now) s.now) result ≡ (status_of self.now).controls }
    {
        self.given.values("control")
    }

    /// How the state is shown.
    pub fn form(&self) -> Form
        ensures { result ≡ (status_of self.now).form }
    {
        form_of(&self.given)
    }

    /// How many seconds there are between two looks; 0: there is one look.
    pub fn seconds(&self) -> u64
        ensures { result ≡ (status_of self.now).seconds }
    {
        self.watch
    }
}

/// Reads the words of which the first is `status`. `Usage` comes exactly where they name nothing to
/// look at, name a control door that isn't `NAME=ADDRESS`, ask for two forms, or aren't such words;
/// then `Usage::Status` tells how they should have been.
pub fn read_status<'a>(alloc: Global, words: &'a [&'a str]) -> Result<StatusWords<'a>, WordsFault>
    ensures { ReadsStatus (asked_status (map (λ w. w.now) words.now)) result }
{
    match given_by(alloc, words) {
        Ok(given) => status_by(given),
        Err(fault) => Err(fault),
    }
}

fn status_by<'a>(given: Given<'a>) -> Result<StatusWords<'a>, WordsFault>
    ensures { ReadsStatus (asked_in_rows (rows_in given.entry)) result }
{
    match given.number("watch", MOST_SECONDS) {
        Some(watch) => status_with(given, watch),
        None => Err(WordsFault::Usage),
    }
}

fn status_with<'a>(given: Given<'a>, watch: u64) -> Result<StatusWords<'a>, WordsFault>
    ensures { ReadsStatus (status_at (rows_in given.entry) watch) result }
{
    if is_asked(&given) {
        Ok(StatusWords { given, watch })
    } else {
        Err(WordsFault::Usage)
    }
}

// Help, or something to look at in one form.
fn is_asked(given: &Given<'_>) -> bool
    ensures { result ≡ is_asked (rows_in given.now) }
{
    given.has("help") || (is_named(given) && is_legal(given))
}

// Something to look at is named.
fn is_named(given: &Given<'_>) -> bool
    ensures { result ≡ is_named (rows_in given.now) }
{
    given.values("agent").is_some()
        || given.values("store").is_some()
        || given.values("control").is_some()
}

// There is one form, and each control door has a name and an address.
fn is_legal(given: &Given<'_>) -> bool
    ensures { result ≡ is_legal (rows_in given.now) }
{
    !(given.has("q") && given.has("metrics")) && are_controls(given.values("control"))
}

fn form_of(given: &Given<'_>) -> Form
    ensures { result ≡ form_in (rows_in given.now) }
{
    if given.has("q") {
        Form::Line
    } else if given.has("metrics") {
        Form::Metrics
    } else {
        Form::Table
    }
}

fn given_by<'a>(alloc: Global, words: &'a [&'a str]) -> Result<Given<'a>, WordsFault>
    ensures { ReadsOptions (status_rows (map (λ w. w.now) words.now)) result }
{
    let command = status_command(alloc)?;
    match command.try_get_matches_from(words) {
        Ok(matches) => Ok(Given { matches }),
        Err(error) => Err(fault_of(&error)),
    }
}

fn status_command<'a>(alloc: Global) -> Result<clap::Command<'a>, AllocError>
    ensures { IfOk result (λ c. app_of c ≡ status_app) }
{
    let listed = with_lists(alloc)?;
    let watched = with_option(alloc, listed, "watch")?;
    let short = with_short(alloc, watched)?;
    let measured = with_flag(alloc, short, "metrics")?;
    with_flag(alloc, measured, "help")
}

fn with_lists<'a>(alloc: Global) -> Result<clap::Command<'a>, AllocError>
    ensures { IfOk result (λ c. app_of c ≡ with_rules list_rules) }
{
    let bare = clap::Command::new(alloc, "chukwactl").disable_help_flag(true);
    let agents = with_list(alloc, bare, "agent")?;
    let stores = with_list(alloc, agents, "store")?;
    with_list(alloc, stores, "control")
}

fn with_list<'a>(
    alloc: Global,
    command: clap::Command<'a>,
    name: &'a str,
) -> Result<clap::Command<'a>, AllocError>
    ensures { IfOk result (λ c. app_of c
        ≡ with_rule (app_of command.entry) (list_rule name.entry.now)) }
{
    let option = Arg::new(alloc, name).long(name).action(ArgAction::Append);
    command.arg(option)
}

fn with_short<'a>(
    alloc: Global,
    command: clap::Command<'a>,
) -> Result<clap::Command<'a>, AllocError>
    ensures { IfOk result (λ c. app_of c ≡ with_rule (app_of command.entry) short_rule) }
{
    let option = Arg::new(alloc, "q").short('q').action(ArgAction::SetTrue);
    command.arg(option)
}
