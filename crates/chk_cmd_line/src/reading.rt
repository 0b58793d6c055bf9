//! Words to commands.

ghost use Rattle.std.specs.Prelude.{◌≡◌, map, option_map, IfOk, IfSome};
ghost use Rattle.chk_cmd_line.specs.Asked.{asked, asked_by, asked_round, asked_agent, asked_collector, asked_drain, asked_archive, asked_demux, asked_salvage, asked_load, asked_udp, asked_subscribe, asked_join};
ghost use Rattle.chk_cmd_line.specs.Given.{rows_in};
ghost use Rattle.chk_cmd_line.specs.Good.{IsGood};
ghost use Rattle.chk_cmd_line.specs.ReadOptions.{ReadsRoundOptions, ReadsAgentOptions, ReadsCollectorOptions, ReadsDrainOptions, AreGoodRound, AreGoodAgent, AreGoodCollector, AreGoodDrain, ReadsLogs, ReadsPeers, AreGoodLogs, AreGoodPeers};
ghost use Rattle.chk_cmd_line.specs.Commands.{ReadsCommand, asked_of};

use crate::commands::{AgentWords, CollectorWords, Command, DrainWords, RoundWords, WordsFault};
use crate::datagrams::read_udp;
use crate::joining::read_join;
use crate::names::{are_words, is_collector, is_source, is_word, number_in};
use crate::options::Given;
use crate::subscribing::read_subscribe;
use crate::usage::{Usage, usage_of};
use chk_bytes::LAST_NUMBER;
use chk_control::Class;
use std::alloc::Global;

// The most milliseconds of a pause, and its length where none is given.
const LONGEST_PAUSE: u64 = 200;

// The most collectors of an agent.
const MOST_COLLECTORS: usize = 64;

// The most messages or datagrams that are taken between two commits.
pub(crate) const MOST_MESSAGES: u64 = 64;

/// Reads the words behind the program's name. `Usage` comes exactly where they aren't a command;
/// `usage_of` says which line tells how they should have been. A parse takes memory for the
/// options and for one reference a word.
pub fn read_words<'a>(alloc: Global, words: &'a [&'a str]) -> Result<Command<'a>, WordsFault>
    ensures asked { ReadsCommand (asked (map (λ w. w.now) words.now)) result }
    ensures good { IfOk result (λ command. IsGood (asked_of command)) }
{
    let usage = usage_of(words);
    let given = Given::read(alloc, usage, words)?;
    command_by(alloc, usage, &given)
}

fn command_by<'a>(alloc: Global, usage: Usage, given: &Given<'a>) -> Result<Command<'a>, WordsFault>
    ensures asked { ReadsCommand (asked_by usage (rows_in given.now)) result }
    ensures good { IfOk result (λ command. IsGood (asked_of command)) }
{
    match usage {
        Usage::Commands => Err(WordsFault::Usage),
        Usage::Round => read_round(alloc, given),
        Usage::Agent => read_agent(alloc, given),
        Usage::Collector => read_collector(given).ok_or(WordsFault::Usage),
        Usage::Drain => read_drain(alloc, given),
        Usage::Archive => read_archive(given).ok_or(WordsFault::Usage),
        Usage::Demux => read_demux(alloc, given),
        Usage::Salvage => read_salvage(given).ok_or(WordsFault::Usage),
        Usage::Load => read_load(given).ok_or(WordsFault::Usage),
        Usage::Udp => read_udp(given).ok_or(WordsFault::Usage),
        Usage::Subscribe => read_subscribe(given).ok_or(WordsFault::Usage),
        Usage::Join => read_join(given).ok_or(WordsFault::Usage),
    }
}

fn read_round<'a>(alloc: Global, given: &Given<'a>) -> Result<Command<'a>, WordsFault>
    ensures asked { ReadsCommand (asked_round (rows_in given.now)) result }
    ensures good { IfOk result (λ command. IsGood (asked_of command)) }
{
    let options = round_options(given).ok_or(WordsFault::Usage)?;
    let words = logs_in(given).ok_or(WordsFault::Usage)?;
    Ok(Command::Round(RoundWords {
        class: options.class,
        reads: options.reads,
        cluster: options.cluster,
        source: words.source,
        kind: words.kind,
        logs: words.paths.to_vec(alloc)?,
    }))
}

#[derive(Clone, Copy)]
struct RoundOptions<'a> {
    class: Class,
    reads: u64,
    cluster: &'a str,
}

fn round_options<'a>(given: &Given<'a>) -> Option<RoundOptions<'a>>
    ensures asked { ReadsRoundOptions (rows_in given.now) result }
    ensures good { IfSome result AreGoodRound }
{
    Some(RoundOptions {
        class: given.class()?,
        reads: given.number("reads", 1_000_000, 1, LAST_NUMBER)?,
        cluster: given.cluster()?,
    })
}

fn read_agent<'a>(alloc: Global, given: &Given<'a>) -> Result<Command<'a>, WordsFault>
    ensures asked { ReadsCommand (asked_agent (rows_in given.now)) result }
    ensures good { IfOk result (λ command. IsGood (asked_of command)) }
{
    let options = agent_options(given).ok_or(WordsFault::Usage)?;
    let words = peers_in(given).ok_or(WordsFault::Usage)?;
    Ok(Command::Agent(AgentWords {
        initial: options.initial,
        control: options.control,
        turns: options.turns,
        poll: options.poll,
        expire: options.expire,
        pause: options.pause,
        cluster: options.cluster,
        source: words.source,
        collectors: words.collectors.to_vec(alloc)?,
    }))
}

#[derive(Clone, Copy)]
struct AgentOptions<'a> {
    initial: Option<&'a str>,
    control: Option<&'a str>,
    turns: u64,
    poll: u64,
    expire: u64,
    pause: u64,
    cluster: &'a str,
}

fn agent_options<'a>(given: &Given<'a>) -> Option<AgentOptions<'a>>
    ensures asked { ReadsAgentOptions (rows_in given.now) result }
    ensures good { IfSome result AreGoodAgent }
{
    Some(AgentOptions {
        initial: given.word("initial")?,
        control: given.word("control")?,
        turns: given.number("turns", LAST_NUMBER, 1, LAST_NUMBER)?,
        poll: given.number("poll", 10_000, 0, LAST_NUMBER)?,
        expire: given.number("expire", 300_000, 0, LAST_NUMBER)?,
        pause: given.number("pause", LONGEST_PAUSE, 0, LONGEST_PAUSE)?,
        cluster: given.cluster()?,
    })
}

fn read_collector<'a>(given: &Given<'a>) -> Option<Command<'a>>
    ensures asked { option_map asked_of result ≡ asked_collector (rows_in given.now) }
    ensures good { IfSome result (λ command. IsGood (asked_of command)) }
{
    let options = collector_options(given)?;
    match given.plain()? {
        [name, address] if is_collector(name) && is_word(address) => {
            Some(Command::Collector(CollectorWords {
                rotate: options.rotate,
                turns: options.turns,
                messages: options.messages,
                tee: options.tee,
                name,
                address,
            }))
        }
        _ => None,
    }
}

#[derive(Clone, Copy)]
struct CollectorOptions<'a> {
    rotate: u64,
    turns: u64,
    messages: u64,
    tee: Option<&'a str>,
}

fn collector_options<'a>(given: &Given<'a>) -> Option<CollectorOptions<'a>>
    ensures asked { ReadsCollectorOptions (rows_in given.now) result }
    ensures good { IfSome result AreGoodCollector }
{
    Some(CollectorOptions {
        rotate: given.number("rotate", 300_000, 0, LAST_NUMBER)?,
        turns: given.number("turns", LAST_NUMBER, 1, LAST_NUMBER)?,
        messages: given.number("messages", 1, 1, MOST_MESSAGES)?,
        tee: given.word("tee")?,
    })
}

fn read_drain<'a>(alloc: Global, given: &Given<'a>) -> Result<Command<'a>, WordsFault>
    ensures asked { ReadsCommand (asked_drain (rows_in given.now)) result }
    ensures good { IfOk result (λ command. IsGood (asked_of command)) }
{
    let options = drain_options(given).ok_or(WordsFault::Usage)?;
    let words = peers_in(given).ok_or(WordsFault::Usage)?;
    Ok(Command::Drain(DrainWords {
        initial: options.initial,
        reads: options.reads,
        polls: options.polls,
        cluster: options.cluster,
        source: words.source,
        collectors: words.collectors.to_vec(alloc)?,
    }))
}

#[derive(Clone, Copy)]
struct DrainOptions<'a> {
    initial: Option<&'a str>,
    reads: u64,
    polls: u64,
    cluster: &'a str,
}

fn drain_options<'a>(given: &Given<'a>) -> Option<DrainOptions<'a>>
    ensures asked { ReadsDrainOptions (rows_in given.now) result }
    ensures good { IfSome result AreGoodDrain }
{
    Some(DrainOptions {
        initial: given.word("initial")?,
        reads: given.number("reads", 1_000_000, 1, LAST_NUMBER)?,
        polls: given.number("polls", 60, 1, 1_000_000)?,
        cluster: given.cluster()?,
    })
}

// A source and the logs of one type.
#[derive(Clone, Copy)]
struct Logs<'a, 'g> {
    source: &'a str,
    kind: &'a str,
    paths: &'g [&'a str],
}

fn logs_in<'a, 'g>(given: &'g Given<'a>) -> Option<Logs<'a, 'g>>
    ensures plain { ReadsLogs (rows_in given.now) result }
    ensures good { IfSome result AreGoodLogs }
{
    match given.plain()? {
        [source, kind, paths @ ..]
            if is_source(source) && is_word(kind) && are_words(paths, 1, paths.len()) => {
            Some(Logs {
                source,
                kind,
                paths,
            })
        }
        _ => None,
    }
}

// A source and the addresses of its collectors.
#[derive(Clone, Copy)]
struct Peers<'a, 'g> {
    source: &'a str,
    collectors: &'g [&'a str],
}

fn peers_in<'a, 'g>(given: &'g Given<'a>) -> Option<Peers<'a, 'g>>
    ensures plain { ReadsPeers (rows_in given.now) result }
    ensures good { IfSome result AreGoodPeers }
{
    match given.plain()? {
        [source, collectors @ ..]
            if is_source(source) && are_words(collectors, 1, MOST_COLLECTORS) => {
            Some(Peers { source, collectors })
        }
        _ => None,
    }
}

fn read_archive<'a>(given: &Given<'a>) -> Option<Command<'a>>
    ensures asked { option_map asked_of result ≡ asked_archive (rows_in given.now) }
    ensures good { IfSome result (λ command. IsGood (asked_of command)) }
{
    match given.plain() {
        None => Some(Command::Archive),
        Some(_) => None,
    }
}

fn read_demux<'a>(alloc: Global, given: &Given<'a>) -> Result<Command<'a>, WordsFault>
    ensures asked { ReadsCommand (asked_demux (rows_in given.now)) result }
    ensures good { IfOk result (λ command. IsGood (asked_of command)) }
{
    match given.plain() {
        None => Ok(Command::Demux(Vec::new(alloc))),
        Some(kinds) if are_words(kinds, 1, kinds.len()) => {
            Ok(Command::Demux(kinds.to_vec(alloc)?))
        }
        Some(_) => Err(WordsFault::Usage),
    }
}

fn read_salvage<'a>(given: &Given<'a>) -> Option<Command<'a>>
    ensures asked { option_map asked_of result ≡ asked_salvage (rows_in given.now) }
    ensures good { IfSome result (λ command. IsGood (asked_of command)) }
{
    match given.plain()? {
        [file] if is_word(file) => Some(Command::Salvage(file)),
        _ => None,
    }
}

fn read_load<'a>(given: &Given<'a>) -> Option<Command<'a>>
    ensures asked { option_map asked_of result ≡ asked_load (rows_in given.now) }
    ensures good { IfSome result (λ command. IsGood (asked_of command)) }
{
    match given.plain()? {
        [lines] => {
            let number = number_in(lines, 1, 200_000)?;
            Some(Command::Load(number))
        }
        _ => None,
    }
}
