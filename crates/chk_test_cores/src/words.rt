//! Word lists, and what they ask for.

use chk_bytes::NoMemory;
use chk_cmd_line::{Usage, WordsFault, read_words, usage_of};
use std::alloc::Global;

// Letters that a source may have, 64 of them, and those that a collector's name may have.
const SOURCE: &str = "abcdefghijklmnopqrstuvwxyz.ABCDEFGHIJKLMNOPQRSTUVWXYZ_0123456789";

const COLLECTOR: &str = "abcdefghijklmnopqrstuvwxyz-ABCDEFGHIJKLMNOPQRSTUVWXYZ_0123456789";

// The words of a text, between its spaces.
fn split(alloc: Global, text: &str) -> Result<Vec<&str>, NoMemory> {
    let mut words = Vec::new(alloc);
    for word in text.split(' ') {
        words.push(word)?;
    }
    Ok(words)
}

// What the words of a text ask for, as it is shown; `-` where they aren't a command.
fn shown(alloc: Global, text: &str) -> Result<String, NoMemory> {
    let words = split(alloc, text)?;
    match read_words(alloc, words.as_slice()) {
        Ok(command) => Ok(format!(in alloc; "{command:?}")?),
        Err(WordsFault::Usage) => Ok(format!(in alloc; "-")?),
        Err(WordsFault::NoMemory) => Err(NoMemory),
    }
}

// Whether the words of a text aren't a command, and this one's usage is told.
fn is_refused(alloc: Global, text: &str, usage: Usage) -> Result<bool, NoMemory> {
    let words = split(alloc, text)?;
    let told = usage_of(words.as_slice());
    let shown = shown(alloc, text)?;
    Ok(told == usage && shown.as_str() == "-")
}

#[test]
fn no_words(rt: HostRuntime) {
    assert!(rt; usage_of(&[]) == Usage::Commands);
    let Err(fault) = read_words(rt.alloc(), &[]) else {
        panic!(rt; "no words");
    };
    assert!(rt; fault == WordsFault::Usage);
}

#[test]
fn no_commands(rt: HostRuntime) -> Result<(), NoMemory> {
    for text in [
        "",
        "rounds",
        "Round h1 Log /a.log",
        "--help",
        "--",
        "-",
        "help",
        "udps",
    ] {
        assert!(rt; is_refused(rt.alloc(), text, Usage::Commands)?, "{text}");
    }
    Ok(())
}

#[test]
fn refused_rounds(rt: HostRuntime) -> Result<(), NoMemory> {
    for text in [
        "round",
        "round h1 Log",
        "round --help",
        "round -h",
        "round h1 Log --",
        "round h1 Log /a.log -x",
        "round h1 Log /a.log -\u{e9}",
        "round h1 Log /a.log --turns 1",
        "round h1 Log /a.log --read 1",
        "round h1 Log /a.log --reads",
        "round --reads h1 Log /a.log",
        "round h1 Log /a.log --reads --",
        "round h1 Log /a.log --reads -- 1",
        "round h1 Log /a.log --reads -1",
        "round h1 Log /a.log --reads --cluster x",
        "round h1 Log /a.log --reads=",
        "round h1 Log /a.log --reads 0",
        "round h1 Log /a.log --reads +1",
        "round h1 Log /a.log --reads 1x",
        "round h1 Log /a.log --reads 9223372036854775808",
        "round h1 Log /a.log --reads 00000000000000000001",
        "round h1 Log /a.log --reads 1 --reads 1",
        "round h1 Log /a.log --reads=1 --reads 1",
        "round h1 Log /a.log --cluster=",
        "round h1 Log /a.log --cluster a\tb",
        "round h1 Log /a.log --class Plain",
        "round h1 Log /a.log --class other.LWFTAdaptor",
        "round .h1 Log /a.log",
        "round h/1 Log /a.log",
        "round h1 a\tb /a.log",
        "round h1 Log ",
        "round h1 Log /a.log /b\u{7f}.log",
    ] {
        assert!(rt; is_refused(rt.alloc(), text, Usage::Round)?, "{text}");
    }
    Ok(())
}

#[test]
fn other_refusals(rt: HostRuntime) -> Result<(), NoMemory> {
    for (text, usage) in [
        ("agent", Usage::Agent),
        ("agent h1", Usage::Agent),
        ("agent --turns 0 h1 A", Usage::Agent),
        ("agent --turns 1 --turns 1 h1 A", Usage::Agent),
        ("agent --initial h1 A", Usage::Agent),
        ("agent --initial= h1 A", Usage::Agent),
        ("agent --control a\tb h1 A", Usage::Agent),
        ("agent --poll x h1 A", Usage::Agent),
        ("agent --expire 9223372036854775808 h1 A", Usage::Agent),
        ("agent --pause 201 h1 A", Usage::Agent),
        ("agent --pause x h1 A", Usage::Agent),
        ("agent --reads 1 h1 A", Usage::Agent),
        ("agent h1 A a\tb", Usage::Agent),
        ("collector", Usage::Collector),
        ("collector --tee a\tb c1 A", Usage::Collector),
        ("collector c1", Usage::Collector),
        ("collector c1 A B", Usage::Collector),
        ("collector c.1 A", Usage::Collector),
        ("collector --turns 0 c1 A", Usage::Collector),
        ("collector --rotate -1 c1 A", Usage::Collector),
        ("collector --messages 0 c1 A", Usage::Collector),
        ("collector --messages 65 c1 A", Usage::Collector),
        ("collector --messages= c1 A", Usage::Collector),
        ("collector --rotate 1 --rotate=2 c1 A", Usage::Collector),
        ("collector --cluster x c1 A", Usage::Collector),
        ("drain h1", Usage::Drain),
        ("drain --polls 0 h1 A", Usage::Drain),
        ("drain --polls 1000001 h1 A", Usage::Drain),
        ("drain --reads 0 h1 A", Usage::Drain),
        ("drain --class LWFTAdaptor h1 A", Usage::Drain),
        ("archive x", Usage::Archive),
        ("archive --x", Usage::Archive),
        ("archive -- x", Usage::Archive),
        ("archive --help", Usage::Archive),
        ("demux a\tb", Usage::Demux),
        ("demux A -x", Usage::Demux),
        ("demux A ", Usage::Demux),
        ("salvage", Usage::Salvage),
        ("salvage a b", Usage::Salvage),
        ("salvage -x", Usage::Salvage),
        ("load", Usage::Load),
        ("load 0", Usage::Load),
        ("load 200001", Usage::Load),
        ("load 1 1", Usage::Load),
        ("load -1", Usage::Load),
        ("load --lines 1", Usage::Load),
        ("subscribe", Usage::Subscribe),
        ("subscribe A B", Usage::Subscribe),
        ("subscribe a\tb", Usage::Subscribe),
        ("subscribe --turns 0 A", Usage::Subscribe),
        ("subscribe --turns 9223372036854775808 A", Usage::Subscribe),
        ("subscribe --messages 1 A", Usage::Subscribe),
        ("join", Usage::Join),
        ("join a", Usage::Join),
        ("join a b c", Usage::Join),
        ("join joined b", Usage::Join),
        ("join a joined", Usage::Join),
        ("join demux b", Usage::Join),
        ("join a demux", Usage::Join),
        ("join a\tb c", Usage::Join),
        ("join --turns 1 a b", Usage::Join),
    ] {
        assert!(rt; is_refused(rt.alloc(), text, usage)?, "{text}");
    }
    Ok(())
}

#[test]
fn commands(rt: HostRuntime) -> Result<(), NoMemory> {
    for (text, wanted) in [
        (
            "round h1 Log /a.log",
            "Round(RoundWords { class: Plain, reads: 1000000, cluster: \"none\", source: \"h1\", kind: \"Log\", logs: [\"/a.log\"] })",
        ),
        (
            "round h1 --reads=007 Log /a.log --class filetailer.CharFileTailingAdaptorUTF8 - --cluster demo",
            "Round(RoundWords { class: Lines, reads: 7, cluster: \"demo\", source: \"h1\", kind: \"Log\", logs: [\"/a.log\", \"-\"] })",
        ),
        (
            "round --reads 9223372036854775807 --class=FileTailingAdaptor --cluster=-x -- -h -l --reads --",
            "Round(RoundWords { class: Rotating, reads: 9223372036854775807, cluster: \"-x\", source: \"-h\", kind: \"-l\", logs: [\"--reads\", \"--\"] })",
        ),
        (
            "agent h1 A",
            "Agent(AgentWords { initial: None, control: None, turns: 9223372036854775807, poll: 10000, expire: 300000, pause: 200, cluster: \"none\", source: \"h1\", collectors: [\"A\"] })",
        ),
        (
            "agent --initial F --control D --turns 5 --poll 0 --expire 0 --pause 0 --cluster x h1 A A",
            "Agent(AgentWords { initial: Some(\"F\"), control: Some(\"D\"), turns: 5, poll: 0, expire: 0, pause: 0, cluster: \"x\", source: \"h1\", collectors: [\"A\", \"A\"] })",
        ),
        (
            "agent --control - h1 A",
            "Agent(AgentWords { initial: None, control: Some(\"-\"), turns: 9223372036854775807, poll: 10000, expire: 300000, pause: 200, cluster: \"none\", source: \"h1\", collectors: [\"A\"] })",
        ),
        (
            "collector c1 A",
            "Collector(CollectorWords { rotate: 300000, turns: 9223372036854775807, messages: 1, tee: None, name: \"c1\", address: \"A\" })",
        ),
        (
            "collector c-1 --turns 0000000000000000001 127.0.0.1:80 --rotate 0 --messages 64",
            "Collector(CollectorWords { rotate: 0, turns: 1, messages: 64, tee: None, name: \"c-1\", address: \"127.0.0.1:80\" })",
        ),
        (
            "collector --tee F c1 A",
            "Collector(CollectorWords { rotate: 300000, turns: 9223372036854775807, messages: 1, tee: Some(\"F\"), name: \"c1\", address: \"A\" })",
        ),
        (
            "drain h1 A B",
            "Drain(DrainWords { initial: None, reads: 1000000, polls: 60, cluster: \"none\", source: \"h1\", collectors: [\"A\", \"B\"] })",
        ),
        (
            "drain --initial=F --reads 1 --polls 1000000 --cluster x h1 A",
            "Drain(DrainWords { initial: Some(\"F\"), reads: 1, polls: 1000000, cluster: \"x\", source: \"h1\", collectors: [\"A\"] })",
        ),
        ("archive", "Archive"),
        ("archive --", "Archive"),
        ("demux", "Demux([])"),
        ("demux A -- -x", "Demux([\"A\", \"-x\"])"),
        ("salvage -- -x", "Salvage(\"-x\")"),
        ("salvage -", "Salvage(\"-\")"),
        ("load 1", "Load(1)"),
        ("load 0200000", "Load(200000)"),
        (
            "subscribe A",
            "Subscribe(SubscribeWords { turns: 9223372036854775807, address: \"A\" })",
        ),
        (
            "subscribe --turns=01 -- -x",
            "Subscribe(SubscribeWords { turns: 1, address: \"-x\" })",
        ),
        (
            "join a archive",
            "Join(JoinWords { left: \"a\", right: \"archive\" })",
        ),
    ] {
        let found = shown(rt.alloc(), text)?;
        assert_eq!(rt; found.as_str(), wanted, "{text}");
    }
    Ok(())
}

// A word list with a name of 64 or 65 bytes, and one with so many addresses.
fn with_name(alloc: Global, first: &str, name: &str, last: &str) -> Result<String, NoMemory> {
    shown(alloc, format!(in alloc; "{first}{name}{last}")?.as_str())
}

fn with_addresses(alloc: Global, first: &str, count: usize) -> Result<String, NoMemory> {
    let mut text = String::from_str(alloc, first)?;
    for _ in 0..count {
        text.push_str(" A")?;
    }
    shown(alloc, text.as_str())
}

#[test]
fn names_and_counts_at_their_limits(rt: HostRuntime) -> Result<(), NoMemory> {
    for (first, name, last, is_refused) in [
        ("round ", SOURCE, " Log /a.log", false),
        ("round a", SOURCE, " Log /a.log", true),
        ("collector ", COLLECTOR, " A", false),
        ("collector a", COLLECTOR, " A", true),
    ] {
        let found = with_name(rt.alloc(), first, name, last)?;
        assert!(rt; (found.as_str() == "-") == is_refused, "{first}");
    }
    for (first, count, is_refused) in [
        ("agent h1", 0, true),
        ("agent h1", 64, false),
        ("agent h1", 65, true),
        ("drain h1", 0, true),
        ("drain h1", 64, false),
        ("drain h1", 65, true),
        ("round h1 Log", 65, false),
    ] {
        let found = with_addresses(rt.alloc(), first, count)?;
        assert!(rt; (found.as_str() == "-") == is_refused, "{first} {count}");
    }
    Ok(())
}
