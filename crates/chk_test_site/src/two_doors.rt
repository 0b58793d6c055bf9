// A message over the network: to the real site by a peer of std, and to the site in memory by an act of a sender. What
// is taken, in pieces or whole, and the answer are the same.
use chk_site::{Call, Script, Site, Taking};
use chk_site_mem::SiteMem;
use chk_site_real::SiteReal;
use chk_test_calls::{collector, quiet, written};
use std::alloc::Global;
use std::io;
use std::io::{Read, Write};
use std::net::{Shutdown, TcpListener, TcpStream, UdpSocket};
use std::test::Fail;

// The pieces of the message.
const PIECES: [&str; 3] = ["one", "two", "three"];

// The answer to it.
const ANSWER: &[u8] = b"taken\n";

// A sender and how often it went on; at the site in memory it has no stream.
#[derive(Drop)]
struct Peer {
    stream: Option<TcpStream>,
    turns: usize,
}

// Sends the next piece, or the end.
fn goes_on(peer: &mut Peer) -> io::Result<()> {
    let turn = peer.turns;
    peer.turns = turn.saturating_add(1);
    match &mut peer.stream {
        Some(stream) => send_turn(stream, turn),
        None => Ok(()),
    }
}

fn send_turn(stream: &mut TcpStream, turn: usize) -> io::Result<()> {
    if turn < PIECES.len() {
        return stream.write_all(PIECES[turn].as_bytes());
    }
    if turn == PIECES.len() {
        return stream.shutdown(Shutdown::Write);
    }
    Ok(())
}

// The door is opened by a taking that finds nothing.
fn opens<S: Site>(alloc: Global, site: &mut S, door: &str) -> Result<(), Fail> {
    match site.take(alloc, &collector(alloc)?, door, 0)? {
        None => Ok(()),
        Some(_) => Err(Fail::new("a message")),
    }
}

fn takes<S: Site>(alloc: Global, site: &mut S, door: &str) -> Result<Taking, Fail> {
    let taking = site.take(alloc, &collector(alloc)?, door, 1000)?;
    Ok(taking.ok_or("no message")?)
}

fn add(bytes: &[u8], told: &mut String) -> Result<(), Fail> {
    Ok(told.push_str(std::str::from_utf8(bytes)?)?)
}

fn add_next<S: Site>(
    alloc: Global,
    site: &mut S,
    number: u64,
    told: &mut String,
) -> Result<(), Fail> {
    let piece = site.more(alloc, &collector(alloc)?, number)?;
    add(piece.as_slice(), told)
}

// The taking's number and its first piece.
fn told_of(alloc: Global, taking: &Taking) -> Result<String, Fail> {
    let number = taking.number;
    let mut told = format!(in alloc; "{number} ")?;
    add(taking.bytes.as_slice(), &mut told)?;
    Ok(told)
}

// Adds the further pieces, as far as there are any.
fn add_rest<S: Site>(
    alloc: Global,
    site: &mut S,
    number: u64,
    peer: &mut Peer,
    told: &mut String,
) -> Result<(), Fail> {
    for _ in 0..4 {
        goes_on(peer)?;
        add_next(alloc, site, number, told)?;
    }
    Ok(())
}

fn answers<S: Site>(alloc: Global, site: &mut S, number: u64) -> Result<(), Fail> {
    Ok(site.answer(alloc, &collector(alloc)?, number, ANSWER)?)
}

fn same(told: &str, wanted: &str) -> Result<(), Fail> {
    match told == wanted {
        true => Ok(()),
        false => Err(Fail::new(told)),
    }
}

// The message is taken whole as the first taking, and answered.
fn takes_whole<S: Site>(
    alloc: Global,
    site: &mut S,
    door: &str,
    peer: &mut Peer,
) -> Result<(), Fail> {
    let taking = takes(alloc, site, door)?;
    let mut told = told_of(alloc, &taking)?;
    add_rest(alloc, site, taking.number, peer, &mut told)?;
    same(told.as_str(), "1 onetwothree")?;
    answers(alloc, site, taking.number)
}

fn sent(alloc: Global, door: &str, text: &str) -> Result<Script, Fail> {
    let mut other = written(alloc, Call::Send, &[door.as_bytes(), text.as_bytes()])?;
    other.before = 2;
    other.act.number = 1;
    let mut script = quiet(alloc);
    script.others.push(other)?;
    Ok(script)
}

fn free_address(rt: &HostRuntime) -> io::Result<String> {
    let address = TcpListener::bind(rt, "127.0.0.1:0")?.local_addr()?;
    Ok(format!(in rt.alloc(); "{address}")?)
}

// Whether this is the answer to the first message.
fn got_in_memory(alloc: Global, site: &mut SiteMem) -> Result<(), Fail> {
    let answer = site.got(alloc, &collector(alloc)?, 1)?;
    is_answer(answer.as_slice())
}

fn is_answer(answer: &[u8]) -> Result<(), Fail> {
    match answer == ANSWER {
        true => Ok(()),
        false => Err(Fail::new("another answer")),
    }
}

// A site on which the message is sent once its door is open.
fn opened_in_memory(alloc: Global, door: &str, text: &str) -> Result<SiteMem, Fail> {
    let mut site = SiteMem::new(alloc, sent(alloc, door, text)?)?;
    opens(alloc, &mut site, door)?;
    Ok(site)
}

fn takes_all(alloc: Global, site: &mut SiteMem, door: &str) -> Result<(), Fail> {
    let mut nobody = Peer {
        stream: None,
        turns: 0,
    };
    takes_whole(alloc, site, door, &mut nobody)?;
    got_in_memory(alloc, site)
}

#[test]
fn a_stream_in_memory(rt: HostRuntime) -> Result<(), Fail> {
    let mut site = opened_in_memory(rt.alloc(), "127.0.0.1:80", "onetwothree")?;
    takes_all(rt.alloc(), &mut site, "127.0.0.1:80")
}

// A peer at the door that has sent its message piece by piece and ended its side: a door hands out what is whole.
fn connected(rt: &HostRuntime, door: &str) -> Result<Peer, Fail> {
    let mut peer = Peer {
        stream: Some(TcpStream::connect(rt, door)?),
        turns: 0,
    };
    for _ in 0..4 {
        goes_on(&mut peer)?;
    }
    Ok(peer)
}

fn got_by(alloc: Global, peer: Peer) -> Result<(), Fail> {
    let mut stream = peer.stream.ok_or("no stream")?;
    let mut answer = Vec::new(alloc);
    stream.read_to_end(&mut answer)?;
    is_answer(answer.as_slice())
}

// A stream is taken whole, its peer gets the answer, and no call fails.
fn takes_stream<S: Site>(rt: &HostRuntime, site: &mut S, door: &str) -> Result<(), Fail> {
    opens(rt.alloc(), site, door)?;
    let mut peer = connected(rt, door)?;
    takes_whole(rt.alloc(), site, door, &mut peer)?;
    got_by(rt.alloc(), peer)?;
    match site.faults() {
        0 => Ok(()),
        _ => Err(Fail::new("a call failed")),
    }
}

fn stream_at(rt: HostRuntime, door: &str) -> Result<(), Fail> {
    let mut site = SiteReal::new(rt, rt.alloc());
    takes_stream(&rt, &mut site, door)
}

#[test]
fn a_stream_on_the_machine(rt: HostRuntime) -> Result<(), Fail> {
    let door = free_address(&rt)?;
    stream_at(rt, door.as_str())
}

// One datagram is taken whole; it has no further piece.
fn takes_datagram<S: Site>(alloc: Global, site: &mut S, door: &str) -> Result<(), Fail> {
    let taking = takes(alloc, site, door)?;
    let mut told = told_of(alloc, &taking)?;
    told.push('.')?;
    add_next(alloc, site, taking.number, &mut told)?;
    same(told.as_str(), "1 ab.")
}

#[test]
fn a_datagram_in_memory(rt: HostRuntime) -> Result<(), Fail> {
    let mut site = opened_in_memory(rt.alloc(), "udp:127.0.0.1:80", "ab")?;
    takes_datagram(rt.alloc(), &mut site, "udp:127.0.0.1:80")
}

fn send_datagram(rt: &HostRuntime, address: &str) -> Result<(), Fail> {
    let socket = UdpSocket::bind(rt, "127.0.0.1:0")?;
    socket.send_to(b"ab".as_slice(), address)?;
    Ok(())
}

// A datagram to this address is taken at the door.
fn takes_sent<S: Site>(
    rt: &HostRuntime,
    site: &mut S,
    address: &str,
    door: &str,
) -> Result<(), Fail> {
    opens(rt.alloc(), site, door)?;
    send_datagram(rt, address)?;
    takes_datagram(rt.alloc(), site, door)
}

fn datagram_at(rt: HostRuntime, address: &str) -> Result<(), Fail> {
    let door = format!(in rt.alloc(); "udp:{address}")?;
    let mut site = SiteReal::new(rt, rt.alloc());
    takes_sent(&rt, &mut site, address, door.as_str())
}

#[test]
fn a_datagram_on_the_machine(rt: HostRuntime) -> Result<(), Fail> {
    let address = free_address(&rt)?;
    datagram_at(rt, address.as_str())
}
