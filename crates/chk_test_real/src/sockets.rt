//! Messages over real sockets on the loopback interface.
use chk_bytes::Bytes;
use chk_site::{CallFault, Taking};
use chk_site_errors::SystemFault;
use chk_site_sockets::Messages;
use std::alloc::Global;
use std::io::Write;
use std::net::{TcpListener, TcpStream, UdpSocket};
use std::test::Fail;
use std::time::{Clock, Duration};
use std::{io, thread};

// One end, with the runtime that its calls take.
#[derive(Drop)]
struct End {
    rt: HostRuntime,
    alloc: Global,
    messages: Messages<HostRuntime>,
}

fn begin(rt: HostRuntime) -> End {
    let alloc = rt.alloc();
    let messages = Messages::new(alloc);
    End {
        rt,
        alloc,
        messages,
    }
}

impl End {
    fn send(&mut self, address: &str, text: &str) -> Result<u64, CallFault> {
        let bytes = text.as_bytes();
        self.messages
            .send(&self.rt, self.alloc, address, bytes)
            .map_err(SystemFault::call_fault)
    }

    fn take(&mut self, door: &str, wait: u64) -> Result<Option<Taking>, CallFault> {
        self.messages
            .take(&self.rt, self.alloc, door, wait)
            .map_err(SystemFault::call_fault)
    }

    fn answer(&mut self, taking: u64, text: &str) -> Result<(), CallFault> {
        let bytes = text.as_bytes();
        self.messages
            .answer(&self.rt, self.alloc, taking, bytes)
            .map_err(SystemFault::call_fault)
    }

    // The next taking within a second is this one.
    fn takes(&mut self, door: &str, number: u64, text: &str) -> bool {
        match self.take(door, 1000) {
            Ok(Some(taking)) => taking.number == number && is_text(&taking.bytes, text),
            _ => false,
        }
    }

    // No message is there now.
    fn finds_none(&mut self, door: &str) -> bool {
        matches!(self.take(door, 0), Ok(None))
    }

    // The answer to the message is this one; none where the call fails.
    fn gets(&mut self, message: u64, wanted: Option<&str>) -> bool {
        match (self.messages.got(&self.rt, self.alloc, message), wanted) {
            (Ok(bytes), Some(text)) => is_text(&bytes, text),
            (Err(SystemFault::Failed(_)), None) => true,
            _ => false,
        }
    }

    fn has_more(&mut self, taking: u64, text: &str) -> bool {
        match self.messages.more(&self.rt, self.alloc, taking) {
            Ok(bytes) => is_text(&bytes, text),
            Err(_) => false,
        }
    }
}

fn is_text(given: &Bytes, text: &str) -> bool {
    given.as_slice() == text.as_bytes()
}

// An address at which nobody listens.
fn free_address(rt: &HostRuntime) -> io::Result<String> {
    let address = TcpListener::bind(rt, "127.0.0.1:0")?.local_addr()?;
    Ok(format!(in rt.alloc(); "{address}")?)
}

fn expect(holds: bool, what: &str) -> Result<(), Fail> {
    if holds { Ok(()) } else { Err(Fail::new(what)) }
}

// The oldest message in the mailbox is this one; it is answered once, and its answer is got once.
fn is_next(end: &mut End, number: u64, text: &str) -> Result<(), Fail> {
    expect(end.gets(number, Some("")), "an early answer")?;
    expect(end.takes("self", number, text), text)?;
    end.answer(number, text)?;
    expect(
        end.answer(number, text) == Err(CallFault::Failed),
        "two answers",
    )?;
    expect(end.gets(number, Some(text)), "an answer")?;
    expect(end.gets(number, None), "an answer again")
}

fn keeps_order(end: &mut End) -> Result<(), Fail> {
    expect(end.send("self", "one")? == 1, "the first message")?;
    expect(end.send("self", "two")? == 2, "the second message")?;
    is_next(end, 1, "one")?;
    is_next(end, 2, "two")?;
    expect(end.finds_none("self"), "an empty mailbox")?;
    end.send("self", "three")?;
    end.messages.start();
    expect(end.finds_none("self"), "a start empties the mailbox")
}

#[test]
fn the_mailbox_keeps_its_order(rt: HostRuntime) -> Result<(), Fail> {
    let mut end = begin(rt);
    keeps_order(&mut end)
}

fn is_lost(end: &mut End, address: &str) -> Result<(), Fail> {
    expect(end.send(address, "lost") == Err(CallFault::Failed), address)
}

fn loses(end: &mut End, address: &str) -> Result<(), Fail> {
    is_lost(end, address)?;
    is_lost(end, "127.0.0.1")?;
    is_lost(end, "localhost:99999")?;
    is_lost(end, "")
}

#[test]
fn nobody_takes_what_is_sent_elsewhere(rt: HostRuntime) -> Result<(), Fail> {
    let address = free_address(&rt)?;
    let mut end = begin(rt);
    loses(&mut end, address.as_str())
}

// The port of an address, behind the name of this host.
fn by_name(rt: &HostRuntime, address: &str) -> io::Result<String> {
    let port = match address.rsplit_once(':') {
        Some((_, port)) => port,
        None => "",
    };
    Ok(format!(in rt.alloc(); "localhost:{port}")?)
}

// One message to the door and its answer.
fn goes_round(here: &mut End, there: &mut End, door: &str, number: u64) -> Result<(), Fail> {
    expect(there.send(door, "hello\n")? == number, "a message")?;
    expect(here.takes(door, number, "hello\n"), "a taking")?;
    expect(here.has_more(number, ""), "all of it")?;
    Ok(here.answer(number, "taken\n")?)
}

fn goes_by_name(here: &mut End, there: &mut End, door: &str) -> Result<(), Fail> {
    is_lost(there, door)?;
    expect(here.finds_none(door), "a message")?;
    for number in 1..=3 {
        goes_round(here, there, door, number)?;
        expect(there.gets(number, Some("taken\n")), "an answer")?;
    }
    Ok(())
}

#[test]
fn a_host_is_found_by_its_name(rt: HostRuntime) -> Result<(), Fail> {
    let address = by_name(&rt, free_address(&rt)?.as_str())?;
    let mut here = begin(rt);
    let mut there = begin(rt);
    goes_by_name(&mut here, &mut there, address.as_str())
}

// The oldest two have no stream any more.
fn has_last_answers(there: &mut End) -> Result<(), Fail> {
    for number in 1..=66 {
        let wanted = if number > 2 { Some("taken\n") } else { None };
        expect(there.gets(number, wanted), "an answer")?;
    }
    Ok(())
}

fn goes_often(here: &mut End, there: &mut End, door: &str) -> Result<(), Fail> {
    expect(here.finds_none(door), "a message")?;
    for number in 1..=66 {
        goes_round(here, there, door, number)?;
    }
    has_last_answers(there)
}

#[test]
fn the_last_streams_carry_answers(rt: HostRuntime) -> Result<(), Fail> {
    let address = free_address(&rt)?;
    let mut here = begin(rt);
    let mut there = begin(rt);
    goes_often(&mut here, &mut there, address.as_str())
}

fn takes_a_part(here: &mut End, door: &str, slow: &mut TcpStream) -> Result<(), Fail> {
    slow.write_all(b"tw\n".as_slice())?;
    expect(here.takes(door, 1, "tw\n"), "a part of a message")?;
    slow.write_all(b"o\n".as_slice())?;
    expect(here.has_more(1, "o\n"), "the rest of the message")?;
    expect(
        here.takes(door, 2, "one"),
        "the message of a peer that ended its side",
    )?;
    expect(here.has_more(1, ""), "the first message has no more")?;
    expect(
        here.answer(1, "late") == Err(CallFault::Failed),
        "a late answer",
    )
}

fn takes_the_next(here: &mut End, there: &mut End, door: &str) -> Result<(), Fail> {
    expect(here.finds_none(door), "a message")?;
    there.send(door, "one")?;
    let mut slow = TcpStream::connect(&here.rt, door)?;
    takes_a_part(here, door, &mut slow)
}

#[test]
fn a_taking_without_an_answer_ends_at_the_next(rt: HostRuntime) -> Result<(), Fail> {
    let address = free_address(&rt)?;
    let mut here = begin(rt);
    let mut there = begin(rt);
    takes_the_next(&mut here, &mut there, address.as_str())
}

const POST: &str = "POST /chukwa HTTP/1.1\r\nContent-Length: 2\r\n\r\nab";

// A request that isn't whole holds nobody, and is whole with its last byte.
fn passes_a_slow_peer(here: &mut End, there: &mut End, door: &str) -> Result<(), Fail> {
    expect(here.finds_none(door), "a message")?;
    let mut slow = TcpStream::connect(&here.rt, door)?;
    slow.write_all(b"POST /chukwa HTTP/1.1\r\nContent-Length: 2\r\n\r\na".as_slice())?;
    there.send(door, POST)?;
    expect(here.takes(door, 1, POST), "the whole request")?;
    here.answer(1, "taken\n")?;
    expect(there.gets(1, Some("taken\n")), "an answer")?;
    expect(here.finds_none(door), "a part of a request")?;
    slow.write_all(b"b".as_slice())?;
    expect(here.takes(door, 2, POST), "the slow request")
}

#[test]
fn a_request_is_handed_out_once_it_is_whole(rt: HostRuntime) -> Result<(), Fail> {
    let address = free_address(&rt)?;
    let mut here = begin(rt);
    let mut there = begin(rt);
    passes_a_slow_peer(&mut here, &mut there, address.as_str())
}

const FRESH: &str = "POST /chukwa HTTP/1.1\r\nContent-Length: 2\r\n\r\ncd";

// A request that came nearly two seconds ago is served behind one that came now.
fn serves_the_fresh_first(here: &mut End, there: &mut End, door: &str) -> Result<(), Fail> {
    expect(here.finds_none(door), "a message")?;
    there.send(door, POST)?;
    there.send(door, POST)?;
    expect(here.takes(door, 1, POST), "the first request")?;
    thread::sleep(&here.rt, Duration::from_millis(1_950));
    there.send(door, FRESH)?;
    expect(here.takes(door, 2, FRESH), "the fresh request")?;
    expect(here.takes(door, 3, POST), "the stale request")
}

#[test]
fn a_stale_request_is_served_behind_a_fresh_one(rt: HostRuntime) -> Result<(), Fail> {
    let address = free_address(&rt)?;
    let mut here = begin(rt);
    let mut there = begin(rt);
    serves_the_fresh_first(&mut here, &mut there, address.as_str())
}

// Nobody asks for the answer to what begins as copies do, and its sender is gone behind it.
fn lets_copies_go(here: &mut End, there: &mut End, door: &str) -> Result<(), Fail> {
    expect(here.finds_none(door), "a message")?;
    there.send(door, "CHKT\n")?;
    expect(there.gets(1, None), "no stream")?;
    there.send(door, POST)?;
    expect(
        here.takes(door, 1, POST),
        "the request of a peer that is there",
    )?;
    expect(
        here.takes(door, 2, "CHKT\n"),
        "the message of one that is gone",
    )
}

#[test]
fn who_ended_its_side_is_served_last(rt: HostRuntime) -> Result<(), Fail> {
    let address = free_address(&rt)?;
    let mut here = begin(rt);
    let mut there = begin(rt);
    lets_copies_go(&mut here, &mut there, address.as_str())
}

fn go_away(_stream: TcpStream) {}

fn passes_silent_peers(here: &mut End, there: &mut End, door: &str) -> Result<(), Fail> {
    expect(here.finds_none(door), "a message")?;
    go_away(TcpStream::connect(&here.rt, door)?);
    let _silent = TcpStream::connect(&here.rt, door)?;
    there.send(door, "one")?;
    expect(here.takes(door, 1, "one"), "the message of a third peer")
}

#[test]
fn a_peer_that_sends_nothing_is_no_message(rt: HostRuntime) -> Result<(), Fail> {
    let address = free_address(&rt)?;
    let mut here = begin(rt);
    let mut there = begin(rt);
    passes_silent_peers(&mut here, &mut there, address.as_str())
}

fn sends_long(there: &mut End, door: &str, bytes: &[u8]) -> Result<(), Fail> {
    let sent = there.messages.send(&there.rt, there.alloc, door, bytes);
    expect(sent.is_ok(), "a long message")
}

fn answers_early(here: &mut End, there: &mut End, door: &str, bytes: &[u8]) -> Result<(), Fail> {
    expect(here.finds_none(door), "a message")?;
    sends_long(there, door, bytes)?;
    expect(here.take(door, 1000)?.is_some(), "no message")?;
    here.answer(1, "refused\n")?;
    expect(there.gets(1, Some("refused\n")), "an early answer")
}

#[test]
fn an_early_answer_is_not_lost(rt: HostRuntime) -> Result<(), Fail> {
    let address = free_address(&rt)?;
    let bytes = vec![in rt.alloc(); 7u8; 200_000]?;
    let mut here = begin(rt);
    let mut there = begin(rt);
    answers_early(&mut here, &mut there, address.as_str(), bytes.as_slice())
}

fn answers_long(here: &mut End, bytes: &[u8]) -> Result<(), Fail> {
    let began = here.rt.monotonic()?;
    let answered = here.messages.answer(&here.rt, here.alloc, 1, bytes);
    expect(answered.is_err(), "an answer that nobody reads")?;
    let took = here.rt.monotonic()?.saturating_sub(began);
    expect(
        took < Duration::from_millis(3000),
        "more than three seconds",
    )
}

fn isnt_read(here: &mut End, there: &mut End, door: &str, bytes: &[u8]) -> Result<(), Fail> {
    expect(here.finds_none(door), "a message")?;
    there.send(door, "one")?;
    expect(here.takes(door, 1, "one"), "no message")?;
    answers_long(here, bytes)
}

#[test]
fn an_answer_that_is_not_read_fails_in_time(rt: HostRuntime) -> Result<(), Fail> {
    let address = free_address(&rt)?;
    let bytes = vec![in rt.alloc(); 7u8; 16_000_000]?;
    let mut here = begin(rt);
    let mut there = begin(rt);
    isnt_read(&mut here, &mut there, address.as_str(), bytes.as_slice())
}

fn takes_datagrams(here: &mut End, address: &str, door: &str) -> Result<(), Fail> {
    expect(here.finds_none(door), "a message")?;
    let socket = UdpSocket::bind(&here.rt, "127.0.0.1:0")?;
    socket.send_to(b"ab".as_slice(), address)?;
    expect(here.takes(door, 1, "ab"), "a datagram")?;
    socket.send_to(b"".as_slice(), address)?;
    expect(here.takes(door, 2, ""), "an empty datagram")?;
    socket.send_to(b"c\n".as_slice(), address)?;
    expect(here.takes(door, 3, "c\n"), "a third datagram")?;
    expect(here.has_more(3, ""), "a datagram is whole")?;
    expect(
        here.answer(3, "taken\n") == Err(CallFault::Failed),
        "a datagram has no answer",
    )
}

#[test]
fn a_datagram_is_a_whole_message(rt: HostRuntime) -> Result<(), Fail> {
    let address = free_address(&rt)?;
    let door = format!(in rt.alloc(); "udp:{address}")?;
    let mut here = begin(rt);
    takes_datagrams(&mut here, address.as_str(), door.as_str())
}

// One datagram of so many bytes is taken whole.
fn takes_long(here: &mut End, address: &str, door: &str, bytes: &[u8]) -> Result<(), Fail> {
    let socket = UdpSocket::bind(&here.rt, "127.0.0.1:0")?;
    socket.send_to(bytes, address)?;
    match here.take(door, 1000)? {
        Some(taking) => expect(taking.bytes.as_slice() == bytes, "all of a datagram"),
        None => Err(Fail::new("a datagram")),
    }
}

// So many of the first bytes, or all where there are fewer.
fn front(bytes: &[u8], size: usize) -> &[u8] {
    &bytes[..size.min(bytes.len())]
}

fn takes_each(here: &mut End, address: &str, door: &str, bytes: &[u8]) -> Result<(), Fail> {
    expect(here.finds_none(door), "a message")?;
    expect(bytes.len() == 65_507, "the longest datagram")?;
    takes_long(here, address, door, front(bytes, 0))?;
    takes_long(here, address, door, front(bytes, 1))?;
    takes_long(here, address, door, front(bytes, 1_472))?;
    takes_long(here, address, door, bytes)
}

#[test]
fn datagrams_of_each_size_are_whole(rt: HostRuntime) -> Result<(), Fail> {
    let address = free_address(&rt)?;
    let door = format!(in rt.alloc(); "udp:{address}")?;
    let bytes = vec![in rt.alloc(); 7u8; 65_507]?;
    let mut here = begin(rt);
    takes_each(&mut here, address.as_str(), door.as_str(), bytes.as_slice())
}

// What is sent to a port that nobody has is lost; an address that is taken is no door.
fn finds_it_taken(here: &mut End, there: &mut End, address: &str, door: &str) -> Result<(), Fail> {
    let socket = UdpSocket::bind(&here.rt, "127.0.0.1:0")?;
    socket.send_to(b"lost".as_slice(), address)?;
    expect(here.finds_none(door), "a message of before")?;
    expect(there.take(door, 0).is_err(), "a door in use")?;
    expect(there.take("udp:1", 0).is_err(), "no address")
}

#[test]
fn a_door_for_datagrams_is_one(rt: HostRuntime) -> Result<(), Fail> {
    let address = free_address(&rt)?;
    let door = format!(in rt.alloc(); "udp:{address}")?;
    let mut here = begin(rt);
    let mut there = begin(rt);
    finds_it_taken(&mut here, &mut there, address.as_str(), door.as_str())
}
