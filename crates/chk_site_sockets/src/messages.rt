//! Messages, with the numbers of what was sent and taken.
ghost use Rattle.std.specs.Prelude.{◌≡◌, ◌⊎◌, ◌+◌, ◌∷◌, ◌++◌, [], None, option_map, string_bytes, IfNone, IfOk, IfSome, IsFalse, IsOkAnd, IsSomeAnd, IsTrue, OnErr, OnOk};
ghost use Rattle.std.specs.Io.KnownBytes.{Consumes};
ghost use Rattle.chk_site.specs.Site.{MayFail};
ghost use Rattle.chk_site_errors.specs.Faults.{answer_of};
ghost use Rattle.chk_site_sockets.specs.Doors.{is_for_datagrams, taking_at, Answers, GoesOn, IsRoomless, Takes, TakesDatagram};
ghost use Rattle.chk_site_sockets.specs.Mailbox.{is_known, is_self, is_there, letter, Gets, TakesOldest};
ghost use Rattle.chk_site_sockets.specs.Sends.{IsClosed, IsSent};
ghost use Rattle.chk_site_sockets.specs.Streams.{IsPut};

use crate::doors::Doors;
use crate::mailbox::{Mailbox, SELF};
use crate::sends::Sends;
use chk_bytes::Bytes;
use chk_site::Taking;
use chk_site_errors::SystemFault;
use std::alloc::Global;
use std::io::ErrorKind;
use std::net::Net;
use std::time::{Clock, Duration};

/// What this process sent and took: at the address `self`, a mailbox inside it, and over the network.
/// Messages and takings are numbered from 1.
///
/// An address is an IP address or a host's name, and a port, as `127.0.0.1:9000` or `logs:9000`. A
/// name is looked up at a send or when a door is opened, by the system and in its time; up to four
/// addresses of a host are tried. The one to which a message was sent is kept, for the last 64
/// addresses, and looked up again after a send to it failed. A door is an address, or `udp:` and one.
/// One wait for a peer takes at most 2,000 ms. The last 64 messages that were sent over the network
/// keep their streams for the answer.
#[derive(Drop)]
pub struct Messages<R: Net> {
    mailbox: Mailbox,
    sends: Sends<R>,
    doors: Doors<R>,
    last_message: u64,
    last_taking: u64,
}

impl<R: Net + Clock> Messages<R> {
    pub fn new(alloc: Global) -> Messages<R>
        ensures waiting { result.mailbox.waiting.items ≡ [] }
        ensures held { result.mailbox.held ≡ None }
        ensures answered { result.mailbox.answered.items ≡ [] }
        ensures message { result.last_message ≡ 0 }
        ensures taking { result.last_taking ≡ 0 }
    {
        Messages {
            mailbox: Mailbox::new(alloc),
            sends: Sends::new(alloc),
            doors: Doors::new(alloc),
            last_message: 0,
            last_taking: 0,
        }
    }

    /// Lets go what waits in the mailbox, as a collector does at its start.
    pub fn start(&mut self)
        ensures waiting { self.new.mailbox.waiting.items ≡ [] }
        ensures held { self.new.mailbox.held ≡ None }
        ensures answered { self.new.mailbox.answered ≡ self.old.mailbox.answered }
    {
        self.mailbox.empty();
    }

    /// Sends the message, and gives its number. `Failed` where the address is none, nobody listens
    /// there, or the peer doesn't take all of it; some of it may have been sent then.
    pub fn send(
        &mut self,
        rt: &R,
        alloc: Global,
        address: &str,
        bytes: &[u8],
    ) -> Result<u64, SystemFault>
        ensures number { IfOk result (λ n. (n ≡ self.old.last_message + 1) × (self.new.last_message ≡ n)) }
        ensures waits { IsTrue (is_self address.now)
            → OnOk result (self.new.mailbox.waiting.items
            ≡ self.old.mailbox.waiting.items ++ letter (self.old.last_message + 1) bytes.now ∷ []) }
        ensures sent { IsFalse (is_self address.now)
            → OnOk result (IsSent self.old.sends.open.items self.new.sends.open.items
            (λ sent. sent.message) (self.old.last_message + 1) bytes.now) }
        ensures inside { IsTrue (is_self address.now) → self.new.sends ≡ self.old.sends }
        ensures outside { IsFalse (is_self address.now) → self.new.mailbox ≡ self.old.mailbox }
        ensures err { OnErr result (self.new.last_message ≡ self.old.last_message) }
        ensures only { MayFail (answer_of result) }
    {
        let message = next_number(self.last_message)?;
        if address == SELF {
            self.mailbox.send(alloc, message, bytes)?;
        } else {
            self.sends.send(rt, alloc, message, address, bytes)?;
        }
        self.last_message = message;
        Ok(message)
    }

    /// The answer to the message, once: up to 1,048,576 bytes that came within 2,000 ms. `Failed` where
    /// nothing came, or the message has no stream any more. At the mailbox no bytes come while there
    /// is no answer.
    pub fn got(&mut self, rt: &R, alloc: Global, message: u64) -> Result<Bytes, SystemFault>
        ensures inside { IsTrue (is_there message self.old.mailbox.answered.items
            (is_known message self.old.mailbox.held self.old.mailbox.waiting.items))
            → IsOkAnd result
            (Gets message self.old.mailbox.answered.items self.new.mailbox.answered.items) }
        ensures outside { IsFalse (is_there message self.old.mailbox.answered.items
            (is_known message self.old.mailbox.held self.old.mailbox.waiting.items))
            → OnOk result (IsClosed self.old.sends.open.items self.new.sends.open.items
            (λ sent. sent.message) message) }
        ensures waiting { self.new.mailbox.waiting ≡ self.old.mailbox.waiting }
        ensures held { self.new.mailbox.held ≡ self.old.mailbox.held }
        ensures only { MayFail (answer_of result) }
    {
        match self.mailbox.got(alloc, message) {
            Some(bytes) => Ok(bytes),
            None => self.sends.got(rt, alloc, message),
        }
    }

    /// Takes the first piece of the next message at the door, within `wait` ms; the taking before at
    /// this door ends. A door is opened at the first taking and stays open. `Failed` where it can't
    /// be opened or used. All peers that wait are let in, up to the first one whose bytes are there. Up
    /// to 256 that have sent nothing yet are held, each for 2,000 ms; then the oldest one goes.
    pub fn take(
        &mut self,
        rt: &R,
        alloc: Global,
        door: &str,
        wait: u64,
    ) -> Result<Option<Taking>, SystemFault>
        ensures number { IfOk result (λ taken. IfSome taken (λ t. (t.number ≡ self.old.last_taking + 1) × (self.new.last_taking ≡ t.number))) }
        ensures inside { IsTrue (is_self door.now) → self.new.doors ≡ self.old.doors }
        ensures outside { IsFalse (is_self door.now) → self.new.mailbox ≡ self.old.mailbox }
        ensures oldest { IsTrue (is_self door.now) → IfOk result (λ taken. IfSome taken (λ t.
            TakesOldest t.number self.old.mailbox.waiting.items self.new.mailbox.waiting.items
            self.new.mailbox.held t.bytes)) }
        ensures empty { IsTrue (is_self door.now)
            → IfOk result (λ taken. IfNone taken (self.old.mailbox.waiting.items ≡ [])) }
        ensures streams { IsFalse (is_self door.now) → IsFalse (is_for_datagrams door.now)
            → Takes self.old.doors.streams.open.items self.new.doors.streams.open.items
            (λ d. string_bytes d.name) (λ d. option_map (λ taken. taken.number) d.door.taken)
            door.now (self.old.last_taking + 1) result }
        ensures datagrams { IsFalse (is_self door.now) → IsTrue (is_for_datagrams door.now)
            → TakesDatagram self.old.doors.datagrams.open.items self.new.doors.datagrams.open.items
            (λ d. string_bytes d.name) door.now result }
        ensures err { OnErr result (self.new.last_taking ≡ self.old.last_taking) }
        ensures none { IfOk result
            (λ taken. IfNone taken (self.new.last_taking ≡ self.old.last_taking)) }
        ensures only { MayFail (answer_of result) }
    {
        let number = next_number(self.last_taking)?;
        if door == SELF {
            let bytes = self.mailbox.take(number);
            return Ok(self.noted(number, bytes));
        }
        let wait = Duration::from_millis(wait);
        let bytes = self.doors.take(rt, alloc, door, number, wait)?;
        Ok(self.noted(number, bytes))
    }

    // What was taken has this number.
    fn noted(&mut self, number: u64, bytes: Option<Bytes>) -> Option<Taking>
        ensures taking { result ≡ option_map (taking_at number) bytes }
        ensures some { IfSome bytes (λ _. self.new.last_taking ≡ number) }
        ensures none { IfNone bytes (self.new.last_taking ≡ self.old.last_taking) }
        ensures mailbox { self.new.mailbox ≡ self.old.mailbox }
        ensures doors { self.new.doors ≡ self.old.doors }
        ensures sends { self.new.sends ≡ self.old.sends }
        ensures message { self.new.last_message ≡ self.old.last_message }
    {
        let bytes = bytes?;
        self.last_taking = number;
        Some(Taking { number, bytes })
    }

    /// The next piece of the message; no bytes at its end, where nothing came within 2,000 ms, where the
    /// taking ended, and at the mailbox, where a message is taken whole.
    pub fn more(&mut self, rt: &R, alloc: Global, taking: u64) -> Result<Bytes, SystemFault>
        ensures more { GoesOn self.old.doors.streams.open.items self.new.doors.streams.open.items
            (λ d. string_bytes d.name) (λ d. option_map (λ taken. taken.number) d.door.taken)
            (λ before after bytes. IfSome before.door.taken (λ b. IsSomeAnd after.door.taken
            (λ a. Consumes (R.Stream.remaining b.stream) (R.Stream.remaining a.stream) bytes)))
            taking result
            ⊎ IsRoomless self.old.doors.streams self.new.doors.streams
            self.old.doors.buffer.items result }
        ensures same { self.new.mailbox ≡ self.old.mailbox }
        ensures only { MayFail (answer_of result) }
    {
        self.doors.more(rt, alloc, taking)
    }

    /// Answers the message and ends its taking. What the peer still sends is read for up to 2,000 ms,
    /// since a stream that is closed with bytes not yet read takes the answer away from the peer.
    /// `Failed` where the taking ended, or the peer doesn't take all of the answer within 2,000 ms.
    pub fn answer(
        &mut self,
        rt: &R,
        alloc: Global,
        taking: u64,
        bytes: &[u8],
    ) -> Result<(), SystemFault>
        ensures inside { IfSome self.old.mailbox.held (λ held. held.taking ≡ taking
            → OnOk result (self.new.mailbox.answered.items
            ≡ self.old.mailbox.answered.items ++ letter held.message bytes.now ∷ [])) }
        ensures outside { ¬ (IsSomeAnd self.old.mailbox.held (λ held. held.taking ≡ taking))
            → Answers self.old.doors.streams.open.items self.new.doors.streams.open.items
            (λ d. string_bytes d.name) (λ d. option_map (λ taken. taken.number) d.door.taken) taking
            (λ d. IfSome d.door.taken (λ taken. (after : R.Stream)
            × IsPut (R.Stream.contents taken.stream) (R.Stream.contents after) bytes.now result))
            result
            ⊎ IsRoomless self.old.doors.streams self.new.doors.streams
            self.old.doors.buffer.items result }
        ensures waiting { self.new.mailbox.waiting ≡ self.old.mailbox.waiting }
        ensures only { MayFail (answer_of result) }
    {
        if !self.mailbox.has(taking) {
            return self.doors.answer(rt, taking, bytes);
        }
        let bytes = Bytes::from_slice(alloc, bytes)?;
        self.mailbox.answer(taking, bytes)?;
        Ok(())
    }
}

fn next_number(last: u64) -> Result<u64, SystemFault>
    ensures next { IfOk result (λ n. n ≡ last + 1) }
    ensures only { MayFail (answer_of result) }
{
    match last.checked_add(1) {
        Some(number) => Ok(number),
        None => Err(SystemFault::failed(ErrorKind::Other, "there is no further number")),
    }
}
