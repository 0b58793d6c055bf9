//! The doors at which messages are taken: those for streams, and those for datagrams.
ghost use Rattle.std.specs.Prelude.{◌≡◌, ◌⊎◌, [], option_map, string_bytes, IfSome, IsFalse, IsSomeAnd, IsTrue};
ghost use Rattle.std.specs.Io.KnownBytes.{Consumes};
ghost use Rattle.chk_site.specs.Site.{MayFail};
ghost use Rattle.chk_site_errors.specs.Faults.{answer_of};
ghost use Rattle.chk_site_sockets.specs.Doors.{is_for_datagrams, Answers, GoesOn, IsRoomless, Takes, TakesDatagram};
ghost use Rattle.chk_site_sockets.specs.Streams.{IsPut};

use crate::datagram_doors::is_for_datagrams;
use crate::door_list::DoorList;
use crate::stream_door::StreamDoor;
use chk_bytes::Bytes;
use chk_site_errors::{SystemFault, make_room};
use std::alloc::Global;
use std::net::{Net, UdpSocket};
use std::time::{Clock, Duration};

#[derive(Drop)]
pub struct Doors<R: Net> {
    streams: DoorList<StreamDoor<R>>,
    datagrams: DoorList<UdpSocket>,
    buffer: Vec<u8>,
}

impl<R: Net + Clock> Doors<R> {
    pub fn new(alloc: Global) -> Doors<R>
        ensures streams { result.streams.open.items ≡ [] }
        ensures datagrams { result.datagrams.open.items ≡ [] }
        ensures buffer { result.buffer.items ≡ [] }
    {
        Doors {
            streams: DoorList::new(alloc),
            datagrams: DoorList::new(alloc),
            buffer: Vec::new(alloc),
        }
    }

    /// The first piece of a message; none where no message came within the wait.
    pub fn take(
        &mut self,
        rt: &R,
        alloc: Global,
        name: &str,
        number: u64,
        wait: Duration,
    ) -> Result<Option<Bytes>, SystemFault>
        ensures streams { IsFalse (is_for_datagrams name.now)
            → Takes self.old.streams.open.items self.new.streams.open.items
            (λ d. string_bytes d.name) (λ d. option_map (λ taken. taken.number) d.door.taken)
            name.now number result }
        ensures other { IsFalse (is_for_datagrams name.now)
            → self.new.datagrams ≡ self.old.datagrams }
        ensures datagrams { IsTrue (is_for_datagrams name.now)
            → TakesDatagram self.old.datagrams.open.items self.new.datagrams.open.items
            (λ d. string_bytes d.name) name.now result }
        ensures same { IsTrue (is_for_datagrams name.now) → self.new.streams ≡ self.old.streams }
        ensures only { MayFail (answer_of result) }
    {
        make_room(&mut self.buffer)?;
        if is_for_datagrams(name) {
            return self
                .datagrams
                .take_datagram(rt, alloc, name, wait, &mut self.buffer);
        }
        self.streams
            .take(rt, alloc, name, number, wait, &mut self.buffer)
    }

    /// The next piece; no bytes of a taking that ended or was of a datagram.
    pub fn more(&mut self, rt: &R, alloc: Global, taking: u64) -> Result<Bytes, SystemFault>
        ensures more { GoesOn self.old.streams.open.items self.new.streams.open.items
            (λ d. string_bytes d.name) (λ d. option_map (λ taken. taken.number) d.door.taken)
            (λ before after bytes. IfSome before.door.taken (λ b. IsSomeAnd after.door.taken
            (λ a. Consumes (R.Stream.remaining b.stream) (R.Stream.remaining a.stream) bytes)))
            taking result
            ⊎ IsRoomless self.old.streams self.new.streams self.old.buffer.items result }
        ensures same { self.new.datagrams ≡ self.old.datagrams }
        ensures only { MayFail (answer_of result) }
    {
        make_room(&mut self.buffer)?;
        self.streams.more(rt, alloc, taking, &mut self.buffer)
    }

    /// `Failed` where the taking ended or was of a datagram.
    pub fn answer(&mut self, rt: &R, taking: u64, bytes: &[u8]) -> Result<(), SystemFault>
        ensures answer { Answers self.old.streams.open.items self.new.streams.open.items
            (λ d. string_bytes d.name) (λ d. option_map (λ taken. taken.number) d.door.taken) taking
            (λ d. IfSome d.door.taken (λ taken. (after : R.Stream)
            × IsPut (R.Stream.contents taken.stream) (R.Stream.contents after) bytes.now result))
            result
            ⊎ IsRoomless self.old.streams self.new.streams self.old.buffer.items result }
        ensures same { self.new.datagrams ≡ self.old.datagrams }
        ensures only { MayFail (answer_of result) }
    {
        make_room(&mut self.buffer)?;
        self.streams.answer(rt, taking, bytes, &mut self.buffer)
    }
}
