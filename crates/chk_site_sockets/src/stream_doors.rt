//! The doors at TCP addresses. They stay open, so that no message is lost between takings.
ghost use Rattle.std.specs.Prelude.{◌≡◌, ◌<◌, [], length, option_map, position, string_bytes, IfOk, IfSome, IsSomeAnd, OnErr, OnOk};
ghost use Rattle.std.specs.Io.KnownBytes.{Consumes};
ghost use Rattle.chk_site.specs.Site.{MayFail};
ghost use Rattle.chk_site_errors.specs.Faults.{answer_of};
ghost use Rattle.chk_site_sockets.specs.Doors.{is_taking, Answers, GoesOn, IsOpen, StandsAt, Takes};
ghost use Rattle.chk_site_sockets.specs.Streams.{IsPut};

use crate::addresses::look_up;
use crate::door_list::{DoorList, Named};
use crate::stream_door::{StreamDoor, taking_ended};
use chk_bytes::Bytes;
use chk_site_errors::{SystemFault, make_place, text};
use std::alloc::Global;
use std::io;
use std::io::ErrorKind;
use std::net::Net;
use std::time::{Clock, Duration};

impl<R: Net + Clock> DoorList<StreamDoor<R>> {
    /// The first piece of a message at the door of this name, which is opened where it isn't open;
    /// none where no message came within the wait.
    pub fn take(
        &mut self,
        rt: &R,
        alloc: Global,
        name: &str,
        number: u64,
        wait: Duration,
        buffer: &mut Vec<u8>,
    ) -> Result<Option<Bytes>, SystemFault>
        ensures takes { Takes self.old.open.items self.new.open.items (λ d. string_bytes d.name)
            (λ d. option_map (λ taken. taken.number) d.door.taken) name.now number result }
        ensures only { MayFail (answer_of result) }
    {
        let place = self.open(rt, alloc, name)?;
        self.open[place].door.take(rt, alloc, number, wait, buffer)
    }

    /// The next piece; no bytes of a taking that ended.
    pub fn more(
        &mut self,
        rt: &R,
        alloc: Global,
        taking: u64,
        buffer: &mut Vec<u8>,
    ) -> Result<Bytes, SystemFault>
        ensures more { GoesOn self.old.open.items self.new.open.items (λ d. string_bytes d.name)
            (λ d. option_map (λ taken. taken.number) d.door.taken)
            (λ before after bytes. IfSome before.door.taken (λ b. IsSomeAnd after.door.taken
            (λ a. Consumes (R.Stream.remaining b.stream) (R.Stream.remaining a.stream) bytes)))
            taking result }
        ensures only { MayFail (answer_of result) }
    {
        match self.place_at(taking) {
            Some(place) => self.open[place].door.more(rt, alloc, buffer),
            None => Ok(Bytes::new(alloc)),
        }
    }

    /// Answers the message, and ends its taking. `Failed` where the taking ended.
    pub fn answer(
        &mut self,
        rt: &R,
        taking: u64,
        bytes: &[u8],
        buffer: &mut Vec<u8>,
    ) -> Result<(), SystemFault>
        ensures answer { Answers self.old.open.items self.new.open.items (λ d. string_bytes d.name)
            (λ d. option_map (λ taken. taken.number) d.door.taken) taking
            (λ d. IfSome d.door.taken (λ taken. (after : R.Stream)
            × IsPut (R.Stream.contents taken.stream) (R.Stream.contents after) bytes.now result))
            result }
        ensures only { MayFail (answer_of result) }
    {
        match self.place_at(taking) {
            Some(place) => self.open[place].door.answer(rt, bytes, buffer),
            None => Err(taking_ended()),
        }
    }

    // The place of the door of this name, which is opened where it isn't open.
    fn open(&mut self, rt: &R, alloc: Global, name: &str) -> Result<usize, SystemFault>
        ensures held { OnOk result (IsOpen self.old.open.items self.new.open.items
            (λ d. string_bytes d.name) name.now) }
        ensures within { IfOk result (λ place. place < length self.new.open.items) }
        ensures place { IfOk result
            (StandsAt self.new.open.items (λ d. string_bytes d.name) name.now) }
        ensures err { OnErr result (self.new.open.items ≡ self.old.open.items) }
        ensures only { MayFail (answer_of result) }
    {
        if let Some(place) = self.place_of(name) {
            return Ok(place);
        }
        let kept_name = text(alloc, name)?;
        make_place(&mut self.open)?;
        let door = opened(rt, alloc, name)?;
        self.keep(Named {
            name: kept_name,
            door,
        })
    }

    // The place of the door that has this taking.
    fn place_at(&self, taking: u64) -> Option<usize>
        ensures { result ≡ position (λ d. is_taking taking
            (option_map (λ taken. taken.number) d.door.taken)) self.now.open.items }
    {
        self.open.iter().position(|named| named.door.has(taking))
    }
}

// The door, opened at the first address of the host where that can be done.
fn opened<R: Net + Clock>(rt: &R, alloc: Global, name: &str) -> Result<StreamDoor<R>, SystemFault>
    ensures { MayFail (answer_of result) }
{
    let mut last = io::Error::new(ErrorKind::NotFound, "the host has no address");
    for address in look_up(rt, alloc, name)? {
        match StreamDoor::open(rt, alloc, address) {
            Ok(door) => return Ok(door),
            Err(error) => last = error,
        }
    }
    Err(SystemFault::Failed(last))
}
