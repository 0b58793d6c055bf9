//! The doors at UDP addresses.
ghost use Rattle.std.specs.Prelude.{◌≡◌, ◌<◌, [], codes, length, nat_eq, string_bytes, IfOk, OnErr, OnOk};
ghost use Rattle.std.specs.List.{starts_with};
ghost use Rattle.chk_site.specs.Site.{MayFail};
ghost use Rattle.chk_site_errors.specs.Faults.{answer_of};
ghost use Rattle.chk_site_sockets.specs.Doors.{is_for_datagrams, IsOpen, TakesDatagram};

use crate::addresses::look_up;
use crate::datagrams::next_datagram;
use crate::door_list::{DoorList, Named};
use chk_bytes::Bytes;
use chk_site_errors::{SystemFault, make_place, text};
use std::alloc::Global;
use std::io;
use std::io::ErrorKind;
use std::net::{Net, UdpSocket};
use std::time::{Clock, Duration};

/// What stands before the address of a door for datagrams.
const DATAGRAMS: &[u8] = b"udp:";

/// Whether the door is one for datagrams.
pub fn is_for_datagrams(name: &str) -> bool
    ensures { result ≡ is_for_datagrams name.now }
{
    name.as_bytes().starts_with(DATAGRAMS)
}

impl DoorList<UdpSocket> {
    /// The next datagram at the door of this name, which is opened where it isn't open; none where
    /// none came within the wait.
    pub fn take_datagram<R: Net + Clock>(
        &mut self,
        rt: &R,
        alloc: Global,
        name: &str,
        wait: Duration,
        buffer: &mut Vec<u8>,
    ) -> Result<Option<Bytes>, SystemFault>
        ensures takes { TakesDatagram self.old.open.items self.new.open.items
            (λ d. string_bytes d.name) name.now result }
        ensures only { MayFail (answer_of result) }
    {
        let place = self.open_datagrams(rt, alloc, name)?;
        next_datagram(rt, &self.open[place].door, alloc, wait, buffer)
    }

    // The place of the door of this name, which is opened where it isn't open.
    fn open_datagrams<R: Net>(
        &mut self,
        rt: &R,
        alloc: Global,
        name: &str,
    ) -> Result<usize, SystemFault>
        ensures held { OnOk result (IsOpen self.old.open.items self.new.open.items
            (λ d. string_bytes d.name) name.now) }
        ensures within { IfOk result (λ place. place < length self.new.open.items) }
        ensures err { OnErr result (self.new.open.items ≡ self.old.open.items) }
        ensures only { MayFail (answer_of result) }
    {
        if let Some(place) = self.place_of(name) {
            return Ok(place);
        }
        let kept_name = text(alloc, name)?;
        make_place(&mut self.open)?;
        let socket = bind(rt, alloc, name.strip_prefix("udp:").unwrap_or(name))?;
        self.keep(Named {
            name: kept_name,
            door: socket,
        })
    }
}

// The socket, bound at the first address of the host where that can be done.
fn bind<R: Net>(rt: &R, alloc: Global, address: &str) -> Result<UdpSocket, SystemFault>
    ensures { MayFail (answer_of result) }
{
    let mut last = io::Error::new(ErrorKind::NotFound, "the host has no address");
    for address in look_up(rt, alloc, address)? {
        match rt.bind_udp(address) {
            Ok(socket) => return Ok(socket),
            Err(error) => last = error,
        }
    }
    Err(SystemFault::Failed(last))
}
