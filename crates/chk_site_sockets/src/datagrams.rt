//! Datagrams, each of them a whole message.
ghost use Rattle.chk_site.specs.Site.{MayFail};
ghost use Rattle.chk_site_errors.specs.Faults.{answer_of};

use chk_bytes::Bytes;
use chk_site_errors::SystemFault;
use chk_site_peers::Deadline;
use std::alloc::Global;
use std::io::ErrorKind;
use std::net::UdpSocket;
use std::time::{Clock, Duration};

/// The next datagram, which may have no bytes; none where none came within the wait, which is at
/// least 1 ms. A wait that a signal broke off goes on.
pub fn next_datagram<R: Clock>(
    rt: &R,
    socket: &UdpSocket,
    alloc: Global,
    wait: Duration,
    buffer: &mut Vec<u8>,
) -> Result<Option<Bytes>, SystemFault>
    ensures { MayFail (answer_of result) }
{
    let deadline = Deadline::after(rt, wait)?;
    for _ in 0..u64::MAX {
        let left = deadline.left(rt)?;
        let wait = left.max(Duration::from_millis(1));
        socket.set_read_timeout(Some(wait))?;
        match socket.recv_from(buffer) {
            Ok((count, _)) => return Ok(Some(Bytes::from_slice(alloc, &buffer[..count])?)),
            Err(error) if error.kind() == ErrorKind::WouldBlock => break,
            Err(error) if error.kind() == ErrorKind::Interrupted => {}
            Err(error) => return Err(SystemFault::Failed(error)),
        }
        if left.is_zero() {
            break;
        }
    }
    Ok(None)
}
