//! Streams to peers, with every wait bounded.
ghost use Rattle.std.specs.Prelude.{◌≡◌, ◌*◌, ◌/◌, ◌<◌, ◌≤◌, length, max, take, IfNone, IfOk, IfSome};
ghost use Rattle.std.specs.Duration.{as_nanos};
ghost use Rattle.std.specs.Io.KnownBytes.{Consumes, Keeps, WriteAppends};
ghost use Rattle.chk_site.specs.Site.{MayFail};
ghost use Rattle.chk_site_errors.specs.Faults.{answer_of};
ghost use Rattle.chk_site_sockets.specs.Streams.{IsPut};

use chk_bytes::Bytes;
use chk_site_errors::SystemFault;
use chk_site_peers::{Deadline, WAIT_MS, longest_wait};
use std::alloc::Global;
use std::io;
use std::io::{ErrorKind, Read, Write};
use std::net::OpenStream;
use std::time::{Clock, Duration};

/// How many bytes of a reply are read at most.
pub const MOST_REPLY: usize = 1_048_576;

/// How many bytes a millisecond a peer takes of a long message at least.
const LEAST_PER_MS: u64 = 125;

/// The time for each of so many addresses, that are all tried within one wait.
pub fn share_of_wait(addresses: usize) -> Duration
    ensures { as_nanos result ≡ WAIT_MS / max addresses 1 * 1_000_000 }
{
    Duration::from_millis(WAIT_MS / (addresses as u64).max(1))
}

/// Puts the message on the stream: in 2,000 ms and 1 ms more for each 125 bytes, so that a peer that
/// reads less than 125,000 bytes a second doesn't hold its sender; and no write waits longer than
/// 2,000 ms. Where it fails, a front of the message may have been put.
pub fn put_message<R: Clock, S: Write + OpenStream>(
    rt: &R,
    stream: &mut S,
    bytes: &[u8],
) -> io::Result<()>
    ensures { IsPut (S.contents stream.old) (S.contents stream.new) bytes.now result }
{
    let more = Duration::from_millis(bytes.len() as u64 / LEAST_PER_MS);
    let deadline = Deadline::after(rt, longest_wait().saturating_add(more))?;
    write_before(rt, deadline, stream, bytes)
}

/// Writes all of the bytes before this moment. A write that a signal broke off is made again. Where it
/// fails, a front of the bytes may have been written.
pub fn write_before<R: Clock, S: Write + OpenStream>(
    rt: &R,
    deadline: Deadline,
    stream: &mut S,
    bytes: &[u8],
) -> io::Result<()>
    ensures { IsPut (S.contents stream.old) (S.contents stream.new) bytes.now result }
{
    let mut rest = bytes;
    for _ in 0..u64::MAX {
        if rest.is_empty() {
            return Ok(());
        }
        match written_before(rt, deadline, stream, rest) {
            Ok(count) => rest = &rest[count..],
            Err(error) => return Err(error),
        }
    }
    Err(io::Error::from(ErrorKind::TimedOut))
}

// How many bytes one write before this moment took, none where a signal broke it off.
fn written_before<R: Clock, S: Write + OpenStream>(
    rt: &R,
    deadline: Deadline,
    stream: &mut S,
    bytes: &[u8],
) -> io::Result<usize>
    ensures most { IfOk result (λ count. count ≤ length bytes.now) }
    ensures bytes { WriteAppends (S.contents stream.old) (S.contents stream.new) result bytes.now }
{
    let left = deadline.left(rt)?;
    if left.is_zero() {
        return Err(io::Error::from(ErrorKind::TimedOut));
    }
    stream.set_write_timeout(Some(left.min(longest_wait())))?;
    written(stream, bytes)
}

fn written<S: Write>(stream: &mut S, bytes: &[u8]) -> io::Result<usize>
    ensures most { IfOk result (λ count. count ≤ length bytes.now) }
    ensures bytes { WriteAppends (S.contents stream.old) (S.contents stream.new) result bytes.now }
{
    match stream.write(bytes) {
        Ok(0) => Err(io::Error::from(ErrorKind::WriteZero)),
        Ok(count) => Ok(count),
        Err(error) if error.kind() == ErrorKind::Interrupted => Ok(0),
        Err(error) => Err(error),
    }
}

/// What came on the stream up to its end, or in the time of one wait. `Failed` where nothing came.
pub fn reply_on<R: Clock, S: Read + OpenStream>(
    rt: &R,
    alloc: Global,
    stream: &mut S,
    buffer: &mut Vec<u8>,
) -> Result<Bytes, SystemFault>
    ensures some { IfOk result (λ bytes. 0 < length bytes) }
    ensures most { IfOk result (λ bytes. length bytes ≤ MOST_REPLY) }
    ensures only { MayFail (answer_of result) }
{
    let deadline = Deadline::after(rt, longest_wait())?;
    let mut bytes = Bytes::new(alloc);
    for _ in 0..MOST_REPLY {
        let most = MOST_REPLY.saturating_sub(bytes.len());
        let count = piece_before(rt, deadline, stream, buffer).min(most);
        if count == 0 {
            break;
        }
        bytes.push_all(&buffer[..count])?;
    }
    if bytes.len() == 0 {
        return Err(SystemFault::failed(ErrorKind::TimedOut, "no answer came"));
    }
    Ok(bytes)
}

/// The next piece; empty at the end, where it didn't come before this moment, and where the peer went
/// away. A read that a signal broke off is made again.
pub fn piece_before<R: Clock, S: Read + OpenStream>(
    rt: &R,
    deadline: Deadline,
    stream: &mut S,
    buffer: &mut Vec<u8>,
) -> usize
    ensures most { result ≤ length buffer.new.items }
    ensures came { Consumes (S.remaining stream.old) (S.remaining stream.new)
        (take result buffer.new.items) }
{
    for _ in 0..u64::MAX {
        let Ok(left) = deadline.left(rt) else {
            return 0;
        };
        if left.is_zero() || stream.set_read_timeout(Some(left)).is_err() {
            return 0;
        }
        if let Some(count) = piece(stream, buffer) {
            return count;
        }
    }
    0
}

// How many bytes one read gave; none where a signal broke it off.
fn piece<S: Read>(stream: &mut S, buffer: &mut Vec<u8>) -> Option<usize>
    ensures most { IfSome result (λ count. count ≤ length buffer.new.items) }
    ensures came { IfSome result (λ count. Consumes (S.remaining stream.old)
        (S.remaining stream.new) (take count buffer.new.items)) }
    ensures kept { IfNone result (Keeps (S.remaining stream.old) (S.remaining stream.new)) }
{
    match stream.read(buffer) {
        Ok(count) => Some(count),
        Err(error) if error.kind() == ErrorKind::Interrupted => None,
        Err(_) => Some(0),
    }
}
