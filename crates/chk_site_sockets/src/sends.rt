//! Messages that were sent, each on a stream of its own, on which its answer comes.
ghost use Rattle.std.specs.Prelude.{◌≡◌, ◌⊎◌, ◌∷◌, ◌++◌, [], None, nat_eq, position, IsErr, OnErr, OnOk};
ghost use Rattle.chk_site.specs.Site.{MayFail};
ghost use Rattle.chk_site_errors.specs.Faults.{answer_of};
ghost use Rattle.chk_site_sockets.specs.Sends.{is_unanswered, with_most, IsClosed, IsSent};

use crate::addresses::{Routes, look_up};
use crate::streams::{put_message, reply_on, share_of_wait};
use chk_bytes::Bytes;
use chk_site_errors::{SystemFault, make_place, make_room, text};
use chk_site_peers::{longest_wait, tells_its_end};
use std::alloc::Global;
use std::io;
use std::io::ErrorKind;
use std::net::{Net, OpenStream, Shutdown, SocketAddr, TcpStream};
use std::time::Clock;

/// How many messages keep their streams; then the oldest one goes.
pub const MOST_STREAMS: usize = 64;

/// What a message begins with whose answer nobody asks for: copies of what a collector took.
const TEED: &[u8] = b"CHKT";

#[derive(Drop)]
struct Sent<R: Net> {
    message: u64,
    stream: R::Stream,
    /// The address as it was asked for.
    text: String,
}

#[derive(Drop)]
pub struct Sends<R: Net> {
    open: Vec<Sent<R>>,
    routes: Routes,
    buffer: Vec<u8>,
}

impl<R: Net + Clock> Sends<R> {
    pub fn new(alloc: Global) -> Sends<R>
        ensures open { result.open.items ≡ [] }
        ensures routes { result.routes.kept.items ≡ [] }
        ensures buffer { result.buffer.items ≡ [] }
    {
        Sends {
            open: Vec::new(alloc),
            routes: Routes::new(alloc),
            buffer: Vec::new(alloc),
        }
    }

    /// A message that was sent only in part is `Failed`, and its stream ends. A request tells its own
    /// end, and the stream stays open, so that the peer sees that its sender is there. Behind a message
    /// whose answer nobody asks for the stream is closed, and behind any other one its own side.
    pub fn send(
        &mut self,
        rt: &R,
        alloc: Global,
        message: u64,
        address: &str,
        bytes: &[u8],
    ) -> Result<(), SystemFault>
        ensures sent { OnOk result (IsSent self.old.open.items self.new.open.items
            (λ sent. sent.message) message bytes.now) }
        ensures err { OnErr result (self.new.open.items ≡ self.old.open.items) }
        ensures only { MayFail (answer_of result) }
    {
        make_place(&mut self.open)?;
        let kept_text = text(alloc, address)?;
        let sent_text = text(alloc, address)?;
        let (mut stream, route) = self.stream_to(rt, alloc, address)?;
        put_message(rt, &mut stream, bytes)?;
        self.routes.keep(kept_text, route);
        if is_unanswered(bytes) {
            return Ok(());
        }
        if !tells_its_end(bytes) {
            stream.shutdown(Shutdown::Write)?;
        }
        self.keep(Sent {
            message,
            stream,
            text: sent_text,
        })
    }

    fn keep(&mut self, sent: Sent<R>) -> Result<(), SystemFault>
        ensures kept { OnOk result
            (self.new.open.items ≡ with_most (self.old.open.items ++ sent ∷ [])) }
        ensures err { OnErr result (self.new.open.items ≡ self.old.open.items) }
        ensures only { MayFail (answer_of result) }
    {
        if self.open.push(sent).is_err() {
            return Err(SystemFault::failed(ErrorKind::OutOfMemory, "no place for the stream"));
        }
        if self.open.len() > MOST_STREAMS {
            let _oldest = self.open.remove(0);
        }
        Ok(())
    }

    // What was found for the address is forgotten, so that it is looked up again where the send to it
    // fails.
    fn stream_to(
        &mut self,
        rt: &R,
        alloc: Global,
        address: &str,
    ) -> Result<(R::Stream, SocketAddr), SystemFault>
        ensures same { self.new.open ≡ self.old.open }
        ensures only { MayFail (answer_of result) }
    {
        if let Some(route) = self.routes.take(address) {
            let stream = TcpStream::connect_timeout(rt, &route, longest_wait())?;
            return Ok((stream, route));
        }
        let found = look_up(rt, alloc, address)?;
        let wait = share_of_wait(found.len());
        let mut last = io::Error::new(ErrorKind::NotFound, "the host has no address");
        for route in found {
            match TcpStream::connect_timeout(rt, &route, wait) {
                Ok(stream) => return Ok((stream, route)),
                Err(error) => last = error,
            }
        }
        Err(SystemFault::Failed(last))
    }

    /// The answer to this message; its stream ends. Where none comes, the address that was found for its
    /// peer is forgotten.
    pub fn got(&mut self, rt: &R, alloc: Global, message: u64) -> Result<Bytes, SystemFault>
        ensures closed { OnOk result
            (IsClosed self.old.open.items self.new.open.items (λ sent. sent.message) message) }
        ensures err { OnErr result ((self.new.open.items ≡ self.old.open.items)
            ⊎ IsClosed self.old.open.items self.new.open.items (λ sent. sent.message) message) }
        ensures only { MayFail (answer_of result) }
    {
        let Some(place) = self.place_of(message) else {
            return Err(SystemFault::failed(
                ErrorKind::NotConnected,
                "the message has no stream any more",
            ));
        };
        make_room(&mut self.buffer)?;
        let mut sent = self.open.remove(place);
        let reply = reply_on(rt, alloc, &mut sent.stream, &mut self.buffer);
        if reply.is_err() {
            let _forgotten = self.routes.take(sent.text.as_str());
        }
        reply
    }

    fn place_of(&self, message: u64) -> Option<usize>
        ensures { result ≡ position (λ sent. nat_eq sent.message message) self.now.open.items }
    {
        self.open.iter().position(|sent| sent.message == message)
    }
}

// A message whose answer nobody asks for.
fn is_unanswered(bytes: &[u8]) -> bool
    ensures { result ≡ is_unanswered bytes.now }
{
    bytes.starts_with(TEED)
}
