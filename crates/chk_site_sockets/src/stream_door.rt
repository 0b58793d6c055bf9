//! A door at a TCP address: a socket that listens, and the streams of its peers.
ghost use Rattle.std.specs.Prelude.{◌≡◌, ◌≤◌, [], None, Some, length, option_map, take, IfErr, IfNone, IfOk, IfSome, IsErr, IsSomeAnd, OnErr, OnOk};
ghost use Rattle.std.specs.Io.KnownBytes.{Consumes};
ghost use Rattle.mio.specs.Events.{capacity as events_capacity};
ghost use Rattle.chk_site_errors.specs.Faults.{answer_of, call_fault};
ghost use Rattle.chk_site.specs.Site.{MayFail};
ghost use Rattle.chk_site.specs.declared.acts.CallFault.TheVariants.{Failed};
ghost use Rattle.chk_site_sockets.specs.Doors.{is_taking};
ghost use Rattle.chk_site_sockets.specs.Streams.{IsPut};

use crate::streams::{piece_before, write_before};
use chk_bytes::Bytes;
use chk_site_errors::{SystemFault, front_of};
use chk_site_peers::{Caller, Deadline, Held, Leaving, Stage, longest_wait, new_caller};
use mio::unix::SourceFd;
use mio::{Events, Interest, Poll, Token};
use std::alloc::Global;
use std::io::ErrorKind;
use std::net::{Net, OpenListener, OpenStream, SocketAddr};
use std::os::fd::AsRawFd;
use std::time::{Clock, Duration};
use std::{io, thread};

/// How many peers are held; then the oldest silent one goes.
pub const MOST_HELD: usize = 256;

/// How many peers are let in at one look, so that a look ends.
const MOST_LET_IN: u32 = 4_096;

/// How often a taking that waits no longer looks again while bytes come.
const MOST_LOOKS: u64 = 64;

/// How many milliseconds a taking gives further pieces.
const MORE_MS: u64 = 6_000;

/// How many milliseconds the wait between two looks takes at most. What the system didn't report is
/// seen behind it.
const LOOK_MS: u64 = 50;

/// How many of the sockets that are ready are told at once; it is enough that one is.
const MOST_TOLD: usize = 16;

/// A listening socket. It stays open between takings.
#[derive(Drop)]
pub struct StreamDoor<R: Net> {
    listener: R::Listener,
    /// The peers that came and weren't served yet.
    held: Held<R>,
    /// The peers that were served.
    leaving: Leaving<R>,
    /// What a wait ends by: the listener, and the peers whose messages aren't whole yet.
    watch: Watch,
    taken: Option<Taken<R>>,
}

/// A peer that is served, and whether nothing more comes of its message.
#[derive(Drop)]
struct Served<R: Net> {
    caller: Caller<R>,
    has_ended: bool,
}

#[derive(Drop)]
struct Taken<R: Net> {
    number: u64,
    stream: R::Stream,
    /// When the last further piece comes; none where nothing more comes.
    end: Option<Deadline>,
}

impl<R: Net + Clock> StreamDoor<R> {
    pub fn open(rt: &R, alloc: Global, address: SocketAddr) -> io::Result<StreamDoor<R>>
        ensures held { IfOk result (λ door. door.held.callers.items ≡ []) }
        ensures taken { IfOk result (λ door. door.taken ≡ None) }
    {
        let listener = rt.bind(address)?;
        listener.set_nonblocking(true)?;
        let watch = Watch::new(rt, alloc)?;
        watch.add(&listener);
        Ok(StreamDoor {
            listener,
            held: Held::new(alloc),
            leaving: Leaving::new(alloc),
            watch,
            taken: None,
        })
    }

    /// Whether this taking may go on and be answered.
    pub fn has(&self, taking: u64) -> bool
        ensures { result ≡ is_taking taking (option_map (λ taken. taken.number) self.now.taken) }
    {
        match &self.taken {
            Some(taken) => taken.number == taking,
            None => false,
        }
    }

    /// Waits for a message that is whole or has ended. The taking before ends.
    pub fn take(
        &mut self,
        rt: &R,
        alloc: Global,
        number: u64,
        wait: Duration,
        buffer: &mut Vec<u8>,
    ) -> Result<Option<Bytes>, SystemFault>
        ensures taken { IfOk result (λ given. IfSome given (λ _.
            option_map (λ taken. taken.number) self.new.taken ≡ Some number)) }
        ensures none { IfOk result (λ given. IfNone given (self.new.taken ≡ None)) }
        ensures failed { IfErr result (λ _. self.new.taken ≡ None) }
        ensures only { MayFail (answer_of result) }
    {
        self.taken = None;
        match self.wait_for(rt, alloc, wait, buffer) {
            Ok(Some(peer)) => Ok(Some(self.serve(rt, number, peer))),
            Ok(None) => Ok(None),
            Err(fault) => Err(fault),
        }
    }

    // The peer is the one that is taken.
    fn serve(&mut self, rt: &R, number: u64, peer: Served<R>) -> Bytes
        ensures { option_map (λ taken. taken.number) self.new.taken ≡ Some number }
    {
        let Served { caller, has_ended } = peer;
        let Caller { stream, bytes, .. } = caller;
        let end = match Deadline::after(rt, Duration::from_millis(MORE_MS)) {
            Ok(end) if !has_ended => Some(end),
            _ => None,
        };
        let _waits = stream.set_nonblocking(false);
        self.taken = Some(Taken {
            number,
            stream,
            end,
        });
        bytes
    }

    /// The next piece of the message that was taken; no bytes at its end.
    pub fn more(
        &mut self,
        rt: &R,
        alloc: Global,
        buffer: &mut Vec<u8>,
    ) -> Result<Bytes, SystemFault>
        ensures none { IfNone self.old.taken (IfOk result (λ bytes. bytes ≡ [])) }
        ensures same { OnOk result (option_map (λ taken. taken.number) self.new.taken
            ≡ option_map (λ taken. taken.number) self.old.taken) }
        ensures given { IfOk result (λ bytes. IfSome self.old.taken (λ before.
            IsSomeAnd self.new.taken (λ after. Consumes (R.Stream.remaining before.stream)
            (R.Stream.remaining after.stream) bytes))) }
        ensures ended { OnErr result (self.new.taken ≡ None) }
        ensures only { MayFail (answer_of result) }
    {
        let Some(mut taken) = self.taken.take() else {
            return Ok(Bytes::new(alloc));
        };
        let count = taken.next_count(rt, buffer);
        let bytes = front_of(alloc, buffer, count)?;
        self.taken = Some(taken);
        Ok(bytes)
    }

    /// Answers the message that was taken, and ends it.
    pub fn answer(&mut self, rt: &R, bytes: &[u8], buffer: &mut Vec<u8>) -> Result<(), SystemFault>
        ensures ended { self.new.taken ≡ None }
        ensures none { IfNone self.old.taken (IsErr result) }
        ensures put { IfSome self.old.taken (λ taken. (after : R.Stream)
            × IsPut (R.Stream.contents taken.stream) (R.Stream.contents after) bytes.now result) }
        ensures only { MayFail (answer_of result) }
    {
        let Some(mut taken) = self.taken.take() else {
            return Err(taking_ended());
        };
        let deadline = Deadline::after(rt, longest_wait())?;
        write_before(rt, deadline, &mut taken.stream, bytes)?;
        self.leaving.add(rt, taken.stream, buffer);
        Ok(())
    }

    // A peer that may be served, within the wait.
    fn wait_for(
        &mut self,
        rt: &R,
        alloc: Global,
        wait: Duration,
        buffer: &mut Vec<u8>,
    ) -> Result<Option<Served<R>>, SystemFault>
        ensures same { self.new.taken ≡ self.old.taken }
        ensures only { MayFail (answer_of result) }
    {
        let deadline = Deadline::after(rt, wait)?;
        for looks in 0..u64::MAX {
            let has_moved = self.look(rt, alloc, buffer)?;
            if let Some(peer) = self.next_there(rt, buffer)? {
                return Ok(Some(peer));
            }
            let left = deadline.left(rt)?;
            if left.is_zero() && !(has_moved && looks < MOST_LOOKS) {
                break;
            }
            if !has_moved {
                self.watch.wait(rt, left);
            }
        }
        Ok(None)
    }

    // One look at the door, without a wait: at the peers that were served, at those that are held, and
    // at those outside. It tells whether bytes came.
    fn look(&mut self, rt: &R, alloc: Global, buffer: &mut Vec<u8>) -> Result<bool, SystemFault>
        ensures same { self.new.taken ≡ self.old.taken }
        ensures only { MayFail (answer_of result) }
    {
        self.leaving.look(rt, buffer);
        let has_moved = self.held.hear_all(rt, buffer)?;
        self.held.sweep();
        self.let_in(rt, alloc, buffer)?;
        Ok(has_moved)
    }

    // Lets in the peers that wait outside. No failure of the system ends it but want of memory: where
    // no more can be let in, somebody who is here goes.
    fn let_in(&mut self, rt: &R, alloc: Global, buffer: &mut Vec<u8>) -> Result<(), SystemFault>
        ensures same { self.new.taken ≡ self.old.taken }
        ensures only { MayFail (answer_of result) }
    {
        let mut has_come = false;
        for _ in 0..MOST_LET_IN {
            if self.is_full() {
                break;
            }
            match self.listener.accept() {
                Ok((stream, _)) => {
                    self.hold(rt, alloc, stream, buffer)?;
                    has_come = true;
                }
                Err(error) if error.kind() == ErrorKind::WouldBlock => break,
                Err(error) if went_away(error.kind()) => {}
                Err(_) => {
                    if !self.let_one_go() {
                        break;
                    }
                }
            }
        }
        if has_come {
            self.keep_spare();
        }
        Ok(())
    }

    // Lets peers go until the files of this process can have some descriptors too.
    fn keep_spare(&mut self)
        ensures { self.new.taken ≡ self.old.taken }
    {
        for _ in 0..MOST_HELD {
            if has_spare(&self.listener) || !self.let_one_go() {
                return;
            }
        }
    }

    // Holds a peer that comes in. Where there are too many then, the oldest silent one goes.
    fn hold(
        &mut self,
        rt: &R,
        alloc: Global,
        stream: R::Stream,
        buffer: &mut Vec<u8>,
    ) -> Result<(), SystemFault>
        ensures same { self.new.taken ≡ self.old.taken }
        ensures only { MayFail (answer_of result) }
    {
        if stream.set_nonblocking(true).is_err() {
            return Ok(());
        }
        let mut caller = new_caller(rt, alloc, stream)?;
        let stage = caller.hear(rt, Stage::Silent, buffer)?;
        if stage.is_gone() {
            return Ok(());
        }
        if stage.is_open() {
            self.watch.add(&caller.stream);
        }
        self.held.add(stage, caller)?;
        if self.held.len() > MOST_HELD {
            self.let_one_go();
        }
        Ok(())
    }

    // No more can be held, and nobody can be let go.
    fn is_full(&self) -> bool {
        self.held.len() >= MOST_HELD && self.held.stages.leaving().is_none()
    }

    // The oldest silent peer goes, or the oldest one that ended, or was served; false where there is
    // none.
    fn let_one_go(&mut self) -> bool
        ensures same { self.new.taken ≡ self.old.taken }
    {
        self.held.let_one_go() || self.leaving.let_one_go()
    }

    // The peer that is served next, where it still is there.
    fn next_there(&mut self, rt: &R, buffer: &mut Vec<u8>) -> Result<Option<Served<R>>, SystemFault>
        ensures same { self.new.taken ≡ self.old.taken }
        ensures only { MayFail (answer_of result) }
    {
        for _ in 0..=self.held.len() {
            let Some(place) = self.held.stages.next() else {
                return Ok(None);
            };
            if let Some(served) = self.served_at(rt, place, buffer)? {
                return Ok(Some(served));
            }
        }
        Ok(None)
    }

    // The peer at the place that is served next. One whose message is whole is looked at once more, and
    // may have ended its side or be gone.
    fn served_at(
        &mut self,
        rt: &R,
        place: usize,
        buffer: &mut Vec<u8>,
    ) -> Result<Option<Served<R>>, SystemFault>
        ensures same { self.new.taken ≡ self.old.taken }
        ensures only { MayFail (answer_of result) }
    {
        let has_ended = self.held.stages.at(place).is_ended();
        if !has_ended {
            self.held.hear_at(rt, place, buffer)?;
            if !self.held.stages.at(place).is_there() {
                return Ok(None);
            }
        }
        match self.held.take(place) {
            Some(caller) => Ok(Some(Served { caller, has_ended })),
            None => Ok(None),
        }
    }
}

impl<R: Net + Clock> Taken<R> {
    // How many bytes come next, within 2,000 ms; none behind its end.
    fn next_count(&mut self, rt: &R, buffer: &mut Vec<u8>) -> usize
        ensures count { result ≤ length buffer.new.items }
        ensures came { Consumes (R.Stream.remaining self.old.stream)
            (R.Stream.remaining self.new.stream) (take result buffer.new.items) }
        ensures same { self.new.number ≡ self.old.number }
    {
        let Some(end) = self.end else {
            return 0;
        };
        match end.or_after(rt, longest_wait()) {
            Ok(deadline) => piece_before(rt, deadline, &mut self.stream, buffer),
            Err(_) => 0,
        }
    }
}

/// The sockets that are watched until they are closed. A wait for the first of them ends by itself.
#[derive(Drop)]
struct Watch {
    poll: Poll,
    told: Events,
}

impl Watch {
    fn new<R: Net>(rt: &R, alloc: Global) -> io::Result<Watch>
        ensures { IfOk result (λ watch. events_capacity watch.told ≡ MOST_TOLD) }
    {
        Ok(Watch {
            poll: Poll::new(rt)?,
            told: Events::with_capacity(alloc, MOST_TOLD)?,
        })
    }

    // Watches this socket too. Where the system has no room for it that is no fault: what comes at it
    // is seen behind the longest wait.
    fn add<S: AsRawFd>(&self, socket: &S) {
        let number = socket.as_raw_fd();
        let mut source = SourceFd(&number);
        let registry = self.poll.registry();
        let _watched = registry.register(&mut source, Token(0), Interest::READABLE);
    }

    // Waits until something comes at one of the sockets, and no longer than is left.
    fn wait<R: Clock>(&mut self, rt: &R, left: Duration)
        ensures { events_capacity self.new.told ≡ events_capacity self.old.told }
    {
        let wait = left.min(Duration::from_millis(LOOK_MS));
        if self.poll.poll(&mut self.told, Some(wait)).is_err() {
            thread::sleep(rt, wait.min(Duration::from_millis(1)));
        }
    }
}

// The system has four more descriptors.
fn has_spare<L: OpenListener + Drop>(listener: &L) -> bool {
    let first = listener.try_clone();
    let second = listener.try_clone();
    let third = listener.try_clone();
    let fourth = listener.try_clone();
    first.is_ok() && second.is_ok() && third.is_ok() && fourth.is_ok()
}

// A peer that waited outside went away again.
fn went_away(kind: ErrorKind) -> bool {
    matches!(
        kind,
        ErrorKind::Interrupted
            | ErrorKind::ConnectionAborted
            | ErrorKind::ConnectionReset
            | ErrorKind::NetworkDown
            | ErrorKind::NetworkUnreachable
            | ErrorKind::HostUnreachable
    )
}

/// The message can't be answered any more.
pub fn taking_ended() -> SystemFault
    ensures { call_fault result ≡ Failed }
{
    SystemFault::failed(ErrorKind::NotConnected, "the taking has ended")
}
