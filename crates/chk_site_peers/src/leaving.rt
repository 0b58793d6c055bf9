//! Streams that were answered, until their peers have the answer: a stream that is closed with bytes
//! not yet read takes what was written on it away from the peer.
ghost use Rattle.std.specs.Prelude.{◌≡◌, ◌↔◌, ◌<◌, ◌≤◌, [], drop, length, IsTrue};

use crate::deadline::{Deadline, longest_wait};
use std::alloc::Global;
use std::collections::VecDeque;
use std::io::{ErrorKind, Read};
use std::net::{Net, OpenStream, Shutdown};
use std::time::Clock;

/// How many answered streams are held; then the oldest one goes.
pub const MOST_LEAVING: usize = 64;

/// How often a stream is read at one look at most.
const MOST_READS: u32 = 8;

#[derive(Drop)]
struct Answered<R: Net> {
    stream: R::Stream,
    deadline: Deadline,
}

/// The answered streams, the oldest first. What still comes on them is read and let go, without a wait,
/// until the peer ends its side, for 2,000 ms at most.
#[derive(Drop)]
pub struct Leaving<R: Net> {
    streams: VecDeque<Answered<R>>,
}

impl<R: Net + Clock> Leaving<R> {
    pub fn new(alloc: Global) -> Leaving<R>
        ensures { result.streams.items ≡ [] }
    {
        Leaving {
            streams: VecDeque::new(alloc),
        }
    }

    /// Ends the side of an answered stream. One for which there is no memory is closed.
    pub fn add(&mut self, rt: &R, stream: R::Stream, buffer: &mut Vec<u8>)
        ensures most { length self.old.streams.items ≤ MOST_LEAVING → length self.new.streams.items ≤ MOST_LEAVING }
    {
        if stream.shutdown(Shutdown::Write).is_err() || stream.set_nonblocking(true).is_err() {
            return;
        }
        let Ok(deadline) = Deadline::after(rt, longest_wait()) else {
            return;
        };
        let mut answered = Answered { stream, deadline };
        if is_left(rt, &mut answered, buffer) {
            return;
        }
        if self.streams.len() >= MOST_LEAVING {
            let _oldest = self.streams.pop_front();
        }
        let _held = self.streams.push_back(answered);
    }

    /// One look at each of them.
    pub fn look(&mut self, rt: &R, buffer: &mut Vec<u8>)
        ensures fewer { length self.new.streams.items ≤ length self.old.streams.items }
    {
        for _ in 0..self.streams.len() {
            let Some(mut answered) = self.streams.pop_front() else {
                return;
            };
            if !is_left(rt, &mut answered, buffer) {
                let _held = self.streams.push_back(answered);
            }
        }
    }

    /// Closes the oldest one; false where there is none.
    pub fn let_one_go(&mut self) -> bool
        ensures tells { IsTrue result ↔ (0 < length self.old.streams.items) }
        ensures oldest { self.new.streams.items ≡ drop 1 self.old.streams.items }
    {
        match self.streams.pop_front() {
            Some(_oldest) => true,
            None => false,
        }
    }
}

// Whether the peer ended its side, or its time is over.
fn is_left<R: Net + Clock>(rt: &R, answered: &mut Answered<R>, buffer: &mut Vec<u8>) -> bool {
    for _ in 0..MOST_READS {
        match answered.stream.read(buffer) {
            Ok(0) => return true,
            Ok(_) => {}
            Err(error) if error.kind() == ErrorKind::WouldBlock => break,
            Err(error) if error.kind() == ErrorKind::Interrupted => break,
            Err(_) => return true,
        }
    }
    answered.deadline.is_over(rt)
}
