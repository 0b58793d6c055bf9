//! A peer that came to a door, and what it sent so far.
ghost use Rattle.std.specs.Prelude.{◌≡◌, ◌⊎◌, ◌≤◌, ◌++◌, [], length, take, IfOk, OnErr, OnOk};
ghost use Rattle.std.specs.Io.KnownBytes.{Consumes};
ghost use Rattle.chk_site_peers.specs.Stages.{IsStageOf};
ghost use Rattle.chk_site_peers.specs.Callers.{count_of, HasGrown, IsEnd, IsHeard};
ghost use Rattle.chk_site_peers.specs.Held.{IsAged};
ghost use Rattle.chk_site_peers.specs.Moments.{IsNear};

use crate::deadline::{Deadline, longest_wait};
use crate::{Stage, stage_of};
use chk_bytes::{Bytes, NoMemory};
use std::alloc::Global;
use std::io;
use std::io::{ErrorKind, Read};
use std::net::Net;
use std::time::{Clock, Duration};

/// How many milliseconds a peer has, from its coming in on, until its message is whole. The longest
/// message needs 117 kB/s for that.
pub const WHOLE_MS: u64 = 36_000;

/// So many milliseconds before its silence is too long, the sender of a whole message waits no
/// longer soon.
pub const STALE_MS: u64 = 100;

/// A stream that came in, what was read of its message, and how long it has.
#[derive(Drop)]
pub struct Caller<R: Net> {
    pub stream: R::Stream,
    pub bytes: Bytes,
    /// The end of its silence.
    quiet: Deadline,
    /// The end of its time here.
    end: Deadline,
}

/// What one look at a stream gave.
#[derive(Clone, Copy)]
enum Heard {
    Nothing,
    Some(usize),
    End,
    Broken,
}

impl<R: Net + Clock> Caller<R> {
    /// The stage that it has at this moment, none where the clock gave none. The sender of a whole
    /// message that sent nothing for 1,900 ms is stale: an agent waits 2,000 ms for an answer. One that
    /// ended is gone when its time here is over.
    pub fn aged(&self, now: Option<Duration>, stage: Stage) -> Stage
        ensures { IsAged stage (IsNear self.now.quiet.end now STALE_MS)
            (IsNear self.now.end.end now 0) result }
    {
        match stage {
            Stage::Whole if self.quiet.is_near(now, STALE_MS) => Stage::Stale,
            Stage::Ended if self.end.is_near(now, 0) => Stage::Gone,
            _ => stage,
        }
    }

    /// The stage behind one read at a peer that was at this stage. Where there is no memory for what
    /// came, it is lost.
    pub fn hear(&mut self, rt: &R, stage: Stage, buffer: &mut Vec<u8>) -> Result<Stage, NoMemory>
        ensures grown { OnOk result (HasGrown (R.Stream.remaining self.old.stream)
            (R.Stream.remaining self.new.stream) self.old.bytes self.new.bytes buffer.new.items) }
        ensures stage { IfOk result (λ heard. IsHeard stage self.old.bytes self.new.bytes heard) }
        ensures err { OnErr result (self.new.bytes ≡ self.old.bytes) }
    {
        let heard = read_once(&mut self.stream, buffer);
        self.note(rt, stage, heard, buffer)
    }

    // The stage behind what one look gave.
    fn note(&mut self, rt: &R, stage: Stage, heard: Heard, came: &[u8]) -> Result<Stage, NoMemory>
        requires { count_of heard ≤ length came.now }
        ensures grown { OnOk result
            (self.new.bytes ≡ self.old.bytes ++ take (count_of heard) came.now) }
        ensures stage { IfOk result (λ now. IsHeard stage self.old.bytes self.new.bytes now) }
        ensures err { OnErr result (self.new.bytes ≡ self.old.bytes) }
        ensures same { self.new.stream ≡ self.old.stream }
    {
        match heard {
            Heard::Nothing if stage.is_there() => Ok(stage),
            Heard::Nothing => Ok(self.passed(rt, stage)),
            Heard::Some(count) => self.keep(rt, &came[..count]),
            Heard::End => Ok(self.ended()),
            Heard::Broken => Ok(Stage::Gone),
        }
    }

    fn keep(&mut self, rt: &R, came: &[u8]) -> Result<Stage, NoMemory>
        ensures kept { OnOk result (self.new.bytes ≡ self.old.bytes ++ came.now) }
        ensures stage { IfOk result (IsStageOf self.new.bytes) }
        ensures err { OnErr result (self.new.bytes ≡ self.old.bytes) }
        ensures same { self.new.stream ≡ self.old.stream }
    {
        self.bytes.push_all(came)?;
        if let Ok(quiet) = Deadline::after(rt, longest_wait()) {
            self.quiet = quiet;
        }
        Ok(stage_of(self.bytes.as_slice()))
    }

    // Where nothing came: one that was silent for too long has ended.
    fn passed(&self, rt: &R, stage: Stage) -> Stage
        ensures { (result ≡ stage) ⊎ IsEnd self.now.bytes result }
    {
        if self.quiet.is_over(rt) || self.end.is_over(rt) {
            return self.ended();
        }
        stage
    }

    // Nothing more comes.
    fn ended(&self) -> Stage
        ensures { IsEnd self.now.bytes result }
    {
        if self.bytes.len() == 0 {
            return Stage::Gone;
        }
        Stage::Ended
    }
}

/// A peer that comes in, of which nothing was read yet.
pub fn new_caller<R: Net + Clock>(rt: &R, alloc: Global, stream: R::Stream) -> io::Result<Caller<R>>
    ensures stream { IfOk result (λ caller. caller.stream ≡ stream) }
    ensures bytes { IfOk result (λ caller. caller.bytes ≡ []) }
{
    Ok(Caller {
        stream,
        bytes: Bytes::new(alloc),
        quiet: Deadline::after(rt, longest_wait())?,
        end: Deadline::after(rt, Duration::from_millis(WHOLE_MS))?,
    })
}

// One read. What it took from the stream stands at the front of the buffer.
fn read_once<S: Read>(stream: &mut S, buffer: &mut Vec<u8>) -> Heard
    ensures room { count_of result ≤ length buffer.new.items }
    ensures came { Consumes (S.remaining stream.old) (S.remaining stream.new)
        (take (count_of result) buffer.new.items) }
{
    match stream.read(buffer) {
        Ok(0) => Heard::End,
        Ok(count) => Heard::Some(count),
        Err(error) if error.kind() == ErrorKind::WouldBlock => Heard::Nothing,
        Err(error) if error.kind() == ErrorKind::Interrupted => Heard::Nothing,
        Err(_) => Heard::Broken,
    }
}
