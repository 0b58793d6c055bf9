//! The mailbox inside the process, where no message and no answer is lost.
ghost use Rattle.std.specs.Prelude.{◌≡◌, ◌↔◌, [], ◌∷◌, ◌++◌, None, is_some, position, IfNone, IfSome, IsSomeAnd, IsTrue, OnErr, OnOk};
ghost use Rattle.std.specs.List.{list_any};
ghost use Rattle.chk_site_sockets.specs.Mailbox.{letter, is_for, is_held, is_known, is_there, Gets, TakesOldest, Answers};

use chk_bytes::{Bytes, NoMemory};
use std::alloc::Global;
use std::collections::VecDeque;

/// The address and the door of the mailbox.
pub const SELF: &str = "self";

/// A message, or the answer to one.
#[derive(Drop)]
pub struct Letter {
    pub message: u64,
    pub bytes: Bytes,
}

/// A message that was taken and has no answer yet.
#[derive(Clone, Copy)]
pub struct Held {
    pub message: u64,
    pub taking: u64,
}

/// The messages that wait, the oldest first, the one that was taken last, and the answers.
#[derive(Drop)]
pub struct Mailbox {
    pub waiting: VecDeque<Letter>,
    pub held: Option<Held>,
    pub answered: Vec<Letter>,
}

impl Mailbox {
    pub fn new(alloc: Global) -> Mailbox
        ensures waiting { result.waiting.items ≡ [] }
        ensures held { result.held ≡ None }
        ensures answered { result.answered.items ≡ [] }
    {
        Mailbox {
            waiting: VecDeque::new(alloc),
            held: None,
            answered: Vec::new(alloc),
        }
    }

    /// Lets the messages go, and keeps the answers.
    pub fn empty(&mut self)
        ensures waiting { self.new.waiting.items ≡ [] }
        ensures held { self.new.held ≡ None }
        ensures answered { self.new.answered ≡ self.old.answered }
    {
        self.waiting.clear();
        self.held = None;
    }

    pub fn send(&mut self, alloc: Global, message: u64, bytes: &[u8]) -> Result<(), NoMemory>
        ensures sent { OnOk result (self.new.waiting.items ≡ self.old.waiting.items ++ letter message bytes.now ∷ []) }
        ensures unsent { OnErr result (self.new.waiting.items ≡ self.old.waiting.items) }
        ensures held { self.new.held ≡ self.old.held }
        ensures answered { self.new.answered ≡ self.old.answered }
    {
        let bytes = Bytes::from_slice(alloc, bytes)?;
        self.waiting.push_back(Letter { message, bytes })?;
        Ok(())
    }

    /// The oldest message that waits. The taking before ends.
    pub fn take(&mut self, taking: u64) -> Option<Bytes>
        ensures oldest { IfSome result (λ bytes. TakesOldest taking self.old.waiting.items self.new.waiting.items self.new.held bytes) }
        ensures none { IfNone result (self.old.waiting.items ≡ []) }
        ensures ended { IfNone result (self.new.held ≡ None) }
        ensures answered { self.new.answered ≡ self.old.answered }
    {
        self.held = None;
        let Letter { message, bytes } = self.waiting.pop_front()?;
        self.held = Some(Held { message, taking });
        Some(bytes)
    }

    /// Whether the message of this taking may be answered.
    pub fn has(&self, taking: u64) -> bool
        ensures { IsTrue result ↔ IsSomeAnd self.now.held (λ held. held.taking ≡ taking) }
    {
        self.held.is_some_and(|held| held.taking == taking)
    }

    pub fn answer(&mut self, taking: u64, bytes: Bytes) -> Result<(), NoMemory>
        ensures answers { OnOk result (Answers taking bytes self.old.held self.old.answered.items self.new.answered.items) }
        ensures refused { OnErr result (self.new.answered.items ≡ self.old.answered.items) }
        ensures waiting { self.new.waiting ≡ self.old.waiting }
    {
        if let Some(held) = self.held {
            if held.taking == taking {
                self.answered.push(Letter {
                    message: held.message,
                    bytes,
                })?;
                self.held = None;
            }
        }
        Ok(())
    }

    /// The answer to the message, no bytes while there is none; none where there is no such message.
    pub fn got(&mut self, alloc: Global, message: u64) -> Option<Bytes>
        ensures answer { IfSome result (λ bytes. Gets message self.old.answered.items self.new.answered.items bytes) }
        ensures there { is_some result ≡ is_there message self.old.answered.items
            (is_known message self.old.held self.old.waiting.items) }
        ensures left { IfNone result (self.new.answered.items ≡ self.old.answered.items) }
        ensures waiting { self.new.waiting ≡ self.old.waiting }
        ensures held { self.new.held ≡ self.old.held }
    {
        match self.place_of(message) {
            Some(place) => Some(self.answered.remove(place).bytes),
            None if self.knows(message) => Some(Bytes::new(alloc)),
            None => None,
        }
    }

    fn place_of(&self, message: u64) -> Option<usize>
        ensures { result ≡ position (is_for message) self.now.answered.items }
    {
        self.answered
            .iter()
            .position(|letter| letter.message == message)
    }

    // The message waits, or was taken and has no answer yet.
    fn knows(&self, message: u64) -> bool
        ensures { result ≡ is_known message self.now.held self.now.waiting.items }
    {
        self.is_held(message) || self.is_waiting(message)
    }

    fn is_held(&self, message: u64) -> bool
        ensures { result ≡ is_held message self.now.held }
    {
        match self.held {
            Some(held) => held.message == message,
            None => false,
        }
    }

    fn is_waiting(&self, message: u64) -> bool
        ensures { result ≡ list_any (is_for message) self.now.waiting.items }
    {
        self.waiting.iter().any(|letter| letter.message == message)
    }
}
