//! The file that names the subscribers of a collector.

ghost use Rattle.std.specs.Prelude.{◌≡◌, ◌==◌, ◌<◌, ◌≤◌, length, IfOk, IfErr, IfSome, IfNone, Ok, Some, None, position};
ghost use Rattle.chk_tee_sender.specs.Subscribers.{most_subscribers, subscribers_in, subscriber_in, IsSubscribersFault, SubscribersAreRead};

use crate::Subscriber;
use chk_bytes::{NoMemory, Word, word_fault};
use chk_tee::{FilterFault, read_filter};
use std::alloc::Global;

/// The most lines of a file of subscribers.
pub const MOST_SUBSCRIBERS: usize = 16;

/// Why a text is no file of subscribers.
#[derive(Clone, Copy, Debug, PartialEq, Eq)]
pub enum SubscribersFault {
    /// The line that begins at the byte `at` isn't an address, a space and a filter, ended by a
    /// newline, or it is the 17th.
    BadLine { at: u64 },
    /// There was no memory for a subscriber.
    NoMemory,
}

/// The subscribers that a file names, in the order of its lines: each line is the address, which is a
/// word, a space and a filter, and is ended by a newline. An empty file has none. The first wrong
/// line is told. Each byte is looked at a few times, those behind the 17th line's beginning not at
/// all.
pub fn read_subscribers(alloc: Global, text: &[u8]) -> Result<Vec<Subscriber>, SubscribersFault>
    ensures subscribers { IfOk result (λ subscribers. subscribers_in text.now ≡ Ok subscribers.items) }
    ensures few { IfOk result (λ subscribers. length subscribers.items ≤ most_subscribers) }
    ensures fault { IfErr result (IsSubscribersFault text.now) }
{
    let mut subscribers = Vec::new(alloc);
    let mut at = 0;
    while at < text.len() {
        let Some(size) = first_newline(&text[at..]) else {
            return Err(SubscribersFault::BadLine { at: at as u64 });
        };
        if subscribers.len() >= MOST_SUBSCRIBERS {
            return Err(SubscribersFault::BadLine { at: at as u64 });
        }
        match read_subscriber(alloc, &text[at..at + size]) {
            Ok(Some(subscriber)) => {
                if subscribers.push(subscriber).is_err() {
                    return Err(SubscribersFault::NoMemory);
                }
                at += size + 1;
            }
            Ok(None) => return Err(SubscribersFault::BadLine { at: at as u64 }),
            Err(_) => return Err(SubscribersFault::NoMemory),
        }
    }
    Ok(subscribers)
}

/// A text is read as just the subscribers whose file it is.
pub fn subscribers_grammar()
    ensures { SubscribersAreRead }
{}

// The subscriber that a line without its newline names.
fn read_subscriber(alloc: Global, line: &[u8]) -> Result<Option<Subscriber>, NoMemory>
    ensures some { IfOk result (λ found. IfSome found (λ s. subscriber_in line.now ≡ Some s)) }
    ensures none { IfOk result (λ found. IfNone found (subscriber_in line.now ≡ None)) }
{
    let Some(size) = first_space(line) else {
        return Ok(None);
    };
    match read_filter(alloc, &line[size + 1..]) {
        Ok(filter) => {
            let address = &line[..size];
            if word_fault(address).is_some() {
                return Ok(None);
            }
            match Word::new(alloc, address) {
                Ok(address) => Ok(Some(Subscriber { address, filter })),
                Err(_) => Err(NoMemory),
            }
        }
        Err(FilterFault::NoMemory) => Err(NoMemory),
        Err(FilterFault::BadPart { .. }) => Ok(None),
    }
}

// The place of the first newline.
fn first_newline(text: &[u8]) -> Option<usize>
    ensures place { result ≡ position (λ b. b == 10) text.now }
    ensures within { IfSome result (λ i. i < length text.now) }
{
    text.iter().position(|b| *b == b'\n')
}

// The place of the first space.
fn first_space(text: &[u8]) -> Option<usize>
    ensures place { result ≡ position (λ b. b == 32) text.now }
    ensures within { IfSome result (λ i. i < length text.now) }
{
    text.iter().position(|b| *b == b' ')
}
