//! A store among others.

ghost use Rattle.std.specs.Prelude.{◌≡◌, true};
ghost use Rattle.std.proofs.Props.{props};
ghost use Rattle.chk_ctl_held.specs.Order.{EndsRise, StreamsRise};

use crate::ends::ends_rise;
use crate::finding::Waiting;
use chk_bytes::Word;

/// A store, by the name that its lines give it, and what waits there.
#[derive(Debug, Drop)]
pub struct Store {
    pub name: Word,
    pub waiting: Waiting,
    rising: bool,
    ghost order: { StreamsRise waiting.heads },
    ghost rises: { rising ≡ true → EndsRise waiting.book.ends } by { Prim.hlevel props },
}

impl Store {
    /// The store of this name. It costs the number of the book's streams.
    pub fn new(name: Word, waiting: Waiting) -> Store
        requires { StreamsRise waiting.heads }
        ensures name { result.name ≡ name }
        ensures waiting { result.waiting ≡ waiting }
    {
        let rising = ends_rise(waiting.book.ends.as_slice());
        Store {
            name,
            waiting,
            rising,
        }
    }

    /// Its streams stand in the order of their ends, as they do in each book that is read.
    pub(crate) fn is_rising(&self) -> bool
        ensures { result ≡ true → EndsRise self.now.waiting.book.ends }
    {
        self.rising
    }
}
