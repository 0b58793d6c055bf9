//! A ring of addresses of which one is in use: after a failure the next one is tried.
#![tactic(auto)]

ghost use Rattle.std.specs.Prelude.{◌≡◌, ◌+◌, ◌<◌, ◌≤◌, Some, length, slice_get, OnOk, vec_len};
ghost use Rattle.chk_failover.specs.Turns.{Turns, answer_to_failure, after_failure, GoesRound};

use chk_bytes::Word;
use std::marker::Model;

/// What a failure answers.
#[derive(Clone, Copy, Debug, PartialEq, Eq)]
pub enum Turned {
    /// The next address is in use.
    Next,
    /// The next address is in use. As many failures came since the last `good`, `first` or
    /// `AllTried` as there are addresses, which is `count`.
    AllTried { count: u32 },
}

/// 1 to 64 addresses in a ring, of which one is in use. No call takes memory.
#[derive(Drop)]
pub struct Ring {
    addresses: Vec<Word>,
    place: u32,
    failures: u32,
}

impl Model for Ring {
    ghost use Rattle.std.specs.Prelude.{◌<◌, ◌≤◌, vec_len};
    ghost use Rattle.chk_failover.specs.Turns.{Turns};

    ghost Value = { Turns };

    ghost view = { λ r. record {
      addresses = r.addresses.items;
      place = r.place;
      failures = r.failures;
    } };

    ghost invariant = { λ r. (vec_len r.addresses ≤ 64) × (r.place < vec_len r.addresses)
        × (r.failures < vec_len r.addresses) };
}

impl Ring {
    /// A ring of these addresses, with the one at `start` in use and no failure counted.
    pub fn new(addresses: Vec<Word>, start: u32) -> Ring
        requires few { vec_len addresses ≤ 64 }
        requires starts { start < vec_len addresses }
        ensures { result ≡ record { addresses = addresses.items; place = start; failures = 0 } }
    {
        Ring {
            addresses,
            place: start,
            failures: 0,
        }
    }

    /// The address in use.
    pub fn now(&self) -> &Word
        ensures { slice_get self.now.addresses self.now.place ≡ Some result.now }
    {
        &self.addresses[self.place as usize]
    }

    /// How many addresses there are.
    pub fn size(&self) -> u32
        ensures size { result ≡ length self.now.addresses }
        ensures some { 0 < result }
        ensures few { result ≤ 64 }
    {
        self.addresses.len() as u32
    }

    /// The address in use did its work: the count of failures begins anew.
    pub fn good(&mut self)
        ensures { self.new ≡ record self.old { failures = 0 } }
    {
        self.failures = 0;
    }

    /// The address in use failed: the next one is in use, after the last one the first.
    pub fn failed(&mut self) -> Turned
        ensures answer { result ≡ answer_to_failure self.old }
        ensures turned { self.new ≡ after_failure self.old }
    {
        let size = self.size();
        self.place = (self.place + 1) % size;
        self.failures += 1;
        if self.failures == size {
            self.failures = 0;
            Turned::AllTried { count: size }
        } else {
            Turned::Next
        }
    }

    /// Back to the first address of the list, with no failure counted.
    pub fn first(&mut self)
        ensures { self.new ≡ record self.old { place = 0; failures = 0 } }
    {
        self.place = 0;
        self.failures = 0;
    }
}

/// From a fresh count, failures go through all addresses once.
pub fn law_goes_round()
    ensures { (ring : Turns) → ring.failures ≡ 0 → ring.place < length ring.addresses → GoesRound ring }
{}
