// The takings whose message is handed out once more.
ghost use Rattle.std.specs.Prelude.{◌≡◌, ◌<◌, vec_len, OnOk};
ghost use Rattle.std.specs.Vec.{vec_capacity};
ghost use Rattle.chk_site_mem_store.specs.Told.{kept_as};
ghost use Rattle.chk_site_mem_store.specs.Repeating.{none_made, noted, own_outside, recounted, repeating_of};

use crate::changes::first;
use chk_bytes::NoMemory;
use chk_site::{Act, ActAnswer, Call};
use std::alloc::Global;

/// Which takings are repeated: own ones at other doors than the mailbox, by their counts from 1.
#[derive(Drop)]
pub struct Repeats {
    again: Vec<u64>,
    count: u64,
    numbers: Vec<u64>,
}

impl Repeats {
    /// Those that `again` names are repeated, and none was made yet.
    pub fn new(alloc: Global, again: Vec<u64>) -> Repeats
        ensures { repeating_of result ≡ none_made again.items }
    {
        Repeats {
            again,
            count: 0,
            numbers: Vec::new(alloc),
        }
    }

    /// Those that `again` names are repeated, counted from here on.
    pub fn restart(&mut self, again: Vec<u64>)
        ensures { repeating_of self.new ≡ recounted again.items (repeating_of self.old) }
    {
        self.again = again;
        self.count = 0;
    }

    /// The numbers of the takings that are repeated.
    pub fn numbers(&self) -> &[u64]
        ensures { result.now ≡ (repeating_of self.now).numbers }
    {
        &self.numbers
    }

    /// There is room for one number more.
    pub fn reserve(&mut self) -> Result<(), NoMemory>
        ensures room { OnOk result (vec_len self.new.numbers < vec_capacity self.new.numbers) }
        ensures same { repeating_of self.new ≡ repeating_of self.old }
    {
        self.numbers.reserve(1)?;
        Ok(())
    }

    /// The act is counted, where it is such a taking.
    pub fn note(&mut self, own: bool, act: &Act)
        requires { vec_len self.old.numbers < vec_capacity self.old.numbers }
        ensures { repeating_of self.new ≡ noted (own_outside (kept_as own act.now)) (repeating_of self.old) }
    {
        let Some(number) = own_outside(own, act) else {
            return;
        };
        self.count = self.count.saturating_add(1);
        if self.again.contains(&self.count) {
            self.numbers.push(number).unwrap();
        }
    }
}

// The number of an own taking at another door than the mailbox.
fn own_outside(own: bool, act: &Act) -> Option<u64>
    ensures { result ≡ own_outside (kept_as own act.now) }
{
    match (act.call, &act.answer) {
        (Call::Take, ActAnswer::Done { words, number, .. })
            if own
                && !words.as_slice().is_empty()
                && first(act.words.as_slice()) != b"self".as_slice() => Some(*number),
        _ => None,
    }
}
