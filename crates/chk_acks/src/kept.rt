//! Rows as they are kept, and passes over them.

ghost use Rattle.std.specs.Prelude.{◌≡◌, ◌<◌, ◌≤◌, ◌^◌, All, length, map, fold, min, vec_capacity, filter};
ghost use Rattle.std.specs.List.{reduce};
ghost use Rattle.chk_acks.specs.Rows.{is_reached};
ghost use Rattle.chk_acks.specs.Passes.{places_of};
ghost use Rattle.chk_acks.specs.Keeping.{IsIn, Rises, bare, is_kept_expired, is_kept_here};
ghost use Rattle.chk_acks.specs.Keeping.{is_kept_past, kept_expired, kept_marked, kept_moved, seen};

use chk_bytes::Stem;

/// A row as it is kept: its sink is the number of a place in a list. It takes 48 bytes.
#[derive(Drop)]
pub(crate) struct Kept {
    pub(crate) adaptor: u32,
    pub(crate) sink: u32,
    pub(crate) begin: u64,
    pub(crate) end: u64,
    pub(crate) offset: u64,
    pub(crate) answered: u64,
    pub(crate) marked: bool,
}

impl Kept {
    fn is_reached(&self, sinks: &[Stem], stem: &Stem, length: u64) -> bool
        requires { IsIn sinks.now self.now }
        ensures { result ≡ is_reached stem.now length (seen sinks.now self.now) }
    {
        self.offset <= length && sinks[self.sink as usize] == *stem
    }

    // Whether the row is unmarked, and was answered at least `age` before `now`.
    fn is_expired(&self, now: u64, age: u64) -> bool
        ensures { result ≡ is_kept_expired now age self.now }
    {
        !self.marked && now >= self.answered && now - self.answered >= age
    }

    fn mark(&mut self, sinks: &[Stem], stem: &Stem, length: u64)
        requires { IsIn sinks.now self.old }
        ensures { self.new ≡ kept_marked sinks.now stem.now length self.old }
    {
        self.marked = self.marked || self.is_reached(sinks, stem, length);
    }

    /// Whether the row ends past the committed end of its adaptor.
    pub(crate) fn is_past(&self, committed: &[u64]) -> bool
        ensures { result ≡ is_kept_past committed.now self.now }
    {
        committed.get(self.adaptor as usize).copied().unwrap_or(0) < self.end
    }

    /// Whether its adaptor isn't one of the marked.
    pub(crate) fn is_here(&self, gone: &[bool]) -> bool
        ensures { result ≡ is_kept_here gone.now self.now }
    {
        !gone.get(self.adaptor as usize).copied().unwrap_or(false)
    }
}

// Marks the rows of the stem with an offset at or below the length.
pub(crate) fn mark(rows: &mut [Kept], sinks: &[Stem], stem: Stem, length: u64)
    requires { All (IsIn sinks.now) rows.old }
    ensures { rows.new ≡ map (kept_marked sinks.now stem length) rows.old }
{
    for row in rows.iter_mut() {
        row.mark(sinks, &stem, length);
    }
}

// Moves each committed end over the marked rows that follow it.
pub(crate) fn advance(committed: &mut [u64], rows: &[Kept])
    requires { All (λ r. r.adaptor < length committed.old) rows.now }
    ensures { committed.new ≡ fold kept_moved committed.old rows.now }
{
    for row in rows {
        if row.marked && row.begin == committed[row.adaptor as usize] {
            committed[row.adaptor as usize] = row.end;
        }
    }
}

// Marks the adaptor of each expired row.
pub(crate) fn mark_expired(rows: &[Kept], now: u64, age: u64, gone: &mut [bool])
    requires { All (λ r. r.adaptor < length gone.old) rows.now }
    ensures { gone.new ≡ fold (kept_expired now age) gone.old rows.now }
{
    for row in rows {
        if row.is_expired(now, age) {
            gone[row.adaptor as usize] = true;
        }
    }
}

// Lists the places of the unmarked rows.
pub(crate) fn list_unmarked(places: &mut Vec<u32>, rows: &[Kept])
    requires room { length rows.now ≤ vec_capacity places.old }
    requires few { length rows.now < 2 ^ 32 }
    ensures places { places.new.items ≡ places_of 0 (map bare rows.now) }
    ensures capacity { vec_capacity places.old ≤ vec_capacity places.new }
{
    places.clear();
    for (place, row) in rows.iter().enumerate() {
        if !row.marked {
            let _ = places.push(place as u32);
        }
    }
}

// The least adaptor with an expired row.
pub(crate) fn least_expired(rows: &[Kept], now: u64, age: u64) -> Option<u32>
    ensures { result ≡ reduce min (map (λ r. r.adaptor) (filter (is_kept_expired now age) rows.now)) }
{
    rows.iter()
        .filter(|row| row.is_expired(now, age))
        .map(|row| row.adaptor)
        .min()
}

// Numbers the sinks that the rows name anew, in order, and drops the others.
pub(crate) fn gather(rows: &mut [Kept], sinks: &mut Vec<Stem>)
    requires { Rises 0 rows.old (length sinks.old.items) }
    ensures same { map (seen sinks.new.items) rows.new ≡ map (seen sinks.old.items) rows.old }
    ensures rises { Rises 0 rows.new (length sinks.new.items) }
    ensures few { length sinks.new.items ≤ length rows.new }
    ensures capacity { vec_capacity sinks.new ≡ vec_capacity sinks.old }
{
    let mut used = 0;
    let mut next = 0;
    for row in rows.iter_mut() {
        let sink = row.sink as usize;
        if sink >= next {
            sinks[used] = sinks[sink];
            used += 1;
            next = sink + 1;
        }
        row.sink = (used - 1) as u32;
    }
    sinks.truncate(used);
}
