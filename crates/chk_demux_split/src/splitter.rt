//! A splitter of a stream's bytes into records.
ghost use Rattle.std.specs.Prelude.{◌≡◌, ◌+◌, ◌≤◌, ◌<◌, [], length, take, drop};
ghost use Rattle.std.specs.Prelude.{IfOk, OnErr, MatchOption};
ghost use Rattle.chk_demux_split.specs.Splitting.{Feeds, TakesLine, fresh, without_given};

use crate::lines::{complete_size, line_front};
use chk_bytes::NoMemory;
use std::alloc::Global;
use std::marker::Model;

/// Splits the bytes of a stream into records. It keeps its allocator, and holds at most
/// `RECORD_BYTES` + `LINE_BYTES` bytes: the record that it lends, the lines of the record that has
/// begun, and the line that isn't complete.
///
/// Each byte is looked at once for the end of its line and copied once; those of a line that begins
/// a record by stamps are moved once more, when the record before them is let go.
#[derive(Drop)]
pub struct Splitter {
    by_stamps: bool,
    held: Vec<u8>,
    given: usize,
    begun: usize,
}

impl Model for Splitter {
    ghost use Rattle.chk_demux_split.specs.Splitting.{Splitting};

    ghost Value = { Splitting };

    ghost use Rattle.chk_demux_split.specs.SplitterFields.{splitter_view, IsSoundSplitter};

    ghost view = { splitter_view };

    ghost invariant = { IsSoundSplitter };
}

impl Splitter {
    /// A splitter before a record's first byte: by stamps, or with each line as a record. It takes
    /// no memory before the first byte comes.
    pub fn new(alloc: Global, by_stamps: bool) -> Splitter
        ensures { result ≡ fresh by_stamps }
    {
        Splitter {
            by_stamps,
            held: Vec::new(alloc),
            given: 0,
            begun: 0,
        }
    }

    /// Takes bytes up to the end of a line, or all of them, and answers how many. Feed the others
    /// next, once `complete` was asked for the record that these may have completed. What was lent
    /// before is let go, also where there was no memory for the bytes; then nothing else changed.
    pub fn feed(&mut self, bytes: &[u8]) -> Result<usize, NoMemory>
        ensures within { IfOk result (λ n. n ≤ length bytes.now) }
        ensures some { IfOk result (λ n. 0 < length bytes.now → 0 < n) }
        ensures fed { IfOk result (λ n. Feeds self.old self.new (take n bytes.now)) }
        ensures most { IfOk result (λ n. TakesLine self.new bytes.now n) }
        ensures refused { OnErr result (self.new ≡ without_given self.old) }
    {
        drop_first(&mut self.held, self.given);
        self.given = 0;
        let front = line_front(&self.held[self.begun..], bytes);
        self.held.extend_from_slice(&bytes[..front.taken])?;
        if front.ends {
            self.given = complete_size(self.by_stamps, &self.held, self.begun);
            self.begun = self.held.len() - self.given;
        }
        Ok(front.taken)
    }

    /// The record that the last feed completed, lent until the next one. None where it completed
    /// none. Its first byte stands `pending` and its own length before the end of what was fed.
    pub fn complete(&self) -> Option<&[u8]>
        ensures lent { MatchOption result (self.now.given ≡ []) (λ r. r.now ≡ self.now.given) }
        ensures some { MatchOption result (Unit {0}) (λ r. 0 < length r.now) }
    {
        if self.given == 0 {
            return None;
        }
        Some(&self.held[..self.given])
    }

    /// How many bytes were fed that are of no complete record.
    pub fn pending(&self) -> usize
        ensures { result ≡ length self.now.begun + length self.now.line }
    {
        self.held.len() - self.given
    }
}

// Takes the first `count` bytes out, and moves the others to the front.
fn drop_first(bytes: &mut Vec<u8>, count: usize)
    requires { count ≤ length bytes.old.items }
    ensures { bytes.new.items ≡ drop count bytes.old.items }
{
    if count == 0 {
        return;
    }
    let left = bytes.len() - count;
    bytes.copy_within(count.., 0);
    bytes.truncate(left);
}
