//! What a drain answers.

use chk_bytes::Stem;

/// What a drain answers.
#[derive(Clone, Copy)]
pub enum Drained {
    /// The checkpoint is, for each adaptor that isn't past, the end of what was read.
    Done,
    /// As many polls as were asked for had a good reply since the last post, and the last of them
    /// gave this sink a length below an answered offset.
    Pending { stem: Stem, got: u64, want: u64 },
    /// So many reads of this adaptor's log gave bytes, and none came to its end.
    Growing { adaptor: u32, reads: u64 },
    /// The log of this adaptor is shorter than what was read of it: the place in its generation,
    /// and its size.
    Shrank { adaptor: u32, had: u64, is: u64 },
    /// As many posts or polls in a row as there are addresses had no good reply, and none of their
    /// calls failed. `code` is the status code of the last reply, 0 where it can't be read.
    AllTried { count: u32, code: u16 },
}
