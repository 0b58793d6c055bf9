//! How far one stream's records were followed.

ghost use Rattle.std.specs.Prelude.{◌≡◌, ℕ, List, length, drop, IfOk};
ghost use Rattle.chk_chunk.specs.Lent.{lent_key};
ghost use Rattle.chk_seqfile.specs.Entries.{records_of};
ghost use Rattle.std.specs.Prelude.{take};
ghost use Rattle.chk_chunk.specs.Keys.{Key, same_stream, has_value};
ghost use Rattle.chk_salvage.specs.Views.{placed_of};
ghost use Rattle.chk_salvage.specs.Feeding.{IsFed, fed_limit, fed_place};
ghost use Rattle.chk_record_index.specs.Feeding.{AreChunks};
ghost use Rattle.chk_ctl_cat.specs.Recents.{IsRecent, row_of};
ghost use Rattle.chk_ctl_cat.specs.Courses.{chunk_with, TookChunk, TookRecord, KeepsCourse, stream_of, FollowedFed};

use crate::recent::{Recent, Row};
use chk_bytes::{Bytes, NoMemory};
use chk_chunk::KeyRef;
use chk_salvage::{EntryRef, Fed, Pieces};
use std::alloc::Global;

/// One stream in a book, the offset from which on its bytes are wanted, and how far its records were followed.
#[derive(Clone, Copy, Debug)]
pub struct Course<'a> {
    pub source: &'a str,
    pub kind: &'a str,
    pub name: &'a str,
    /// The offset of the stream's first byte.
    pub start: u64,
    /// The offset past its last byte.
    pub end: u64,
    /// The first offset that is wanted.
    pub begin: u64,
    /// The offset past the last byte that was come to.
    pub reached: u64,
}

impl Course<'_> {
    /// The key is of this stream.
    pub(crate) fn is_of(&self, key: &KeyRef<'_>) -> bool
        ensures { result ≡ same_stream (stream_of self.now) (lent_key key.now).stream }
    {
        self.source == key.source && self.kind == key.kind && self.name == key.name
    }

    /// Goes on over a chunk, and puts what is wanted of it behind the others; one of another stream is passed over.
    /// It says whether the chunk goes on from those before it, up to the stream's end at most.
    fn take_chunk(&mut self, out: &mut Bytes, row: Row, value: &[u8]) -> Result<bool, NoMemory>
        ensures keeps { KeepsCourse self.old self.new }
        ensures ok { IfOk result (λ is. (k : Key) → row ≡ row_of (stream_of self.old) k
            → TookChunk is (chunk_with k value.now) self.old self.new out.old out.new) }
    {
        if !row.of {
            return Ok(true);
        }
        let begin = row.seq.saturating_sub(value.len() as u64);
        if row.start != self.start || begin != self.reached || row.seq > self.end {
            return Ok(false);
        }
        out.push_all(behind(value, self.begin.saturating_sub(begin)))?;
        self.reached = row.seq;
        Ok(true)
    }

    /// The same of a record, which has to be a chunk of at most so many bytes.
    fn take_record(
        &mut self,
        out: &mut Bytes,
        recent: &mut Recent,
        found: &EntryRef<'_>,
        most: u32,
    ) -> Result<bool, NoMemory>
        requires recent { IsRecent (stream_of self.old) recent.old }
        ensures recent { IsRecent (stream_of self.old) recent.new }
        ensures keeps { KeepsCourse self.old self.new }
        ensures ok { IfOk result (λ is. TookRecord is most (placed_of found.now) self.old self.new out.old out.new) }
    {
        let row = match recent.read(self, found.key)? {
            Some(row) => row,
            None => return Ok(false),
        };
        if !is_size(row.start, row.seq, found.value.len() as u64, most) {
            return Ok(false);
        }
        self.take_chunk(out, row, found.value)
    }

    /// Goes on over all records that are whole in what was fed. It says at which place the file can't be one whose
    /// records go on, whatever follows.
    pub(crate) fn take_fed(
        &mut self,
        alloc: Global,
        out: &mut Bytes,
        pieces: &mut Pieces,
        most: u32,
    ) -> Result<Option<u64>, NoMemory>
        requires { (fed : List ℕ) × IsFed pieces.old fed }
        ensures limit { fed_limit pieces.new ≡ fed_limit pieces.old }
        ensures keeps { KeepsCourse self.old self.new }
        ensures ok { IfOk result (λ stop. (fed : List ℕ) → IsFed pieces.old fed
            → AreChunks most (records_of (take (fed_place pieces.old) fed))
            → FollowedFed most self.old self.new pieces.old pieces.new out.old out.new fed stop) }
    {
        let mut recent = Recent::nothing(alloc);
        let mut place = pieces.place();
        loop {
            match pieces.next() {
                Fed::Entry(found) => {
                    if !self.take_record(out, &mut recent, &found, most)? {
                        return Ok(Some(found.at));
                    }
                    place = found.end;
                }
                Fed::More => return Ok(None),
                Fed::Header(_) => return Ok(Some(0)),
                Fed::Damaged { at, .. } => return Ok(Some(at)),
                Fed::Long { at, .. } => return Ok(Some(at)),
            }
        }
    }
}

/// The bytes behind so many.
fn behind(value: &[u8], skip: u64) -> &[u8]
    ensures { result.now ≡ drop skip value.now }
{
    if skip < value.len() as u64 {
        &value[skip as usize..]
    } else {
        &value[value.len()..]
    }
}

/// A value of this size has at least one byte, no more than `most`, and doesn't begin before the stream's start.
fn is_size(start: u64, seq: u64, size: u64, most: u32) -> bool
    ensures { (k : Key) (value : List ℕ) → k.start ≡ start → k.seq ≡ seq → length value ≡ size
        → result ≡ has_value most k value }
{
    size > 0 && size <= u64::from(most) && start <= seq && size <= seq - start
}
