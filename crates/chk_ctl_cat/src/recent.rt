//! The last key that was read, by which the next one is known.

ghost use Rattle.std.specs.Prelude.{◌≡◌, IsTrue, IfOk, IfSome};
ghost use Rattle.chk_chunk.specs.Keys.{IsKey, Stream};
ghost use Rattle.chk_chunk.specs.Lent.{lent_key};
ghost use Rattle.chk_ctl_cat.specs.Courses.{stream_of};
ghost use Rattle.chk_ctl_cat.specs.Recents.{IsAlike, IsRecent, IsRow, ReadRow, row_of};

use crate::course::Course;
use chk_bytes::{Bytes, NoMemory, take_u64};
use chk_chunk::{KeyRef, read_key};
use std::alloc::Global;

/// What counts of a key for one who follows a stream.
#[derive(Clone, Copy)]
pub(crate) struct Row {
    /// It is of that stream.
    pub(crate) of: bool,
    /// The offset of its stream's first byte.
    pub(crate) start: u64,
    /// The offset past its chunk's last byte.
    pub(crate) seq: u64,
}

/// The last key that was read. Where the next one has the same stream, start and cluster, its bytes are compared with it, and
/// its texts aren't tested again.
#[derive(Drop)]
pub(crate) struct Recent {
    bytes: Bytes,
    of: bool,
    start: u64,
}

impl Recent {
    /// No key.
    pub(crate) fn nothing(alloc: Global) -> Recent
        ensures { (s : Stream) → IsRecent s result }
    {
        Recent {
            bytes: Bytes::new(alloc),
            of: false,
            start: 0,
        }
    }

    /// What counts of the key that these bytes are; none where they are no key.
    pub(crate) fn read(
        &mut self,
        course: &Course<'_>,
        bytes: &[u8],
    ) -> Result<Option<Row>, NoMemory>
        requires { IsRecent (stream_of course.now) self.old }
        ensures recent { IsRecent (stream_of course.now) self.new }
        ensures row { IfOk result (ReadRow (stream_of course.now) bytes.now) }
    {
        if let Some(row) = self.next(bytes) {
            return Ok(Some(row));
        }
        match read_key(bytes) {
            Ok(key) => self.keep(course, bytes, &key),
            Err(_) => Ok(None),
        }
    }

    /// What counts of this key, where it is the last one but for the sequence id.
    fn next(&self, bytes: &[u8]) -> Option<Row>
        ensures { (s : Stream) → IsRecent s self.now → IfSome result (IsRow s bytes.now) }
    {
        if !is_alike(self.bytes.as_slice(), bytes) {
            return None;
        }
        let seq = take_u64(bytes, 1)?;
        if seq <= self.start || seq >= 1 << 63 {
            return None;
        }
        Some(Row {
            of: self.of,
            start: self.start,
            seq,
        })
    }

    /// Keeps a key that was read, and tells what counts of it. Without memory it keeps none.
    fn keep(
        &mut self,
        course: &Course<'_>,
        bytes: &[u8],
        key: &KeyRef<'_>,
    ) -> Result<Option<Row>, NoMemory>
        requires { IsKey (lent_key key.now) bytes.now }
        ensures recent { IsRecent (stream_of course.now) self.new }
        ensures row { IfOk result (ReadRow (stream_of course.now) bytes.now) }
    {
        let of = course.is_of(key);
        self.bytes.truncate(0);
        self.bytes.push_all(bytes)?;
        self.of = of;
        self.start = key.start;
        Ok(Some(Row {
            of,
            start: key.start,
            seq: key.seq,
        }))
    }
}

/// The bytes are those of the last key, but for the sequence id.
fn is_alike(last: &[u8], bytes: &[u8]) -> bool
    ensures { IsTrue result → IsAlike last.now bytes.now }
{
    if last.len() < 9 || bytes.len() < 9 {
        return false;
    }
    bytes[0] == last[0] && bytes[9..] == last[9..]
}
