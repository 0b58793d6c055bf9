ghost use Rattle.std.specs.Prelude.{◌≡◌, ◌+◌, ◌≤◌, ◌^◌, ◌++◌, length, take, IfOk, OnErr, OnOk};
ghost use Rattle.chk_bytes.specs.Numbers.{with_length};
ghost use Rattle.chk_seqfile.specs.Headers.{marker_of};
ghost use Rattle.chk_seqfile.specs.Entries.{piece_at, sync_after, record_entry, sync_entry};

use crate::headers;
use chk_bytes::{Bytes, NoMemory, put_u32};
use std::alloc::Global;

/// Makes the pieces of one file behind its header, in order.
///
/// It holds no bytes of the file: who writes appends the pieces in the order in which they were made.
#[derive(Debug, Drop)]
pub struct SeqWriter {
    /// The length of the file with all pieces so far.
    pub place: u64,
    /// Where the last sync entry ends, or the header.
    pub last_sync: u64,
    /// The file's marker.
    pub marker: [u8; 16],
    ghost ordered: { last_sync ≤ place },
}

/// The bytes between two sync entries: the first record that begins at least so far behind the last
/// one has a new one before it.
const SYNC_INTERVAL: u64 = 2000;

impl SeqWriter {
    /// The writer of a file of which only the header is written.
    pub fn after_header(stem: &str) -> SeqWriter
        ensures place { result.place ≡ 96 }
        ensures last_sync { result.last_sync ≡ 96 }
        ensures marker { result.marker ≡ marker_of stem.now }
    {
        SeqWriter {
            place: 96,
            last_sync: 96,
            marker: headers::marker_of(stem),
        }
    }

    /// The length of the file with all pieces so far.
    pub fn place(&self) -> u64
        ensures { result ≡ self.now.place }
    {
        self.place
    }

    /// The piece to append for a record: a sync entry, where one is due, and the record. It is 16
    /// bytes longer than key and value, or 36 with a sync entry.
    pub fn entry(&mut self, alloc: Global, key: &[u8], value: &[u8]) -> Result<Bytes, NoMemory>
        requires small { length key.now + length value.now ≤ 16777216 }
        requires within { self.old.place ≤ 2 ^ 62 }
        ensures piece { IfOk result (λ piece.
            piece ≡ piece_at self.old.marker self.old.place self.old.last_sync key.now value.now) }
        ensures place { IfOk result (λ piece. self.new.place ≡ self.old.place + length piece) }
        ensures last_sync { OnOk result (self.new.last_sync ≡ sync_after self.old.place self.old.last_sync) }
        ensures marker { self.new.marker ≡ self.old.marker }
        ensures err { OnErr result (self.new ≡ self.old) }
    {
        let mut piece = Bytes::new(alloc);
        self.entry_to(&mut piece, key, value)?;
        Ok(piece)
    }

    /// Appends the piece for a record to `out`: each byte is copied once. Without memory `out` and
    /// the writer are as before.
    pub fn entry_to(&mut self, out: &mut Bytes, key: &[u8], value: &[u8]) -> Result<(), NoMemory>
        requires small { length key.now + length value.now ≤ 16777216 }
        requires within { self.old.place ≤ 2 ^ 62 }
        ensures piece { OnOk result
            (out.new ≡ out.old ++ piece_at self.old.marker self.old.place self.old.last_sync key.now value.now) }
        ensures place { OnOk result (self.new.place ≡ self.old.place
            + length (piece_at self.old.marker self.old.place self.old.last_sync key.now value.now)) }
        ensures last_sync { OnOk result (self.new.last_sync ≡ sync_after self.old.place self.old.last_sync) }
        ensures marker { self.new.marker ≡ self.old.marker }
        ensures err { OnErr result (self.new ≡ self.old) }
        ensures out { OnErr result (out.new ≡ out.old) }
    {
        let before = out.len();
        match self.push_piece(out, key, value) {
            Ok(last_sync) => {
                self.place += (out.len() - before) as u64;
                self.last_sync = last_sync;
                Ok(())
            }
            Err(fault) => {
                out.truncate(before);
                Err(fault)
            }
        }
    }

    /// Appends the piece for a record, and says where the last sync entry then ends. Without memory
    /// some of it may be there.
    fn push_piece(&self, out: &mut Bytes, key: &[u8], value: &[u8]) -> Result<u64, NoMemory>
        requires small { length key.now + length value.now ≤ 16777216 }
        requires within { self.now.place ≤ 2 ^ 62 }
        ensures piece { OnOk result
            (out.new ≡ out.old ++ piece_at self.now.marker self.now.place self.now.last_sync key.now value.now) }
        ensures last_sync { IfOk result (λ last. last ≡ sync_after self.now.place self.now.last_sync) }
        ensures err { OnErr result (take (length out.old) out.new ≡ out.old) }
    {
        let mut last_sync = self.last_sync;
        if self.place >= self.last_sync + SYNC_INTERVAL {
            push_sync(out, &self.marker)?;
            last_sync = self.place + 20;
        }
        push_record(out, key, value)?;
        Ok(last_sync)
    }
}

/// Appends a sync entry. Without memory some of it may be there.
fn push_sync(out: &mut Bytes, marker: &[u8; 16]) -> Result<(), NoMemory>
    ensures ok { OnOk result (out.new ≡ out.old ++ sync_entry marker.now) }
    ensures err { OnErr result (take (length out.old) out.new ≡ out.old) }
{
    out.push_all(&[255; 4])?;
    out.push_all(marker)
}

/// Appends a record. Without memory some of it may be there.
fn push_record(out: &mut Bytes, key: &[u8], value: &[u8]) -> Result<(), NoMemory>
    requires { length key.now + length value.now ≤ 16777216 }
    ensures ok { OnOk result (out.new ≡ out.old ++ record_entry key.now value.now) }
    ensures err { OnErr result (take (length out.old) out.new ≡ out.old) }
{
    put_u32(out, (8 + key.len() + value.len()) as u32)?;
    put_u32(out, (4 + key.len()) as u32)?;
    push_with_length(out, key)?;
    push_with_length(out, value)
}

/// Appends bytes behind their length in 4 bytes. Without memory some of it may be there.
fn push_with_length(out: &mut Bytes, bytes: &[u8]) -> Result<(), NoMemory>
    requires { length bytes.now ≤ 16777216 }
    ensures ok { OnOk result (out.new ≡ out.old ++ with_length bytes.now) }
    ensures err { OnErr result (take (length out.old) out.new ≡ out.old) }
{
    put_u32(out, bytes.len() as u32)?;
    out.push_all(bytes)
}
