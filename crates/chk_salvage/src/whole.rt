//! Reads whole files.

ghost use Rattle.std.specs.Prelude.{◌≡◌, ◌≤◌, ◌<◌, ◌↔◌, ℕ, List, length, take, Err, IfOk};
ghost use Rattle.chk_seqfile.specs.Headers.{read_header};
ghost use Rattle.chk_seqfile.specs.Entries.{IsSequenceFile, records_of, ending_by};
ghost use Rattle.chk_salvage.specs.Front.{kept, skipped};
ghost use Rattle.chk_salvage.specs.Readers.{HasReadSo, bytes_in, marker_in, records_left, items_left};
ghost use Rattle.chk_salvage.specs.Whole.{IsFrontOf, IsSalvageOf, IsStopOf};

use crate::lists::{EntryRefs, Spans};
use crate::outcome::{Front, FrontFault, FrontStop, Salvaged};
use crate::reader::{Next, Reader};
use chk_bytes::NoMemory;
use chk_seqfile::HeaderFault;
use std::alloc::Global;

/// The records of a file up to its end or its first damage. A header that is refused is the answer
/// alone. It goes over the entries once, and keeps one row for each record.
pub fn front(alloc: Global, bytes: &[u8]) -> Result<Front<'_>, FrontFault>
    ensures front { IfOk result (λ front. IsFrontOf bytes.now front) }
    // Of a file that is cut behind its header, just the records that end by the cut are given.
    ensures cut { IfOk result (λ front. (whole : List ℕ) (file : IsSequenceFile whole) (n : ℕ) → length file.head ≤ n
        → bytes.now ≡ take n whole → front.entries ≡ ending_by n (records_of whole)) }
    ensures header { (fault : HeaderFault) → (result ≡ Err (FrontFault.Header fault)) ↔ (read_header bytes.now ≡ Err fault) }
{
    let reader = Reader::new(bytes)?;
    let front = front_of(alloc, reader)?;
    Ok(front)
}

/// The records up to the place at which a reader stops.
fn front_of<'a>(alloc: Global, reader: Reader<'a>) -> Result<Front<'a>, NoMemory>
    requires { HasReadSo reader }
    ensures entries { IfOk result (λ front. front.entries ≡ records_left reader.entry) }
    ensures stop { IfOk result (λ front. IsStopOf (marker_in reader.entry) (bytes_in reader.entry) front.stop) }
{
    let mut reader = reader;
    let mut entries = EntryRefs::new(alloc);
    loop {
        match reader.next() {
            Next::Entry(entry) => entries.push(entry)?,
            Next::End => {
                return Ok(Front {
                    entries,
                    stop: FrontStop::End,
                });
            }
            Next::Damaged { at, why } => {
                return Ok(Front {
                    entries,
                    stop: FrontStop::Damaged { at, why },
                });
            }
        }
    }
}

/// All records of a file that can be read: behind damage, reading goes on at the next place at which
/// a whole sync entry with the file's marker stands. It goes over the bytes at most twice, and keeps
/// one row for each record and each range that was skipped.
pub fn salvage(alloc: Global, bytes: &[u8]) -> Result<Salvaged<'_>, FrontFault>
    ensures found { IfOk result (λ found. IsSalvageOf bytes.now found) }
    ensures header { (fault : HeaderFault) → (result ≡ Err (FrontFault.Header fault)) ↔ (read_header bytes.now ≡ Err fault) }
{
    let reader = Reader::new(bytes)?;
    let found = salvage_of(alloc, reader)?;
    Ok(found)
}

/// All that a reader can read, with each damage skipped.
fn salvage_of<'a>(alloc: Global, reader: Reader<'a>) -> Result<Salvaged<'a>, NoMemory>
    ensures entries { IfOk result (λ found. found.entries ≡ kept (items_left reader.entry)) }
    ensures skipped { IfOk result (λ found. found.skipped ≡ skipped (items_left reader.entry)) }
{
    let mut reader = reader;
    let mut entries = EntryRefs::new(alloc);
    let mut skipped = Spans::new(alloc);
    loop {
        match reader.next() {
            Next::Entry(entry) => entries.push(entry)?,
            Next::Damaged { .. } => skipped.push(reader.skip())?,
            Next::End => return Ok(Salvaged { entries, skipped }),
        }
    }
}
