//! The digest of a log's bytes, read generation by generation.

ghost use Rattle.std.specs.Prelude.{◌≡◌, false, take, IfOk};
ghost use Rattle.chk_site.specs.History.{Every};
ghost use Rattle.chk_site.specs.Site.{Adds, OutsideCause};
ghost use Rattle.chk_rotate.specs.Readers.{reader_at};
ghost use Rattle.chk_world.specs.JobSteps.{IsOf};
ghost use Rattle.chk_world.specs.Sight.{job};
ghost use Rattle.chk_ctl_audit_log.specs.Placing.{ReadsLogOf};
ghost use Rattle.chk_ctl_audit_log.specs.Summing.{place, SummedLog, SummedOn, TookMore};

use chk_bytes::{NoMemory, Word};
use chk_rotate::{Place, RotTail};
use chk_site::{OutsideFault, Site, Who};
use chk_tail::Step;
use sha2::{Digest, Sha256};
use std::alloc::Global;

/// What a log has at the offsets of a stream.
#[derive(Clone, Copy, Debug)]
pub enum LogSum {
    /// All of them; this is their SHA-256.
    Whole([u8; 32]),
    /// The log as it was read ends at this offset, before the end that was asked for.
    Ends(u64),
}

/// The SHA-256 of the log's bytes from the stream's offset `start` to `end`, where the oldest
/// generation that is there begins at the offset `begin`: the rotated generations in their order,
/// and then the base file. Where it begins past `start`, the bytes are those from `begin` on.
/// `Ends` comes where nothing more could be read before `end`: the base file ends there, or a
/// generation is shorter than what was read of it.
///
/// It reads in pieces of 131,072 bytes, and holds one, and a suffix for each generation. What the
/// oldest generation has in front of `start` isn't read.
pub fn sum_log<S: Site>(
    alloc: Global,
    site: &mut S,
    who: &Who,
    path: &Word,
    begin: u64,
    start: u64,
    end: u64,
) -> Result<LogSum, OutsideFault>
    requires job { who.now ≡ job }
    ensures told { SummedLog who.now path.now begin start end result (S.told site.old)
        (S.told site.new) }
    ensures own { Adds (S.told site.old) (S.told site.new) (Every (IsOf (ReadsLogOf path.now))) }
    ensures cause { OutsideCause (S.fault_count site.old) (S.fault_count site.new) result }
{
    match reader_at(alloc, path, begin, start) {
        Ok(mut reader) => sum_on(alloc, site, who, &mut reader, end),
        Err(NoMemory) => Err(OutsideFault::NoMemory),
    }
}

/// A reader of the log at this place.
fn reader_at(alloc: Global, path: &Word, begin: u64, start: u64) -> Result<RotTail, NoMemory>
    ensures { IfOk result (λ reader. reader ≡ reader_at path.now false (place begin start)) }
{
    match path.copy() {
        Ok(path) => RotTail::new(
            alloc,
            path,
            false,
            Place {
                after: None,
                first: begin,
                offset: begin.max(start),
            },
        ),
        Err(NoMemory) => Err(NoMemory),
    }
}

/// The digest of what the reader reads up to the offset.
fn sum_on<S: Site>(
    alloc: Global,
    site: &mut S,
    who: &Who,
    reader: &mut RotTail,
    end: u64,
) -> Result<LogSum, OutsideFault>
    requires job { who.now ≡ job }
    requires plain { reader.old.lines ≡ false }
    ensures own { Adds (S.told site.old) (S.told site.new)
        (Every (IsOf (ReadsLogOf reader.old.path))) }
    ensures told { SummedOn who.now reader.old end result (S.told site.old) (S.told site.new) }
    ensures cause { OutsideCause (S.fault_count site.old) (S.fault_count site.new) result }
{
    let mut hasher = Sha256::new();
    loop {
        let at = reader.read_end();
        if at >= end {
            return Ok(LogSum::Whole(hasher.finalize()));
        }
        match take_more(alloc, site, who, reader, &mut hasher, end - at) {
            Ok(true) => {}
            Ok(false) => return Ok(LogSum::Ends(at)),
            Err(fault) => return Err(fault),
        }
    }
}

/// Reads on, and hands the hasher at most so many of the bytes. Says whether there were some.
fn take_more<S: Site>(
    alloc: Global,
    site: &mut S,
    who: &Who,
    reader: &mut RotTail,
    hasher: &mut Sha256,
    most: u64,
) -> Result<bool, OutsideFault>
    requires job { who.now ≡ job }
    ensures own { Adds (S.told site.old) (S.told site.new)
        (Every (IsOf (ReadsLogOf reader.old.path))) }
    ensures told { TookMore who.now most reader.old reader.new hasher.old hasher.new result
        (S.told site.old) (S.told site.new) }
    ensures cause { OutsideCause (S.fault_count site.old) (S.fault_count site.new) result }
{
    match reader.step(alloc, site, who) {
        Ok(Step::Bytes { bytes, .. }) => {
            hasher.update(front(bytes.as_slice(), most));
            Ok(true)
        }
        Ok(_) => Ok(false),
        Err(fault) => Err(fault),
    }
}

/// At most so many of the first bytes.
fn front(bytes: &[u8], most: u64) -> &[u8]
    ensures { result.now ≡ take most bytes.now }
{
    if most < bytes.len() as u64 {
        &bytes[..most as usize]
    } else {
        bytes
    }
}
