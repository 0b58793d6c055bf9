//! Where the oldest generation of a log that is there begins in a stream.

ghost use Rattle.std.specs.Prelude.{◌≡◌, length, Err, Some};
ghost use Rattle.std.specs.Option.{option_copied};
ghost use Rattle.chk_site.specs.declared.acts.CallFault.TheVariants.{Short};
ghost use Rattle.chk_site.specs.History.{Every};
ghost use Rattle.chk_site.specs.Site.{Adds, OutsideCause};
ghost use Rattle.chk_world.specs.JobSteps.{IsOf};
ghost use Rattle.chk_world.specs.Sight.{job};
ghost use Rattle.chk_ctl_audit_log.specs.Placing.{further, seen_of, FoundBegin, PassedBytes, PassesNext};
ghost use Rattle.chk_ctl_audit_log.specs.Placing.{ReadsLogOf, SeenBehind, SeesNext};
ghost use Rattle.chk_ctl_audit_log.specs.declared.placing.Next.TheVariants.{Other};

use chk_bytes::comes_before;
use chk_site::{Call, CallFault, OutsideFault, PIECE_BYTES, Part, Piece, Site, Suffix, Who};
use chk_tail::LOG_END;
use std::alloc::Global;

/// The most bytes of one read.
const PIECE: u32 = PIECE_BYTES as u32;

/// The generation behind a suffix.
#[derive(Drop)]
enum Next {
    /// A rotated one with this suffix, and its size.
    Rotated { suffix: Suffix, size: u64 },
    /// The base file, or one that changed meanwhile.
    Other,
}

/// What comes of the generation behind a suffix.
#[derive(Drop)]
enum Passing {
    /// It is passed, and has this suffix; so many bytes are passed with it.
    Further { suffix: Suffix, sum: u64 },
    /// It isn't one of those that were passed.
    Done,
}

/// The offset at which the oldest generation of the log at `path` that is there begins, by a place
/// of the stream: the suffix of the last generation that was passed there, and the offset at which
/// the next one begins. From that offset it goes back by the sizes of the generations up to that
/// suffix that are still there, and not below 0.
///
/// Each of these costs two reads, however long it is, and the first one behind them too. A
/// generation that is removed meanwhile may be missed.
pub fn find_begin<S: Site>(
    alloc: Global,
    site: &mut S,
    who: &Who,
    path: &str,
    after: Option<&Suffix>,
    first: u64,
) -> Result<u64, OutsideFault>
    requires job { who.now ≡ job }
    ensures told { FoundBegin who.now path.now (option_copied after.entry) first result (S.told site.old)
        (S.told site.new) }
    ensures own { Adds (S.told site.old) (S.told site.new) (Every (IsOf (ReadsLogOf path.now))) }
    ensures cause { OutsideCause (S.fault_count site.old) (S.fault_count site.new) result }
{
    match after {
        Some(last) => match passed_bytes(alloc, site, who, path, last) {
            Ok(count) => Ok(first.saturating_sub(count)),
            Err(fault) => Err(fault),
        },
        None => Ok(first),
    }
}

/// How many bytes the rotated generations have together that are there, up to this suffix. It is
/// want of memory where they have 2^64 bytes or more.
fn passed_bytes<S: Site>(
    alloc: Global,
    site: &mut S,
    who: &Who,
    path: &str,
    last: &Suffix,
) -> Result<u64, OutsideFault>
    requires job { who.now ≡ job }
    ensures told { PassedBytes who.now path.now last.now result (S.told site.old)
        (S.told site.new) }
    ensures own { Adds (S.told site.old) (S.told site.new) (Every (IsOf (ReadsLogOf path.now))) }
    ensures cause { OutsideCause (S.fault_count site.old) (S.fault_count site.new) result }
{
    let mut after = None;
    let mut bytes: u64 = 0;
    for _ in 0..u64::MAX {
        match pass_next(alloc, site, who, path, last, after.as_ref(), bytes) {
            Ok(Passing::Further { suffix, sum }) => {
                after = Some(suffix);
                bytes = sum;
            }
            Ok(Passing::Done) => return Ok(bytes),
            Err(fault) => return Err(fault),
        }
    }
    Err(OutsideFault::NoMemory)
}

/// Passes the generation behind the suffix, where it isn't past the last one.
fn pass_next<S: Site>(
    alloc: Global,
    site: &mut S,
    who: &Who,
    path: &str,
    last: &Suffix,
    after: Option<&Suffix>,
    bytes: u64,
) -> Result<Passing, OutsideFault>
    requires job { who.now ≡ job }
    ensures told { PassesNext who.now path.now last.now (option_copied after.entry) bytes result
        (S.told site.old) (S.told site.new) }
    ensures own { Adds (S.told site.old) (S.told site.new) (Every (IsOf (ReadsLogOf path.now))) }
    ensures cause { OutsideCause (S.fault_count site.old) (S.fault_count site.new) result }
{
    match see_next(alloc, site, who, path, after) {
        Ok(Next::Rotated { suffix, size }) => further(last, suffix, size, bytes),
        Ok(Next::Other) => Ok(Passing::Done),
        Err(fault) => Err(fault),
    }
}

/// What comes of a rotated generation of this size, behind so many bytes.
fn further(last: &Suffix, suffix: Suffix, size: u64, bytes: u64) -> Result<Passing, OutsideFault>
    ensures { result ≡ further last.now suffix size bytes }
{
    if comes_before(last.as_str(), suffix.as_str()) {
        return Ok(Passing::Done);
    }
    match bytes.checked_add(size) {
        Some(sum) => Ok(Passing::Further { suffix, sum }),
        None => Err(OutsideFault::NoMemory),
    }
}

/// The generation behind the suffix.
fn see_next<S: Site>(
    alloc: Global,
    site: &mut S,
    who: &Who,
    path: &str,
    after: Option<&Suffix>,
) -> Result<Next, OutsideFault>
    requires job { who.now ≡ job }
    ensures told { SeesNext who.now path.now (option_copied after.entry) result (S.told site.old)
        (S.told site.new) }
    ensures own { Adds (S.told site.old) (S.told site.new) (Every (IsOf (ReadsLogOf path.now))) }
    ensures cause { OutsideCause (S.fault_count site.old) (S.fault_count site.new) result }
{
    match site.log_read(alloc, who, path, Part::After(after), LOG_END, PIECE) {
        Ok(piece) => Ok(beyond(piece)),
        Err(CallFault::Short { size }) => see_end(alloc, site, who, path, after, size),
        Err(CallFault::Failed) => Err(OutsideFault::Outside {
            call: Call::LogRead,
        }),
        Err(CallFault::NoMemory) => Err(OutsideFault::NoMemory),
        Err(_) => unreachable!(),
    }
}

/// A generation that has bytes far behind the end of each.
fn beyond(_piece: Piece) -> Next
    ensures { result ≡ Other }
{
    Next::Other
}

/// The generation behind the suffix, read at its end.
fn see_end<S: Site>(
    alloc: Global,
    site: &mut S,
    who: &Who,
    path: &str,
    after: Option<&Suffix>,
    size: u64,
) -> Result<Next, OutsideFault>
    requires job { who.now ≡ job }
    ensures told { SeenBehind who.now path.now (option_copied after.entry) (Err (Short size)) result
        (S.told site.old) (S.told site.new) }
    ensures own { Adds (S.told site.old) (S.told site.new) (Every (IsOf (ReadsLogOf path.now))) }
    ensures cause { OutsideCause (S.fault_count site.old) (S.fault_count site.new) result }
{
    match site.log_read(alloc, who, path, Part::After(after), size, PIECE) {
        Ok(piece) => Ok(seen_of(piece, size)),
        Err(CallFault::Short { .. }) => Ok(Next::Other),
        Err(CallFault::Failed) => Err(OutsideFault::Outside {
            call: Call::LogRead,
        }),
        Err(CallFault::NoMemory) => Err(OutsideFault::NoMemory),
        Err(_) => unreachable!(),
    }
}

/// What a read at the place shows.
fn seen_of(piece: Piece, size: u64) -> Next
    ensures { result ≡ seen_of size piece.ended (length piece.bytes) }
{
    let Piece { bytes, ended } = piece;
    match ended {
        Some(suffix) => rotated(suffix, size, bytes.len() as u64),
        None => Next::Other,
    }
}

/// A rotated generation of so many bytes.
fn rotated(suffix: Suffix, size: u64, more: u64) -> Next
    ensures { result ≡ seen_of size (Some suffix) more }
{
    match size.checked_add(more) {
        Some(size) => Next::Rotated { suffix, size },
        None => Next::Other,
    }
}
